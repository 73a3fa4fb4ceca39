// Laws that integrators lean on: filling joined lists, reading two records in either order, padding in two steps. Each
// is a promise of `records_in_any_order`, over all lists, stores and lengths; the definitions are in specs/, the
// proofs in proofs/.
#![tactic(auto)]

pub mod stricter;

ghost use Rattle.std.specs.Prelude.{◌≡◌, true, List, ◌++◌, ℕ, ◌≤◌, length};
ghost use Rattle.dictionary.specs.Rows.{Row, store_size};
ghost use Rattle.reading.specs.declared.Sfi.{Sfi};
ghost use Rattle.laws.specs.Lists.{FillsDol, FittingTwiceIsFittingOnce};
ghost use Rattle.laws.specs.Records.{ShareNoPrimitiveTag, ReadingAccepted, read_record_contents, read_record_answer, RecordContentsCommuteAndJoin, RecordAnswersCommuteAndJoin};
ghost use Rattle.laws.specs.Records.{outer_object_contents, is_successful_record_answer_in70, RecordAnswerWithContents, shortest_record_answer};

// The most bytes of contents that a record's answer holds: up to here, joined contents are one answer.
pub fn records_in_any_order() -> usize
    ensures most { result ≡ 253 }
    ensures filling { (table : List Row) (store s t v w : List ℕ) → FillsDol table store s v → FillsDol table store t w
        → FillsDol table store (s ++ t) (v ++ w) }
    ensures records { (b c d : List ℕ) → length b ≡ store_size → ShareNoPrimitiveTag c d
        → ReadingAccepted (read_record_contents c) b → ReadingAccepted (read_record_contents d) b → RecordContentsCommuteAndJoin b c d }
    ensures answers { (f g : Sfi) (b s t : List ℕ) → f.number ≤ 10 → g.number ≤ 10 → length b ≡ store_size
        → ShareNoPrimitiveTag (outer_object_contents s) (outer_object_contents t) → ReadingAccepted (read_record_answer f s) b → ReadingAccepted (read_record_answer g t) b → RecordAnswersCommuteAndJoin f g b s t }
    ensures padding { (form m n : ℕ) (v : List ℕ) → length v ≤ m → m ≤ n → FittingTwiceIsFittingOnce form m n v }
    ensures whole { (f : Sfi) (b s : List ℕ) → f.number ≤ 10 → is_successful_record_answer_in70 s ≡ true
        → read_record_answer f s b ≡ read_record_contents (outer_object_contents s) b }
    ensures accepted { (f : Sfi) (b s : List ℕ) → f.number ≤ 10 → ReadingAccepted (read_record_answer f s) b → is_successful_record_answer_in70 s ≡ true }
    ensures room { (c : List ℕ) → length c ≤ result → RecordAnswerWithContents (shortest_record_answer c) c }
    ensures longest { (s : List ℕ) → is_successful_record_answer_in70 s ≡ true → length (outer_object_contents s) ≤ result }
{
    253
}
