// Calls every open function that no other proved code calls, so that each has a caller that must meet its precondition.
//
// Each call is in a function that has no precondition and passes on its own arguments: a condition that some arguments
// do not meet is refused here. `tests/called` names the functions that nothing calls.
#![tactic(auto)]

use analysis::choice::Choice;
use call_list::PlayError;
use dictionary::{RowAttributes, SIZE};
use journal::{JournalChecker, JournalVerdict};
use layout::{RECORD_SIZE, SessionRecordHead};
use reading::{Awaited, BothReadings};
use session_record::Session;

// The bytes of a cabinet's state.
const STATE_SIZE: usize = RECORD_SIZE + 16;

fn main(rt: HostRuntime) {
    statements(&rt);
    unprinted();
    parts(&rt);
    readers(&rt);
    calls(&rt);
    cabinet(&rt);
    card(&rt);
    judge(&rt);
}

// ---- functions that stand for a statement

fn statements(rt: &impl Print) {
    line(rt, b"bench::rows", bench_rows::proved_bench_row_count());
    line(
        rt,
        b"trace::most_commands",
        session_claim::every_session_follows_published_order(),
    );
    line(rt, b"laws::most_contents", laws::records_in_any_order());
    word(
        rt,
        b"explain_calls::refusal_word",
        explain_claim::explanation_refused_word(),
    );
    line(
        rt,
        b"rank::rank, of offline",
        usize::from(rank_of(Choice::Offline)),
    );
    found(
        rt,
        b"cabinet_calls::most_approved",
        cabinet_claim::approved_within_cap(),
    );
    host_claim::host_calls_follow_published_order();
    worked_examples::examples_hold();
    worked_words::word_examples_hold();
    dictionary_rows(rt);
}

// Calls that print nothing: no other code makes them.
fn unprinted() {
    basics::widen(0);
    basics::is_between(0, 0, 0);
    basics::copy(b"", &mut [0u8; 1]);
}

fn rank_of(choice: Choice) -> u8 {
    laws::stricter::choice_rank(choice)
}

// ---- the dictionary's rows

// Of tags and of what a row may be nothing is shown: `test_dictionary_rows` shows them of each row.
fn dictionary_rows(rt: &impl Print) {
    let rows = dictionary::used_rows();
    let last = rows[dictionary::USED - 1];
    line(rt, b"dictionary::used_rows, the last", last);
    let _ = dictionary::dictionary_tags();
    let attributes = dictionary::attributes_of(last);
    let _ = is_brought_by(attributes, dictionary::GPO);
    let _ = is_in(attributes, dictionary::IN_70);
}

// The one condition of these two is that there is a bit: what 0 stands for is no answer and no template.
fn is_brought_by(attributes: RowAttributes, answer: u8) -> bool {
    answer != 0 && attributes.may_be_brought_by(answer)
}

fn is_in(attributes: RowAttributes, template: u8) -> bool {
    template != 0 && attributes.may_be_in(template)
}

// ---- the record

fn parts(rt: &impl Print) {
    line(
        rt,
        b"run::said_number",
        widened(said_number(Ok(()))) as usize,
    );
    if in_ranges(session_record::fresh_session()) {
        print::print_text(rt, b"record::in_ranges: a fresh session is\n");
    }
    if decode(b"").is_none() {
        print::print_text(rt, b"layout::decode: no bytes hold no record\n");
    }
}

fn in_ranges(session: Session) -> bool {
    session_record::session_record_in_ranges(session)
}

fn decode(bytes: &[u8]) -> Option<SessionRecordHead> {
    let mut store = [0u8; SIZE];
    layout::decode_record(bytes, &mut store)
}

fn widened(number: u8) -> u32 {
    basics::widen32(number)
}

fn said_number(said: Result<(), PlayError>) -> u8 {
    call_list::play_result_number(said)
}

// ---- both readers of an answer

fn readers(rt: &impl Print) {
    let read = both(Awaited::Gpo, b"\x77\x00\x90\x00");
    line(
        rt,
        b"reading::read_both, the first's objects",
        read.recursive.objects,
    );
    line(
        rt,
        b"reading::read_both, the second's objects",
        read.flat.objects,
    );
    line(
        rt,
        b"reading::flat::judge_answer",
        usize::from(judged(Awaited::Gpo, b"\x90\x01")),
    );
    let mut store = [0u8; SIZE];
    word(
        rt,
        b"emv_test_read",
        test_read(&mut store, 1, 1, b"\x70\x00\x90\x00"),
    );
    word(
        rt,
        b"emv_test_read_flat",
        test_read_flat(&mut store, 1, 1, b"\x70\x00\x90\x00"),
    );
}

fn both(awaited: Awaited, answer: &[u8]) -> BothReadings {
    let mut first = [0u8; SIZE];
    let mut second = [0u8; SIZE];
    reading::read_both(&mut first, &mut second, awaited, answer)
}

fn judged(awaited: Awaited, answer: &[u8]) -> u8 {
    let store = [0u8; SIZE];
    reading::verdict_number(reading::flat::judge_answer(&store, awaited, answer))
}

fn test_read(store: &mut [u8], awaited: u32, sfi: u8, card: &[u8]) -> u32 {
    test_reading::emv_test_read(store, awaited, sfi, card)
}

fn test_read_flat(store: &mut [u8], awaited: u32, sfi: u8, card: &[u8]) -> u32 {
    test_reading_flat::emv_test_read_flat(store, awaited, sfi, card)
}

// ---- the exported calls

fn calls(rt: &impl Print) {
    let mut session = [0u8; RECORD_SIZE];
    let mut command = [0u8; 261];
    line(rt, b"emv_session_size", host::emv_session_size());
    word(rt, b"emv_open", open(&mut session));
    word(rt, b"emv_start", start(&mut session, b"", &mut command));
    word(
        rt,
        b"emv_answer",
        answer(&mut session, b"\x90\x00", &mut command),
    );
    word(
        rt,
        b"emv_link_failed",
        link_failed(&mut session, &mut command),
    );
    word(rt, b"emv_stop", stop(&mut session, &mut command));
    word(rt, b"emv_count", count(&session));
    word(rt, b"emv_explain", explain(&session));
    let mut value = [0u8; 254];
    word(rt, b"emv_object", object(&session, 0x9F02, &mut value));
    word(rt, b"emv_wipe", wipe(&mut session));
    word(rt, b"emv_version", host::emv_version());
    found(rt, b"emv_find", find(b"\x6F\x04\x84\x02\x41\x42", 0x84));
    word(rt, b"emv_test_journal", test_journal(b"\x07", 0, 1));
    line(rt, b"emv_test_wanted", test_wanted(b"\x07", &mut value));
}

fn open(session: &mut [u8]) -> u32 {
    host::emv_open(session)
}

fn start(session: &mut [u8], terminal: &[u8], command: &mut [u8]) -> u32 {
    host::emv_start(session, terminal, command)
}

fn answer(session: &mut [u8], card: &[u8], command: &mut [u8]) -> u32 {
    host::emv_answer(session, card, command)
}

fn link_failed(session: &mut [u8], command: &mut [u8]) -> u32 {
    host::emv_link_failed(session, command)
}

fn stop(session: &mut [u8], command: &mut [u8]) -> u32 {
    host::emv_stop(session, command)
}

fn count(session: &[u8]) -> u32 {
    host::emv_count(session)
}

fn explain(session: &[u8]) -> u32 {
    host::emv_explain(session)
}

fn object(session: &[u8], tag: u32, value: &mut [u8]) -> u32 {
    host::emv_object(session, tag, value)
}

fn wipe(session: &mut [u8]) -> u32 {
    host::emv_wipe(session)
}

fn find(bytes: &[u8], tag: u32) -> u64 {
    host::emv_find(bytes, tag)
}

fn test_journal(bytes: &[u8], first: usize, part: usize) -> u32 {
    test_journal::emv_test_journal(bytes, first, part)
}

fn test_wanted(bytes: &[u8], out: &mut [u8]) -> usize {
    test_journal::emv_test_wanted(bytes, out)
}

// ---- the cabinet's calls

fn cabinet(rt: &impl Print) {
    let mut state = [0u8; STATE_SIZE];
    let mut command = [0u8; 261];
    line(rt, b"cabinet_size", cabinet::cabinet_size());
    word(rt, b"cabinet_open", cabinet_open(&mut state, 1000));
    found(rt, b"cabinet_left", cabinet_left(&state));
    word(
        rt,
        b"cabinet_start",
        cabinet_start(&mut state, b"", &mut command),
    );
    word(
        rt,
        b"cabinet_answer",
        cabinet_answer(&mut state, b"\x90\x00", &mut command),
    );
    word(
        rt,
        b"cabinet_link_failed",
        cabinet_link_failed(&mut state, &mut command),
    );
    word(rt, b"cabinet_stop", cabinet_stop(&mut state, &mut command));
    found(
        rt,
        b"cabinet_find",
        cabinet_find(b"\x9C\x01\x00", b"\x9F\x35\x01\x22", 0x9F35),
    );
    line(
        rt,
        b"cabinet_lookup::lookup, its length",
        looked_up(b"\x9C\x01\x00", b"\x9F\x35\x01\x22", 0x9F35),
    );
}

fn cabinet_open(state: &mut [u8], cap: u64) -> u32 {
    cabinet::cabinet_open(state, cap)
}

fn cabinet_start(state: &mut [u8], terminal: &[u8], command: &mut [u8]) -> u32 {
    cabinet::cabinet_start(state, terminal, command)
}

fn cabinet_answer(state: &mut [u8], card: &[u8], command: &mut [u8]) -> u32 {
    cabinet::cabinet_answer(state, card, command)
}

fn cabinet_link_failed(state: &mut [u8], command: &mut [u8]) -> u32 {
    cabinet::cabinet_link_failed(state, command)
}

fn cabinet_stop(state: &mut [u8], command: &mut [u8]) -> u32 {
    cabinet::cabinet_stop(state, command)
}

fn cabinet_left(state: &[u8]) -> u64 {
    cabinet::cabinet_left(state)
}

fn cabinet_find(site: &[u8], defaults: &[u8], tag: u32) -> u64 {
    cabinet::cabinet_find(site, defaults, tag)
}

fn looked_up<'a>(site: &'a [u8], defaults: &'a [u8], tag: u32) -> usize {
    cabinet_lookup::lookup_value(site, defaults, tag).len()
}

fn card(rt: &impl Print) {
    let mut records = [0u8; 32768];
    let mut afl = [0u8; 248];
    found(
        rt,
        b"emv_personalise",
        write_card(b"", b"\x08\x01\x02\x00", b"", &mut records, &mut afl),
    );
}

fn write_card(
    objects: &[u8],
    entries: &[u8],
    placements: &[u8],
    records: &mut [u8],
    afl: &mut [u8],
) -> u64 {
    personalise::emv_personalise(objects, entries, placements, records, afl)
}

// ---- a journal

fn judge(rt: &impl Print) {
    line(rt, b"journal::wanted, its size", wanted_size(fed()));
    if let JournalVerdict::Mismatch(n) = finish(fed()) {
        line(rt, b"journal::finish: unlike", n);
    }
}

// A checker that read a byte that is no kind of record.
fn fed() -> JournalChecker {
    feed(journal::begin(), b"\x07")
}

fn feed(checker: JournalChecker, part: &[u8]) -> JournalChecker {
    journal::feed(checker, part)
}

fn finish(checker: JournalChecker) -> JournalVerdict {
    journal::finish(checker)
}

fn wanted_size(checker: JournalChecker) -> usize {
    journal::expected_reply_record(checker).size
}

// ---- lines

fn line(rt: &impl Print, name: &[u8], number: usize) {
    print::print_text(rt, name);
    print::print_text(rt, b": ");
    print::print_number(rt, number);
    print::print_text(rt, b"\n");
}

// A result word by its upper and its lower half.
fn word(rt: &impl Print, name: &[u8], word: u32) {
    print::print_text(rt, name);
    print::print_text(rt, b": ");
    print::print_number(rt, (word / 65536) as usize);
    print::print_text(rt, b" ");
    print::print_number(rt, (word % 65536) as usize);
    print::print_text(rt, b"\n");
}

// A word of 64 bits by its two halves.
fn found(rt: &impl Print, name: &[u8], place: u64) {
    print::print_text(rt, name);
    print::print_text(rt, b": ");
    print::print_number(rt, (place / 0x100000000) as usize);
    print::print_text(rt, b" ");
    print::print_number(rt, (place % 0x100000000) as usize);
    print::print_text(rt, b"\n");
}
