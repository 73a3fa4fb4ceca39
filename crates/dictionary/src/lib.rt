// The dictionary of data objects: for each known tag its least and greatest length, its form, who may set it, the
// templates that may be directly around it, the answers that may bring it, and whether a start must bring it. Rows are
// in rising order of their tags.
//
// `lookup_row` finds a tag's row, by halving; `search_tags` does the same in any list of tags. `row_tag` and
// `attributes_of` answer for a row, with zeros past the last row; `length_and_digits_fit_row` reports whether a value's
// length and digits are allowed. `columns` has what a row may say, `rows` the table itself, which `bin/dictionary`
// writes from `dictionary.tsv`.
#![tactic(auto)]

mod columns;
mod rows;
pub mod tables;

ghost use Rattle.std.specs.Prelude.{◌≡◌, true, List, map, ℕ, ◌+◌, ◌^◌, ◌≤◌, ◌<◌, length, get_or};
ghost use Rattle.std.specs.List.{list_all};
ghost use Rattle.basics.specs.Number.{has_bit_of_weight};
ghost use Rattle.dictionary.specs.Rows.{Row, dictionary_rows, row_at, row_count, find_row, row_number_of_tag_or_zero};
ghost use Rattle.dictionary.specs.Rule.{rising_tags, tags_rise_and_rows_valid};
ghost use Rattle.dictionary.specs.Search.{halving_search_result, tags_of, ProbesCountedAndSufficient, PartProbesCountedAndSufficient, halving_search_result_in_part};
ghost use Rattle.dictionary.specs.Form.{is_compressed_numeric, digits_match_form, length_and_digits_fit_row};
ghost use Rattle.dictionary.specs.Inner.{row_range_for_tag, is_decimal_byte, leading_decimal_bytes, all_bytes_ff};
ghost use Rattle.dictionary.specs.Packing.{attributes_of, row_with_attributes_and_tag_zero, packed_row_attributes, unpacked_row_attributes};
ghost use Rattle.dictionary.specs.Named.{used_tags};
ghost use Rattle.dictionary.specs.TerminalType.{listed_terminal_type};

use columns::{ANSWERS, FORM, GREATEST, MUST, SETTERS, TEMPLATES};
pub use columns::{
    CARD, CARD_RECORD, CHECKSUM, CRYPTOGRAM, FORM_B, FORM_CN, FORM_N, GPO, IN_6F, IN_70, IN_77,
    IN_A5, IN_BF0C, SESSION, START,
};
use rows::{CODES, FIRST_OF_5F, FIRST_OF_9F, FIRST_OF_DF, FIRST_OF_THREE, TAGS, USED_ROWS};
pub use rows::{
    REQUIRED, REQUIRED_ROWS, ROW_AC, ROW_ADDITIONAL_CAPABILITIES, ROW_AFL, ROW_AIP, ROW_AMOUNT,
    ROW_AMOUNT_OTHER, ROW_APPLICATION_CURRENCY, ROW_ATC, ROW_AUC, ROW_CARD_VERSION, ROW_CDOL1,
    ROW_CID, ROW_CVC3_TRACK2, ROW_CVM_LIST, ROW_CVM_REQUIRED_LIMIT, ROW_CVM_RESULTS,
    ROW_EFFECTIVE_DATE, ROW_EXPIRATION_DATE, ROW_FLOOR_LIMIT, ROW_IAC_DEFAULT, ROW_IAC_DENIAL,
    ROW_IAC_ONLINE, ROW_IAD, ROW_ISSUER_COUNTRY, ROW_KERNEL_CONFIGURATION,
    ROW_LIMIT_NO_ON_DEVICE_CVM, ROW_LIMIT_ON_DEVICE_CVM, ROW_NATC_TRACK2, ROW_PAN,
    ROW_PCVC3_TRACK2, ROW_PDOL, ROW_PUNATC_TRACK2, ROW_READER_VERSION, ROW_TAC_DEFAULT,
    ROW_TAC_DENIAL, ROW_TAC_ONLINE, ROW_TERMINAL_CAPABILITIES, ROW_TERMINAL_COUNTRY,
    ROW_TERMINAL_TYPE, ROW_TRACK2_DATA, ROW_TRANSACTION_CURRENCY, ROW_TRANSACTION_DATE,
    ROW_TRANSACTION_TYPE, ROW_TVR, ROW_UDOL, ROW_UN, ROW_UN_NUMERIC, ROWS, SIZE, USED,
};
pub use tables::DictionaryTables;

// What a row states besides its tag: the lengths, the form, and the sets of bits; `must` is 1 where a start must bring
// the object, else 0.
#[derive(Clone, Copy)]
pub struct RowAttributes {
    pub least: usize,
    pub greatest: usize,
    pub form: u8,
    pub setters: u8,
    pub templates: u8,
    pub answers: u8,
    pub must: u8,
}

impl RowAttributes {
    // Whether a setter, `START`, `CARD` or `SESSION`, may set the object.
    pub fn may_be_set_by(self, setter: u8) -> bool
        requires { 1 ≤ setter }
        ensures { result ≡ has_bit_of_weight self.setters setter }
    {
        self.setters / setter % 2 == 1
    }

    // Whether an answer, as `GPO` or `CARD_RECORD`, may bring the object.
    pub fn may_be_brought_by(self, answer: u8) -> bool
        requires { 1 ≤ answer }
        ensures { result ≡ has_bit_of_weight self.answers answer }
    {
        self.answers / answer % 2 == 1
    }

    // Whether a template, as `IN_70`, may be directly around the object.
    pub fn may_be_in(self, template: u8) -> bool
        requires { 1 ≤ template }
        ensures { result ≡ has_bit_of_weight self.templates template }
    {
        self.templates / template % 2 == 1
    }
}

// A search: where the tag is, and how many tags were probed.
#[derive(Clone, Copy)]
pub struct SearchResult {
    pub found: Option<usize>,
    pub probes: usize,
}

// Some rows of the table: from one on, up to one that is no more among them.
#[derive(Clone, Copy)]
pub struct RowRange {
    pub from: usize,
    pub to: usize,
}

// The row of a tag, and the probes of its search. The table it searches satisfies its rule: rising, well-formed tags,
// lengths in order.
pub fn lookup_row(tag: u32) -> SearchResult
    ensures found { result.found ≡ find_row dictionary_rows tag }
    ensures halving { result ≡ halving_search_result (tags_of dictionary_rows) tag }
    ensures few { (k : ℕ) → row_count < 2 ^ k → result.probes ≤ k }
    ensures table { tags_rise_and_rows_valid dictionary_rows ≡ true }
{
    search_tags(&TAGS, tag)
}

// A search by halving in any list of tags: each iteration probes the middle one of those that are left.
// Kept: a loop by hand, since `binary_search` of std promises no count of its probes, which `counted` and `few` do.
pub fn search_tags(tags: &[u32], tag: u32) -> SearchResult
    ensures halving { result ≡ halving_search_result tags.now tag }
    ensures found { (table : List Row) → tags_of table ≡ tags.now → rising_tags table ≡ true → result.found ≡ find_row table tag }
    ensures few { (k : ℕ) → length tags.now < 2 ^ k → result.probes ≤ k }
    ensures counted { ProbesCountedAndSufficient tags.now tag result }
{
    let mut from = 0;
    let mut to = tags.len();
    let mut probes = 0;
    while from < to {
        let middle = (from + to) / 2;
        let looked = tags[middle];
        probes += 1;
        if looked < tag {
            from = middle + 1;
        } else {
            if looked == tag {
                return SearchResult {
                    found: Some(middle),
                    probes,
                };
            }
            to = middle;
        }
    }
    SearchResult {
        found: None,
        probes,
    }
}

// The row of a tag with the tags borrowed: the search goes over the part of the table that a tag of this many bytes,
// with this first byte, can be in.
pub fn find_row(tags: &[u32], tag: u32) -> SearchResult
    requires { tags.now ≡ tags_of dictionary_rows }
    ensures found { result.found ≡ find_row dictionary_rows tag }
    ensures halving { result ≡ halving_search_result_in_part (tags_of dictionary_rows) tag }
    ensures few { (k : ℕ) → row_count < 2 ^ k → result.probes ≤ k }
    ensures counted { PartProbesCountedAndSufficient (tags_of dictionary_rows) tag result }
{
    let RowRange { from, to } = part_of(tag);
    let searched = search_tags(&tags[from..to], tag);
    SearchResult {
        found: searched.found.map(|k| from + k),
        probes: searched.probes,
    }
}

// The rows of a tag's part: tags of one byte, of two from 5F on, from 9F on and from DF on, and of three.
fn part_of(tag: u32) -> RowRange
    ensures value { result ≡ row_range_for_tag tag }
    ensures from_le_to { (result.from ≤ result.to) × (result.to ≤ row_count) }
{
    match tag {
        ..0x100 => RowRange {
            from: 0,
            to: FIRST_OF_5F,
        },
        ..0x9F00 => RowRange {
            from: FIRST_OF_5F,
            to: FIRST_OF_9F,
        },
        ..0xDF00 => RowRange {
            from: FIRST_OF_9F,
            to: FIRST_OF_DF,
        },
        ..0x10000 => RowRange {
            from: FIRST_OF_DF,
            to: FIRST_OF_THREE,
        },
        _ => RowRange {
            from: FIRST_OF_THREE,
            to: ROWS,
        },
    }
}

// The rows of the tags that code uses, in the order of their constants.
pub fn used_rows() -> [usize; USED]
    ensures { result ≡ map row_number_of_tag_or_zero used_tags }
{
    USED_ROWS
}

// A row's entry in a column of the table; 0 past the last row.
fn entry_or_zero(column: &[u32; ROWS], row: usize) -> u32
    ensures { result ≡ get_or column.now row 0 }
{
    column.get(row).copied().unwrap_or(0)
}

// A row's tag.
pub fn row_tag(row: usize) -> u32
    ensures { result ≡ (row_at row).tag }
{
    entry_or_zero(&TAGS, row)
}

// What a row states; nothing past the last row.
pub fn attributes_of(row: usize) -> RowAttributes
    ensures { result ≡ attributes_of (row_at row) }
{
    unpack_row_attributes(entry_or_zero(&CODES, row))
}

// The tags and the numbers of all rows. An array that is read at a place known only when the code runs is built anew
// each time: a call that reads many rows binds these once and passes them down.
pub fn dictionary_tags() -> [u32; ROWS]
    ensures { result ≡ tags_of dictionary_rows }
{
    TAGS
}

pub fn packed_row_attributes() -> [u32; ROWS]
    ensures { result ≡ map packed_row_attributes dictionary_rows }
{
    CODES
}

// A row's number taken apart.
pub fn unpack_row_attributes(code: u32) -> RowAttributes
    ensures { result ≡ unpacked_row_attributes code }
{
    RowAttributes {
        least: (code % 256) as usize,
        greatest: (code / GREATEST % 256) as usize,
        form: (code / FORM % 4) as u8,
        setters: (code / SETTERS % 8) as u8,
        templates: (code / TEMPLATES % 64) as u8,
        answers: (code / ANSWERS % 16) as u8,
        must: (code / MUST % 2) as u8,
    }
}

// Whether both digits of a byte are decimal.
#[tactic(auto, unfolding(crate::specs::Inner::is_decimal_byte, basics::specs::Choice::both))]
fn is_digits(b: u8) -> bool
    ensures { result ≡ is_decimal_byte b }
{
    b / 16 < 10 && b % 16 < 10
}

// How many bytes at the front are decimal digits.
fn digit_bytes(v: &[u8]) -> usize
    ensures { result ≡ leading_decimal_bytes v.now }
{
    v.iter().take_while(|b| is_digits(**b)).count()
}

// Whether every byte is FF.
fn only_fs(v: &[u8]) -> bool
    ensures { result ≡ all_bytes_ff v.now }
{
    v.iter().all(|b| *b == 0xFF)
}

// Whether every byte is two decimal digits.
fn is_numeric(v: &[u8]) -> bool
    ensures { result ≡ list_all is_decimal_byte v.now }
{
    v.iter().all(|b| is_digits(*b))
}

// Whether the bytes are decimal digits and then only Fs.
fn is_compressed(v: &[u8]) -> bool
    ensures { result ≡ is_compressed_numeric v.now }
{
    match &v[digit_bytes(v)..] {
        [] => true,
        [b, rest @ ..] if *b / 16 < 10 => *b % 16 == 15 && only_fs(rest),
        rest => only_fs(rest),
    }
}

// Whether a value's digits are those of a form; the form b requires nothing.
// Kept: the form is a number, since an enum would narrow the parameter.
pub fn digits_match_form(form: u8, v: &[u8]) -> bool
    ensures { result ≡ digits_match_form form v.now }
{
    match form {
        FORM_N => is_numeric(v),
        FORM_CN => is_compressed(v),
        _ => true,
    }
}

// Whether a value's length and digits fit a row of these attributes.
#[tactic(auto, unfolding(crate::specs::Form::length_and_digits_fit_row, basics::specs::Choice::both))]
pub fn length_and_digits_fit_row(attributes: RowAttributes, v: &[u8]) -> bool
    ensures { result ≡ length_and_digits_fit_row (row_with_attributes_and_tag_zero attributes) v.now }
{
    (attributes.least..=attributes.greatest).contains(&v.len())
        && digits_match_form(attributes.form, v)
}

// Whether a terminal type is one of those that the session takes.
#[tactic(auto, unfolding(crate::specs::TerminalType::listed_terminal_type, basics::specs::Choice::both, basics::specs::Choice::either))]
pub fn is_listed_terminal_type(kind: u8) -> bool
    ensures { result ≡ listed_terminal_type kind }
{
    matches!(kind, 0x11..=0x16 | 0x21..=0x26 | 0x34..=0x36)
}
