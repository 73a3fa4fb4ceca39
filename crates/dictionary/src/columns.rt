// The columns of a row besides its tag: what each of them may say, and all of them in one number. `unpacked` takes such a
// number apart; src/rows.rt has one for each row.
//
// Kept: numbers and sets of bits in one number, as `packed_row_attributes` promises it of each row.

// Forms of a value.
pub const FORM_B: u8 = 0;

pub const FORM_N: u8 = 1;

pub const FORM_CN: u8 = 2;

// Who may set an object.
pub const START: u8 = 1;

pub const CARD: u8 = 2;

pub const SESSION: u8 = 4;

// The template directly around an object.
pub const IN_70: u8 = 1;

pub const IN_77: u8 = 2;

pub const IN_A5: u8 = 4;

pub const IN_BF0C: u8 = 8;

pub const IN_6F: u8 = 16;

// The answer that brings an object.
pub const GPO: u8 = 1;

pub const CARD_RECORD: u8 = 2;

pub const CRYPTOGRAM: u8 = 4;

pub const CHECKSUM: u8 = 8;

// In the number of a row: the least length, and above it a unit for each further column.
pub const GREATEST: u32 = 256;

pub const FORM: u32 = 65536;

pub const SETTERS: u32 = 262144;

pub const TEMPLATES: u32 = 2097152;

pub const ANSWERS: u32 = 134217728;

pub const MUST: u32 = 2147483648;

// The forms as the table has them.
pub const B: u32 = (FORM_B as u32) * FORM;

pub const N: u32 = (FORM_N as u32) * FORM;

pub const CN: u32 = (FORM_CN as u32) * FORM;

// The kinds of rows: the card's, in template 70, in 77, or in 77 with the cryptogram alone, the checksum alone or
// either; in 70 or 77, in A5, in BF0C, in 6F, in 70 or BF0C, or in none; the start's, and one that a start must bring;
// the start's or the card's, in none; the session's.
const ANY_ANSWER: u32 = ((GPO + CARD_RECORD + CRYPTOGRAM + CHECKSUM) as u32) * ANSWERS;

pub const OF_CARD: u32 = (CARD as u32) * SETTERS;

pub const OF_RECORD: u32 = OF_CARD + (IN_70 as u32) * TEMPLATES + ANY_ANSWER;

pub const OF_GPO: u32 = OF_CARD + (IN_77 as u32) * TEMPLATES + ANY_ANSWER;

pub const OF_CRYPTOGRAM: u32 = OF_CARD + (IN_77 as u32) * TEMPLATES + (CRYPTOGRAM as u32) * ANSWERS;

pub const OF_CHECKSUM: u32 = OF_CARD + (IN_77 as u32) * TEMPLATES + (CHECKSUM as u32) * ANSWERS;

pub const OF_LAST: u32 = OF_CARD
    + (IN_77 as u32) * TEMPLATES
    + ((CRYPTOGRAM + CHECKSUM) as u32) * ANSWERS;

pub const OF_NONE: u32 = OF_CARD + ANY_ANSWER;

pub const OF_EITHER: u32 = OF_RECORD + (IN_77 as u32) * TEMPLATES;

pub const OF_A5: u32 = OF_NONE + (IN_A5 as u32) * TEMPLATES;

pub const OF_BF0C: u32 = OF_NONE + (IN_BF0C as u32) * TEMPLATES;

pub const OF_6F: u32 = OF_NONE + (IN_6F as u32) * TEMPLATES;

pub const OF_RECORD_BF0C: u32 = OF_RECORD + (IN_BF0C as u32) * TEMPLATES;

pub const OF_START: u32 = (START as u32) * SETTERS;

pub const MUST_START: u32 = OF_START + MUST;

pub const OF_START_CARD: u32 = OF_START + OF_NONE;

pub const OF_SESSION: u32 = (SESSION as u32) * SETTERS;
