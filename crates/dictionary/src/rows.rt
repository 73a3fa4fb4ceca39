// Written by bin/dictionary from dictionary.tsv: change that table, and run it again.
//
// The table in numbers: how many rows there are and the store's size, the rows that code uses, those that a start
// must bring, the first row of each part of the search, the tags, and what their rows say.
use crate::columns::{
    B, CN, GREATEST, MUST_START, N, OF_6F, OF_A5, OF_BF0C, OF_CHECKSUM, OF_CRYPTOGRAM, OF_EITHER,
    OF_GPO, OF_LAST, OF_NONE, OF_RECORD, OF_RECORD_BF0C, OF_SESSION, OF_START, OF_START_CARD,
};

// How many rows there are.
pub const ROWS: usize = 158;

// The store's size: the sum over the rows of the greatest length and one more byte.
pub const SIZE: usize = 6008;

// The rows of the tags that code uses.
pub const ROW_PAN: usize = 3; // 5A

pub const ROW_AIP: usize = 5; // 82

pub const ROW_CDOL1: usize = 8; // 8C

pub const ROW_CVM_LIST: usize = 9; // 8E

pub const ROW_AFL: usize = 12; // 94

pub const ROW_TVR: usize = 13; // 95

pub const ROW_TRANSACTION_DATE: usize = 14; // 9A

pub const ROW_TRANSACTION_TYPE: usize = 15; // 9C

pub const ROW_EXPIRATION_DATE: usize = 16; // 5F24

pub const ROW_EFFECTIVE_DATE: usize = 17; // 5F25

pub const ROW_ISSUER_COUNTRY: usize = 18; // 5F28

pub const ROW_TRANSACTION_CURRENCY: usize = 19; // 5F2A

pub const ROW_AMOUNT: usize = 26; // 9F02

pub const ROW_AMOUNT_OTHER: usize = 27; // 9F03

pub const ROW_AUC: usize = 28; // 9F07

pub const ROW_CARD_VERSION: usize = 29; // 9F08

pub const ROW_READER_VERSION: usize = 30; // 9F09

pub const ROW_IAC_DEFAULT: usize = 31; // 9F0D

pub const ROW_IAC_DENIAL: usize = 32; // 9F0E

pub const ROW_IAC_ONLINE: usize = 33; // 9F0F

pub const ROW_IAD: usize = 34; // 9F10

pub const ROW_TERMINAL_COUNTRY: usize = 39; // 9F1A

pub const ROW_AC: usize = 47; // 9F26

pub const ROW_CID: usize = 48; // 9F27

pub const ROW_TERMINAL_CAPABILITIES: usize = 50; // 9F33

pub const ROW_CVM_RESULTS: usize = 51; // 9F34

pub const ROW_TERMINAL_TYPE: usize = 52; // 9F35

pub const ROW_ATC: usize = 53; // 9F36

pub const ROW_UN: usize = 54; // 9F37

pub const ROW_PDOL: usize = 55; // 9F38

pub const ROW_ADDITIONAL_CAPABILITIES: usize = 56; // 9F40

pub const ROW_APPLICATION_CURRENCY: usize = 57; // 9F42

pub const ROW_CVC3_TRACK2: usize = 74; // 9F61

pub const ROW_PCVC3_TRACK2: usize = 78; // 9F65

pub const ROW_PUNATC_TRACK2: usize = 79; // 9F66

pub const ROW_NATC_TRACK2: usize = 80; // 9F67

pub const ROW_UDOL: usize = 81; // 9F69

pub const ROW_UN_NUMERIC: usize = 82; // 9F6A

pub const ROW_TRACK2_DATA: usize = 83; // 9F6B

pub const ROW_KERNEL_CONFIGURATION: usize = 125; // DF811B

pub const ROW_TAC_DEFAULT: usize = 130; // DF8120

pub const ROW_TAC_DENIAL: usize = 131; // DF8121

pub const ROW_TAC_ONLINE: usize = 132; // DF8122

pub const ROW_FLOOR_LIMIT: usize = 133; // DF8123

pub const ROW_LIMIT_NO_ON_DEVICE_CVM: usize = 134; // DF8124

pub const ROW_LIMIT_ON_DEVICE_CVM: usize = 135; // DF8125

pub const ROW_CVM_REQUIRED_LIMIT: usize = 136; // DF8126

// How many these are, and all of them in their order.
pub const USED: usize = 47;

pub const USED_ROWS: [usize; USED] = [
    ROW_PAN,
    ROW_AIP,
    ROW_CDOL1,
    ROW_CVM_LIST,
    ROW_AFL,
    ROW_TVR,
    ROW_TRANSACTION_DATE,
    ROW_TRANSACTION_TYPE,
    ROW_EXPIRATION_DATE,
    ROW_EFFECTIVE_DATE,
    ROW_ISSUER_COUNTRY,
    ROW_TRANSACTION_CURRENCY,
    ROW_AMOUNT,
    ROW_AMOUNT_OTHER,
    ROW_AUC,
    ROW_CARD_VERSION,
    ROW_READER_VERSION,
    ROW_IAC_DEFAULT,
    ROW_IAC_DENIAL,
    ROW_IAC_ONLINE,
    ROW_IAD,
    ROW_TERMINAL_COUNTRY,
    ROW_AC,
    ROW_CID,
    ROW_TERMINAL_CAPABILITIES,
    ROW_CVM_RESULTS,
    ROW_TERMINAL_TYPE,
    ROW_ATC,
    ROW_UN,
    ROW_PDOL,
    ROW_ADDITIONAL_CAPABILITIES,
    ROW_APPLICATION_CURRENCY,
    ROW_CVC3_TRACK2,
    ROW_PCVC3_TRACK2,
    ROW_PUNATC_TRACK2,
    ROW_NATC_TRACK2,
    ROW_UDOL,
    ROW_UN_NUMERIC,
    ROW_TRACK2_DATA,
    ROW_KERNEL_CONFIGURATION,
    ROW_TAC_DEFAULT,
    ROW_TAC_DENIAL,
    ROW_TAC_ONLINE,
    ROW_FLOOR_LIMIT,
    ROW_LIMIT_NO_ON_DEVICE_CVM,
    ROW_LIMIT_ON_DEVICE_CVM,
    ROW_CVM_REQUIRED_LIMIT,
];

// How many objects a start must bring, and their rows.
pub const REQUIRED: usize = 17;

pub const REQUIRED_ROWS: [usize; REQUIRED] = [
    ROW_TRANSACTION_DATE,
    ROW_TRANSACTION_TYPE,
    ROW_AMOUNT,
    ROW_READER_VERSION,
    ROW_TERMINAL_COUNTRY,
    ROW_TERMINAL_CAPABILITIES,
    ROW_TERMINAL_TYPE,
    ROW_UN,
    ROW_UN_NUMERIC,
    ROW_KERNEL_CONFIGURATION,
    ROW_TAC_DEFAULT,
    ROW_TAC_DENIAL,
    ROW_TAC_ONLINE,
    ROW_FLOOR_LIMIT,
    ROW_LIMIT_NO_ON_DEVICE_CVM,
    ROW_LIMIT_ON_DEVICE_CVM,
    ROW_CVM_REQUIRED_LIMIT,
];

// The first row of each part of the search: of the tags of two bytes, from 9F on and from DF on, and of three bytes.
pub const FIRST_OF_5F: usize = 16;

pub const FIRST_OF_9F: usize = 25;

pub const FIRST_OF_DF: usize = 101;

pub const FIRST_OF_THREE: usize = 106;

// The tags.
pub const TAGS: [u32; ROWS] = [
    0x50, 0x56, 0x57, 0x5A, 0x80, 0x82, 0x84, 0x87, 0x8C, 0x8E, 0x8F, 0x90, 0x94, 0x95, 0x9A, 0x9C,
    0x5F24, 0x5F25, 0x5F28, 0x5F2A, 0x5F2D, 0x5F30, 0x5F34, 0x5F36, 0x5F57, 0x9F01, 0x9F02, 0x9F03,
    0x9F07, 0x9F08, 0x9F09, 0x9F0D, 0x9F0E, 0x9F0F, 0x9F10, 0x9F11, 0x9F12, 0x9F15, 0x9F16, 0x9F1A,
    0x9F1C, 0x9F1D, 0x9F1E, 0x9F1F, 0x9F20, 0x9F21, 0x9F24, 0x9F26, 0x9F27, 0x9F32, 0x9F33, 0x9F34,
    0x9F35, 0x9F36, 0x9F37, 0x9F38, 0x9F40, 0x9F42, 0x9F44, 0x9F46, 0x9F47, 0x9F4A, 0x9F4C, 0x9F4D,
    0x9F50, 0x9F51, 0x9F53, 0x9F54, 0x9F5B, 0x9F5C, 0x9F5D, 0x9F5E, 0x9F5F, 0x9F60, 0x9F61, 0x9F62,
    0x9F63, 0x9F64, 0x9F65, 0x9F66, 0x9F67, 0x9F69, 0x9F6A, 0x9F6B, 0x9F6D, 0x9F6E, 0x9F6F, 0x9F70,
    0x9F71, 0x9F72, 0x9F73, 0x9F74, 0x9F75, 0x9F76, 0x9F77, 0x9F78, 0x9F79, 0x9F7C, 0x9F7D, 0x9F7E,
    0x9F7F, 0xDF4B, 0xDF60, 0xDF61, 0xDF62, 0xDF63, 0xDF8101, 0xDF8102, 0xDF8104, 0xDF8105,
    0xDF8108, 0xDF8109, 0xDF810A, 0xDF810B, 0xDF810C, 0xDF810E, 0xDF810F, 0xDF8110, 0xDF8114,
    0xDF8115, 0xDF8116, 0xDF8117, 0xDF8118, 0xDF8119, 0xDF811A, 0xDF811B, 0xDF811C, 0xDF811D,
    0xDF811E, 0xDF811F, 0xDF8120, 0xDF8121, 0xDF8122, 0xDF8123, 0xDF8124, 0xDF8125, 0xDF8126,
    0xDF8127, 0xDF8128, 0xDF8129, 0xDF812A, 0xDF812B, 0xDF812C, 0xDF812D, 0xDF8130, 0xDF8132,
    0xDF8133, 0xDF8134, 0xDF8135, 0xDF8136, 0xDF8137, 0xDF8301, 0xDF8302, 0xDF8303, 0xDF8304,
    0xDF8305, 0xDF8306, 0xDF8307,
];

// What each row states besides its tag, in one number: `unpacked` takes it apart.
pub const CODES: [u32; ROWS] = [
    0 + 16 * GREATEST + B + OF_A5, // 50
    0 + 76 * GREATEST + B + OF_RECORD, // 56
    0 + 19 * GREATEST + B + OF_RECORD, // 57
    0 + 10 * GREATEST + CN + OF_RECORD, // 5A
    0 + 253 * GREATEST + B + OF_NONE, // 80
    2 + 2 * GREATEST + B + OF_GPO, // 82
    5 + 16 * GREATEST + B + OF_6F, // 84
    1 + 1 * GREATEST + B + OF_A5, // 87
    0 + 250 * GREATEST + B + OF_RECORD, // 8C
    10 + 250 * GREATEST + B + OF_RECORD, // 8E
    1 + 1 * GREATEST + B + OF_EITHER, // 8F
    0 + 248 * GREATEST + B + OF_EITHER, // 90
    4 + 248 * GREATEST + B + OF_GPO, // 94
    5 + 5 * GREATEST + B + OF_SESSION, // 95
    3 + 3 * GREATEST + N + MUST_START, // 9A
    1 + 1 * GREATEST + N + MUST_START, // 9C
    3 + 3 * GREATEST + N + OF_RECORD, // 5F24
    3 + 3 * GREATEST + N + OF_RECORD, // 5F25
    2 + 2 * GREATEST + N + OF_RECORD, // 5F28
    2 + 2 * GREATEST + N + OF_START, // 5F2A
    2 + 8 * GREATEST + B + OF_A5, // 5F2D
    2 + 2 * GREATEST + N + OF_EITHER, // 5F30
    1 + 1 * GREATEST + N + OF_RECORD, // 5F34
    1 + 1 * GREATEST + N + OF_START, // 5F36
    1 + 1 * GREATEST + N + OF_START, // 5F57
    6 + 6 * GREATEST + N + OF_SESSION, // 9F01
    6 + 6 * GREATEST + N + MUST_START, // 9F02
    6 + 6 * GREATEST + N + OF_START, // 9F03
    2 + 2 * GREATEST + B + OF_RECORD, // 9F07
    2 + 2 * GREATEST + B + OF_RECORD, // 9F08
    2 + 2 * GREATEST + B + MUST_START, // 9F09
    5 + 5 * GREATEST + B + OF_RECORD, // 9F0D
    5 + 5 * GREATEST + B + OF_RECORD, // 9F0E
    5 + 5 * GREATEST + B + OF_RECORD, // 9F0F
    0 + 32 * GREATEST + B + OF_CRYPTOGRAM, // 9F10
    1 + 1 * GREATEST + N + OF_A5, // 9F11
    0 + 16 * GREATEST + B + OF_A5, // 9F12
    2 + 2 * GREATEST + N + OF_SESSION, // 9F15
    15 + 15 * GREATEST + B + OF_SESSION, // 9F16
    2 + 2 * GREATEST + N + MUST_START, // 9F1A
    8 + 8 * GREATEST + B + OF_SESSION, // 9F1C
    8 + 8 * GREATEST + B + OF_SESSION, // 9F1D
    8 + 8 * GREATEST + B + OF_SESSION, // 9F1E
    0 + 54 * GREATEST + B + OF_EITHER, // 9F1F
    0 + 16 * GREATEST + CN + OF_EITHER, // 9F20
    3 + 3 * GREATEST + N + OF_START, // 9F21
    29 + 29 * GREATEST + B + OF_EITHER, // 9F24
    8 + 8 * GREATEST + B + OF_CRYPTOGRAM, // 9F26
    1 + 1 * GREATEST + B + OF_CRYPTOGRAM, // 9F27
    1 + 3 * GREATEST + B + OF_EITHER, // 9F32
    3 + 3 * GREATEST + B + MUST_START, // 9F33
    3 + 3 * GREATEST + B + OF_SESSION, // 9F34
    1 + 1 * GREATEST + N + MUST_START, // 9F35
    2 + 2 * GREATEST + B + OF_LAST, // 9F36
    4 + 4 * GREATEST + B + MUST_START, // 9F37
    0 + 240 * GREATEST + B + OF_START, // 9F38
    5 + 5 * GREATEST + B + OF_START, // 9F40
    2 + 2 * GREATEST + N + OF_RECORD, // 9F42
    1 + 1 * GREATEST + N + OF_EITHER, // 9F44
    0 + 248 * GREATEST + B + OF_EITHER, // 9F46
    1 + 3 * GREATEST + B + OF_EITHER, // 9F47
    0 + 250 * GREATEST + B + OF_EITHER, // 9F4A
    2 + 8 * GREATEST + B + OF_NONE, // 9F4C
    2 + 2 * GREATEST + B + OF_BF0C, // 9F4D
    6 + 6 * GREATEST + N + OF_NONE, // 9F50
    0 + 250 * GREATEST + B + OF_RECORD, // 9F51
    1 + 1 * GREATEST + B + OF_START, // 9F53
    0 + 160 * GREATEST + B + OF_GPO, // 9F54
    0 + 250 * GREATEST + B + OF_RECORD, // 9F5B
    8 + 8 * GREATEST + B + OF_START, // 9F5C
    3 + 3 * GREATEST + B + OF_BF0C, // 9F5D
    8 + 11 * GREATEST + N + OF_BF0C, // 9F5E
    1 + 1 * GREATEST + B + OF_GPO, // 9F5F
    2 + 2 * GREATEST + B + OF_GPO, // 9F60
    2 + 2 * GREATEST + B + OF_CHECKSUM, // 9F61
    6 + 6 * GREATEST + B + OF_RECORD, // 9F62
    6 + 6 * GREATEST + B + OF_RECORD, // 9F63
    1 + 1 * GREATEST + B + OF_RECORD, // 9F64
    2 + 2 * GREATEST + B + OF_RECORD, // 9F65
    2 + 2 * GREATEST + B + OF_RECORD, // 9F66
    1 + 1 * GREATEST + B + OF_RECORD, // 9F67
    0 + 250 * GREATEST + B + OF_RECORD, // 9F69
    4 + 4 * GREATEST + N + MUST_START, // 9F6A
    0 + 19 * GREATEST + B + OF_RECORD, // 9F6B
    2 + 2 * GREATEST + B + OF_SESSION, // 9F6D
    5 + 32 * GREATEST + B + OF_RECORD_BF0C, // 9F6E
    1 + 1 * GREATEST + B + OF_GPO, // 9F6F
    0 + 192 * GREATEST + B + OF_START_CARD, // 9F70
    0 + 192 * GREATEST + B + OF_START_CARD, // 9F71
    0 + 192 * GREATEST + B + OF_START_CARD, // 9F72
    0 + 192 * GREATEST + B + OF_START_CARD, // 9F73
    0 + 192 * GREATEST + B + OF_START_CARD, // 9F74
    0 + 192 * GREATEST + B + OF_START_CARD, // 9F75
    0 + 192 * GREATEST + B + OF_START_CARD, // 9F76
    0 + 192 * GREATEST + B + OF_START_CARD, // 9F77
    0 + 192 * GREATEST + B + OF_START_CARD, // 9F78
    0 + 192 * GREATEST + B + OF_START_CARD, // 9F79
    20 + 20 * GREATEST + B + OF_START, // 9F7C
    8 + 16 * GREATEST + B + OF_GPO, // 9F7D
    1 + 1 * GREATEST + B + OF_SESSION, // 9F7E
    4 + 4 * GREATEST + B + OF_GPO, // 9F7F
    3 + 3 * GREATEST + B + OF_GPO, // DF4B
    8 + 8 * GREATEST + B + OF_START, // DF60
    8 + 8 * GREATEST + B + OF_SESSION, // DF61
    1 + 1 * GREATEST + B + OF_START, // DF62
    0 + 160 * GREATEST + B + OF_START, // DF63
    8 + 16 * GREATEST + B + OF_NONE, // DF8101
    8 + 16 * GREATEST + B + OF_NONE, // DF8102
    6 + 6 * GREATEST + N + OF_START, // DF8104
    6 + 6 * GREATEST + N + OF_START, // DF8105
    1 + 1 * GREATEST + B + OF_START, // DF8108
    8 + 8 * GREATEST + B + OF_START, // DF8109
    1 + 1 * GREATEST + B + OF_START, // DF810A
    1 + 1 * GREATEST + B + OF_SESSION, // DF810B
    1 + 1 * GREATEST + B + OF_SESSION, // DF810C
    1 + 1 * GREATEST + B + OF_SESSION, // DF810E
    1 + 1 * GREATEST + B + OF_SESSION, // DF810F
    1 + 1 * GREATEST + B + OF_START, // DF8110
    1 + 1 * GREATEST + B + OF_SESSION, // DF8114
    6 + 6 * GREATEST + B + OF_SESSION, // DF8115
    22 + 22 * GREATEST + B + OF_SESSION, // DF8116
    1 + 1 * GREATEST + B + OF_SESSION, // DF8117
    1 + 1 * GREATEST + B + OF_SESSION, // DF8118
    1 + 1 * GREATEST + B + OF_SESSION, // DF8119
    3 + 3 * GREATEST + B + OF_SESSION, // DF811A
    1 + 1 * GREATEST + B + MUST_START, // DF811B
    2 + 2 * GREATEST + B + OF_SESSION, // DF811C
    1 + 1 * GREATEST + B + OF_SESSION, // DF811D
    1 + 1 * GREATEST + B + OF_SESSION, // DF811E
    1 + 1 * GREATEST + B + OF_SESSION, // DF811F
    5 + 5 * GREATEST + B + MUST_START, // DF8120
    5 + 5 * GREATEST + B + MUST_START, // DF8121
    5 + 5 * GREATEST + B + MUST_START, // DF8122
    6 + 6 * GREATEST + N + MUST_START, // DF8123
    6 + 6 * GREATEST + N + MUST_START, // DF8124
    6 + 6 * GREATEST + N + MUST_START, // DF8125
    6 + 6 * GREATEST + N + MUST_START, // DF8126
    2 + 2 * GREATEST + B + OF_SESSION, // DF8127
    1 + 1 * GREATEST + B + OF_SESSION, // DF8128
    8 + 8 * GREATEST + B + OF_SESSION, // DF8129
    0 + 56 * GREATEST + B + OF_SESSION, // DF812A
    0 + 11 * GREATEST + CN + OF_SESSION, // DF812B
    1 + 1 * GREATEST + B + OF_SESSION, // DF812C
    3 + 3 * GREATEST + N + OF_SESSION, // DF812D
    1 + 1 * GREATEST + B + OF_SESSION, // DF8130
    2 + 2 * GREATEST + B + OF_SESSION, // DF8132
    2 + 2 * GREATEST + B + OF_SESSION, // DF8133
    2 + 2 * GREATEST + B + OF_SESSION, // DF8134
    2 + 2 * GREATEST + B + OF_SESSION, // DF8135
    2 + 2 * GREATEST + B + OF_SESSION, // DF8136
    1 + 1 * GREATEST + B + OF_SESSION, // DF8137
    4 + 4 * GREATEST + B + OF_SESSION, // DF8301
    4 + 4 * GREATEST + B + OF_NONE, // DF8302
    2 + 2 * GREATEST + B + OF_NONE, // DF8303
    2 + 2 * GREATEST + B + OF_NONE, // DF8304
    2 + 2 * GREATEST + B + OF_NONE, // DF8305
    2 + 2 * GREATEST + B + OF_SESSION, // DF8306
    1 + 1 * GREATEST + B + OF_SESSION, // DF8307
];
