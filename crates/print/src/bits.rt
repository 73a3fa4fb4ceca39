// The bits that are set in 82, 95, 9F07 and DF811B, a line each, in words (Book C-2, A.1.16, A.1.170, A.1.23
// and A.1.91).
use crate::print_indentation;

// The bits of an object that has words for them; of any other object nothing.
pub fn print_bit_lines(rt: &impl Print, tag: u32, value: &[u8], levels: usize) {
    if let 0x82 | 0x95 | 0x9F07 | 0xDF811B = tag {
        // Byte by byte, counted from 1. No object here has more than five.
        for (i, b) in value.iter().take(5).enumerate() {
            print_bits_of_byte(rt, tag, i + 1, *b, levels);
        }
    }
}

// A line for each bit of a byte that is set, from b8 down to b1.
fn print_bits_of_byte(rt: &impl Print, tag: u32, byte: usize, value: u8, levels: usize) {
    for bit in (0..8usize).rev() {
        if value >> bit & 1 != 0 {
            print_indentation(rt, levels);
            let b = bit + 1;
            let _ = print!(rt; "byte {byte} b{b}: {}\n", meaning(tag, byte, b));
        }
    }
}

// The words of a bit, by its byte and its number, both counted from 1.
fn meaning(tag: u32, byte: usize, bit: usize) -> &'static str {
    match tag {
        0x82 => aip(byte, bit),
        0x95 => result(byte, bit),
        0x9F07 => usage(byte, bit),
        _ => configuration(bit),
    }
}

// Application Interchange Profile.
fn aip(byte: usize, bit: usize) -> &'static str {
    match (byte, bit) {
        (1, 7) => "SDA supported",
        (1, 6) => "DDA supported",
        (1, 5) => "cardholder verification supported",
        (1, 4) => "terminal risk management to be performed",
        (1, 3) => "issuer authentication supported",
        (1, 2) => "on-device cardholder verification supported",
        (1, 1) => "CDA supported",
        (2, 8) => "EMV mode supported",
        (2, 1) => "relay resistance protocol supported",
        _ => "RFU",
    }
}

// The name of a bit of the Terminal Verification Results, by its number: 0 is byte 1 b8, 39 is byte 5 b1.
pub fn print_tvr_bit_name(rt: &impl Print, bit: usize) {
    let _ = rt.print(result(bit / 8 + 1, 8 - bit % 8));
}

// Terminal Verification Results, by the Book's names.
fn result(byte: usize, bit: usize) -> &'static str {
    match (byte, bit) {
        (1, 8) => "offline data authentication was not performed",
        (1, 7) => "SDA failed",
        (1, 6) => "ICC data missing",
        (1, 5) => "card appears on terminal exception file",
        (1, 4) => "DDA failed",
        (1, 3) => "CDA failed",
        (2, 8) => "ICC and terminal have different application versions",
        (2, 7) => "expired application",
        (2, 6) => "application not yet effective",
        (2, 5) => "requested service not allowed for card product",
        (2, 4) => "new card",
        (3, 8) => "cardholder verification was not successful",
        (3, 7) => "unrecognised CVM",
        (3, 6) => "PIN Try Limit exceeded",
        (3, 5) => "PIN entry required and PIN pad not present or not working",
        (3, 4) => "PIN entry required, PIN pad present, but PIN was not entered",
        (3, 3) => "online PIN entered",
        (4, 8) => "transaction exceeds floor limit",
        (4, 7) => "lower consecutive offline limit exceeded",
        (4, 6) => "upper consecutive offline limit exceeded",
        (4, 5) => "transaction selected randomly for online processing",
        (4, 4) => "merchant forced transaction online",
        (5, 8) => "default TDOL used",
        (5, 7) => "issuer authentication failed",
        (5, 6) => "script processing failed before final GENERATE AC",
        (5, 5) => "script processing failed after final GENERATE AC",
        (5, 4) => "relay resistance threshold exceeded",
        (5, 3) => "relay resistance time limits exceeded",
        (5, 2) => "relay resistance protocol performed",
        (5, 1) => "relay resistance protocol not performed",
        _ => "RFU",
    }
}

// Application Usage Control.
fn usage(byte: usize, bit: usize) -> &'static str {
    match (byte, bit) {
        (1, 8) => "domestic cash allowed",
        (1, 7) => "international cash allowed",
        (1, 6) => "domestic goods allowed",
        (1, 5) => "international goods allowed",
        (1, 4) => "domestic services allowed",
        (1, 3) => "international services allowed",
        (1, 2) => "valid at ATMs",
        (1, 1) => "valid at terminals other than ATMs",
        (2, 8) => "domestic cashback allowed",
        (2, 7) => "international cashback allowed",
        _ => "RFU",
    }
}

// Kernel Configuration, of one byte.
fn configuration(bit: usize) -> &'static str {
    match bit {
        8 => "mag-stripe mode not supported",
        7 => "EMV mode not supported",
        6 => "on-device cardholder verification supported",
        5 => "relay resistance protocol supported",
        4 => "reserved for the payment system",
        3 => "all records read even without CDA",
        _ => "RFU",
    }
}
