// Words from a table that is text: a line for each number, with its hexadecimal digits at the right of six places, a
// space and its words. A new line is before each line, and none after the last.
//
// Kept: `names` is written by bin/dictionary, which gives tables of this form.
ghost use Rattle.std.specs.Prelude.{◌<◌};

use crate::print_text;

// The words of a number; others where the table has no line for it.
pub fn print_words_of_number(rt: &impl Print, number: u32, table: &[u8], other: &[u8]) {
    for line in table.split(|b| *b == b'\n').skip(1) {
        if number_of(line) == number {
            print_text(rt, line.get(7..).unwrap_or(b""));
            return;
        }
    }
    print_text(rt, other);
}

// The number in the six places at the front of a line.
fn number_of(line: &[u8]) -> u32 {
    digit(line, 0) * 0x10_0000
        + digit(line, 1) * 0x1_0000
        + digit(line, 2) * 0x1000
        + digit(line, 3) * 0x100
        + digit(line, 4) * 0x10
        + digit(line, 5)
}

// The digit at a place; a space is 0.
fn digit(line: &[u8], i: usize) -> u32
    ensures { result < 16 }
{
    match basics::byte_at(line, i) {
        b @ b'0'..=b'9' => u32::from(b - b'0'),
        b @ b'A'..=b'F' => u32::from(b - b'A' + 10),
        _ => 0,
    }
}
