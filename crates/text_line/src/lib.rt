// One line of a text file of calls: `parse_line` states which call it requests and puts the call's bytes at the front
// of the caller's slice.
//
//     start HEX      answer HEX      link-failed      stop      buffer N      session
//
// Blanks (space, tab, carriage return) may be around words and between the bytes of HEX; a byte is two hexadecimal
// digits side by side, small or capital. `#` starts a comment to the line's end, so `#!` at the start of a file does
// too. N is a decimal number, at most 4,096. A line with no word is blank.
//
// `uncommented`, `first_word`, `after_first_word` and `decode_hex` read the lines of files with other words.
#![tactic(auto)]

ghost use Rattle.std.specs.Prelude.{◌≡◌, ◌≤◌, length};
ghost use Rattle.text_line.specs.Text.{is_character_of_kind, longest_prefix, after_longest_prefix, uncommented as uncommented_of};
ghost use Rattle.text_line.specs.Text.{first_word, behind_first_word};
ghost use Rattle.text_line.specs.Digits.{hex_digit_value_or16, hex_decoding_of, hex_decoding_within_room, DecodesHex, buffer_line_if_up_to4096};
ghost use Rattle.text_line.specs.Line.{line_word_of, line_if_only_blanks_follow as alone_as, line_meaning, ReturnsLineMeaning};
ghost use Rattle.text_line.specs.Inner.{hex_pair_at_front, hex_decoded_count};

// How many bytes a call brings: the front of the caller's slice.
#[derive(Clone, Copy)]
pub struct LineByteCount {
    pub size: usize,
}

// A requested length of the command buffer.
#[derive(Clone, Copy)]
pub struct LineBufferSize {
    pub bytes: usize,
}

// What is wrong with a line.
#[derive(Clone, Copy, PartialEq, Eq)]
pub struct LineProblem {
    pub number: u8,
}

// What a line requests.
#[derive(Clone, Copy)]
pub enum Line {
    Blank,
    Start(LineByteCount),
    Answer(LineByteCount),
    LinkFailed,
    Stop,
    Buffer(LineBufferSize),
    Session,
}

// The numbers of the problems.
pub const LONG: u8 = 1;

pub const WORD: u8 = 2;

pub const HEX: u8 = 3;

pub const ROOM: u8 = 4;

pub const BEHIND: u8 = 5;

pub const NUMBER: u8 = 6;

// The most characters of a line, its end not counted.
pub const MOST: usize = 8192;

// The longest command buffer.
pub const LONGEST: usize = 4096;

// The first word of a line that has one.
#[derive(Drop)]
enum LineWord {
    Start,
    Answer,
    LinkFailed,
    Stop,
    Buffer,
    Session,
}

// Kinds of characters.
// Kept: an enum, since `is_character_of_kind` names each test; a closure would bring its own law to each of the calls.
#[derive(Clone, Copy)]
enum CharacterKind {
    Blank,
    NotBlank,
    NotHash,
}

// How many bytes were decoded, and the number of the problem that stopped it, 0 for none.
#[derive(Clone, Copy)]
pub struct HexDecoded {
    pub size: usize,
    pub problem: u8,
}

// What a line means. The bytes of a start or an answer are at the front of `out`.
pub fn parse_line(line: &[u8], out: &mut [u8]) -> Result<Line, LineProblem>
    ensures { ReturnsLineMeaning result out.new (line_meaning line.now out.old) }
{
    if MOST < line.len() {
        return Err(LineProblem { number: LONG });
    }
    let text = uncommented(line);
    let rest = after_first_word(text);
    let Some(word) = word_named(first_word(text))? else {
        return Ok(Line::Blank);
    };
    match word {
        LineWord::Start => count_of(decode_hex(rest, out)).map(Line::Start),
        LineWord::Answer => count_of(decode_hex(rest, out)).map(Line::Answer),
        LineWord::LinkFailed => alone(rest, Ok(Line::LinkFailed)),
        LineWord::Stop => alone(rest, Ok(Line::Stop)),
        LineWord::Buffer => alone(after_first_word(rest), size_line(first_word(rest))),
        LineWord::Session => alone(rest, Ok(Line::Session)),
    }
}

// ---- characters and words

// Whether a character is of a kind: a blank; no blank; or no `#`.
fn is_of(kind: CharacterKind, c: u8) -> bool
    ensures { result ≡ is_character_of_kind kind c }
{
    match kind {
        CharacterKind::Blank => is_blank(c),
        CharacterKind::NotBlank => !is_blank(c),
        CharacterKind::NotHash => c != b'#',
    }
}

// A space, a tab or a carriage return.
fn is_blank(c: u8) -> bool
    ensures { result ≡ is_character_of_kind CharacterKind.Blank c }
{
    c == b' ' || c == b'\t' || c == b'\r'
}

// How many characters at the front are of a kind.
fn front_length(s: &[u8], kind: CharacterKind) -> usize
    ensures { (result ≡ length (longest_prefix (is_character_of_kind kind) s.now)) × (result ≤ length s.now) }
{
    s.iter().position(|c| !is_of(kind, *c)).unwrap_or(s.len())
}

// The line up to its comment.
pub fn uncommented(s: &[u8]) -> &[u8]
    ensures { result.now ≡ uncommented_of s.now }
{
    let n = front_length(s, CharacterKind::NotHash);
    &s[..n]
}

// The text from its first character that is no blank.
fn past_blanks(s: &[u8]) -> &[u8]
    ensures { result.now ≡ after_longest_prefix (is_character_of_kind CharacterKind.Blank) s.now }
{
    let n = front_length(s, CharacterKind::Blank);
    &s[n..]
}

// The first word of a text.
pub fn first_word(s: &[u8]) -> &[u8]
    ensures { result.now ≡ first_word s.now }
{
    let t = past_blanks(s);
    let n = front_length(t, CharacterKind::NotBlank);
    &t[..n]
}

// What follows the first word.
pub fn after_first_word(s: &[u8]) -> &[u8]
    ensures { result.now ≡ behind_first_word s.now }
{
    let t = past_blanks(s);
    let n = front_length(t, CharacterKind::NotBlank);
    &t[n..]
}

// Which word it is; none for no characters.
// Kept: `==` needs `.as_slice()` at each literal; a `match` on the literals has 41 exits to prove, character by character.
fn word_named(w: &[u8]) -> Result<Option<LineWord>, LineProblem>
    ensures { result ≡ line_word_of w.now }
{
    if basics::bytes_equal(w, b"") {
        return Ok(None);
    }
    if basics::bytes_equal(w, b"start") {
        return Ok(Some(LineWord::Start));
    }
    if basics::bytes_equal(w, b"answer") {
        return Ok(Some(LineWord::Answer));
    }
    if basics::bytes_equal(w, b"link-failed") {
        return Ok(Some(LineWord::LinkFailed));
    }
    if basics::bytes_equal(w, b"stop") {
        return Ok(Some(LineWord::Stop));
    }
    if basics::bytes_equal(w, b"buffer") {
        return Ok(Some(LineWord::Buffer));
    }
    if basics::bytes_equal(w, b"session") {
        return Ok(Some(LineWord::Session));
    }
    Err(LineProblem { number: WORD })
}

// ---- what follows a word

// A line with only blanks after its words.
fn alone(rest: &[u8], line: Result<Line, LineProblem>) -> Result<Line, LineProblem>
    ensures { result ≡ alone_as rest.now line }
{
    if past_blanks(rest).len() == 0 {
        line
    } else {
        Err(LineProblem { number: BEHIND })
    }
}

// How many bytes were decoded, unless a problem stopped it.
fn count_of(d: HexDecoded) -> Result<LineByteCount, LineProblem>
    ensures { result ≡ hex_decoded_count d }
{
    if d.problem == 0 {
        Ok(LineByteCount { size: d.size })
    } else {
        Err(LineProblem { number: d.problem })
    }
}

// The length that a word requests.
fn size_line(w: &[u8]) -> Result<Line, LineProblem>
    ensures { result ≡ buffer_line_if_up_to4096 w.now }
{
    if w.len() == 0 {
        return Err(LineProblem { number: NUMBER });
    }
    let mut n: usize = 0;
    for c in w {
        let d = usize::from(digit(*c));
        if 10 <= d {
            return Err(LineProblem { number: NUMBER });
        }
        n = n * 10 + d;
        if LONGEST < n {
            return Err(LineProblem { number: NUMBER });
        }
    }
    Ok(Line::Buffer(LineBufferSize { bytes: n }))
}

// Decodes pairs of hexadecimal digits with blanks between them into the front of `out`, up to the first
// that is no pair or that finds no room.
pub fn decode_hex(s: &[u8], out: &mut [u8]) -> HexDecoded
    ensures { DecodesHex result out.new (hex_decoding_within_room (length out.old) (hex_decoding_of s.now)) out.old }
{
    let mut rest = past_blanks(s);
    let mut n: usize = 0;
    // Kept: the blanks between the pairs set each step's size, so that no iterator over chunks gives the pairs.
    while rest.len() != 0 {
        let Some(value) = pair_at(rest) else {
            return HexDecoded {
                size: n,
                problem: HEX,
            };
        };
        if out.len() <= n {
            return HexDecoded {
                size: n,
                problem: ROOM,
            };
        }
        out[n] = value;
        n += 1;
        rest = past_blanks(&rest[2..]);
    }
    HexDecoded {
        size: n,
        problem: 0,
    }
}

// The first two characters as a byte.
fn pair_at(s: &[u8]) -> Option<u8>
    ensures { result ≡ hex_pair_at_front s.now }
{
    let [a, b, ..] = s else {
        return None;
    };
    let high = digit(*a);
    let low = digit(*b);
    if high < 16 && low < 16 {
        Some(high * 16 + low)
    } else {
        None
    }
}

// The value of a hexadecimal digit, and 16 for any other character.
fn digit(c: u8) -> u8
    ensures { (result ≡ hex_digit_value_or16 c) × (result ≤ 16) }
{
    match c {
        b'0'..=b'9' => c - b'0',
        b'A'..=b'F' => c - b'A' + 10,
        b'a'..=b'f' => c - b'a' + 10,
        _ => 16,
    }
}
