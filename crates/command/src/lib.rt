// The commands that a session hands out: GET PROCESSING OPTIONS, READ RECORD, GENERATE AC and COMPUTE
// CRYPTOGRAPHIC CHECKSUM.
//
// Those that carry a filled list measure it first, so that a buffer is touched only where a command is handed out. The
// bytes after the command stay.
#![tactic(auto)]

ghost use Rattle.std.specs.Prelude.{◌≡◌, ◌+◌, ◌-◌, ◌≤◌, ◌<◌, length, take, drop};
ghost use Rattle.dol.specs.Measure.{buffer_with_bytes_at};
ghost use Rattle.command.specs.WithList.{proprietary_command, command_with_dol, gpo_data_tag_and_length, get_processing_options, generate_ac, compute_cryptographic_checksum, command_of_length, dol_command_of, dol_command_reason, reason_dol_if_no_command, buffer_with_command};
ghost use Rattle.command.specs.ReadRecord.{read_record_command_if_fits, command_length_or_zero};

use afl::CardRecord;

// Class bytes, instruction bytes and parameters (Book C-2, 5.2, 5.4, 5.5 and 5.8). P2 of READ RECORD is the SFI
// times 8, and 4.
const CLA_INTERINDUSTRY: u8 = 0x00;

const CLA_PROPRIETARY: u8 = 0x80;

const INS_READ_RECORD: u8 = 0xB2;

const INS_GET_PROCESSING_GPO: u8 = 0xA8;

const INS_GENERATE_AC: u8 = 0xAE;

const INS_COMPUTE_CHECKSUM: u8 = 0x2A;

const P1_COMPUTE_CHECKSUM: u8 = 0x8E;

const P2_COMPUTE_CHECKSUM: u8 = 0x80;

const P2_ZERO: u8 = 0x00;

// The tag of the command template, which the filled PDOL is in.
const COMMAND_TEMPLATE: u8 = 0x83;

// The list that stands in for an absent or empty UDOL: 9F6A in four bytes.
const DEFAULT_UDOL: [u8; 3] = [0x9F, 0x6A, 0x04];

// The most bytes of a filled PDOL: with tag and length they are the 255 that a command carries.
const MOST_PDOL_BYTES: usize = 252;

// A command at the front of the buffer: how many bytes it has.
#[derive(Clone, Copy)]
pub struct DolCommandSize {
    pub len: usize,
}

// The GPO command, with the filled PDOL (9F38) that the store holds.
// Kept: the 261 bytes are asked of a slice, here and below: every longer buffer meets that, and an array would rule it out.
pub fn get_processing_options(store: &[u8], buffer: &mut [u8]) -> Option<DolCommandSize>
    requires { 261 ≤ length buffer.old }
    ensures said { result ≡ dol_command_of (get_processing_options store.now) }
    ensures kept { buffer.new ≡ buffer_with_command (get_processing_options store.now) buffer.old }
    ensures reason { dol_command_reason result ≡ reason_dol_if_no_command (get_processing_options store.now) }
{
    let list = store::value(store, dictionary::ROW_PDOL);
    let n = dol::measure(list)?;
    if MOST_PDOL_BYTES < n {
        return None;
    }
    let at = gpo_head(n, buffer);
    dol::fill(list, store, buffer, at);
    close(INS_GET_PROCESSING_GPO, 0, P2_ZERO, buffer, at + n)
}

// The command GENERATE AC, with the filled CDOL1 (8C) that the store holds; P1 states which cryptogram.
pub fn generate_ac(store: &[u8], p1: u8, buffer: &mut [u8]) -> Option<DolCommandSize>
    requires { 261 ≤ length buffer.old }
    ensures said { result ≡ dol_command_of (generate_ac p1 store.now) }
    ensures kept { buffer.new ≡ buffer_with_command (generate_ac p1 store.now) buffer.old }
    ensures reason { dol_command_reason result ≡ reason_dol_if_no_command (generate_ac p1 store.now) }
{
    let list = store::value(store, dictionary::ROW_CDOL1);
    with_dol(INS_GENERATE_AC, p1, P2_ZERO, list, store, buffer)
}

// The command COMPUTE CRYPTOGRAPHIC CHECKSUM, with the filled UDOL (9F69) that the store holds; where it is absent or
// empty, with the default list.
pub fn compute_cryptographic_checksum(store: &[u8], buffer: &mut [u8]) -> Option<DolCommandSize>
    requires { 261 ≤ length buffer.old }
    ensures said { result ≡ dol_command_of (compute_cryptographic_checksum store.now) }
    ensures kept { buffer.new ≡ buffer_with_command (compute_cryptographic_checksum store.now) buffer.old }
    ensures reason { dol_command_reason result ≡ reason_dol_if_no_command (compute_cryptographic_checksum store.now) }
{
    let stored = store::value(store, dictionary::ROW_UDOL);
    if stored.len() != 0 {
        return with_dol(
            INS_COMPUTE_CHECKSUM,
            P1_COMPUTE_CHECKSUM,
            P2_COMPUTE_CHECKSUM,
            stored,
            store,
            buffer,
        );
    }
    with_dol(
        INS_COMPUTE_CHECKSUM,
        P1_COMPUTE_CHECKSUM,
        P2_COMPUTE_CHECKSUM,
        &DEFAULT_UDOL,
        store,
        buffer,
    )
}

// The command of these header bytes, with a list filled from the store.
fn with_dol(
    ins: u8,
    p1: u8,
    p2: u8,
    list: &[u8],
    store: &[u8],
    buffer: &mut [u8],
) -> Option<DolCommandSize>
    requires { 261 ≤ length buffer.old }
    ensures said { result ≡ dol_command_of (command_with_dol (proprietary_command ins p1 p2) list.now store.now) }
    ensures kept { buffer.new ≡ buffer_with_command
        (command_with_dol (proprietary_command ins p1 p2) list.now store.now) buffer.old }
    ensures reason { dol_command_reason result ≡ reason_dol_if_no_command (command_with_dol (proprietary_command ins p1 p2) list.now store.now) }
{
    let n = dol::measure(list)?;
    if n == 0 {
        return None;
    }
    dol::fill(list, store, buffer, 5);
    close(ins, p1, p2, buffer, 5 + n)
}

// Writes the tag 83 and the length of n filled bytes at place 5; the place after them.
fn gpo_head(n: usize, buffer: &mut [u8]) -> usize
    requires { (n < 256) × (261 ≤ length buffer.old) }
    ensures next { result ≡ 5 + length (gpo_data_tag_and_length n) }
    ensures kept { buffer.new ≡ buffer_with_bytes_at buffer.old 5 (gpo_data_tag_and_length n) }
{
    if n < 128 {
        buffer[5..7].copy_from_slice(&[COMMAND_TEMPLATE, n as u8]);
        7
    } else {
        buffer[5..8].copy_from_slice(&[COMMAND_TEMPLATE, 0x81, n as u8]);
        8
    }
}

// Closes a command whose data is from place 5 up to `end`: the header before it, and 00 after it.
fn close(ins: u8, p1: u8, p2: u8, buffer: &mut [u8], end: usize) -> Option<DolCommandSize>
    requires { (5 ≤ end) × (end ≤ 260) × (261 ≤ length buffer.old) }
    ensures said { result ≡ command_of_length (end + 1) }
    ensures kept { buffer.new ≡ buffer_with_bytes_at buffer.old 0 (proprietary_command ins p1 p2 (take (end - 5) (drop 5 buffer.old))) }
{
    buffer[..5].copy_from_slice(&[CLA_PROPRIETARY, ins, p1, p2, (end - 5) as u8]);
    buffer[end] = 0;
    Some(DolCommandSize { len: end + 1 })
}

// Writes the command that reads a record at the front of `command`, and returns its length, 5.
// A buffer under 5 bytes or a file number over 31 gets no command: the length is 0 and the buffer stays.
// Kept: 0 for no command, as `read_record` promises its callers by `command_length_or_zero`.
pub fn read_record(wanted: CardRecord, command: &mut [u8]) -> usize
    ensures said { result ≡ command_length_or_zero (read_record_command_if_fits command.old wanted) }
    ensures kept { command.new ≡ buffer_with_command (read_record_command_if_fits command.old wanted) command.old }
{
    if command.len() < 5 || 32 <= wanted.sfi {
        return 0;
    }
    command[..5].copy_from_slice(&[
        CLA_INTERINDUSTRY,
        INS_READ_RECORD,
        wanted.number,
        wanted.sfi * 8 + 4,
        0x00,
    ]);
    5
}
