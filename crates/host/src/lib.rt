// The calls for a host in C: numbers and byte slices only. `host_c` exports them.
//
// The session lies in bytes that the host passes to every call, as the record of `layout`; a call works on the store in
// its place, and nothing is kept between calls. A call gives one word: a command's length, an outcome with its reason,
// or a refusal, which leaves all of the caller's bytes as they were. docs/HOST.md has the layout and the words.
//
// Besides these `emv_explain` explains why, `emv_object` reads an object of the session back, `emv_find` finds one in
// other bytes of the card, and `emv_wipe` forgets.
#![tactic(auto)]

ghost use Rattle.std.specs.Prelude.{◌≡◌};
ghost use Rattle.layout.specs.Layout.{session_record_size, decoded_session};
ghost use Rattle.find.specs.Find.{find_tag};
ghost use Rattle.find.specs.Word.{find_word};
ghost use Rattle.basics.specs.Types.{Buffer};
ghost use Rattle.session_record.specs.declared.Session.{Session};
ghost use Rattle.session.specs.Steps.{Step, link_failed_step, stop_step};
ghost use Rattle.host.specs.Hosted.{ReturnsHostResult, HostOpened, perform_host_call_if_admitted, host_start, host_answer, command_count_or_all_ones};
ghost use Rattle.host.specs.Inner.{TakesStep};
ghost use Rattle.host.specs.Explain.{explanation_word_or_refusal};
ghost use Rattle.host.specs.Object.{ReturnsObjectCopied, object_copied_from_store, object_copied_from_session};
ghost use Rattle.host.specs.Wipe.{SessionWiped};
ghost use Rattle.host.specs.Version.{version_word};

use layout::{HEAD, RECORD_SIZE};
use session::LEAST_BUFFER;
use session_record::{Phase, Transition};

// The count where the bytes hold no record.
const NO_COUNT: u32 = 0xFFFFFFFF;

// The words of an object that is absent, of a tag that the dictionary does not have, and before the length of a value
// that the caller's bytes have no room for.
const ABSENT: u32 = 0x30000;

const UNKNOWN: u32 = 0x40000;

const NEEDED: u32 = 0x50000;

// The library's version.
const MAJOR: u32 = 0;

const MINOR: u32 = 1;

const PATCH: u32 = 0;

// How many bytes a host provides for a session.
pub fn emv_session_size() -> usize
    ensures { result ≡ session_record_size }
{
    layout::session_size()
}

// Writes a fresh session: 0, or refusal 25 where the bytes are too few.
pub fn emv_open(session: &mut [u8]) -> u32
    ensures { HostOpened result session.old session.new }
{
    let store = store::empty();
    if layout::encode_record(Phase::Fresh, 0, &store.bytes, session) {
        return 0;
    }
    layout::refusal_word(basics::REFUSED_RANGES)
}

// Starts a session with the objects that the terminal brings.
pub fn emv_start(session: &mut [u8], terminal: &[u8], command: &mut [u8]) -> u32
    ensures { ReturnsHostResult result session.new command.new
        (host_start terminal.now session.old command.old) }
{
    perform(session, command, |phase, count, store, command| {
        session::start_on_parts(phase, count, store, terminal, command)
    })
}

// Takes the card's answer to the command that was handed out last, status bytes included.
pub fn emv_answer(session: &mut [u8], card: &[u8], command: &mut [u8]) -> u32
    ensures { ReturnsHostResult result session.new command.new
        (host_answer card.now session.old command.old) }
{
    perform(session, command, |phase, count, store, command| {
        session::answer_on_parts(phase, count, store, card, command)
    })
}

// The link to the card failed.
pub fn emv_link_failed(session: &mut [u8], command: &mut [u8]) -> u32
    ensures { ReturnsHostResult result session.new command.new
        (perform_host_call_if_admitted link_failed_step session.old command.old) }
{
    perform(session, command, |phase, count, store, command| {
        session::link_failed_on_parts(phase, count, store, command)
    })
}

// The terminal stops the session.
pub fn emv_stop(session: &mut [u8], command: &mut [u8]) -> u32
    ensures { ReturnsHostResult result session.new command.new
        (perform_host_call_if_admitted stop_step session.old command.old) }
{
    perform(session, command, |phase, count, store, command| {
        session::stop_on_parts(phase, count, store, command)
    })
}

// How many commands the session has handed out; NO_COUNT where the bytes hold no record.
pub fn emv_count(session: &[u8]) -> u32
    ensures { result ≡ command_count_or_all_ones (decoded_session session.now) }
{
    let Some(head) = layout::decode_record_head(session) else {
        return NO_COUNT;
    };
    u32::from(head.count)
}

// Why the session is where it is: the stage that decided, the lowest bit that forced its choice and who holds it.
pub fn emv_explain(session: &[u8]) -> u32
    ensures { result ≡ explanation_word_or_refusal (decoded_session session.now) }
{
    let Some(head) = layout::decode_record_head(session) else {
        return layout::refusal_word(basics::REFUSED_RANGES);
    };
    explain::explanation_word(explain::explain_parts(
        head.phase,
        head.count,
        &session[HEAD..RECORD_SIZE],
    ))
}

// Reads an object of the session back: its length, with the value at the front of the caller's bytes, or a word that
// states why not, with all of them as they were.
pub fn emv_object(session: &[u8], tag: u32, value: &mut [u8]) -> u32
    ensures { ReturnsObjectCopied result value.new (object_copied_from_session (decoded_session session.now) tag value.old) }
{
    let Some(head) = layout::decode_record_head(session) else {
        return layout::refusal_word(basics::REFUSED_RANGES);
    };
    let store = &session[HEAD..RECORD_SIZE];
    if !session_record::session_parts_in_ranges(head.phase, head.count, store) {
        return layout::refusal_word(basics::REFUSED_RANGES);
    }
    object_in(store, tag, value)
}

// The first object of a tag in a card's bytes: its value's place and length, none, or that the bytes are malformed.
pub fn emv_find(bytes: &[u8], tag: u32) -> u64
    ensures { result ≡ find_word (find_tag tag bytes.now) }
{
    find::find_word(bytes, tag)
}

// Writes 0 over all of the caller's bytes, which hold no record then.
pub fn emv_wipe(session: &mut [u8]) -> u32
    ensures { SessionWiped result session.old session.new }
{
    session.fill(0);
    0
}

// The library's version, a byte for each part, and the record layout's in the lowest byte.
pub fn emv_version() -> u32
    ensures { result ≡ version_word }
{
    MAJOR * 0x1000000 + MINOR * 0x10000 + PATCH * 0x100 + u32::from(layout::layout_version())
}

// A call: a buffer that is too short is refused before bytes that hold no record; else the step on the parts of their
// session, whose store it leaves in its place, then the head before the store and the word of the answer.
fn perform<F: FnOnce(Phase, u8, &mut [u8], &mut [u8]) -> Transition>(
    session: &mut [u8],
    command: &mut [u8],
    step: F,
) -> u32
    requires { F.IsAlwaysCallable step }
    ensures { (s : Session → Buffer → Step) → TakesStep (F.post step) s → ReturnsHostResult result session.new command.new
        (perform_host_call_if_admitted s session.old command.old) }
{
    if command.len() < LEAST_BUFFER {
        return layout::refusal_word(basics::REFUSED_BUFFER);
    }
    let Some(head) = layout::decode_record_head(session) else {
        return layout::refusal_word(basics::REFUSED_RANGES);
    };
    let transition = step(
        head.phase,
        head.count,
        &mut session[HEAD..RECORD_SIZE],
        command,
    );
    layout::write_record_head(transition.phase, transition.count, session);
    layout::result_word(transition.answer)
}

// The object of a tag in a store: the tag, then whether it is present, then the room for it.
fn object_in(bytes: &[u8], tag: u32, value: &mut [u8]) -> u32
    ensures { ReturnsObjectCopied result value.new (object_copied_from_store bytes.now tag value.old) }
{
    let Some(row) = dictionary::lookup_row(tag).found else {
        return UNKNOWN;
    };
    if !store::is_present(bytes, row) {
        return ABSENT;
    }
    let v = store::value(bytes, row);
    let size = v.len() as u32;
    if value.len() < v.len() {
        return NEEDED + size;
    }
    value[..v.len()].copy_from_slice(v);
    size
}
