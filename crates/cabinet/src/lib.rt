// A vending cabinet over the kernel, for a host in C: one session at a time, and a cap on what is approved offline.
//
// The state lies in bytes that the host passes to every call: the session's record, then what remains of the cap, then
// the amount that is reserved for the running session. A start reserves its amount; an approval spends it, and every
// other end gives it back. `cabinet_find` looks a start object up in a site's list and the maker's defaults.
// docs/HOST.md has the state and the words; `cabinet_c` exports the calls.
#![tactic(auto)]

ghost use Rattle.std.specs.Prelude.{◌≡◌, ◌+◌, ◌≤◌, leb, length};
ghost use Rattle.basics.specs.Types.{Buffer};
ghost use Rattle.session_record.specs.declared.Session.{Session};
ghost use Rattle.session.specs.Steps.{Step, least_buffer};
ghost use Rattle.layout.specs.Word.{result_word};
ghost use Rattle.session_record.specs.Session.{is_running};
ghost use Rattle.cabinet_lookup.specs.Word.{lookup_word};
ghost use Rattle.cabinet.specs.State.{greatest_twelve_digit_amount, cabinet_state_size, stored_amount_authorized, running_session_amount_or_zero, decoded_cabinet_if_valid};
ghost use Rattle.cabinet.specs.Calls.{ReturnsCabinetResult, OpensCabinetOrRefuses, remaining_after_outcome, remaining_amount_or_all_ones};
ghost use Rattle.cabinet.specs.Calls.{cabinet_start, cabinet_answer, cabinet_link_failed, cabinet_stop, admit_cabinet_call, kernel_step_on_cabinet};
ghost use Rattle.cabinet.specs.Inner.{admission_by_state_bytes, admission_by_state_and_buffer_size, cabinet_start_on_fresh};
ghost use Rattle.cabinet.specs.Inner.{RefusesAsKernel, TakesStep, command_size_or_zero, command_copied_to_buffer, state_with_amounts, state_after_transition};

use dictionary::{ROW_AMOUNT, SIZE};
use layout::{HEAD, RECORD_SIZE};
use session::LEAST_BUFFER;
use session_record::{CallResult, Outcome, Phase, Transition};

// Refusals besides the kernel's: less remains than the amount of a start; a cap over the greatest amount.
pub const REFUSED_LEFT: u8 = 30;

pub const REFUSED_CAP: u8 = 31;

// The greatest amount of twelve digits.
const MOST_AMOUNT: u64 = 999999999999;

// Where the two amounts are after the record, and how many bytes a state takes.
const LEFT: usize = RECORD_SIZE;

const ASIDE: usize = RECORD_SIZE + 8;

const STATE_SIZE: usize = RECORD_SIZE + 16;

// The remaining amount that is reported where every call but opening is refused with 25.
const NO_AMOUNT: u64 = 0xFFFFFFFFFFFFFFFF;

// What remains of the cap, and what is reserved.
// Kept: a ghost field `within` for the bound of the sum was tried once. It saves two clauses, in `finish` and
// `left_after`, and the struct needs a file of its own, since specs/Inner leads back to it. `cabinet_without_store` and
// `amounts_after_result` (specs/Inner), which build amounts of any cabinet and any answer, are refused without a proof.
#[derive(Clone, Copy)]
pub struct Amounts {
    pub remaining: u64,
    pub reserved: u64,
}

// What a state reports besides the session's store.
#[derive(Clone, Copy)]
pub struct CabinetWithoutStore {
    pub phase: Phase,
    pub count: u8,
    pub amounts: Amounts,
}

// How many bytes a host provides for a cabinet.
pub fn cabinet_size() -> usize
    ensures { result ≡ cabinet_state_size }
{
    STATE_SIZE
}

// Opens the cabinet with a cap, whatever the bytes held: 0, or refusal 25 where they are too few, then 31.
pub fn cabinet_open(state: &mut [u8], cap: u64) -> u32
    ensures { OpensCabinetOrRefuses cap result state.old state.new }
{
    if state.len() < STATE_SIZE {
        return layout::refusal_word(basics::REFUSED_RANGES);
    }
    if MOST_AMOUNT < cap {
        return layout::refusal_word(REFUSED_CAP);
    }
    let store = store::empty();
    layout::encode_record(Phase::Fresh, 0, &store.bytes, state);
    put_amounts(
        Amounts {
            remaining: cap,
            reserved: 0,
        },
        state,
    );
    0
}

// Starts a session with the objects that the terminal brings, a fresh one after an end, and reserves its amount.
pub fn cabinet_start(state: &mut [u8], terminal: &[u8], command: &mut [u8]) -> u32
    ensures { ReturnsCabinetResult result state.new command.new
        (cabinet_start terminal.now state.old command.old) }
{
    let holding = match admit(state, command.len()) {
        Ok(holding) => holding,
        Err(word) => return word,
    };
    let phase = holding.phase;
    if !session_record::session_parts_in_ranges(phase, holding.count, &state[HEAD..RECORD_SIZE]) {
        return layout::refusal_word(basics::REFUSED_RANGES);
    }
    if is_running(phase) {
        return layout::refusal_word(basics::REFUSED_PHASE);
    }
    start_fresh(holding.amounts.remaining, state, terminal, command)
}

// Takes the card's answer to the command that was handed out last, status bytes included.
pub fn cabinet_answer(state: &mut [u8], card: &[u8], command: &mut [u8]) -> u32
    ensures { ReturnsCabinetResult result state.new command.new
        (cabinet_answer card.now state.old command.old) }
{
    perform(state, command, |phase, count, store, command| {
        session::answer_on_parts(phase, count, store, card, command)
    })
}

// The link to the card failed.
pub fn cabinet_link_failed(state: &mut [u8], command: &mut [u8]) -> u32
    ensures { ReturnsCabinetResult result state.new command.new (cabinet_link_failed state.old command.old) }
{
    perform(state, command, |phase, count, store, command| {
        session::link_failed_on_parts(phase, count, store, command)
    })
}

// The terminal stops the session.
pub fn cabinet_stop(state: &mut [u8], command: &mut [u8]) -> u32
    ensures { ReturnsCabinetResult result state.new command.new (cabinet_stop state.old command.old) }
{
    perform(state, command, |phase, count, store, command| {
        session::stop_on_parts(phase, count, store, command)
    })
}

// What remains of the cap; NO_AMOUNT where every call but opening is refused with 25.
pub fn cabinet_left(state: &[u8]) -> u64
    ensures { result ≡ remaining_amount_or_all_ones (decoded_cabinet_if_valid state.now) }
{
    let Some(holding) = holding_in(state) else {
        return NO_AMOUNT;
    };
    let store = &state[HEAD..RECORD_SIZE];
    if !session_record::session_parts_in_ranges(holding.phase, holding.count, store) {
        return NO_AMOUNT;
    }
    holding.amounts.remaining
}

// Where the value of a tag lies, counted over the site's bytes and then the defaults': the start in bits 32 to 63, the
// source in bits 16 and 17, the length in bits 0 to 15. The source is 1 where the site's list has the tag, 2 where only
// the defaults have it, and 0 where neither has it: length 0 at the front of the defaults. All ones where both have
// 2^32 bytes or more.
pub fn cabinet_find(site: &[u8], defaults: &[u8], tag: u32) -> u64
    ensures { result ≡ lookup_word tag site.now defaults.now }
{
    cabinet_lookup::lookup_word(site, defaults, tag)
}

// A call but a start: its first tests, the step on the parts of the session that the state holds, whose store it leaves
// in its place, and what becomes of the amounts.
fn perform<F: FnOnce(Phase, u8, &mut [u8], &mut [u8]) -> Transition>(
    state: &mut [u8],
    command: &mut [u8],
    step: F,
) -> u32
    requires { F.IsAlwaysCallable step }
    ensures { (s : Session → Buffer → Step) → RefusesAsKernel s → TakesStep (F.post step) s
        → ReturnsCabinetResult result state.new command.new
        (admit_cabinet_call (kernel_step_on_cabinet s state.old command.old) state.old command.old) }
{
    let holding = match admit(state, command.len()) {
        Ok(holding) => holding,
        Err(word) => return word,
    };
    let transition = step(
        holding.phase,
        holding.count,
        &mut state[HEAD..RECORD_SIZE],
        command,
    );
    finish(transition, holding.amounts, state)
}

// A buffer that is too short is refused before a state that is not in order.
fn admit(state: &[u8], size: usize) -> Result<CabinetWithoutStore, u32>
    ensures { result ≡ admission_by_state_and_buffer_size state.now size }
{
    if size < LEAST_BUFFER {
        return Err(layout::refusal_word(basics::REFUSED_BUFFER));
    }
    holding_in(state).ok_or(layout::refusal_word(basics::REFUSED_RANGES))
}

// What a state reports: all of its tests but the session's ranges, which the kernel's call makes.
fn holding_in(state: &[u8]) -> Option<CabinetWithoutStore>
    ensures { result ≡ admission_by_state_bytes state.now }
{
    if state.len() < STATE_SIZE {
        return None;
    }
    let head = layout::decode_record_head(state)?;
    let phase = head.phase;
    let remaining = layout::amount_at(state, LEFT);
    let reserved = layout::amount_at(state, ASIDE);
    if reserved != due(phase, &state[HEAD..RECORD_SIZE]) {
        return None;
    }
    if !is_within(remaining, reserved) {
        return None;
    }
    Some(CabinetWithoutStore {
        phase,
        count: head.count,
        amounts: Amounts {
            remaining,
            reserved,
        },
    })
}

// Whether two amounts together are at most the greatest amount.
fn is_within(remaining: u64, reserved: u64) -> bool
    ensures { result ≡ leb (remaining + reserved) greatest_twelve_digit_amount }
{
    if MOST_AMOUNT < reserved {
        return false;
    }
    remaining <= MOST_AMOUNT - reserved
}

// What has to be reserved: the running session's amount.
fn due(phase: Phase, bytes: &[u8]) -> u64
    ensures { result ≡ running_session_amount_or_zero phase bytes.now }
{
    if is_running(phase) {
        return amount_in(bytes);
    }
    0
}

// Whether a session waits on an answer.
fn is_running(phase: Phase) -> bool
    ensures { result ≡ is_running phase }
{
    matches!(phase, Phase::Waiting(_))
}

// The amount of a store.
fn amount_in(bytes: &[u8]) -> u64
    ensures { result ≡ stored_amount_authorized bytes.now }
{
    analysis::digits::amount_of(store::value(bytes, ROW_AMOUNT))
}

// A start on a fresh session and a command buffer of its own, which are copied over only where it is not refused: a
// refusal leaves an ended session as it was.
// Kept: `state: &mut [u8; STATE_SIZE]` by `first_chunk_mut`, here and in `finish` and `put_amounts`, was tried once and
// not proved through. It saves three clauses, takes `admit` apart (the buffer's size is refused before the state's) and
// reopens fifteen answers of five functions. That the front's record and amounts read as the whole's, and a cabinet
// is written over it as over the whole, proves in seventy lines; open is what lifts each call's result to the whole.
fn start_fresh(remaining: u64, state: &mut [u8], terminal: &[u8], command: &mut [u8]) -> u32
    requires cabinet_state_size_in_bounds { cabinet_state_size ≤ length state.old }
    requires least_buffer_in_bounds { least_buffer ≤ length command.old }
    requires remaining_le_greatest_twelve_digit_amount { remaining ≤ greatest_twelve_digit_amount }
    ensures { ReturnsCabinetResult result state.new command.new
        (cabinet_start_on_fresh terminal.now remaining state.old command.old) }
{
    let mut store = [0u8; SIZE];
    let mut first = [0u8; LEAST_BUFFER];
    let transition = session::start_on_parts(Phase::Fresh, 0, &mut store, terminal, &mut first);
    let answer = transition.answer;
    if let CallResult::Refused(refusal) = answer {
        return layout::refusal_word(refusal.number);
    }
    let amount = amount_in(&store);
    if remaining < amount {
        return layout::refusal_word(REFUSED_LEFT);
    }
    hand_over(answer, &first, command);
    state[HEAD..RECORD_SIZE].copy_from_slice(&store);
    finish(
        transition,
        Amounts {
            remaining: remaining - amount,
            reserved: amount,
        },
        state,
    )
}

// Copies a command from the front of one buffer to the front of another; without a command nothing.
fn hand_over(answer: CallResult, first: &[u8], command: &mut [u8])
    requires { (command_size_or_zero answer ≤ length first.now) × (command_size_or_zero answer ≤ length command.old) }
    ensures { command.new ≡ command_copied_to_buffer answer first.now command.old }
{
    let CallResult::Command(issued) = answer else {
        return;
    };
    let size = issued.size;
    command[..size].copy_from_slice(&first[..size]);
}

// Writes the head and the amounts of a transition, whose store lies in its place, and gives the word of its answer. A
// refusal writes nothing, and an end leaves nothing reserved.
fn finish(transition: Transition, amounts: Amounts, state: &mut [u8]) -> u32
    requires cabinet_state_size_in_bounds { cabinet_state_size ≤ length state.old }
    requires reserved_bound { amounts.remaining + amounts.reserved ≤ greatest_twelve_digit_amount }
    ensures { (result ≡ result_word transition.answer) × (state.new ≡ state_after_transition transition amounts state.old) }
{
    let answer = transition.answer;
    let after = match answer {
        CallResult::Refused(_) => return layout::result_word(answer),
        CallResult::Command(_) => amounts,
        CallResult::Outcome(end) => Amounts {
            remaining: left_after(end.outcome, amounts),
            reserved: 0,
        },
    };
    layout::write_record_head(transition.phase, transition.count, state);
    put_amounts(after, state);
    layout::result_word(answer)
}

// What remains after an end: an approval spends what is reserved, every other outcome gives it back.
fn left_after(outcome: Outcome, amounts: Amounts) -> u64
    requires { amounts.remaining + amounts.reserved ≤ greatest_twelve_digit_amount }
    ensures { result ≡ remaining_after_outcome outcome amounts.remaining amounts.reserved }
{
    match outcome {
        Outcome::Approved => amounts.remaining,
        Outcome::OnlineRequest => amounts.remaining + amounts.reserved,
        Outcome::Declined => amounts.remaining + amounts.reserved,
        Outcome::Ended => amounts.remaining + amounts.reserved,
        Outcome::SelectNext => amounts.remaining + amounts.reserved,
    }
}

// Writes the two amounts after the record.
fn put_amounts(amounts: Amounts, state: &mut [u8])
    requires { cabinet_state_size ≤ length state.old }
    ensures { state.new ≡ state_with_amounts amounts state.old }
{
    state[LEFT..ASIDE].copy_from_slice(&layout::amount_bytes(amounts.remaining));
    state[ASIDE..STATE_SIZE].copy_from_slice(&layout::amount_bytes(amounts.reserved));
}
