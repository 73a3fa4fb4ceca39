// One contactless session, in EMV mode or in the track 2 part of mag-stripe mode: `start`, `answer`, `link_failed`
// and `stop`.
//
// Each call takes the session by value and the caller's command buffer, and returns the session and a command,
// an outcome or a refusal. A command is at the front of the buffer, which is left alone otherwise. A refusal
// changes nothing.
//
// `start_on_parts`, `answer_on_parts`, `link_failed_on_parts` and `stop_on_parts` are the same calls on a session's
// parts with the store borrowed mutably or shared: a transition is returned, and the store is not copied.
#![tactic(auto)]

use analysis::choice::Choice;
use analysis::cvm::{NOT_APPLICABLE, cvm_number};
use dictionary::{
    ROW_AC, ROW_AFL, ROW_AIP, ROW_ATC, ROW_CID, ROW_CVC3_TRACK2, ROW_CVM_RESULTS, ROW_NATC_TRACK2,
    ROW_PCVC3_TRACK2, ROW_PUNATC_TRACK2, ROW_TRACK2_DATA, ROW_TVR, ROW_UN_NUMERIC, SIZE,
};
use reading as reader; // `use reading::flat as reader;` reads without recursion (bin/host-flat)

ghost use Rattle.std.specs.Prelude.{◌≡◌, false, not, List, ℕ, ◌+◌, ◌<◌, length, replicate};
ghost use Rattle.basics.specs.Front.{written_over_front};
ghost use Rattle.dictionary.specs.Rows.{store_size};
ghost use Rattle.command.specs.ReadRecord.{read_record_command};
ghost use Rattle.reading.specs.Answer.{verdict_number};
ghost use Rattle.start_data.specs.StartData.{load_start_bytes};
ghost use Rattle.analysis.specs.Action.{findings_of};
ghost use Rattle.analysis.specs.Cvm.{cvm_number};
ghost use Rattle.session_record.specs.Session.{session_of, ending_for_reason};
ghost use Rattle.session.specs.Steps.{ReturnsStep, ReturnsTransition, ReturnsNext, transition_of_next, held_cvm, step_of_effect, store_with_findings, abort_step, link_failed_step, stop_step};
ghost use Rattle.session.specs.Start.{request_gpo, start_effect_after_loading, start_step};
ghost use Rattle.session.specs.Answer.{aip_and_afl_present, next_after_gpo_read, next_on_gpo_response, request_cryptogram, requested_cryptogram, next_after_records_in_emv_mode, next_after_last_record, next_after_record_read, next_on_record_response};
ghost use Rattle.session.specs.Answer.{outcome_for_cryptogram_type, cid_atc_and_cryptogram_present, next_after_cryptogram_read, next_on_cryptogram_response, next_on_response, answer_step};
ghost use Rattle.session.specs.MagStripe.{request_checksum, next_after_records_in_mag_stripe_mode, stored_track2, stored_bitmaps, stored_digit_values, stored_track_can_take_digits, store_with_track_digits, next_after_checksum_read, next_on_checksum_response};
ghost use Rattle.mag_stripe.specs.Digits.{track_with_digits_if_possible};

use mag_stripe::{Bitmaps, DigitValues};
use reading::{Awaited, ResponseVerdict, Sfi};
use session_record::{
    AwaitedChecksum, AwaitedRecord, AwaitedResponse, Ending, Outcome, Phase, Reply,
    RequestedCryptogram, Session, Transition,
};
use store::Store;

// The least command buffer.
pub const LEAST_BUFFER: usize = 261;

// The types of an application cryptogram, in the top two bits of the CID.
// Kept: numbers, as `outcome_for_cryptogram_type` takes any type, also the fourth, which an enum would rule out.
pub const CID_AAC: u8 = 0;

pub const CID_TC: u8 = 1;

pub const CID_ARQC: u8 = 2;

// What follows: a command of so many bytes in the buffer, and the response that is then awaited; or the session's end, and
// the number of the CVM that it reports.
// Kept: neither is an error, so this is no Result; it has the cases of `NextAction` in specs/Steps.
#[derive(Clone, Copy)]
enum NextStep {
    Command(AwaitedResponse, usize),
    End(Ending, u8),
}

// Kept: `start` and `answer` are alike but for the call on the parts. Of a helper over a closure the promise would state that
// call's promise once more, as a law of a closure that writes store and buffer, to save three lines a function.

// Starts a session with the objects that the terminal brings; the first command is GPO.
pub fn start(session: Session, terminal: &[u8], command: &mut [u8]) -> Reply
    ensures { ReturnsStep result command.new (start_step session terminal.now command.old) }
{
    let phase = session.phase;
    let store = session.store;
    let mut bytes = store.bytes;
    let transition = start_on_parts(phase, session.count, &mut bytes, terminal, command);
    session_record::reply_of(transition, Store { bytes })
}

// Takes the card's answer to the command that was handed out last, status bytes included.
pub fn answer(session: Session, card: &[u8], command: &mut [u8]) -> Reply
    ensures { ReturnsStep result command.new (answer_step session card.now command.old) }
{
    let phase = session.phase;
    let store = session.store;
    let mut bytes = store.bytes;
    let transition = answer_on_parts(phase, session.count, &mut bytes, card, command);
    session_record::reply_of(transition, Store { bytes })
}

// The link to the card failed.
pub fn link_failed(session: Session, command: &mut [u8]) -> Reply
    ensures { ReturnsStep result command.new (link_failed_step session command.old) }
{
    abort_session(session, basics::REASON_LINK, command)
}

// The terminal stops the session.
pub fn stop(session: Session, command: &mut [u8]) -> Reply
    ensures { ReturnsStep result command.new (stop_step session command.old) }
{
    abort_session(session, basics::REASON_STOPPED, command)
}

// `abort` on a session, with its store put back.
fn abort_session(session: Session, reason: u8, command: &mut [u8]) -> Reply
    ensures { ReturnsStep result command.new (abort_step session reason command.old) }
{
    let phase = session.phase;
    let store = session.store;
    let transition = abort(phase, session.count, &store.bytes, reason, command);
    session_record::reply_of(transition, store)
}

// `start` on a session's parts, the store borrowed.
pub fn start_on_parts(
    phase: Phase,
    count: u8,
    store: &mut [u8],
    terminal: &[u8],
    command: &mut [u8],
) -> Transition
    ensures { ReturnsTransition result store.new command.new
        (start_step (session_of phase count store.old) terminal.now command.old) }
{
    let Some(command) = command.first_chunk_mut::<LEAST_BUFFER>() else {
        return session_record::refuse_call(phase, count, basics::REFUSED_BUFFER);
    };
    let Some(store) = store.as_mut_array::<SIZE>() else {
        return session_record::refuse_call(phase, count, basics::REFUSED_RANGES);
    };
    if !session_record::session_parts_in_ranges(phase, count, store) {
        return session_record::refuse_call(phase, count, basics::REFUSED_RANGES);
    }
    let Phase::Fresh = phase else {
        return session_record::refuse_call(phase, count, basics::REFUSED_PHASE);
    };
    load_objects(count, store, terminal, command)
}

// `answer` on a session's parts, the store borrowed.
pub fn answer_on_parts(
    phase: Phase,
    count: u8,
    store: &mut [u8],
    card: &[u8],
    command: &mut [u8],
) -> Transition
    ensures { ReturnsTransition result store.new command.new
        (answer_step (session_of phase count store.old) card.now command.old) }
{
    let Some(command) = command.first_chunk_mut::<LEAST_BUFFER>() else {
        return session_record::refuse_call(phase, count, basics::REFUSED_BUFFER);
    };
    let Some(store) = store.as_mut_array::<SIZE>() else {
        return session_record::refuse_call(phase, count, basics::REFUSED_RANGES);
    };
    if !session_record::session_parts_in_ranges(phase, count, store) {
        return session_record::refuse_call(phase, count, basics::REFUSED_RANGES);
    }
    match phase {
        Phase::Fresh => session_record::refuse_call(phase, count, basics::REFUSED_PHASE),
        Phase::Waiting(awaited) => {
            transition_of(count, take_response(awaited, store, card, command))
        }
        Phase::Ended(_) => session_record::refuse_call(phase, count, basics::REFUSED_PHASE),
    }
}

// `link_failed` on a session's parts, the store shared.
pub fn link_failed_on_parts(phase: Phase, count: u8, bytes: &[u8], command: &mut [u8]) -> Transition
    ensures { ReturnsTransition result bytes.now command.new
        (link_failed_step (session_of phase count bytes.now) command.old) }
{
    abort(phase, count, bytes, basics::REASON_LINK, command)
}

// `stop` on a session's parts, the store shared.
pub fn stop_on_parts(phase: Phase, count: u8, bytes: &[u8], command: &mut [u8]) -> Transition
    ensures { ReturnsTransition result bytes.now command.new
        (stop_step (session_of phase count bytes.now) command.old) }
{
    abort(phase, count, bytes, basics::REASON_STOPPED, command)
}

// A running session ends for a reason; no command comes.
fn abort(phase: Phase, count: u8, bytes: &[u8], reason: u8, command: &mut [u8]) -> Transition
    ensures { ReturnsTransition result bytes.now command.new
        (abort_step (session_of phase count bytes.now) reason command.old) }
{
    if command.len() < LEAST_BUFFER {
        return session_record::refuse_call(phase, count, basics::REFUSED_BUFFER);
    }
    if !session_record::session_parts_in_ranges(phase, count, bytes) {
        return session_record::refuse_call(phase, count, basics::REFUSED_RANGES);
    }
    match phase {
        Phase::Fresh => session_record::refuse_call(phase, count, basics::REFUSED_PHASE),
        Phase::Waiting(awaited) => session_record::fail_session(count, reason, held_cvm(awaited)),
        Phase::Ended(_) => session_record::refuse_call(phase, count, basics::REFUSED_PHASE),
    }
}

// What follows, of a session of this count: a command counts.
fn transition_of(count: u8, next: NextStep) -> Transition
    requires { count < 255 }
    ensures { result ≡ transition_of_next count next }
{
    match next {
        NextStep::Command(awaited, size) => session_record::issue_command(awaited, count + 1, size),
        NextStep::End(ending, cvm) => {
            session_record::end_session(count, ending.outcome, ending.reason, cvm)
        }
    }
}

// The session ends for a reason other than 0, with the outcome that goes with it, and reports the CVM.
fn end_for(reason: u8, cvm: u8) -> NextStep
    ensures { result ≡ NextStep.End (ending_for_reason reason) cvm }
{
    let outcome = session_record::outcome_of_nonzero_reason(reason);
    NextStep::End(Ending { outcome, reason }, cvm)
}

// The number of the CVM that a running session holds.
fn held_cvm(awaited: AwaitedResponse) -> u8
    ensures { result ≡ held_cvm awaited }
{
    match awaited {
        AwaitedResponse::Cryptogram(asked) => cvm_number(asked.cvm),
        AwaitedResponse::Gpo | AwaitedResponse::Record(_) | AwaitedResponse::Checksum(_) => {
            NOT_APPLICABLE
        }
    }
}

// The terminal's objects are stored, and 95 with them, all zero.
fn load_objects(
    count: u8,
    store: &mut [u8; SIZE],
    terminal: &[u8],
    command: &mut [u8; LEAST_BUFFER],
) -> Transition
    requires count_in_bounds { count < 255 }
    requires store_value { store.old ≡ replicate store_size 0 }
    ensures { ReturnsTransition result store.new command.new
        (step_of_effect (session_of Phase.Fresh count store.old) command.old (start_effect_after_loading (load_start_bytes store.old terminal.now))) }
{
    if let Err(refusal) = start_data::load(store, terminal) {
        return session_record::refuse_call(Phase::Fresh, count, refusal.number);
    }
    let zero = [0u8; 5];
    store::put(store, ROW_TVR, &zero);
    transition_of(count, ask_gpo(store, command))
}

// The GPO command.
fn ask_gpo(bytes: &[u8; SIZE], command: &mut [u8; LEAST_BUFFER]) -> NextStep
    ensures { ReturnsNext result bytes.now command.old command.new
        (request_gpo bytes.now) }
{
    let Some(c) = command::get_processing_options(bytes, command) else {
        return end_for(basics::REASON_DOL, NOT_APPLICABLE);
    };
    NextStep::Command(AwaitedResponse::Gpo, c.len)
}

// The response that was awaited.
fn take_response(
    awaited: AwaitedResponse,
    store: &mut [u8; SIZE],
    card: &[u8],
    command: &mut [u8; LEAST_BUFFER],
) -> NextStep
    ensures { ReturnsNext result store.new command.old command.new
        (next_on_response store.old card.now awaited) }
{
    match awaited {
        AwaitedResponse::Gpo => take_gpo(store, card, command),
        AwaitedResponse::Record(place) => take_record(place, store, card, command),
        AwaitedResponse::Cryptogram(asked) => take_cryptogram(asked, store, card),
        AwaitedResponse::Checksum(_) => take_checksum(store, card),
    }
}

// The answer to GPO.
fn take_gpo(store: &mut [u8; SIZE], card: &[u8], command: &mut [u8; LEAST_BUFFER]) -> NextStep
    ensures { ReturnsNext result store.new command.old command.new
        (next_on_gpo_response store.old card.now) }
{
    let verdict = reader::read_answer(store, Awaited::Gpo, card).verdict;
    let ResponseVerdict::Accepted = verdict else {
        return fail_reading(verdict, NOT_APPLICABLE);
    };
    after_gpo(store, command)
}

// An answer that is not accepted ends the session for its verdict's reason.
fn fail_reading(verdict: ResponseVerdict, cvm: u8) -> NextStep
    ensures { result ≡ NextStep.End (ending_for_reason (verdict_number verdict)) cvm }
{
    end_for(reading::verdict_number(verdict), cvm)
}

// After GPO: the transaction limit is fixed, and the first record is requested.
fn after_gpo(bytes: &[u8; SIZE], command: &mut [u8; LEAST_BUFFER]) -> NextStep
    ensures { ReturnsNext result bytes.now command.old command.new
        (next_after_gpo_read bytes.now) }
{
    let true = is_gpo_data_present(bytes) else {
        return end_for(basics::REASON_MISSING, NOT_APPLICABLE);
    };
    let true = session_record::is_emv_or_mag_stripe_mode(bytes) else {
        return end_for(basics::REASON_MODE, NOT_APPLICABLE);
    };
    let entries = store::value(bytes, ROW_AFL);
    let Some(wanted) = afl::kth_record_of_accepted_afl(entries, 1) else {
        return end_for(basics::REASON_AFL, NOT_APPLICABLE);
    };
    let limit = analysis::action::transaction_limit(bytes);
    ask_record(wanted, AwaitedRecord { number: 1, limit }, command)
}

// The command for a record, at a place in the AFL's order.
fn ask_record(
    wanted: afl::CardRecord,
    place: AwaitedRecord,
    command: &mut [u8; LEAST_BUFFER],
) -> NextStep
    requires { wanted.sfi < 32 }
    ensures transition { result ≡ NextStep.Command (AwaitedResponse.Record place) (length (read_record_command wanted)) }
    ensures buffer { command.new ≡ written_over_front (read_record_command wanted) command.old }
{
    let size = command::read_record(wanted, command);
    NextStep::Command(AwaitedResponse::Record(place), size)
}

// The answer to a record.
fn take_record(
    place: AwaitedRecord,
    store: &mut [u8; SIZE],
    card: &[u8],
    command: &mut [u8; LEAST_BUFFER],
) -> NextStep
    ensures { ReturnsNext result store.new command.old command.new
        (next_on_record_response place store.old card.now) }
{
    let entries = store::value(store, ROW_AFL);
    let Some(asked) = afl::kth_record_of_accepted_afl(entries, usize::from(place.number)) else {
        return end_for(basics::REASON_AFL, NOT_APPLICABLE);
    };
    let verdict = reader::read_answer(
        store,
        Awaited::Record(Sfi { number: asked.sfi }),
        card,
    ).verdict;
    let ResponseVerdict::Accepted = verdict else {
        return fail_reading(verdict, NOT_APPLICABLE);
    };
    ask_next_record(place, store, command)
}

// After a record: the next one that the AFL names, or what follows the last.
fn ask_next_record(
    place: AwaitedRecord,
    store: &mut [u8; SIZE],
    command: &mut [u8; LEAST_BUFFER],
) -> NextStep
    ensures { ReturnsNext result store.new command.old command.new
        (next_after_record_read place store.old) }
{
    let AwaitedRecord { number, limit } = place;
    let entries = store::value(store, ROW_AFL);
    let Some(wanted) = afl::kth_record_of_accepted_afl(entries, usize::from(number) + 1) else {
        return after_last_record(limit, store, command);
    };
    let number = number + 1;
    ask_record(wanted, AwaitedRecord { number, limit }, command)
}

// After the last record, by the mode that the AIP (82) indicates.
// Kept: limit, store and command are passed on twice more; a struct of two borrows and a number would only rename them.
fn after_last_record(
    limit: u64,
    store: &mut [u8; SIZE],
    command: &mut [u8; LEAST_BUFFER],
) -> NextStep
    ensures { ReturnsNext result store.new command.old command.new
        (next_after_last_record limit store.old) }
{
    if session_record::is_emv_mode(store) {
        return emv_mode_analysis(limit, store, command);
    }
    mag_stripe_checks(limit, store, command)
}

// After the last record in EMV mode: the limit that the session holds, what is needed, and then the cryptogram.
fn emv_mode_analysis(
    limit: u64,
    store: &mut [u8; SIZE],
    command: &mut [u8; LEAST_BUFFER],
) -> NextStep
    ensures { ReturnsNext result store.new command.old command.new
        (next_after_records_in_emv_mode limit store.old) }
{
    let false = analysis::action::stored_amount_above_limit(store, limit) else {
        return end_for(basics::REASON_ABOVE_LIMIT, NOT_APPLICABLE);
    };
    let true = session_record::expiry_pan_and_cdol1_non_empty(store) else {
        return end_for(basics::REASON_MISSING, NOT_APPLICABLE);
    };
    analyse(limit, store, command)
}

// What the analysis finds is stored, and the choice is made on the TVR.
fn analyse(limit: u64, store: &mut [u8; SIZE], command: &mut [u8; LEAST_BUFFER]) -> NextStep
    ensures { ReturnsNext result store.new command.old command.new
        (request_cryptogram (requested_cryptogram limit store.old) (store_with_findings store.old (findings_of store.old))) }
{
    let found = analysis::action::findings_of(store);
    let results = found.results;
    let bits = found.bits;
    let cvm = found.cvm;
    let choice = analysis::action::choice_for_tvr(store, bits);
    store::put(store, ROW_CVM_RESULTS, &results);
    store::put(store, ROW_TVR, &bits);
    ask_cryptogram(RequestedCryptogram { choice, cvm, limit }, store, command)
}

// The command for the cryptogram.
fn ask_cryptogram(
    asked: RequestedCryptogram,
    bytes: &[u8; SIZE],
    command: &mut [u8; LEAST_BUFFER],
) -> NextStep
    ensures { ReturnsNext result bytes.now command.old command.new
        (request_cryptogram asked bytes.now) }
{
    let p1 = analysis::choice::generate_ac_p1(asked.choice);
    let Some(c) = command::generate_ac(bytes, p1, command) else {
        return end_for(basics::REASON_DOL, cvm_number(asked.cvm));
    };
    NextStep::Command(AwaitedResponse::Cryptogram(asked), c.len)
}

// The answer to the cryptogram: no command follows it.
fn take_cryptogram(asked: RequestedCryptogram, store: &mut [u8; SIZE], card: &[u8]) -> NextStep
    ensures { (buf : List ℕ) → ReturnsNext result store.new buf buf (next_on_cryptogram_response asked store.old card.now) }
{
    let verdict = reader::read_answer(store, Awaited::Cryptogram, card).verdict;
    let ResponseVerdict::Accepted = verdict else {
        return fail_reading(verdict, cvm_number(asked.cvm));
    };
    cryptogram_outcome(asked, store)
}

// The outcome, by the type of the cryptogram that came.
fn cryptogram_outcome(asked: RequestedCryptogram, bytes: &[u8; SIZE]) -> NextStep
    ensures { (buf : List ℕ) → ReturnsNext result bytes.now buf buf (next_after_cryptogram_read asked bytes.now) }
{
    let true = is_cryptogram_present(bytes) else {
        return end_for(basics::REASON_MISSING, cvm_number(asked.cvm));
    };
    let kind = basics::byte_at(store::value(bytes, ROW_CID), 0) / 64;
    let Some(outcome) = outcome_for_cryptogram_type(asked.choice, kind) else {
        return end_for(basics::REASON_CRYPTOGRAM, cvm_number(asked.cvm));
    };
    let reason = basics::REASON_NONE;
    NextStep::End(Ending { outcome, reason }, cvm_number(asked.cvm))
}

// What a type of cryptogram decides, by what was requested.
pub fn outcome_for_cryptogram_type(choice: Choice, kind: u8) -> Option<Outcome>
    ensures { result ≡ outcome_for_cryptogram_type choice kind }
{
    match (kind, choice) {
        (CID_AAC, _) => Some(Outcome::Declined),
        (CID_ARQC, Choice::Online | Choice::Offline) => Some(Outcome::OnlineRequest),
        (CID_TC, Choice::Offline) => Some(Outcome::Approved),
        _ => None, // a decline is never taken online
    }
}

// After the last record in mag-stripe mode: the limit that the session holds, what is needed, and then the checksum.
fn mag_stripe_checks(limit: u64, bytes: &[u8; SIZE], command: &mut [u8; LEAST_BUFFER]) -> NextStep
    ensures { ReturnsNext result bytes.now command.old command.new
        (next_after_records_in_mag_stripe_mode limit bytes.now) }
{
    let false = analysis::action::stored_amount_above_limit(bytes, limit) else {
        return end_for(basics::REASON_ABOVE_LIMIT, NOT_APPLICABLE);
    };
    let true = session_record::track2_and_bitmaps_non_empty(bytes) else {
        return end_for(basics::REASON_MISSING, NOT_APPLICABLE);
    };
    ask_checksum(limit, bytes, command)
}

// The command for the checksum.
fn ask_checksum(limit: u64, bytes: &[u8; SIZE], command: &mut [u8; LEAST_BUFFER]) -> NextStep
    ensures { ReturnsNext result bytes.now command.old command.new
        (request_checksum limit bytes.now) }
{
    let Some(c) = command::compute_cryptographic_checksum(bytes, command) else {
        return end_for(basics::REASON_DOL, NOT_APPLICABLE);
    };
    NextStep::Command(AwaitedResponse::Checksum(AwaitedChecksum { limit }), c.len)
}

// The answer to the checksum: no command follows it. Of an answer to a track that cannot take the digits nothing is
// kept, whatever the reading reports.
fn take_checksum(store: &mut [u8; SIZE], card: &[u8]) -> NextStep
    ensures { (buf : List ℕ) → ReturnsNext result store.new buf buf (next_on_checksum_response store.old card.now) }
{
    let true = can_track_take_digits(store) else {
        return refuse_track(store, card);
    };
    let verdict = reader::read_answer(store, Awaited::Checksum, card).verdict;
    let ResponseVerdict::Accepted = verdict else {
        return fail_reading(verdict, NOT_APPLICABLE);
    };
    checksum_outcome(store)
}

// A track that cannot take the digits: the reading's reason, else that an object is not allowed.
fn refuse_track(bytes: &[u8; SIZE], card: &[u8]) -> NextStep
    requires { stored_track_can_take_digits bytes.now ≡ false }
    ensures { (buf : List ℕ) → ReturnsNext result bytes.now buf buf (next_on_checksum_response bytes.now card.now) }
{
    let verdict = reader::judge_answer(bytes, Awaited::Checksum, card);
    let ResponseVerdict::Accepted = verdict else {
        return fail_reading(verdict, NOT_APPLICABLE);
    };
    end_for(basics::REASON_NOT_ALLOWED, NOT_APPLICABLE)
}

// The outcome, by what the answer brought; with ATC and CVC3 the digits go into the track.
fn checksum_outcome(store: &mut [u8; SIZE]) -> NextStep
    ensures { (buf : List ℕ) → ReturnsNext result store.new buf buf (next_after_checksum_read store.old) }
{
    let true = store::is_present(store, ROW_ATC) else {
        return end_for(basics::REASON_MISSING, NOT_APPLICABLE);
    };
    let reason = basics::REASON_NONE;
    if !store::is_present(store, ROW_CVC3_TRACK2) {
        let outcome = Outcome::Declined;
        return NextStep::End(Ending { outcome, reason }, NOT_APPLICABLE);
    }
    store_digits(store);
    let outcome = Outcome::OnlineRequest;
    NextStep::End(Ending { outcome, reason }, NOT_APPLICABLE)
}

// Puts the digits of CVC3, UN and ATC into the stored track.
fn store_digits(store: &mut [u8; SIZE])
    ensures { store.new ≡ store_with_track_digits store.old }
{
    let n = store::value(store, ROW_TRACK2_DATA).len();
    let mut track = [0u8; 19];
    track_after(store, &mut track[..n]);
    store::put(store, ROW_TRACK2_DATA, &track[..n]);
}

// The stored track with the digits in it, into the caller's.
fn track_after(bytes: &[u8], track: &mut [u8])
    requires { length track.old ≡ length (stored_track2 bytes.now) }
    ensures digits { track.new ≡ track_with_digits_if_possible (stored_track2 bytes.now) (stored_bitmaps bytes.now) (stored_digit_values bytes.now) }
    ensures sized { length track.new ≡ length track.old }
{
    track.copy_from_slice(store::value(bytes, ROW_TRACK2_DATA));
    let bitmaps = bitmaps_in(bytes);
    let values = values_in(bytes);
    mag_stripe::put_digits(track, bitmaps, values);
}

// The bitmaps that the store holds.
fn bitmaps_in(bytes: &[u8]) -> Bitmaps
    ensures { result ≡ stored_bitmaps bytes.now }
{
    let pcvc3 = store::value(bytes, ROW_PCVC3_TRACK2);
    let punatc = store::value(bytes, ROW_PUNATC_TRACK2);
    mag_stripe::bitmaps_of(pcvc3, punatc, store::value(bytes, ROW_NATC_TRACK2))
}

// The values of the digits that the store holds.
fn values_in(bytes: &[u8]) -> DigitValues
    ensures { result ≡ stored_digit_values bytes.now }
{
    let code = store::value(bytes, ROW_CVC3_TRACK2);
    let number = store::value(bytes, ROW_UN_NUMERIC);
    mag_stripe::digit_values_of(code, number, store::value(bytes, ROW_ATC))
}

// Whether the stored track can take the digits that the bitmaps ask for.
fn can_track_take_digits(bytes: &[u8]) -> bool
    ensures { result ≡ stored_track_can_take_digits bytes.now }
{
    let bitmaps = bitmaps_in(bytes);
    mag_stripe::can_take_digits(store::value(bytes, ROW_TRACK2_DATA), bitmaps)
}

// Whether 82 and 94 are present.
fn is_gpo_data_present(bytes: &[u8]) -> bool
    ensures { result ≡ aip_and_afl_present bytes.now }
{
    store::is_present(bytes, ROW_AIP) && store::is_present(bytes, ROW_AFL)
}

// Whether 9F27, 9F36 and 9F26 are present.
fn is_cryptogram_present(bytes: &[u8]) -> bool
    ensures { result ≡ cid_atc_and_cryptogram_present bytes.now }
{
    store::is_present(bytes, ROW_CID)
        && store::is_present(bytes, ROW_ATC)
        && store::is_present(bytes, ROW_AC)
}
