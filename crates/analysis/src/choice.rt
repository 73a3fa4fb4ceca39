// The choice of the cryptogram to request, from the TVR, the terminal's type and three pairs of action codes.
#![tactic(auto, using(crate::proofs::Tests::choices), unfolding(crate::specs::Inner::tvr_byte_bit_in_codes, crate::specs::Choice::online_capability_by_digit, crate::specs::Choice::iac_or_default))]

ghost use Rattle.std.specs.Prelude.{◌≡◌, ◌<◌, option_copied};
ghost use Rattle.store.specs.Place.{stored_value_of};
ghost use Rattle.analysis.specs.Choice.{lowest_bit_from_start_within_count, lowest_tvr_bit_in_codes, online_capability_of_type, terminal_action_analysis, generate_ac_p1, generate_ac_p1_for, iac_or_default, action_codes_at};
ghost use Rattle.analysis.specs.Inner.{tvr_byte_bit_in_codes, stage_consulted as is_consulted, choice_forced_at_stage, choice_without_forcing_bit};

use crate::byte;

// The action codes of a stage, five bytes each.
#[derive(Clone, Copy)]
pub struct ActionCodes {
    pub card: [u8; 5],
    pub terminal: [u8; 5],
}

// Where a terminal's type lets it decide, by the type's last digit.
#[derive(Clone, Copy, PartialEq, Eq)]
pub enum OnlineCapability {
    OnlineOnly,
    OnlineCapable,
    OfflineOnly,
    Unlisted,
}

#[derive(Clone, Copy, PartialEq, Eq)]
pub enum Choice {
    Decline,
    Online,
    Offline,
}

// The stages, by their place among the pairs.
// Kept: numbers, since `action_codes` and `iac_or_default` take any number, and an enum would narrow them.
pub const DENIAL: usize = 0;

pub const ONLINE: usize = 1;

pub const DEFAULT: usize = 2;

// The pair of a stage, from the card's code, which may be absent, and the terminal's.
pub fn action_codes(stage: usize, card: Option<&[u8]>, terminal: &[u8]) -> ActionCodes
    ensures { result ≡ action_codes_at stage (stored_value_of (option_copied card.entry)) terminal.now }
{
    ActionCodes {
        card: iac_or_default(stage, card),
        terminal: byte::first_five_bytes(terminal),
    }
}

// The card's code of a stage. An absent one is zeros for denial and ones for the others.
pub fn iac_or_default(stage: usize, code: Option<&[u8]>) -> [u8; 5]
    ensures { result ≡ iac_or_default stage (stored_value_of (option_copied code.entry)) }
{
    match code {
        Some(code) => byte::first_five_bytes(code),
        None if stage == DENIAL => [0; 5],
        None => [0xFF; 5],
    }
}

// The choice: the first stage that the type consults and that holds a bit forces it, and else the type alone gives it.
pub fn terminal_action_analysis(bits: [u8; 5], kind: u8, pairs: [ActionCodes; 3]) -> Choice
    ensures choice { result ≡ terminal_action_analysis bits kind pairs }
    ensures number { generate_ac_p1 result ≡ generate_ac_p1_for bits kind pairs }
{
    let capability = online_capability_of_type(kind);
    for (stage, pair) in pairs.iter().enumerate() {
        if consulted(capability, stage) && lowest_tvr_bit_in_codes(bits, *pair).is_some() {
            return forced(stage);
        }
    }
    unforced(capability)
}

// The lowest TVR bit, 0 to 39, that the card's code or the terminal's has.
pub fn lowest_tvr_bit_in_codes(bits: [u8; 5], pair: ActionCodes) -> Option<usize>
    ensures { result ≡ lowest_tvr_bit_in_codes bits pair }
{
    // Kept: an index, since three arrays are read at one place, and two zips inside an `enumerate` are no plainer.
    for i in 0..5 {
        if let Some(k) = byte_bit(bits[i], pair.card[i], pair.terminal[i]) {
            return Some(i * 8 + k);
        }
    }
    None
}

// The same within a byte: 0 is b8 and 7 is b1.
fn byte_bit(res: u8, card: u8, terminal: u8) -> Option<usize>
    ensures { result ≡ lowest_bit_from_start_within_count (tvr_byte_bit_in_codes res card terminal) 0 8 }
{
    if res == 0 {
        return None;
    }
    (0..8).find(|k| holds_bit(res, card, terminal, *k))
}

// Bit k of the TVR is in the card's code or the terminal's.
fn holds_bit(res: u8, card: u8, terminal: u8, k: usize) -> bool
    requires { k < 8 }
    ensures { result ≡ tvr_byte_bit_in_codes res card terminal k }
{
    let b = 8 - k;
    byte::byte_has_bit(res, b) && (byte::byte_has_bit(card, b) || byte::byte_has_bit(terminal, b))
}

// P1 of the command that requests the choice.
// Kept: no `From<Choice> for u8` beside it, which would hide which of a choice's numbers is meant: P1 or the rank.
pub fn generate_ac_p1(choice: Choice) -> u8
    ensures { result ≡ generate_ac_p1 choice }
{
    match choice {
        Choice::Decline => 0x00,
        Choice::Online => 0x80,
        Choice::Offline => 0x40,
    }
}

// A type ends in 1 or 4: online only; 2 or 5: online capable; 3 or 6: offline only.
pub fn online_capability_of_type(kind: u8) -> OnlineCapability
    ensures { result ≡ online_capability_of_type kind }
{
    match kind % 16 {
        1 | 4 => OnlineCapability::OnlineOnly,
        2 | 5 => OnlineCapability::OnlineCapable,
        3 | 6 => OnlineCapability::OfflineOnly,
        _ => OnlineCapability::Unlisted,
    }
}

// Every type consults denial; one that is online capable also online, one that is offline only also default.
fn consulted(capability: OnlineCapability, stage: usize) -> bool
    ensures { result ≡ is_consulted capability stage }
{
    stage == DENIAL
        || match capability {
            OnlineCapability::OnlineCapable => stage == ONLINE,
            OnlineCapability::OfflineOnly => stage == DEFAULT,
            OnlineCapability::OnlineOnly | OnlineCapability::Unlisted => false,
        }
}

// What a bit held at a stage forces.
fn forced(stage: usize) -> Choice
    ensures { result ≡ choice_forced_at_stage stage }
{
    if stage == ONLINE {
        Choice::Online
    } else {
        Choice::Decline
    }
}

// What is requested where no bit forces it. The rules leave an unlisted type open: it declines.
fn unforced(capability: OnlineCapability) -> Choice
    ensures { result ≡ choice_without_forcing_bit capability }
{
    match capability {
        OnlineCapability::OnlineOnly => Choice::Online,
        OnlineCapability::OnlineCapable | OnlineCapability::OfflineOnly => Choice::Offline,
        OnlineCapability::Unlisted => Choice::Decline,
    }
}
