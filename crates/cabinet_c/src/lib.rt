// The calls of `cabinet` for C, in `libcabinet.a`. Each makes the call of its name and promises the same.
#![tactic(auto)]

ghost use Rattle.std.specs.Prelude.{◌≡◌};
ghost use Rattle.cabinet_lookup.specs.Word.{lookup_word};
ghost use Rattle.cabinet.specs.State.{cabinet_state_size, decoded_cabinet_if_valid};
ghost use Rattle.cabinet.specs.Calls.{ReturnsCabinetResult, OpensCabinetOrRefuses, remaining_amount_or_all_ones};
ghost use Rattle.cabinet.specs.Calls.{cabinet_start, cabinet_answer, cabinet_link_failed, cabinet_stop};

#[unsafe(no_mangle)]
pub extern "C" fn cabinet_size() -> usize
    ensures { result ≡ cabinet_state_size }
{
    cabinet::cabinet_size()
}

#[unsafe(no_mangle)]
pub extern "C" fn cabinet_open(state: &mut [u8], cap: u64) -> u32
    ensures { OpensCabinetOrRefuses cap result state.old state.new }
{
    cabinet::cabinet_open(state, cap)
}

#[unsafe(no_mangle)]
pub extern "C" fn cabinet_start(state: &mut [u8], terminal: &[u8], command: &mut [u8]) -> u32
    ensures { ReturnsCabinetResult result state.new command.new
        (cabinet_start terminal.now state.old command.old) }
{
    cabinet::cabinet_start(state, terminal, command)
}

#[unsafe(no_mangle)]
pub extern "C" fn cabinet_answer(state: &mut [u8], card: &[u8], command: &mut [u8]) -> u32
    ensures { ReturnsCabinetResult result state.new command.new
        (cabinet_answer card.now state.old command.old) }
{
    cabinet::cabinet_answer(state, card, command)
}

#[unsafe(no_mangle)]
pub extern "C" fn cabinet_link_failed(state: &mut [u8], command: &mut [u8]) -> u32
    ensures { ReturnsCabinetResult result state.new command.new (cabinet_link_failed state.old command.old) }
{
    cabinet::cabinet_link_failed(state, command)
}

#[unsafe(no_mangle)]
pub extern "C" fn cabinet_stop(state: &mut [u8], command: &mut [u8]) -> u32
    ensures { ReturnsCabinetResult result state.new command.new (cabinet_stop state.old command.old) }
{
    cabinet::cabinet_stop(state, command)
}

#[unsafe(no_mangle)]
pub extern "C" fn cabinet_left(state: &[u8]) -> u64
    ensures { result ≡ remaining_amount_or_all_ones (decoded_cabinet_if_valid state.now) }
{
    cabinet::cabinet_left(state)
}

#[unsafe(no_mangle)]
pub extern "C" fn cabinet_find(site: &[u8], defaults: &[u8], tag: u32) -> u64
    ensures { result ≡ lookup_word tag site.now defaults.now }
{
    cabinet::cabinet_find(site, defaults, tag)
}
