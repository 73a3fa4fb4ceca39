// The calls of `host` for C, in `libhost.a`. Each makes the call of its name and promises the same.
//
// A crate that exports is no library of another crate, so the exports stand in a crate of their own.
#![tactic(auto)]

ghost use Rattle.std.specs.Prelude.{◌≡◌};
ghost use Rattle.layout.specs.Layout.{session_record_size, decoded_session};
ghost use Rattle.find.specs.Find.{find_tag};
ghost use Rattle.find.specs.Word.{find_word};
ghost use Rattle.session.specs.Steps.{link_failed_step, stop_step};
ghost use Rattle.host.specs.Hosted.{ReturnsHostResult, HostOpened, perform_host_call_if_admitted, host_start, host_answer, command_count_or_all_ones};
ghost use Rattle.host.specs.Explain.{explanation_word_or_refusal};
ghost use Rattle.host.specs.Object.{ReturnsObjectCopied, object_copied_from_session};
ghost use Rattle.host.specs.Wipe.{SessionWiped};
ghost use Rattle.host.specs.Version.{version_word};

#[unsafe(no_mangle)]
pub extern "C" fn emv_session_size() -> usize
    ensures { result ≡ session_record_size }
{
    host::emv_session_size()
}

#[unsafe(no_mangle)]
pub extern "C" fn emv_open(session: &mut [u8]) -> u32
    ensures { HostOpened result session.old session.new }
{
    host::emv_open(session)
}

#[unsafe(no_mangle)]
pub extern "C" fn emv_start(session: &mut [u8], terminal: &[u8], command: &mut [u8]) -> u32
    ensures { ReturnsHostResult result session.new command.new
        (host_start terminal.now session.old command.old) }
{
    host::emv_start(session, terminal, command)
}

#[unsafe(no_mangle)]
pub extern "C" fn emv_answer(session: &mut [u8], card: &[u8], command: &mut [u8]) -> u32
    ensures { ReturnsHostResult result session.new command.new
        (host_answer card.now session.old command.old) }
{
    host::emv_answer(session, card, command)
}

#[unsafe(no_mangle)]
pub extern "C" fn emv_link_failed(session: &mut [u8], command: &mut [u8]) -> u32
    ensures { ReturnsHostResult result session.new command.new
        (perform_host_call_if_admitted link_failed_step session.old command.old) }
{
    host::emv_link_failed(session, command)
}

#[unsafe(no_mangle)]
pub extern "C" fn emv_stop(session: &mut [u8], command: &mut [u8]) -> u32
    ensures { ReturnsHostResult result session.new command.new
        (perform_host_call_if_admitted stop_step session.old command.old) }
{
    host::emv_stop(session, command)
}

#[unsafe(no_mangle)]
pub extern "C" fn emv_count(session: &[u8]) -> u32
    ensures { result ≡ command_count_or_all_ones (decoded_session session.now) }
{
    host::emv_count(session)
}

#[unsafe(no_mangle)]
pub extern "C" fn emv_explain(session: &[u8]) -> u32
    ensures { result ≡ explanation_word_or_refusal (decoded_session session.now) }
{
    host::emv_explain(session)
}

#[unsafe(no_mangle)]
pub extern "C" fn emv_object(session: &[u8], tag: u32, value: &mut [u8]) -> u32
    ensures { ReturnsObjectCopied result value.new (object_copied_from_session (decoded_session session.now) tag value.old) }
{
    host::emv_object(session, tag, value)
}

#[unsafe(no_mangle)]
pub extern "C" fn emv_find(bytes: &[u8], tag: u32) -> u64
    ensures { result ≡ find_word (find_tag tag bytes.now) }
{
    host::emv_find(bytes, tag)
}

#[unsafe(no_mangle)]
pub extern "C" fn emv_wipe(session: &mut [u8]) -> u32
    ensures { SessionWiped result session.old session.new }
{
    host::emv_wipe(session)
}

#[unsafe(no_mangle)]
pub extern "C" fn emv_version() -> u32
    ensures { result ≡ version_word }
{
    host::emv_version()
}
