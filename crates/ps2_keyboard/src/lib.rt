// The keyboard: its commands, its reset, its lamps and its scancode set.
#![tactic(auto)]

ghost use Rattle.std.specs.Prelude.{◌≡◌};
ghost use Rattle.exchange.specs.Exchange.{play};
ghost use Rattle.ps2_answers.specs.Answers.{told, ReadsTold};
ghost use Rattle.ps2_kept.specs.Kept.{keeping_thrown};
ghost use Rattle.ps2_kept.specs.Added.{keeping_onto};
ghost use Rattle.ps2_kept.specs.Promises.{PlaysKeptTold};
ghost use Rattle.ps2_command.specs.Answering.{TwoAcknowledged};
ghost use Rattle.ps2_keyboard.specs.Keyboard.{command_to_keyboard, reset_keyboard, set_keyboard_led, set_port_led, command_scancode_set, get_scancode_set, set_scancode_set, read_scancode, keyboard_output_buffer_full};
ghost use Rattle.ps2_keyboard.specs.Parts.{set_search};

use ps2_answers::{Answer, Counted, Failure, Refusal};
use ps2_bytes::{HostToDevice, HostToKeyboardCommand, HostToKeyboardCommandOrData, ScancodeSet};
use ps2_command::{
    Commanded, command_by, command_pair, command_pair_acknowledged, command_pair_onto, failing_as,
    read_self_test_result,
};
use ps2_kept::{KeptBytes, none_kept};
use ps2_layouts::LEDState;
use ps2_polling::{POLL_LIMIT, poll_data};
use ps2_ports::{DevicePort, read_data, status_register};

// The most data reads of a reset, after the command.
const RESET_READS: u32 = 262140;

/// A byte for the keyboard, by the command rule.
/// Refused: 2 to 7.
pub fn command_to_keyboard(
    script: &[u8],
    log: &mut [u8],
    value: HostToKeyboardCommandOrData,
) -> Commanded
    ensures { PlaysKeptTold (keeping_thrown (command_to_keyboard value)) script.now log.old
        result.answer log.new result.kept }
{
    command_by(
        script,
        log,
        DevicePort::Port1,
        HostToDevice::Keyboard(value),
    )
}

/// Resets the keyboard: it answers the command, and then says by a byte of its own that it passed
/// its self test.
/// FF, then AA from the keyboard. Refused: 2 to 7, reset failed (10).
pub fn reset_keyboard(script: &[u8], log: &mut [u8]) -> Answer<()>
    ensures { told result log.new ≡ play reset_keyboard script.now log.old }
{
    let sent = command_to_keyboard(
        script,
        log,
        HostToKeyboardCommandOrData::KeyboardCommand(HostToKeyboardCommand::ResetAndStartSelfTest),
    )
    .answer?;
    sent.then(read_self_test_result(&script[sent.used..], RESET_READS))
}

/// Sets the keyboard's lamps, and hands back the bytes that the exchange threw away.
/// ED and the lamps' byte. Refused: 2, 3, LEDs not set (14).
pub fn set_keyboard_led(script: &[u8], log: &mut [u8], value: LEDState) -> Commanded
    ensures { PlaysKeptTold (keeping_thrown (set_keyboard_led value)) script.now log.old
        result.answer log.new result.kept }
{
    if let Some(done) = set_port_led_acknowledged(script, log, DevicePort::Port1, value) {
        return Commanded {
            answer: Ok(done),
            kept: none_kept(),
        };
    }
    set_port_led_onto(script, log, DevicePort::Port1, value, none_kept())
}

/// The same for the keyboard of either port, with what is thrown away behind the bytes kept before.
pub fn set_port_led_onto(
    script: &[u8],
    log: &mut [u8],
    port: DevicePort,
    value: LEDState,
    before: KeptBytes,
) -> Commanded
    ensures { PlaysKeptTold (keeping_onto before (set_port_led port value)) script.now log.old
        result.answer log.new result.kept }
{
    let c = command_pair_onto(
        script,
        log,
        port,
        HostToDevice::Keyboard(HostToKeyboardCommandOrData::KeyboardCommand(
            HostToKeyboardCommand::SetLEDStatus,
        )),
        HostToDevice::Keyboard(HostToKeyboardCommandOrData::LEDState(value)),
        before,
    );
    Commanded {
        answer: failing_as(c.answer, Failure::LedsNotSet),
        kept: c.kept,
    }
}

/// The same where the keyboard acknowledges both bytes before it sends
/// any other: the bytes used and the pairs written. Where it doesn't,
/// or the log has no room, nothing is done, and the answer is `None`.
pub fn set_port_led_acknowledged(
    script: &[u8],
    log: &mut [u8],
    port: DevicePort,
    value: LEDState,
) -> Option<Counted<()>>
    ensures { TwoAcknowledged port (set_port_led port value) script.now log.old result log.new }
{
    command_pair_acknowledged(
        script,
        log,
        port,
        HostToDevice::Keyboard(HostToKeyboardCommandOrData::KeyboardCommand(
            HostToKeyboardCommand::SetLEDStatus,
        )),
        HostToDevice::Keyboard(HostToKeyboardCommandOrData::LEDState(value)),
    )
}

/// Sets the scancode set. That the keyboard then tells another one is no failure.
/// F0 and the set, then F0 and 00. Refused: 2 to 7, no set or identity (11).
pub fn set_keyboard_scancode_set(script: &[u8], log: &mut [u8], value: ScancodeSet) -> Answer<()>
    ensures { told result log.new ≡ play (set_scancode_set value) script.now log.old }
{
    let chosen = command_scancode_set(script, log, value)?;
    let tail = 2 * chosen.pairs;
    let told = chosen.then(get_keyboard_scancode_set(&script[chosen.used..], &mut log[tail..]))?;
    Ok(told.with(()))
}

/// Asks for the scancode set.
/// F0 and 00; the keyboard answers the set. Refused: 2 to 7, no set or identity (11).
pub fn get_keyboard_scancode_set(script: &[u8], log: &mut [u8]) -> Answer<ScancodeSet>
    ensures { told result log.new ≡ play get_scancode_set script.now log.old }
{
    let asked = command_scancode_set(script, log, ScancodeSet::Get)?;
    asked.then(poll_scancode_set(&script[asked.used..]))
}

// The command for the scancode set, and its byte: a set, or the question for it.
fn command_scancode_set(script: &[u8], log: &mut [u8], value: ScancodeSet) -> Answer<()>
    ensures { told result log.new ≡ play (command_scancode_set value) script.now log.old }
{
    command_pair(
        script,
        log,
        DevicePort::Port1,
        HostToDevice::Keyboard(HostToKeyboardCommandOrData::KeyboardCommand(
            HostToKeyboardCommand::ScancodeSet,
        )),
        HostToDevice::Keyboard(HostToKeyboardCommandOrData::ScancodeSet(value)),
    )
    .answer
}

// Polls for a scancode set.
// A bounded `loop` that yields by `break`.
fn poll_scancode_set(script: &[u8]) -> Answer<ScancodeSet>
    ensures { ReadsTold set_search script.now result }
{
    let mut at = Counted::new(None);
    let mut polls = POLL_LIMIT;
    loop {
        if polls == 0 {
            break Err(at.with(Refusal::Failed(Failure::NoSetOrIdentity)));
        }
        at = at.then(poll_data(&script[at.used..]))?;
        if let Some(b) = at.value {
            if let Ok(set) = ScancodeSet::try_from(b) {
                break Ok(at.with(set));
            }
        }
        polls -= 1;
    }
}

/// Whether there is a byte of the keyboard to read.
/// One read of port 64. Refused: script ends (2).
pub fn is_output_buffer_full(script: &[u8]) -> Answer<bool>
    ensures { ReadsTold keyboard_output_buffer_full script.now result }
{
    let status = status_register(script)?;
    Ok(status.with(status.value.output_buffer_full()))
}

/// Reads a scancode, without asking the status.
/// One read of port 60. Refused: script ends (2).
pub fn read_scancode(script: &[u8]) -> Answer<u8>
    ensures { ReadsTold read_scancode script.now result }
{
    read_data(script)
}
