// The keyboard: its commands, its reset, its lamps, its scancode set, its type, its initialisation.
ghost use Rattle.std.specs.Prelude.{◌≡◌};
ghost use Rattle.talks.specs.Heard.{by, heard};
ghost use Rattle.talks.specs.Keyboard as talk;
ghost use Rattle.talks.specs.Keyboard.{set_said, second_said};

use crate::commands::{command, command_pair, read_status, seek, self_test};
use crate::{Partner, Stop, failing_as, told, tried};
use ps2_answers::Failure;
use ps2_bytes::{
    HostToDevice, HostToKeyboardCommand, HostToKeyboardCommandOrData, KeyboardType, ScancodeSet,
};
use ps2_layouts::{ControllerToHostStatus, LEDState};
use ps2_ports::DevicePort;
use questions::{FURTHER_POLLS, Sought};

// The data reads of a reset, behind the first.
const FURTHER_RESET_READS: u32 = 262139;

/// One of the keyboard's commands.
pub fn keyboard_command<P: Partner>(
    partner: &mut P,
    value: HostToKeyboardCommand,
) -> Result<(), Stop>
    ensures { by result partner.new ≡ heard P.replies (talk.keyboard_command value) partner.old }
{
    command(
        partner,
        HostToDevice::Keyboard(HostToKeyboardCommandOrData::KeyboardCommand(value)),
    )
}

// A command of the keyboard of a port, and its byte.
fn keyboard_pair<P: Partner>(
    partner: &mut P,
    port: DevicePort,
    command: HostToKeyboardCommand,
    byte: HostToKeyboardCommandOrData,
) -> Result<(), Stop>
    ensures { by result partner.new
        ≡ heard P.replies (talk.keyboard_pair port command byte) partner.old }
{
    command_pair(
        partner,
        port,
        HostToDevice::Keyboard(HostToKeyboardCommandOrData::KeyboardCommand(command)),
        HostToDevice::Keyboard(byte),
    )
}

/// Resets the keyboard: it answers the command, and then says by a byte of its own that it passed
/// its self test.
/// FF, then AA from the keyboard. Refused: 4 to 7, reset failed (10).
#[tactic(auto, unfolding(crate::specs::Keyboard::reset_keyboard, crate::specs::Heard::heard))]
pub fn reset_keyboard<P: Partner>(partner: &mut P) -> Result<(), Stop>
    ensures { by result partner.new ≡ heard P.replies talk.reset_keyboard partner.old }
{
    keyboard_command(partner, HostToKeyboardCommand::ResetAndStartSelfTest)?;
    self_test(partner, FURTHER_RESET_READS)
}

/// Sets the lamps of the keyboard of a port.
#[tactic(auto, unfolding(crate::specs::Keyboard::set_port_led, crate::specs::Heard::heard))]
pub fn set_port_led<P: Partner>(
    partner: &mut P,
    port: DevicePort,
    leds: LEDState,
) -> Result<(), Stop>
    ensures { by result partner.new ≡ heard P.replies (talk.set_port_led port leds) partner.old }
{
    let answer = keyboard_pair(
        partner,
        port,
        HostToKeyboardCommand::SetLEDStatus,
        HostToKeyboardCommandOrData::LEDState(leds),
    );
    failing_as(answer, Failure::LedsNotSet)
}

// The command for the scancode set, and its byte: a set, or the question for it.
#[tactic(auto, unfolding(crate::specs::Keyboard::command_scancode_set))]
fn command_scancode_set<P: Partner>(partner: &mut P, set: ScancodeSet) -> Result<(), Stop>
    ensures { by result partner.new ≡ heard P.replies (talk.command_scancode_set set) partner.old }
{
    keyboard_pair(
        partner,
        DevicePort::Port1,
        HostToKeyboardCommand::ScancodeSet,
        HostToKeyboardCommandOrData::ScancodeSet(set),
    )
}

// A byte as a scancode set.
fn set_of(byte: u8) -> Result<ScancodeSet, Stop>
    ensures { result ≡ set_said byte }
{
    match ScancodeSet::try_from(byte) {
        Ok(set) => Ok(set),
        Err(_) => Err(Stop::Refused(Failure::NoSetOrIdentity)),
    }
}

/// Asks for the scancode set.
#[tactic(auto, unfolding(crate::specs::Keyboard::get_scancode_set, crate::specs::Heard::heard))]
pub fn get_scancode_set<P: Partner>(partner: &mut P) -> Result<ScancodeSet, Stop>
    ensures { by result partner.new ≡ heard P.replies talk.get_scancode_set partner.old }
{
    command_scancode_set(partner, ScancodeSet::Get)?;
    let byte = seek(
        partner,
        Sought::ScancodeSet,
        FURTHER_POLLS,
        Failure::NoSetOrIdentity,
    )?;
    set_of(byte)
}

/// Sets the scancode set. That the keyboard then tells another one is no failure.
#[tactic(auto, unfolding(crate::specs::Keyboard::set_scancode_set, crate::specs::Heard::heard))]
pub fn set_scancode_set<P: Partner>(partner: &mut P, set: ScancodeSet) -> Result<(), Stop>
    ensures { by result partner.new ≡ heard P.replies (talk.set_scancode_set set) partner.old }
{
    command_scancode_set(partner, set)?;
    get_scancode_set(partner)?;
    Ok(())
}

/// Sets how fast the keyboard repeats a key that is held, and after which delay.
/// F3 and the byte. Refused: 4 to 7.
#[tactic(auto, unfolding(crate::specs::Keyboard::set_keyboard_repeat))]
pub fn set_keyboard_repeat<P: Partner>(partner: &mut P, byte: u8) -> Result<(), Stop>
    ensures { by result partner.new ≡ heard P.replies (talk.set_keyboard_repeat byte) partner.old }
{
    keyboard_pair(
        partner,
        DevicePort::Port1,
        HostToKeyboardCommand::SetRepeatRateAndDelay,
        HostToKeyboardCommandOrData::RepeatRateAndDelay(byte),
    )
}

/// Whether there is a byte of the keyboard to read.
#[tactic(auto, unfolding(crate::specs::Keyboard::keyboard_waits, crate::specs::Heard::heard))]
pub fn keyboard_waits<P: Partner>(partner: &mut P) -> Result<bool, Stop>
    ensures { by result partner.new ≡ heard P.replies talk.keyboard_waits partner.old }
{
    let status = read_status(partner)?;
    Ok(ControllerToHostStatus::from(status).output_buffer_full())
}

// A byte as the second of an identity.
#[tactic(auto, unfolding(bits::specs::Table::decode))]
fn second_of(byte: u8) -> Result<KeyboardType, Stop>
    ensures { result ≡ second_said byte }
{
    match byte {
        0x41 => Ok(KeyboardType::MF2KeyboardWithPSControllerTranslator),
        0xC1 => Ok(KeyboardType::MF2KeyboardWithPSControllerTranslator),
        0x83 => Ok(KeyboardType::MF2Keyboard),
        _ => Err(Stop::Refused(Failure::UnknownKeyboard)),
    }
}

// The search behind AB.
#[tactic(auto, unfolding(crate::specs::Keyboard::inner_search, crate::specs::Heard::heard))]
fn inner_search<P: Partner>(partner: &mut P) -> Result<KeyboardType, Stop>
    ensures { by result partner.new ≡ heard P.replies talk.inner_search partner.old }
{
    let byte = seek(
        partner,
        Sought::SecondOfIdentity,
        FURTHER_POLLS,
        Failure::UnknownKeyboard,
    )?;
    second_of(byte)
}

// The type that a keyboard says that it is.
#[tactic(auto, unfolding(crate::specs::Keyboard::type_search, crate::specs::Heard::heard))]
fn type_search<P: Partner>(partner: &mut P) -> Result<KeyboardType, Stop>
    ensures { by result partner.new ≡ heard P.replies talk.type_search partner.old }
{
    let first = seek(
        partner,
        Sought::FirstOfIdentity,
        FURTHER_POLLS,
        Failure::UnknownKeyboard,
    )?;
    if first == 0x00 {
        Ok(KeyboardType::AncientATKeyboard)
    } else {
        inner_search(partner)
    }
}

/// Detects the type of the keyboard. Scanning is enabled again whether it was recognised or not; a
/// failure of that outweighs the type.
/// OSDev Wiki, "8042 PS/2 Controller", "Detecting PS/2 Device Types". Refused: 4 to 7, unknown
/// keyboard (12).
#[tactic(auto, unfolding(crate::specs::Keyboard::keyboard_detect, crate::specs::Heard::heard))]
pub fn keyboard_detect<P: Partner>(partner: &mut P) -> Result<KeyboardType, Stop>
    ensures { by result partner.new ≡ heard P.replies talk.keyboard_detect partner.old }
{
    keyboard_command(partner, HostToKeyboardCommand::DisableScanning)?;
    keyboard_command(partner, HostToKeyboardCommand::IdentifyKeyboard)?;
    let found = tried(type_search(partner))?;
    keyboard_command(partner, HostToKeyboardCommand::EnableScanning)?;
    told(found)
}

/// Initialises the keyboard: detects its type, and chooses scancode set 1.
/// Refused: 4 to 7, no set or identity (11), keyboard not detected (18).
#[tactic(auto, unfolding(crate::specs::Keyboard::keyboard_init, crate::specs::Heard::heard))]
pub fn keyboard_init<P: Partner>(partner: &mut P) -> Result<(), Stop>
    ensures { by result partner.new ≡ heard P.replies talk.keyboard_init partner.old }
{
    let detected = keyboard_detect(partner);
    failing_as(detected, Failure::KeyboardNotDetected)?;
    set_scancode_set(partner, ScancodeSet::Set1)
}
