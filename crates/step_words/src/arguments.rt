// The operation that two numbers stand for: which it is, and its argument.
ghost use Rattle.std.specs.Prelude.{◌≡◌, ◌<◌};
ghost use Rattle.std.specs.Int.{w64, to_le_bytes};
ghost use Rattle.step_words.specs.Arguments.{plainly, controller_in, controller_of, keyboard_command_in, mouse_command_in, lamps_in, set_in, identity_in, rate_in, resolution_in, fields_in, preferences_in, keyboard_operation_in, mouse_operation_in, operation_in};

use crate::places::byte_at;
use preferences::{Fields, Preferences};
use ps2_bytes::{
    HostToKeyboardCommand, HostToMouseCommand, MouseId, MouseResolution, MouseSampleRate,
    ScancodeSet,
};
use ps2_init::PS2Controller;
use ps2_layouts::LEDState;
use sessions::Operation;

// An operation without an argument, which is 0.
fn plain(argument: u64, operation: Operation) -> Option<Operation>
    ensures { result ≡ plainly argument operation }
{
    if argument == 0 { Some(operation) } else { None }
}

// The controller's record: 1 where it is initialised, 2 and 4 where a keyboard or a mouse is
// attached, added.
fn controller_at(argument: u64) -> Option<PS2Controller>
    ensures { result ≡ controller_in argument }
{
    match argument {
        0 => Some(controller(false, false, false)),
        1 => Some(controller(true, false, false)),
        2 => Some(controller(false, true, false)),
        3 => Some(controller(true, true, false)),
        4 => Some(controller(false, false, true)),
        5 => Some(controller(true, false, true)),
        6 => Some(controller(false, true, true)),
        7 => Some(controller(true, true, true)),
        _ => None,
    }
}

fn controller(initialized: bool, keyboard: bool, mouse: bool) -> PS2Controller
    ensures { result ≡ controller_of initialized keyboard mouse }
{
    PS2Controller {
        initialized,
        keyboard_attached: keyboard,
        mouse_attached: mouse,
    }
}

#[tactic(auto, unfolding(bits::specs::Table::decode))]
fn keyboard_command_at(argument: u64) -> Option<HostToKeyboardCommand>
    ensures { result ≡ keyboard_command_in argument }
{
    let byte = u8::try_from(argument).ok()?;
    HostToKeyboardCommand::try_from(byte).ok()
}

#[tactic(auto, unfolding(bits::specs::Table::decode))]
fn mouse_command_at(argument: u64) -> Option<HostToMouseCommand>
    ensures { result ≡ mouse_command_in argument }
{
    let byte = u8::try_from(argument).ok()?;
    HostToMouseCommand::try_from(byte).ok()
}

fn lamps_at(argument: u64) -> Option<LEDState>
    ensures { result ≡ lamps_in argument }
{
    if argument < 8 {
        Some(LEDState::from(argument as u8))
    } else {
        None
    }
}

// 0 sets none: it asks.
fn set_at(argument: u64) -> Option<ScancodeSet>
    ensures { result ≡ set_in argument }
{
    match argument {
        1 => Some(ScancodeSet::Set1),
        2 => Some(ScancodeSet::Set2),
        3 => Some(ScancodeSet::Set3),
        _ => None,
    }
}

#[tactic(auto, unfolding(bits::specs::Table::decode))]
fn identity_at(argument: u64) -> Option<MouseId>
    ensures { result ≡ identity_in argument }
{
    let byte = u8::try_from(argument).ok()?;
    MouseId::try_from(byte).ok()
}

#[tactic(auto, unfolding(bits::specs::Table::decode))]
fn rate_at(argument: u64) -> Option<MouseSampleRate>
    ensures { result ≡ rate_in argument }
{
    let byte = u8::try_from(argument).ok()?;
    MouseSampleRate::try_from(byte).ok()
}

#[tactic(auto, unfolding(bits::specs::Table::decode))]
fn resolution_at(argument: u64) -> Option<MouseResolution>
    ensures { result ≡ resolution_in argument }
{
    let byte = u8::try_from(argument).ok()?;
    MouseResolution::try_from(byte).ok()
}

// Preferences in six bytes, from the lowest: the version, and the fields in their order.
fn preferences_at(argument: u64) -> Option<Preferences>
    ensures { result ≡ preferences_in argument }
{
    if argument >= 1 << 48 {
        return None;
    }
    let [version, set, rate, resolution, lamps, repeat, _, _] = argument.to_le_bytes();
    let fields = Fields {
        set: u32::from(set),
        rate: u32::from(rate),
        resolution: u32::from(resolution),
        lamps: u32::from(lamps),
    };
    match version {
        1 => Some(Preferences::Version1(fields)),
        2 => Some(Preferences::Version2(fields, u32::from(repeat))),
        _ => None,
    }
}

#[tactic(auto, unfolding(crate::specs::Arguments::keyboard_operation_in))]
fn keyboard_operation_at(number: u64, argument: u64) -> Option<Operation>
    ensures { result ≡ keyboard_operation_in number argument }
{
    match number {
        3 => plain(argument, Operation::ResetKeyboard),
        4 => Some(Operation::CommandKeyboard(keyboard_command_at(argument)?)),
        5 => Some(Operation::SetLamps(lamps_at(argument)?)),
        6 => Some(Operation::SetScancodeSet(set_at(argument)?)),
        7 => plain(argument, Operation::GetScancodeSet),
        8 => plain(argument, Operation::DetectKeyboard),
        9 => Some(Operation::SetRepeat(byte_at(argument)?)),
        10 => plain(argument, Operation::KeyboardWaits),
        11 => plain(argument, Operation::ReadScancode),
        _ => None,
    }
}

#[tactic(auto, unfolding(crate::specs::Arguments::mouse_operation_in))]
fn mouse_operation_at(number: u64, argument: u64) -> Option<Operation>
    ensures { result ≡ mouse_operation_in number argument }
{
    match number {
        12 => plain(argument, Operation::ResetMouse),
        13 => plain(argument, Operation::StartPackets),
        14 => plain(argument, Operation::StopPackets),
        15 => plain(argument, Operation::GetIdentity),
        16 => Some(Operation::SetIdentity(identity_at(argument)?)),
        17 => Some(Operation::CommandMouse(mouse_command_at(argument)?)),
        18 => Some(Operation::SetSamplingRate(rate_at(argument)?)),
        19 => Some(Operation::SetResolution(resolution_at(argument)?)),
        20 => plain(argument, Operation::MouseWaits),
        21 => Some(Operation::ReadPacket(identity_at(argument)?)),
        _ => None,
    }
}

/// The operation that a number and an argument stand for, if any.
#[inline(always)]
#[tactic(auto, unfolding(crate::specs::Arguments::operation_in))]
pub fn operation_at(number: u64, argument: u64) -> Option<Operation>
    ensures { result ≡ operation_in number argument }
{
    if number == 1 {
        return Some(Operation::InitializeController(controller_at(argument)?));
    }
    if number == 2 {
        return plain(argument, Operation::InitializeKeyboard);
    }
    if number == 22 {
        return Some(Operation::ApplyPreferences(preferences_at(argument)?));
    }
    if number < 12 {
        keyboard_operation_at(number, argument)
    } else {
        mouse_operation_at(number, argument)
    }
}
