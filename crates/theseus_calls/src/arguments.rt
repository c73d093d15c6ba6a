// What the numbers of an argument stand for.
ghost use Rattle.std.specs.Prelude.{◌≡◌};
ghost use Rattle.argument_words.specs.Arguments.{said_found};
ghost use Rattle.keyboard_words.specs.Arguments.{command_at};
ghost use Rattle.mouse_words.specs.Arguments.{command_at as mouse_command_at};
ghost use Rattle.theseus_calls.specs.Arguments.{set_at};

use ps2_bytes::{HostToKeyboardCommand, HostToMouseCommand, ScancodeSet};

/// The command to the keyboard that is sent as this byte.
pub fn keyboard_command_of(byte: u32) -> Option<HostToKeyboardCommand>
    ensures { said_found result ≡ command_at byte }
{
    let byte = u8::try_from(byte).ok()?;
    HostToKeyboardCommand::try_from(byte).ok()
}

/// The command to the mouse that is sent as this byte.
pub fn mouse_command_of(byte: u32) -> Option<HostToMouseCommand>
    ensures { said_found result ≡ mouse_command_at byte }
{
    let byte = u8::try_from(byte).ok()?;
    HostToMouseCommand::try_from(byte).ok()
}

/// The scancode set of a number, of which 0 asks.
pub fn set_of(number: u32) -> Option<ScancodeSet>
    ensures { said_found result ≡ set_at number }
{
    let byte = u8::try_from(number).ok()?;
    ScancodeSet::try_from(byte).ok()
}
