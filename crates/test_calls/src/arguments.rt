// What the numbers of an argument stand for.
ghost use Rattle.std.specs.Prelude.{◌≡◌};
ghost use Rattle.argument_words.specs.Arguments.{said_found};
ghost use Rattle.handler_words.specs.Arguments.{side_at};
ghost use Rattle.test_calls.specs.Arguments.{set_at};

use keyboard_sides::Side;
use ps2_bytes::ScancodeSet;

/// The scancode set of a number, of which 0 asks.
pub fn set_of(number: u32) -> Option<ScancodeSet>
    ensures { said_found result ≡ set_at number }
{
    let byte = u8::try_from(number).ok()?;
    ScancodeSet::try_from(byte).ok()
}

/// The side of a number.
pub fn side_in(number: u32) -> Option<Side>
    ensures { said_found result ≡ side_at number }
{
    match number {
        1 => Some(Side::First),
        2 => Some(Side::Second),
        _ => None,
    }
}
