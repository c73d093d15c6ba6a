// Numbers that are passed for what a program in another
// language has no type for: what each stands for, if anything.
#![tactic(auto, unfolding(bits::specs::Table::decode))]

ghost use Rattle.std.specs.Prelude.{◌≡◌};
ghost use Rattle.argument_words.specs.Arguments.{identity_at, said_found};

use ps2_bytes::MouseId;

/// What is answered where an argument stands for nothing: a number that no refusal of an operation
/// has.
pub const INVALID_ARGUMENT: u32 = 255;

/// The mouse's identity that a number stands for, if any.
pub fn identity_of(identity: u32) -> Option<MouseId>
    ensures { said_found result ≡ identity_at identity }
{
    let byte = u8::try_from(identity).ok()?;
    MouseId::try_from(byte).ok()
}
