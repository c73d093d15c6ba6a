// Operations on bytes: a key's character, an event for a
// report, conversion from set 2, typing, salvage.
ghost use Rattle.std.specs.Prelude.{◌≡◌};
ghost use Rattle.argument_words.specs.Arguments.{identity_at};
ghost use Rattle.keycodes_ascii.specs.Keycode.{keycode_of};
ghost use Rattle.bytes_words.specs.Keys.{flags_at, action_at, character_at, event_code_at};
ghost use Rattle.bytes_words.specs.Outputs.{StreamConverted, TextTyped, RecordingSalvaged};

use bytes_words::{
    ConvertedWords, SalvagedWords, WrittenWords, character, convert_set2, event_code, salvage,
    type_text,
};

/// The character of a key under some flags, 0 where it has none.
#[unsafe(no_mangle)]
pub extern "C" fn vd_character(keycode: u32, flags: u32) -> u32
    ensures { result ≡ character_at (keycode_of keycode) (flags_at flags) }
{
    character(keycode, flags)
}

/// The byte by which a report takes the press (0) or the release (1) of a key.
#[unsafe(no_mangle)]
pub extern "C" fn vd_event_code(keycode: u32, action: u32) -> u32
    ensures { result ≡ event_code_at (keycode_of keycode) (action_at action) }
{
    event_code(keycode, action)
}

/// Converts a set 2 key stream to set 1.
#[unsafe(no_mangle)]
pub extern "C" fn vd_convert_set2(stream: &[u8], out: &mut [u8]) -> ConvertedWords
    ensures { StreamConverted stream.now out.old result out.new }
{
    convert_set2(stream, out)
}

/// Writes the scancodes of a text.
#[unsafe(no_mangle)]
pub extern "C" fn vd_type_text(text: &[u8], out: &mut [u8]) -> WrittenWords
    ensures { TextTyped text.now out.old result out.new }
{
    type_text(text, out)
}

/// Salvages a recording of a mouse whose identity is 0, 3 or 4.
#[unsafe(no_mangle)]
pub extern "C" fn vd_salvage(
    identity: u32,
    bytes: &[u8],
    packets: &mut [u8],
    positions: &mut [u64],
) -> SalvagedWords
    ensures { RecordingSalvaged (identity_at identity) bytes.now packets.old positions.old result
        packets.new positions.new }
{
    salvage(identity, bytes, packets, positions)
}
