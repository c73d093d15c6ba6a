// The operations on bytes as a program in another language calls them: numbers in, answers as
// numbers, outputs lent and written where they lie.
#![tactic(auto)]

ghost use Rattle.std.specs.Prelude.{◌≡◌};
ghost use Rattle.argument_words.specs.Arguments.{identity_at};
ghost use Rattle.keycodes_ascii.specs.Keycode.{keycode_of};
ghost use Rattle.report.specs.Events.{code_of};
ghost use Rattle.bytes_words.specs.Keys.{flags_at, action_at, character_number, character_at, event_code_at};
ghost use Rattle.bytes_words.specs.Parts.{is_found};
ghost use Rattle.bytes_words.specs.Outputs.{StreamConverted, TextTyped, RecordingSalvaged};

use argument_words::{INVALID_ARGUMENT, identity_of};
use keyboard_modifiers::KeyboardModifiers;
use keycodes_ascii::{KEY_RELEASED_OFFSET, KeyAction, Keycode};

// C reads these three: a refusal stands beside the counts, and outputs are slices that C lends.

/// What a conversion answers: the refusal's number, 0 where there is none; bytes of the stream
/// used, bytes of the output written.
#[repr(C)]
#[derive(Clone, Copy)]
pub struct ConvertedWords {
    pub refusal: u32,
    pub used: usize,
    pub written: usize,
}

/// What a typing answers: the refusal's number, 0 where there is none; bytes of the output written.
#[repr(C)]
#[derive(Clone, Copy)]
pub struct WrittenWords {
    pub refusal: u32,
    pub written: usize,
}

/// What a salvage answers: the refusal's number, 0 where there is none; bytes of the recording
/// used, bytes of packets and positions of dropped bytes written.
#[repr(C)]
#[derive(Clone, Copy)]
pub struct SalvagedWords {
    pub refusal: u32,
    pub used: usize,
    pub packet_bytes: usize,
    pub dropped: usize,
}

// Whether a number is a keycode's: those of events, up to 5D, and the release codes of the modifier
// keys. Listed, for speed: by `keycode_of` an event's byte took twice the instructions.
fn is_keycode(keycode: u32) -> bool
    ensures { result ≡ is_found (keycode_of keycode) }
{
    if keycode <= 0x5D {
        return true;
    }
    match keycode {
        0x9D => true,
        0xAA => true,
        0xB6 => true,
        0xB8 => true,
        0xDB => true,
        0xDC => true,
        _ => false,
    }
}

// The flags that a number stands for, if any.
fn flags_of(flags: u32) -> Option<KeyboardModifiers>
    ensures { result ≡ flags_at flags }
{
    let bits = u16::try_from(flags).ok()?;
    Some(KeyboardModifiers { bits })
}

// The action that a number stands for, if any.
fn action_of(action: u32) -> Option<KeyAction>
    ensures { result ≡ action_at action }
{
    match action {
        0 => Some(KeyAction::Pressed),
        1 => Some(KeyAction::Released),
        _ => None,
    }
}

// The keycode that has this number.
#[tactic(auto, using(keycodes_ascii::proofs::Codes::ok_read, crate::proofs::Keys::keycode_above))]
fn keycode_of(keycode: u32) -> Option<Keycode>
    ensures { result ≡ keycode_of keycode }
{
    let byte = u8::try_from(keycode).ok()?;
    Keycode::try_from(byte).ok()
}

// The number of a character, 0 for none.
fn character_number(found: Option<u8>) -> u32
    ensures { result ≡ character_number found }
{
    found.map_or(0, |ascii| u32::from(ascii))
}

/// The character of a key under some flags, 0 where it has none: 255 where the keycode or the flags
/// stand for nothing.
pub fn character(keycode: u32, flags: u32) -> u32
    ensures { result ≡ character_at (keycode_of keycode) (flags_at flags) }
{
    let Some(key) = keycode_of(keycode) else {
        return INVALID_ARGUMENT;
    };
    let Some(held) = flags_of(flags) else {
        return INVALID_ARGUMENT;
    };
    character_number(key.to_ascii(held))
}

// The byte by which a report takes the press or the release of the key with this number.
fn code_of(action: KeyAction, number: u32) -> u32
    ensures { result ≡ code_of action number }
{
    let offset = u32::from(KEY_RELEASED_OFFSET);
    match action {
        KeyAction::Pressed => number,
        KeyAction::Released => number % offset + offset,
    }
}

/// The byte by which a report takes an event, of a keycode that is pressed (0) or released (1): 255
/// where one of the two stands for nothing.
pub fn event_code(keycode: u32, action: u32) -> u32
    ensures { result ≡ event_code_at (keycode_of keycode) (action_at action) }
{
    if !is_keycode(keycode) {
        return INVALID_ARGUMENT;
    }
    match action_of(action) {
        Some(done) => code_of(done, keycode),
        None => INVALID_ARGUMENT,
    }
}

/// Converts a set 2 key stream to set 1.
pub fn convert_set2(stream: &[u8], out: &mut [u8]) -> ConvertedWords
    ensures { StreamConverted stream.now out.old result out.new }
{
    let converted = scancode_set2::convert(stream, out);
    ConvertedWords {
        refusal: converted.answer.err().map_or(0, |r| u32::from(r.number())),
        used: converted.used,
        written: converted.written,
    }
}

/// Writes the scancodes of a text.
pub fn type_text(text: &[u8], out: &mut [u8]) -> WrittenWords
    ensures { TextTyped text.now out.old result out.new }
{
    match typing::type_text(text, out) {
        Ok(written) => WrittenWords {
            refusal: 0,
            written,
        },
        Err(refusal) => WrittenWords {
            refusal: u32::from(refusal.number()),
            written: 0,
        },
    }
}

/// Salvages a recording of a mouse whose identity is 0, 3 or 4: 255 where it is another.
pub fn salvage(
    identity: u32,
    bytes: &[u8],
    packets: &mut [u8],
    positions: &mut [u64],
) -> SalvagedWords
    ensures { RecordingSalvaged (identity_at identity) bytes.now packets.old positions.old result
        packets.new positions.new }
{
    match identity_of(identity) {
        Some(id) => {
            let salvaged = ps2_salvage::salvage(id, bytes, packets, positions);
            SalvagedWords {
                refusal: salvaged.answer.err().map_or(0, |r| u32::from(r.number())),
                used: salvaged.used,
                packet_bytes: salvaged.packet_bytes,
                dropped: salvaged.dropped,
            }
        }
        None => SalvagedWords {
            refusal: INVALID_ARGUMENT,
            used: 0,
            packet_bytes: 0,
            dropped: 0,
        },
    }
}
