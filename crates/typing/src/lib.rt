// Text turned into scancodes of set 1: the strokes by which a keyboard would type it.
#![tactic(auto)]

ghost use Rattle.std.specs.Prelude.{◌≡◌, length};
ghost use Rattle.typing.specs.Keys.{key_of, keys_of};
ghost use Rattle.typing.specs.Typing.{Accepted, typed, leaves, refusal_number, told};
ghost use Rattle.typing.specs.Lengths.{count_of};
ghost use Rattle.typing.specs.Table.{or_none};
ghost use Rattle.typing.specs.Written.{Written};

use std::io::{self, Write};

/// Why a text is not typed: 25 and 26 by number.
#[derive(Clone, Copy, Debug, PartialEq, Eq)]
pub enum TypingRefusal {
    NoKey = 25,
    OutputShort = 26,
}

impl TypingRefusal {
    /// The number of a refusal, as an answer tells it.
    pub fn number(self) -> u8
        ensures { result ≡ refusal_number self }
    {
        self as u8
    }
}

// The press and the release of the left Shift.
const SHIFT_PRESSED: u8 = 0x2A;

const SHIFT_RELEASED: u8 = 0xAA;

// In set 1 a key's release is its press with the top bit set.
const RELEASED: u8 = 0x80;

// What the table adds to the keycode of a key that needs
// Shift, and what it has for a character without a key.
const NEEDS_SHIFT: u8 = 0x80;

const NO_KEY: u8 = 0x00;

// How many characters are typed into a writer at a time.
const PIECE: usize = 1024;

// The key of each character, in rows of sixteen.
static KEYS: [u8; 256] = *b"\
    \x00\x00\x00\x00\x00\x00\x00\x00\x0E\x0F\x1C\x00\x00\x00\x00\x00\
    \x00\x00\x00\x00\x00\x00\x00\x00\x00\x00\x00\x01\x00\x00\x00\x00\
    \x39\x82\xA8\x84\x85\x86\x88\x28\x8A\x8B\x37\x4E\x33\x0C\x34\x35\
    \x0B\x02\x03\x04\x05\x06\x07\x08\x09\x0A\xA7\x27\xB3\x0D\xB4\xB5\
    \x83\x9E\xB0\xAE\xA0\x92\xA1\xA2\xA3\x97\xA4\xA5\xA6\xB2\xB1\x98\
    \x99\x90\x93\x9F\x94\x96\xAF\x91\xAD\x95\xAC\x1A\x2B\x1B\x87\x8C\
    \x29\x1E\x30\x2E\x20\x12\x21\x22\x23\x17\x24\x25\x26\x32\x31\x18\
    \x19\x10\x13\x1F\x14\x16\x2F\x11\x2D\x15\x2C\x9A\xAB\x9B\xA9\x00\
    \x00\x00\x00\x00\x00\x00\x00\x00\x00\x00\x00\x00\x00\x00\x00\x00\
    \x00\x00\x00\x00\x00\x00\x00\x00\x00\x00\x00\x00\x00\x00\x00\x00\
    \x00\x00\x00\x00\x00\x00\x00\x00\x00\x00\x00\x00\x00\x00\x00\x00\
    \x00\x00\x00\x00\x00\x00\x00\x00\x00\x00\x00\x00\x00\x00\x00\x00\
    \x00\x00\x00\x00\x00\x00\x00\x00\x00\x00\x00\x00\x00\x00\x00\x00\
    \x00\x00\x00\x00\x00\x00\x00\x00\x00\x00\x00\x00\x00\x00\x00\x00\
    \x00\x00\x00\x00\x00\x00\x00\x00\x00\x00\x00\x00\x00\x00\x00\x00\
    \x00\x00\x00\x00\x00\x00\x00\x00\x00\x00\x00\x00\x00\x00\x00\x00";

/// Writes the scancodes of a text to the start of an output, and answers how many bytes they are:
/// each key's press and release, with those of Shift around a key that needs it.
/// What is not written stays as it was; a refusal writes nothing.
/// Refused: no key (25), then output short (26).
pub fn type_text(text: &[u8], out: &mut [u8]) -> Result<usize, TypingRefusal>
    ensures { told result out.new ≡ leaves out.old (typed (length out.old) text.now) }
{
    let Some(shifted) = count_shifted(text) else {
        return Err(TypingRefusal::NoKey);
    };
    // A character takes two bytes, and two more with Shift.
    let room = out.len() / 2;
    if room < text.len() || room - text.len() < shifted {
        return Err(TypingRefusal::OutputShort);
    }
    Ok(put_keys(text, out))
}

/// Writes the scancodes of a text to a writer, a piece at a time.
/// Refused: no key (25), and nothing is written. If a write fails, a part may have been written.
pub fn write_text<W: Write>(text: &[u8], output: &mut W) -> io::Result<Result<(), TypingRefusal>>
    ensures { Written W.contents output.old output.new (keys_of text.now) result }
{
    if count_shifted(text).is_none() {
        return Ok(Err(TypingRefusal::NoKey));
    }
    // A character takes four bytes at the most.
    let mut scancodes = [0; 4 * PIECE];
    for piece in text.chunks(PIECE) {
        let length = put_keys(piece, &mut scancodes);
        output.write_all(&scancodes[..length])?;
    }
    Ok(Ok(()))
}

// What the table has for a character.
fn key_in(character: u8) -> u8
    ensures { result ≡ or_none (key_of character) }
{
    KEYS[usize::from(character)]
}

// Asks every character for its key, and counts those that need Shift, if none lacks a key.
fn count_shifted(text: &[u8]) -> Option<usize>
    ensures { result ≡ count_of (keys_of text.now) }
{
    let mut shifted = 0;
    for &character in text {
        let key = key_in(character);
        if key == NO_KEY {
            return None;
        }
        if NEEDS_SHIFT <= key {
            shifted += 1;
        }
    }
    Some(shifted)
}

// Writes the scancodes of a text that is accepted, and answers
// how many they are. The table has every character of it.
fn put_keys(text: &[u8], out: &mut [u8]) -> usize
    requires { Accepted (length out.old) text.now }
    ensures { told (Ok result) out.new ≡ leaves out.old (typed (length out.old) text.now) }
{
    let mut at = 0;
    for &character in text {
        let key = key_in(character);
        if NEEDS_SHIFT <= key {
            let code = key - NEEDS_SHIFT;
            out[at] = SHIFT_PRESSED;
            out[at + 1] = code;
            out[at + 2] = code + RELEASED;
            out[at + 3] = SHIFT_RELEASED;
            at += 4;
        } else {
            out[at] = key;
            out[at + 1] = key + RELEASED;
            at += 2;
        }
    }
    at
}
