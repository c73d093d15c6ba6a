// The characters of keys.
ghost use Rattle.std.specs.Prelude.{◌≡◌};
ghost use Rattle.bytes_words.specs.Keys.{character_number};
ghost use Rattle.keycodes_ascii.specs.Keycode.{keycode_of};
ghost use Rattle.theseus_calls.specs.Interrupts.{character_under};

use argument_words::INVALID_ARGUMENT;
use theseus_keycodes::{KeyboardModifiers, Keycode};

// A character's number, and 0 where there is none.
fn character_number(found: Option<char>) -> u32
    ensures { result ≡ character_number found }
{
    match found {
        Some(character) => character as u32,
        None => 0,
    }
}

/// The character of a key, by its number, under flags that have the Rust's numbers: 0 where it has none, and 255
/// where the number is no keycode's.
#[unsafe(no_mangle)]
pub extern "C" fn vdr_character(keycode: u8, flags: u16) -> u32
    ensures { result ≡ character_under (keycode_of keycode) flags }
{
    match Keycode::try_from(keycode) {
        Ok(key) => character_number(key.to_ascii(KeyboardModifiers { bits: flags })),
        Err(_) => INVALID_ARGUMENT,
    }
}
