// Keyboard initialisation: the keyboard's type is detected and its scancode set chosen, and the
// handler starts from a fresh record.
#![tactic(auto)]

ghost use Rattle.std.specs.Prelude.{◌≡◌};
ghost use Rattle.exchange.specs.Exchange.{play};
ghost use Rattle.keyboard_init.specs.KeyboardInit.{detection, keyboard_init};
ghost use Rattle.keyboard_record.specs.Record.{fresh};
ghost use Rattle.ps2_answers.specs.Answers.{told};

use keyboard_record::{KeyboardHandler, Table};
use ps2_answers::{Answer, Failure};
use ps2_bytes::{KeyboardType, ScancodeSet};
use ps2_command::failing_as;
use ps2_detect::keyboard_detect;
use ps2_keyboard::set_keyboard_scancode_set;

/// The handler's record, which is good where the answer is that all was done.
#[derive(Clone, Copy)]
pub struct KeyboardInitialized {
    pub answer: Answer<()>,
    pub handler: KeyboardHandler,
}

/// Initialises the first keyboard, with a fresh record for a table: one keyboard or two, and a
/// profile.
/// Refused: 2 to 7, no set or identity (11), keyboard not detected (18).
pub fn keyboard_init(table: Table, script: &[u8], log: &mut [u8]) -> KeyboardInitialized
    ensures { (told result.answer log.new ≡ play keyboard_init script.now log.old)
        × (result.handler ≡ fresh table) }
{
    KeyboardInitialized {
        answer: set_up(script, log),
        handler: KeyboardHandler::fresh(table),
    }
}

// Detects the keyboard's type, and chooses scancode set 1 on what that left.
fn set_up(script: &[u8], log: &mut [u8]) -> Answer<()>
    ensures { told result log.new ≡ play keyboard_init script.now log.old }
{
    let detected = detect_type(script, log)?;
    let tail = 2 * detected.pairs;
    detected.then(set_keyboard_scancode_set(
        &script[detected.used..],
        &mut log[tail..],
        ScancodeSet::Set1,
    ))
}

// Detects the type of the keyboard, with its refusals replaced by one.
fn detect_type(script: &[u8], log: &mut [u8]) -> Answer<KeyboardType>
    ensures { told result log.new ≡ play detection script.now log.old }
{
    failing_as(keyboard_detect(script, log), Failure::KeyboardNotDetected)
}
