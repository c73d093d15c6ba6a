// The keyboard's operations by numbers: arguments and answers are numbers that cross to C.
#![tactic(auto)]

ghost use Rattle.std.specs.Prelude.{◌≡◌, ◌<◌};
ghost use Rattle.bits.specs.Bits.{weigh};
ghost use Rattle.ps2_bytes.specs.Data.{scancode_set_byte};
ghost use Rattle.ps2_keyboard.specs.Keyboard.{reset_keyboard, set_scancode_set, get_scancode_set, read_scancode, keyboard_output_buffer_full};
ghost use Rattle.ps2_detect.specs.Detection.{keyboard_detect};
ghost use Rattle.preferences_application.specs.Application.{set_keyboard_repeat};
ghost use Rattle.argument_words.specs.Arguments.{invalid_argument, said_found};
ghost use Rattle.port_words.specs.Told.{refusing, no_value, byte_value, type_number, told};
ghost use Rattle.port_words.specs.ToldKept.{refusing_kept, told_kept};
ghost use Rattle.port_words.specs.Tells.{Tells, TellsReading, TellsAt};
ghost use Rattle.keyboard_words.specs.Arguments.{command_at, lamps_at, scancode_set_at, byte_at};
ghost use Rattle.handler_words.specs.Words.{words_of};
ghost use Rattle.keyboard_record.specs.Record.{fresh};
ghost use Rattle.ps2_answers.specs.Answers.{ended};
ghost use Rattle.keyboard_words.specs.Operations.{sending_command, setting_lamps, left_by, KeyboardInitialized};

use argument_words::INVALID_ARGUMENT;
use handler_words::{Words, put_fresh, table_of};
use keyboard_record::Table;
use port_words::{
    KeptWords, PortWords, answer_words, commanded_words, refusing_kept_words, refusing_words,
};
use preferences_application::set_keyboard_repeat;
use ps2_answers::{Answer, Refusal};
use ps2_bytes::{HostToKeyboardCommand, HostToKeyboardCommandOrData, ScancodeSet};
use ps2_keyboard::{
    command_to_keyboard, get_keyboard_scancode_set, is_output_buffer_full, read_scancode,
    reset_keyboard, set_keyboard_led, set_keyboard_scancode_set,
};
use ps2_layouts::LEDState;

// ---- what arguments stand for

// The command to the keyboard that is sent as this byte. Such two lines stand in argument_words
// too, where it is said why.
#[tactic(auto, unfolding(bits::specs::Table::decode))]
fn command_of(byte: u32) -> Option<HostToKeyboardCommand>
    ensures { said_found result ≡ command_at byte }
{
    let byte = u8::try_from(byte).ok()?;
    HostToKeyboardCommand::try_from(byte).ok()
}

// The scancode set of a number. 0 sets none: it asks.
fn set_of(number: u32) -> Option<ScancodeSet>
    ensures { said_found result ≡ scancode_set_at number }
{
    match number {
        1 => Some(ScancodeSet::Set1),
        2 => Some(ScancodeSet::Set2),
        3 => Some(ScancodeSet::Set3),
        _ => None,
    }
}

/// The lamps of a number: scroll 1, number 2, caps 4 added.
pub fn lamps_of(lamps: u32) -> Option<LEDState>
    ensures { said_found result ≡ lamps_at lamps }
{
    if lamps < 8 {
        Some(LEDState::from(lamps as u8))
    } else {
        None
    }
}

// ---- the operations

// What an initialisation that was answered so makes of the record's numbers: those of a fresh one,
// unless script or log ran out.
fn put_initialized(words: &mut Words, table: Table, answer: Answer<()>)
    ensures { words.new ≡ left_by (ended answer) (words_of (fresh table)) words.old }
{
    let lacks = match answer {
        Ok(_) => false,
        Err(refused) => matches!(refused.value, Refusal::Lacking(_)),
    };
    if !lacks {
        put_fresh(words, table);
    }
}

/// Initialises the first keyboard. The lent record becomes a fresh one, for a table with 1 keyboard
/// or 2, under profile 0 (none) or 1 (the tournament's), whether the keyboard did what it was asked
/// or not. After 2 and 3 it is as it was, and after 21, where it has not 144 numbers.
pub fn keyboard_init(
    words: &mut [u64],
    keyboards: u32,
    profile: u32,
    script: &[u8],
    log: &mut [u8],
) -> PortWords
    ensures { KeyboardInitialized words.old keyboards profile script.now log.old result words.new
        log.new }
{
    let Some(table) = table_of(keyboards, profile) else {
        return refusing_words(INVALID_ARGUMENT);
    };
    let Some(lent) = words.as_mut_array() else {
        return refusing_words(21);
    };
    let answer = keyboard_init::keyboard_init(table, script, log).answer;
    put_initialized(lent, table, answer);
    answer_words(answer)
}

/// Resets the keyboard.
pub fn keyboard_reset(script: &[u8], log: &mut [u8]) -> PortWords
    ensures { Tells (told no_value) reset_keyboard script.now log.old result log.new }
{
    answer_words(reset_keyboard(script, log))
}

/// Sends one of the keyboard's commands, by the byte that the wiki lists it with.
pub fn keyboard_command(byte: u32, script: &[u8], log: &mut [u8]) -> KeptWords
    ensures { TellsAt (refusing_kept invalid_argument) told_kept sending_command (command_at byte)
        script.now log.old result log.new }
{
    match command_of(byte) {
        Some(command) => commanded_words(command_to_keyboard(
            script,
            log,
            HostToKeyboardCommandOrData::KeyboardCommand(command),
        )),
        None => refusing_kept_words(INVALID_ARGUMENT),
    }
}

/// Sets the lamps: scroll 1, number 2, caps 4 added.
pub fn keyboard_set_lamps(lamps: u32, script: &[u8], log: &mut [u8]) -> KeptWords
    ensures { TellsAt (refusing_kept invalid_argument) told_kept setting_lamps (lamps_at lamps)
        script.now log.old result log.new }
{
    match lamps_of(lamps) {
        Some(leds) => commanded_words(set_keyboard_led(script, log, leds)),
        None => refusing_kept_words(INVALID_ARGUMENT),
    }
}

/// Sets the scancode set, 1 to 3.
pub fn keyboard_set_scancode_set(set: u32, script: &[u8], log: &mut [u8]) -> PortWords
    ensures { TellsAt (refusing invalid_argument) (told no_value) set_scancode_set
        (scancode_set_at set) script.now log.old result log.new }
{
    match set_of(set) {
        Some(value) => answer_words(set_keyboard_scancode_set(script, log, value)),
        None => refusing_words(INVALID_ARGUMENT),
    }
}

/// Asks for the scancode set; the value is the byte that the keyboard tells, 0 to 3.
pub fn keyboard_get_scancode_set(script: &[u8], log: &mut [u8]) -> PortWords
    ensures { Tells (told scancode_set_byte) get_scancode_set script.now log.old result log.new }
{
    answer_words(get_keyboard_scancode_set(script, log))
}

/// Detects the type of the keyboard.
pub fn keyboard_detect(script: &[u8], log: &mut [u8]) -> PortWords
    ensures { Tells (told type_number) keyboard_detect script.now log.old result log.new }
{
    answer_words(ps2_detect::keyboard_detect(script, log))
}

/// Sends the byte of repeat rate and delay.
pub fn keyboard_set_repeat(byte: u32, script: &[u8], log: &mut [u8]) -> PortWords
    ensures { TellsAt (refusing invalid_argument) (told no_value) set_keyboard_repeat (byte_at byte)
        script.now log.old result log.new }
{
    match u8::try_from(byte) {
        Ok(value) => answer_words(set_keyboard_repeat(script, log, value)),
        Err(_) => refusing_words(INVALID_ARGUMENT),
    }
}

/// Whether there is a byte of the keyboard to read: the value is 1 where there is.
pub fn keyboard_waits(script: &[u8]) -> PortWords
    ensures { TellsReading (told weigh) keyboard_output_buffer_full script.now result }
{
    answer_words(is_output_buffer_full(script))
}

/// Reads a scancode, which is the value, without asking the status.
pub fn keyboard_read_scancode(script: &[u8]) -> PortWords
    ensures { TellsReading (told byte_value) read_scancode script.now result }
{
    answer_words(read_scancode(script))
}
