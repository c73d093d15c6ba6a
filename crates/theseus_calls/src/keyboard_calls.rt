// The keyboard's operations, and its initialisation.
ghost use Rattle.std.specs.Prelude.{◌≡◌};
ghost use Rattle.bits.specs.Bits.{weigh};
ghost use Rattle.ps2_bytes.specs.Data.{scancode_set_byte};
ghost use Rattle.ps2_detect.specs.Detection.{keyboard_detect};
ghost use Rattle.ps2_keyboard.specs.Keyboard.{reset_keyboard, set_keyboard_led, set_scancode_set, get_scancode_set, read_scancode, keyboard_output_buffer_full};
ghost use Rattle.keyboard_init.specs.KeyboardInit.{keyboard_init};
ghost use Rattle.port_words.specs.Told.{no_value, byte_value, type_number};
ghost use Rattle.keyboard_words.specs.Arguments.{command_at, lamps_at};
ghost use Rattle.theseus_ps2.specs.Controller.{on_controller};
ghost use Rattle.theseus_ps2.specs.Hardware.{ran, run};
ghost use Rattle.theseus_ps2.specs.Messages.{said};
ghost use Rattle.theseus_calls.specs.Arguments.{set_at};
ghost use Rattle.theseus_calls.specs.Operations.{to_keyboard, commanding, commanding_set, commanding_lamps};
ghost use Rattle.theseus_calls.specs.Recorded.{TellsNoted, TellsNotedAt};

use crate::answers::{NotedWords, Run, begun, recorded_words, refusing_noted_words, run_of};
use crate::arguments::{keyboard_command_of, set_of};
use argument_words::INVALID_ARGUMENT;
use keyboard_words::lamps_of;
use ps2_bytes::{HostToKeyboardCommandOrData, ScancodeSet};
use ps2_layouts::LEDState;
use theseus_keyboard::init;
use theseus_ps2::both_keyboard::{
    rusts_command_to_keyboard, rusts_get_keyboard_scancode_set, rusts_keyboard_detect,
    rusts_keyboard_output_buffer_full, rusts_read_scancode, rusts_reset_keyboard,
    rusts_set_keyboard_led, rusts_set_keyboard_scancode_set,
};
use theseus_ps2::{Hardware, PS2Controller, PS2Keyboard};

fn keyboard_reset<'a>(script: &'a [u8], log: &'a mut [u8]) -> Run<'a, NotedWords>
    ensures told { TellsNoted no_value reset_keyboard script.now log.old result.words
        result.log.now }
    ensures same_log { result.log.ghost_name ≡ log.entry.ghost_name }
{
    let mut controller = begun(script, log);
    let rusts = rusts_reset_keyboard(&mut controller);
    let words = recorded_words(rusts, &controller.hardware);
    run_of(words, controller.hardware)
}

/// Resets the keyboard.
#[unsafe(no_mangle)]
pub extern "C" fn vdr_keyboard_reset(script: &[u8], log: &mut [u8]) -> NotedWords
    ensures { TellsNoted no_value reset_keyboard script.now log.old result log.new }
{
    keyboard_reset(script, log).words
}

// Sends a command or a data byte.
fn command<'a>(
    value: HostToKeyboardCommandOrData,
    script: &'a [u8],
    log: &'a mut [u8],
) -> Run<'a, NotedWords>
    ensures told { TellsNoted no_value (to_keyboard value) script.now log.old result.words
        result.log.now }
    ensures same_log { result.log.ghost_name ≡ log.entry.ghost_name }
{
    let mut controller = begun(script, log);
    let rusts = rusts_command_to_keyboard(&mut controller, value);
    let words = recorded_words(rusts, &controller.hardware);
    run_of(words, controller.hardware)
}

/// Sends a command, by the byte that the wiki lists it with.
#[unsafe(no_mangle)]
pub extern "C" fn vdr_keyboard_command(byte: u32, script: &[u8], log: &mut [u8]) -> NotedWords
    ensures { TellsNotedAt no_value commanding (command_at byte) script.now log.old result log.new }
{
    match keyboard_command_of(byte) {
        Some(known) => command(
            HostToKeyboardCommandOrData::KeyboardCommand(known),
            script,
            log,
        )
        .words,
        None => refusing_noted_words(INVALID_ARGUMENT),
    }
}

/// Sends a scancode set, 0 to 3, as a command's data byte.
#[unsafe(no_mangle)]
pub extern "C" fn vdr_keyboard_data_set(set: u32, script: &[u8], log: &mut [u8]) -> NotedWords
    ensures { TellsNotedAt no_value commanding_set (set_at set) script.now log.old result log.new }
{
    match set_of(set) {
        Some(known) => command(HostToKeyboardCommandOrData::ScancodeSet(known), script, log).words,
        None => refusing_noted_words(INVALID_ARGUMENT),
    }
}

/// Sends lamps, 0 to 7, as a command's data byte.
#[unsafe(no_mangle)]
pub extern "C" fn vdr_keyboard_data_lamps(lamps: u32, script: &[u8], log: &mut [u8]) -> NotedWords
    ensures { TellsNotedAt no_value commanding_lamps (lamps_at lamps) script.now log.old result
        log.new }
{
    match lamps_of(lamps) {
        Some(leds) => command(HostToKeyboardCommandOrData::LEDState(leds), script, log).words,
        None => refusing_noted_words(INVALID_ARGUMENT),
    }
}

fn set_lamps<'a>(leds: LEDState, script: &'a [u8], log: &'a mut [u8]) -> Run<'a, NotedWords>
    ensures told { TellsNoted no_value (set_keyboard_led leds) script.now log.old result.words
        result.log.now }
    ensures same_log { result.log.ghost_name ≡ log.entry.ghost_name }
{
    let mut controller = begun(script, log);
    let rusts = rusts_set_keyboard_led(&mut controller, leds);
    let words = recorded_words(rusts, &controller.hardware);
    run_of(words, controller.hardware)
}

/// Sets the lamps: scroll 1, number 2, caps 4 added.
#[unsafe(no_mangle)]
pub extern "C" fn vdr_keyboard_lamps(lamps: u32, script: &[u8], log: &mut [u8]) -> NotedWords
    ensures { TellsNotedAt no_value set_keyboard_led (lamps_at lamps) script.now log.old result
        log.new }
{
    match lamps_of(lamps) {
        Some(leds) => set_lamps(leds, script, log).words,
        None => refusing_noted_words(INVALID_ARGUMENT),
    }
}

fn set_set<'a>(set: ScancodeSet, script: &'a [u8], log: &'a mut [u8]) -> Run<'a, NotedWords>
    ensures told { TellsNoted no_value (set_scancode_set set) script.now log.old result.words
        result.log.now }
    ensures same_log { result.log.ghost_name ≡ log.entry.ghost_name }
{
    let mut controller = begun(script, log);
    let rusts = rusts_set_keyboard_scancode_set(&mut controller, set);
    let words = recorded_words(rusts, &controller.hardware);
    run_of(words, controller.hardware)
}

/// Sets the scancode set, 0 to 3.
#[unsafe(no_mangle)]
pub extern "C" fn vdr_keyboard_set_scancode_set(
    set: u32,
    script: &[u8],
    log: &mut [u8],
) -> NotedWords
    ensures { TellsNotedAt no_value set_scancode_set (set_at set) script.now log.old result
        log.new }
{
    match set_of(set) {
        Some(known) => set_set(known, script, log).words,
        None => refusing_noted_words(INVALID_ARGUMENT),
    }
}

fn scancode_set<'a>(script: &'a [u8], log: &'a mut [u8]) -> Run<'a, NotedWords>
    ensures told { TellsNoted scancode_set_byte get_scancode_set script.now log.old result.words
        result.log.now }
    ensures same_log { result.log.ghost_name ≡ log.entry.ghost_name }
{
    let mut controller = begun(script, log);
    let rusts = rusts_get_keyboard_scancode_set(&mut controller);
    let words = recorded_words(rusts, &controller.hardware);
    run_of(words, controller.hardware)
}

/// Asks for the scancode set; the value is the byte that the keyboard tells, 0 to 3.
#[unsafe(no_mangle)]
pub extern "C" fn vdr_keyboard_scancode_set(script: &[u8], log: &mut [u8]) -> NotedWords
    ensures { TellsNoted scancode_set_byte get_scancode_set script.now log.old result log.new }
{
    scancode_set(script, log).words
}

fn detected<'a>(script: &'a [u8], log: &'a mut [u8]) -> Run<'a, NotedWords>
    ensures told { TellsNoted type_number keyboard_detect script.now log.old result.words
        result.log.now }
    ensures same_log { result.log.ghost_name ≡ log.entry.ghost_name }
{
    let mut controller = begun(script, log);
    let rusts = rusts_keyboard_detect(&mut controller);
    let words = recorded_words(rusts, &controller.hardware);
    run_of(words, controller.hardware)
}

/// Detects the keyboard's type: 1 plain, 2 behind a translator, 3 ancient.
#[unsafe(no_mangle)]
pub extern "C" fn vdr_keyboard_detect(script: &[u8], log: &mut [u8]) -> NotedWords
    ensures { TellsNoted type_number keyboard_detect script.now log.old result log.new }
{
    detected(script, log).words
}

fn keyboard_waits<'a>(script: &'a [u8], log: &'a mut [u8]) -> Run<'a, NotedWords>
    ensures told { TellsNoted weigh keyboard_output_buffer_full script.now log.old result.words
        result.log.now }
    ensures same_log { result.log.ghost_name ≡ log.entry.ghost_name }
{
    let mut controller = begun(script, log);
    let waits = rusts_keyboard_output_buffer_full(&mut controller);
    let words = recorded_words(Ok(waits), &controller.hardware);
    run_of(words, controller.hardware)
}

/// Whether there is a byte to read: 1 where there is.
#[unsafe(no_mangle)]
pub extern "C" fn vdr_keyboard_waits(script: &[u8], log: &mut [u8]) -> NotedWords
    ensures { TellsNoted weigh keyboard_output_buffer_full script.now log.old result log.new }
{
    keyboard_waits(script, log).words
}

fn read_byte<'a>(script: &'a [u8], log: &'a mut [u8]) -> Run<'a, NotedWords>
    ensures told { TellsNoted byte_value read_scancode script.now log.old result.words
        result.log.now }
    ensures same_log { result.log.ghost_name ≡ log.entry.ghost_name }
{
    let mut controller = begun(script, log);
    let byte = rusts_read_scancode(&mut controller);
    let words = recorded_words(Ok(byte), &controller.hardware);
    run_of(words, controller.hardware)
}

/// Reads a scancode; the value is its byte.
#[unsafe(no_mangle)]
pub extern "C" fn vdr_keyboard_read_scancode(script: &[u8], log: &mut [u8]) -> NotedWords
    ensures { TellsNoted byte_value read_scancode script.now log.old result log.new }
{
    read_byte(script, log).words
}

// The Rust's keyboard initialisation, at a keyboard of this controller.
fn initialized<H: Hardware + Drop>(controller: &mut PS2Controller<H>) -> Result<(), &'static str>
    ensures { ran (said result) controller.new
        ≡ run (on_controller H.device) keyboard_init controller.old }
{
    let mut keyboard = PS2Keyboard::new(controller);
    init(&mut keyboard)
}

fn initialization<'a>(script: &'a [u8], log: &'a mut [u8]) -> Run<'a, NotedWords>
    ensures told { TellsNoted no_value keyboard_init script.now log.old result.words
        result.log.now }
    ensures same_log { result.log.ghost_name ≡ log.entry.ghost_name }
{
    let mut controller = begun(script, log);
    let rusts = initialized(&mut controller);
    let words = recorded_words(rusts, &controller.hardware);
    run_of(words, controller.hardware)
}

/// Initialises the keyboard. What the Rust's statics begin with is not told here.
#[unsafe(no_mangle)]
pub extern "C" fn vdr_keyboard_init(script: &[u8], log: &mut [u8]) -> NotedWords
    ensures { TellsNoted no_value keyboard_init script.now log.old result log.new }
{
    initialization(script, log).words
}
