// The keyboard's operations, and its initialisation with a fresh record.
ghost use Rattle.bits.specs.Bits.{weigh};
ghost use Rattle.ps2_bytes.specs.Data.{scancode_set_byte};
ghost use Rattle.ps2_keyboard.specs.Keyboard.{reset_keyboard, set_scancode_set, get_scancode_set, read_scancode, keyboard_output_buffer_full};
ghost use Rattle.ps2_detect.specs.Detection.{keyboard_detect};
ghost use Rattle.preferences_application.specs.Application.{set_keyboard_repeat};
ghost use Rattle.argument_words.specs.Arguments.{invalid_argument};
ghost use Rattle.port_words.specs.Told.{refusing, no_value, byte_value, type_number, told};
ghost use Rattle.port_words.specs.ToldKept.{refusing_kept, told_kept};
ghost use Rattle.port_words.specs.Tells.{Tells, TellsReading, TellsAt};
ghost use Rattle.keyboard_words.specs.Arguments.{command_at, lamps_at, scancode_set_at, byte_at};
ghost use Rattle.keyboard_words.specs.Operations.{sending_command, setting_lamps, KeyboardInitialized};

use keyboard_words::{
    keyboard_command, keyboard_detect, keyboard_get_scancode_set, keyboard_init,
    keyboard_read_scancode, keyboard_reset, keyboard_set_lamps, keyboard_set_repeat,
    keyboard_set_scancode_set, keyboard_waits,
};
use port_words::{KeptWords, PortWords};

/// Initialises the first keyboard. The lent record becomes a fresh one, whatever the keyboard
/// answers, for a table with 1 keyboard or 2, under profile 0 (none) or 1 (the tournament's): 21
/// where it has not 144 numbers.
#[unsafe(no_mangle)]
pub extern "C" fn vd_keyboard_init(
    words: &mut [u64],
    keyboards: u32,
    profile: u32,
    script: &[u8],
    log: &mut [u8],
) -> PortWords
    ensures { KeyboardInitialized words.old keyboards profile script.now log.old result words.new
        log.new }
{
    keyboard_init(words, keyboards, profile, script, log)
}

/// Resets the keyboard.
#[unsafe(no_mangle)]
pub extern "C" fn vd_keyboard_reset(script: &[u8], log: &mut [u8]) -> PortWords
    ensures { Tells (told no_value) reset_keyboard script.now log.old result log.new }
{
    keyboard_reset(script, log)
}

/// Sends one of the keyboard's commands, by the byte that the wiki lists it with.
#[unsafe(no_mangle)]
pub extern "C" fn vd_keyboard_command(byte: u32, script: &[u8], log: &mut [u8]) -> KeptWords
    ensures { TellsAt (refusing_kept invalid_argument) told_kept sending_command (command_at byte)
        script.now log.old result log.new }
{
    keyboard_command(byte, script, log)
}

/// Sets the lamps: scroll 1, number 2, caps 4 added.
#[unsafe(no_mangle)]
pub extern "C" fn vd_keyboard_set_lamps(lamps: u32, script: &[u8], log: &mut [u8]) -> KeptWords
    ensures { TellsAt (refusing_kept invalid_argument) told_kept setting_lamps (lamps_at lamps)
        script.now log.old result log.new }
{
    keyboard_set_lamps(lamps, script, log)
}

/// Sets the scancode set, 1 to 3.
#[unsafe(no_mangle)]
pub extern "C" fn vd_keyboard_set_scancode_set(set: u32, script: &[u8], log: &mut [u8]) -> PortWords
    ensures { TellsAt (refusing invalid_argument) (told no_value) set_scancode_set
        (scancode_set_at set) script.now log.old result log.new }
{
    keyboard_set_scancode_set(set, script, log)
}

/// Asks for the scancode set; the value is the byte that the keyboard tells, 0 to 3.
#[unsafe(no_mangle)]
pub extern "C" fn vd_keyboard_get_scancode_set(script: &[u8], log: &mut [u8]) -> PortWords
    ensures { Tells (told scancode_set_byte) get_scancode_set script.now log.old result log.new }
{
    keyboard_get_scancode_set(script, log)
}

/// Detects the type of the keyboard.
#[unsafe(no_mangle)]
pub extern "C" fn vd_keyboard_detect(script: &[u8], log: &mut [u8]) -> PortWords
    ensures { Tells (told type_number) keyboard_detect script.now log.old result log.new }
{
    keyboard_detect(script, log)
}

/// Sends the byte of repeat rate and delay.
#[unsafe(no_mangle)]
pub extern "C" fn vd_keyboard_set_repeat(byte: u32, script: &[u8], log: &mut [u8]) -> PortWords
    ensures { TellsAt (refusing invalid_argument) (told no_value) set_keyboard_repeat (byte_at byte)
        script.now log.old result log.new }
{
    keyboard_set_repeat(byte, script, log)
}

/// Whether there is a byte of the keyboard to read: the value is 1 where there is.
#[unsafe(no_mangle)]
pub extern "C" fn vd_keyboard_waits(script: &[u8]) -> PortWords
    ensures { TellsReading (told weigh) keyboard_output_buffer_full script.now result }
{
    keyboard_waits(script)
}

/// Reads a scancode, which is the value, without asking the status.
#[unsafe(no_mangle)]
pub extern "C" fn vd_keyboard_read_scancode(script: &[u8]) -> PortWords
    ensures { TellsReading (told byte_value) read_scancode script.now result }
{
    keyboard_read_scancode(script)
}
