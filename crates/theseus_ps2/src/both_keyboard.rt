// The keyboard's operations: the Rust's and ours on one script and on two logs that begin alike.
ghost use Rattle.std.specs.Prelude.{◌≡◌};
ghost use Rattle.exchange.specs.Answer.{gives};
ghost use Rattle.ps2_command.specs.Command.{command as command_rule};
ghost use Rattle.ps2_bytes.specs.declared.writable.HostToDevice.TheVariants.{Keyboard};
ghost use Rattle.ps2_detect.specs.Detection.{keyboard_detect};
ghost use Rattle.ps2_keyboard.specs.Keyboard.{get_scancode_set, keyboard_output_buffer_full, read_scancode, reset_keyboard, set_keyboard_led, set_scancode_set};
ghost use Rattle.theseus_ps2.specs.Hardware.{ran, run};
ghost use Rattle.theseus_ps2.specs.Controller.{on_controller};
ghost use Rattle.theseus_ps2.specs.Messages.{said};
ghost use Rattle.theseus_ps2.specs.Comparison.{Agree, AgreeKept};

use crate::comparison::{Both, start};
use crate::{Hardware, PS2Controller, PS2Keyboard};
use ps2_answers::Answer;
use ps2_bytes::{HostToKeyboardCommandOrData, KeyboardType, ScancodeSet};
use ps2_command::Commanded;
use ps2_detect::keyboard_detect;
use ps2_keyboard::{
    command_to_keyboard, get_keyboard_scancode_set, is_output_buffer_full, read_scancode,
    reset_keyboard, set_keyboard_led, set_keyboard_scancode_set,
};
use ps2_layouts::LEDState;

/// The Rust's `reset_keyboard`, over any hardware.
pub fn rusts_reset_keyboard<H: Hardware + Drop>(
    controller: &mut PS2Controller<H>,
) -> Result<(), &'static str>
    ensures { ran (said result) controller.new
        ≡ run (on_controller H.device) reset_keyboard controller.old }
{
    PS2Keyboard::new(controller).reset()
}

/// The Rust's `reset_keyboard` on the script and its log, and ours on the same: they agree.
pub fn both_reset_keyboard<'a>(
    script: &'a [u8],
    log: &mut [u8],
    rusts_log: &'a mut [u8],
) -> Both<'a, Answer<()>, Result<(), &'static str>>
    ensures { log.old ≡ rusts_log.old → Agree result.ours log.new (said result.rusts) result.left }
{
    let mut controller = start(script, rusts_log);
    let rusts = rusts_reset_keyboard(&mut controller);
    let ours = reset_keyboard(script, log);
    Both {
        ours,
        rusts,
        left: controller.hardware,
    }
}

/// The Rust's `command_to_keyboard`, over any hardware.
pub fn rusts_command_to_keyboard<H: Hardware + Drop>(
    controller: &mut PS2Controller<H>,
    value: HostToKeyboardCommandOrData,
) -> Result<(), &'static str>
    ensures { ran (said result) controller.new
        ≡ run (on_controller H.device) (command_rule (Keyboard value)) controller.old }
{
    PS2Keyboard::new(controller).command_to_keyboard(value)
}

/// The Rust's `command_to_keyboard` on the script and its log, and ours on the same: they agree.
pub fn both_command_to_keyboard<'a>(
    script: &'a [u8],
    log: &mut [u8],
    rusts_log: &'a mut [u8],
    value: HostToKeyboardCommandOrData,
) -> Both<'a, Commanded, Result<(), &'static str>>
    ensures { log.old ≡ rusts_log.old
        → AgreeKept result.ours.answer result.ours.kept log.new (said result.rusts) result.left }
{
    let mut controller = start(script, rusts_log);
    let rusts = rusts_command_to_keyboard(&mut controller, value);
    let ours = command_to_keyboard(script, log, value);
    Both {
        ours,
        rusts,
        left: controller.hardware,
    }
}

/// The Rust's `set_keyboard_led`, over any hardware.
pub fn rusts_set_keyboard_led<H: Hardware + Drop>(
    controller: &mut PS2Controller<H>,
    value: LEDState,
) -> Result<(), &'static str>
    ensures { ran (said result) controller.new
        ≡ run (on_controller H.device) (set_keyboard_led value) controller.old }
{
    PS2Keyboard::new(controller).set_keyboard_led(value)
}

/// The Rust's `set_keyboard_led` on the script and its log, and ours on the same: they agree.
pub fn both_set_keyboard_led<'a>(
    script: &'a [u8],
    log: &mut [u8],
    rusts_log: &'a mut [u8],
    value: LEDState,
) -> Both<'a, Commanded, Result<(), &'static str>>
    ensures { log.old ≡ rusts_log.old
        → AgreeKept result.ours.answer result.ours.kept log.new (said result.rusts) result.left }
{
    let mut controller = start(script, rusts_log);
    let rusts = rusts_set_keyboard_led(&mut controller, value);
    let ours = set_keyboard_led(script, log, value);
    Both {
        ours,
        rusts,
        left: controller.hardware,
    }
}

/// The Rust's `set_keyboard_scancode_set`, over any hardware.
pub fn rusts_set_keyboard_scancode_set<H: Hardware + Drop>(
    controller: &mut PS2Controller<H>,
    value: ScancodeSet,
) -> Result<(), &'static str>
    ensures { ran (said result) controller.new
        ≡ run (on_controller H.device) (set_scancode_set value) controller.old }
{
    PS2Keyboard::new(controller).set_keyboard_scancode_set(value)
}

/// The Rust's `set_keyboard_scancode_set` on the script and its log, and ours on the same: they
/// agree.
pub fn both_set_keyboard_scancode_set<'a>(
    script: &'a [u8],
    log: &mut [u8],
    rusts_log: &'a mut [u8],
    value: ScancodeSet,
) -> Both<'a, Answer<()>, Result<(), &'static str>>
    ensures { log.old ≡ rusts_log.old → Agree result.ours log.new (said result.rusts) result.left }
{
    let mut controller = start(script, rusts_log);
    let rusts = rusts_set_keyboard_scancode_set(&mut controller, value);
    let ours = set_keyboard_scancode_set(script, log, value);
    Both {
        ours,
        rusts,
        left: controller.hardware,
    }
}

/// The Rust's `get_keyboard_scancode_set`, over any hardware.
pub fn rusts_get_keyboard_scancode_set<H: Hardware + Drop>(
    controller: &mut PS2Controller<H>,
) -> Result<ScancodeSet, &'static str>
    ensures { ran (said result) controller.new
        ≡ run (on_controller H.device) get_scancode_set controller.old }
{
    PS2Keyboard::new(controller).get_keyboard_scancode_set()
}

/// The Rust's `get_keyboard_scancode_set` on the script and its log, and ours on the same: they
/// agree.
pub fn both_get_keyboard_scancode_set<'a>(
    script: &'a [u8],
    log: &mut [u8],
    rusts_log: &'a mut [u8],
) -> Both<'a, Answer<ScancodeSet>, Result<ScancodeSet, &'static str>>
    ensures { log.old ≡ rusts_log.old → Agree result.ours log.new (said result.rusts) result.left }
{
    let mut controller = start(script, rusts_log);
    let rusts = rusts_get_keyboard_scancode_set(&mut controller);
    let ours = get_keyboard_scancode_set(script, log);
    Both {
        ours,
        rusts,
        left: controller.hardware,
    }
}

/// The Rust's `keyboard_detect`, over any hardware.
pub fn rusts_keyboard_detect<H: Hardware + Drop>(
    controller: &mut PS2Controller<H>,
) -> Result<KeyboardType, &'static str>
    ensures { ran (said result) controller.new
        ≡ run (on_controller H.device) keyboard_detect controller.old }
{
    PS2Keyboard::new(controller).keyboard_detect()
}

/// The Rust's `keyboard_detect` on the script and its log, and ours on the same: they agree.
pub fn both_keyboard_detect<'a>(
    script: &'a [u8],
    log: &mut [u8],
    rusts_log: &'a mut [u8],
) -> Both<'a, Answer<KeyboardType>, Result<KeyboardType, &'static str>>
    ensures { log.old ≡ rusts_log.old → Agree result.ours log.new (said result.rusts) result.left }
{
    let mut controller = start(script, rusts_log);
    let rusts = rusts_keyboard_detect(&mut controller);
    let ours = keyboard_detect(script, log);
    Both {
        ours,
        rusts,
        left: controller.hardware,
    }
}

/// The Rust's `keyboard_output_buffer_full`, over any hardware.
pub fn rusts_keyboard_output_buffer_full<H: Hardware + Drop>(
    controller: &mut PS2Controller<H>,
) -> bool
    ensures { ran (gives result) controller.new
        ≡ run (on_controller H.device) keyboard_output_buffer_full controller.old }
{
    PS2Keyboard::new(controller).is_output_buffer_full()
}

/// The Rust's `keyboard_output_buffer_full` on the script and its log, and ours on the same: they
/// agree.
pub fn both_keyboard_output_buffer_full<'a>(
    script: &'a [u8],
    rusts_log: &'a mut [u8],
) -> Both<'a, Answer<bool>, bool>
    ensures { Agree result.ours rusts_log.old (gives result.rusts) result.left }
{
    let mut controller = start(script, rusts_log);
    let rusts = rusts_keyboard_output_buffer_full(&mut controller);
    let ours = is_output_buffer_full(script);
    Both {
        ours,
        rusts,
        left: controller.hardware,
    }
}

/// The Rust's `read_scancode`, over any hardware.
pub fn rusts_read_scancode<H: Hardware + Drop>(controller: &mut PS2Controller<H>) -> u8
    ensures { ran (gives result) controller.new
        ≡ run (on_controller H.device) read_scancode controller.old }
{
    PS2Keyboard::new(controller).read_scancode()
}

/// The Rust's `read_scancode` on the script and its log, and ours on the same: they agree.
pub fn both_read_scancode<'a>(script: &'a [u8], rusts_log: &'a mut [u8]) -> Both<'a, Answer<u8>, u8>
    ensures { Agree result.ours rusts_log.old (gives result.rusts) result.left }
{
    let mut controller = start(script, rusts_log);
    let rusts = rusts_read_scancode(&mut controller);
    let ours = read_scancode(script);
    Both {
        ours,
        rusts,
        left: controller.hardware,
    }
}
