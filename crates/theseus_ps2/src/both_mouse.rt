// The mouse's operations: the Rust's and ours on one script and on two logs that begin alike.
ghost use Rattle.std.specs.Prelude.{◌≡◌};
ghost use Rattle.exchange.specs.Answer.{gives};
ghost use Rattle.ps2_mouse.specs.Mouse.{command_to_mouse, disable_packet_streaming, enable_packet_streaming, mouse_id, mouse_output_buffer_full, reset_mouse, set_resolution, set_sampling_rate};
ghost use Rattle.theseus_ps2.specs.Hardware.{ran, run};
ghost use Rattle.theseus_ps2.specs.Controller.{on_controller};
ghost use Rattle.theseus_ps2.specs.Messages.{said};
ghost use Rattle.theseus_ps2.specs.Comparison.{Agree, AgreeKept};

use crate::comparison::{Both, start};
use crate::{Hardware, PS2Controller, PS2Mouse};
use ps2_answers::Answer;
use ps2_bytes::{HostToMouseCommandOrData, MouseId, MouseResolution, MouseSampleRate};
use ps2_command::Commanded;
use ps2_mouse::PS2Mouse as Mouse;

/// The Rust's `reset_mouse`, over any hardware.
pub fn rusts_reset_mouse<H: Hardware + Drop>(
    controller: &mut PS2Controller<H>,
) -> Result<(), &'static str>
    ensures { ran (said result) controller.new
        ≡ run (on_controller H.device) reset_mouse controller.old }
{
    PS2Mouse::new(controller).reset()
}

/// The Rust's `reset_mouse` on the script and its log, and ours on the same: they agree.
pub fn both_reset_mouse<'a>(
    script: &'a [u8],
    log: &mut [u8],
    rusts_log: &'a mut [u8],
) -> Both<'a, Answer<()>, Result<(), &'static str>>
    ensures { log.old ≡ rusts_log.old → Agree result.ours log.new (said result.rusts) result.left }
{
    let mut controller = start(script, rusts_log);
    let rusts = rusts_reset_mouse(&mut controller);
    let ours = Mouse::reset(script, log);
    Both {
        ours,
        rusts,
        left: controller.hardware,
    }
}

/// The Rust's `command_to_mouse`, over any hardware.
pub fn rusts_command_to_mouse<H: Hardware + Drop>(
    controller: &mut PS2Controller<H>,
    value: HostToMouseCommandOrData,
) -> Result<(), &'static str>
    ensures { ran (said result) controller.new
        ≡ run (on_controller H.device) (command_to_mouse value) controller.old }
{
    PS2Mouse::new(controller).command_to_mouse(value)
}

/// The Rust's `command_to_mouse` on the script and its log, and ours on the same: they agree.
pub fn both_command_to_mouse<'a>(
    script: &'a [u8],
    log: &mut [u8],
    rusts_log: &'a mut [u8],
    value: HostToMouseCommandOrData,
) -> Both<'a, Commanded, Result<(), &'static str>>
    ensures { log.old ≡ rusts_log.old
        → AgreeKept result.ours.answer result.ours.kept log.new (said result.rusts) result.left }
{
    let mut controller = start(script, rusts_log);
    let rusts = rusts_command_to_mouse(&mut controller, value);
    let ours = Mouse::command_to_mouse(script, log, value);
    Both {
        ours,
        rusts,
        left: controller.hardware,
    }
}

/// The Rust's `set_mouse_sampling_rate`, over any hardware.
pub fn rusts_set_mouse_sampling_rate<H: Hardware + Drop>(
    controller: &mut PS2Controller<H>,
    value: MouseSampleRate,
) -> Result<(), &'static str>
    ensures { ran (said result) controller.new
        ≡ run (on_controller H.device) (set_sampling_rate value) controller.old }
{
    PS2Mouse::new(controller).set_mouse_sampling_rate(value)
}

/// The Rust's `set_mouse_sampling_rate` on the script and its log, and ours on the same: they
/// agree.
pub fn both_set_mouse_sampling_rate<'a>(
    script: &'a [u8],
    log: &mut [u8],
    rusts_log: &'a mut [u8],
    value: MouseSampleRate,
) -> Both<'a, Answer<()>, Result<(), &'static str>>
    ensures { log.old ≡ rusts_log.old → Agree result.ours log.new (said result.rusts) result.left }
{
    let mut controller = start(script, rusts_log);
    let rusts = rusts_set_mouse_sampling_rate(&mut controller, value);
    let ours = Mouse::set_mouse_sampling_rate(script, log, value);
    Both {
        ours,
        rusts,
        left: controller.hardware,
    }
}

/// The Rust's `mouse_id`, over any hardware.
pub fn rusts_mouse_id<H: Hardware + Drop>(
    controller: &mut PS2Controller<H>,
) -> Result<MouseId, &'static str>
    ensures { ran (said result) controller.new
        ≡ run (on_controller H.device) mouse_id controller.old }
{
    PS2Mouse::new(controller).mouse_id()
}

/// The Rust's `mouse_id` on the script and its log, and ours on the same: they agree.
pub fn both_mouse_id<'a>(
    script: &'a [u8],
    log: &mut [u8],
    rusts_log: &'a mut [u8],
) -> Both<'a, Answer<MouseId>, Result<MouseId, &'static str>>
    ensures { log.old ≡ rusts_log.old → Agree result.ours log.new (said result.rusts) result.left }
{
    let mut controller = start(script, rusts_log);
    let rusts = rusts_mouse_id(&mut controller);
    let ours = Mouse::mouse_id(script, log);
    Both {
        ours,
        rusts,
        left: controller.hardware,
    }
}

/// The Rust's `enable_mouse_packet_streaming`, over any hardware.
pub fn rusts_enable_mouse_packet_streaming<H: Hardware + Drop>(
    controller: &mut PS2Controller<H>,
) -> Result<(), &'static str>
    ensures { ran (said result) controller.new
        ≡ run (on_controller H.device) enable_packet_streaming controller.old }
{
    PS2Mouse::new(controller).enable_mouse_packet_streaming()
}

/// The Rust's `enable_mouse_packet_streaming` on the script and its log, and ours on the same: they
/// agree.
pub fn both_enable_mouse_packet_streaming<'a>(
    script: &'a [u8],
    log: &mut [u8],
    rusts_log: &'a mut [u8],
) -> Both<'a, Answer<()>, Result<(), &'static str>>
    ensures { log.old ≡ rusts_log.old → Agree result.ours log.new (said result.rusts) result.left }
{
    let mut controller = start(script, rusts_log);
    let rusts = rusts_enable_mouse_packet_streaming(&mut controller);
    let ours = Mouse::enable_mouse_packet_streaming(script, log);
    Both {
        ours,
        rusts,
        left: controller.hardware,
    }
}

/// The Rust's `disable_mouse_packet_streaming`, over any hardware.
pub fn rusts_disable_mouse_packet_streaming<H: Hardware + Drop>(
    controller: &mut PS2Controller<H>,
) -> Result<(), &'static str>
    ensures { ran (said result) controller.new
        ≡ run (on_controller H.device) disable_packet_streaming controller.old }
{
    PS2Mouse::new(controller).disable_mouse_packet_streaming()
}

/// The Rust's `disable_mouse_packet_streaming` on the script and its log, and ours on the same:
/// they agree.
pub fn both_disable_mouse_packet_streaming<'a>(
    script: &'a [u8],
    log: &mut [u8],
    rusts_log: &'a mut [u8],
) -> Both<'a, Answer<()>, Result<(), &'static str>>
    ensures { log.old ≡ rusts_log.old → Agree result.ours log.new (said result.rusts) result.left }
{
    let mut controller = start(script, rusts_log);
    let rusts = rusts_disable_mouse_packet_streaming(&mut controller);
    let ours = Mouse::disable_mouse_packet_streaming(script, log);
    Both {
        ours,
        rusts,
        left: controller.hardware,
    }
}

/// The Rust's `mouse_resolution`, over any hardware.
pub fn rusts_mouse_resolution<H: Hardware + Drop>(
    controller: &mut PS2Controller<H>,
    value: MouseResolution,
) -> Result<(), &'static str>
    ensures { ran (said result) controller.new
        ≡ run (on_controller H.device) (set_resolution value) controller.old }
{
    PS2Mouse::new(controller).mouse_resolution(value)
}

/// The Rust's `mouse_resolution` on the script and its log, and ours on the same: they agree.
pub fn both_mouse_resolution<'a>(
    script: &'a [u8],
    log: &mut [u8],
    rusts_log: &'a mut [u8],
    value: MouseResolution,
) -> Both<'a, Answer<()>, Result<(), &'static str>>
    ensures { log.old ≡ rusts_log.old → Agree result.ours log.new (said result.rusts) result.left }
{
    let mut controller = start(script, rusts_log);
    let rusts = rusts_mouse_resolution(&mut controller, value);
    let ours = Mouse::mouse_resolution(script, log, value);
    Both {
        ours,
        rusts,
        left: controller.hardware,
    }
}

/// The Rust's `mouse_output_buffer_full`, over any hardware.
pub fn rusts_mouse_output_buffer_full<H: Hardware + Drop>(controller: &mut PS2Controller<H>) -> bool
    ensures { ran (gives result) controller.new
        ≡ run (on_controller H.device) mouse_output_buffer_full controller.old }
{
    PS2Mouse::new(controller).is_output_buffer_full()
}

/// The Rust's `mouse_output_buffer_full` on the script and its log, and ours on the same: they
/// agree.
pub fn both_mouse_output_buffer_full<'a>(
    script: &'a [u8],
    rusts_log: &'a mut [u8],
) -> Both<'a, Answer<bool>, bool>
    ensures { Agree result.ours rusts_log.old (gives result.rusts) result.left }
{
    let mut controller = start(script, rusts_log);
    let rusts = rusts_mouse_output_buffer_full(&mut controller);
    let ours = Mouse::is_output_buffer_full(script);
    Both {
        ours,
        rusts,
        left: controller.hardware,
    }
}
