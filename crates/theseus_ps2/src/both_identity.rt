// The mouse's operations that go by its identity: the Rust's and ours on one script and on two logs
// that begin alike.
ghost use Rattle.std.specs.Prelude.{◌≡◌};
ghost use Rattle.exchange.specs.Answer.{gives};
ghost use Rattle.exchange.specs.Left.{left};
ghost use Rattle.ps2_packet_reading.specs.Reading.{read_mouse_packet};
ghost use Rattle.ps2_mouse_identity.specs.Identity.{set_mouse_id};
ghost use Rattle.theseus_ps2.specs.Hardware.{ran, run};
ghost use Rattle.theseus_ps2.specs.Controller.{on_controller};
ghost use Rattle.theseus_ps2.specs.Messages.{said};
ghost use Rattle.theseus_ps2.specs.Comparison.{Agree, AgreeLeft};

use crate::comparison::{Both, start};
use crate::{Hardware, PS2Controller, PS2Mouse};
use ps2_answers::Answer;
use ps2_bytes::MouseId;
use ps2_mouse::PS2Mouse as Mouse;
use ps2_mouse_identity::{MouseLeft, set_mouse_id};
use ps2_packet::MousePacket;

/// The Rust's `read_mouse_packet`, over any hardware.
pub fn rusts_read_mouse_packet<H: Hardware + Drop>(
    controller: &mut PS2Controller<H>,
    id: MouseId,
) -> MousePacket
    ensures { ran (gives result) controller.new
        ≡ run (on_controller H.device) (read_mouse_packet id) controller.old }
{
    PS2Mouse { controller, id }.read_mouse_packet()
}

/// The Rust's `read_mouse_packet` on the script and its log, and ours on the same: they agree.
pub fn both_read_mouse_packet<'a>(
    script: &'a [u8],
    rusts_log: &'a mut [u8],
    mouse: Mouse,
) -> Both<'a, Answer<MousePacket>, MousePacket>
    ensures { Agree result.ours rusts_log.old (gives result.rusts) result.left }
{
    let mut controller = start(script, rusts_log);
    let rusts = rusts_read_mouse_packet(&mut controller, mouse.id);
    let ours = mouse.read_mouse_packet(script);
    Both {
        ours,
        rusts,
        left: controller.hardware,
    }
}

/// What the Rust's `set_mouse_id` answers, and the identity that it leaves.
#[derive(Drop)]
pub struct Identified {
    pub answer: Result<(), &'static str>,
    pub id: MouseId,
}

/// The Rust's `set_mouse_id`, over any hardware.
pub fn rusts_set_mouse_id<H: Hardware + Drop>(
    controller: &mut PS2Controller<H>,
    id: MouseId,
) -> Identified
    ensures { ran (left (said result.answer) (record { id = result.id })) controller.new
        ≡ run (on_controller H.device) (set_mouse_id (record { id = id })) controller.old }
{
    let mut mouse = PS2Mouse { controller, id };
    let answer = mouse.set_mouse_id();
    Identified {
        answer,
        id: mouse.id,
    }
}

/// The record's identity too. Ours answers 13 just where the Rust panics.
pub fn both_set_mouse_id<'a>(
    script: &'a [u8],
    log: &mut [u8],
    rusts_log: &'a mut [u8],
    mouse: Mouse,
) -> Both<'a, MouseLeft, Identified>
    ensures { log.old ≡ rusts_log.old
        → AgreeLeft mouse result.ours.answer result.ours.mouse log.new (said result.rusts.answer)
        (record { id = result.rusts.id }) result.left }
{
    let mut controller = start(script, rusts_log);
    let rusts = rusts_set_mouse_id(&mut controller, mouse.id);
    let ours = set_mouse_id(mouse, script, log);
    Both {
        ours,
        rusts,
        left: controller.hardware,
    }
}
