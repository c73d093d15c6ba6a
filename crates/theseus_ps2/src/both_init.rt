// Initialisation, and the devices that it found: the Rust's and ours on one script and on two logs
// that begin alike.
ghost use Rattle.std.specs.Prelude.{◌≡◌};
ghost use Rattle.theseus_ps2.specs.Messages.{said};
ghost use Rattle.theseus_ps2.specs.Comparison.{AgreeLeft};
ghost use Rattle.theseus_ps2.specs.Initialized.{present, identity, identity_lent};
ghost use Rattle.theseus_ps2.specs.Record.{record_left};

use crate::comparison::Both;
use crate::{Hardware, PS2Controller, PS2Keyboard, PS2Mouse, Recording, init};
use ps2_init::{Initialized, PS2Controller as Ours, PS2Keyboard as Keyboard, init as our_init};
use ps2_mouse::PS2Mouse as Mouse;

/// What the Rust's `init` answers, and how it leaves its static: whether that is completed, and the
/// flags of the controller on these ports.
#[derive(Drop)]
pub struct Completed {
    pub answer: Result<(), &'static str>,
    pub is_completed: bool,
    pub keyboard_attached: bool,
    pub mouse_attached: bool,
}

/// The record is what the Rust's static is, which is completed just where the record says so.
pub fn both_init<'a>(
    script: &'a [u8],
    log: &mut [u8],
    rusts_log: &'a mut [u8],
    controller: Ours,
) -> Both<'a, Initialized, Completed>
    ensures { log.old ≡ rusts_log.old
        → AgreeLeft controller result.ours.answer result.ours.controller log.new
        (said result.rusts.answer) (record_left controller result.rusts) result.left }
{
    let mut rusts = PS2Controller {
        hardware: Recording::new(script, rusts_log),
        keyboard_attached: controller.keyboard_attached,
        mouse_attached: controller.mouse_attached,
    };
    let mut is_completed = controller.initialized;
    let answer = init(&mut is_completed, &mut rusts);
    let ours = our_init(controller, script, log);
    Both {
        ours,
        rusts: Completed {
            answer,
            is_completed,
            keyboard_attached: rusts.keyboard_attached,
            mouse_attached: rusts.mouse_attached,
        },
        left: rusts.hardware,
    }
}

/// The keyboard that each lends, where the two have the same flag.
pub fn both_keyboard_ref<'c, H: Hardware + Drop>(
    ours: Ours,
    rusts: &'c mut PS2Controller<H>,
) -> (Option<Keyboard>, Option<PS2Keyboard<'c, H>>)
    ensures { ours.keyboard_attached ≡ rusts.old.keyboard_attached → present result.0
        ≡ present result.1 }
{
    (ours.keyboard_ref(), rusts.keyboard_ref())
}

/// The mouse likewise, with its identity.
pub fn both_mouse_ref<'c, H: Hardware + Drop>(
    ours: Ours,
    rusts: &'c mut PS2Controller<H>,
) -> (Option<Mouse>, Option<PS2Mouse<'c, H>>)
    ensures { ours.mouse_attached ≡ rusts.old.mouse_attached → identity result.0
        ≡ identity_lent result.1 }
{
    (ours.mouse_ref(), rusts.mouse_ref())
}
