// The Rust's handler and keyboard initialisation, and ours, on one script and on two logs that begin alike.
ghost use Rattle.std.specs.Prelude.{◌≡◌};
ghost use Rattle.keyboard.specs.Outcomes.{said_handled};
ghost use Rattle.keyboard_sides.specs.declared.Side.{Side};
ghost use Rattle.keyboard_init.specs.KeyboardInit.{keyboard_init};
ghost use Rattle.theseus_keycodes.specs.Flags.{renumbered};
ghost use Rattle.theseus_ps2.specs.Comparison.{Agree};
ghost use Rattle.theseus_ps2.specs.Controller.{on_controller};
ghost use Rattle.theseus_ps2.specs.Hardware.{ran, run};
ghost use Rattle.theseus_ps2.specs.Messages.{said};
ghost use Rattle.theseus_keyboard.specs.Both.{Base, Alike, AgreeCall, answer_to, first_of, FreshAlike};
ghost use Rattle.theseus_keyboard.specs.Alone.{waiting_at, profile_of, BaseAlone, BothRoom, AlikeQueue, LampsAlike, AgreeFollowed, AgreeQueued, AgreePorts, AgreeSent};
ghost use Rattle.theseus_keyboard.specs.Handler.{Interrupted, our_events};

use crate::{Queue, init, ps2_keyboard_handler};
use keyboard::{Handled, handle};
use keyboard_init::{KeyboardInitialized, keyboard_init};
use keyboard_record::{KeyboardHandler, Table};
use keyboard_sides::Side;
use theseus_keycodes::KeyboardModifiers;
use theseus_ps2::{Both, Hardware, PS2Controller, PS2Keyboard, Recording, start};

/// What a call of ours gave back, and how the Rust's hardware was left.
#[derive(Drop)]
pub struct BothCalls<'a> {
    pub ours: Handled,
    pub left: Recording<'a>,
}

// The Rust's handler, at a keyboard of this controller.
fn rusts_handle<H: Hardware + Drop, Q: Queue>(
    controller: &mut PS2Controller<H>,
    queue: &mut Q,
    kbd_modifiers: &mut KeyboardModifiers,
    extended_scancode: &mut bool,
)
    ensures { Interrupted (on_controller H.device) controller.old extended_scancode.old
        (renumbered kbd_modifiers.old.bits) (our_events (Q.waiting queue.old)) controller.new
        extended_scancode.new (renumbered kbd_modifiers.new.bits)
        (our_events (Q.waiting queue.new)) }
{
    let mut keyboard = PS2Keyboard::new(controller);
    ps2_keyboard_handler(&mut keyboard, queue, kbd_modifiers, extended_scancode);
}

/// A handler call: where the record says what the Rust has, it says so afterwards, and bytes used,
/// writes and answers are equal.
pub fn both_handle<'a, Q: Queue>(
    handler: KeyboardHandler,
    script: &'a [u8],
    log: &mut [u8],
    rusts_log: &'a mut [u8],
    queue: &mut Q,
    kbd_modifiers: &mut KeyboardModifiers,
    extended_scancode: &mut bool,
) -> BothCalls<'a>
    ensures { log.old ≡ rusts_log.old → Base handler
        → Alike handler extended_scancode.old (renumbered kbd_modifiers.old.bits)
        (our_events (Q.waiting queue.old))
        → AgreeCall (said_handled result.ours) log.new
        (answer_to (first_of script.now) (our_events (Q.waiting queue.old))) extended_scancode.new
        (renumbered kbd_modifiers.new.bits) (our_events (Q.waiting queue.new)) result.left }
{
    let mut controller = start(script, rusts_log);
    rusts_handle(&mut controller, queue, kbd_modifiers, extended_scancode);
    let ours = handle(handler, Side::First, script, log);
    BothCalls {
        ours,
        left: controller.hardware,
    }
}

/// A handler call for either side of any table, under either profile, whatever waits: beside it the
/// Rust's handler for that side's keyboard alone, which reads the oldest waiting byte first.
pub fn both_handle_alone<'a, Q: Queue>(
    handler: KeyboardHandler,
    side: Side,
    script: &[u8],
    log: &mut [u8],
    rusts_script: &'a [u8],
    rusts_log: &'a mut [u8],
    queue: &mut Q,
    kbd_modifiers: &mut KeyboardModifiers,
    extended_scancode: &mut bool,
) -> BothCalls<'a>
    ensures followed { BaseAlone side handler script.now rusts_script.now extended_scancode.old
        (renumbered kbd_modifiers.old.bits)
        → AgreeFollowed side (said_handled result.ours) extended_scancode.new
        (renumbered kbd_modifiers.new.bits) }
    ensures queued { BaseAlone side handler script.now rusts_script.now extended_scancode.old
        (renumbered kbd_modifiers.old.bits)
        → BothRoom side handler (our_events (Q.waiting queue.old))
        → AlikeQueue side handler (our_events (Q.waiting queue.old))
        → AgreeQueued side (profile_of handler) (first_of rusts_script.now)
        (our_events (Q.waiting queue.old)) (said_handled result.ours)
        (our_events (Q.waiting queue.new)) }
    ensures sent { BaseAlone side handler script.now rusts_script.now extended_scancode.old
        (renumbered kbd_modifiers.old.bits)
        → LampsAlike (profile_of handler) (first_of rusts_script.now)
        → AgreeSent (waiting_at side handler) (said_handled result.ours) log.new result.left }
    ensures ports { BaseAlone side handler script.now rusts_script.now extended_scancode.old
        (renumbered kbd_modifiers.old.bits)
        → LampsAlike (profile_of handler) (first_of rusts_script.now) → side ≡ Side.First
        → log.old ≡ rusts_log.old
        → AgreePorts (waiting_at side handler) (said_handled result.ours) log.new result.left }
{
    let mut controller = start(rusts_script, rusts_log);
    rusts_handle(&mut controller, queue, kbd_modifiers, extended_scancode);
    let ours = handle(handler, side, script, log);
    BothCalls {
        ours,
        left: controller.hardware,
    }
}

// The Rust's initialisation, at a keyboard of this controller.
fn rusts_init<H: Hardware + Drop>(controller: &mut PS2Controller<H>) -> Result<(), &'static str>
    ensures { ran (said result) controller.new
        ≡ run (on_controller H.device) keyboard_init controller.old }
{
    let mut keyboard = PS2Keyboard::new(controller);
    init(&mut keyboard)
}

/// Keyboard initialisation. A fresh record, as ours gives, says what the Rust's statics begin with.
pub fn both_keyboard_init<'a>(
    table: Table,
    script: &'a [u8],
    log: &mut [u8],
    rusts_log: &'a mut [u8],
) -> Both<'a, KeyboardInitialized, Result<(), &'static str>>
    ensures agree { log.old ≡ rusts_log.old
        → Agree result.ours.answer log.new (said result.rusts) result.left }
    ensures fresh { FreshAlike result.ours.handler }
{
    let mut controller = start(script, rusts_log);
    let rusts = rusts_init(&mut controller);
    let ours = keyboard_init(table, script, log);
    Both {
        ours,
        rusts,
        left: controller.hardware,
    }
}
