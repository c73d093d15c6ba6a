// The Rust's `keyboard` once more: its initialisation, its interrupt handler and the lamps, over any hardware and any queue.
#![tactic(auto)]

ghost use Rattle.std.specs.Prelude.{◌≡◌, List};
ghost use Rattle.keyboard_scancodes.specs.Strokes.{stroke};
ghost use Rattle.keyboard_scancodes.specs.FlagsAfter.{flags_after};
ghost use Rattle.keyboard_init.specs.KeyboardInit.{keyboard_init};
ghost use Rattle.theseus_keycodes.specs.declared.KeyEvent;
ghost use Rattle.theseus_keycodes.specs.Flags.{renumbered};
ghost use Rattle.theseus_ps2.specs.Hardware.{ran, run};
ghost use Rattle.theseus_ps2.specs.Controller.{on_controller};
ghost use Rattle.theseus_ps2.specs.Messages.{said};
ghost use Rattle.theseus_keyboard.specs.Handler.{Interrupted, rusts_table, said_push, room_in, pushed, lamps_of, lit, key_answer, key_queue, said_key, our_events};

use ps2_bytes::{KeyboardType, ScancodeSet};
use ps2_layouts::LEDState;
use theseus_keycodes::{KEY_RELEASED_OFFSET, KeyAction, KeyEvent, KeyboardModifiers, Keycode};
use theseus_ps2::{Hardware, PS2Keyboard};

mod comparison;

pub use comparison::{BothCalls, both_handle, both_handle_alone, both_keyboard_init};

macro_rules! debug {
    ($($t:tt)*) => { () };
}

macro_rules! error {
    ($($t:tt)*) => { () };
}

// `r.map_err(f)`, as the Rust's library has it, with the closure called where it stands.
macro_rules! map_err {
    ($r:expr, $f:expr) => {{
        let outcome = $r;
        match outcome {
            Ok(v) => Ok(v),
            Err(e) => {
                let mut f = $f;
                Err(f(e))
            }
        }
    }};
}

// A queue of events, which has room for 128.
pub trait Queue {
    ghost waiting: { Self → List KeyEvent.KeyEvent };

    fn push(&mut self, event: KeyEvent) -> Result<(), KeyEvent>
        ensures answer { said_push result ≡ room_in (waiting self.old) }
        ensures now { waiting self.new ≡ pushed (waiting self.old) event };
}

/// Initialize the PS/2 keyboard driver and register its interrupt handler.
///
/// ## Arguments
/// * `keyboard`: a wrapper around keyboard functionality, used by the keyboard interrupt handler.
/// * `keyboard_queue_producer`: the queue onto which the keyboard interrupt handler
///    will push new keyboard events when a key action occurs.
pub fn init<H: Hardware + Drop>(keyboard: &mut PS2Keyboard<'_, H>) -> Result<(), &'static str>
    ensures same { keyboard.new.controller.ghost_name ≡ keyboard.old.controller.ghost_name }
    ensures ran { ran (said result) keyboard.new.controller.now
        ≡ run (on_controller H.device) keyboard_init keyboard.old.controller.now }
{
    // Detect which kind of keyboard is connected.
    // TODO: actually do something with the keyboard type.
    match keyboard.keyboard_detect() {
        Ok(KeyboardType::AncientATKeyboard) => debug!(
            "The PS/2 keyboard type is: Ancient AT Keyboard with translator enabled in the PS/2 Controller"
        ),
        Ok(KeyboardType::MF2Keyboard) => debug!("The PS/2 keyboard type is: MF2Keyboard"),
        Ok(KeyboardType::MF2KeyboardWithPSControllerTranslator) => debug!(
            "The PS/2 keyboard type is: MF2 Keyboard with translator enabled in PS/2 Controller"
        ),
        Err(e) => {
            error!("Failed to detect the PS/2 keyboard type: {e}");
            return Err("Failed to detect the PS/2 keyboard type");
        }
    }

    // TODO: figure out what we should do, for now using set 1
    // Acer Aspire 7745G:
    // - allows setting Set 1 and also returns Set 1 on ScancodeSet::Get, but keyboard interrupts don't fire
    // - allows setting Set 2 and works
    // HP Pavilion 17(-ab)-f050ng:
    // - TODO
    // -> we can only try setting the default Set 2 and then try ScancodeSet::Get
    keyboard.set_keyboard_scancode_set(ScancodeSet::Set1)?;

    Ok(())
}

/// The interrupt handler for a PS/2-connected keyboard, registered at IRQ 0x21.
pub fn ps2_keyboard_handler<H: Hardware + Drop, Q: Queue>(
    keyboard: &mut PS2Keyboard<'_, H>,
    queue: &mut Q,
    kbd_modifiers: &mut KeyboardModifiers,
    extended_scancode: &mut bool,
)
    ensures same { keyboard.new.controller.ghost_name ≡ keyboard.old.controller.ghost_name }
    ensures handled { Interrupted (on_controller H.device) keyboard.old.controller.now
        extended_scancode.old (renumbered kbd_modifiers.old.bits) (our_events (Q.waiting queue.old))
        keyboard.new.controller.now extended_scancode.new (renumbered kbd_modifiers.new.bits)
        (our_events (Q.waiting queue.new)) }
{
    // Some of the scancodes are "extended", which means they generate two different interrupts,
    // the first handling the E0 byte, the second handling their second byte.
    let scan_code = keyboard.read_scancode();
    let extended = *extended_scancode;

    // 0xE0 indicates an extended scancode, so we must wait for the next interrupt to get the actual scancode
    if scan_code == 0xE0 {
        if extended {
            error!(
                "ps2_keyboard_handler: got two extended scancodes (0xE0) in a row! Shouldn't happen."
            );
        }
        // mark it true for the next interrupt
        *extended_scancode = true;
    } else if scan_code == 0xE1 {
        error!("ps2_keyboard_handler: PAUSE/BREAK key pressed ... ignoring it!");
        // TODO: handle this, it's a 6-byte sequence (over the next 5 interrupts)
        *extended_scancode = true;
    } else { // a regular scancode, go ahead and handle it
        // if the previous interrupt's scan_code was an extended scan_code, then this one is not
        if extended {
            *extended_scancode = false;
        }
        // a scan code of zero is a PS2_PORT error that we can ignore,
        // a scan code of 0xFA is a command ACK response, already handled in polling (when sending a command, see ps2 crate)
        if scan_code != 0 && scan_code != 0xFA {
            if let Err(e) = handle_keyboard_input(
                keyboard,
                queue,
                kbd_modifiers,
                scan_code,
                extended,
            ) {
                error!("ps2_keyboard_handler: error handling PS2_PORT input: {e:?}");
            }
        }
    }
}

/// Called from the keyboard interrupt handler when a keystroke is recognized.
///
/// Returns Ok(()) if everything was handled properly.
/// Otherwise, returns an error string.
fn handle_keyboard_input<H: Hardware + Drop, Q: Queue>(
    keyboard: &mut PS2Keyboard<'_, H>,
    queue: &mut Q,
    kbd_modifiers: &mut KeyboardModifiers,
    scan_code: u8,
    extended: bool,
) -> Result<(), &'static str>
    ensures same { keyboard.new.controller.ghost_name ≡ keyboard.old.controller.ghost_name }
    ensures flags { renumbered kbd_modifiers.new.bits
        ≡ flags_after rusts_table (stroke scan_code extended) (renumbered kbd_modifiers.old.bits) }
    ensures lamps { keyboard.new.controller.now
        ≡ lit (on_controller H.device) scan_code (renumbered kbd_modifiers.new.bits)
        keyboard.old.controller.now }
    ensures answer { said_key result ≡ key_answer scan_code (our_events (Q.waiting queue.old)) }
    ensures queue { our_events (Q.waiting queue.new)
        ≡ key_queue scan_code (renumbered kbd_modifiers.new.bits)
        (our_events (Q.waiting queue.old)) }
{
    // SAFE: no real race conditions with keyboard presses
    let modifiers = kbd_modifiers;
    // debug!("KBD_MODIFIERS before {}: {:?}", scan_code, modifiers);

    // first, update the modifier keys
    match scan_code.try_into() {
        Ok(Keycode::Control) => {
            modifiers.insert(if extended {
                KeyboardModifiers::CONTROL_RIGHT
            } else {
                KeyboardModifiers::CONTROL_LEFT
            });
        }
        Ok(Keycode::Alt) => {
            modifiers.insert(KeyboardModifiers::ALT);
        }
        Ok(Keycode::LeftShift) => {
            modifiers.insert(KeyboardModifiers::SHIFT_LEFT);
        }
        Ok(Keycode::RightShift) => {
            modifiers.insert(KeyboardModifiers::SHIFT_RIGHT);
        }
        Ok(Keycode::SuperKeyLeft) => {
            modifiers.insert(KeyboardModifiers::SUPER_KEY_LEFT);
        }
        Ok(Keycode::SuperKeyRight) => {
            modifiers.insert(KeyboardModifiers::SUPER_KEY_RIGHT);
        }

        Ok(Keycode::ControlReleased) => {
            modifiers.remove(if extended {
                KeyboardModifiers::CONTROL_RIGHT
            } else {
                KeyboardModifiers::CONTROL_LEFT
            });
        }
        Ok(Keycode::AltReleased) => {
            modifiers.remove(KeyboardModifiers::ALT);
        }
        Ok(Keycode::LeftShiftReleased) => {
            modifiers.remove(KeyboardModifiers::SHIFT_LEFT);
        }
        Ok(Keycode::RightShiftReleased) => {
            modifiers.remove(KeyboardModifiers::SHIFT_RIGHT);
        }
        Ok(Keycode::SuperKeyLeftReleased) => {
            modifiers.remove(KeyboardModifiers::SUPER_KEY_LEFT);
        }
        Ok(Keycode::SuperKeyRightReleased) => {
            modifiers.remove(KeyboardModifiers::SUPER_KEY_RIGHT);
        }

        // The "*Lock" keys are toggled only upon being pressed, not when released.
        Ok(Keycode::CapsLock) => {
            modifiers.toggle(KeyboardModifiers::CAPS_LOCK);
            set_keyboard_led(keyboard, modifiers);
        }
        Ok(Keycode::ScrollLock) => {
            modifiers.toggle(KeyboardModifiers::SCROLL_LOCK);
            set_keyboard_led(keyboard, modifiers);
        }
        Ok(Keycode::NumLock) => {
            modifiers.toggle(KeyboardModifiers::NUM_LOCK);
            set_keyboard_led(keyboard, modifiers);
        }

        _ => {} // do nothing
    }

    // debug!("KBD_MODIFIERS after {}: {:?}", scan_code, modifiers);

    // second,  put the keycode and it's action (pressed or released) in the keyboard queue
    let (adjusted_scan_code, action) = if scan_code < KEY_RELEASED_OFFSET {
        (scan_code, KeyAction::Pressed)
    } else {
        (scan_code - KEY_RELEASED_OFFSET, KeyAction::Released)
    };

    if let Ok(keycode) = Keycode::try_from(adjusted_scan_code) {
        let event = KeyEvent::new(keycode, action, *modifiers);
        map_err!(queue.push(event), |_| "keyboard input queue is full")
    } else {
        error!(
            "handle_keyboard_input(): Unknown scancode: {scan_code:?}, adjusted scancode: {adjusted_scan_code:?}"
        );
        Err("unknown keyboard scancode")
    }
}

fn set_keyboard_led<H: Hardware + Drop>(
    keyboard: &mut PS2Keyboard<'_, H>,
    modifiers: &KeyboardModifiers,
)
    ensures same { keyboard.new.controller.ghost_name ≡ keyboard.old.controller.ghost_name }
    ensures lamps { keyboard.new.controller.now
        ≡ lamps_of (on_controller H.device) (renumbered modifiers.now.bits)
        keyboard.old.controller.now }
{
    if let Err(e) = keyboard.set_keyboard_led(
        LEDState::new()
            .with_scroll_lock(modifiers.is_scroll_lock())
            .with_number_lock(modifiers.is_num_lock())
            .with_caps_lock(modifiers.is_caps_lock()),
    ) {
        error!("{e}");
    }
}
