// The handler's interrupt with a queue of 128 places.
ghost use Rattle.std.specs.Prelude.{◌≡◌, take, ◌≤◌, length};
ghost use Rattle.keycodes_ascii.specs.Keycode.{number_of};
ghost use Rattle.theseus_keycodes.specs.declared.KeyEvent;
ghost use Rattle.theseus_keycodes.specs.Flags.{renumbered};
ghost use Rattle.theseus_keycodes.specs.Keycode.{ours};
ghost use Rattle.theseus_keyboard.specs.Handler.{Interrupted, our_events};
ghost use Rattle.theseus_ps2.specs.Controller.{on_controller};
ghost use Rattle.theseus_calls.specs.Interrupts.{waiting_in, empty_place, action_number, event_numbers, last_numbers, filled, interrupt_numbers, InterruptMade};

use crate::answers::{NotedWords, Run, begun, recorded_words, run_of};
use theseus_keyboard::{Queue, ps2_keyboard_handler};
use theseus_keycodes::{KeyAction, KeyEvent, KeyboardModifiers, Keycode};
use theseus_ps2::{Hardware, PS2Controller, PS2Keyboard, Recording};

/// The queue: in the first `count` places wait events, the oldest first.
#[derive(Drop)]
pub struct Places {
    pub events: [KeyEvent; 128],
    pub count: usize,
}

impl Queue for Places {
    ghost waiting = { waiting_in };

    fn push(&mut self, event: KeyEvent) -> Result<(), KeyEvent> {
        if self.count < 128 {
            self.events[self.count] = event;
            self.count += 1;
            Ok(())
        } else {
            Err(event)
        }
    }
}

/// An event: its keycode, whether it is a release, and its flags by the Rust's numbers.
#[repr(C)]
#[derive(Clone, Copy)]
pub struct EventWords {
    pub keycode: u32,
    pub released: u32,
    pub flags: u32,
}

/// What an interrupt leaves. The Rust's handler answers nothing: `run` is refused where script or log fell short. The prefix;
/// the flags by the Rust's numbers; how many events wait, and the event that it pushed, if any.
#[repr(C)]
#[derive(Clone, Copy)]
pub struct InterruptWords {
    pub run: NotedWords,
    pub prefix: u32,
    pub flags: u32,
    pub count: usize,
    pub event: EventWords,
}

fn key_number(keycode: Keycode) -> u32
    ensures { result ≡ number_of (ours keycode) }
{
    u32::from(keycode as u8)
}

fn action_number(action: KeyAction) -> u32
    ensures { result ≡ action_number action }
{
    match action {
        KeyAction::Pressed => 0,
        KeyAction::Released => 1,
    }
}

fn event_words(event: KeyEvent) -> EventWords
    ensures { result ≡ event_numbers event }
{
    EventWords {
        keycode: key_number(event.keycode),
        released: action_number(event.action),
        flags: u32::from(event.modifiers.bits),
    }
}

// The event that was pushed behind so many.
fn last_words(queue: &Places, waited: usize) -> EventWords
    ensures { result ≡ last_numbers queue.now waited }
{
    if waited < queue.count && waited < 128 {
        event_words(queue.events[waited])
    } else {
        EventWords {
            keycode: 0,
            released: 0,
            flags: 0,
        }
    }
}

// An event that stands in a place where none is asked for.
fn empty_place() -> KeyEvent
    ensures { result ≡ empty_place }
{
    KeyEvent {
        keycode: Keycode::OverflowError,
        action: KeyAction::Pressed,
        modifiers: KeyboardModifiers { bits: 0 },
    }
}

// A queue with so many places filled.
fn filled(waiting: usize) -> Places
    ensures { result ≡ filled waiting }
{
    Places {
        events: [empty_place(); 128],
        count: waiting,
    }
}

// What an interrupt left.
fn interrupt_words(
    left: &Recording<'_>,
    prefix: bool,
    modifiers: KeyboardModifiers,
    queue: &Places,
    waited: usize,
) -> InterruptWords
    ensures { result ≡ interrupt_numbers left.now prefix modifiers.bits queue.now waited }
{
    InterruptWords {
        run: recorded_words(Ok(()), left),
        prefix: u32::from(prefix),
        flags: u32::from(modifiers.bits),
        count: queue.count,
        event: last_words(queue, waited),
    }
}

// The Rust's handler, at a keyboard of this controller.
fn interrupted<H: Hardware + Drop, Q: Queue>(
    controller: &mut PS2Controller<H>,
    queue: &mut Q,
    modifiers: &mut KeyboardModifiers,
    extended: &mut bool,
)
    ensures { Interrupted (on_controller H.device) controller.old extended.old
        (renumbered modifiers.old.bits) (our_events (Q.waiting queue.old)) controller.new
        extended.new (renumbered modifiers.new.bits) (our_events (Q.waiting queue.new)) }
{
    let mut keyboard = PS2Keyboard::new(controller);
    ps2_keyboard_handler(&mut keyboard, queue, modifiers, extended);
}

// An interrupt, with the log.
fn interrupt<'a>(
    prefix: bool,
    flags: u16,
    waiting: usize,
    script: &'a [u8],
    log: &'a mut [u8],
) -> Run<'a, InterruptWords>
    ensures told { InterruptMade prefix flags waiting script.now log.old result.words
        result.log.now }
    ensures same_log { result.log.ghost_name ≡ log.entry.ghost_name }
{
    let mut controller = begun(script, log);
    let mut queue = filled(waiting);
    let mut modifiers = KeyboardModifiers { bits: flags };
    let mut extended = prefix;
    interrupted(&mut controller, &mut queue, &mut modifiers, &mut extended);
    let words = interrupt_words(&controller.hardware, extended, modifiers, &queue, waiting);
    run_of(words, controller.hardware)
}

/// An interrupt, of a handler that has this prefix, these flags by the Rust's numbers, and so many events in its queue.
#[unsafe(no_mangle)]
pub extern "C" fn vdr_interrupt(
    prefix: bool,
    flags: u16,
    waiting: usize,
    script: &[u8],
    log: &mut [u8],
) -> InterruptWords
    ensures { InterruptMade prefix flags waiting script.now log.old result log.new }
{
    interrupt(prefix, flags, waiting, script, log).words
}
