// A queue of 128 places, for the Rust's handler.
ghost use Rattle.std.specs.Prelude.{◌≡◌};
ghost use Rattle.theseus_keyboard_uses.specs.Places.{waiting};

use theseus_keyboard::Queue;
use theseus_keycodes::{KeyAction, KeyEvent, KeyboardModifiers, Keycode};

// The places of the Rust's queue.
const PLACES: usize = 128;

/// The events wait in the first of its places, the oldest first.
#[derive(Drop)]
pub struct Places {
    pub events: [KeyEvent; PLACES],
    pub count: usize,
}

impl Places {
    /// An empty queue.
    pub fn new() -> Self
        ensures { result.count ≡ 0 }
    {
        let empty = KeyEvent::new(
            Keycode::OverflowError,
            KeyAction::Pressed,
            KeyboardModifiers { bits: 0 },
        );
        Places {
            events: [empty; PLACES],
            count: 0,
        }
    }
}

impl Queue for Places {
    ghost waiting = { waiting };

    fn push(&mut self, event: KeyEvent) -> Result<(), KeyEvent> {
        if self.count < PLACES {
            self.events[self.count] = event;
            self.count += 1;
            Ok(())
        } else {
            Err(event)
        }
    }
}
