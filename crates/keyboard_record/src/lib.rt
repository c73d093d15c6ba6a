// The keyboard handler's record, its queue of events, and the taking from it: Theseus's `keyboard`,
// at a table with one keyboard or two.
#![tactic(auto)]

ghost use Rattle.std.specs.Prelude.{◌≡◌, leb, Err};
ghost use Rattle.exchange.specs.Answer.{number_answered};
ghost use Rattle.exchange.specs.Left.{left};
ghost use Rattle.keyboard_sides.specs.Sides.{count_of};
ghost use Rattle.keyboard_record.specs.Limits.{share};
ghost use Rattle.keyboard_record.specs.Record.{fresh, at_table, keyboard_at, with_keyboard, keyboard_formed, fair, well_formed, call_formed, is_ready};
ghost use Rattle.keyboard_record.specs.Queue.{waiting_sides, room, place, joined, said_room};
ghost use Rattle.keyboard_record.specs.Taking.{said_taken, taken};

use keyboard_modifiers::KeyboardModifiers;
use keyboard_scancodes::{KeyboardState, Profile, WaitingBytes};
use keyboard_sides::{Side, Sides};
use keycodes_ascii::{KeyAction, KeyEvent, Keycode};
use ps2_kept::KEPT_LIMIT;

/// The places of the queue.
pub const QUEUE_LENGTH: usize = 128;

/// With two keyboards, the places that the events of one side may take.
pub const SHARE: usize = 96;

/// The flags are the bits below this one.
pub const FLAG_LIMIT: u16 = 1 << 11;

/// Whether a table has one keyboard or two. One keyboard is the first side's.
#[derive(Clone, Copy, PartialEq, Eq)]
pub enum Keyboards {
    One,
    Two,
}

/// What a table is laid with: one keyboard or two, and the keys that its games allow. Whoever asks
/// for a fresh record chooses both, and no call changes them.
#[derive(Clone, Copy, PartialEq, Eq)]
pub struct Table {
    pub keyboards: Keyboards,
    pub profile: Profile,
}

/// All of the record but the places: what the handler remembers of each side's keyboard, what the
/// table is laid with, and where in the places the events wait.
/// They stand in a ring: the oldest is at `start`, and `count` of them follow each other round the
/// end. `sides` has the side of each, the oldest first.
/// In this order the waiting bytes of either keyboard begin at a multiple of 16, where a copy of
/// the state, 16 bytes at a time, takes them whole.
#[derive(Clone, Copy)]
pub struct HandlerState {
    pub first: KeyboardState,
    pub table: Table,
    pub start: usize,
    pub second: KeyboardState,
    pub count: usize,
    pub sides: Sides,
}

/// The handler record: its state, and the places of its queue.
/// The places stand last, where no padding touches them: a copy of the record is then not made in
/// two parts.
#[derive(Clone, Copy)]
pub struct KeyboardHandler {
    pub state: HandlerState,
    pub places: [KeyEvent; QUEUE_LENGTH],
}

/// An event of the queue, with the side whose keyboard gave it.
#[derive(Clone, Copy)]
pub struct SideEvent {
    pub side: Side,
    pub event: KeyEvent,
}

/// Why the queue takes no more of a side's events: its key is outside the profile (33); the side
/// has its share (31); or every place is taken (20).
#[derive(Clone, Copy, PartialEq, Eq)]
pub enum NoRoom {
    OutsideProfile,
    SideFull,
    QueueFull,
}

/// The refusal of a record that is not well formed.
#[derive(Clone, Copy, PartialEq, Eq)]
pub struct MalformedRecord;

/// What a taking from the queue answers: the oldest event, none, or the refusal.
pub type TakenEvent = Result<Option<SideEvent>, MalformedRecord>;

/// What a taking gives back.
#[derive(Clone, Copy)]
pub struct Taken {
    pub event: TakenEvent,
    pub handler: KeyboardHandler,
}

impl MalformedRecord {
    /// The number of the refusal, as an answer tells it.
    pub fn number(self) -> u8
        ensures { result ≡ number_answered (said_taken (Err self)) }
    {
        21
    }
}

impl Keyboards {
    /// Whether a side has a keyboard at the table.
    pub fn has(self, side: Side) -> bool
        ensures { result ≡ at_table self side }
    {
        matches!((self, side), (Keyboards::Two, _) | (_, Side::First))
    }
}

// Whether a keyboard has no flag above bit 10, and no more than 16 bytes that wait.
fn keyboard_formed(keyboard: KeyboardState) -> bool
    ensures { result ≡ keyboard_formed keyboard }
{
    keyboard.modifiers.bits < FLAG_LIMIT && usize::from(keyboard.waiting.count) <= KEPT_LIMIT
}

// Whether neither side has more than its share of the first `count` events. Of so few that they are
// no more than a share, the sides needn't be counted.
#[tactic(auto, unfolding(crate::specs::Record::fair))]
fn is_fair(sides: Sides, count: usize) -> bool
    ensures { result ≡ fair sides count }
{
    count <= SHARE
        || sides.count_of(Side::First, count) <= SHARE
            && sides.count_of(Side::Second, count) <= SHARE
}

impl HandlerState {
    /// Whether the queue's start and count are such as its places allow; the flags and the waiting
    /// bytes of each side at the table such as there can be; and, with two keyboards, no side has
    /// more than its share of the events.
    #[tactic(auto, unfolding(crate::specs::Record::well_formed))]
    pub fn well_formed(self) -> bool
        ensures { result ≡ well_formed self }
    {
        self.start < QUEUE_LENGTH
            && self.count <= QUEUE_LENGTH
            && keyboard_formed(self.first)
            && match self.table.keyboards {
                Keyboards::One => true,
                Keyboards::Two => {
                    keyboard_formed(self.second) && is_fair(self.sides, self.count)
                }
            }
    }

    /// The same, and that a call's side is at the table.
    #[tactic(auto, unfolding(crate::specs::Record::call_formed))]
    pub fn call_formed(self, side: Side) -> bool
        ensures { result ≡ call_formed side self }
    {
        self.table.keyboards.has(side) && self.well_formed()
    }

    /// The same, and that one more event of the side finds a place even if all that wait are the
    /// side's, so that none has to be counted: which is why the tests stand here again, with
    /// smaller bounds.
    #[tactic(auto, unfolding(crate::specs::Record::is_ready, crate::specs::Record::call_formed, crate::specs::Record::well_formed))]
    pub fn is_ready(self, side: Side) -> bool
        ensures { result ≡ is_ready side self }
    {
        self.table.keyboards.has(side)
            && self.start < QUEUE_LENGTH
            && keyboard_formed(self.first)
            && match self.table.keyboards {
                Keyboards::One => self.count < QUEUE_LENGTH,
                Keyboards::Two => keyboard_formed(self.second) && self.count < SHARE,
            }
    }

    /// What is remembered of a side's keyboard.
    pub fn keyboard_at(self, side: Side) -> KeyboardState
        ensures { result ≡ keyboard_at side self }
    {
        match side {
            Side::First => self.first,
            Side::Second => self.second,
        }
    }

    /// Stores another memory of a side's keyboard.
    pub fn put_keyboard(&mut self, side: Side, keyboard: KeyboardState)
        ensures { self.new ≡ with_keyboard side keyboard self.old }
    {
        match side {
            Side::First => self.first = keyboard,
            Side::Second => self.second = keyboard,
        }
    }

    // Whether a side has all the places that its events may take.
    fn has_share(self, side: Side) -> bool
        ensures { result ≡ leb share (count_of side (waiting_sides self)) }
    {
        SHARE <= self.count && SHARE <= self.sides.count_of(side, self.count)
    }

    /// Whether the queue takes one more event of a side, whatever its key: 31 is asked, then 20.
    #[tactic(auto, using(keyboard_sides::proofs::Row::sides_length), unfolding(crate::specs::Queue::meets))]
    pub fn room_of(self, side: Side) -> Result<(), NoRoom>
        ensures { said_room result ≡ room side self }
    {
        if self.table.keyboards == Keyboards::Two && self.has_share(side) {
            return Err(NoRoom::SideFull);
        }
        if QUEUE_LENGTH <= self.count {
            return Err(NoRoom::QueueFull);
        }
        Ok(())
    }

    // The same, by its key: 33 is asked first.
    #[tactic(auto, unfolding(crate::specs::Queue::admits))]
    fn room_for(self, side: Side, keycode: Keycode) -> Result<(), NoRoom>
        ensures { said_room result ≡ place side keycode self }
    {
        if !self.table.profile.allows(keycode) {
            return Err(NoRoom::OutsideProfile);
        }
        self.room_of(side)
    }

    /// One more event of a side, of this key, waits where the queue takes it; where it doesn't, the
    /// state stays.
    #[tactic(auto, using(crate::proofs::Meeting::place_says))]
    pub fn join(&mut self, side: Side, keycode: Keycode) -> Result<(), NoRoom>
        ensures room { said_room result ≡ place side keycode self.old }
        ensures state { self.new ≡ joined side keycode self.old }
    {
        self.room_for(side, keycode)?;
        self.sides = self.sides.with_side(side, self.count);
        self.count += 1;
        Ok(())
    }
}

impl KeyboardHandler {
    /// A fresh record for a table: no prefix, no flag, no byte that waits, an empty queue.
    pub fn fresh(table: Table) -> KeyboardHandler
        ensures { result ≡ fresh table }
    {
        let empty = KeyEvent {
            keycode: Keycode::OverflowError,
            action: KeyAction::Pressed,
            modifiers: KeyboardModifiers { bits: 0 },
        };
        let keyboard = KeyboardState {
            prefix: false,
            modifiers: KeyboardModifiers { bits: 0 },
            waiting: WaitingBytes {
                bytes: [0; KEPT_LIMIT],
                count: 0,
            },
        };
        KeyboardHandler {
            state: HandlerState {
                first: keyboard,
                second: keyboard,
                table,
                start: 0,
                count: 0,
                sides: Sides { low: 0, high: 0 },
            },
            places: [empty; QUEUE_LENGTH],
        }
    }

    /// Takes the oldest event from the queue; its place is free for a later one.
    #[tactic(auto, using(crate::proofs::WellFormed::well_is), unfolding(crate::specs::Taking::taken))]
    pub fn take(&mut self) -> TakenEvent
        ensures { left (said_taken result) self.new ≡ taken self.old }
    {
        if !self.state.well_formed() {
            return Err(MalformedRecord);
        }
        if self.state.count == 0 {
            return Ok(None);
        }
        let taken = SideEvent {
            side: self.state.sides.oldest(),
            event: self.places[self.state.start],
        };
        self.state.start = (self.state.start + 1) % QUEUE_LENGTH;
        self.state.count -= 1;
        self.state.sides = self.state.sides.without_oldest();
        Ok(Some(taken))
    }
}

/// The same, by value.
pub fn take_event(mut handler: KeyboardHandler) -> Taken
    ensures { left (said_taken result.event) result.handler ≡ taken handler }
{
    let event = handler.take();
    Taken { event, handler }
}
