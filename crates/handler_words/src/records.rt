// The record that 144 numbers stand for, read out of them, and a record stored as its numbers. The
// library calls neither: a handler call changes the numbers where they lie.
ghost use Rattle.std.specs.Prelude.{◌≡◌, List, ℕ, ◌++◌, map, take, drop};
ghost use Rattle.keyboard.specs.Outcomes.{said_in_place};
ghost use Rattle.keyboard_record.specs.declared.KeyboardHandler.{KeyboardHandler};
ghost use Rattle.handler_words.specs.Layout.{keyboard_from, places_from};
ghost use Rattle.handler_words.specs.Words.{byte_limit, flags_limit, event_at, word_of, keyboard_in, second_in, record_of, words_of};
ghost use Rattle.keyboard_record.specs.Taking.{said_taken};
ghost use Rattle.handler_words.specs.Calls.{numbers_of, taken_numbers};
ghost use Rattle.handler_words.specs.Records.{holds_keyboard, holds_table, table_in, holds_second, holds_record, below, Reads};

use crate::{
    COUNT_AT, HIGH_SIDES_AT, HandledWords, KEYBOARDS_AT, LOW_SIDES_AT, PLACES_FROM, PROFILE_AT,
    START_AT, TakenWords, Words, event_word, followed, keyboard_at, keyboards_of, keyboards_word,
    lamps_number, no_event, port_lacked, profile_of, profile_word, put_keyboard, side_number,
    waiting_in,
};
use keyboard::{CallAnswer, number_of};
use keyboard_modifiers::KeyboardModifiers;
use keyboard_record::{HandlerState, KeyboardHandler, QUEUE_LENGTH, Table, TakenEvent};
use keyboard_scancodes::KeyboardState;
use keyboard_sides::{Side, Sides};
use keycodes_ascii::{KeyAction, KeyEvent, Keycode};

// The flags of a number, where it fits them.
fn flags_in(word: u64) -> Option<u16>
    ensures { result ≡ below flags_limit word }
{
    u16::try_from(word).ok()
}

// The count of a number, where it fits it.
fn count_in(word: u64) -> Option<u8>
    ensures { result ≡ below byte_limit word }
{
    u8::try_from(word).ok()
}

// What is remembered of a side's keyboard, where its numbers fit the fields.
fn read_keyboard(words: &Words, side: Side) -> Option<KeyboardState>
    ensures { Reads (holds_keyboard (keyboard_from side) words.now)
        (keyboard_in words.now (keyboard_from side)) result }
{
    let at = keyboard_at(side);
    if words[at] > 1 {
        return None;
    }
    let bits = flags_in(words[at + 1])?;
    let count = count_in(words[at + 2])?;
    Some(KeyboardState {
        waiting: waiting_in(words[at + 3], words[at + 4], count),
        prefix: words[at] != 0,
        modifiers: KeyboardModifiers { bits },
    })
}

// The keycode of the event that a place's number stands for.
fn keycode_of(word: u64) -> Keycode
    ensures { result ≡ (event_at word).keycode }
{
    match Keycode::try_from((word % 256) as u8) {
        Ok(keycode) => keycode,
        Err(_) => Keycode::OverflowError,
    }
}

// What was done to its key.
fn action_of(word: u64) -> KeyAction
    ensures { result ≡ (event_at word).action }
{
    match word / 256 % 256 {
        0 => KeyAction::Pressed,
        _ => KeyAction::Released,
    }
}

// The event.
fn event_in(word: u64) -> KeyEvent
    ensures { result ≡ event_at word }
{
    KeyEvent {
        keycode: keycode_of(word),
        action: action_of(word),
        modifiers: KeyboardModifiers {
            bits: (word / 65536 % 65536) as u16,
        },
    }
}

// The events of all places.
fn events_in(words: &Words) -> [KeyEvent; QUEUE_LENGTH]
    ensures { result ≡ map event_at (drop places_from words.now) }
{
    let mut places = [event_in(0); QUEUE_LENGTH];
    for place in 0..QUEUE_LENGTH {
        places[place] = event_in(words[PLACES_FROM + place]);
    }
    places
}

// Whether those of the table fit.
fn fits_table(words: &Words) -> bool
    ensures { result ≡ holds_table words.now }
{
    let keyboards = words[KEYBOARDS_AT];
    words[PROFILE_AT] < 2 && (keyboards == 1 || keyboards == 2)
}

// What the table is laid with, where its numbers fit.
fn read_table(words: &Words) -> Option<Table>
    ensures { Reads (holds_table words.now) (table_in words.now) result }
{
    if !fits_table(words) {
        return None;
    }
    Some(Table {
        keyboards: keyboards_of(words[KEYBOARDS_AT]),
        profile: profile_of(words[PROFILE_AT]),
    })
}

// What is remembered of the second side's keyboard, where
// its numbers fit: nothing, if it isn't at the table.
fn read_second(words: &Words) -> Option<KeyboardState>
    ensures { Reads (holds_second words.now) (second_in words.now) result }
{
    match words[KEYBOARDS_AT] {
        2 => read_keyboard(words, Side::Second),
        _ => Some(followed(KeyboardModifiers { bits: 0 })),
    }
}

/// The record that a record's numbers stand for, where they fit its fields. It need not be well
/// formed: a call on it answers 21 then.
pub fn read_record(words: &Words) -> Option<KeyboardHandler>
    ensures { Reads (holds_record words.now) (record_of words.now) result }
{
    let first = read_keyboard(words, Side::First)?;
    let table = read_table(words)?;
    let second = read_second(words)?;
    Some(KeyboardHandler {
        state: HandlerState {
            first,
            table,
            start: words[START_AT] as usize,
            second,
            count: words[COUNT_AT] as usize,
            sides: Sides {
                low: words[LOW_SIDES_AT],
                high: words[HIGH_SIDES_AT],
            },
        },
        places: events_in(words),
    })
}

// Stores the events of all places.
fn put_events(words: &mut Words, places: &[KeyEvent; QUEUE_LENGTH])
    ensures { words.new ≡ take places_from words.old ++ map word_of places.now }
{
    for place in 0..QUEUE_LENGTH {
        words[PLACES_FROM + place] = event_word(places[place]);
    }
}

/// Stores a record: every number is written.
pub fn put_record(words: &mut Words, handler: &KeyboardHandler)
    ensures { words.new ≡ words_of handler.now }
{
    let state = handler.state;
    put_keyboard(words, Side::First, state.first);
    put_keyboard(words, Side::Second, state.second);
    words[KEYBOARDS_AT] = keyboards_word(state.table.keyboards);
    words[PROFILE_AT] = profile_word(state.table.profile);
    words[START_AT] = state.start as u64;
    words[COUNT_AT] = state.count as u64;
    words[LOW_SIDES_AT] = state.sides.low;
    words[HIGH_SIDES_AT] = state.sides.high;
    put_events(words, &handler.places);
}

/// What a handler call answers, as numbers.
pub fn handled_words(call: CallAnswer) -> HandledWords
    ensures { (handler : KeyboardHandler) → result ≡ numbers_of (said_in_place call handler) }
{
    HandledWords {
        refusal: u32::from(number_of(call.answer)),
        lamps: lamps_number(call.lamps_failed),
        used: call.used,
        pairs: call.pairs,
        dropped: call.dropped,
        port: port_lacked(call.answer),
    }
}

/// What a taking answers, as numbers.
pub fn taken_words(taken: TakenEvent) -> TakenWords
    ensures { result ≡ taken_numbers (said_taken taken) }
{
    match taken {
        Ok(Some(oldest)) => TakenWords {
            refusal: 0,
            side: side_number(oldest.side),
            keycode: u32::from(u8::from(oldest.event.keycode)),
            action: match oldest.event.action {
                KeyAction::Pressed => 0,
                KeyAction::Released => 1,
            },
            flags: u32::from(oldest.event.modifiers.bits),
        },
        Ok(None) => no_event(0),
        Err(malformed) => no_event(u32::from(malformed.number())),
    }
}
