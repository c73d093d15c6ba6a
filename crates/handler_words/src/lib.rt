// The keyboard handler's record lent as numbers, and changed where it lies: a call reads the
// state's numbers and writes those that change, and of the places one at most.
#![tactic(auto)]

ghost use Rattle.std.specs.Prelude.{true, ◌≡◌, ◌++◌, set, ◌+◌, ◌*◌, ◌/◌, ◌%◌, ◌<◌, ◌≤◌};
ghost use Rattle.std.proofs.Math.Option.{some};
ghost use Rattle.keyboard_scancodes.specs.declared.Profile.{Profile};
ghost use Rattle.keyboard_scancodes.specs.Events.{is_known, event_of};
ghost use Rattle.keyboard.specs.Answers.{said_call, said_lamps};
ghost use Rattle.keyboard.specs.Byte.{key_event};
ghost use Rattle.keyboard.specs.Handler.{queued};
ghost use Rattle.keyboard.specs.Outcomes.{said_event};
ghost use Rattle.exchange.specs.Answer.{gives, number_answered};
ghost use Rattle.ps2_answers.specs.Refusals.{success};
ghost use Rattle.keycodes_ascii.specs.Keycode.{number_of};
ghost use Rattle.keyboard_record.specs.Queue.{free_place, one_more};
ghost use Rattle.keyboard_record.specs.Record.{fresh, is_ready};
ghost use Rattle.port_words.specs.Told.{port_lacked};
ghost use Rattle.handler_words.specs.Layout.{keyboard_from, count_at, places_from};
ghost use Rattle.handler_words.specs.Words.{bytes_in, action_number, event_at, word_of, keyboards_of, keyboards_number, profile_of, profile_number, keyboard_in, second_in, state_of, words_of};
ghost use Rattle.handler_words.specs.Arguments.{side_number, laid_with, table_at};
ghost use Rattle.handler_words.specs.Calls.{refusing, with_keyboard_at, with_sides, with_event, SideHandled, AtSide, WordsHandled, taken_numbers, with_queue_at, WordsTaken, WordsFresh};
ghost use Rattle.handler_words.specs.Parts.{said_table, InTwo, Narrow, Placed, reread, Says, keyboard_passes, sides_pass, FromScript, KeyAlone, followed_by, byte_used, PlainKey, KeyQueued, KeyHandled};

pub mod records;

use argument_words::INVALID_ARGUMENT;
use keyboard::{HandlerAnswer, HandlerRefusal, handle_state, leaves_as_passed, number_of};
use keyboard_modifiers::KeyboardModifiers;
use keyboard_record::{FLAG_LIMIT, HandlerState, Keyboards, NoRoom, QUEUE_LENGTH, Table};
use keyboard_scancodes::{
    KeyboardState, Profile, WaitingBytes, is_lock_press, is_plain, is_silent, modifiers_after,
};
use keyboard_sides::{Side, Sides};
use keycodes_ascii::{KeyAction, KeyEvent, Keycode};
use ps2_answers::Lack;
use ps2_kept::KEPT_LIMIT;

// C lends the record as 144 numbers; these are places among them.

// Where the numbers of either keyboard begin: the prefix, the flags, how many bytes wait, and the
// 16 waiting bytes in two numbers.
const FIRST_AT: usize = 0;

const SECOND_AT: usize = 5;

/// How many keyboards the table has, and the profile.
pub const KEYBOARDS_AT: usize = 10;

const PROFILE_AT: usize = 11;

// The queue's start and count, and the sides of the events that wait in two numbers.
const START_AT: usize = 12;

const COUNT_AT: usize = 13;

const LOW_SIDES_AT: usize = 14;

const HIGH_SIDES_AT: usize = 15;

// The places, a number each.
const PLACES_FROM: usize = 16;

// The greatest number of a key's event.
const LAST_KEYCODE: u8 = 0x5D;

/// The numbers of a record.
pub const HANDLER_WORDS: usize = PLACES_FROM + QUEUE_LENGTH;

/// A lent slice is asked for its length once, in the public functions; from there on its type says
/// it.
pub type Words = [u64; HANDLER_WORDS];

/// What a handler call answers, as numbers: the refusal and that of the lamp exchange, 0 where
/// there is none; script bytes used, pairs written and bytes dropped; and the port of the read that
/// the script was too short for, or 0.
#[repr(C)]
#[derive(Clone, Copy)]
pub struct HandledWords {
    pub refusal: u32,
    pub lamps: u32,
    pub used: usize,
    pub pairs: usize,
    pub dropped: u32,
    pub port: u32,
}

/// What a taking answers, as numbers: the refusal, 0 where there is none; the side of the event
/// taken, 0 where there is none; its keycode, action and flags.
#[repr(C)]
#[derive(Clone, Copy)]
pub struct TakenWords {
    pub refusal: u32,
    pub side: u32,
    pub keycode: u32,
    pub action: u32,
    pub flags: u32,
}

// The 16 bytes in two numbers, with how many of them wait.
fn waiting_in(low: u64, high: u64, count: u8) -> WaitingBytes
    ensures { result ≡ record { bytes = bytes_in 8 low ++ bytes_in 8 high; count = count } }
{
    WaitingBytes {
        bytes: (u128::from(low) + u128::from(high) * (1 << 64)).to_le_bytes(),
        count,
    }
}

// The two numbers of 16 bytes.
fn waiting_words(bytes: &[u8; KEPT_LIMIT]) -> (u64, u64)
    ensures { InTwo bytes.now result.0 result.1 }
{
    let number = u128::from_le_bytes(*bytes);
    ((number % (1 << 64)) as u64, (number >> 64) as u64)
}

// How many keyboards a record's number says, which is 1 or 2 where it passes.
fn keyboards_of(word: u64) -> Keyboards
    ensures { result ≡ keyboards_of word }
{
    match word {
        2 => Keyboards::Two,
        _ => Keyboards::One,
    }
}

// The profile that a record's number says, which is 0,
// none, or 1, the tournament's, where it passes.
fn profile_of(word: u64) -> Profile
    ensures { result ≡ profile_of word }
{
    match word {
        0 => Profile::Any,
        _ => Profile::Tournament,
    }
}

// Where the numbers of a side's keyboard begin.
fn keyboard_at(side: Side) -> usize
    ensures { (result ≡ keyboard_from side) × (result ≤ 5) }
{
    match side {
        Side::First => FIRST_AT,
        Side::Second => SECOND_AT,
    }
}

// Whether 21 lets the numbers of a side's keyboard pass: a prefix of 0 or 1, no flag above bit 10,
// and no more than 16 bytes that wait.
fn keyboard_passes(words: &Words, side: Side) -> bool
    ensures { result ≡ keyboard_passes (keyboard_from side) words.now }
{
    let at = keyboard_at(side);
    words[at] < 2 && words[at + 1] < u64::from(FLAG_LIMIT) && words[at + 2] <= KEPT_LIMIT as u64
}

// Whether 21 lets those of the table pass, and of every
// side at it; those of a side that isn't at it are unasked.
// It is asked of the numbers, whichever of their 64 bits are set, before they are read as a state.
fn sides_pass(words: &Words) -> bool
    ensures { result ≡ sides_pass words.now }
{
    keyboard_passes(words, Side::First)
        && words[PROFILE_AT] < 2
        && match words[KEYBOARDS_AT] {
            1 => true,
            2 => keyboard_passes(words, Side::Second),
            _ => false,
        }
}

// What is remembered of a side's keyboard.
fn keyboard_in(words: &Words, side: Side) -> KeyboardState
    requires { keyboard_passes (keyboard_from side) words.now ≡ true }
    ensures { result ≡ keyboard_in words.now (keyboard_from side) }
{
    let at = keyboard_at(side);
    KeyboardState {
        waiting: waiting_in(words[at + 3], words[at + 4], words[at + 2] as u8),
        prefix: words[at] != 0,
        modifiers: KeyboardModifiers {
            bits: words[at + 1] as u16,
        },
    }
}

// What is remembered of the second side's: nothing, where it isn't at the table.
fn second_in(words: &Words) -> KeyboardState
    requires { sides_pass words.now ≡ true }
    ensures { result ≡ second_in words.now }
{
    match keyboards_of(words[KEYBOARDS_AT]) {
        Keyboards::One => followed(KeyboardModifiers { bits: 0 }),
        Keyboards::Two => keyboard_in(words, Side::Second),
    }
}

// The state that a record's numbers stand for, where they pass.
fn state_in(words: &Words) -> HandlerState
    requires { sides_pass words.now ≡ true }
    ensures { result ≡ state_of words.now }
{
    HandlerState {
        first: keyboard_in(words, Side::First),
        table: Table {
            keyboards: keyboards_of(words[KEYBOARDS_AT]),
            profile: profile_of(words[PROFILE_AT]),
        },
        start: words[START_AT] as usize,
        second: second_in(words),
        count: words[COUNT_AT] as usize,
        sides: Sides {
            low: words[LOW_SIDES_AT],
            high: words[HIGH_SIDES_AT],
        },
    }
}

// The number of what was done to a key.
fn action_word(action: KeyAction) -> u64
    ensures { result ≡ action_number action }
{
    match action {
        KeyAction::Pressed => 0,
        KeyAction::Released => 1,
    }
}

// The number of a place that holds this event.
fn event_word(event: KeyEvent) -> u64
    ensures { (result ≡ word_of event) × (event_at result ≡ event) }
{
    u64::from(u8::from(event.keycode))
        + 256 * action_word(event.action)
        + 65536 * u64::from(event.modifiers.bits)
}

// Stores what is remembered of a side's keyboard.
fn put_keyboard(words: &mut Words, side: Side, keyboard: KeyboardState)
    ensures { (words.new ≡ with_keyboard_at (keyboard_from side) keyboard words.old)
        × Narrow keyboard }
{
    let at = keyboard_at(side);
    let (low, high) = waiting_words(&keyboard.waiting.bytes);
    words[at] = u64::from(keyboard.prefix);
    words[at + 1] = u64::from(keyboard.modifiers.bits);
    words[at + 2] = u64::from(keyboard.waiting.count);
    words[at + 3] = low;
    words[at + 4] = high;
}

// Stores how many events wait, and their sides.
fn put_row(words: &mut Words, count: usize, sides: Sides)
    ensures { words.new ≡ with_sides sides (set words.old count_at count) }
{
    words[COUNT_AT] = count as u64;
    words[LOW_SIDES_AT] = sides.low;
    words[HIGH_SIDES_AT] = sides.high;
}

// Stores the number of an event in a place, with the count and the sides that it makes.
fn put_place(words: &mut Words, place: usize, word: u64, waiting: usize, sides: Sides)
    requires { place < 128 }
    ensures { words.new ≡ with_sides sides
        (set (set words.old (places_from + place) word) count_at waiting) }
{
    words[PLACES_FROM + place] = word;
    put_row(words, waiting, sides);
}

// Stores an event in a place, with the count and the sides that it makes.
fn put_event(words: &mut Words, place: usize, left: HandlerState, event: KeyEvent)
    requires { place < 128 }
    ensures { (words.new ≡ with_event place left (some event) words.old)
        × (event_at (word_of event) ≡ event) }
{
    put_place(words, place, event_word(event), left.count, left.sides);
}

// Stores the new event, if there is one, in the first place behind those that waited.
fn put_new(
    words: &mut Words,
    start: usize,
    count: usize,
    left: HandlerState,
    event: Option<KeyEvent>,
)
    requires { Placed start count event }
    ensures { (words.new ≡ with_event ((start + count) % 128) left (said_event event) words.old)
        × (reread (said_event event) ≡ said_event event) }
{
    if let Some(new) = event {
        let place = (start + count) % QUEUE_LENGTH;
        put_event(words, place, left, new);
    }
}

// The number of a lamp exchange that failed, and 0 where none did.
fn lamps_number(lamps_failed: bool) -> u32
    ensures { result ≡ number_answered (said_lamps lamps_failed) }
{
    if lamps_failed { 14 } else { 0 }
}

// The port of the read that the script was too short for, and 0 where there was none.
fn port_lacked(answer: HandlerAnswer) -> u32
    ensures { result ≡ port_lacked (said_call answer) }
{
    match answer {
        Err(HandlerRefusal::Lacking(Lack::Script(port))) => u32::from(port.number()),
        _ => 0,
    }
}

// The number of a place that holds the event of a key's byte, by the byte itself.
fn key_word(scan_code: u8, modifiers: KeyboardModifiers) -> u64
    requires { is_known scan_code ≡ true }
    ensures { (result ≡ word_of (event_of scan_code modifiers.bits))
        × (event_at result ≡ event_of scan_code modifiers.bits) }
{
    let byte = u64::from(scan_code);
    byte % 128 + 256 * (byte / 128) + 65536 * u64::from(modifiers.bits)
}

// Queues the event of a key's byte, with these flags, in the first place behind those that wait.
#[inline(always)]
fn put_key(
    words: &mut Words,
    left: HandlerState,
    side: Side,
    scan_code: u8,
    modifiers: KeyboardModifiers,
)
    requires { (is_known scan_code ≡ true) × ((left.start < 128) × (left.count ≤ 128)) }
    ensures { (words.new ≡ with_event (free_place left) (one_more side left)
        (some (event_of scan_code modifiers.bits)) words.old)
        × (reread (some (event_of scan_code modifiers.bits))
        ≡ some (event_of scan_code modifiers.bits)) }
{
    put_place(
        words,
        (left.start + left.count) % QUEUE_LENGTH,
        key_word(scan_code, modifiers),
        left.count + 1,
        left.sides.with_side(side, left.count),
    );
}

// Queues the event of a key's byte where it has one and there is room, at a table without the
// profile, and answers 19, 31, 20 or 0.
fn queue_key(
    words: &mut Words,
    left: HandlerState,
    side: Side,
    scan_code: u8,
    modifiers: KeyboardModifiers,
) -> u32
    requires { ((left.start < 128) × (left.count ≤ 128)) × (left.table.profile ≡ Profile.Any) }
    ensures { KeyQueued (queued side left (key_event scan_code modifiers.bits) (gives success) 0)
        (free_place left) words.old result words.new }
{
    if LAST_KEYCODE < scan_code % 128 {
        return 19;
    }
    match left.room_of(side) {
        Ok(()) => {
            put_key(words, left, side, scan_code, modifiers);
            0
        }
        Err(NoRoom::OutsideProfile) => 33,
        Err(NoRoom::SideFull) => 31,
        Err(NoRoom::QueueFull) => 20,
    }
}

// Whether a call takes the script's first byte, since none waits, at a table without the profile.
fn is_from_script(words: &Words, side: Side, script: &[u8]) -> bool
    ensures { Says (FromScript side words.now script.now) result }
{
    !script.is_empty() && words[PROFILE_AT] == 0 && words[keyboard_at(side) + 2] == 0
}

// A keyboard with these flags, without prefix or waiting
// bytes: as it is just after a key's byte where none waits.
fn followed(modifiers: KeyboardModifiers) -> KeyboardState
    ensures { result ≡ followed_by modifiers.bits }
{
    KeyboardState {
        waiting: WaitingBytes {
            bytes: [0; KEPT_LIMIT],
            count: 0,
        },
        prefix: false,
        modifiers,
    }
}

/// A call that is refused before anything is read.
pub fn refusing_words(refusal: u32) -> HandledWords
    ensures { result ≡ refusing refusal }
{
    HandledWords {
        refusal,
        lamps: 0,
        used: 0,
        pairs: 0,
        dropped: 0,
        port: 0,
    }
}

// A call that used the script's first byte, and asked for no lamp exchange.
fn byte_used(refusal: u32) -> HandledWords
    ensures { result ≡ byte_used refusal }
{
    HandledWords {
        used: 1,
        ..refusing_words(refusal)
    }
}

// A call in which none waits, and the script's first byte is a key's and asks for no lamp exchange,
// at a table without the profile. It is followed, and its event is queued where there is room.
fn handle_key(words: &mut Words, side: Side, script: &[u8]) -> HandledWords
    requires { KeyAlone side words.old script.now × (sides_pass words.old ≡ true) }
    ensures { KeyHandled side words.old script.now result words.new }
{
    let state = state_in(words);
    if !state.call_formed(side) {
        return refusing_words(21);
    }
    let scan_code = script[0];
    let modifiers = modifiers_after(Profile::Any, state.keyboard_at(side), scan_code);
    let keyboard = followed(modifiers);
    put_keyboard(words, side, keyboard);
    let mut left = state;
    left.put_keyboard(side, keyboard);
    byte_used(queue_key(words, left, side, scan_code, modifiers))
}

// Whether a call takes the script's first byte, which is a
// key's and not a lock's whose lamps would be set.
fn is_key_alone(words: &Words, side: Side, script: &[u8]) -> bool
    ensures { Says (KeyAlone side words.now script.now) result }
{
    is_from_script(words, side, script)
        && !is_silent(script[0])
        && !is_lock_press(Profile::Any, script[0])
}

// A handler call for a side, on the numbers of a record.
fn handle_side(words: &mut Words, side: Side, script: &[u8], log: &mut [u8]) -> HandledWords
    ensures { SideHandled side words.old script.now log.old result words.new log.new }
{
    if !sides_pass(words) {
        return refusing_words(21);
    }
    if is_key_alone(words, side, script) {
        return handle_key(words, side, script);
    }
    let state = state_in(words);
    let mut left = state;
    let effect = handle_state(&mut left, side, script, log);
    let call = effect.call;
    let handled = HandledWords {
        refusal: u32::from(number_of(call.answer)),
        lamps: lamps_number(call.lamps_failed),
        used: call.used,
        pairs: call.pairs,
        dropped: call.dropped,
        port: port_lacked(call.answer),
    };
    if leaves_as_passed(call.answer) {
        return handled;
    }
    put_keyboard(words, side, left.keyboard_at(side));
    put_new(words, state.start, state.count, left, effect.event);
    handled
}

// What most calls are: the script's first byte is taken, it is of a key that has no flag, and the
// record is ready for its event, which is queued.
// Speed: a plain key takes 6.5 ns so, as in `handle_key`, and by a call on the state alone 33
// (docs/PERFORMANCE.md).
fn handle_plain(words: &mut Words, side: Side, script: &[u8]) -> HandledWords
    requires { PlainKey side words.old script.now }
    ensures { KeyHandled side words.old script.now result words.new }
{
    let state = state_in(words);
    let modifiers = state.keyboard_at(side).modifiers;
    put_keyboard(words, side, followed(modifiers));
    put_key(words, state, side, script[0], modifiers);
    byte_used(0)
}

// Whether a record is ready for one more event of a side.
#[tactic(auto, using(crate::proofs::Passing::unready))]
fn is_ready(words: &Words, side: Side) -> bool
    ensures { result ≡ is_ready side (state_of words.now) }
{
    sides_pass(words) && state_in(words).is_ready(side)
}

// Whether a call takes the script's first byte, which is of
// a key that has no flag, and its event has room.
fn is_plain_key(words: &Words, side: Side, script: &[u8]) -> bool
    ensures { Says (PlainKey side words.now script.now) result }
{
    is_from_script(words, side, script) && is_plain(script[0]) && is_ready(words, side)
}

/// A handler call on a lent record, for a side: 21 where it has not 144 numbers. A function with
/// two callers is compiled into neither, and a large answer copied from one to the other: so the
/// dispatcher, which knows the side, calls this one and not the next.
pub fn handle_at(words: &mut [u64], side: Side, script: &[u8], log: &mut [u8]) -> HandledWords
    ensures { AtSide (some side) words.old script.now log.old result words.new log.new }
{
    let Some(words) = words.as_mut_array() else {
        return refusing_words(21);
    };
    if is_plain_key(words, side, script) {
        return handle_plain(words, side, script);
    }
    handle_side(words, side, script, log)
}

/// A handler call on a lent record: for side 1 or 2, and 21 where it has not 144 numbers.
pub fn handle_words(words: &mut [u64], side: u32, script: &[u8], log: &mut [u8]) -> HandledWords
    ensures { WordsHandled words.old side script.now log.old result words.new log.new }
{
    let Some(words) = words.as_mut_array() else {
        return refusing_words(match side {
            1 | 2 => 21,
            _ => INVALID_ARGUMENT,
        });
    };
    // Two equal arms, each side by itself, are for speed: most of what a call asks goes by the
    // side. With `handle_at` in both, `inline(always)`, a plain key took 15 ns and not 11.
    match side {
        1 => {
            if is_plain_key(words, Side::First, script) {
                return handle_plain(words, Side::First, script);
            }
            handle_side(words, Side::First, script, log)
        }
        2 => {
            if is_plain_key(words, Side::Second, script) {
                return handle_plain(words, Side::Second, script);
            }
            handle_side(words, Side::Second, script, log)
        }
        _ => refusing_words(INVALID_ARGUMENT),
    }
}

// A taking that gives no event.
fn no_event(refusal: u32) -> TakenWords
    ensures { result ≡ record { refusal = refusal; side = 0; keycode = 0; action = 0; flags = 0 } }
{
    TakenWords {
        refusal,
        side: 0,
        keycode: 0,
        action: 0,
        flags: 0,
    }
}

fn side_number(side: Side) -> u32
    ensures { result ≡ side_number side }
{
    match side {
        Side::First => 1,
        Side::Second => 2,
    }
}

// The keycode of the event that a place's number stands
// for: its lowest byte, where that is a keycode's.
fn keycode_in(word: u64) -> u32
    ensures { result ≡ number_of (event_at word).keycode }
{
    let byte = (word % 256) as u8;
    match Keycode::try_from(byte) {
        Ok(_) => u32::from(byte),
        Err(_) => 0,
    }
}

// The oldest event, by its side and by the number of its place.
fn event_taken(side: Side, word: u64) -> TakenWords
    ensures { result ≡ taken_numbers (gives (some (record { side = side; one = event_at word }))) }
{
    TakenWords {
        refusal: 0,
        side: side_number(side),
        keycode: keycode_in(word),
        action: u32::from(word / 256 % 256 != 0),
        flags: (word / 65536 % 65536) as u32,
    }
}

// Stores where the events wait, and their sides.
fn put_queue(words: &mut Words, start: usize, count: usize, others: Sides)
    ensures { words.new ≡ with_queue_at start count others words.old }
{
    words[START_AT] = start as u64;
    put_row(words, count, others);
}

/// A taking from a lent record: 21 where it has not 144 numbers.
pub fn take_words(words: &mut [u64]) -> TakenWords
    ensures { WordsTaken words.old result words.new }
{
    let Some(words) = words.as_mut_array() else {
        return no_event(21);
    };
    if !sides_pass(words) {
        return no_event(21);
    }
    let state = state_in(words);
    if !state.well_formed() {
        return no_event(21);
    }
    if state.count == 0 {
        return no_event(0);
    }
    let taken = event_taken(state.sides.oldest(), words[PLACES_FROM + state.start]);
    put_queue(
        words,
        (state.start + 1) % QUEUE_LENGTH,
        state.count - 1,
        state.sides.without_oldest(),
    );
    taken
}

// The table with these keyboards that a profile's number makes, if any.
fn laid_with(keyboards: Keyboards, profile: u32) -> Option<Table>
    ensures { said_table result ≡ laid_with keyboards profile }
{
    match profile {
        0 => Some(Table {
            keyboards,
            profile: Profile::Any,
        }),
        1 => Some(Table {
            keyboards,
            profile: Profile::Tournament,
        }),
        _ => None,
    }
}

/// The table that two numbers stand for, if any.
pub fn table_of(keyboards: u32, profile: u32) -> Option<Table>
    ensures { said_table result ≡ table_at keyboards profile }
{
    match keyboards {
        1 => laid_with(Keyboards::One, profile),
        2 => laid_with(Keyboards::Two, profile),
        _ => None,
    }
}

fn keyboards_word(keyboards: Keyboards) -> u64
    ensures { result ≡ keyboards_number keyboards }
{
    match keyboards {
        Keyboards::One => 1,
        Keyboards::Two => 2,
    }
}

fn profile_word(profile: Profile) -> u64
    ensures { result ≡ profile_number profile }
{
    match profile {
        Profile::Any => 0,
        Profile::Tournament => 1,
    }
}

/// Stores a fresh record for a table.
pub fn put_fresh(words: &mut Words, table: Table)
    ensures { words.new ≡ words_of (fresh table) }
{
    words.fill(0);
    words[KEYBOARDS_AT] = keyboards_word(table.keyboards);
    words[PROFILE_AT] = profile_word(table.profile);
}

/// Makes a lent record a fresh one, for a table with 1 keyboard or 2, under profile 0 (none) or 1
/// (the tournament's): 21 where it has not 144 numbers.
pub fn fresh_words(words: &mut [u64], keyboards: u32, profile: u32) -> u32
    ensures { WordsFresh words.old keyboards profile result words.new }
{
    let Some(table) = table_of(keyboards, profile) else {
        return INVALID_ARGUMENT;
    };
    let Some(words) = words.as_mut_array() else {
        return 21;
    };
    put_fresh(words, table);
    0
}
