// A dispatcher's state lent as numbers, and changed where it lies: a step copies no place of the
// queue and writes only what changes.
#![tactic(auto)]

ghost use Rattle.std.specs.Prelude.{List, ◌++◌, ◌≡◌, ℕ, ◌%◌, ◌<◌};
ghost use Rattle.dispatcher.specs.Sources.{scripts, script_of, keyboard_waits, mouse_waits, waits_now};
ghost use Rattle.dispatcher.specs.Said.{wait_in};
ghost use Rattle.dispatcher.specs.declared.Source.{Source};
ghost use Rattle.dispatcher_words.specs.Layout.{place_at, dispatcher_length};
ghost use Rattle.dispatcher_words.specs.Words.{identity_of, source_number, last_of, handler_in, place_in, names_all, dispatcher_of};
ghost use Rattle.dispatcher_words.specs.Steps.{no_call, with_turn, StepMade};
ghost use Rattle.dispatcher_words.specs.Fresh.{MadeFresh};
ghost use Rattle.dispatcher_words.specs.Parts.{unserved, SideServed, MouseServed};

use argument_words::{INVALID_ARGUMENT, identity_of};
use dispatcher::{Source, Waits, keyboard_waits, mouse_waits, start};
use handler_words::{
    HANDLER_WORDS, HandledWords, KEYBOARDS_AT, fresh_words, handle_at, refusing_words,
};
use keyboard_sides::Side;
use port_words::{PacketWords, packet_words, refusing_packet_words};
use ps2_bytes::MouseId;
use ps2_packet_reading::read_signed_packet;

// C lends a dispatcher as 149 numbers; these are places among them.

// How many bytes of either side wait, in the handler's record.
const FIRST_WAITING_AT: usize = 2;

const SECOND_WAITING_AT: usize = 7;

// Behind that record: the mouse's identity, the places in
// the three scripts, and who was served last.
const MOUSE_AT: usize = HANDLER_WORDS;

const FIRST_PLACE_AT: usize = HANDLER_WORDS + 1;

const SECOND_PLACE_AT: usize = HANDLER_WORDS + 2;

const MOUSE_PLACE_AT: usize = HANDLER_WORDS + 3;

const LAST_AT: usize = HANDLER_WORDS + 4;

/// The numbers of a dispatcher.
pub const DISPATCHER_WORDS: usize = HANDLER_WORDS + 5;

/// What a step answers: the refusal of the call that it made, 0 where there is none; who was
/// served, 0 where nobody waited, 1 or 2 the side, 3 the mouse; and that call's answer, with 0
/// everywhere in the other.
#[repr(C)]
#[derive(Clone, Copy)]
pub struct StepWords {
    pub refusal: u32,
    pub source: u32,
    pub call: HandledWords,
    pub packet: PacketWords,
}

// Stores what stands behind the handler's record where nobody was served yet.
fn put_unserved(words: &mut [u64; DISPATCHER_WORDS], id: MouseId)
    ensures { words.new ≡ handler_in words.old ++ unserved id }
{
    words[MOUSE_AT..].copy_from_slice(&[u64::from(u8::from(id)), 0, 0, 0, 0]);
}

/// Makes a lent dispatcher a fresh one, with a fresh record for a table, as `fresh_words` has it,
/// and a mouse of identity 0, 3 or 4: 21 where there are not 149 numbers.
pub fn dispatcher_fresh(words: &mut [u64], keyboards: u32, profile: u32, identity: u32) -> u32
    ensures { MadeFresh words.old keyboards profile identity result words.new }
{
    let Some(id) = identity_of(identity) else {
        return INVALID_ARGUMENT;
    };
    let Some(lent) = words.as_mut_array::<DISPATCHER_WORDS>() else {
        // a record of no numbers is refused as this one is:
        // the table is asked, and then 21 answered
        return fresh_words(&mut [], keyboards, profile);
    };
    let answer = fresh_words(&mut lent[..HANDLER_WORDS], keyboards, profile);
    if answer == 0 {
        put_unserved(lent, id);
    }
    answer
}

// The mouse's identity that a dispatcher's number says: 3 or 4, and any other 0.
fn identity_in(word: u64) -> MouseId
    ensures { result ≡ identity_of word }
{
    match word {
        3 => MouseId::Three,
        4 => MouseId::Four,
        _ => MouseId::Zero,
    }
}

// Who a dispatcher's number says was served last.
fn last_in(word: u64) -> Option<Source>
    ensures { result ≡ last_of word }
{
    match word {
        1 => Some(Source::Keyboard(Side::First)),
        2 => Some(Source::Keyboard(Side::Second)),
        3 => Some(Source::Mouse),
        _ => None,
    }
}

// The number that says who was served.
fn source_number(source: Source) -> u32
    ensures { result ≡ source_number source }
{
    match source {
        Source::Keyboard(Side::First) => 1,
        Source::Keyboard(Side::Second) => 2,
        Source::Mouse => 3,
    }
}

// Where the place of a source is.
fn place_at(source: Source) -> usize
    ensures { (result ≡ place_at source) × (result < dispatcher_length) }
{
    match source {
        Source::Keyboard(Side::First) => FIRST_PLACE_AT,
        Source::Keyboard(Side::Second) => SECOND_PLACE_AT,
        Source::Mouse => MOUSE_PLACE_AT,
    }
}

fn place_in(words: &[u64; DISPATCHER_WORDS], source: Source) -> usize
    ensures { result ≡ place_in source words.now }
{
    words[place_at(source)] as usize
}

// Whether the numbers behind the handler's are such as a dispatcher can hold: a mouse's identity of
// 0, 3 or 4, and who was served last, 0 to 3. Every number is a place.
fn is_dispatcher(words: &[u64; DISPATCHER_WORDS]) -> bool
    ensures { result ≡ names_all words.now }
{
    matches!(words[MOUSE_AT], 0 | 3 | 4) && words[LAST_AT] < 4
}

// How many bytes of the second side wait: none, where it isn't at the table.
fn second_waiting(words: &[u64; DISPATCHER_WORDS]) -> usize
    ensures { result ≡ (dispatcher_of words.now).handler.state.second.waiting.count }
{
    if words[KEYBOARDS_AT] == 2 {
        words[SECOND_WAITING_AT] as usize
    } else {
        0
    }
}

// Which sources wait.
fn waits_in(words: &[u64; DISPATCHER_WORDS], first: &[u8], second: &[u8], mouse: &[u8]) -> Waits
    ensures { (source : Source) → wait_in result source
        ≡ waits_now (dispatcher_of words.now) (scripts first.now second.now mouse.now) source }
{
    let one = place_in(words, Source::Keyboard(Side::First));
    let two = place_in(words, Source::Keyboard(Side::Second));
    let three = place_in(words, Source::Mouse);
    let id = identity_in(words[MOUSE_AT]);
    Waits {
        first: keyboard_waits(one, first, words[FIRST_WAITING_AT] as usize),
        second: keyboard_waits(two, second, second_waiting(words)),
        mouse: mouse_waits(three, mouse, id),
    }
}

// Stores that a source was served, and its place then.
fn put_turn(words: &mut [u64; DISPATCHER_WORDS], source: Source, place: usize)
    ensures { words.new ≡ with_turn source place words.old }
{
    words[place_at(source)] = place as u64;
    words[LAST_AT] = u64::from(source_number(source));
}

// A side's turn: one handler call on its unused bytes, on
// the handler's numbers. A refused call uses the turn too.
fn serve_keyboard(
    words: &mut [u64; DISPATCHER_WORDS],
    side: Side,
    script: &[u8],
    log: &mut [u8],
) -> StepWords
    ensures { SideServed side words.old script.now log.old result words.new log.new }
{
    let source = Source::Keyboard(side);
    let place = place_in(words, source);
    let call = handle_at(
        &mut words[..HANDLER_WORDS],
        side,
        &script[start(place, script)..],
        log,
    );
    put_turn(words, source, place + call.used);
    StepWords {
        refusal: call.refusal,
        source: source_number(source),
        call,
        ..no_call(0)
    }
}

// The mouse's turn: one packet of its unread bytes.
fn serve_mouse(words: &mut [u64; DISPATCHER_WORDS], script: &[u8]) -> StepWords
    ensures { (log : List ℕ) → MouseServed words.old script.now log result words.new log }
{
    let id = identity_in(words[MOUSE_AT]);
    let place = place_in(words, Source::Mouse);
    let packet = packet_words(read_signed_packet(id, &script[start(place, script)..]));
    put_turn(words, Source::Mouse, place + packet.used);
    StepWords {
        refusal: packet.refusal,
        source: source_number(Source::Mouse),
        packet,
        ..no_call(0)
    }
}

// The script of a side.
fn side_script<'a>(side: Side, first: &'a [u8], second: &'a [u8]) -> &'a [u8]
    ensures { (mouse : List ℕ) → result.now
        ≡ script_of (Source.Keyboard side) (scripts first.now second.now mouse) }
{
    match side {
        Side::First => first,
        Side::Second => second,
    }
}

// A step that made no call.
fn no_call(refusal: u32) -> StepWords
    ensures { result ≡ no_call refusal }
{
    StepWords {
        refusal,
        source: 0,
        call: refusing_words(0),
        packet: refusing_packet_words(0),
    }
}

/// A step on a lent dispatcher: the first source that waits, going round from the one after the
/// last served, is served. Where none waits it is idle and writes nothing; 21 where there are not
/// 149 numbers.
pub fn dispatcher_step(
    words: &mut [u64],
    first: &[u8],
    second: &[u8],
    mouse: &[u8],
    log: &mut [u8],
) -> StepWords
    ensures { StepMade words.old first.now second.now mouse.now log.old result words.new log.new }
{
    let Some(lent) = words.as_mut_array::<DISPATCHER_WORDS>() else {
        return no_call(21);
    };
    if !is_dispatcher(lent) {
        return no_call(21);
    }
    let waits = waits_in(lent, first, second, mouse);
    match waits.serves(last_in(lent[LAST_AT])) {
        Some(Source::Keyboard(side)) => {
            serve_keyboard(lent, side, side_script(side, first, second), log)
        }
        Some(Source::Mouse) => serve_mouse(lent, mouse),
        None => no_call(0),
    }
}
