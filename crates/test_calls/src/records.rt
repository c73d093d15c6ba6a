// Handler calls and takings on the record that lent numbers stand for, by value and in place: the
// record is read out of the numbers, and the one that is left is stored.
ghost use Rattle.std.specs.Prelude.{◌≡◌};
ghost use Rattle.keyboard.specs.KeyboardLamps.{keyboard_lamps};
ghost use Rattle.keyboard.specs.Handler.{handled, log_left};
ghost use Rattle.keyboard.specs.Outcomes.{said_in_place};
ghost use Rattle.handler_words.specs.Arguments.{side_at};
ghost use Rattle.test_calls.specs.Records.{HandlesRecord, TakesRecord};

use crate::arguments::side_in;
use argument_words::INVALID_ARGUMENT;
use handler_words::records::{handled_words, put_record, read_record, taken_words};
use handler_words::{HandledWords, TakenWords, refusing_words};
use keyboard::{CallAnswer, handle, handle_in_place};
use keyboard_record::{KeyboardHandler, MalformedRecord, take_event};
use keyboard_sides::Side;

// The call by value, as the call in place has it.
fn handle_by_value(
    handler: &mut KeyboardHandler,
    side: Side,
    script: &[u8],
    log: &mut [u8],
) -> CallAnswer
    ensures { (said_in_place result handler.new
        ≡ handled keyboard_lamps side handler.old script.now log.old)
        × (log.new ≡ log_left keyboard_lamps side handler.old.state script.now log.old) }
{
    let handled = handle(*handler, side, script, log);
    *handler = handled.handler;
    CallAnswer {
        answer: handled.answer,
        lamps_failed: handled.lamps_failed,
        used: handled.used,
        pairs: handled.pairs,
        dropped: handled.dropped,
    }
}

/// A handler call by value, for side 1 or 2, on the record that 144 numbers stand for. Numbers that
/// fit no record are refused with 21, and stay.
#[unsafe(no_mangle)]
pub extern "C" fn vdt_handle_by_value(
    words: &mut [u64],
    side: u32,
    script: &[u8],
    log: &mut [u8],
) -> HandledWords
    ensures { HandlesRecord (side_at side) words.old script.now log.old result words.new log.new }
{
    let Some(side) = side_in(side) else {
        return refusing_words(INVALID_ARGUMENT);
    };
    let Some(words) = words.as_mut_array() else {
        return refusing_words(21);
    };
    let Some(mut handler) = read_record(words) else {
        return refusing_words(21);
    };
    let call = handle_by_value(&mut handler, side, script, log);
    put_record(words, &handler);
    handled_words(call)
}

/// The same in place.
#[unsafe(no_mangle)]
pub extern "C" fn vdt_handle_in_place(
    words: &mut [u64],
    side: u32,
    script: &[u8],
    log: &mut [u8],
) -> HandledWords
    ensures { HandlesRecord (side_at side) words.old script.now log.old result words.new log.new }
{
    let Some(side) = side_in(side) else {
        return refusing_words(INVALID_ARGUMENT);
    };
    let Some(words) = words.as_mut_array() else {
        return refusing_words(21);
    };
    let Some(mut handler) = read_record(words) else {
        return refusing_words(21);
    };
    let call = handle_in_place(&mut handler, side, script, log);
    put_record(words, &handler);
    handled_words(call)
}

/// A taking by value.
#[unsafe(no_mangle)]
pub extern "C" fn vdt_take_by_value(words: &mut [u64]) -> TakenWords
    ensures { TakesRecord words.old result words.new }
{
    let Some(words) = words.as_mut_array() else {
        return taken_words(Err(MalformedRecord));
    };
    let Some(handler) = read_record(words) else {
        return taken_words(Err(MalformedRecord));
    };
    let taken = take_event(handler);
    put_record(words, &taken.handler);
    taken_words(taken.event)
}
