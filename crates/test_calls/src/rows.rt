// Handler calls by value, in place or on the state alone, and
// a dispatcher's steps, one after another: for measuring.
ghost use Rattle.std.specs.Prelude.{◌≡◌};
ghost use Rattle.keyboard_sides.specs.Sides.{side_of};
ghost use Rattle.keyboard_record.specs.Record.{fresh};
ghost use Rattle.keyboard.specs.KeyboardLamps.{keyboard_lamps};
ghost use Rattle.keyboard.specs.Handler.{effects, handled, log_left};
ghost use Rattle.ps2_mouse.specs.Answers.{fresh_mouse};
ghost use Rattle.dispatcher.specs.Sources.{scripts};
ghost use Rattle.dispatcher.specs.Step.{new_dispatcher};
ghost use Rattle.test_calls.specs.Calls.{table_of, left, in_turn, called};
ghost use Rattle.test_calls.specs.Steps.{left as left_by_step, one_more, made, two_keyboards};

use dispatcher::Dispatcher;
use keyboard::{handle, handle_in_place, handle_state};
use keyboard_record::{HandlerState, KeyboardHandler, Keyboards, Table};
use keyboard_scancodes::Profile;
use keyboard_sides::Side;
use ps2_mouse::PS2Mouse;

// A table with one keyboard or two, without the profile or with the tournament's, and a side of it:
// enums don't cross `extern "C"`.
fn table_of(two: bool, tournament: bool) -> Table
    ensures { result ≡ table_of two tournament }
{
    Table {
        keyboards: if two { Keyboards::Two } else { Keyboards::One },
        profile: if tournament {
            Profile::Tournament
        } else {
            Profile::Any
        },
    }
}

fn side_of(second: bool) -> Side
    ensures { result ≡ side_of second }
{
    if second { Side::Second } else { Side::First }
}

// Which of two scripts a call has: they are lent in turn.
fn in_turn<'a>(call: usize, script: &'a [u8], other: &'a [u8]) -> &'a [u8]
    ensures { result.now ≡ in_turn call script.now other.now }
{
    if call % 2 == 0 { script } else { other }
}

// A handler call by value.
fn call_by_value(
    handler: KeyboardHandler,
    side: Side,
    script: &[u8],
    log: &mut [u8],
) -> KeyboardHandler
    ensures { (result ≡ (handled keyboard_lamps side handler script.now log.old).handler)
        × (log.new ≡ log_left keyboard_lamps side handler.state script.now log.old) }
{
    handle(handler, side, script, log).handler
}

// A handler call on the state alone: whoever holds the places stores the event.
fn call_on_state(mut state: HandlerState, side: Side, script: &[u8], log: &mut [u8]) -> HandlerState
    ensures { (result ≡ (effects keyboard_lamps side state script.now log.old).state)
        × (log.new ≡ log_left keyboard_lamps side state script.now log.old) }
{
    handle_state(&mut state, side, script, log);
    state
}

/// So many handler calls by value for a side, whose scripts are these
/// two in turn, from a fresh record on for one keyboard or two,
/// without the profile or with it; answers how many events then wait.
#[unsafe(no_mangle)]
pub extern "C" fn vdt_handler_calls_by_value(
    script: &[u8],
    other: &[u8],
    log: &mut [u8],
    times: usize,
    two: bool,
    tournament: bool,
    second: bool,
) -> usize
    ensures { (result ≡ (called (side_of second) times script.now other.now
        (left (fresh (table_of two tournament)) log.old)).handler.state.count)
        × (log.new ≡ (called (side_of second) times script.now other.now
        (left (fresh (table_of two tournament)) log.old)).log) }
{
    let side = side_of(second);
    let mut handler = KeyboardHandler::fresh(table_of(two, tournament));
    for call in 0..times {
        handler = call_by_value(handler, side, in_turn(call, script, other), log);
    }
    handler.state.count
}

/// The same calls in place; answers how many events then wait.
#[unsafe(no_mangle)]
pub extern "C" fn vdt_handler_calls_in_place(
    script: &[u8],
    other: &[u8],
    log: &mut [u8],
    times: usize,
    two: bool,
    tournament: bool,
    second: bool,
) -> usize
    ensures { (result ≡ (called (side_of second) times script.now other.now
        (left (fresh (table_of two tournament)) log.old)).handler.state.count)
        × (log.new ≡ (called (side_of second) times script.now other.now
        (left (fresh (table_of two tournament)) log.old)).log) }
{
    let side = side_of(second);
    let mut handler = KeyboardHandler::fresh(table_of(two, tournament));
    for call in 0..times {
        handle_in_place(&mut handler, side, in_turn(call, script, other), log);
    }
    handler.state.count
}

/// The same calls on the state alone, from that of a fresh record on; answers how many events then
/// wait.
#[unsafe(no_mangle)]
pub extern "C" fn vdt_handler_calls_on_state(
    script: &[u8],
    other: &[u8],
    log: &mut [u8],
    times: usize,
    two: bool,
    tournament: bool,
    second: bool,
) -> usize
    ensures { (result ≡ (called (side_of second) times script.now other.now
        (left (fresh (table_of two tournament)) log.old)).handler.state.count)
        × (log.new ≡ (called (side_of second) times script.now other.now
        (left (fresh (table_of two tournament)) log.old)).log) }
{
    let side = side_of(second);
    let mut state = KeyboardHandler::fresh(table_of(two, tournament)).state;
    for call in 0..times {
        state = call_on_state(state, side, in_turn(call, script, other), log);
    }
    state.count
}

// A step, whatever it answers.
fn one_step(
    state: Dispatcher,
    first: &[u8],
    second: &[u8],
    mouse: &[u8],
    log: &mut [u8],
) -> Dispatcher
    ensures { left_by_step result log.new
        ≡ one_more (scripts first.now second.now mouse.now) (left_by_step state log.old) }
{
    state.step(first, second, mouse, log).state
}

/// So many steps at a table with two keyboards, from a fresh state on; answers how many events then
/// wait.
#[unsafe(no_mangle)]
pub extern "C" fn vdt_dispatcher_steps(
    first: &[u8],
    second: &[u8],
    mouse: &[u8],
    log: &mut [u8],
    times: usize,
) -> usize
    ensures { let after = made times (scripts first.now second.now mouse.now)
        (left_by_step (new_dispatcher (fresh two_keyboards) fresh_mouse) log.old) in
        (result ≡ after.state.handler.state.count) × (log.new ≡ after.log) }
{
    let mut state = Dispatcher::new(
        KeyboardHandler::fresh(Table {
            keyboards: Keyboards::Two,
            profile: Profile::Any,
        }),
        PS2Mouse::new(),
    );
    for _ in 0..times {
        state = one_step(state, first, second, mouse, log);
    }
    state.handler.state.count
}
