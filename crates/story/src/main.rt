// Two stories of a queue that has no room. At a table with one keyboard the release of Control
// finds no room for its event, and T is still no Control-T. At a table with two, one side sends
// more than its share, and the other is still heard.
#![tactic(auto)]

use keyboard::{Handled, HandlerRefusal, handle};
use keyboard_modifiers::KeyboardModifiers;
use keyboard_record::{KeyboardHandler, Keyboards, Table, take_event};
use keyboard_scancodes::Profile;
use keyboard_sides::Side;
use program_status::ended;
use std::io::Result;
use std::process::ExitCode;

const CONTROL_PRESSED: u8 = 0x1D;

const CONTROL_RELEASED: u8 = 0x9D;

const A_PRESSED: u8 = 0x1E;

const T_PRESSED: u8 = 0x14;

// A table with so many keyboards, for any keys.
fn table_of(keyboards: Keyboards) -> Table {
    Table {
        keyboards,
        profile: Profile::Any,
    }
}

// A handler call for a side, on a script of one byte.
fn handle_byte(handler: KeyboardHandler, side: Side, scan_code: u8) -> Handled {
    let script = [scan_code];
    let mut log = [0u8; 16];
    handle(handler, side, &script, &mut log)
}

// The record after a byte, whatever the call answered.
fn after_byte(handler: KeyboardHandler, side: Side, scan_code: u8) -> KeyboardHandler {
    handle_byte(handler, side, scan_code).handler
}

// The record after some presses, and how many of them were refused because the side has its share.
#[derive(Clone, Copy)]
struct Filled {
    handler: KeyboardHandler,
    refused: u32,
}

// A side presses A so many times.
fn fill(handler: KeyboardHandler, side: Side, times: u8) -> Filled {
    let mut filled = handler;
    let mut refused = 0;
    for _ in 0..times {
        let call = handle_byte(filled, side, A_PRESSED);
        filled = call.handler;
        refused += u32::from(matches!(call.answer, Err(HandlerRefusal::SideFull)));
    }
    Filled {
        handler: filled,
        refused,
    }
}

// How many events were taken, how many of them the second side's, and the record without them.
#[derive(Clone, Copy)]
struct Emptied {
    taken: u32,
    of_second: u32,
    handler: KeyboardHandler,
}

// More takings than any queue has events.
const TAKINGS: u32 = 1000;

// Takes events until none waits.
fn empty(handler: KeyboardHandler) -> Emptied {
    let mut left = handler;
    let mut of_second = 0;
    for taken in 0..TAKINGS {
        let t = take_event(left);
        left = t.handler;
        let Ok(Some(e)) = t.event else {
            return Emptied {
                taken,
                of_second,
                handler: left,
            };
        };
        of_second += u32::from(matches!(e.side, Side::Second));
    }
    Emptied {
        taken: TAKINGS,
        of_second,
        handler: left,
    }
}

// T is pressed, and its event is taken.
fn tell_t(rt: &impl Print, handler: KeyboardHandler) -> Result<()> {
    let taken = take_event(after_byte(handler, Side::First, T_PRESSED));
    let Ok(Some(e)) = taken.event else {
        return Ok(());
    };
    let flags = e.event.modifiers.bits;
    let control = if e.event.modifiers.is_control() {
        "with"
    } else {
        "without"
    };
    println!(rt; "T is pressed: its event has flags {flags:03x}, {control} Control.")
}

// What a full queue does not take, the flags do.
fn tell_full_queue(rt: &impl Print) -> Result<()> {
    let fresh = KeyboardHandler::fresh(table_of(Keyboards::One));
    let held = after_byte(fresh, Side::First, CONTROL_PRESSED);
    let full = fill(held, Side::First, 127).handler;
    println!(rt;
        "Control is pressed, then A 127 times: {} events wait.",
        full.state.count
    )?;
    let release = handle_byte(full, Side::First, CONTROL_RELEASED);
    let event = if matches!(release.answer, Err(HandlerRefusal::QueueFull)) {
        "refused 20, its event is lost"
    } else {
        "its event waits"
    };
    println!(rt; "Control is released: {event}.")?;
    let emptied = empty(release.handler);
    println!(rt; "The queue is emptied: {} events are taken.", emptied.taken)?;
    tell_t(rt, emptied.handler)
}

// What one side sends does not take the other side's room.
fn tell_two_sides(rt: &impl Print) -> Result<()> {
    let fresh = KeyboardHandler::fresh(table_of(Keyboards::Two));
    let filled = fill(fresh, Side::First, 200);
    println!(rt;
        "Two keyboards; side 1 presses A 200 times: {} events wait, {} are refused 31.",
        filled.handler.state.count, filled.refused
    )?;
    let heard = after_byte(filled.handler, Side::Second, T_PRESSED);
    println!(rt; "Side 2 presses T: {} events wait.", heard.state.count)?;
    let emptied = empty(heard);
    println!(rt;
        "The queue is emptied: {} events are taken, {} of them of side 2.",
        emptied.taken, emptied.of_second
    )
}

fn tell_both(rt: &impl Print) -> Result<()> {
    tell_full_queue(rt)?;
    tell_two_sides(rt)
}

fn main(rt: HostRuntime) -> ExitCode {
    ended(&rt, "story", tell_both(&rt))
}
