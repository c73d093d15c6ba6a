// Two keyboards and a mouse, served by turns: each event with its side and each packet, in the
// order of service, and why the steps end.
#![tactic(auto)]

use dispatcher::{Dispatcher, Served};
use keyboard::{CallAnswer, HandlerRefusal};
use keyboard_record::{KeyboardHandler, Keyboards, SideEvent, Table, take_event};
use keyboard_scancodes::Profile;
use keyboard_sides::Side;
use keycodes_ascii::KeyAction;
use program_status::ended;
use ps2_mouse::PS2Mouse;
use ps2_packet::MousePacket;
use std::io::Result;
use std::process::ExitCode;

// Side 1 presses Caps Lock, and A during its lamp exchange; then releases A.
const FIRST: &[u8] = &[0x3A, 0x00, 0x01, 0x1E, 0x01, 0xFA, 0x00, 0x01, 0xFA, 0x9E];

// Side 2 presses B and releases it.
const SECOND: &[u8] = &[0x30, 0xB0];

// The mouse moves with its left button pressed, then with none.
const THIRD: &[u8] = &[0x09, 0x05, 0x00, 0x08, 0x00, 0x05];

// More steps than the scripts allow.
const STEPS: usize = 100;

fn name_of(side: Side) -> &'static str {
    match side {
        Side::First => "side 1",
        Side::Second => "side 2",
    }
}

// A call's refusal, if it is refused; its event is told when it is taken.
fn tell_call(rt: &impl Print, side: Side, call: CallAnswer) -> Result<()> {
    match call.answer {
        Ok(()) => Ok(()),
        Err(refusal) => println!(rt; "{}: refused {}", name_of(side), refusal.number()),
    }
}

fn tell_event(rt: &impl Print, e: SideEvent) -> Result<()> {
    let action = match e.event.action {
        KeyAction::Pressed => 'P',
        KeyAction::Released => 'R',
    };
    println!(rt;
        "{}: {:02x} {action} {:03x}",
        name_of(e.side),
        u8::from(e.event.keycode),
        e.event.modifiers.bits
    )
}

// A packet: its left button, and which way it moved.
fn tell_packet(rt: &impl Print, packet: MousePacket) -> Result<()> {
    let left = if packet.button_left() {
        " left button"
    } else {
        ""
    };
    let sideways = if packet.x_movement() == 0 {
        ""
    } else {
        " moved sideways"
    };
    let up_or_down = if packet.y_movement() == 0 {
        ""
    } else {
        " moved up or down"
    };
    println!(rt; "mouse:{left}{sideways}{up_or_down}")
}

fn tell_served(rt: &impl Print, served: Served) -> Result<()> {
    match served {
        Served::Key(side, call) => tell_call(rt, side, call),
        Served::Packet(Ok(read)) => tell_packet(rt, read.value.packet),
        Served::Packet(Err(_)) => Ok(()),
        Served::Idle => println!(rt; "Nobody waits."),
    }
}

// Whether a call took neither a byte of its script nor one
// that waited: it used none, and ended in 2, 3 or 21.
fn took_none(call: CallAnswer) -> bool {
    call.used == 0
        && matches!(
            call.answer,
            Err(HandlerRefusal::Lacking(_) | HandlerRefusal::MalformedRecord)
        )
}

// How many steps in a row took no byte, after one more: 3 are a whole round of those that wait. An
// idle step ends them all, and leaves nothing to count.
fn steps_without(served: Served, before: usize) -> Option<usize> {
    match served {
        Served::Key(_, call) if took_none(call) => Some(before.saturating_add(1)),
        Served::Key(_, _) | Served::Packet(_) => Some(0),
        Served::Idle => None,
    }
}

// The record without its oldest event, which is told.
fn without_event(rt: &impl Print, handler: KeyboardHandler) -> Result<KeyboardHandler> {
    let taken = take_event(handler);
    if let Ok(Some(e)) = taken.event {
        tell_event(rt, e)?;
    }
    Ok(taken.handler)
}

// Steps until nobody waits, or until a whole round took no byte.
fn show(
    rt: &impl Print,
    keyboards: Keyboards,
    first: &[u8],
    second: &[u8],
    third: &[u8],
) -> Result<()> {
    let table = Table {
        keyboards,
        profile: Profile::Any,
    };
    let mut state = Dispatcher::new(KeyboardHandler::fresh(table), PS2Mouse::new());
    let mut without = 0;
    for _ in 0..STEPS {
        let done = state.step(first, second, third, &mut [0; 20]);
        tell_served(rt, done.served)?;
        let handler = without_event(rt, done.state.handler)?;
        state = done.state.with_handler(handler);
        let Some(steps) = steps_without(done.served, without) else {
            return Ok(());
        };
        if steps == 3 {
            return println!(rt;
                "A whole round took no byte: nobody else waits, and idle would never come."
            );
        }
        without = steps;
    }
    Ok(())
}

fn show_both(rt: &impl Print) -> Result<()> {
    println!(rt; "A table with two keyboards:")?;
    show(rt, Keyboards::Two, FIRST, SECOND, THIRD)?;
    println!(rt; "A table with one, where bytes come for side 2:")?;
    show(rt, Keyboards::One, SECOND, SECOND, THIRD)
}

fn main(rt: HostRuntime) -> ExitCode {
    ended(&rt, "tableturns", show_both(&rt))
}
