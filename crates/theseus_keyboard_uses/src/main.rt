// Each theorem of theseus_keyboard and theseus_keycodes used on real scripts: what ours answered,
// and how the Rust's recording and statics were left.
#![tactic(auto)]

mod places;

use keyboard::{HandlerAnswer, number_of};
use keyboard_modifiers::KeyboardModifiers as OurModifiers;
use keyboard_record::{KeyboardHandler, Keyboards, Table};
use keyboard_scancodes::Profile;
use keyboard_sides::Side;
use keycodes_ascii::{KeyAction as OurAction, Keycode as OurKeycode};
use places::Places;
use program_status::ended;
use std::io::Result;
use std::process::ExitCode;
use theseus_keyboard::{both_handle, both_handle_alone, both_keyboard_init};
use theseus_keycodes::{
    BothAnswers, KeyAction, KeyboardModifiers, Keycode, both_is_letter, both_new_event,
    both_questions, both_scancode_to_ascii, both_to_ascii, both_try_from,
};
use theseus_ps2::Recording;

// Room for every exchange below.
const ROOM: usize = 64;

// What the Rust's statics hold from one call to the next.
#[derive(Drop)]
struct Statics {
    queue: Places,
    modifiers: KeyboardModifiers,
    extended: bool,
}

impl Statics {
    fn new() -> Self {
        Statics {
            queue: Places::new(),
            modifiers: KeyboardModifiers { bits: 0 },
            extended: false,
        }
    }
}

// A line on what a call of each came to.
fn tell(
    rt: &impl Print,
    name: &str,
    answer: HandlerAnswer,
    counts: (usize, usize),
    left: &Recording<'_>,
) -> Result<()> {
    let number = number_of(answer);
    let (used, pairs) = counts;
    println!(rt;
        "{name}: ours {number}, {used} bytes, {pairs} pairs; the Rust {} bytes, {} pairs",
        left.used, left.pairs
    )
}

// A line on what each then remembers of a side's keyboard.
fn tell_records(
    rt: &impl Print,
    handler: &KeyboardHandler,
    side: Side,
    statics: &Statics,
) -> Result<()> {
    let keyboard = handler.state.keyboard_at(side);
    let prefix = keyboard.prefix;
    let flags = keyboard.modifiers.bits;
    let bytes = keyboard.waiting.count;
    let events = handler.state.count;
    println!(rt;
        "  ours: prefix {prefix}, flags {flags}, {events} events, {bytes} bytes wait; the Rust: prefix {}, flags {}, {} events",
        statics.extended, statics.modifiers.bits, statics.queue.count
    )
}

// A call of a record with one keyboard, in which no byte waits.
fn use_handle(
    rt: &impl Print,
    handler: KeyboardHandler,
    script: &[u8],
    statics: &mut Statics,
) -> Result<KeyboardHandler> {
    let mut log = [0u8; ROOM];
    let mut rusts_log = [0u8; ROOM];
    let both = both_handle(
        handler,
        script,
        &mut log,
        &mut rusts_log,
        &mut statics.queue,
        &mut statics.modifiers,
        &mut statics.extended,
    );
    let ours = both.ours;
    let counts = (ours.used, ours.pairs);
    tell(rt, "both_handle", ours.answer, counts, &both.left)?;
    tell_records(rt, &ours.handler, Side::First, statics)?;
    Ok(ours.handler)
}

// A call of either side; the Rust's script has the oldest waiting byte in front, if one waits.
fn use_handle_alone(
    rt: &impl Print,
    handler: KeyboardHandler,
    side: Side,
    script: &[u8],
    rusts_script: &[u8],
    statics: &mut Statics,
) -> Result<KeyboardHandler> {
    let mut log = [0u8; ROOM];
    let mut rusts_log = [0u8; ROOM];
    let both = both_handle_alone(
        handler,
        side,
        script,
        &mut log,
        rusts_script,
        &mut rusts_log,
        &mut statics.queue,
        &mut statics.modifiers,
        &mut statics.extended,
    );
    let ours = both.ours;
    let counts = (ours.used, ours.pairs);
    tell(rt, "both_handle_alone", ours.answer, counts, &both.left)?;
    tell_records(rt, &ours.handler, side, statics)?;
    Ok(ours.handler)
}

const ONE: Table = Table {
    keyboards: Keyboards::One,
    profile: Profile::Any,
};

// Initialisation, and a session on its fresh record: a capital A, a prefix, the right Alt, Caps
// Lock with its lamps, a byte of no key, and a script with no byte.
fn use_one_keyboard(rt: &impl Print) -> Result<()> {
    let script = [
        0x00, 0x01, 0xFA, 0x00, 0x01, 0xFA, 0x01, 0xAB, 0x01, 0x83, 0x00, 0x01, 0xFA, 0x00, 0x01,
        0xFA, 0x00, 0x01, 0xFA, 0x00, 0x01, 0xFA, 0x00, 0x01, 0xFA, 0x01, 0x02,
    ];
    let mut log = [0u8; ROOM];
    let mut rusts_log = [0u8; ROOM];
    let both = both_keyboard_init(ONE, &script, &mut log, &mut rusts_log);
    let (number, used, pairs) = match both.ours.answer {
        Ok(a) => (0, a.used, a.pairs),
        Err(e) => (e.value.number(), e.used, e.pairs),
    };
    println!(rt;
        "both_keyboard_init: ours {number}, {used} bytes, {pairs} pairs; the Rust {} bytes, {} pairs",
        both.left.used, both.left.pairs
    )?;
    let mut statics = Statics::new();
    let fresh = both.ours.handler;
    let shift = use_handle(rt, fresh, &[0x2A], &mut statics)?;
    let a = use_handle(rt, shift, &[0x1E], &mut statics)?;
    let prefix = use_handle(rt, a, &[0xE0], &mut statics)?;
    let alt_right = use_handle(rt, prefix, &[0x38], &mut statics)?;
    let caps_lock = [0x3A, 0x00, 0x01, 0xFA, 0x00, 0x01, 0xFA];
    let locked = use_handle(rt, alt_right, &caps_lock, &mut statics)?;
    let unknown = use_handle(rt, locked, &[0x7F], &mut statics)?;
    use_handle(rt, unknown, &[], &mut statics)?;
    Ok(())
}

// A lamp exchange throws a byte away, which waits for the next call; the Rust, which lost it, is
// given it in front of its script. At a table with two keyboards, on the first side and on the
// second, whose lamps want D4.
fn use_two_keyboards(rt: &impl Print) -> Result<()> {
    let table = Table {
        keyboards: Keyboards::Two,
        profile: Profile::Any,
    };
    let num_lock = [0x45, 0x00, 0x01, 0x1E, 0x01, 0xFA, 0x00, 0x01, 0xFA];
    let mut first = Statics::new();
    let mut second = Statics::new();
    let fresh = KeyboardHandler::fresh(table);
    let locked = use_handle_alone(rt, fresh, Side::First, &num_lock, &num_lock, &mut first)?;
    let a = use_handle_alone(rt, locked, Side::First, &[], &[0x1E], &mut first)?;
    let other = use_handle_alone(rt, a, Side::Second, &num_lock, &num_lock, &mut second)?;
    use_handle_alone(rt, other, Side::Second, &[], &[0x1E], &mut second)?;
    Ok(())
}

// Under the tournament's profile Caps Lock does nothing and is refused with 33, as Tab is; A is
// queued.
fn use_profile(rt: &impl Print) -> Result<()> {
    let table = Table {
        keyboards: Keyboards::One,
        profile: Profile::Tournament,
    };
    let caps_lock = [0x3A, 0x00, 0x01, 0xFA, 0x00, 0x01, 0xFA];
    let mut statics = Statics::new();
    let fresh = KeyboardHandler::fresh(table);
    let lock = use_handle_alone(rt, fresh, Side::First, &caps_lock, &caps_lock, &mut statics)?;
    let tab = use_handle_alone(rt, lock, Side::First, &[0x0F], &[0x0F], &mut statics)?;
    use_handle_alone(rt, tab, Side::First, &[0x1E], &[0x1E], &mut statics)?;
    Ok(())
}

fn tell_answers(rt: &impl Print, name: &str, both: BothAnswers) -> Result<()> {
    println!(rt; "{name}: ours {}; the Rust {}", both.ours, both.rusts)
}

// A with the left Shift, Caps Lock and the right Alt.
fn use_keycodes(rt: &impl Print) -> Result<()> {
    let ours = OurModifiers {
        bits: 1 | 1 << 7 | 1 << 10,
    };
    let theirs = KeyboardModifiers {
        bits: 1 << 2 | 1 << 8 | 1 << 5,
    };
    let read = both_try_from(0x1E);
    println!(rt;
        "both_try_from: ours {}; the Rust {}",
        read.ours.is_ok(),
        read.rusts.is_ok()
    )?;
    let read = both_try_from(0x60);
    println!(rt;
        "both_try_from: ours {}; the Rust {}",
        read.ours.is_ok(),
        read.rusts.is_ok()
    )?;
    let a = both_to_ascii(OurKeycode::A, ours, Keycode::A, theirs);
    println!(rt;
        "both_to_ascii: ours {}; the Rust {}",
        a.ours.unwrap_or(0),
        a.rusts.unwrap_or(' ')
    )?;
    let one = both_scancode_to_ascii(ours, theirs, 0x02);
    println!(rt;
        "both_scancode_to_ascii: ours {}; the Rust {}",
        one.ours.unwrap_or(0),
        one.rusts.unwrap_or(' ')
    )?;
    tell_answers(
        rt,
        "both_is_letter",
        both_is_letter(OurKeycode::A, Keycode::A),
    )?;
    let event = both_new_event(
        OurKeycode::A,
        OurAction::Pressed,
        ours,
        Keycode::A,
        KeyAction::Pressed,
        theirs,
    );
    println!(rt;
        "both_new_event: ours flags {}; the Rust flags {}",
        event.ours.modifiers.bits, event.rusts.modifiers.bits
    )?;
    let asked = both_questions(ours, theirs);
    tell_answers(rt, "both_questions shift", asked.shift)?;
    tell_answers(rt, "both_questions control", asked.control)?;
    tell_answers(rt, "both_questions alt", asked.alt)?;
    tell_answers(rt, "both_questions alt_gr", asked.alt_gr)?;
    tell_answers(rt, "both_questions super_key", asked.super_key)?;
    tell_answers(rt, "both_questions caps_lock", asked.caps_lock)?;
    tell_answers(rt, "both_questions num_lock", asked.num_lock)?;
    tell_answers(rt, "both_questions scroll_lock", asked.scroll_lock)
}

fn use_all(rt: &impl Print) -> Result<()> {
    use_one_keyboard(rt)?;
    use_two_keyboards(rt)?;
    use_profile(rt)?;
    use_keycodes(rt)
}

fn main(rt: HostRuntime) -> ExitCode {
    ended(&rt, "theseus_keyboard_uses", use_all(&rt))
}
