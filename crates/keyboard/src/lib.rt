// The handler call, for either side of a table: Theseus's `keyboard`.
#![tactic(auto)]

ghost use Rattle.std.specs.Prelude.{true, ◌≡◌, ◌≢◌, get_or, ◌-◌, ◌≤◌, Err};
ghost use Rattle.exchange.specs.Exchange.{play, yields};
ghost use Rattle.ps2_kept.specs.Kept.{kept_limit, kept_of};
ghost use Rattle.keyboard_scancodes.specs.Strokes.{low_part};
ghost use Rattle.keyboard_scancodes.specs.declared.Profile.{Profile};
ghost use Rattle.keyboard_scancodes.specs.Profile.{presses_followed};
ghost use Rattle.keyboard_scancodes.specs.Events.{keycode_at, event_of};
ghost use Rattle.keyboard_scancodes.specs.Waiting.{bytes_from, waiting_bytes};
ghost use Rattle.keyboard.specs.Byte.{after_lamps, on_byte, key_call, key_effects};
ghost use Rattle.exchange.specs.Answer.{number_ended};
ghost use Rattle.ps2_answers.specs.Answers.{ended, used_of};
ghost use Rattle.keyboard_record.specs.Queue.{said_room};
ghost use Rattle.keyboard.specs.Answers.{said_call, said_lamps, ends2_3_21};
ghost use Rattle.keyboard.specs.KeyboardLamps.{port_of, port_rules, keyboard_lamps};
ghost use Rattle.keyboard.specs.Handler.{effects, log_left, handled};
ghost use Rattle.keyboard.specs.Outcomes.{without_event, said_key_effect, said_effect, said_in_place, said_handled, key_effects_of, on_key, PlaysOn, Takes};

use keyboard_modifiers::KeyboardModifiers;
use keyboard_record::{HandlerState, KeyboardHandler, NoRoom, QUEUE_LENGTH};
use keyboard_scancodes::{
    KeyboardState, Profile, WaitingBytes, is_lock_press, is_prefix, is_silent, leds,
    modifiers_after,
};
use keyboard_sides::Side;
use keycodes_ascii::{KEY_RELEASED_OFFSET, KeyAction, KeyEvent, Keycode};
use ps2_answers::{Answer, Counted, Lack, ReadPort, Refusal};
use ps2_kept::{KEPT_LIMIT, KeptBytes, none_kept};
use ps2_keyboard::{read_scancode, set_port_led_acknowledged, set_port_led_onto};
use ps2_ports::DevicePort;

/// How a handler call ends that isn't done: for lack of a byte or room, or refused with unknown
/// scancode (19), queue full (20), malformed record (21), side full (31) or outside profile (33).
#[derive(Clone, Copy)]
pub enum HandlerRefusal {
    Lacking(Lack),
    UnknownScancode,
    QueueFull,
    MalformedRecord,
    SideFull,
    OutsideProfile,
}

/// How a handler call ends.
pub type HandlerAnswer = Result<(), HandlerRefusal>;

// The byte that a call takes, or that there is none; the
// script bytes used for it; and the bytes that still wait.
#[derive(Clone, Copy)]
struct TakenByte {
    kept: KeptBytes,
    answer: Answer<u8>,
}

/// What a handler call answers beside the record. A lamp exchange that failed (14) is shown beside
/// the answer, and so is the number of the bytes that it threw away and that found no place to
/// wait.
#[derive(Clone, Copy)]
pub struct CallAnswer {
    pub answer: HandlerAnswer,
    pub lamps_failed: bool,
    pub used: usize,
    pub pairs: usize,
    pub dropped: u32,
}

/// The same with the record, for a call by value.
#[derive(Clone, Copy)]
pub struct Handled {
    pub answer: HandlerAnswer,
    pub lamps_failed: bool,
    pub used: usize,
    pub pairs: usize,
    pub handler: KeyboardHandler,
    pub dropped: u32,
}

/// What a call gives back that leaves the places alone: its answer, and the event that its byte
/// gives, or that joins the queue.
// Event and answer stand apart, for speed: the two in one `Result` measured slower.
#[derive(Clone, Copy)]
pub struct Effect {
    pub call: CallAnswer,
    pub event: Option<KeyEvent>,
}

impl HandlerRefusal {
    /// The number of a refusal, as an answer tells it.
    pub fn number(self) -> u8
        ensures { result ≡ number_ended (said_call (Err self)) }
    {
        match self {
            HandlerRefusal::Lacking(lack) => lack.number(),
            HandlerRefusal::UnknownScancode => 19,
            HandlerRefusal::QueueFull => 20,
            HandlerRefusal::MalformedRecord => 21,
            HandlerRefusal::SideFull => 31,
            HandlerRefusal::OutsideProfile => 33,
        }
    }
}

/// The number of how a call ends, and 0 where it is done.
pub fn number_of(answer: HandlerAnswer) -> u8
    ensures { result ≡ number_ended (said_call answer) }
{
    match answer {
        Ok(()) => 0,
        Err(refusal) => refusal.number(),
    }
}

/// Whether the record is as it was passed after a call that is answered so: after 2, 3 and 21.
pub fn leaves_as_passed(answer: HandlerAnswer) -> bool
    ensures { result ≡ ends2_3_21 (said_call answer) }
{
    matches!(
        answer,
        Err(HandlerRefusal::Lacking(_) | HandlerRefusal::MalformedRecord)
    )
}

// A call refuses an event as the queue does.
impl From<NoRoom> for HandlerRefusal {
    ghost from_gives = { λ full refusal. said_call (Err refusal) ≡ yields (said_room (Err full)) };

    fn from(full: NoRoom) -> HandlerRefusal {
        match full {
            NoRoom::OutsideProfile => HandlerRefusal::OutsideProfile,
            NoRoom::SideFull => HandlerRefusal::SideFull,
            NoRoom::QueueFull => HandlerRefusal::QueueFull,
        }
    }
}

// The event of a scancode whose low part is this keycode's number.
fn event_of(keycode: Keycode, scan_code: u8, modifiers: KeyboardModifiers) -> KeyEvent
    requires { keycode_at (low_part scan_code) ≡ keycode }
    ensures { result ≡ event_of scan_code modifiers.bits }
{
    let action = if scan_code < KEY_RELEASED_OFFSET {
        KeyAction::Pressed
    } else {
        KeyAction::Released
    };
    KeyEvent {
        keycode,
        action,
        modifiers,
    }
}

// Takes the oldest byte that waits: each byte behind it moves up by one
// place. How many wait is asked here and below, and said by no type: a
// caller's record may have any number there, and 21 is its answer.
// A loop, for speed: by one `copy_from_slice` the press of a lock took 80 ns in place of 41,
// although none waited.
fn take_oldest(waiting: WaitingBytes) -> (u8, KeptBytes)
    requires { (waiting.count ≤ kept_limit) × (waiting.count ≢ 0) }
    ensures { (result.0 ≡ get_or waiting.bytes 0 0)
        × (result.1 ≡ kept_of (bytes_from waiting.bytes 1 (waiting.count - 1))) }
{
    let bytes = waiting.bytes;
    let count = waiting.count;
    let mut behind: [u8; KEPT_LIMIT] = [0; KEPT_LIMIT];
    let mut oldest: u8 = 0;
    for place in (0..usize::from(count)).rev() {
        behind[place] = oldest;
        oldest = bytes[place];
    }
    let kept = KeptBytes {
        bytes: behind,
        count: count - 1,
        others: 0,
    };
    (oldest, kept)
}

// The byte that a call takes: the oldest that waits; where
// none waits, one is read without asking the status.
fn take_byte(waiting: WaitingBytes, script: &[u8]) -> TakenByte
    requires { waiting.count ≤ kept_limit }
    ensures { Takes (waiting_bytes waiting) script.now (ended result.answer) (used_of result.answer)
        result.kept }
{
    if waiting.count != 0 {
        let (oldest, kept) = take_oldest(waiting);
        return TakenByte {
            kept,
            answer: Ok(Counted::new(oldest)),
        };
    }
    TakenByte {
        kept: none_kept(),
        answer: read_scancode(script),
    }
}

// A call that gives no event and whose lamp exchange, if it had one, is not shown: its answer, with
// the script bytes used and the pairs written.
fn without_event(answer: HandlerAnswer, used: usize, pairs: usize) -> Effect
    ensures { result ≡ without_event answer used pairs }
{
    Effect {
        call: CallAnswer {
            answer,
            lamps_failed: false,
            used,
            pairs,
            dropped: 0,
        },
        event: None,
    }
}

// What follows a scancode's lamp exchange, which used and
// wrote this much, with the bytes that come to wait.
fn after_lamps(
    keyboard: &mut KeyboardState,
    kept: KeptBytes,
    scan_code: u8,
    modifiers: KeyboardModifiers,
    lamps_failed: bool,
    used: usize,
    pairs: usize,
) -> Effect
    ensures { said_key_effect result keyboard.new
        ≡ key_effects_of (after_lamps scan_code modifiers.bits kept (said_lamps lamps_failed)) used
        pairs }
{
    *keyboard = KeyboardState {
        prefix: false,
        modifiers,
        waiting: WaitingBytes::from(kept),
    };
    let call = CallAnswer {
        answer: Ok(()),
        lamps_failed,
        used,
        pairs,
        dropped: kept.others,
    };
    match Keycode::try_from(scan_code & 0x7F) {
        Ok(keycode) => Effect {
            call,
            event: Some(event_of(keycode, scan_code, modifiers)),
        },
        Err(_) => Effect {
            call: CallAnswer {
                answer: Err(HandlerRefusal::UnknownScancode),
                ..call
            },
            event: None,
        },
    }
}

// The press of a lock that is followed, with the flags just after it: the
// lamps are set, and its event is given whether they could be or not. What
// the lamp exchange throws away waits behind the bytes that wait already.
fn lock_pressed(
    port: DevicePort,
    keyboard: &mut KeyboardState,
    kept: KeptBytes,
    scan_code: u8,
    modifiers: KeyboardModifiers,
    script: &[u8],
    log: &mut [u8],
) -> Effect
    requires { presses_followed Profile.Any scan_code ≡ true }
    ensures { PlaysOn keyboard.old kept
        (λ waiting. on_key (port_rules Profile.Any port) waiting scan_code modifiers.bits)
        script.now log.old (said_key_effect result keyboard.new) log.new }
{
    let lamps = leds(modifiers);
    if let Some(done) = set_port_led_acknowledged(script, log, port, lamps) {
        return after_lamps(
            keyboard, kept, scan_code, modifiers, false, done.used, done.pairs,
        );
    }
    let lit = set_port_led_onto(script, log, port, lamps, kept);
    match lit.answer {
        Ok(done) => after_lamps(
            keyboard, lit.kept, scan_code, modifiers, false, done.used, done.pairs,
        ),
        Err(refused) => match refused.value {
            Refusal::Lacking(lack) => {
                let answer = Err(HandlerRefusal::Lacking(lack));
                without_event(answer, refused.used, refused.pairs)
            }
            Refusal::Failed(_) => after_lamps(
                keyboard,
                lit.kept,
                scan_code,
                modifiers,
                true,
                refused.used,
                refused.pairs,
            ),
        },
    }
}

// A scancode that was taken, with the bytes that still wait.
fn on_byte(
    profile: Profile,
    port: DevicePort,
    keyboard: &mut KeyboardState,
    kept: KeptBytes,
    scan_code: u8,
    script: &[u8],
    log: &mut [u8],
) -> Effect
    ensures { PlaysOn keyboard.old kept
        (λ waiting. on_byte (port_rules profile port) keyboard.old waiting scan_code) script.now
        log.old (said_key_effect result keyboard.new) log.new }
{
    if is_silent(scan_code) {
        keyboard.prefix = is_prefix(scan_code);
        keyboard.waiting = WaitingBytes::from(kept);
        return without_event(Ok(()), 0, 0);
    }
    let modifiers = modifiers_after(profile, *keyboard, scan_code);
    if is_lock_press(profile, scan_code) {
        return lock_pressed(port, keyboard, kept, scan_code, modifiers, script, log);
    }
    after_lamps(keyboard, kept, scan_code, modifiers, false, 0, 0)
}

// A keyboard's part of a handler call: one scancode is taken and followed.
fn key_call(
    profile: Profile,
    port: DevicePort,
    keyboard: &mut KeyboardState,
    script: &[u8],
    log: &mut [u8],
) -> Effect
    requires { keyboard.old.waiting.count ≤ kept_limit }
    ensures { (said_key_effect result keyboard.new
        ≡ key_effects (port_rules profile port) keyboard.old script.now log.old)
        × (log.new ≡ (play (key_call (port_rules profile port) keyboard.old) script.now
        log.old).log) }
{
    let taken = take_byte(keyboard.waiting, script);
    match taken.answer {
        Ok(byte) => {
            let after = on_byte(
                profile,
                port,
                keyboard,
                taken.kept,
                byte.value,
                &script[byte.used..],
                log,
            );
            Effect {
                call: CallAnswer {
                    used: byte.used + after.call.used,
                    ..after.call
                },
                ..after
            }
        }
        Err(refused) => {
            let answer = Err(HandlerRefusal::Lacking(Lack::Script(ReadPort::Data)));
            without_event(answer, refused.used, 0)
        }
    }
}

// The port of a side's keyboard.
fn port_of(side: Side) -> DevicePort
    ensures { result ≡ port_of side }
{
    match side {
        Side::First => DevicePort::Port1,
        Side::Second => DevicePort::Port2,
    }
}

/// A handler call for a side but for the places: 21 is asked, then one scancode of its keyboard is
/// taken and followed, and its event is queued where there is room.
pub fn handle_state(state: &mut HandlerState, side: Side, script: &[u8], log: &mut [u8]) -> Effect
    ensures { (said_effect result state.new
        ≡ effects keyboard_lamps side state.old script.now log.old)
        × (log.new ≡ log_left keyboard_lamps side state.old script.now log.old) }
{
    if !state.call_formed(side) {
        return without_event(Err(HandlerRefusal::MalformedRecord), 0, 0);
    }
    let mut keyboard = state.keyboard_at(side);
    let effect = key_call(
        state.table.profile,
        port_of(side),
        &mut keyboard,
        script,
        log,
    );
    state.put_keyboard(side, keyboard);
    let Some(event) = effect.event else {
        return effect;
    };
    match state.join(side, event.keycode) {
        Ok(()) => Effect {
            call: CallAnswer {
                answer: Ok(()),
                ..effect.call
            },
            ..effect
        },
        Err(full) => Effect {
            call: CallAnswer {
                answer: Err(HandlerRefusal::from(full)),
                ..effect.call
            },
            event: None,
        },
    }
}

/// A handler call for a side, on a record that is lent: its event goes into the first place behind
/// those that wait.
pub fn handle_in_place(
    handler: &mut KeyboardHandler,
    side: Side,
    script: &[u8],
    log: &mut [u8],
) -> CallAnswer
    ensures { (said_in_place result handler.new
        ≡ handled keyboard_lamps side handler.old script.now log.old)
        × (log.new ≡ log_left keyboard_lamps side handler.old.state script.now log.old) }
{
    let start = handler.state.start;
    let count = handler.state.count;
    let effect = handle_state(&mut handler.state, side, script, log);
    if let Some(event) = effect.event {
        let place = (start + count) % QUEUE_LENGTH;
        handler.places[place] = event;
    }
    effect.call
}

/// The same by value.
pub fn handle(mut handler: KeyboardHandler, side: Side, script: &[u8], log: &mut [u8]) -> Handled
    ensures { (said_handled result ≡ handled keyboard_lamps side handler script.now log.old)
        × (log.new ≡ log_left keyboard_lamps side handler.state script.now log.old) }
{
    let call = handle_in_place(&mut handler, side, script, log);
    Handled {
        answer: call.answer,
        lamps_failed: call.lamps_failed,
        used: call.used,
        pairs: call.pairs,
        handler,
        dropped: call.dropped,
    }
}
