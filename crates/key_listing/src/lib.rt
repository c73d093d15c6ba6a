// The listing of key events that the program tablekeys prints: the handler of the one keyboard is
// called on a script until it is used and no byte waits, and each event is taken at once.
#![tactic(auto)]

ghost use Rattle.std.specs.Prelude.{◌≡◌, [], ◌∷◌, ◌<◌, Some, None, cond, OnOk};
ghost use Rattle.std.specs.Io.KnownBytes.{Appends};
ghost use Rattle.exchange.specs.Answer.{number_ended};
ghost use Rattle.keyboard.specs.Answers.{said_call, ends2_3_21};
ghost use Rattle.keyboard_record.specs.Taking.{said_taken};
ghost use Rattle.key_listing.specs.Text.{digit as Text·digit, digits, decimal};
ghost use Rattle.key_listing.specs.Lines.{action_text, character_text, event_line, taken_line, refusal_line};
ghost use Rattle.key_listing.specs.Listing.{at_first, call_on, call_text, record_after, bytes_left, listing_from, listing};
ghost use Rattle.buffer.specs.Buffer.{Holds};
ghost use Rattle.buffer.specs.Writer.{Puts};

use buffer::Writer;
use keyboard::{HandlerAnswer, handle, leaves_as_passed};
use keyboard_record::{KeyboardHandler, Keyboards, Table, TakenEvent, take_event};
use keyboard_scancodes::Profile;
use keyboard_sides::Side;
use keycodes_ascii::{KeyAction, KeyEvent};
use std::io::{Result, Write};

// The most script bytes that are read.
const SCRIPT_LIMIT: usize = 65536;

// Room for what one call prints: 13 bytes for a refusal and 13 for an event are enough.
const CALL_ROOM: usize = 26;

/// Puts the listing of a script into `out`, as much of it as there is room for, and answers how
/// many bytes that is.
pub fn list_keys(script: &[u8], out: &mut [u8]) -> usize
    ensures { Holds (listing script.now) out.old result out.new }
{
    let mut writer = Writer { out, next: 0 };
    list_calls(&script[..SCRIPT_LIMIT.min(script.len())], &mut writer);
    writer.next
}

// The same of a script that is used to its end.
fn list_calls(script: &[u8], out: &mut Writer<'_>)
    ensures { Puts (listing_from at_first script.now) out.old out.new }
{
    let table = Table {
        keyboards: Keyboards::One,
        profile: Profile::Any,
    };
    let mut handler = KeyboardHandler::fresh(table);
    let mut rest = script;
    while 0 < bytes_left(&handler, rest) {
        let Some(used) = call_once(&mut handler, rest, out) else {
            return;
        };
        rest = &rest[used..];
    }
}

/// Writes the listing of a script to `output`, what each call prints as soon as it is made, so that
/// no more room is needed however long the listing is. A writer that fails ends it with its error.
pub fn write_keys<W: Write>(script: &[u8], output: &mut W) -> Result<()>
    ensures { OnOk result (Appends (W.contents output.old) (W.contents output.new)
        (listing script.now)) }
{
    write_calls(&script[..SCRIPT_LIMIT.min(script.len())], output)
}

// The same of a script that is used to its end.
fn write_calls<W: Write>(script: &[u8], output: &mut W) -> Result<()>
    ensures { OnOk result (Appends (W.contents output.old) (W.contents output.new)
        (listing_from at_first script.now)) }
{
    let table = Table {
        keyboards: Keyboards::One,
        profile: Profile::Any,
    };
    let mut handler = KeyboardHandler::fresh(table);
    let mut left = script;
    let mut lines = [0; CALL_ROOM];
    while 0 < bytes_left(&handler, left) {
        let (called, length) = put_call(&mut handler, left, &mut lines);
        output.write_all(&lines[..length])?;
        let Some(used) = called else {
            return Ok(());
        };
        left = &left[used..];
    }
    Ok(())
}

// As `call_once`, with what the call prints put into a buffer; beside its answer, how many bytes.
fn put_call(handler: &mut KeyboardHandler, script: &[u8], out: &mut [u8]) -> (Option<usize>, usize)
    ensures used { result.0 ≡ cond (ends2_3_21 (call_on handler.old script.now).end) None
        (Some (call_on handler.old script.now).used) }
    ensures left { handler.new ≡ record_after handler.old script.now }
    ensures puts { Holds (call_text handler.old script.now) out.old result.1 out.new }
{
    let mut writer = Writer { out, next: 0 };
    let used = call_once(handler, script, &mut writer);
    (used, writer.next)
}

// How many bytes are left for calls to take: of the script, and waiting.
fn bytes_left(handler: &KeyboardHandler, script: &[u8]) -> usize
    ensures { result ≡ bytes_left handler.now script.now }
{
    script.len() + usize::from(handler.state.first.waiting.count)
}

// One handler call on what is left of the script, and the taking after it; what they print is put
// into `out`. Answers how many bytes the call used, if another is to follow.
fn call_once(handler: &mut KeyboardHandler, script: &[u8], out: &mut Writer<'_>) -> Option<usize>
    ensures used { result ≡ cond (ends2_3_21 (call_on handler.old script.now).end) None
        (Some (call_on handler.old script.now).used) }
    ensures left { handler.new ≡ record_after handler.old script.now }
    ensures puts { Puts (call_text handler.old script.now) out.old out.new }
{
    let mut log = [0u8; 16];
    let call = handle(*handler, Side::First, script, &mut log);
    let taken = take_event(call.handler);
    *handler = taken.handler;
    put_refusal(out, call.answer);
    put_taken(out, taken.event);
    (!leaves_as_passed(call.answer)).then_some(call.used)
}

// Puts the number of a refusal; an answer that is none puts nothing.
fn put_refusal(out: &mut Writer<'_>, answer: HandlerAnswer)
    ensures { Puts (refusal_line (number_ended (said_call answer))) out.old out.new }
{
    if let Err(refusal) = answer {
        out.put_text(b"refused ");
        put_decimal(out, refusal.number());
        out.put_byte(b'\n');
    }
}

// Puts the line of an event that was taken, without its side; where none was, nothing.
#[tactic(auto, using(buffer::proofs::Buffer::puts_none))]
fn put_taken(out: &mut Writer<'_>, event: TakenEvent)
    ensures { Puts (taken_line (said_taken event)) out.old out.new }
{
    if let Ok(Some(taken)) = event {
        put_event(out, taken.event);
    }
}

// Puts the line of an event: keycode, P or R, flags, character.
fn put_event(out: &mut Writer<'_>, event: KeyEvent)
    ensures { Puts (event_line event) out.old out.new }
{
    put_two_digits(out, u8::from(event.keycode));
    out.put_byte(b' ');
    put_action(out, event.action);
    out.put_byte(b' ');
    put_three_digits(out, event.modifiers.bits);
    out.put_byte(b' ');
    put_character(out, event.keycode.to_ascii(event.modifiers));
    out.put_byte(b'\n');
}

// Puts P for a press, R for a release.
fn put_action(out: &mut Writer<'_>, action: KeyAction)
    ensures { Puts (action_text action) out.old out.new }
{
    match action {
        KeyAction::Pressed => out.put_byte(b'P'),
        KeyAction::Released => out.put_byte(b'R'),
    }
}

// Puts a character's number in decimal, or - where there is none.
fn put_character(out: &mut Writer<'_>, character: Option<u8>)
    ensures { Puts (character_text character) out.old out.new }
{
    match character {
        Some(c) => put_decimal(out, c),
        None => out.put_byte(b'-'),
    }
}

// Puts a byte's number in decimal.
fn put_decimal(out: &mut Writer<'_>, n: u8)
    ensures { Puts (decimal n) out.old out.new }
{
    if 100 <= n {
        put_digit(out, n / 10 / 10);
    }
    if 10 <= n {
        put_digit(out, n / 10 % 10);
    }
    put_digit(out, n % 10);
}

// Puts a byte as two hexadecimal digits.
fn put_two_digits(out: &mut Writer<'_>, byte: u8)
    ensures { Puts (digits 16 2 byte) out.old out.new }
{
    put_digit(out, byte / 16);
    put_digit(out, byte % 16);
}

// Puts the last three hexadecimal digits of a word.
fn put_three_digits(out: &mut Writer<'_>, n: u16)
    ensures { Puts (digits 16 3 n) out.old out.new }
{
    put_digit(out, (n / 16 / 16 % 16) as u8);
    put_digit(out, (n / 16 % 16) as u8);
    put_digit(out, (n % 16) as u8);
}

// Puts a digit: 0 to 9, then A to F.
fn put_digit(out: &mut Writer<'_>, d: u8)
    requires { d < 16 }
    ensures { Puts (Text·digit d ∷ []) out.old out.new }
{
    out.put_byte(if d < 10 { b'0' + d } else { b'A' + (d - 10) });
}
