// `set_mouse_id`: the sequence of sampling rates that asks a mouse to take on another identity.
// Script and log stand side by side in each call.
#![tactic(auto)]

ghost use Rattle.std.specs.Prelude.{◌≡◌};
ghost use Rattle.exchange.specs.Exchange.{bind, play};
ghost use Rattle.exchange.specs.Answer.{gives, and_then};
ghost use Rattle.ps2_answers.specs.Answers.{ended, used_of, pairs_of, told, PlaysLeftTold};
ghost use Rattle.ps2_mouse.specs.Mouse.{mouse_id as mouse_id_rule};
ghost use Rattle.ps2_mouse_identity.specs.Identity.{set_rates, identity_if_read, wheel_rates, button_rates, second_identity, after_first, new_identity, start_packets, set_mouse_id};
ghost use Rattle.ps2_mouse_identity.specs.Answers.{said_mouse, identity_brought};

use ps2_answers::{Answer, Counted, Failure, Refusal, outcome};
use ps2_bytes::{MouseId, MouseSampleRate};
use ps2_mouse::PS2Mouse;

/// An answer, with the mouse's record as it is left.
/// A refusal leaves a record too.
#[derive(Clone, Copy)]
pub struct MouseLeft {
    pub answer: Answer<()>,
    pub mouse: PS2Mouse,
}

/// Sets the record's identity to the highest that the mouse takes on: a sequence of sampling rates
/// asks it to.
/// Refused: 2, 3, first identity four (13), rate or resolution not set (15), packets not stopped
/// (16), packets not started (17).
pub fn set_mouse_id(mouse: PS2Mouse, script: &[u8], log: &mut [u8]) -> MouseLeft
    ensures { PlaysLeftTold said_mouse (set_mouse_id mouse) mouse script.now log.old result.answer
        log.new result.mouse }
{
    let mut left = mouse;
    let answer = change_id(&mut left, script, log);
    MouseLeft {
        answer,
        mouse: left,
    }
}

// The same, with the record changed where it lies.
fn change_id(mouse: &mut PS2Mouse, script: &[u8], log: &mut [u8]) -> Answer<()>
    ensures { PlaysLeftTold said_mouse (set_mouse_id mouse.old) mouse.old script.now log.old result
        log.new mouse.new }
{
    let id = new_identity(script, log, mouse.id)?;
    let tail = 2 * id.pairs;
    id.then(start_packets(&script[id.used..], &mut log[tail..], mouse, id.value))
}

// Sets rates, one after another.
fn set_rates(script: &[u8], log: &mut [u8], rates: [MouseSampleRate; 3]) -> Answer<()>
    ensures { told result log.new ≡ play (set_rates rates) script.now log.old }
{
    let mut done = Counted::new(());
    for &rate in &rates {
        let tail = 2 * done.pairs;
        done = done.then(PS2Mouse::set_mouse_sampling_rate(
            &script[done.used..],
            &mut log[tail..],
            rate,
        ))?;
    }
    Ok(done)
}

// Stops the packets and looks for the identity that the mouse is to have.
fn new_identity(script: &[u8], log: &mut [u8], old: MouseId) -> Answer<MouseId>
    ensures { told result log.new ≡ play (new_identity old) script.now log.old }
{
    let stopped = PS2Mouse::disable_mouse_packet_streaming(script, log)?;
    let tail = 2 * stopped.pairs;
    stopped.then(wheel_identity(&script[stopped.used..], &mut log[tail..], old))
}

// The rates that ask a mouse with a wheel to take on identity 3, and what follows its answer; a
// failure to read it is forgiven.
fn wheel_identity(script: &[u8], log: &mut [u8], old: MouseId) -> Answer<MouseId>
    ensures { told result log.new
        ≡ play (and_then (set_rates wheel_rates)
        (λ _. bind mouse_id_rule (λ first. after_first old first))) script.now log.old }
{
    let first = identity_after(
        script,
        log,
        [
            MouseSampleRate::_200,
            MouseSampleRate::_100,
            MouseSampleRate::_80,
        ],
    )?;
    match first.value {
        None => Ok(first.with(old)),
        Some(MouseId::Zero) => Ok(first.with(old)),
        Some(MouseId::Three) => {
            let tail = 2 * first.pairs;
            first.then(button_identity(&script[first.used..], &mut log[tail..], old))
        }
        Some(MouseId::Four) => Err(first.with(Refusal::Failed(Failure::FirstIdentityFour))),
    }
}

// The rates that ask a mouse with five buttons to take on identity 4, and what it then says that it
// is; a failure to read it leaves the old one.
fn button_identity(script: &[u8], log: &mut [u8], old: MouseId) -> Answer<MouseId>
    ensures { told result log.new
        ≡ play (and_then (set_rates button_rates) (λ _. second_identity old)) script.now log.old }
{
    let second = identity_after(
        script,
        log,
        [
            MouseSampleRate::_200,
            MouseSampleRate::_200,
            MouseSampleRate::_80,
        ],
    )?;
    Ok(second.with(second.value.unwrap_or(old)))
}

// Sets rates, and then asks the mouse for its identity; what
// follows where it can't be read is for the caller to say.
fn identity_after(
    script: &[u8],
    log: &mut [u8],
    rates: [MouseSampleRate; 3],
) -> Answer<Option<MouseId>>
    ensures { told result log.new ≡ play (identity_if_read rates) script.now log.old }
{
    let set = set_rates(script, log, rates)?;
    let tail = 2 * set.pairs;
    set.then(forgiven(PS2Mouse::mouse_id(&script[set.used..], &mut log[tail..])))
}

// A failure is no identity; a lack is not forgiven.
fn forgiven(asked: Answer<MouseId>) -> Answer<Option<MouseId>>
    ensures end { ended result ≡ identity_brought (ended asked) }
    ensures used { used_of result ≡ used_of asked }
    ensures pairs { pairs_of result ≡ pairs_of asked }
{
    let id = outcome(asked)?;
    Ok(id.with(id.value.ok()))
}

// Starts the packets of a mouse that is to have this identity. Its record has it if the script and
// the log did not end before.
fn start_packets(script: &[u8], log: &mut [u8], mouse: &mut PS2Mouse, id: MouseId) -> Answer<()>
    ensures { PlaysLeftTold said_mouse (start_packets mouse.old (gives id)) mouse.old script.now
        log.old result log.new mouse.new }
{
    let started = PS2Mouse::enable_mouse_packet_streaming(script, log);
    if outcome(started).is_ok() {
        mouse.id = id;
    }
    started
}
