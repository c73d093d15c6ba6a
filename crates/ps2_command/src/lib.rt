// The command rule: a byte is sent to a device up to four times, until its response settles the
// matter. And what a reset waits for.
#![tactic(auto)]

ghost use Rattle.std.specs.Prelude.{ℕ, true, Some, None, ◌≡◌, ◌/◌, ◌<◌, ◌≤◌, ◌++◌, length, drop};
ghost use Rattle.std.specs.List.{list_any};
ghost use Rattle.exchange.specs.Exchange.{told_end, played, play};
ghost use Rattle.exchange.specs.Answer.{and_then, renumbered};
ghost use Rattle.exchange.specs.Keeping.{kept_end};
ghost use Rattle.bits.specs.Bits.{bit};
ghost use Rattle.ps2_layouts.specs.Status.{output_buffer_full};
ghost use Rattle.ps2_answers.specs.Refusals.{number_of};
ghost use Rattle.ps2_answers.specs.Answers.{ended, turn_end, used_of, pairs_of, ReadsTold};
ghost use Rattle.ps2_kept.specs.Kept.{keeping_thrown};
ghost use Rattle.ps2_kept.specs.Added.{keeping_onto};
ghost use Rattle.ps2_kept.specs.Promises.{told_kept, PlaysKeptTold};
ghost use Rattle.ps2_command.specs.Command.{command as command_rule, command_to_port2, command_by, attempt as attempt_rule, accepted, said_verdict, verdict as verdict_rule};
ghost use Rattle.ps2_polling.specs.Polling.{poll_limit};
ghost use Rattle.ps2_command.specs.Answering.{heard_within, acknowledged, TwoWritten, TwoAcknowledged};
ghost use Rattle.ps2_command.specs.Replaced.{replaced_by};
ghost use Rattle.ps2_command.specs.Search.{self_test_within};

use ps2_answers::{Answer, Counted, Failure, Refusal};
use ps2_bytes::{DeviceToHostResponse, HostToControllerCommand, HostToDevice};
use ps2_kept::{Handed, KeptBytes, none_kept};
use ps2_layouts::ControllerToHostStatus;
use ps2_polling::{POLL_LIMIT, Waiting, polling_send_receive, read_test_result};
use ps2_ports::{DevicePort, PS2_COMMAND_AND_STATUS_PORT, PS2_DATA_PORT, write_command};

// The attempts that a command has.
const ATTEMPTS: u8 = 4;

// A device's byte for a self test that it passed. The wait compares bytes: any other uses up its
// turn, listed or not.
const SELF_TEST_PASSED: u8 = 0xAA;

// A device's byte for a command that it accepts.
const ACKNOWLEDGE: u8 = 0xFA;

// How many polls' statuses are asked together.
const BLOCK: usize = 32;

/// What a command comes to, with the bytes that its whole run threw away.
pub type Commanded = Handed<()>;

// What a response says of the command: whether it is accepted,
// or else another attempt is to be made; or why it failed.
fn verdict(response: DeviceToHostResponse) -> Result<bool, Failure>
    ensures { said_verdict result ≡ verdict_rule response }
{
    match response {
        DeviceToHostResponse::KeyDetectionErrorOrInternalBufferOverrun1 => Ok(false),
        DeviceToHostResponse::SelfTestPassed => Ok(true),
        DeviceToHostResponse::ResponseToEcho => Ok(false),
        DeviceToHostResponse::Acknowledge => Ok(true),
        DeviceToHostResponse::SelfTestFailed1 => Err(Failure::SelfTestFailed),
        DeviceToHostResponse::SelfTestFailed2 => Err(Failure::SelfTestFailed),
        DeviceToHostResponse::ResendCommand => Ok(false),
        DeviceToHostResponse::KeyDetectionErrorOrInternalBufferOverrun2 => Ok(false),
    }
}

// One attempt: sends the byte, and reads the response. What is thrown away is added to the bytes
// kept before, here and below; after 2 and 3 they are of no use, and nothing is handed back.
fn attempt_once(
    script: &[u8],
    log: &mut [u8],
    value: HostToDevice,
    kept: &mut KeptBytes,
) -> Answer<bool>
    ensures { played (kept_end (turn_end accepted result) kept.new) (used_of result)
        (pairs_of result) log.new
        ≡ play (keeping_onto kept.old (attempt_rule value)) script.now log.old }
{
    let response = polling_send_receive(script, log, value, kept)?;
    response.conclude(verdict(response.value))
}

// A command to the device of the first port, or to whichever
// the controller was told to send the next byte to.
// A bounded `loop` that yields by `break`, with the log's tail lent.
fn command_onto(
    script: &[u8],
    log: &mut [u8],
    value: HostToDevice,
    kept: &mut KeptBytes,
) -> Answer<()>
    ensures { told_kept result kept.new log.new
        ≡ play (keeping_onto kept.old (command_rule value)) script.now log.old }
{
    let mut at = Counted::new(false);
    let mut attempts = ATTEMPTS;
    loop {
        if attempts == 0 {
            break Err(at.with(Refusal::Failed(Failure::NotAcknowledged)));
        }
        let tail = 2 * at.pairs;
        at = at.then(attempt_once(&script[at.used..], &mut log[tail..], value, kept))?;
        if at.value {
            break Ok(at.with(()));
        }
        attempts -= 1;
    }
}

// A command to the device of the second port: the
// controller is told once to send the next byte there.
fn command_to_port2_onto(
    script: &[u8],
    log: &mut [u8],
    value: HostToDevice,
    kept: &mut KeptBytes,
) -> Answer<()>
    ensures { told_kept result kept.new log.new
        ≡ play (keeping_onto kept.old (command_to_port2 value)) script.now log.old }
{
    let told = write_command(log, HostToControllerCommand::WriteByteToPort2InputBuffer)?;
    let tail = 2 * told.pairs;
    told.then(command_onto(script, &mut log[tail..], value, kept))
}

// A command to the device of either port.
fn command_by_onto(
    script: &[u8],
    log: &mut [u8],
    port: DevicePort,
    value: HostToDevice,
    kept: &mut KeptBytes,
) -> Answer<()>
    ensures { told_kept result kept.new log.new
        ≡ play (keeping_onto kept.old (command_by port value)) script.now log.old }
{
    match port {
        DevicePort::Port1 => command_onto(script, log, value, kept),
        DevicePort::Port2 => command_to_port2_onto(script, log, value, kept),
    }
}

// Two commands to a device, the second only where the first was accepted.
fn command_pair_keeping(
    script: &[u8],
    log: &mut [u8],
    port: DevicePort,
    first: HostToDevice,
    second: HostToDevice,
    kept: &mut KeptBytes,
) -> Answer<()>
    ensures { told_kept result kept.new log.new
        ≡ play (keeping_onto kept.old
        (and_then (command_by port first) (λ _. command_by port second))) script.now log.old }
{
    let done = command_by_onto(script, log, port, first, kept)?;
    let tail = 2 * done.pairs;
    done.then(command_by_onto(&script[done.used..], &mut log[tail..], port, second, kept))
}

/// The same, with the bytes kept before taken and given by value: they and those that the run threw
/// away, or none after 2 and 3.
pub fn command_pair_onto(
    script: &[u8],
    log: &mut [u8],
    port: DevicePort,
    first: HostToDevice,
    second: HostToDevice,
    before: KeptBytes,
) -> Commanded
    ensures { PlaysKeptTold (keeping_onto before
        (and_then (command_by port first) (λ _. command_by port second))) script.now log.old
        result.answer log.new result.kept }
{
    let mut kept = before;
    let answer = command_pair_keeping(script, log, port, first, second, &mut kept);
    Commanded {
        answer,
        kept: kept.after(answer),
    }
}

// Whether one of these statuses says that there are data.
// Joined and asked once, a silent poll takes a quarter of an instruction; asked alone, seven.
fn any_full(statuses: &[u8; BLOCK]) -> bool
    ensures { result ≡ list_any (bit output_buffer_full) statuses.now }
{
    let mut joined = 0;
    for status in statuses {
        joined |= *status;
    }
    ControllerToHostStatus::from(joined).output_buffer_full()
}

// The bytes of polls that find nothing, and of the one after them that brings FA. `None` where it
// brings another byte, or none of them brings one.
fn heard(script: &[u8]) -> Option<usize>
    ensures is { result ≡ heard_within poll_limit script.now }
    ensures within { (used : ℕ) → result ≡ Some used → used ≤ length script.now }
{
    let polls = script.len().saturating_sub(1).min(POLL_LIMIT as usize);
    let mut begin = 0;
    while begin + BLOCK <= polls {
        let block = script[begin..begin + BLOCK].as_array::<BLOCK>().unwrap();
        if any_full(block) {
            break;
        }
        begin += BLOCK;
    }
    for silent in begin..polls {
        if ControllerToHostStatus::from(script[silent]).output_buffer_full() {
            return if script[silent + 1] == ACKNOWLEDGE {
                Some(silent + 2)
            } else {
                None
            };
        }
    }
    None
}

// Whether the first poll brings FA, as it mostly does.
fn heard_at_first(script: &[u8]) -> bool
    ensures is { result ≡ true → heard_within poll_limit script.now ≡ Some 2 }
    ensures long { result ≡ true → 2 ≤ length script.now }
{
    if script.len() < 2 {
        return false;
    }
    if ControllerToHostStatus::from(script[0]).output_buffer_full() {
        return script[1] == ACKNOWLEDGE;
    }
    false
}

// The script bytes of a command that a device acknowledges before it sends any other byte, where
// the first status lets it be sent.
// `None` for any other.
fn acknowledged(script: &[u8]) -> Option<usize>
    ensures is { result ≡ acknowledged script.now }
    ensures within { (used : ℕ) → result ≡ Some used → used ≤ length script.now }
{
    let (&sent, polls) = script.split_first()?;
    if ControllerToHostStatus::from(sent).input_buffer_full() {
        return None;
    }
    if heard_at_first(polls) {
        return Some(3);
    }
    Some(1 + heard(polls)?)
}

// Puts these pairs at the start of the log where it has
// room for all of them, and tells how many they are.
fn put_pairs(log: &mut [u8], pairs: &[u8]) -> Option<usize>
    ensures fits { length pairs.now ≤ length log.old
        → (result ≡ Some (length pairs.now / 2))
        × (log.new ≡ pairs.now ++ drop (length pairs.now) log.old) }
    ensures full { length log.old < length pairs.now → (result ≡ None) × (log.new ≡ log.old) }
{
    if log.len() < pairs.len() {
        return None;
    }
    log[..pairs.len()].copy_from_slice(pairs);
    Some(pairs.len() / 2)
}

// The pairs of two bytes for the device of a port, where the log has room for all of them.
fn two_to(port: DevicePort, log: &mut [u8], first: u8, second: u8) -> Option<usize>
    ensures { TwoWritten port first second log.old result log.new }
{
    let to_port2 = [
        PS2_COMMAND_AND_STATUS_PORT,
        u8::from(HostToControllerCommand::WriteByteToPort2InputBuffer),
    ];
    let first = [PS2_DATA_PORT, first];
    let second = [PS2_DATA_PORT, second];
    match port {
        DevicePort::Port1 => put_pairs(log, [first, second].as_flattened()),
        DevicePort::Port2 => put_pairs(log, [to_port2, first, to_port2, second].as_flattened()),
    }
}

/// Two commands to a device that acknowledges both before it sends any other byte, so that nothing
/// is thrown away: the bytes used and the pairs written. For any other device, and for a log
/// without room, nothing is done, and the answer is `None`.
pub fn command_pair_acknowledged(
    script: &[u8],
    log: &mut [u8],
    port: DevicePort,
    first: HostToDevice,
    second: HostToDevice,
) -> Option<Counted<()>>
    ensures { TwoAcknowledged port (and_then (command_by port first) (λ _. command_by port second))
        script.now log.old result log.new }
{
    let once = acknowledged(script)?;
    let twice = acknowledged(&script[once..])?;
    let pairs = two_to(port, log, u8::from(first), u8::from(second))?;
    Some(Counted {
        value: (),
        used: once + twice,
        pairs,
    })
}

/// A command to the device of either port, with no byte kept before it.
/// At most four attempts. Refused: 2 to 5, self test failed (6), not acknowledged (7).
pub fn command_by(script: &[u8], log: &mut [u8], port: DevicePort, value: HostToDevice) -> Commanded
    ensures { PlaysKeptTold (keeping_thrown (command_by port value)) script.now log.old
        result.answer log.new result.kept }
{
    let mut kept = none_kept();
    let answer = command_by_onto(script, log, port, value, &mut kept);
    Commanded {
        answer,
        kept: kept.after(answer),
    }
}

/// Two commands to a device, with no byte kept before them.
pub fn command_pair(
    script: &[u8],
    log: &mut [u8],
    port: DevicePort,
    first: HostToDevice,
    second: HostToDevice,
) -> Commanded
    ensures { PlaysKeptTold (keeping_thrown
        (and_then (command_by port first) (λ _. command_by port second))) script.now log.old
        result.answer log.new result.kept }
{
    command_pair_onto(script, log, port, first, second, none_kept())
}

/// Reads data, without asking the status, until a device says that it passed its self test.
pub fn read_self_test_result(script: &[u8], reads: u32) -> Answer<()>
    ensures { ReadsTold (self_test_within reads) script.now result }
{
    read_test_result(
        script,
        Waiting::DataReads,
        SELF_TEST_PASSED,
        reads,
        Failure::ResetFailed,
    )
}

/// A refusal from inside an operation that has a failure of its own; a used-up script and a full
/// log are replaced by nothing.
pub fn refusing_as(e: Refusal, failure: Failure) -> Refusal
    ensures { result ≡ replaced_by failure e }
{
    match e {
        Refusal::Lacking(lack) => Refusal::Lacking(lack),
        Refusal::Failed(_) => Refusal::Failed(failure),
    }
}

/// The answer of an operation with its refusals replaced by one of its own.
pub fn failing_as<T: Copy>(answer: Answer<T>, failure: Failure) -> Answer<T>
    ensures end { ended result ≡ told_end (renumbered (number_of failure)) (ended answer) }
    ensures used { used_of result ≡ used_of answer }
    ensures pairs { pairs_of result ≡ pairs_of answer }
{
    match answer {
        Ok(done) => Ok(done),
        Err(refused) => Err(refused.with(refusing_as(refused.value, failure))),
    }
}
