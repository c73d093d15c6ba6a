// Sending to and receiving from a device by polling, and the controller's tests.
#![tactic(auto)]

ghost use Rattle.std.specs.Prelude.{◌≡◌};
ghost use Rattle.exchange.specs.Exchange.{play, Reads};
ghost use Rattle.exchange.specs.Answer.{gives, refuses};
ghost use Rattle.exchange.specs.Keeping.{kept_end};
ghost use Rattle.exchange.specs.Repeat.{found, repeat};
ghost use Rattle.ps2_bytes.specs.declared.command.HostToControllerCommand.TheVariants.{TestPort1, TestPort2};
ghost use Rattle.ps2_answers.specs.Refusals.{number_of};
ghost use Rattle.ps2_answers.specs.Answers.{ended, used_of, pairs_of, told, ReadsTold, ReadsTurn};
ghost use Rattle.ps2_kept.specs.Kept.{keeping_thrown};
ghost use Rattle.ps2_kept.specs.Added.{keeping_onto};
ghost use Rattle.ps2_kept.specs.Promises.{ReadsKeptTold, PlaysLentTold};
ghost use Rattle.ps2_polling.specs.Polling.{polling_send, poll_data, turn_of, passed_turn, polling_receive, polling_send_receive, controller_test_result, test_controller, port_test_result, test_port, polled};

use ps2_answers::{Answer, Counted, Failure, Refusal};
use ps2_bytes::{DeviceToHostResponse, HostToControllerCommand, HostToDevice, WritableData};
use ps2_kept::{Handed, KeptBytes, none_kept};
use ps2_ports::{read_data, status_register, write_command, write_data};

// The most status reads of a sending.
const SEND_TRIES: u8 = 255;

/// The most polls of a receiving, of a port test and of a search for a byte, and data reads of the
/// controller's test.
pub const POLL_LIMIT: u32 = 65535;

// A port's answer to its test where it passed. The wait compares bytes: any other uses up its turn,
// listed or not.
const PORT_TEST_PASSED: u8 = 0x00;

// The controller's answer to its test where it passed.
const CONTROLLER_TEST_PASSED: u8 = 0x55;

/// What one poll answers: the byte that it brought, or that there was none.
pub type Polled = Answer<Option<u8>>;

/// How a byte is waited for: by polls, or by data reads that do not ask the status.
#[derive(Clone, Copy, PartialEq, Eq)]
pub enum Waiting {
    Polls,
    DataReads,
}

/// A device's response, with the bytes that were thrown away before it.
pub type Received = Handed<DeviceToHostResponse>;

/// Has the controller test itself.
/// AA, which a controller in order answers with 55. Refused: 2, 3, controller test failed (8).
pub fn test(script: &[u8], log: &mut [u8]) -> Answer<()>
    ensures { told result log.new ≡ play test_controller script.now log.old }
{
    let written = write_command(log, HostToControllerCommand::TestController)?;
    written.then(read_controller_test_result(script))
}

/// Has the controller test the keyboard's port.
/// AB, which a port in order answers with 00. Refused: 2, 3, port test failed (9).
pub fn test_port1(script: &[u8], log: &mut [u8]) -> Answer<()>
    ensures { told result log.new ≡ play (test_port TestPort1) script.now log.old }
{
    test_port(script, log, HostToControllerCommand::TestPort1)
}

/// Has the controller test the mouse's port.
/// A9, which a port in order answers with 00. Refused: 2, 3, port test failed (9).
pub fn test_port2(script: &[u8], log: &mut [u8]) -> Answer<()>
    ensures { told result log.new ≡ play (test_port TestPort2) script.now log.old }
{
    test_port(script, log, HostToControllerCommand::TestPort2)
}

// The two port tests differ in their command alone.
fn test_port(script: &[u8], log: &mut [u8], command: HostToControllerCommand) -> Answer<()>
    ensures { told result log.new ≡ play (test_port command) script.now log.old }
{
    let written = write_command(log, command)?;
    written.then(match_port_test_result(script))
}

/// Polls until a port test's answer says that the port passed.
pub fn match_port_test_result(script: &[u8]) -> Answer<()>
    ensures { ReadsTold port_test_result script.now result }
{
    read_test_result(
        script,
        Waiting::Polls,
        PORT_TEST_PASSED,
        POLL_LIMIT,
        Failure::PortTestFailed,
    )
}

/// Reads data, without asking the status, until the controller says that it passed its test.
pub fn read_controller_test_result(script: &[u8]) -> Answer<()>
    ensures { ReadsTold controller_test_result script.now result }
{
    read_test_result(
        script,
        Waiting::DataReads,
        CONTROLLER_TEST_PASSED,
        POLL_LIMIT,
        Failure::ControllerTestFailed,
    )
}

/// Waits for the byte that says that a test was passed; any other uses up its turn.
// A bounded `loop` that yields by `break`, here and below.
pub fn read_test_result(
    script: &[u8],
    waiting: Waiting,
    passed: u8,
    turns: u32,
    failure: Failure,
) -> Answer<()>
    ensures { ReadsTold (repeat turns (refuses (number_of failure))
        (turn_of waiting (passed_turn passed))) script.now result }
{
    let mut at = Counted::new(None);
    let mut left = turns;
    loop {
        if left == 0 {
            break Err(at.with(Refusal::Failed(failure)));
        }
        at = at.then(take_turn(&script[at.used..], waiting))?;
        if at.value == Some(passed) {
            break Ok(at.with(()));
        }
        left -= 1;
    }
}

// One turn of a wait.
fn take_turn(script: &[u8], waiting: Waiting) -> Polled
    ensures { ReadsTurn polled (turn_of waiting (λ b. found (gives b))) script.now result }
{
    match waiting {
        Waiting::Polls => poll_data(script),
        Waiting::DataReads => {
            let data = read_data(script)?;
            Ok(data.with(Some(data.value)))
        }
    }
}

/// One attempt: sends a byte, then receives the response. What is thrown away is added to the bytes
/// that are lent; after 2 and 3 they are as they were lent.
pub fn polling_send_receive(
    script: &[u8],
    log: &mut [u8],
    value: HostToDevice,
    kept: &mut KeptBytes,
) -> Answer<DeviceToHostResponse>
    ensures { PlaysLentTold kept.old (polling_send_receive value) script.now log.old result log.new
        kept.new }
{
    let lent = *kept;
    let sent = polling_send(script, log, value)?;
    let received = sent.then(polling_receive_keeping(&script[sent.used..], kept));
    *kept = kept.or_lent(lent, received);
    received
}

/// Writes a byte for a device as soon as the status says that the last one was taken.
/// At most 255 reads of the status. Refused: 2, 3, input buffer full (4).
pub fn polling_send(script: &[u8], log: &mut [u8], value: HostToDevice) -> Answer<()>
    ensures { told result log.new ≡ play (polling_send value) script.now log.old }
{
    let mut at = Counted::new(());
    let mut tries = SEND_TRIES;
    loop {
        if tries == 0 {
            break Err(at.with(Refusal::Failed(Failure::InputBufferFull)));
        }
        let status = at.then(status_register(&script[at.used..]))?;
        if !status.value.input_buffer_full() {
            break status.then(write_data(log, WritableData::HostToDevice(value)));
        }
        at = status.with(());
        tries -= 1;
    }
}

/// Polls until a device's response comes; an unlisted byte is thrown away and uses up its poll. The
/// bytes that were are handed back.
/// At most 65,535 polls. Refused: 2, no response (5).
pub fn polling_receive(script: &[u8]) -> Received
    ensures { ReadsKeptTold (keeping_thrown polling_receive) script.now result.answer result.kept }
{
    let mut kept = none_kept();
    let answer = polling_receive_keeping(script, &mut kept);
    Received {
        answer,
        kept: kept.after(answer),
    }
}

// The same, with what is thrown away added where the bytes kept before lie. After 2 they are of no
// use: each caller drops them.
fn polling_receive_keeping(script: &[u8], kept: &mut KeptBytes) -> Answer<DeviceToHostResponse>
    ensures { Reads (keeping_onto kept.old polling_receive) script.now
        (kept_end (ended result) kept.new) (used_of result) (pairs_of result) }
{
    let mut at = Counted::new(None);
    let mut polls = POLL_LIMIT;
    loop {
        if polls == 0 {
            break Err(at.with(Refusal::Failed(Failure::NoResponse)));
        }
        at = at.then(poll_data(&script[at.used..]))?;
        if let Some(b) = at.value {
            if let Ok(response) = DeviceToHostResponse::try_from(b) {
                break Ok(at.with(response));
            }
            kept.add(b);
        }
        polls -= 1;
    }
}

/// One poll: reads the status, and data where the status says that there is some.
pub fn poll_data(script: &[u8]) -> Polled
    ensures { ReadsTurn polled poll_data script.now result }
{
    let status = status_register(script)?;
    if status.value.output_buffer_full() {
        let data = status.then(read_data(&script[status.used..]))?;
        Ok(data.with(Some(data.value)))
    } else {
        Ok(status.with(None))
    }
}
