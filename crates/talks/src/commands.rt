// Writing, waiting, searching and the command rule.
ghost use Rattle.std.specs.Prelude.{◌≡◌, Some};
ghost use Rattle.ps2_bytes.specs.Commands.{controller_byte};
ghost use Rattle.ps2_bytes.specs.declared.command.HostToControllerCommand.{HostToControllerCommand as ACommand};
ghost use Rattle.bits.specs.Table.{decode};
ghost use Rattle.ps2_bytes.specs.Responses.{responses};
ghost use Rattle.talks.specs.Heard.{by, heard};
ghost use Rattle.talks.specs.Commands as talk;
ghost use Rattle.talks.specs.Commands.{verdict as verdict_rule};

use crate::{Partner, Stop};
use ps2_answers::{Failure, ReadPort};
use ps2_bytes::{DeviceToHostResponse, HostToControllerCommand, HostToDevice};
use ps2_ports::DevicePort;
use questions::{Question, Sought};

// The attempts that a command has.
const ATTEMPTS: u8 = 4;

/// Writes a byte to a port.
#[tactic(auto, unfolding(crate::specs::Commands::write, crate::specs::Heard::heard))]
pub fn write<P: Partner>(partner: &mut P, port: ReadPort, value: u8) -> Result<(), Stop>
    ensures { by result partner.new ≡ heard P.replies (talk.write port value) partner.old }
{
    partner.ask(Question::Write(port, value))?;
    Ok(())
}

/// Writes a command to the controller.
/// One pair: port 64 and the command.
pub fn write_command<P: Partner>(
    partner: &mut P,
    command: HostToControllerCommand,
) -> Result<(), Stop>
    ensures { by result partner.new ≡ heard P.replies (talk.write_command command) partner.old }
{
    write(partner, ReadPort::Status, u8::from(command))
}

/// Waits, and fails where nothing comes that is sought.
#[tactic(auto, unfolding(crate::specs::Commands::seek, crate::specs::Heard::heard))]
pub fn seek<P: Partner>(
    partner: &mut P,
    sought: Sought,
    further: u32,
    failure: Failure,
) -> Result<u8, Stop>
    ensures { by result partner.new
        ≡ heard P.replies (talk.seek sought further failure) partner.old }
{
    match partner.ask(Question::Seek(sought, further))? {
        Some(byte) => Ok(byte),
        None => Err(Stop::Refused(failure)),
    }
}

/// Reads a byte of data, without asking the status.
/// One read of port 60.
pub fn read_data<P: Partner>(partner: &mut P) -> Result<u8, Stop>
    ensures { by result partner.new ≡ heard P.replies talk.read_data partner.old }
{
    seek(partner, Sought::Data, 0, Failure::NoResponse)
}

/// Reads the status.
pub fn read_status<P: Partner>(partner: &mut P) -> Result<u8, Stop>
    ensures { by result partner.new ≡ heard P.replies talk.read_status partner.old }
{
    seek(partner, Sought::Status, 0, Failure::NoResponse)
}

// What a response says of the command: whether it is accepted, or else another attempt is to be
// made; or why it failed.
fn verdict(response: DeviceToHostResponse) -> Result<bool, Stop>
    ensures { result ≡ talk.verdict_said response }
{
    match response {
        DeviceToHostResponse::KeyDetectionErrorOrInternalBufferOverrun1 => Ok(false),
        DeviceToHostResponse::SelfTestPassed => Ok(true),
        DeviceToHostResponse::ResponseToEcho => Ok(false),
        DeviceToHostResponse::Acknowledge => Ok(true),
        DeviceToHostResponse::SelfTestFailed1 => Err(Stop::Refused(Failure::SelfTestFailed)),
        DeviceToHostResponse::SelfTestFailed2 => Err(Stop::Refused(Failure::SelfTestFailed)),
        DeviceToHostResponse::ResendCommand => Ok(false),
        DeviceToHostResponse::KeyDetectionErrorOrInternalBufferOverrun2 => Ok(false),
    }
}

// What the byte says that an attempt is replied to by: a response its verdict, another that the
// command could not be sent.
fn answered(byte: u8) -> Result<bool, Stop>
    ensures { result ≡ talk.attempt_said (Some byte) }
{
    match DeviceToHostResponse::try_from(byte) {
        Ok(response) => verdict(response),
        Err(_) => Err(Stop::Refused(Failure::InputBufferFull)),
    }
}

// What the reply to an attempt says.
fn outcome_of(reply: Option<u8>) -> Result<bool, Stop>
    ensures { result ≡ talk.attempt_said reply }
{
    match reply {
        Some(byte) => answered(byte),
        None => Err(Stop::Refused(Failure::NoResponse)),
    }
}

// One attempt of a command.
#[tactic(auto, unfolding(crate::specs::Commands::attempt, crate::specs::Heard::heard))]
fn attempt<P: Partner>(partner: &mut P, value: HostToDevice) -> Result<bool, Stop>
    ensures { by result partner.new ≡ heard P.replies (talk.attempt value) partner.old }
{
    let reply = partner.ask(Question::Attempt(u8::from(value)))?;
    outcome_of(reply)
}

/// A command to the device of the first port, or to whichever the controller was told to send the
/// next byte to.
#[tactic(auto, unfolding(crate::specs::Commands::command, crate::specs::Heard::heard))]
pub fn command<P: Partner>(partner: &mut P, value: HostToDevice) -> Result<(), Stop>
    ensures { by result partner.new ≡ heard P.replies (talk.command value) partner.old }
{
    let mut attempts = ATTEMPTS;
    loop {
        if attempts == 0 {
            break Err(Stop::Refused(Failure::NotAcknowledged));
        }
        if attempt(partner, value)? {
            break Ok(());
        }
        attempts -= 1;
    }
}

/// A command to the device of either port.
/// At most four attempts. Refused: 4, 5, self test failed (6), not acknowledged (7).
#[tactic(auto, unfolding(crate::specs::Commands::command_by, crate::specs::Heard::heard))]
pub fn command_by<P: Partner>(
    partner: &mut P,
    port: DevicePort,
    value: HostToDevice,
) -> Result<(), Stop>
    ensures { by result partner.new ≡ heard P.replies (talk.command_by port value) partner.old }
{
    match port {
        DevicePort::Port1 => command(partner, value),
        DevicePort::Port2 => {
            write_command(
                partner,
                HostToControllerCommand::WriteByteToPort2InputBuffer,
            )?;
            command(partner, value)
        }
    }
}

/// Two commands to a device, the second only where the first was accepted.
#[tactic(auto, unfolding(crate::specs::Commands::command_pair, crate::specs::Heard::heard))]
pub fn command_pair<P: Partner>(
    partner: &mut P,
    port: DevicePort,
    first: HostToDevice,
    second: HostToDevice,
) -> Result<(), Stop>
    ensures { by result partner.new
        ≡ heard P.replies (talk.command_pair port first second) partner.old }
{
    command_by(partner, port, first)?;
    command_by(partner, port, second)
}

/// Reads data, without asking the status, until a device says that it passed its self test.
#[tactic(auto, unfolding(crate::specs::Commands::self_test, crate::specs::Heard::heard))]
pub fn self_test<P: Partner>(partner: &mut P, further: u32) -> Result<(), Stop>
    ensures { by result partner.new ≡ heard P.replies (talk.self_test further) partner.old }
{
    seek(partner, Sought::Byte(0xAA), further, Failure::ResetFailed)?;
    Ok(())
}
