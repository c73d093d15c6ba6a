// The mouse: its commands, its reset, its settings and the question for its identity. Script and
// log stand side by side in each call.
#![tactic(auto)]

ghost use Rattle.std.specs.Prelude.{◌≡◌};
ghost use Rattle.exchange.specs.Exchange.{play};
ghost use Rattle.exchange.specs.Answer.{refuses, and_then, refusing_as};
ghost use Rattle.exchange.specs.Repeat.{repeat};
ghost use Rattle.ps2_bytes.specs.Responses.{mouse_ids};
ghost use Rattle.ps2_ports.specs.Ports.{flush_output_buffer};
ghost use Rattle.ps2_answers.specs.Answers.{told, ReadsTold, ReadsTurn};
ghost use Rattle.ps2_kept.specs.Kept.{keeping_thrown};
ghost use Rattle.ps2_kept.specs.Promises.{PlaysKeptTold};
ghost use Rattle.ps2_polling.specs.Polling.{poll_limit};
ghost use Rattle.ps2_command.specs.Search.{poll_when, listed_turn, self_test_within};
ghost use Rattle.ps2_mouse.specs.Mouse.{command_to_mouse, mouse_command, reset_reads, reset_mouse, set_sampling_rate, set_resolution, disable_packet_streaming, enable_packet_streaming, mouse_byte_waits, mouse_id as mouse_id_rule, mouse_output_buffer_full};
ghost use Rattle.ps2_mouse.specs.Answers.{fresh_mouse, identified};
ghost use Rattle.ps2_packet_reading.specs.Reading.{read_mouse_packet, read_signed_packet};

use ps2_answers::{Answer, Counted, Failure, Refusal};
use ps2_bytes::{
    HostToDevice, HostToMouseCommand, HostToMouseCommandOrData, MouseId, MouseResolution,
    MouseSampleRate,
};
use ps2_command::{Commanded, command_by, command_pair, failing_as, read_self_test_result};
use ps2_packet::{MousePacket, SignedPacket};
use ps2_packet_reading::{read_packet, read_signed_packet};
use ps2_polling::POLL_LIMIT;
use ps2_ports::{DevicePort, flush_output_buffer, read_data, status_register};

// The most data reads of a reset: three times the polls of a search.
const RESET_READS: u32 = 196605;

/// The mouse as its record says it is. A mouse's packets go by its identity.
#[derive(Clone, Copy)]
pub struct PS2Mouse {
    pub id: MouseId,
}

impl PS2Mouse {
    /// The record of a mouse that has been asked nothing yet.
    pub fn new() -> Self
        ensures { result ≡ fresh_mouse }
    {
        PS2Mouse { id: MouseId::Zero }
    }

    /// Resets the mouse, which then says that it passed its self test and names its identity, 0.
    /// FF, then AA from the mouse, then its identity. Refused: 2 to 7, reset failed (10).
    pub fn reset(script: &[u8], log: &mut [u8]) -> Answer<()>
        ensures { told result log.new ≡ play reset_mouse script.now log.old }
    {
        let accepted = command(script, log, HostToMouseCommand::Reset)?;
        accepted.then(read_self_test_and_id(&script[accepted.used..]))
    }

    /// Sends a byte to the mouse by the command rule.
    /// D4 goes to port 64 once, before the attempts. Refused: 2 to 7.
    pub fn command_to_mouse(
        script: &[u8],
        log: &mut [u8],
        value: HostToMouseCommandOrData,
    ) -> Commanded
        ensures { PlaysKeptTold (keeping_thrown (command_to_mouse value)) script.now log.old
            result.answer log.new result.kept }
    {
        command_by(script, log, DevicePort::Port2, HostToDevice::Mouse(value))
    }

    /// Sets the mouse's sampling rate.
    /// F3 and the rate. Refused: 2, 3, rate or resolution not set (15).
    pub fn set_mouse_sampling_rate(
        script: &[u8],
        log: &mut [u8],
        value: MouseSampleRate,
    ) -> Answer<()>
        ensures { told result log.new ≡ play (set_sampling_rate value) script.now log.old }
    {
        setting(
            script,
            log,
            HostToMouseCommand::SampleRate,
            HostToMouseCommandOrData::SampleRate(value),
        )
    }

    /// Asks the mouse for its identity. Its packets are to be stopped.
    /// F2; the mouse answers its identity. Refused: 2 to 7, no set or identity (11).
    pub fn mouse_id(script: &[u8], log: &mut [u8]) -> Answer<MouseId>
        ensures { told result log.new ≡ play mouse_id_rule script.now log.old }
    {
        let accepted = command(script, log, HostToMouseCommand::GetDeviceID)?;
        accepted.then(receive_mouse_id(&script[accepted.used..]))
    }

    /// Starts the packets.
    /// F4. Refused: 2, 3, packets not started (17).
    pub fn enable_mouse_packet_streaming(script: &[u8], log: &mut [u8]) -> Answer<()>
        ensures { told result log.new ≡ play enable_packet_streaming script.now log.old }
    {
        let done = command(script, log, HostToMouseCommand::EnableDataReporting);
        failing_as(done, Failure::PacketsNotStarted)
    }

    /// Stops the packets.
    /// F5. Refused: 2, 3, packets not stopped (16).
    pub fn disable_mouse_packet_streaming(script: &[u8], log: &mut [u8]) -> Answer<()>
        ensures { told result log.new ≡ play disable_packet_streaming script.now log.old }
    {
        let done = command(script, log, HostToMouseCommand::DisableDataReporting);
        failing_as(done, Failure::PacketsNotStopped)
    }

    /// Sets the mouse's resolution.
    /// E8 and the resolution. Refused: 2, 3, rate or resolution not set (15).
    pub fn mouse_resolution(script: &[u8], log: &mut [u8], value: MouseResolution) -> Answer<()>
        ensures { told result log.new ≡ play (set_resolution value) script.now log.old }
    {
        setting(
            script,
            log,
            HostToMouseCommand::SetResolution,
            HostToMouseCommandOrData::MouseResolution(value),
        )
    }

    /// Reads the packet that a mouse of this identity sends, without asking the status. Its wheel
    /// at identity 4 is the Rust's, 0 to 15.
    /// 3 reads of port 60 at identity 0, 4 at 3 and 4. Refused: script ends (2).
    pub fn read_mouse_packet(self, script: &[u8]) -> Answer<MousePacket>
        ensures { ReadsTold (read_mouse_packet self.id) script.now result }
    {
        read_packet(self.id, script)
    }

    /// Reads the same packet with the wheel at identity 4 signed, -8 to 7. A new program should
    /// read packets by this one.
    /// 3 reads of port 60 at identity 0, 4 at 3 and 4. Refused: script ends (2).
    pub fn read_signed_packet(self, script: &[u8]) -> Answer<SignedPacket>
        ensures { ReadsTold (read_signed_packet self.id) script.now result }
    {
        read_signed_packet(self.id, script)
    }

    /// Whether there is a byte of the mouse to read. Bit 0 alone would also be set for the FA
    /// before an identity.
    /// One read of port 64. Refused: script ends (2).
    pub fn is_output_buffer_full(script: &[u8]) -> Answer<bool>
        ensures { ReadsTold mouse_output_buffer_full script.now result }
    {
        let status = status_register(script)?;
        let waits = status.value.output_buffer_full();
        let of_mouse = status.value.mouse_output_buffer_full();
        Ok(status.with(waits && of_mouse))
    }
}

// One of the mouse's commands. The bytes that were thrown away are dropped, here and below.
fn command(script: &[u8], log: &mut [u8], value: HostToMouseCommand) -> Answer<()>
    ensures { told result log.new ≡ play (mouse_command value) script.now log.old }
{
    PS2Mouse::command_to_mouse(script, log, HostToMouseCommandOrData::MouseCommand(value)).answer
}

// A command and its data, which are refused by the failure of a setting.
fn setting(
    script: &[u8],
    log: &mut [u8],
    command: HostToMouseCommand,
    value: HostToMouseCommandOrData,
) -> Answer<()>
    ensures { told result log.new
        ≡ play (refusing_as 15 (and_then (mouse_command command) (λ _. command_to_mouse value)))
        script.now log.old }
{
    let both = command_pair(
        script,
        log,
        DevicePort::Port2,
        HostToDevice::Mouse(HostToMouseCommandOrData::MouseCommand(command)),
        HostToDevice::Mouse(value),
    );
    failing_as(both.answer, Failure::RateOrResolutionNotSet)
}

// Reads data, without asking the status, until the mouse
// says that it passed its self test, and one byte more.
fn read_self_test_and_id(script: &[u8]) -> Answer<()>
    ensures { ReadsTold (and_then (self_test_within reset_reads) (λ _. flush_output_buffer))
        script.now result }
{
    let passed = read_self_test_result(script, RESET_READS)?;
    passed.then(flush_output_buffer(&script[passed.used..]))
}

// Polls until an identity comes: a bounded loop that yields it by `break`.
fn receive_mouse_id(script: &[u8]) -> Answer<MouseId>
    ensures { ReadsTold (repeat poll_limit (refuses 11)
        (poll_when mouse_byte_waits (listed_turn mouse_ids))) script.now result }
{
    let mut at = Counted::new(None);
    let mut polls = POLL_LIMIT;
    loop {
        if polls == 0 {
            break Err(at.with(Refusal::Failed(Failure::NoSetOrIdentity)));
        }
        at = at.then(poll_mouse_id(&script[at.used..]))?;
        if let Some(id) = at.value {
            break Ok(at.with(id));
        }
        polls -= 1;
    }
}

// One poll: reads data where the status says that there is a byte of the mouse.
fn poll_mouse_id(script: &[u8]) -> Answer<Option<MouseId>>
    ensures { ReadsTurn identified (poll_when mouse_byte_waits (listed_turn mouse_ids)) script.now
        result }
{
    let full = PS2Mouse::is_output_buffer_full(script)?;
    if full.value {
        let data = full.then(read_data(&script[full.used..]))?;
        Ok(data.with(listed_id(data.value)))
    } else {
        Ok(full.with(None))
    }
}

// The identity that a byte is to a poll; one that is none is thrown away.
fn listed_id(byte: u8) -> Option<MouseId>
    ensures { identified result ≡ listed_turn mouse_ids byte }
{
    MouseId::try_from(byte).ok()
}
