// One read and one write of the controller's ports, its registers and its configuration.
#![tactic(auto)]

ghost use Rattle.std.specs.Prelude.{◌≡◌};
ghost use Rattle.exchange.specs.Exchange.{Port, number, play};
ghost use Rattle.ps2_ports.specs.Ports.{read_port, read_data, read_status, flush_output_buffer, write_port, write_command, write_data, read_config, write_config};
ghost use Rattle.ps2_answers.specs.Answers.{told, ReadsTold, WritesTold};
ghost use Rattle.ps2_answers.specs.Refusals.{port_of};

use ps2_answers::{Answer, Counted, Lack, ReadPort, Refusal};
use ps2_bytes::{HostToControllerCommand, WritableData};
use ps2_layouts::{ControllerConfigurationByte, ControllerToHostStatus};

/// Data to and from the controller and its devices.
/// OSDev Wiki, "8042 PS/2 Controller", "PS/2 Controller IO Ports".
pub const PS2_DATA_PORT: u8 = 0x60;

/// Commands to the controller, and its status.
/// OSDev Wiki, "8042 PS/2 Controller", "PS/2 Controller IO Ports".
pub const PS2_COMMAND_AND_STATUS_PORT: u8 = 0x64;

/// The ports of the two devices.
#[derive(Clone, Copy, PartialEq, Eq)]
pub enum DevicePort {
    Port1,
    Port2,
}

// A read of either port takes the next script byte.
fn read_port(script: &[u8], port: ReadPort) -> Answer<u8>
    ensures { ReadsTold (read_port (port_of port)) script.now result }
{
    if script.len() == 0 {
        return Err(Counted::new(Refusal::Lacking(Lack::Script(port))));
    }
    Ok(Counted {
        value: script[0],
        used: 1,
        pairs: 0,
    })
}

// A write puts its pair where two bytes are free; a lone last byte of the log stays as it is.
fn write_port(log: &mut [u8], port: u8, value: u8) -> Answer<()>
    ensures { (p : Port) → port ≡ number p
        → WritesTold (write_port p value) log.old result log.new }
{
    if log.len() < 2 {
        return Err(Counted::new(Refusal::Lacking(Lack::Log)));
    }
    log[0] = port;
    log[1] = value;
    Ok(Counted {
        value: (),
        used: 0,
        pairs: 1,
    })
}

/// Writes a command to the command port.
/// One pair: port 64 and the command. Refused: log full (3).
pub fn write_command(log: &mut [u8], value: HostToControllerCommand) -> Answer<()>
    ensures { WritesTold (write_command value) log.old result log.new }
{
    write_port(log, PS2_COMMAND_AND_STATUS_PORT, u8::from(value))
}

/// Reads the configuration byte.
/// Writes 20 to port 64, and reads port 60. Refused: script ends (2), log full (3).
pub fn read_config(script: &[u8], log: &mut [u8]) -> Answer<ControllerConfigurationByte>
    ensures { told result log.new ≡ play read_config script.now log.old }
{
    let written = write_command(log, HostToControllerCommand::ReadFromInternalRAMByte0)?;
    let read = written.then(read_data(script))?;
    Ok(read.with(ControllerConfigurationByte::from(read.value)))
}

/// Writes the configuration byte.
/// Writes 60 to port 64, and the byte to port 60. Refused: log full (3).
pub fn write_config(log: &mut [u8], value: ControllerConfigurationByte) -> Answer<()>
    ensures { WritesTold (write_config value) log.old result log.new }
{
    let written = write_command(log, HostToControllerCommand::WriteToInternalRAMByte0)?;
    let at = 2 * written.pairs;
    written.then(write_data(&mut log[at..], WritableData::Configuration(value)))
}

/// Reads the status.
/// One read of port 64. Refused: script ends (2).
pub fn status_register(script: &[u8]) -> Answer<ControllerToHostStatus>
    ensures { ReadsTold read_status script.now result }
{
    let read = read_port(script, ReadPort::Status)?;
    Ok(read.with(ControllerToHostStatus::from(read.value)))
}

/// Drops one byte of data, without asking whether there is one.
/// One read of port 60. Refused: script ends (2).
pub fn flush_output_buffer(script: &[u8]) -> Answer<()>
    ensures { ReadsTold flush_output_buffer script.now result }
{
    Ok(read_data(script)?.with(()))
}

/// Reads a byte of data.
/// One read of port 60. Refused: script ends (2).
pub fn read_data(script: &[u8]) -> Answer<u8>
    ensures { ReadsTold read_data script.now result }
{
    read_port(script, ReadPort::Data)
}

/// Writes a byte of data.
/// One pair: port 60 and the byte. Refused: log full (3).
pub fn write_data(log: &mut [u8], value: WritableData) -> Answer<()>
    ensures { WritesTold (write_data value) log.old result log.new }
{
    write_port(log, PS2_DATA_PORT, u8::from(value))
}
