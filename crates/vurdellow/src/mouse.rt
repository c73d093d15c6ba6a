// The mouse's operations.
ghost use Rattle.bits.specs.Bits.{weigh};
ghost use Rattle.argument_words.specs.Arguments.{invalid_argument, identity_at};
ghost use Rattle.ps2_bytes.specs.Responses.{mouse_id_byte};
ghost use Rattle.ps2_kept.specs.Kept.{keeping_thrown};
ghost use Rattle.ps2_packet_reading.specs.Reading.{read_signed_packet};
ghost use Rattle.ps2_mouse.specs.Mouse.{mouse_command, reset_mouse, set_sampling_rate, set_resolution, disable_packet_streaming, enable_packet_streaming, mouse_id as mouse_id_rule, mouse_output_buffer_full};
ghost use Rattle.port_words.specs.Told.{refusing, no_value, told};
ghost use Rattle.port_words.specs.ToldKept.{refusing_kept, told_kept};
ghost use Rattle.port_words.specs.ToldPacket.{refusing_packet, told_packet};
ghost use Rattle.port_words.specs.Tells.{Tells, TellsReading, TellsAt, TellsReadingAt};
ghost use Rattle.mouse_words.specs.Arguments.{command_at, rate_at, resolution_at};
ghost use Rattle.mouse_words.specs.Left.{TellsLeftAt};

use mouse_words::{
    mouse_command, mouse_get_identity, mouse_read_packet, mouse_reset, mouse_set_identity,
    mouse_set_resolution, mouse_set_sampling_rate, mouse_start_packets, mouse_stop_packets,
    mouse_waits,
};
use port_words::{KeptWords, PacketWords, PortWords};

/// Resets the mouse.
#[unsafe(no_mangle)]
pub extern "C" fn vd_mouse_reset(script: &[u8], log: &mut [u8]) -> PortWords
    ensures { Tells (told no_value) reset_mouse script.now log.old result log.new }
{
    mouse_reset(script, log)
}

/// Starts the packets.
#[unsafe(no_mangle)]
pub extern "C" fn vd_mouse_start_packets(script: &[u8], log: &mut [u8]) -> PortWords
    ensures { Tells (told no_value) enable_packet_streaming script.now log.old result log.new }
{
    mouse_start_packets(script, log)
}

/// Stops the packets.
#[unsafe(no_mangle)]
pub extern "C" fn vd_mouse_stop_packets(script: &[u8], log: &mut [u8]) -> PortWords
    ensures { Tells (told no_value) disable_packet_streaming script.now log.old result log.new }
{
    mouse_stop_packets(script, log)
}

/// Asks the mouse for its identity: 0, 3 or 4.
#[unsafe(no_mangle)]
pub extern "C" fn vd_mouse_get_identity(script: &[u8], log: &mut [u8]) -> PortWords
    ensures { Tells (told mouse_id_byte) mouse_id_rule script.now log.old result log.new }
{
    mouse_get_identity(script, log)
}

/// Sets the identity of a record that has this one to the highest that the mouse takes on. The
/// value is the identity of the record that is left, after a refusal too.
#[unsafe(no_mangle)]
pub extern "C" fn vd_mouse_set_identity(identity: u32, script: &[u8], log: &mut [u8]) -> PortWords
    ensures { TellsLeftAt (identity_at identity) script.now log.old result log.new }
{
    mouse_set_identity(identity, script, log)
}

/// Sends a command to the mouse.
#[unsafe(no_mangle)]
pub extern "C" fn vd_mouse_command(byte: u32, script: &[u8], log: &mut [u8]) -> KeptWords
    ensures { TellsAt (refusing_kept invalid_argument) told_kept
        (λ c. keeping_thrown (mouse_command c)) (command_at byte) script.now log.old result
        log.new }
{
    mouse_command(byte, script, log)
}

/// Sets the mouse's sampling rate.
#[unsafe(no_mangle)]
pub extern "C" fn vd_mouse_set_sampling_rate(rate: u32, script: &[u8], log: &mut [u8]) -> PortWords
    ensures { TellsAt (refusing invalid_argument) (told no_value) set_sampling_rate (rate_at rate)
        script.now log.old result log.new }
{
    mouse_set_sampling_rate(rate, script, log)
}

/// Sets the mouse's resolution.
#[unsafe(no_mangle)]
pub extern "C" fn vd_mouse_set_resolution(
    resolution: u32,
    script: &[u8],
    log: &mut [u8],
) -> PortWords
    ensures { TellsAt (refusing invalid_argument) (told no_value) set_resolution
        (resolution_at resolution) script.now log.old result log.new }
{
    mouse_set_resolution(resolution, script, log)
}

/// Whether there is a byte of the mouse to read: 1 where there is.
#[unsafe(no_mangle)]
pub extern "C" fn vd_mouse_waits(script: &[u8]) -> PortWords
    ensures { TellsReading (told weigh) mouse_output_buffer_full script.now result }
{
    mouse_waits(script)
}

/// Reads the packet that a mouse of this identity sends, its wheel signed.
#[unsafe(no_mangle)]
pub extern "C" fn vd_mouse_read_packet(identity: u32, script: &[u8]) -> PacketWords
    ensures { TellsReadingAt (refusing_packet invalid_argument) told_packet read_signed_packet
        (identity_at identity) script.now result }
{
    mouse_read_packet(identity, script)
}
