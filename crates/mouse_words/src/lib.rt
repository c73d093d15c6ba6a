// The mouse's operations, by numbers: what each answers, and what the numbers of their arguments
// stand for. One function for each that C calls; script and log stand side by side.
#![tactic(auto, unfolding(bits::specs::Table::decode))]

ghost use Rattle.std.specs.Prelude.{◌≡◌};
ghost use Rattle.bits.specs.Bits.{weigh};
ghost use Rattle.argument_words.specs.Arguments.{invalid_argument, identity_at, said_found};
ghost use Rattle.ps2_bytes.specs.Responses.{mouse_id_byte};
ghost use Rattle.ps2_answers.specs.Answers.{ended, used_of, pairs_of};
ghost use Rattle.ps2_kept.specs.Kept.{keeping_thrown};
ghost use Rattle.ps2_packet_reading.specs.Reading.{read_signed_packet};
ghost use Rattle.ps2_mouse.specs.Mouse.{mouse_command, reset_mouse, set_sampling_rate, set_resolution, disable_packet_streaming, enable_packet_streaming, mouse_id as mouse_id_rule, mouse_output_buffer_full};
ghost use Rattle.port_words.specs.Told.{refusing, no_value, told};
ghost use Rattle.port_words.specs.ToldKept.{refusing_kept, told_kept};
ghost use Rattle.port_words.specs.ToldPacket.{refusing_packet, told_packet};
ghost use Rattle.port_words.specs.Tells.{Tells, TellsReading, TellsAt, TellsReadingAt};
ghost use Rattle.mouse_words.specs.Arguments.{command_at, rate_at, resolution_at};
ghost use Rattle.mouse_words.specs.Left.{left_numbers, TellsLeftAt};

use argument_words::{INVALID_ARGUMENT, identity_of};
use port_words::{
    KeptWords, PacketWords, PortWords, Value, answer_words, commanded_words, packet_words,
    refusing_kept_words, refusing_packet_words, refusing_words,
};
use ps2_bytes::{HostToMouseCommand, HostToMouseCommandOrData, MouseResolution, MouseSampleRate};
use ps2_mouse::PS2Mouse;
use ps2_mouse_identity::{MouseLeft, set_mouse_id};
use ps2_packet_reading::read_signed_packet;

// ---- arguments

// The command that a number stands for: C passes it as its byte.
fn command_of(byte: u32) -> Option<HostToMouseCommand>
    ensures { said_found result ≡ command_at byte }
{
    let byte = u8::try_from(byte).ok()?;
    HostToMouseCommand::try_from(byte).ok()
}

/// The sampling rate that a number stands for.
pub fn rate_of(rate: u32) -> Option<MouseSampleRate>
    ensures { said_found result ≡ rate_at rate }
{
    let byte = u8::try_from(rate).ok()?;
    MouseSampleRate::try_from(byte).ok()
}

/// The resolution that a number stands for.
pub fn resolution_of(resolution: u32) -> Option<MouseResolution>
    ensures { said_found result ≡ resolution_at resolution }
{
    let byte = u8::try_from(resolution).ok()?;
    MouseResolution::try_from(byte).ok()
}

// ---- answers

// An answer with the identity of the mouse's record as it is left.
fn left_words(left: MouseLeft) -> PortWords
    ensures { result ≡ left_numbers (ended left.answer) (used_of left.answer) (pairs_of left.answer)
        left.mouse }
{
    PortWords {
        value: left.mouse.id.number(),
        ..answer_words(left.answer)
    }
}

// ---- operations

/// Resets the mouse.
pub fn mouse_reset(script: &[u8], log: &mut [u8]) -> PortWords
    ensures { Tells (told no_value) reset_mouse script.now log.old result log.new }
{
    answer_words(PS2Mouse::reset(script, log))
}

/// Starts the packets.
pub fn mouse_start_packets(script: &[u8], log: &mut [u8]) -> PortWords
    ensures { Tells (told no_value) enable_packet_streaming script.now log.old result log.new }
{
    answer_words(PS2Mouse::enable_mouse_packet_streaming(script, log))
}

/// Stops the packets.
pub fn mouse_stop_packets(script: &[u8], log: &mut [u8]) -> PortWords
    ensures { Tells (told no_value) disable_packet_streaming script.now log.old result log.new }
{
    answer_words(PS2Mouse::disable_mouse_packet_streaming(script, log))
}

/// Asks the mouse for its identity: 0, 3 or 4.
pub fn mouse_get_identity(script: &[u8], log: &mut [u8]) -> PortWords
    ensures { Tells (told mouse_id_byte) mouse_id_rule script.now log.old result log.new }
{
    answer_words(PS2Mouse::mouse_id(script, log))
}

/// Sets the identity of a record that has this one to the highest that the mouse takes on. The
/// value is the identity of the record that is left, after a refusal too.
pub fn mouse_set_identity(identity: u32, script: &[u8], log: &mut [u8]) -> PortWords
    ensures { TellsLeftAt (identity_at identity) script.now log.old result log.new }
{
    match identity_of(identity) {
        Some(id) => left_words(set_mouse_id(PS2Mouse { id }, script, log)),
        None => refusing_words(INVALID_ARGUMENT),
    }
}

/// Sends a command to the mouse.
pub fn mouse_command(byte: u32, script: &[u8], log: &mut [u8]) -> KeptWords
    ensures { TellsAt (refusing_kept invalid_argument) told_kept
        (λ c. keeping_thrown (mouse_command c)) (command_at byte) script.now log.old result
        log.new }
{
    match command_of(byte) {
        Some(command) => commanded_words(PS2Mouse::command_to_mouse(
            script,
            log,
            HostToMouseCommandOrData::MouseCommand(command),
        )),
        None => refusing_kept_words(INVALID_ARGUMENT),
    }
}

/// Sets the mouse's sampling rate.
pub fn mouse_set_sampling_rate(rate: u32, script: &[u8], log: &mut [u8]) -> PortWords
    ensures { TellsAt (refusing invalid_argument) (told no_value) set_sampling_rate (rate_at rate)
        script.now log.old result log.new }
{
    match rate_of(rate) {
        Some(known) => answer_words(PS2Mouse::set_mouse_sampling_rate(script, log, known)),
        None => refusing_words(INVALID_ARGUMENT), // none of the seven
    }
}

/// Sets the mouse's resolution.
pub fn mouse_set_resolution(resolution: u32, script: &[u8], log: &mut [u8]) -> PortWords
    ensures { TellsAt (refusing invalid_argument) (told no_value) set_resolution
        (resolution_at resolution) script.now log.old result log.new }
{
    match resolution_of(resolution) {
        Some(known) => answer_words(PS2Mouse::mouse_resolution(script, log, known)),
        None => refusing_words(INVALID_ARGUMENT),
    }
}

/// Whether there is a byte of the mouse to read: 1 where there is.
pub fn mouse_waits(script: &[u8]) -> PortWords
    ensures { TellsReading (told weigh) mouse_output_buffer_full script.now result }
{
    answer_words(PS2Mouse::is_output_buffer_full(script))
}

/// Reads the packet that a mouse of this identity sends, its wheel signed.
pub fn mouse_read_packet(identity: u32, script: &[u8]) -> PacketWords
    ensures { TellsReadingAt (refusing_packet invalid_argument) told_packet read_signed_packet
        (identity_at identity) script.now result }
{
    match identity_of(identity) {
        Some(id) => packet_words(read_signed_packet(id, script)),
        None => refusing_packet_words(INVALID_ARGUMENT),
    }
}
