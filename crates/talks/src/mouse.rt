// The mouse: its commands, its reset, its settings, its identity.
ghost use Rattle.std.specs.Prelude.{◌≡◌};
ghost use Rattle.talks.specs.Heard.{by, heard};
ghost use Rattle.talks.specs.Mouse as talk;
ghost use Rattle.talks.specs.Mouse.{identity_said, read_or as read_or_rule};

use crate::commands::{command_by, command_pair, read_data, read_status, seek, self_test};
use crate::{Partner, Stop, failing_as, tried};
use ps2_answers::Failure;
use ps2_bytes::{
    HostToDevice, HostToMouseCommand, HostToMouseCommandOrData, MouseId, MouseResolution,
    MouseSampleRate,
};
use ps2_layouts::ControllerToHostStatus;
use ps2_packet::{MousePacket, MousePacket3, MousePacket4, MousePacketGeneric, SignedPacket};
use ps2_ports::DevicePort;
use questions::{FURTHER_POLLS, Sought};

// The data reads of a reset, behind the first.
const FURTHER_RESET_READS: u32 = 196604;

/// An answer, with the mouse's identity as it is left.
#[derive(Clone, Copy)]
pub struct IdentityLeft {
    pub answer: Result<(), Failure>,
    pub id: MouseId,
}

/// One of the mouse's commands.
pub fn mouse_command<P: Partner>(partner: &mut P, value: HostToMouseCommand) -> Result<(), Stop>
    ensures { by result partner.new ≡ heard P.replies (talk.mouse_command value) partner.old }
{
    command_by(
        partner,
        DevicePort::Port2,
        HostToDevice::Mouse(HostToMouseCommandOrData::MouseCommand(value)),
    )
}

/// Resets the mouse, which then says that it passed its self test and names its identity.
#[tactic(auto, unfolding(crate::specs::Mouse::reset_mouse, crate::specs::Heard::heard))]
pub fn reset_mouse<P: Partner>(partner: &mut P) -> Result<(), Stop>
    ensures { by result partner.new ≡ heard P.replies talk.reset_mouse partner.old }
{
    mouse_command(partner, HostToMouseCommand::Reset)?;
    self_test(partner, FURTHER_RESET_READS)?;
    read_data(partner)?;
    Ok(())
}

// A command and its data.
#[tactic(auto, unfolding(crate::specs::Mouse::setting, crate::specs::Heard::heard))]
fn setting<P: Partner>(
    partner: &mut P,
    command: HostToMouseCommand,
    value: HostToMouseCommandOrData,
) -> Result<(), Stop>
    ensures { by result partner.new ≡ heard P.replies (talk.setting command value) partner.old }
{
    let answer = command_pair(
        partner,
        DevicePort::Port2,
        HostToDevice::Mouse(HostToMouseCommandOrData::MouseCommand(command)),
        HostToDevice::Mouse(value),
    );
    failing_as(answer, Failure::RateOrResolutionNotSet)
}

/// Sets the mouse's sampling rate.
#[tactic(auto, unfolding(crate::specs::Mouse::set_sampling_rate))]
pub fn set_sampling_rate<P: Partner>(partner: &mut P, rate: MouseSampleRate) -> Result<(), Stop>
    ensures { by result partner.new ≡ heard P.replies (talk.set_sampling_rate rate) partner.old }
{
    setting(
        partner,
        HostToMouseCommand::SampleRate,
        HostToMouseCommandOrData::SampleRate(rate),
    )
}

/// Sets the mouse's resolution.
#[tactic(auto, unfolding(crate::specs::Mouse::set_resolution))]
pub fn set_resolution<P: Partner>(partner: &mut P, resolution: MouseResolution) -> Result<(), Stop>
    ensures { by result partner.new ≡ heard P.replies (talk.set_resolution resolution) partner.old }
{
    setting(
        partner,
        HostToMouseCommand::SetResolution,
        HostToMouseCommandOrData::MouseResolution(resolution),
    )
}

/// Stops the packets.
#[tactic(auto, unfolding(crate::specs::Mouse::disable_packet_streaming, crate::specs::Heard::heard))]
pub fn disable_packet_streaming<P: Partner>(partner: &mut P) -> Result<(), Stop>
    ensures { by result partner.new ≡ heard P.replies talk.disable_packet_streaming partner.old }
{
    let answer = mouse_command(partner, HostToMouseCommand::DisableDataReporting);
    failing_as(answer, Failure::PacketsNotStopped)
}

/// Starts the packets.
#[tactic(auto, unfolding(crate::specs::Mouse::enable_packet_streaming, crate::specs::Heard::heard))]
pub fn enable_packet_streaming<P: Partner>(partner: &mut P) -> Result<(), Stop>
    ensures { by result partner.new ≡ heard P.replies talk.enable_packet_streaming partner.old }
{
    let answer = mouse_command(partner, HostToMouseCommand::EnableDataReporting);
    failing_as(answer, Failure::PacketsNotStarted)
}

// A byte as a mouse's identity.
fn identity_of(byte: u8) -> Result<MouseId, Stop>
    ensures { result ≡ identity_said byte }
{
    match MouseId::try_from(byte) {
        Ok(id) => Ok(id),
        Err(_) => Err(Stop::Refused(Failure::NoSetOrIdentity)),
    }
}

/// Asks the mouse for its identity. Its packets are to be stopped.
#[tactic(auto, unfolding(crate::specs::Mouse::mouse_id, crate::specs::Heard::heard))]
pub fn mouse_id<P: Partner>(partner: &mut P) -> Result<MouseId, Stop>
    ensures { by result partner.new ≡ heard P.replies talk.mouse_id partner.old }
{
    mouse_command(partner, HostToMouseCommand::GetDeviceID)?;
    let byte = seek(
        partner,
        Sought::MouseIdentity,
        FURTHER_POLLS,
        Failure::NoSetOrIdentity,
    )?;
    identity_of(byte)
}

/// Whether there is a byte of the mouse to read.
#[tactic(auto, unfolding(crate::specs::Mouse::mouse_waits, crate::specs::Heard::heard))]
pub fn mouse_waits<P: Partner>(partner: &mut P) -> Result<bool, Stop>
    ensures { by result partner.new ≡ heard P.replies talk.mouse_waits partner.old }
{
    let status = ControllerToHostStatus::from(read_status(partner)?);
    let waits = status.output_buffer_full();
    let of_mouse = status.mouse_output_buffer_full();
    Ok(waits && of_mouse)
}

// What follows a packet's first three bytes: at identity 0 nothing, at 3 and 4 a fourth.
#[tactic(auto, unfolding(crate::specs::Heard::heard))]
fn after_three<P: Partner>(
    partner: &mut P,
    id: MouseId,
    byte1: u8,
    byte2: u8,
    byte3: u8,
) -> Result<SignedPacket, Stop>
    ensures { by result partner.new
        ≡ heard P.replies (talk.after_three id byte1 byte2 byte3) partner.old }
{
    let packet = match id {
        MouseId::Zero => MousePacket::Zero(MousePacketGeneric::from_bytes(byte1, byte2, byte3)),
        MouseId::Three => {
            let byte4 = read_data(partner)?;
            MousePacket::Three(MousePacket3::from_bytes(byte1, byte2, byte3, byte4))
        }
        MouseId::Four => {
            let byte4 = read_data(partner)?;
            MousePacket::Four(MousePacket4::from_bytes(byte1, byte2, byte3, byte4))
        }
    };
    Ok(SignedPacket { packet })
}

/// Reads the packet that a mouse of this identity sends, without asking the status.
/// 3 reads of port 60 at identity 0, 4 at 3 and 4.
#[tactic(auto, unfolding(crate::specs::Mouse::read_packet, crate::specs::Heard::heard))]
pub fn read_packet<P: Partner>(partner: &mut P, id: MouseId) -> Result<SignedPacket, Stop>
    ensures { by result partner.new ≡ heard P.replies (talk.read_packet id) partner.old }
{
    let byte1 = read_data(partner)?;
    let byte2 = read_data(partner)?;
    let byte3 = read_data(partner)?;
    after_three(partner, id, byte1, byte2, byte3)
}

// Sets three rates, one after another.
#[tactic(auto, unfolding(crate::specs::Mouse::set_rates, crate::specs::Heard::heard))]
fn set_rates<P: Partner>(
    partner: &mut P,
    first: MouseSampleRate,
    second: MouseSampleRate,
    third: MouseSampleRate,
) -> Result<(), Stop>
    ensures { by result partner.new
        ≡ heard P.replies (talk.set_rates first second third) partner.old }
{
    set_sampling_rate(partner, first)?;
    set_sampling_rate(partner, second)?;
    set_sampling_rate(partner, third)?;
    Ok(())
}

// Sets rates, and then asks for the identity, if it can be read.
#[tactic(auto, unfolding(crate::specs::Mouse::identity_after, crate::specs::Heard::heard))]
fn identity_after<P: Partner>(
    partner: &mut P,
    first: MouseSampleRate,
    second: MouseSampleRate,
    third: MouseSampleRate,
) -> Result<Result<MouseId, Failure>, Stop>
    ensures { by result partner.new
        ≡ heard P.replies (talk.identity_after first second third) partner.old }
{
    set_rates(partner, first, second, third)?;
    tried(mouse_id(partner))
}

// The identity that was read, or the old one.
fn read_or(old: MouseId, read: Result<MouseId, Failure>) -> MouseId
    ensures { result ≡ read_or_rule old read }
{
    match read {
        Ok(id) => id,
        Err(_) => old,
    }
}

// The rates that ask a mouse with five buttons to take on identity 4, and what it then says that it
// is; a failure to read it leaves the old one.
#[tactic(auto, unfolding(crate::specs::Mouse::button_identity, crate::specs::Heard::heard))]
fn button_identity<P: Partner>(partner: &mut P, old: MouseId) -> Result<MouseId, Stop>
    ensures { by result partner.new ≡ heard P.replies (talk.button_identity old) partner.old }
{
    let second = identity_after(
        partner,
        MouseSampleRate::_200,
        MouseSampleRate::_200,
        MouseSampleRate::_80,
    )?;
    Ok(read_or(old, second))
}

// What follows the first identity that was read; a failure to read it is forgiven.
#[tactic(auto, unfolding(crate::specs::Heard::heard))]
fn after_first<P: Partner>(
    partner: &mut P,
    old: MouseId,
    first: Result<MouseId, Failure>,
) -> Result<MouseId, Stop>
    ensures { by result partner.new ≡ heard P.replies (talk.after_first old first) partner.old }
{
    match first {
        Err(_) => Ok(old),
        Ok(MouseId::Zero) => Ok(old),
        Ok(MouseId::Three) => button_identity(partner, old),
        Ok(MouseId::Four) => Err(Stop::Refused(Failure::FirstIdentityFour)),
    }
}

// Stops the packets and looks for the identity that the mouse is to have.
#[tactic(auto, unfolding(crate::specs::Mouse::new_identity, crate::specs::Heard::heard))]
fn new_identity<P: Partner>(partner: &mut P, old: MouseId) -> Result<MouseId, Stop>
    ensures { by result partner.new ≡ heard P.replies (talk.new_identity old) partner.old }
{
    disable_packet_streaming(partner)?;
    let first = identity_after(
        partner,
        MouseSampleRate::_200,
        MouseSampleRate::_100,
        MouseSampleRate::_80,
    )?;
    after_first(partner, old, first)
}

// The same, where a failure is not the end.
#[tactic(auto, unfolding(crate::specs::Mouse::new_identity_tried, crate::specs::Heard::heard))]
fn new_identity_tried<P: Partner>(
    partner: &mut P,
    old: MouseId,
) -> Result<Result<MouseId, Failure>, Stop>
    ensures { by result partner.new ≡ heard P.replies (talk.new_identity_tried old) partner.old }
{
    let found = new_identity(partner, old);
    tried(found)
}

// Starts the packets of a mouse that is to have this identity, where it was found.
#[tactic(auto, unfolding(crate::specs::Heard::heard))]
fn start_packets<P: Partner>(
    partner: &mut P,
    old: MouseId,
    found: Result<MouseId, Failure>,
) -> Result<IdentityLeft, Stop>
    ensures { by result partner.new ≡ heard P.replies (talk.start_packets old found) partner.old }
{
    match found {
        Ok(id) => {
            let answer = tried(enable_packet_streaming(partner))?;
            Ok(IdentityLeft { answer, id })
        }
        Err(failure) => Ok(IdentityLeft {
            answer: Err(failure),
            id: old,
        }),
    }
}

/// Sets the identity to the highest that the mouse takes on: a sequence of sampling rates asks it
/// to.
/// Refused: first identity four (13), rate or resolution not set (15), packets not stopped (16),
/// packets not started (17).
#[tactic(auto, unfolding(crate::specs::Mouse::set_mouse_id, crate::specs::Heard::heard))]
pub fn set_mouse_id<P: Partner>(partner: &mut P, old: MouseId) -> Result<IdentityLeft, Stop>
    ensures { by result partner.new ≡ heard P.replies (talk.set_mouse_id old) partner.old }
{
    let found = new_identity_tried(partner, old)?;
    start_packets(partner, old, found)
}
