// Single data bytes to the devices, and a packet with the Rust's wheel.
ghost use Rattle.std.specs.Prelude.{◌≡◌};
ghost use Rattle.argument_words.specs.Arguments.{invalid_argument, identity_at};
ghost use Rattle.ps2_answers.specs.Answers.{ended, used_of, pairs_of};
ghost use Rattle.ps2_packet_reading.specs.Reading.{read_mouse_packet};
ghost use Rattle.ps2_keyboard.specs.Keyboard.{set_scancode_set};
ghost use Rattle.port_words.specs.Told.{refusing, no_value, told};
ghost use Rattle.port_words.specs.ToldKept.{refusing_kept, told_kept};
ghost use Rattle.port_words.specs.Tells.{TellsAt, TellsReadingAt};
ghost use Rattle.keyboard_words.specs.Arguments.{lamps_at};
ghost use Rattle.mouse_words.specs.Arguments.{rate_at, resolution_at};
ghost use Rattle.test_calls.specs.Arguments.{set_at};
ghost use Rattle.test_calls.specs.Devices.{commanding_set, commanding_lamps, commanding_rate, commanding_resolution, refusing_read, told_read};

use crate::arguments::set_of;
use argument_words::{INVALID_ARGUMENT, identity_of};
use keyboard_words::lamps_of;
use mouse_words::{rate_of, resolution_of};
use port_words::{
    KeptWords, PacketWords, PortWords, answer_words, commanded_words, packet_words,
    refusing_kept_words, refusing_packet_words, refusing_words,
};
use ps2_answers::Answer;
use ps2_bytes::{HostToKeyboardCommandOrData, HostToMouseCommandOrData};
use ps2_keyboard::{command_to_keyboard, set_keyboard_scancode_set};
use ps2_mouse::PS2Mouse;
use ps2_packet::{MousePacket, SignedPacket};
use ps2_packet_reading::read_packet;

/// Sends a scancode set, 0 to 3, as a command's data byte.
#[unsafe(no_mangle)]
pub extern "C" fn vdt_keyboard_data_set(set: u32, script: &[u8], log: &mut [u8]) -> KeptWords
    ensures { TellsAt (refusing_kept invalid_argument) told_kept commanding_set (set_at set)
        script.now log.old result log.new }
{
    match set_of(set) {
        Some(known) => commanded_words(command_to_keyboard(
            script,
            log,
            HostToKeyboardCommandOrData::ScancodeSet(known),
        )),
        None => refusing_kept_words(INVALID_ARGUMENT),
    }
}

/// Sets the scancode set, 0 to 3: the library takes no 0, which asks for the set.
#[unsafe(no_mangle)]
pub extern "C" fn vdt_keyboard_set_scancode_set(
    set: u32,
    script: &[u8],
    log: &mut [u8],
) -> PortWords
    ensures { TellsAt (refusing invalid_argument) (told no_value) set_scancode_set (set_at set)
        script.now log.old result log.new }
{
    match set_of(set) {
        Some(known) => answer_words(set_keyboard_scancode_set(script, log, known)),
        None => refusing_words(INVALID_ARGUMENT),
    }
}

/// Sends lamps, 0 to 7, as a command's data byte.
#[unsafe(no_mangle)]
pub extern "C" fn vdt_keyboard_data_lamps(lamps: u32, script: &[u8], log: &mut [u8]) -> KeptWords
    ensures { TellsAt (refusing_kept invalid_argument) told_kept commanding_lamps (lamps_at lamps)
        script.now log.old result log.new }
{
    match lamps_of(lamps) {
        Some(leds) => commanded_words(command_to_keyboard(
            script,
            log,
            HostToKeyboardCommandOrData::LEDState(leds),
        )),
        None => refusing_kept_words(INVALID_ARGUMENT),
    }
}

/// Sends a sampling rate as a command's data byte.
#[unsafe(no_mangle)]
pub extern "C" fn vdt_mouse_data_rate(rate: u32, script: &[u8], log: &mut [u8]) -> KeptWords
    ensures { TellsAt (refusing_kept invalid_argument) told_kept commanding_rate (rate_at rate)
        script.now log.old result log.new }
{
    match rate_of(rate) {
        Some(known) => commanded_words(PS2Mouse::command_to_mouse(
            script,
            log,
            HostToMouseCommandOrData::SampleRate(known),
        )),
        None => refusing_kept_words(INVALID_ARGUMENT),
    }
}

/// Sends a resolution as a command's data byte.
#[unsafe(no_mangle)]
pub extern "C" fn vdt_mouse_data_resolution(
    resolution: u32,
    script: &[u8],
    log: &mut [u8],
) -> KeptWords
    ensures { TellsAt (refusing_kept invalid_argument) told_kept commanding_resolution
        (resolution_at resolution) script.now log.old result log.new }
{
    match resolution_of(resolution) {
        Some(known) => commanded_words(PS2Mouse::command_to_mouse(
            script,
            log,
            HostToMouseCommandOrData::MouseResolution(known),
        )),
        None => refusing_kept_words(INVALID_ARGUMENT),
    }
}

/// A packet as the library tells it, but for the wheel,
/// which is the Rust's: unsigned at identity 4.
/// Beside it the bit of its first byte that is always one.
#[repr(C)]
#[derive(Clone, Copy)]
pub struct RustPacketWords {
    pub packet: PacketWords,
    pub always_one: u32,
}

// What a reading of a packet answers.
fn read_words(read: Answer<MousePacket>) -> RustPacketWords
    ensures { result ≡ told_read (ended read) (used_of read) (pairs_of read) }
{
    match read {
        Ok(packet) => RustPacketWords {
            packet: PacketWords {
                wheel: i32::from(packet.value.scroll_movement()),
                ..packet_words(Ok(packet.with(SignedPacket {
                    packet: packet.value,
                })))
            },
            always_one: u32::from(packet.value.always_one()),
        },
        Err(refused) => RustPacketWords {
            packet: packet_words(Err(refused)),
            always_one: 0,
        },
    }
}

/// Reads the packet that a mouse of identity 0, 3 or 4 sends.
#[unsafe(no_mangle)]
pub extern "C" fn vdt_mouse_read_packet(identity: u32, script: &[u8]) -> RustPacketWords
    ensures { TellsReadingAt (refusing_read invalid_argument) told_read read_mouse_packet
        (identity_at identity) script.now result }
{
    match identity_of(identity) {
        Some(id) => read_words(read_packet(id, script)),
        None => RustPacketWords {
            packet: refusing_packet_words(INVALID_ARGUMENT),
            always_one: 0,
        },
    }
}
