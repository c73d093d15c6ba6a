// What port operations answer, as numbers that cross to C: the refusal, the port of a lack, the
// counts, and what the operation gives.
#![tactic(auto)]

ghost use Rattle.std.specs.Prelude.{◌≡◌, ℕ};
ghost use Rattle.bits.specs.Bits.{weigh};
ghost use Rattle.ps2_bytes.specs.Data.{scancode_set_byte};
ghost use Rattle.ps2_bytes.specs.Responses.{mouse_id_byte, response_byte};
ghost use Rattle.ps2_answers.specs.Answers.{ended, used_of, pairs_of};
ghost use Rattle.port_words.specs.Told.{port_of_refusal, refusing, no_value, byte_value, type_number, told};
ghost use Rattle.port_words.specs.ToldKept.{refusing_kept, kept_numbers};
ghost use Rattle.port_words.specs.ToldPacket.{buttons_of, refusing_packet, told_packet};

use ps2_answers::{Answer, Lack, Refusal};
use ps2_bytes::{DeviceToHostResponse, KeyboardType, MouseId, ScancodeSet};
use ps2_command::Commanded;
use ps2_packet::{MousePacket, SignedPacket};

// The three structs have their counts and 0s beside the refusal, and no `Result`: C reads them.

/// What a port operation answers: the refusal, 0 where there is none; the port of the read that the
/// script was too short for, or 0; script bytes used and pairs written; and what the operation
/// gives, 0 where it gives nothing.
#[repr(C)]
#[derive(Clone, Copy)]
pub struct PortWords {
    pub refusal: u32,
    pub port: u32,
    pub used: usize,
    pub pairs: usize,
    pub value: u64,
}

/// The same of one that hands back the bytes that it threw away: the earliest, in order, in the
/// first `count` places, and how many others there were.
#[repr(C)]
#[derive(Clone, Copy)]
pub struct KeptWords {
    pub refusal: u32,
    pub port: u32,
    pub used: usize,
    pub pairs: usize,
    pub count: u32,
    pub others: u32,
    pub bytes: [u8; 16],
}

/// The same of the reading of a mouse's packet, which writes nothing: the buttons from bit 0 up are
/// left, right, middle, fourth and fifth.
#[repr(C)]
#[derive(Clone, Copy)]
pub struct PacketWords {
    pub refusal: u32,
    pub port: u32,
    pub used: usize,
    pub buttons: u32,
    pub x: i32,
    pub y: i32,
    pub wheel: i32,
}

// ---- the numbers of values

/// A value that an operation gives, as a number.
pub trait Value: Copy {
    ghost worth: { Self → ℕ };

    fn number(self) -> u64
        ensures { result ≡ worth self };
}

// Success is no value.
impl Value for () {
    ghost worth = { no_value };

    fn number(self) -> u64 {
        0
    }
}

impl Value for u8 {
    ghost worth = { byte_value };

    fn number(self) -> u64 {
        u64::from(self) // a byte is its own number
    }
}

// Of numbers wider than a byte too, each is its own.
impl Value for u64 {
    ghost worth = { λ n. n };

    fn number(self) -> u64 {
        self
    }
}

impl Value for bool {
    ghost worth = { weigh };

    fn number(self) -> u64 {
        u64::from(self) // 1 where it is so
    }
}

impl Value for ScancodeSet {
    ghost worth = { scancode_set_byte };

    fn number(self) -> u64 {
        u64::from(u8::from(self)) // the set's byte
    }
}

impl Value for MouseId {
    ghost worth = { mouse_id_byte };

    fn number(self) -> u64 {
        u64::from(u8::from(self)) // the identity's byte
    }
}

impl Value for DeviceToHostResponse {
    ghost worth = { response_byte };

    fn number(self) -> u64 {
        match self {
            DeviceToHostResponse::KeyDetectionErrorOrInternalBufferOverrun1 => 0x00,
            DeviceToHostResponse::SelfTestPassed => 0xAA,
            DeviceToHostResponse::ResponseToEcho => 0xEE,
            DeviceToHostResponse::Acknowledge => 0xFA,
            DeviceToHostResponse::SelfTestFailed1 => 0xFC,
            DeviceToHostResponse::SelfTestFailed2 => 0xFD,
            DeviceToHostResponse::ResendCommand => 0xFE,
            DeviceToHostResponse::KeyDetectionErrorOrInternalBufferOverrun2 => 0xFF,
        }
    }
}

// C's numbers of the types; a keyboard tells its own by others.
impl Value for KeyboardType {
    ghost worth = { type_number };

    fn number(self) -> u64 {
        match self {
            KeyboardType::MF2Keyboard => 1,
            KeyboardType::MF2KeyboardWithPSControllerTranslator => 2,
            KeyboardType::AncientATKeyboard => 3,
        }
    }
}

// ---- an answer and a number

/// An answer before anything is read.
pub fn refusing_words(refusal: u32) -> PortWords
    ensures { result ≡ refusing refusal }
{
    PortWords {
        refusal,
        port: 0,
        used: 0,
        pairs: 0,
        value: 0,
    }
}

// The port of a lack, and 0 where a refusal is none of a script byte.
fn port_lacked(refusal: Refusal) -> u32
    ensures { result ≡ port_of_refusal refusal }
{
    match refusal {
        Refusal::Lacking(Lack::Script(port)) => u32::from(port.number()),
        Refusal::Lacking(Lack::Log) | Refusal::Failed(_) => 0,
    }
}

/// An answer, and its value's number.
pub fn answer_words<V: Value>(answer: Answer<V>) -> PortWords
    ensures { result ≡ told V.worth (ended answer) (used_of answer) (pairs_of answer) }
{
    match answer {
        Ok(given) => PortWords {
            refusal: 0,
            port: 0,
            used: given.used,
            pairs: given.pairs,
            value: given.value.number(),
        },
        Err(refused) => PortWords {
            port: port_lacked(refused.value),
            used: refused.used,
            pairs: refused.pairs,
            ..refusing_words(u32::from(refused.value.number()))
        },
    }
}

// ---- an answer with the bytes that were thrown away

/// A refusal by its number, with nothing read, written or kept.
pub fn refusing_kept_words(refusal: u32) -> KeptWords
    ensures { result ≡ refusing_kept refusal }
{
    KeptWords {
        refusal,
        port: 0,
        used: 0,
        pairs: 0,
        count: 0,
        others: 0,
        bytes: [0; 16],
    }
}

/// What a command comes to, as numbers: 0 where it is done, and the bytes that it threw away.
pub fn commanded_words(commanded: Commanded) -> KeptWords
    ensures { result ≡ kept_numbers (ended commanded.answer) (used_of commanded.answer)
        (pairs_of commanded.answer) commanded.kept }
{
    let answer = answer_words(commanded.answer);
    let kept = commanded.kept;
    let bytes = kept.bytes;
    KeptWords {
        refusal: answer.refusal,
        port: answer.port,
        used: answer.used,
        pairs: answer.pairs,
        count: u32::from(kept.count),
        others: kept.others,
        bytes,
    }
}

// ---- a mouse's packet

/// A refusal by its number, with no packet and nothing read.
pub fn refusing_packet_words(refusal: u32) -> PacketWords
    ensures { result ≡ refusing_packet refusal }
{
    PacketWords {
        refusal,
        port: 0,
        used: 0,
        buttons: 0,
        x: 0,
        y: 0,
        wheel: 0,
    }
}

// The buttons that are pressed, a bit each.
fn buttons(packet: MousePacket) -> u32
    ensures { result ≡ buttons_of packet }
{
    let left = u32::from(packet.button_left());
    let right = u32::from(packet.button_right());
    let middle = u32::from(packet.button_middle());
    let fourth = u32::from(packet.button_4());
    let fifth = u32::from(packet.button_5());
    left + 2 * right + 4 * middle + 8 * fourth + 16 * fifth
}

/// A packet that was read, as numbers: the buttons added up, left 1, right 2, middle 4, fourth 8,
/// fifth 16.
pub fn packet_words(read: Answer<SignedPacket>) -> PacketWords
    ensures { result ≡ told_packet (ended read) (used_of read) (pairs_of read) }
{
    match read {
        Ok(packet) => PacketWords {
            refusal: 0,
            port: 0,
            used: packet.used,
            buttons: buttons(packet.value.packet),
            x: i32::from(packet.value.packet.x_movement()),
            y: i32::from(packet.value.packet.y_movement()),
            wheel: i32::from(packet.value.scroll_movement()),
        },
        Err(refused) => PacketWords {
            port: port_lacked(refused.value),
            used: refused.used,
            ..refusing_packet_words(u32::from(refused.value.number()))
        },
    }
}
