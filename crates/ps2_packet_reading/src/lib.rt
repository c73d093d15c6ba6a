// The reading of a mouse's packets.
#![tactic(auto)]

ghost use Rattle.std.specs.Prelude.{◌≡◌};
ghost use Rattle.exchange.specs.Exchange.{done};
ghost use Rattle.exchange.specs.Answer.{gives};
ghost use Rattle.ps2_answers.specs.Answers.{ReadsTold};
ghost use Rattle.ps2_packet_reading.specs.Reading.{three_bytes, read_mouse_packet, read_signed_packet, four_bytes, fourth_byte, after_three, first_bytes};

use ps2_answers::{Answer, Counted};
use ps2_bytes::MouseId;
use ps2_packet::{MousePacket, MousePacket3, MousePacket4, MousePacketGeneric, SignedPacket};
use ps2_ports::read_data;

// The bytes that every packet starts with.
#[derive(Clone, Copy)]
struct FirstBytes {
    byte1: u8,
    byte2: u8,
    byte3: u8,
}

// The identities whose packets have a fourth byte.
#[derive(Clone, Copy)]
enum FourByteId {
    Three,
    Four,
}

/// Reads the packet that a mouse of this identity sends, without asking the status. Its wheel at
/// identity 4 is the Rust's, 0 to 15.
/// 3 reads of port 60 at identity 0, 4 at 3 and 4. Refused: script ends (2).
pub fn read_packet(id: MouseId, script: &[u8]) -> Answer<MousePacket>
    ensures { ReadsTold (read_mouse_packet id) script.now result }
{
    let first = read_three(script)?;
    first.then(read_after_three(&script[first.used..], first.value, id))
}

/// Reads the same packet with the wheel at identity 4 signed, -8 to 7, as the OSDev wiki has it. A
/// new program should read packets by this one.
/// 3 reads of port 60 at identity 0, 4 at 3 and 4. Refused: script ends (2).
pub fn read_signed_packet(id: MouseId, script: &[u8]) -> Answer<SignedPacket>
    ensures { ReadsTold (read_signed_packet id) script.now result }
{
    let read = read_packet(id, script)?;
    Ok(read.with(SignedPacket { packet: read.value }))
}

// Three bytes of data, one after another.
fn read_three(script: &[u8]) -> Answer<FirstBytes>
    ensures { ReadsTold (three_bytes (λ b1 b2 b3. done (gives (first_bytes b1 b2 b3)))) script.now
        result }
{
    let one = read_data(script)?;
    let two = one.then(read_data(&script[one.used..]))?;
    let three = two.then(read_data(&script[two.used..]))?;
    Ok(three.with(FirstBytes {
        byte1: one.value,
        byte2: two.value,
        byte3: three.value,
    }))
}

// What follows the first three bytes: at identity 0 nothing, at 3 and 4 a fourth.
fn read_after_three(script: &[u8], first: FirstBytes, id: MouseId) -> Answer<MousePacket>
    ensures { ReadsTold (after_three id first) script.now result }
{
    match id {
        MouseId::Zero => Ok(Counted::new(MousePacket::Zero(MousePacketGeneric::from_bytes(
            first.byte1,
            first.byte2,
            first.byte3,
        )))),
        MouseId::Three => read_fourth(script, first, FourByteId::Three),
        MouseId::Four => read_fourth(script, first, FourByteId::Four),
    }
}

// The fourth byte of data, which completes the packet.
fn read_fourth(script: &[u8], first: FirstBytes, id: FourByteId) -> Answer<MousePacket>
    ensures { ReadsTold (fourth_byte id first) script.now result }
{
    let fourth = read_data(script)?;
    Ok(fourth.with(four_bytes(id, first, fourth.value)))
}

// The packet that four bytes are.
fn four_bytes(id: FourByteId, first: FirstBytes, byte4: u8) -> MousePacket
    ensures { result ≡ four_bytes id first byte4 }
{
    let FirstBytes {
        byte1,
        byte2,
        byte3,
    } = first;
    match id {
        FourByteId::Three => MousePacket::Three(MousePacket3::from_bytes(
            byte1, byte2, byte3, byte4,
        )),
        FourByteId::Four => MousePacket::Four(MousePacket4::from_bytes(byte1, byte2, byte3, byte4)),
    }
}
