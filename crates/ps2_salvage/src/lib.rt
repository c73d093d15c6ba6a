// Recorded mouse bytes, brought back into step: packets are written as bytes, and the positions of
// the bytes between them are listed.
#![tactic(auto)]

ghost use Rattle.std.specs.Prelude.{◌≡◌, length};
ghost use Rattle.ps2_bytes.specs.declared.response.MouseId.{MouseId};
ghost use Rattle.ps2_packet.specs.Packet.{packet_length};
ghost use Rattle.ps2_salvage.specs.Salvage.{refusal_number, salvaged, Leaves};

use bits::has;
use ps2_bytes::MouseId;

// The bit of a packet's first byte that is always set.
const ALWAYS_ONE: u8 = 3;

/// Why a pass ended before the recording did: a packet, or a byte to drop, found no room in its
/// output.
#[derive(Clone, Copy, Debug, PartialEq, Eq)]
pub enum SalvageRefusal {
    NoRoom = 30,
}

impl SalvageRefusal {
    /// The number of a refusal, as an answer tells it.
    pub fn number(self) -> u8
        ensures { result ≡ refusal_number self }
    {
        self as u8
    }
}

/// What a pass gives back, the counts with a refusal too: whether it came to the recording's end or
/// to a tail too short for a packet, how many bytes of the recording it used, and how much it wrote
/// to each output.
#[derive(Clone, Copy)]
pub struct Salvaged {
    pub answer: Result<(), SalvageRefusal>,
    pub used: usize,
    pub packet_bytes: usize,
    pub dropped: usize,
}

// A pass over a recording of packets of this length, byte by byte.
fn pass<const LENGTH: usize>(bytes: &[u8], packets: &mut [u8], positions: &mut [u64]) -> Salvaged
    ghost id: { MouseId }
    requires { LENGTH ≡ packet_length id }
    ensures { Leaves (salvaged id (length packets.old) (length positions.old) bytes.now) packets.old
        positions.old result packets.new positions.new }
{
    // at how many places a whole packet is there, and has room
    let starts = bytes.len().saturating_sub(LENGTH - 1);
    let rooms = packets.len().saturating_sub(LENGTH - 1);
    let mut used = 0;
    let mut packet_bytes = 0;
    let mut dropped = 0;
    let answer = 'pass: {
        while used < starts {
            if has(bytes[used], ALWAYS_ONE) {
                if rooms <= packet_bytes {
                    break 'pass Err(SalvageRefusal::NoRoom);
                }
                let packet = *bytes[used..used + LENGTH].as_array::<LENGTH>().unwrap();
                packets[packet_bytes..packet_bytes + LENGTH].copy_from_slice(&packet);
                used += LENGTH;
                packet_bytes += LENGTH;
            } else {
                if positions.len() <= dropped {
                    break 'pass Err(SalvageRefusal::NoRoom);
                }
                positions[dropped] = used as u64;
                dropped += 1;
                used += 1;
            }
        }
        // in a tail too short for a packet
        while used < bytes.len() && !has(bytes[used], ALWAYS_ONE) {
            if positions.len() <= dropped {
                break 'pass Err(SalvageRefusal::NoRoom);
            }
            positions[dropped] = used as u64;
            dropped += 1;
            used += 1;
        }
        Ok(())
    };
    Salvaged {
        answer,
        used,
        packet_bytes,
        dropped,
    }
}

/// Salvages a recording of a mouse of this identity: at a packet's start a byte with bit 3 clear is
/// dropped and its position listed, otherwise a whole packet is written.
/// A tail too short for a packet is left; what finds no room in its output ends the pass and is not
/// used. What was not written stays as it was.
/// Refused: no room (30).
pub fn salvage(id: MouseId, bytes: &[u8], packets: &mut [u8], positions: &mut [u64]) -> Salvaged
    ensures { Leaves (salvaged id (length packets.old) (length positions.old) bytes.now) packets.old
        positions.old result packets.new positions.new }
{
    // Each length has a pass of its own: the compiler knows how many bytes to move.
    match id {
        MouseId::Zero => pass::<3>(bytes, packets, positions),
        MouseId::Three | MouseId::Four => pass::<4>(bytes, packets, positions),
    }
}
