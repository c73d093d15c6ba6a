// The Rust's packets and ours, made of the same bytes: what is asked of them is answered alike.
ghost use Rattle.std.specs.Prelude.{◌≡◌};
ghost use Rattle.theseus_packet.specs.Packets.{our_packet, packet_of};

use crate::{MousePacket, MousePacket3, MousePacket4, MousePacketGeneric};
use ps2_bytes::MouseId;
use ps2_packet::{
    MousePacket as OurPacket, MousePacket3 as OurPacket3, MousePacket4 as OurPacket4,
    MousePacketGeneric as OurPacketGeneric,
};

/// All that is asked of a packet.
#[derive(Clone, Copy)]
pub struct PacketAnswers {
    pub button_left: bool,
    pub button_right: bool,
    pub button_middle: bool,
    pub always_one: u8,
    pub x_movement: i16,
    pub y_movement: i16,
    pub scroll_movement: i8,
    pub button_4: bool,
    pub button_5: bool,
}

/// What ours and the Rust answer of one packet.
#[derive(Clone, Copy)]
pub struct BothPackets {
    pub ours: PacketAnswers,
    pub rusts: PacketAnswers,
}

// The Rust's packet of a mouse with this identity, and ours.
fn rusts_packet(id: MouseId, byte1: u8, byte2: u8, byte3: u8, byte4: u8) -> MousePacket
    ensures { our_packet result ≡ packet_of id byte1 byte2 byte3 byte4 }
{
    let generic_part = MousePacketGeneric {
        byte1,
        byte2,
        byte3,
    };
    match id {
        MouseId::Zero => MousePacket::Zero(generic_part),
        MouseId::Three => MousePacket::Three(MousePacket3 {
            generic_part,
            byte4,
        }),
        MouseId::Four => MousePacket::Four(MousePacket4 {
            generic_part,
            byte4,
        }),
    }
}

fn our_packet(id: MouseId, byte1: u8, byte2: u8, byte3: u8, byte4: u8) -> OurPacket
    ensures { result ≡ packet_of id byte1 byte2 byte3 byte4 }
{
    match id {
        MouseId::Zero => OurPacket::Zero(OurPacketGeneric::from_bytes(byte1, byte2, byte3)),
        MouseId::Three => OurPacket::Three(OurPacket3::from_bytes(byte1, byte2, byte3, byte4)),
        MouseId::Four => OurPacket::Four(OurPacket4::from_bytes(byte1, byte2, byte3, byte4)),
    }
}

/// A packet of these bytes; at identity 0 the fourth is none of it.
pub fn both_packet(id: MouseId, byte1: u8, byte2: u8, byte3: u8, byte4: u8) -> BothPackets
    ensures { result.ours ≡ result.rusts }
{
    let ours = our_packet(id, byte1, byte2, byte3, byte4);
    let rusts = rusts_packet(id, byte1, byte2, byte3, byte4);
    BothPackets {
        ours: PacketAnswers {
            button_left: ours.button_left(),
            button_right: ours.button_right(),
            button_middle: ours.button_middle(),
            always_one: ours.always_one(),
            x_movement: ours.x_movement(),
            y_movement: ours.y_movement(),
            scroll_movement: ours.scroll_movement(),
            button_4: ours.button_4(),
            button_5: ours.button_5(),
        },
        rusts: PacketAnswers {
            button_left: rusts.button_left(),
            button_right: rusts.button_right(),
            button_middle: rusts.button_middle(),
            always_one: rusts.always_one(),
            x_movement: rusts.x_movement(),
            y_movement: rusts.y_movement(),
            scroll_movement: rusts.scroll_movement(),
            button_4: rusts.button_4(),
            button_5: rusts.button_5(),
        },
    }
}
