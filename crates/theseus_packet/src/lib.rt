// The Rust's mouse packets once more: what `bitfield` makes of their fields, their movements, and
// what is asked of a packet of any kind.
#![tactic(auto)]

ghost use Rattle.std.specs.Prelude.{◌≡◌, ◌%◌};
ghost use Rattle.bits.specs.Bits.{bit, weigh};
ghost use Rattle.ps2_packet.specs.Signed.{less_if};
ghost use Rattle.ps2_packet.specs.Packet as Ours;
ghost use Rattle.theseus_packet.specs.Packets.{our_generic, our_packet3, our_packet4, our_packet};

use bits::{bit_of, has};

mod comparison;

pub use comparison::{BothPackets, PacketAnswers, both_packet};

#[derive(Clone, Copy)]
pub struct MousePacketGeneric {
    pub byte1: u8,
    pub byte2: u8,
    pub byte3: u8,
}

// What `bitfield` makes: a field's bits, from bit 0 of byte 1 up.
impl MousePacketGeneric {
    pub fn button_left(&self) -> bool
        ensures { result ≡ bit Ours.left_button self.now.byte1 }
    {
        has(self.byte1, 0)
    }

    pub fn button_right(&self) -> bool
        ensures { result ≡ bit Ours.right_button self.now.byte1 }
    {
        has(self.byte1, 1)
    }

    pub fn button_middle(&self) -> bool
        ensures { result ≡ bit Ours.middle_button self.now.byte1 }
    {
        has(self.byte1, 2)
    }

    pub fn always_one(&self) -> u8
        ensures { result ≡ weigh (bit Ours.always_one self.now.byte1) }
    {
        bit_of(self.byte1, 3)
    }

    fn x_9th_bit(&self) -> bool
        ensures { result ≡ bit Ours.x_sign self.now.byte1 }
    {
        has(self.byte1, 4)
    }

    fn y_9th_bit(&self) -> bool
        ensures { result ≡ bit Ours.y_sign self.now.byte1 }
    {
        has(self.byte1, 5)
    }

    fn x_overflow(&self) -> bool
        ensures { result ≡ bit Ours.x_overflow self.now.byte1 }
    {
        has(self.byte1, 6)
    }

    fn y_overflow(&self) -> bool
        ensures { result ≡ bit Ours.y_overflow self.now.byte1 }
    {
        has(self.byte1, 7)
    }

    fn x_1st_to_8th_bit(&self) -> u8
        ensures { result ≡ self.now.byte2 }
    {
        self.byte2
    }

    fn y_1st_to_8th_bit(&self) -> u8
        ensures { result ≡ self.now.byte3 }
    {
        self.byte3
    }
}

impl MousePacketGeneric {
    /// `x_1st_to_8th_bit` and `x_9th_bit` should not be accessed directly, because they're part of one signed 9-bit number
    ///
    /// Note: This handles overflow as well, although it might not happen on newer systems <https://forum.osdev.org/viewtopic.php?f=1&t=31176>
    pub fn x_movement(&self) -> i16
        ensures { result ≡ Ours.x_movement (our_generic self.now) }
    {
        let x_1st_to_8th_bit = if self.x_overflow() {
            u8::MAX
        } else {
            self.x_1st_to_8th_bit()
        };
        Self::to_2s_complement(x_1st_to_8th_bit, self.x_9th_bit())
    }

    /// `y_1st_to_8th_bit` and `y_9th_bit` should not be accessed directly, because they're part of one signed 9-bit number
    ///
    /// Note: This handles overflow as well, although it might not happen on newer systems <https://forum.osdev.org/viewtopic.php?f=1&t=31176>
    pub fn y_movement(&self) -> i16
        ensures { result ≡ Ours.y_movement (our_generic self.now) }
    {
        let y_1st_to_8th_bit = if self.y_overflow() {
            u8::MAX
        } else {
            self.y_1st_to_8th_bit()
        };
        Self::to_2s_complement(y_1st_to_8th_bit, self.y_9th_bit())
    }

    // implementation from https://wiki.osdev.org/PS/2_Mouse
    fn to_2s_complement(bit1to8: u8, bit9: bool) -> i16
        ensures { result ≡ less_if bit9 256 bit1to8 }
    {
        // to fit a 9th bit inside; we can't just convert to i16, because it would turn e.g. 255 into -1
        let unsigned = bit1to8 as u16; // 1111_1111 as u16 = 0000_0000_1111_1111

        // now convert into i16, which always gives us a positive number
        let signed = unsigned as i16; // 0000_0000_1111_1111 as i16 = 0000_0000_1111_1111

        if bit9 {
            // value is negative, produce the two's complement, correctly sign extended no matter its size
            signed - 0b1_0000_0000 // 0000_0000_1111_1111 - 1_0000_0000 = -1
        } else {
            signed
        }
    }
}

#[derive(Clone, Copy)]
pub struct MousePacket3 {
    pub generic_part: MousePacketGeneric,
    pub byte4: u8,
}

impl MousePacket3 {
    fn generic_part(&self) -> MousePacketGeneric
        ensures { result ≡ self.now.generic_part }
    {
        self.generic_part
    }

    fn z_movement(&self) -> u8
        ensures { result ≡ self.now.byte4 }
    {
        self.byte4
    }
}

impl MousePacket3 {
    //TODO: see osdev wiki, might be wrong
    /// often called `z_movement`, renamed to disambiguate
    pub fn scroll_movement(&self) -> i8
        ensures { result ≡ Ours.wheel3 (our_packet3 self.now) }
    {
        self.z_movement().cast_signed()
    }
}

// see https://wiki.osdev.org/PS/2_Mouse#5_buttons
#[derive(Clone, Copy)]
pub struct MousePacket4 {
    pub generic_part: MousePacketGeneric,
    pub byte4: u8,
}

impl MousePacket4 {
    fn generic_part(&self) -> MousePacketGeneric
        ensures { result ≡ self.now.generic_part }
    {
        self.generic_part
    }

    fn z_movement(&self) -> u8
        ensures { result ≡ self.now.byte4 % 16 }
    {
        self.byte4 & 0x0F
    }

    pub fn button_4(&self) -> bool
        ensures { result ≡ bit Ours.button4 self.now.byte4 }
    {
        has(self.byte4, 4)
    }

    pub fn button_5(&self) -> bool
        ensures { result ≡ bit Ours.button5 self.now.byte4 }
    {
        has(self.byte4, 5)
    }
}

impl MousePacket4 {
    //TODO: see osdev wiki, might be wrong
    /// often called `z_movement`, renamed to disambiguate
    pub fn scroll_movement(&self) -> i8
        ensures { result ≡ Ours.wheel4 (our_packet4 self.now) }
    {
        self.z_movement().cast_signed()
    }
}

#[derive(Clone, Copy)]
pub enum MousePacket {
    Zero(MousePacketGeneric),
    Three(MousePacket3),
    Four(MousePacket4),
}

// demultiplexes [MousePacket] and provides standard values
impl MousePacket {
    pub fn button_left(&self) -> bool
        ensures { result ≡ bit Ours.left_button (Ours.common (our_packet self.now)).byte1 }
    {
        match self {
            MousePacket::Zero(m) => m.button_left(),
            MousePacket::Three(m) => m.generic_part().button_left(),
            MousePacket::Four(m) => m.generic_part().button_left(),
        }
    }

    pub fn button_right(&self) -> bool
        ensures { result ≡ bit Ours.right_button (Ours.common (our_packet self.now)).byte1 }
    {
        match self {
            MousePacket::Zero(m) => m.button_right(),
            MousePacket::Three(m) => m.generic_part().button_right(),
            MousePacket::Four(m) => m.generic_part().button_right(),
        }
    }

    pub fn button_middle(&self) -> bool
        ensures { result ≡ bit Ours.middle_button (Ours.common (our_packet self.now)).byte1 }
    {
        match self {
            MousePacket::Zero(m) => m.button_middle(),
            MousePacket::Three(m) => m.generic_part().button_middle(),
            MousePacket::Four(m) => m.generic_part().button_middle(),
        }
    }

    pub fn always_one(&self) -> u8
        ensures { result ≡ weigh (bit Ours.always_one (Ours.common (our_packet self.now)).byte1) }
    {
        match self {
            MousePacket::Zero(m) => m.always_one(),
            MousePacket::Three(m) => m.generic_part().always_one(),
            MousePacket::Four(m) => m.generic_part().always_one(),
        }
    }

    pub fn x_movement(&self) -> i16
        ensures { result ≡ Ours.x_movement (Ours.common (our_packet self.now)) }
    {
        match self {
            MousePacket::Zero(m) => m.x_movement(),
            MousePacket::Three(m) => m.generic_part().x_movement(),
            MousePacket::Four(m) => m.generic_part().x_movement(),
        }
    }

    pub fn y_movement(&self) -> i16
        ensures { result ≡ Ours.y_movement (Ours.common (our_packet self.now)) }
    {
        match self {
            MousePacket::Zero(m) => m.y_movement(),
            MousePacket::Three(m) => m.generic_part().y_movement(),
            MousePacket::Four(m) => m.generic_part().y_movement(),
        }
    }

    pub fn scroll_movement(&self) -> i8
        ensures { result ≡ Ours.wheel (our_packet self.now) }
    {
        match self {
            MousePacket::Three(m) => m.scroll_movement(),
            MousePacket::Four(m) => m.scroll_movement(),
            _ => 0,
        }
    }

    pub fn button_4(&self) -> bool
        ensures { result ≡ Ours.side_button Ours.button4 (our_packet self.now) }
    {
        match self {
            MousePacket::Four(m) => m.button_4(),
            _ => false,
        }
    }

    pub fn button_5(&self) -> bool
        ensures { result ≡ Ours.side_button Ours.button5 (our_packet self.now) }
    {
        match self {
            MousePacket::Four(m) => m.button_5(),
            _ => false,
        }
    }
}
