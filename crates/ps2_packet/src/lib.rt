// Mouse packets: three bytes at identity 0, four at identities 3 and 4.
#![tactic(auto)]

ghost use Rattle.std.specs.Prelude.{◌≡◌};
ghost use Rattle.bits.specs.Bits.{bit, weigh};
ghost use Rattle.ps2_packet.specs.Packet.{
  left_button,
  right_button,
  middle_button,
  always_one,
  button4,
  button5,
  generic,
  packet3,
  packet4,
  movement,
  x_movement,
  y_movement,
  wheel3,
  wheel4,
  wheel,
  signed_wheel4,
  signed_wheel,
  common,
  side_button,
  packet_length,
};

use bits::{bit_of, has};
use ps2_bytes::MouseId;

// The bits of byte 1, in the order of the Rust's fields.
const BUTTON_LEFT: u8 = 0;

const BUTTON_RIGHT: u8 = 1;

const BUTTON_MIDDLE: u8 = 2;

const ALWAYS_ONE: u8 = 3;

const X_9TH_BIT: u8 = 4;

const Y_9TH_BIT: u8 = 5;

const X_OVERFLOW: u8 = 6;

const Y_OVERFLOW: u8 = 7;

// The bits of byte 4 at identity 4; the four below button 4 are the wheel, and the topmost of them
// is its sign where it is signed.
const WHEEL_SIGN: u8 = 3;

const BUTTON_4: u8 = 4;

const BUTTON_5: u8 = 5;

/// What every packet starts with. Its bits are asked by masks and shifts.
/// OSDev Wiki, "PS/2 Mouse".
#[derive(Clone, Copy, PartialEq, Eq)]
pub struct MousePacketGeneric {
    byte1: u8,
    byte2: u8,
    byte3: u8,
}

impl MousePacketGeneric {
    /// The packet of these three bytes, in the order in which they come.
    pub fn from_bytes(byte1: u8, byte2: u8, byte3: u8) -> Self
        ensures { result ≡ generic byte1 byte2 byte3 }
    {
        MousePacketGeneric {
            byte1,
            byte2,
            byte3,
        }
    }

    /// Bit 0 of byte 1: the left button is pressed.
    pub fn button_left(self) -> bool
        ensures { result ≡ bit left_button self.byte1 }
    {
        has(self.byte1, BUTTON_LEFT)
    }

    /// Bit 1 of byte 1: the right button is pressed.
    pub fn button_right(self) -> bool
        ensures { result ≡ bit right_button self.byte1 }
    {
        has(self.byte1, BUTTON_RIGHT)
    }

    /// Bit 2 of byte 1: the middle button is pressed.
    pub fn button_middle(self) -> bool
        ensures { result ≡ bit middle_button self.byte1 }
    {
        has(self.byte1, BUTTON_MIDDLE)
    }

    /// Bit 3 of byte 1, as 0 or 1. A byte in whose place it is 0 begins no packet.
    pub fn always_one(self) -> u8
        ensures { result ≡ weigh (bit always_one self.byte1) }
    {
        bit_of(self.byte1, ALWAYS_ONE)
    }

    /// The movement to the right, -256 to 255.
    pub fn x_movement(self) -> i16
        ensures { result ≡ x_movement self }
    {
        self.wide_x_movement() as i16
    }

    /// The movement upwards, -256 to 255.
    pub fn y_movement(self) -> i16
        ensures { result ≡ y_movement self }
    {
        self.wide_y_movement() as i16
    }

    /// The movements in the width of their sums.
    pub fn wide_x_movement(self) -> i64
        ensures { result ≡ x_movement self }
    {
        moved(self.byte1, X_OVERFLOW, X_9TH_BIT, self.byte2)
    }

    /// The movement upwards, in the width of a sum.
    pub fn wide_y_movement(self) -> i64
        ensures { result ≡ y_movement self }
    {
        moved(self.byte1, Y_OVERFLOW, Y_9TH_BIT, self.byte3)
    }
}

// A movement: `bit1to8`, or all ones on overflow, less 256 where the ninth bit is set. Byte 1 has
// these two bits where the caller says.
// Nothing is chosen: bytes by chance would mislead a choice half the time.
fn moved(byte1: u8, overflow: u8, bit9: u8, bit1to8: u8) -> i64
    ensures { result ≡ movement (bit overflow byte1) (bit bit9 byte1) bit1to8 }
{
    let ones = 255 * bit_of(byte1, overflow);
    let low = i64::from(ones | bit1to8);
    low - 256 * i64::from(bit_of(byte1, bit9))
}

/// The packet of a mouse with a wheel.
#[derive(Clone, Copy, PartialEq, Eq)]
pub struct MousePacket3 {
    generic_part: MousePacketGeneric,
    byte4: u8,
}

impl MousePacket3 {
    /// The packet of these four bytes, in the order in which they come.
    pub fn from_bytes(byte1: u8, byte2: u8, byte3: u8, byte4: u8) -> Self
        ensures { result ≡ packet3 byte1 byte2 byte3 byte4 }
    {
        MousePacket3 {
            generic_part: MousePacketGeneric::from_bytes(byte1, byte2, byte3),
            byte4,
        }
    }

    /// The wheel's movement, -128 to 127.
    pub fn scroll_movement(self) -> i8
        ensures { result ≡ wheel3 self }
    {
        self.byte4.cast_signed()
    }
}

/// The packet of a mouse with a wheel and buttons 4 and 5. Another type than the one above, as in
/// the Rust: its fourth byte means something else.
#[derive(Clone, Copy, PartialEq, Eq)]
pub struct MousePacket4 {
    generic_part: MousePacketGeneric,
    byte4: u8,
}

impl MousePacket4 {
    /// The packet of these four bytes, in the order in which they come.
    pub fn from_bytes(byte1: u8, byte2: u8, byte3: u8, byte4: u8) -> Self
        ensures { result ≡ packet4 byte1 byte2 byte3 byte4 }
    {
        MousePacket4 {
            generic_part: MousePacketGeneric::from_bytes(byte1, byte2, byte3),
            byte4,
        }
    }

    /// The wheel's movement as the Rust reads it: the low four bits of byte 4, 0 to 15.
    pub fn scroll_movement(self) -> i8
        ensures { result ≡ wheel4 self }
    {
        (self.byte4 & 0x0F) as i8
    }

    /// The wheel with its four bits signed, as the OSDev wiki has them.
    pub fn signed_scroll_movement(self) -> i8
        ensures { result ≡ signed_wheel4 self }
    {
        let unsigned = self.scroll_movement();
        if has(self.byte4, WHEEL_SIGN) {
            unsigned - 16
        } else {
            unsigned
        }
    }

    /// Bit 4 of byte 4: the fourth button is pressed.
    pub fn button_4(self) -> bool
        ensures { result ≡ bit button4 self.byte4 }
    {
        has(self.byte4, BUTTON_4)
    }

    /// Bit 5 of byte 4: the fifth button is pressed.
    pub fn button_5(self) -> bool
        ensures { result ≡ bit button5 self.byte4 }
    {
        has(self.byte4, BUTTON_5)
    }
}

/// A packet of any kind. What a kind lacks has a standard value: a wheel at rest, a button not
/// pressed.
#[derive(Clone, Copy, PartialEq, Eq)]
pub enum MousePacket {
    Zero(MousePacketGeneric),
    Three(MousePacket3),
    Four(MousePacket4),
}

// The generic part's accessors stand here too, under the Rust's names.
impl MousePacket {
    /// The first three bytes, which every packet has.
    pub fn generic_part(self) -> MousePacketGeneric
        ensures { result ≡ common self }
    {
        match self {
            MousePacket::Zero(m) => m,
            MousePacket::Three(m) => m.generic_part,
            MousePacket::Four(m) => m.generic_part,
        }
    }

    // Bit `k` of byte 4 at identity 4.
    fn side_flag(self, k: u8) -> bool
        ensures { result ≡ side_button k self }
    {
        matches!(self, MousePacket::Four(m) if has(m.byte4, k))
    }

    /// The left button is pressed.
    pub fn button_left(self) -> bool
        ensures { result ≡ bit left_button (common self).byte1 }
    {
        self.generic_part().button_left()
    }

    /// The right button is pressed.
    pub fn button_right(self) -> bool
        ensures { result ≡ bit right_button (common self).byte1 }
    {
        self.generic_part().button_right()
    }

    /// The middle button is pressed.
    pub fn button_middle(self) -> bool
        ensures { result ≡ bit middle_button (common self).byte1 }
    {
        self.generic_part().button_middle()
    }

    /// Bit 3 of byte 1, as 0 or 1.
    pub fn always_one(self) -> u8
        ensures { result ≡ weigh (bit always_one (common self).byte1) }
    {
        self.generic_part().always_one()
    }

    /// The movement to the right, -256 to 255.
    pub fn x_movement(self) -> i16
        ensures { result ≡ x_movement (common self) }
    {
        self.generic_part().x_movement()
    }

    /// The movement upwards, -256 to 255.
    pub fn y_movement(self) -> i16
        ensures { result ≡ y_movement (common self) }
    {
        self.generic_part().y_movement()
    }

    /// The wheel's movement as the Rust reads it: 0 without a wheel, -128 to 127 at identity 3, 0
    /// to 15 at 4.
    pub fn scroll_movement(self) -> i8
        ensures { result ≡ wheel self }
    {
        match self {
            MousePacket::Zero(_) => 0,
            MousePacket::Three(m) => m.scroll_movement(),
            MousePacket::Four(m) => m.scroll_movement(),
        }
    }

    /// The fourth button is pressed; never at identity 0 and 3.
    pub fn button_4(self) -> bool
        ensures { result ≡ side_button button4 self }
    {
        self.side_flag(BUTTON_4)
    }

    /// The fifth button is pressed; never at identity 0 and 3.
    pub fn button_5(self) -> bool
        ensures { result ≡ side_button button5 self }
    {
        self.side_flag(BUTTON_5)
    }
}

/// A packet whose wheel is signed at identity 4 too, as the OSDev wiki has it. All else is the
/// packet's own; `packet.scroll_movement()` is the Rust's wheel.
#[derive(Clone, Copy, PartialEq, Eq)]
pub struct SignedPacket {
    pub packet: MousePacket,
}

impl SignedPacket {
    /// The wheel's movement: 0 without a wheel, -128 to 127 at identity 3, -8 to 7 at 4.
    pub fn scroll_movement(self) -> i8
        ensures { result ≡ signed_wheel self.packet }
    {
        match self.packet {
            MousePacket::Four(m) => m.signed_scroll_movement(),
            packet => packet.scroll_movement(),
        }
    }
}

/// A packet's bytes at each identity.
pub fn packet_length(id: MouseId) -> usize
    ensures { result ≡ packet_length id }
{
    match id {
        MouseId::Zero => 3,
        MouseId::Three | MouseId::Four => 4,
    }
}
