// The keyboard's LEDs: the byte that follows the command `SetLEDStatus`.
ghost use Rattle.std.specs.Prelude.{◌≡◌};
ghost use Rattle.bits.specs.Bits.{bit, put_bit};
ghost use Rattle.ps2_layouts.specs.Leds.{scroll_lock, number_lock, caps_lock};

use crate::with;
use bits::has;

// The LEDs' bits, in the order of the Rust's fields.
const SCROLL_LOCK: u8 = 0;

const NUMBER_LOCK: u8 = 1;

const CAPS_LOCK: u8 = 2;

/// The keyboard's LEDs, data of `SetLEDStatus`.
/// OSDev Wiki, "PS/2 Keyboard", "Commands", ED.
#[derive(Clone, Copy, PartialEq, Eq)]
pub struct LEDState {
    bits: u8,
}

// The LEDs that a byte says, all of its bits kept.
impl From<u8> for LEDState {
    ghost from_gives = { λ byte leds. leds.bits ≡ byte };

    fn from(byte: u8) -> Self {
        LEDState { bits: byte }
    }
}

impl From<LEDState> for u8 {
    ghost from_gives = { λ leds byte. byte ≡ leds.bits };

    fn from(leds: LEDState) -> u8 {
        leds.bits
    }
}

impl LEDState {
    /// All off.
    pub fn new() -> Self
        ensures { result.bits ≡ 0 }
    {
        LEDState { bits: 0 }
    }

    /// Bit 0: the lamp of Scroll Lock.
    pub fn scroll_lock(self) -> bool
        ensures { result ≡ bit scroll_lock self.bits }
    {
        has(self.bits, SCROLL_LOCK)
    }

    /// Bit 1: the lamp of Num Lock.
    pub fn number_lock(self) -> bool
        ensures { result ≡ bit number_lock self.bits }
    {
        has(self.bits, NUMBER_LOCK)
    }

    /// Bit 2: the lamp of Caps Lock.
    pub fn caps_lock(self) -> bool
        ensures { result ≡ bit caps_lock self.bits }
    {
        has(self.bits, CAPS_LOCK)
    }

    /// With the lamp of Scroll Lock on or off.
    pub fn with_scroll_lock(self, value: bool) -> Self
        ensures { result.bits ≡ put_bit scroll_lock value self.bits }
    {
        LEDState {
            bits: with(self.bits, SCROLL_LOCK, value),
        }
    }

    /// With the lamp of Num Lock on or off.
    pub fn with_number_lock(self, value: bool) -> Self
        ensures { result.bits ≡ put_bit number_lock value self.bits }
    {
        LEDState {
            bits: with(self.bits, NUMBER_LOCK, value),
        }
    }

    /// With the lamp of Caps Lock on or off.
    pub fn with_caps_lock(self, value: bool) -> Self
        ensures { result.bits ≡ put_bit caps_lock value self.bits }
    {
        LEDState {
            bits: with(self.bits, CAPS_LOCK, value),
        }
    }
}
