// The configuration byte, byte 0 of the controller's
// internal RAM: command 20 reads it, command 60 writes it.
ghost use Rattle.std.specs.Prelude.{◌≡◌};
ghost use Rattle.bits.specs.Bits.{bit, put_bit, weigh};
ghost use Rattle.ps2_layouts.specs.Configuration.{port1_interrupt, port2_interrupt, system_flag, should_be_zero, port1_clock_disabled, port2_clock_disabled, port1_translation, must_be_zero};

use crate::with;
use bits::{bit_of, has};

// The bits, in the order of the Rust's fields.
const PORT1_INTERRUPT_ENABLED: u8 = 0;

const PORT2_INTERRUPT_ENABLED: u8 = 1;

const SYSTEM_PASSED_SELF_TEST: u8 = 2;

const SHOULD_BE_ZERO: u8 = 3;

const PORT1_CLOCK_DISABLED: u8 = 4;

const PORT2_CLOCK_DISABLED: u8 = 5;

const PORT1_SCANCODE_TRANSLATION_ENABLED: u8 = 6;

const MUST_BE_ZERO: u8 = 7;

/// Features of the controller that are on or off. A setter gives the byte with one bit changed and
/// the others kept.
/// OSDev Wiki, "8042 PS/2 Controller", "PS/2 Controller Configuration Byte".
#[derive(Clone, Copy, PartialEq, Eq)]
pub struct ControllerConfigurationByte {
    bits: u8,
}

// All of a byte's bits are kept, both ways.
impl From<u8> for ControllerConfigurationByte {
    ghost from_gives = { λ byte configuration. configuration.bits ≡ byte };

    fn from(byte: u8) -> Self {
        ControllerConfigurationByte { bits: byte }
    }
}

impl From<ControllerConfigurationByte> for u8 {
    ghost from_gives = { λ configuration byte. byte ≡ configuration.bits };

    fn from(configuration: ControllerConfigurationByte) -> u8 {
        configuration.bits
    }
}

// Bits are asked and changed by masks and shifts.
impl ControllerConfigurationByte {
    /// Interrupt when the first port has a byte.
    pub fn port1_interrupt_enabled(self) -> bool
        ensures { result ≡ bit port1_interrupt self.bits }
    {
        has(self.bits, PORT1_INTERRUPT_ENABLED)
    }

    /// Interrupt when the second port has a byte.
    pub fn port2_interrupt_enabled(self) -> bool
        ensures { result ≡ bit port2_interrupt self.bits }
    {
        has(self.bits, PORT2_INTERRUPT_ENABLED)
    }

    /// Cleared on reset; set when the system passed its self test.
    pub fn system_passed_self_test(self) -> bool
        ensures { result ≡ bit system_flag self.bits }
    {
        has(self.bits, SYSTEM_PASSED_SELF_TEST)
    }

    /// Bit 3, which should be 0, as 0 or 1.
    pub fn should_be_zero(self) -> u8
        ensures { result ≡ weigh (bit should_be_zero self.bits) }
    {
        bit_of(self.bits, SHOULD_BE_ZERO)
    }

    /// Disables the keyboard.
    pub fn port1_clock_disabled(self) -> bool
        ensures { result ≡ bit port1_clock_disabled self.bits }
    {
        has(self.bits, PORT1_CLOCK_DISABLED)
    }

    /// Disables the mouse. As read at initialisation, set means that there is a second port.
    pub fn port2_clock_disabled(self) -> bool
        ensures { result ≡ bit port2_clock_disabled self.bits }
    {
        has(self.bits, PORT2_CLOCK_DISABLED)
    }

    /// The controller translates scancode set 2 to set 1.
    pub fn port1_scancode_translation_enabled(self) -> bool
        ensures { result ≡ bit port1_translation self.bits }
    {
        has(self.bits, PORT1_SCANCODE_TRANSLATION_ENABLED)
    }

    /// Bit 7, which must be 0, as 0 or 1.
    pub fn must_be_zero(self) -> u8
        ensures { result ≡ weigh (bit must_be_zero self.bits) }
    {
        bit_of(self.bits, MUST_BE_ZERO)
    }

    /// With bit 0 set or cleared: the first port interrupts.
    pub fn set_port1_interrupt_enabled(self, value: bool) -> Self
        ensures { result.bits ≡ put_bit port1_interrupt value self.bits }
    {
        ControllerConfigurationByte {
            bits: with(self.bits, PORT1_INTERRUPT_ENABLED, value),
        }
    }

    /// With bit 1 set or cleared: the second port interrupts.
    pub fn set_port2_interrupt_enabled(self, value: bool) -> Self
        ensures { result.bits ≡ put_bit port2_interrupt value self.bits }
    {
        ControllerConfigurationByte {
            bits: with(self.bits, PORT2_INTERRUPT_ENABLED, value),
        }
    }

    /// With bit 4 set or cleared: the first port's clock stands.
    pub fn set_port1_clock_disabled(self, value: bool) -> Self
        ensures { result.bits ≡ put_bit port1_clock_disabled value self.bits }
    {
        ControllerConfigurationByte {
            bits: with(self.bits, PORT1_CLOCK_DISABLED, value),
        }
    }

    /// With bit 5 set or cleared: the second port's clock stands.
    pub fn set_port2_clock_disabled(self, value: bool) -> Self
        ensures { result.bits ≡ put_bit port2_clock_disabled value self.bits }
    {
        ControllerConfigurationByte {
            bits: with(self.bits, PORT2_CLOCK_DISABLED, value),
        }
    }

    /// With bit 6 set or cleared: scancodes of set 2 become those of set 1.
    pub fn set_port1_scancode_translation_enabled(self, value: bool) -> Self
        ensures { result.bits ≡ put_bit port1_translation value self.bits }
    {
        ControllerConfigurationByte {
            bits: with(self.bits, PORT1_SCANCODE_TRANSLATION_ENABLED, value),
        }
    }
}
