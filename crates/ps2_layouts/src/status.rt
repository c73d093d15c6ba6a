// The status register, which a read of port 64 gives.
ghost use Rattle.std.specs.Prelude.{◌≡◌};
ghost use Rattle.bits.specs.Bits.{bit, weigh};
ghost use Rattle.ps2_layouts.specs.Status.{output_buffer_full, input_buffer_full, system_flag, input_is_command, keyboard_lock, second_port_output_full, time_out_error, parity_error};

use bits::{bit_of, has};

// The bits, in the order of the Rust's fields.
const OUTPUT_BUFFER_FULL: u8 = 0;

const INPUT_BUFFER_FULL: u8 = 1;

const SYSTEM_PASSED_SELF_TEST: u8 = 2;

const INPUT_BUFFER_IS_COMMAND: u8 = 3;

const KEYBOARD_ENABLED: u8 = 4;

const MOUSE_OUTPUT_BUFFER_FULL: u8 = 5;

const TIMEOUT_ERROR: u8 = 6;

const PARITY_ERROR: u8 = 7;

/// What the controller says of its buffers.
/// OSDev Wiki, "8042 PS/2 Controller", "Status Register".
#[derive(Clone, Copy, PartialEq, Eq)]
pub struct ControllerToHostStatus {
    bits: u8,
}

// All of a byte's bits are kept, both ways.
impl From<u8> for ControllerToHostStatus {
    ghost from_gives = { λ byte status. status.bits ≡ byte };

    fn from(byte: u8) -> Self {
        ControllerToHostStatus { bits: byte }
    }
}

impl From<ControllerToHostStatus> for u8 {
    ghost from_gives = { λ status byte. byte ≡ status.bits };

    fn from(status: ControllerToHostStatus) -> u8 {
        status.bits
    }
}

// Bits are asked by masks and shifts. The system flag is the
// configuration's too, but a bit of another register.
impl ControllerToHostStatus {
    /// Must be set before port 60 is read.
    pub fn output_buffer_full(self) -> bool
        ensures { result ≡ bit output_buffer_full self.bits }
    {
        has(self.bits, OUTPUT_BUFFER_FULL)
    }

    /// Must be clear before port 60 or 64 is written.
    pub fn input_buffer_full(self) -> bool
        ensures { result ≡ bit input_buffer_full self.bits }
    {
        has(self.bits, INPUT_BUFFER_FULL)
    }

    /// Cleared on reset; set when the system passed its self test.
    pub fn system_passed_self_test(self) -> bool
        ensures { result ≡ bit system_flag self.bits }
    {
        has(self.bits, SYSTEM_PASSED_SELF_TEST)
    }

    /// 0: what was written is data for a device; 1: it is a controller command.
    pub fn input_buffer_is_command(self) -> u8
        ensures { result ≡ weigh (bit input_is_command self.bits) }
    {
        bit_of(self.bits, INPUT_BUFFER_IS_COMMAND)
    }

    /// Chipset specific; unused on modern systems.
    pub fn keyboard_enabled(self) -> bool
        ensures { result ≡ bit keyboard_lock self.bits }
    {
        has(self.bits, KEYBOARD_ENABLED)
    }

    /// Like `output_buffer_full`, for the mouse.
    pub fn mouse_output_buffer_full(self) -> bool
        ensures { result ≡ bit second_port_output_full self.bits }
    {
        has(self.bits, MOUSE_OUTPUT_BUFFER_FULL)
    }

    /// The keyboard was too late with a command or a response.
    pub fn timeout_error(self) -> bool
        ensures { result ≡ bit time_out_error self.bits }
    {
        has(self.bits, TIMEOUT_ERROR)
    }

    /// Even parity was received.
    pub fn parity_error(self) -> bool
        ensures { result ≡ bit parity_error self.bits }
    {
        has(self.bits, PARITY_ERROR)
    }
}
