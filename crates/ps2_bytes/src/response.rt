// What the controller and the devices answer, read from a byte.
#![tactic(auto, unfolding(bits::specs::Table::decode))]

ghost use Rattle.std.specs.Prelude.{◌≡◌};
ghost use Rattle.ps2_bytes.specs.Responses.{port_test_read, response_read, mouse_id_byte, mouse_id_read};

use crate::Unlisted;

// As in data.rt, each type has its own `match`: its rows are what is to be read. A case has its
// number where a byte is made of it.

/// What a port test found.
#[derive(Clone, Copy, PartialEq, Eq)]
pub enum PortTestResult {
    Passed,
    ClockLineStuckLow,
    ClockLineStuckHigh,
    DataLineStuckLow,
    DataLineStuckHigh,
}

impl TryFrom<u8> for PortTestResult {
    type Error = Unlisted;

    ghost try_from_gives = { λ byte read. read ≡ port_test_read byte };

    fn try_from(byte: u8) -> Result<Self, Unlisted> {
        match byte {
            0x00 => Ok(PortTestResult::Passed),
            0x01 => Ok(PortTestResult::ClockLineStuckLow),
            0x02 => Ok(PortTestResult::ClockLineStuckHigh),
            0x03 => Ok(PortTestResult::DataLineStuckLow),
            0x04 => Ok(PortTestResult::DataLineStuckHigh),
            _ => Err(Unlisted(byte)),
        }
    }
}

/// What a device answers to a command. Every other byte of a keyboard is a scancode; a mouse sends
/// only AA, FC, FA, its identity and packets.
#[derive(Clone, Copy, PartialEq, Eq)]
pub enum DeviceToHostResponse {
    KeyDetectionErrorOrInternalBufferOverrun1,
    /// Sent after a reset or at power up.
    SelfTestPassed,
    ResponseToEcho,
    Acknowledge,
    /// Sent after a reset or at power up.
    SelfTestFailed1,
    /// Sent after a reset or at power up.
    SelfTestFailed2,
    ResendCommand,
    KeyDetectionErrorOrInternalBufferOverrun2,
}

impl TryFrom<u8> for DeviceToHostResponse {
    type Error = Unlisted;

    ghost try_from_gives = { λ byte read. read ≡ response_read byte };

    fn try_from(byte: u8) -> Result<Self, Unlisted> {
        match byte {
            0x00 => Ok(DeviceToHostResponse::KeyDetectionErrorOrInternalBufferOverrun1),
            0xAA => Ok(DeviceToHostResponse::SelfTestPassed),
            0xEE => Ok(DeviceToHostResponse::ResponseToEcho),
            0xFA => Ok(DeviceToHostResponse::Acknowledge),
            0xFC => Ok(DeviceToHostResponse::SelfTestFailed1),
            0xFD => Ok(DeviceToHostResponse::SelfTestFailed2),
            0xFE => Ok(DeviceToHostResponse::ResendCommand),
            0xFF => Ok(DeviceToHostResponse::KeyDetectionErrorOrInternalBufferOverrun2),
            _ => Err(Unlisted(byte)),
        }
    }
}

/// A mouse's identity, which says what its packets hold.
#[derive(Clone, Copy, PartialEq, Eq)]
pub enum MouseId {
    /// No wheel.
    Zero = 0,
    /// A wheel.
    Three = 3,
    /// A wheel and buttons 4 and 5.
    Four = 4,
}

impl TryFrom<u8> for MouseId {
    type Error = Unlisted;

    ghost try_from_gives = { λ byte read. read ≡ mouse_id_read byte };

    fn try_from(byte: u8) -> Result<Self, Unlisted> {
        match byte {
            0 => Ok(MouseId::Zero),
            3 => Ok(MouseId::Three),
            4 => Ok(MouseId::Four),
            _ => Err(Unlisted(byte)),
        }
    }
}

impl From<MouseId> for u8 {
    ghost from_gives = { λ id byte. byte ≡ mouse_id_byte id };

    fn from(id: MouseId) -> u8 {
        id as u8
    }
}

/// What `keyboard_detect` recognises.
#[derive(Clone, Copy, PartialEq, Eq)]
pub enum KeyboardType {
    MF2Keyboard,
    MF2KeyboardWithPSControllerTranslator,
    AncientATKeyboard,
}
