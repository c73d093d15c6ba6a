// Commands: to the controller, to the keyboard and to the mouse. Each is one byte.
#![tactic(auto, unfolding(bits::specs::Table::decode))]

ghost use Rattle.std.specs.Prelude.{◌≡◌};
ghost use Rattle.ps2_bytes.specs.Commands.{controller_byte, keyboard_byte, keyboard_read, mouse_byte, mouse_read};

use crate::Unlisted;

// A device's command has its own `match`, as the types of data.rt have.

/// Commands to the controller itself, written to port 64. "Output" is what a device sends to the
/// host, "input" what it gets.
/// OSDev Wiki, "8042 PS/2 Controller", "PS/2 Controller Commands".
#[derive(Clone, Copy, PartialEq, Eq)]
pub enum HostToControllerCommand {
    /// Returns the configuration byte.
    ReadFromInternalRAMByte0 = 0x20,
    /// Sets the configuration byte.
    WriteToInternalRAMByte0 = 0x60,
    /// Sets `port2_clock_disabled`.
    DisablePort2 = 0xA7,
    /// Clears `port2_clock_disabled`.
    EnablePort2 = 0xA8,
    /// Returns a `PortTestResult`.
    TestPort2 = 0xA9,
    TestController = 0xAA,
    /// Returns a `PortTestResult`.
    TestPort1 = 0xAB,
    /// Sets `port1_clock_disabled`.
    DisablePort1 = 0xAD,
    /// Clears `port1_clock_disabled`.
    EnablePort1 = 0xAE,
    /// Sends the next byte to the second port.
    WriteByteToPort2InputBuffer = 0xD4,
}

impl From<HostToControllerCommand> for u8 {
    ghost from_gives = { λ to_controller byte. byte ≡ controller_byte to_controller };

    fn from(to_controller: HostToControllerCommand) -> u8 {
        to_controller as u8
    }
}

/// Commands to the keyboard, written to port 60.
/// OSDev Wiki, "PS/2 Keyboard", "Commands".
#[derive(Clone, Copy, PartialEq, Eq)]
pub enum HostToKeyboardCommand {
    /// Takes an `LEDState`.
    SetLEDStatus = 0xED,
    /// Takes a `ScancodeSet`.
    ScancodeSet = 0xF0,
    IdentifyKeyboard = 0xF2,
    /// Also called typematic.
    SetRepeatRateAndDelay = 0xF3,
    EnableScanning = 0xF4,
    /// Might also restore default parameters.
    DisableScanning = 0xF5,
    ResendByte = 0xFE,
    ResetAndStartSelfTest = 0xFF,
}

impl TryFrom<u8> for HostToKeyboardCommand {
    type Error = Unlisted;

    ghost try_from_gives = { λ byte read. read ≡ keyboard_read byte };

    fn try_from(byte: u8) -> Result<Self, Unlisted> {
        match byte {
            0xED => Ok(HostToKeyboardCommand::SetLEDStatus),
            0xF0 => Ok(HostToKeyboardCommand::ScancodeSet),
            0xF2 => Ok(HostToKeyboardCommand::IdentifyKeyboard),
            0xF3 => Ok(HostToKeyboardCommand::SetRepeatRateAndDelay),
            0xF4 => Ok(HostToKeyboardCommand::EnableScanning),
            0xF5 => Ok(HostToKeyboardCommand::DisableScanning),
            0xFE => Ok(HostToKeyboardCommand::ResendByte),
            0xFF => Ok(HostToKeyboardCommand::ResetAndStartSelfTest),
            _ => Err(Unlisted(byte)),
        }
    }
}

impl From<HostToKeyboardCommand> for u8 {
    ghost from_gives = { λ to_keyboard byte. byte ≡ keyboard_byte to_keyboard };

    fn from(to_keyboard: HostToKeyboardCommand) -> u8 {
        to_keyboard as u8
    }
}

/// Commands to the mouse, written to port 60 after the controller command D4.
/// OSDev Wiki, "PS/2 Mouse".
#[derive(Clone, Copy, PartialEq, Eq)]
pub enum HostToMouseCommand {
    /// The Rust has this one byte for scaling 1 or 2; the wiki's E6 is 1:1.
    SetScaling = 0xE6,
    /// Takes a `MouseResolution`.
    SetResolution = 0xE8,
    StatusRequest = 0xE9,
    SetStreamMode = 0xEA,
    ReadData = 0xEB,
    ResetWrapMode = 0xEC,
    SetWrapMode = 0xEE,
    SetRemoteMode = 0xF0,
    GetDeviceID = 0xF2,
    /// Takes a `MouseSampleRate`.
    SampleRate = 0xF3,
    EnableDataReporting = 0xF4,
    DisableDataReporting = 0xF5,
    SetDefaults = 0xF6,
    ResendByte = 0xFE,
    Reset = 0xFF,
}

impl TryFrom<u8> for HostToMouseCommand {
    type Error = Unlisted;

    ghost try_from_gives = { λ byte read. read ≡ mouse_read byte };

    fn try_from(byte: u8) -> Result<Self, Unlisted> {
        match byte {
            0xE6 => Ok(HostToMouseCommand::SetScaling),
            0xE8 => Ok(HostToMouseCommand::SetResolution),
            0xE9 => Ok(HostToMouseCommand::StatusRequest),
            0xEA => Ok(HostToMouseCommand::SetStreamMode),
            0xEB => Ok(HostToMouseCommand::ReadData),
            0xEC => Ok(HostToMouseCommand::ResetWrapMode),
            0xEE => Ok(HostToMouseCommand::SetWrapMode),
            0xF0 => Ok(HostToMouseCommand::SetRemoteMode),
            0xF2 => Ok(HostToMouseCommand::GetDeviceID),
            0xF3 => Ok(HostToMouseCommand::SampleRate),
            0xF4 => Ok(HostToMouseCommand::EnableDataReporting),
            0xF5 => Ok(HostToMouseCommand::DisableDataReporting),
            0xF6 => Ok(HostToMouseCommand::SetDefaults),
            0xFE => Ok(HostToMouseCommand::ResendByte),
            0xFF => Ok(HostToMouseCommand::Reset),
            _ => Err(Unlisted(byte)),
        }
    }
}

impl From<HostToMouseCommand> for u8 {
    ghost from_gives = { λ to_mouse byte. byte ≡ mouse_byte to_mouse };

    fn from(to_mouse: HostToMouseCommand) -> u8 {
        to_mouse as u8
    }
}
