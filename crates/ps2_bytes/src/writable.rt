// What can be written to the data port: the configuration, or a byte for a device, which is a
// command or a command's data.
ghost use Rattle.std.specs.Prelude.{◌≡◌};
ghost use Rattle.ps2_bytes.specs.Writable.{to_keyboard, to_mouse, to_device, written};

use crate::command::{HostToKeyboardCommand, HostToMouseCommand};
use crate::data::{MouseResolution, MouseSampleRate, ScancodeSet};
use ps2_layouts::{ControllerConfigurationByte, LEDState};

/// Kinds of data that can be written to port 60.
#[derive(Clone, Copy, PartialEq, Eq)]
pub enum WritableData {
    Configuration(ControllerConfigurationByte),
    HostToDevice(HostToDevice),
}

impl From<WritableData> for u8 {
    ghost from_gives = { λ sent byte. byte ≡ written sent };

    fn from(sent: WritableData) -> u8 {
        match sent {
            WritableData::Configuration(value) => u8::from(value),
            WritableData::HostToDevice(value) => u8::from(value),
        }
    }
}

/// A byte for one of the devices. Each case holds an enum of its own.
#[derive(Clone, Copy, PartialEq, Eq)]
pub enum HostToDevice {
    Keyboard(HostToKeyboardCommandOrData),
    Mouse(HostToMouseCommandOrData),
}

impl From<HostToDevice> for u8 {
    ghost from_gives = { λ sent byte. byte ≡ to_device sent };

    fn from(sent: HostToDevice) -> u8 {
        match sent {
            HostToDevice::Keyboard(value) => u8::from(value),
            HostToDevice::Mouse(value) => u8::from(value),
        }
    }
}

/// A byte for the keyboard.
#[derive(Clone, Copy, PartialEq, Eq)]
pub enum HostToKeyboardCommandOrData {
    KeyboardCommand(HostToKeyboardCommand),
    LEDState(LEDState),
    ScancodeSet(ScancodeSet),
    /// Data of `SetRepeatRateAndDelay`.
    RepeatRateAndDelay(u8),
}

impl From<HostToKeyboardCommandOrData> for u8 {
    ghost from_gives = { λ sent byte. byte ≡ to_keyboard sent };

    fn from(sent: HostToKeyboardCommandOrData) -> u8 {
        match sent {
            HostToKeyboardCommandOrData::KeyboardCommand(c) => u8::from(c),
            HostToKeyboardCommandOrData::LEDState(l) => u8::from(l),
            HostToKeyboardCommandOrData::ScancodeSet(s) => u8::from(s),
            HostToKeyboardCommandOrData::RepeatRateAndDelay(b) => b,
        }
    }
}

/// A byte for the mouse.
#[derive(Clone, Copy, PartialEq, Eq)]
pub enum HostToMouseCommandOrData {
    MouseCommand(HostToMouseCommand),
    SampleRate(MouseSampleRate),
    MouseResolution(MouseResolution),
}

impl From<HostToMouseCommandOrData> for u8 {
    ghost from_gives = { λ sent byte. byte ≡ to_mouse sent };

    fn from(sent: HostToMouseCommandOrData) -> u8 {
        match sent {
            HostToMouseCommandOrData::MouseCommand(c) => u8::from(c),
            HostToMouseCommandOrData::SampleRate(s) => u8::from(s),
            HostToMouseCommandOrData::MouseResolution(r) => u8::from(r),
        }
    }
}
