// The bytes of the 8042 PS/2 controller and its devices
// that stand for one thing each: commands, data, responses.
#![tactic(auto)]

mod command;
mod data;
mod response;
mod writable;

pub use command::{HostToControllerCommand, HostToKeyboardCommand, HostToMouseCommand};
pub use data::{MouseResolution, MouseSampleRate, ScancodeSet};
pub use response::{DeviceToHostResponse, KeyboardType, MouseId, PortTestResult};
pub use writable::{
    HostToDevice, HostToKeyboardCommandOrData, HostToMouseCommandOrData, WritableData,
};

/// A byte that stands for none of what it was read as.
#[derive(Clone, Copy, PartialEq, Eq)]
pub struct Unlisted(pub u8);
