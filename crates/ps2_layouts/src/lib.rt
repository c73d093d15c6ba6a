// The bytes whose bits mean something each: the status, the configuration, the keyboard's LEDs.
#![tactic(auto)]

ghost use Rattle.std.specs.Prelude.{◌≡◌, ◌<◌};
ghost use Rattle.bits.specs.Bits.{put_bit};

mod configuration;
mod leds;
mod status;

pub use configuration::ControllerConfigurationByte;
pub use leds::LEDState;
pub use status::ControllerToHostStatus;

// A byte with bit `k` made `value` and the others as they were.
fn with(x: u8, k: u8, value: bool) -> u8
    requires { k < 8 }
    ensures { result ≡ put_bit k value x }
{
    if value { x | (1 << k) } else { x & !(1 << k) }
}
