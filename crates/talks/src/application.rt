// Preferences applied to the devices: each field in its turn, until a device refuses one.
ghost use Rattle.std.specs.Prelude.{true, ◌≡◌, ◌<◌};
ghost use Rattle.preferences.specs.Record.{within_values};
ghost use Rattle.preferences.specs.declared.Preferences.TheVariants.{Version1, Version2};
ghost use Rattle.talks.specs.Heard.{by, heard};
ghost use Rattle.talks.specs.Application as talk;

use crate::keyboard::{set_keyboard_repeat, set_port_led, set_scancode_set};
use crate::mouse::{set_resolution, set_sampling_rate};
use crate::{Partner, Stop};
use preferences::{Fields, Preferences};
use preferences_application::{rate_of, resolution_of, set_of};
use ps2_answers::Failure;
use ps2_layouts::LEDState;
use ps2_ports::DevicePort;

/// Applies a record's fields in their order. Where one is outside its values nothing is read or
/// written; after a refusal the fields before it stay applied.
/// Refused: outside values (28); then 4 to 7, no set or identity (11), LEDs not set (14), rate or
/// resolution not set (15).
#[tactic(auto, unfolding(crate::specs::Application::apply_preferences, crate::specs::Heard::heard))]
pub fn apply_preferences<P: Partner>(partner: &mut P, preferences: Preferences) -> Result<(), Stop>
    ensures { by result partner.new
        ≡ heard P.replies (talk.apply_preferences preferences) partner.old }
{
    if preferences.within_values() {
        apply_within(partner, preferences)
    } else {
        Err(Stop::Refused(Failure::FieldOutsideValues))
    }
}

// Applies a record whose fields are within their values.
#[tactic(auto, unfolding(crate::specs::Heard::heard))]
fn apply_within<P: Partner>(partner: &mut P, preferences: Preferences) -> Result<(), Stop>
    requires { within_values preferences ≡ true }
    ensures { by result partner.new ≡ heard P.replies (talk.apply_within preferences) partner.old }
{
    match preferences {
        Preferences::Version1(four) => apply_four(partner, four),
        Preferences::Version2(four, again) => apply_five(partner, four, again),
    }
}

// Applies the four fields, and then the repeat byte.
#[tactic(auto, unfolding(crate::specs::Heard::heard))]
fn apply_five<P: Partner>(partner: &mut P, four: Fields, again: u32) -> Result<(), Stop>
    requires { within_values (Version2 four again) ≡ true }
    ensures { by result partner.new
        ≡ heard P.replies (talk.apply_within (Version2 four again)) partner.old }
{
    apply_four(partner, four)?;
    set_keyboard_repeat(partner, byte_of(again))
}

// Applies the four fields that every record has.
#[tactic(auto, unfolding(crate::specs::Application::apply_four, crate::specs::Heard::heard))]
fn apply_four<P: Partner>(partner: &mut P, four: Fields) -> Result<(), Stop>
    requires { within_values (Version1 four) ≡ true }
    ensures { by result partner.new ≡ heard P.replies (talk.apply_four four) partner.old }
{
    set_scancode_set(partner, set_of(byte_of(four.set)))?;
    set_sampling_rate(partner, rate_of(byte_of(four.rate)))?;
    set_resolution(partner, resolution_of(byte_of(four.resolution)))?;
    let lamps = LEDState::from(byte_of(four.lamps));
    set_port_led(partner, DevicePort::Port1, lamps)
}

// A field within its values as a byte.
fn byte_of(value: u32) -> u8
    requires { value < 256 }
    ensures { result ≡ value }
{
    value as u8
}
