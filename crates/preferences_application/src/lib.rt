// Preferences applied to the devices: each field in its turn, until a device refuses one.
#![tactic(auto)]

ghost use Rattle.std.specs.Prelude.{true, ◌≡◌, ◌<◌};
ghost use Rattle.exchange.specs.Exchange.{play};
ghost use Rattle.ps2_answers.specs.Answers.{told};
ghost use Rattle.preferences.specs.Record.{within_values};
ghost use Rattle.preferences.specs.declared.Preferences.TheVariants.{Version1, Version2};
ghost use Rattle.preferences_application.specs.Settings.{set_of, rate_of, resolution_of, four_settings, settings_of};
ghost use Rattle.preferences_application.specs.Application.{set_keyboard_repeat, apply_setting, apply_settings, apply_preferences};

use preferences::{Fields, Preferences};
use ps2_answers::{Answer, Counted, Failure, Refusal};
use ps2_bytes::{
    HostToDevice, HostToKeyboardCommand, HostToKeyboardCommandOrData, MouseResolution,
    MouseSampleRate, ScancodeSet,
};
use ps2_command::command_pair;
use ps2_keyboard::{set_keyboard_led, set_keyboard_scancode_set};
use ps2_layouts::LEDState;
use ps2_mouse::PS2Mouse;
use ps2_ports::DevicePort;

/// What a field asks of a device.
#[derive(Clone, Copy)]
pub enum Setting {
    ScancodeSet(ScancodeSet),
    SamplingRate(MouseSampleRate),
    Resolution(MouseResolution),
    Lamps(LEDState),
    RepeatRateAndDelay(u8),
}

/// Applies a record's fields in their order. Where one is outside its values nothing is read or
/// written; after a refusal the fields before it stay applied.
/// Refused: outside values (28); then 2 to 7, no set or identity (11), LEDs not set (14), rate or
/// resolution not set (15).
pub fn apply_preferences(script: &[u8], log: &mut [u8], preferences: Preferences) -> Answer<()>
    ensures { told result log.new ≡ play (apply_preferences preferences) script.now log.old }
{
    if preferences.within_values() {
        apply_within(script, log, preferences)
    } else {
        Err(Counted::new(Refusal::Failed(Failure::FieldOutsideValues)))
    }
}

/// Sets one setting of a device. What was thrown away meanwhile is dropped.
pub fn apply_setting(script: &[u8], log: &mut [u8], setting: Setting) -> Answer<()>
    ensures { told result log.new ≡ play (apply_setting setting) script.now log.old }
{
    match setting {
        Setting::ScancodeSet(set) => set_keyboard_scancode_set(script, log, set),
        Setting::SamplingRate(rate) => PS2Mouse::set_mouse_sampling_rate(script, log, rate),
        Setting::Resolution(resolution) => PS2Mouse::mouse_resolution(script, log, resolution),
        Setting::Lamps(lamps) => set_keyboard_led(script, log, lamps).answer,
        Setting::RepeatRateAndDelay(byte) => set_keyboard_repeat(script, log, byte),
    }
}

/// Sets how fast the keyboard repeats a key that is held, and after which delay.
/// F3 and the byte. Refused: 2 to 7.
pub fn set_keyboard_repeat(script: &[u8], log: &mut [u8], byte: u8) -> Answer<()>
    ensures { told result log.new ≡ play (set_keyboard_repeat byte) script.now log.old }
{
    command_pair(
        script,
        log,
        DevicePort::Port1,
        HostToDevice::Keyboard(HostToKeyboardCommandOrData::KeyboardCommand(
            HostToKeyboardCommand::SetRepeatRateAndDelay,
        )),
        HostToDevice::Keyboard(HostToKeyboardCommandOrData::RepeatRateAndDelay(byte)),
    )
    .answer
}

// Applies a record whose fields are within their values.
fn apply_within(script: &[u8], log: &mut [u8], preferences: Preferences) -> Answer<()>
    requires { within_values preferences ≡ true }
    ensures { told result log.new
        ≡ play (apply_settings (settings_of preferences)) script.now log.old }
{
    match preferences {
        Preferences::Version1(four) => apply_four(script, log, four),
        Preferences::Version2(four, again) => apply_five(script, log, four, again),
    }
}

// Applies the four fields, and then the repeat byte.
fn apply_five(script: &[u8], log: &mut [u8], four: Fields, again: u32) -> Answer<()>
    requires { within_values (Version2 four again) ≡ true }
    ensures { told result log.new
        ≡ play (apply_settings (settings_of (Version2 four again))) script.now log.old }
{
    let applied = apply_four(script, log, four)?;
    let tail = 2 * applied.pairs;
    applied.then(set_keyboard_repeat(&script[applied.used..], &mut log[tail..], byte_of(again)))
}

// Applies the four fields that every record has.
fn apply_four(script: &[u8], log: &mut [u8], four: Fields) -> Answer<()>
    requires { within_values (Version1 four) ≡ true }
    ensures { told result log.new ≡ play (apply_settings (four_settings four)) script.now log.old }
{
    let set = set_of(byte_of(four.set));
    let rate = rate_of(byte_of(four.rate));
    let resolution = resolution_of(byte_of(four.resolution));
    let lamps = LEDState::from(byte_of(four.lamps));
    apply_settings(
        script,
        log,
        [
            Setting::ScancodeSet(set),
            Setting::SamplingRate(rate),
            Setting::Resolution(resolution),
            Setting::Lamps(lamps),
        ],
    )
}

// Sets settings, one after another.
fn apply_settings(script: &[u8], log: &mut [u8], settings: [Setting; 4]) -> Answer<()>
    ensures { told result log.new ≡ play (apply_settings settings) script.now log.old }
{
    let mut done = Counted::new(());
    for &setting in &settings {
        let tail = 2 * done.pairs;
        done = done.then(apply_setting(&script[done.used..], &mut log[tail..], setting))?;
    }
    Ok(done)
}

// A field within its values as a byte.
fn byte_of(value: u32) -> u8
    requires { value < 256 }
    ensures { result ≡ value }
{
    value as u8
}

/// The scancode set of a byte, and below the sampling rate and the resolution.
pub fn set_of(byte: u8) -> ScancodeSet
    ensures { result ≡ set_of byte }
{
    ScancodeSet::try_from(byte).unwrap_or(ScancodeSet::Get)
}

pub fn rate_of(byte: u8) -> MouseSampleRate
    ensures { result ≡ rate_of byte }
{
    MouseSampleRate::try_from(byte).unwrap_or(MouseSampleRate::_100)
}

pub fn resolution_of(byte: u8) -> MouseResolution
    ensures { result ≡ resolution_of byte }
{
    MouseResolution::try_from(byte).unwrap_or(MouseResolution::Count4PerMm)
}
