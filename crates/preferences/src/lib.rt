// A club's preferences: what a record of each version holds, and which numbers its fields may be.
#![tactic(auto)]

ghost use Rattle.std.specs.Prelude.{◌≡◌};
ghost use Rattle.preferences.specs.Values.{is_scancode_set, is_sampling_rate, is_resolution, is_lamps, is_repeat_byte};
ghost use Rattle.preferences.specs.Record.{within_values};

/// Records as bytes, and read again.
pub mod coding;
/// Numbers as bytes, and read again.
pub mod numbers;

/// The four fields of every record, in the order in which they are written. A field may be any
/// number: only those within its values are accepted.
#[derive(Clone, Copy, PartialEq, Eq)]
pub struct Fields {
    pub set: u32,
    pub rate: u32,
    pub resolution: u32,
    pub lamps: u32,
}

/// A record of version 1, or of version 2, which has the repeat byte behind the four.
#[derive(Clone, Copy, PartialEq, Eq)]
pub enum Preferences {
    Version1(Fields),
    Version2(Fields, u32),
}

// The ends of the values that lie in a row, from 0 on but for the scancode set's.
const SCANCODE_SET_LEAST: u32 = 1;

const SCANCODE_SET_MOST: u32 = 3;

const RESOLUTION_MOST: u32 = 3;

const LAMPS_MOST: u32 = 7;

const REPEAT_BYTE_MOST: u32 = 127;

/// Whether a number is one of the scancode sets.
pub fn is_scancode_set(value: u32) -> bool
    ensures { result ≡ is_scancode_set value }
{
    (SCANCODE_SET_LEAST..=SCANCODE_SET_MOST).contains(&value)
}

/// Whether a number is one of the seven sampling rates.
pub fn is_sampling_rate(value: u32) -> bool
    ensures { result ≡ is_sampling_rate value }
{
    matches!(value, 10 | 20 | 40 | 60 | 80 | 100 | 200)
}

/// Whether a number is one of the resolutions.
pub fn is_resolution(value: u32) -> bool
    ensures { result ≡ is_resolution value }
{
    value <= RESOLUTION_MOST
}

/// Whether a number is a state of the three lamps.
pub fn is_lamps(value: u32) -> bool
    ensures { result ≡ is_lamps value }
{
    value <= LAMPS_MOST
}

/// Whether a number is a byte of repeat rate and delay.
pub fn is_repeat_byte(value: u32) -> bool
    ensures { result ≡ is_repeat_byte value }
{
    value <= REPEAT_BYTE_MOST
}

impl Fields {
    /// Whether each of the four fields is one of its values.
    pub fn within_values(self) -> bool
        ensures { result ≡ within_values (Preferences.Version1 self) }
    {
        is_scancode_set(self.set)
            && is_sampling_rate(self.rate)
            && is_resolution(self.resolution)
            && is_lamps(self.lamps)
    }
}

impl Preferences {
    /// Whether each field of the record is one of its values.
    pub fn within_values(self) -> bool
        ensures { result ≡ within_values self }
    {
        match self {
            Preferences::Version1(fields) => fields.within_values(),
            Preferences::Version2(fields, repeat) => {
                fields.within_values() && is_repeat_byte(repeat)
            }
        }
    }
}
