// Data bytes, which follow a command to a device: scancode sets, sample rates, resolutions.
#![tactic(auto, unfolding(bits::specs::Table::decode))]

ghost use Rattle.std.specs.Prelude.{◌≡◌};
ghost use Rattle.ps2_bytes.specs.Data.{
  scancode_set_byte,
  scancode_set_read,
  sample_rate_byte,
  sample_rate_read,
  resolution_byte,
  resolution_read,
};

use crate::Unlisted;

// Each type's `match` on a byte is its table.

/// Data of the keyboard command `ScancodeSet`, and what the keyboard answers to `Get`,
/// untranslated.
#[derive(Clone, Copy, PartialEq, Eq)]
pub enum ScancodeSet {
    Get = 0,
    Set1 = 1,
    Set2 = 2,
    Set3 = 3,
}

impl TryFrom<u8> for ScancodeSet {
    type Error = Unlisted;

    ghost try_from_gives = { λ byte read. read ≡ scancode_set_read byte };

    fn try_from(byte: u8) -> Result<Self, Unlisted> {
        match byte {
            0 => Ok(ScancodeSet::Get),
            1 => Ok(ScancodeSet::Set1),
            2 => Ok(ScancodeSet::Set2),
            3 => Ok(ScancodeSet::Set3),
            _ => Err(Unlisted(byte)),
        }
    }
}

impl From<ScancodeSet> for u8 {
    ghost from_gives = { λ set byte. byte ≡ scancode_set_byte set };

    fn from(set: ScancodeSet) -> u8 {
        set as u8
    }
}

/// Packets a second, data of the mouse command `SampleRate`.
#[derive(Clone, Copy, PartialEq, Eq)]
pub enum MouseSampleRate {
    _10 = 10,
    _20 = 20,
    _40 = 40,
    _60 = 60,
    _80 = 80,
    _100 = 100,
    _200 = 200,
}

impl TryFrom<u8> for MouseSampleRate {
    type Error = Unlisted;

    ghost try_from_gives = { λ byte read. read ≡ sample_rate_read byte };

    fn try_from(byte: u8) -> Result<Self, Unlisted> {
        match byte {
            10 => Ok(MouseSampleRate::_10),
            20 => Ok(MouseSampleRate::_20),
            40 => Ok(MouseSampleRate::_40),
            60 => Ok(MouseSampleRate::_60),
            80 => Ok(MouseSampleRate::_80),
            100 => Ok(MouseSampleRate::_100),
            200 => Ok(MouseSampleRate::_200),
            _ => Err(Unlisted(byte)),
        }
    }
}

impl From<MouseSampleRate> for u8 {
    ghost from_gives = { λ rate byte. byte ≡ sample_rate_byte rate };

    fn from(rate: MouseSampleRate) -> u8 {
        rate as u8
    }
}

/// Counts per millimetre, data of the mouse command `SetResolution`.
#[derive(Clone, Copy, PartialEq, Eq)]
pub enum MouseResolution {
    Count1PerMm = 0,
    Count2PerMm = 1,
    Count4PerMm = 2,
    Count8PerMm = 3,
}

impl TryFrom<u8> for MouseResolution {
    type Error = Unlisted;

    ghost try_from_gives = { λ byte read. read ≡ resolution_read byte };

    fn try_from(byte: u8) -> Result<Self, Unlisted> {
        match byte {
            0 => Ok(MouseResolution::Count1PerMm),
            1 => Ok(MouseResolution::Count2PerMm),
            2 => Ok(MouseResolution::Count4PerMm),
            3 => Ok(MouseResolution::Count8PerMm),
            _ => Err(Unlisted(byte)),
        }
    }
}

impl From<MouseResolution> for u8 {
    ghost from_gives = { λ resolution byte. byte ≡ resolution_byte resolution };

    fn from(resolution: MouseResolution) -> u8 {
        resolution as u8
    }
}
