// Preferences as bytes: version, field count, then the fields,
// each a number. A writer, and a reader for each version.

ghost use Rattle.std.specs.Prelude.{◌≡◌, ◌<◌, ◌≤◌, ◌++◌, true, false, length, drop, MatchResult};
ghost use Rattle.preferences.specs.NumberWriting.{outcome, count_written};
ghost use Rattle.preferences.specs.Format.{codings, field_count};
ghost use Rattle.preferences.specs.Reading.{any_number, record_read, read1, read2, said_read1, said_read2, refusal_number};
ghost use Rattle.preferences.specs.Writing.{written, fitting, leaves, said_written, write_refusal_number};
ghost use Rattle.preferences.specs.Steps.{version_number, version_read, fifth_for, Takes, Heads, Fours, numbers_most};

use crate::numbers::{Malformed, number_length, read_number, write_number};
use crate::{
    Fields, Preferences, is_lamps, is_repeat_byte, is_resolution, is_sampling_rate, is_scancode_set,
};

/// Why a reading refuses: a number is cut short, too large or not shortest; the version, the count
/// or a checked field is outside its values; bytes follow the last field.
#[derive(Clone, Copy, PartialEq, Eq)]
pub enum ReadRefusal {
    Malformed = 27,
    OutsideValues = 28,
    BytesFollow = 29,
}

/// Why a writing refuses: a field is outside its values; the output has no room for the record.
#[derive(Clone, Copy, PartialEq, Eq)]
pub enum WriteRefusal {
    OutsideValues = 28,
    OutputShort = 23,
}

// The versions of a record, by their numbers.
#[derive(Clone, Copy, PartialEq, Eq)]
enum Version {
    One = 1,
    Two = 2,
}

// How many fields a record of each version has.
const FIELDS_1: u32 = 4;

const FIELDS_2: u32 = 5;

impl ReadRefusal {
    /// The number of a refusal, as an answer tells it.
    pub fn number(self) -> u8
        ensures { result ≡ refusal_number self }
    {
        self as u8
    }
}

impl WriteRefusal {
    /// The number of a refusal, as an answer tells it.
    pub fn number(self) -> u8
        ensures { result ≡ write_refusal_number self }
    {
        self as u8
    }
}

impl From<Malformed> for ReadRefusal {
    ghost use Rattle.preferences.specs.declared.coding.ReadRefusal.{ReadRefusal};

    ghost from_gives = { λ _ e. e ≡ ReadRefusal.Malformed };

    fn from(_: Malformed) -> ReadRefusal {
        ReadRefusal::Malformed
    }
}

// ---- reading

impl TryFrom<u32> for Version {
    type Error = ReadRefusal;

    ghost try_from_gives = { λ number read. read ≡ version_read number };

    fn try_from(number: u32) -> Result<Self, ReadRefusal> {
        match number {
            1 => Ok(Version::One),
            2 => Ok(Version::Two),
            _ => Err(ReadRefusal::OutsideValues),
        }
    }
}

impl Version {
    // How many fields a record of a version has.
    fn field_count(self) -> u32
        ensures { result ≡ field_count (version_number self) }
    {
        match self {
            Version::One => FIELDS_1,
            Version::Two => FIELDS_2,
        }
    }
}

// Whether the fifth field is what a reader asks for: that of version 1 checks no range. The flag is
// for speed: by a closure a reading of version 1 took 200 instructions in place of 174, and of
// version 2 214 in place of 178.
fn accepts_fifth(checks_range: bool, value: u32) -> bool
    ensures { result ≡ fifth_for checks_range value }
{
    !checks_range || is_repeat_byte(value)
}

// Reads the number at a place, and answers it with the place behind it. In line, as `read_number`
// is, for speed: by calls a reading of version 1 took 158 instructions in place of 133, and of
// version 2 171 in place of 151.
#[inline(always)]
fn number_at(input: &[u8], at: usize) -> Result<(u32, usize), ReadRefusal>
    ensures { Takes input.now at any_number result }
{
    let number = read_number(input, at)?;
    Ok((number.value, at + number.count))
}

// A number that was read is accepted by its question, or
// outside its values: its form was asked before.
fn accept(is_within: bool) -> Result<(), ReadRefusal>
    ensures { MatchResult result (λ _. is_within ≡ true)
        (λ e. (is_within ≡ false) × (e ≡ ReadRefusal.OutsideValues)) }
{
    if is_within {
        Ok(())
    } else {
        Err(ReadRefusal::OutsideValues)
    }
}

// No byte follows a place.
fn end_at(input: &[u8], end: usize) -> Result<(), ReadRefusal>
    ensures { MatchResult result (λ _. length input.now ≤ end)
        (λ e. (end < length input.now) × (e ≡ ReadRefusal.BytesFollow)) }
{
    if input.len() <= end {
        Ok(())
    } else {
        Err(ReadRefusal::BytesFollow)
    }
}

// Reads version and count, and answers the version with the
// place behind them: the count is judged by the version.
fn read_head(input: &[u8]) -> Result<(Version, usize), ReadRefusal>
    ensures { Heads input.now result }
{
    let (number, count_at) = number_at(input, 0)?;
    let version = Version::try_from(number)?;
    let (count, end) = number_at(input, count_at)?;
    accept(count == version.field_count())?;
    Ok((version, end))
}

// Reads the four fields that every record has, and answers them with the place behind them.
fn read_four(input: &[u8], at: usize) -> Result<(Fields, usize), ReadRefusal>
    ensures { Fours input.now at result }
{
    let (set, rate_at) = number_at(input, at)?;
    accept(is_scancode_set(set))?;
    let (rate, resolution_at) = number_at(input, rate_at)?;
    accept(is_sampling_rate(rate))?;
    let (resolution, lamps_at) = number_at(input, resolution_at)?;
    accept(is_resolution(resolution))?;
    let (lamps, end) = number_at(input, lamps_at)?;
    accept(is_lamps(lamps))?;
    Ok((
        Fields {
            set,
            rate,
            resolution,
            lamps,
        },
        end,
    ))
}

// Reads a record of either version. The readers differ in what they ask of the fifth field.
fn read_record(input: &[u8], checks_range: bool) -> Result<Preferences, ReadRefusal>
    ensures { said_read2 result ≡ record_read (fifth_for checks_range) input.now }
{
    let (version, at) = read_head(input)?;
    let (fields, end) = read_four(input, at)?;
    match version {
        Version::One => {
            end_at(input, end)?;
            Ok(Preferences::Version1(fields))
        }
        Version::Two => {
            let (repeat, last) = number_at(input, end)?;
            accept(accepts_fifth(checks_range, repeat))?;
            end_at(input, last)?;
            Ok(Preferences::Version2(fields, repeat))
        }
    }
}

/// The version 1 reader. Of a record of version 2 it gives the four fields; the fifth must be a
/// number, and may be any.
/// Refused: malformed number (27), outside values (28), bytes follow (29).
pub fn read_preferences_1(input: &[u8]) -> Result<Fields, ReadRefusal>
    ensures { said_read1 result ≡ read1 input.now }
{
    match read_record(input, false)? {
        Preferences::Version1(fields) | Preferences::Version2(fields, _) => Ok(fields),
    }
}

/// The version 2 reader, which takes records of both versions.
/// Refused: malformed number (27), outside values (28), bytes follow (29).
pub fn read_preferences_2(input: &[u8]) -> Result<Preferences, ReadRefusal>
    ensures { said_read2 result ≡ read2 input.now }
{
    read_record(input, true)
}

// ---- writing

// How many bytes numbers take.
fn codings_length(numbers: &[u32]) -> usize
    requires { length numbers.now ≤ numbers_most }
    ensures { result ≡ length (codings numbers.now) }
{
    let mut length = 0;
    for &number in numbers {
        length += number_length(number);
    }
    length
}

// Writes numbers that find room, from the start of an output on.
fn put_all(numbers: &[u32], output: &mut [u8])
    requires { length (codings numbers.now) ≤ length output.old }
    ensures { output.new ≡ codings numbers.now ++ drop (length (codings numbers.now)) output.old }
{
    let mut at = 0;
    for &number in numbers {
        at += write_number(number, output, at).unwrap_or(0);
    }
}

// Writes numbers from the start of an output on, or nothing
// where they find no room, and answers how many bytes they take.
fn write_all(numbers: &[u32], output: &mut [u8]) -> Result<usize, WriteRefusal>
    requires { length numbers.now ≤ numbers_most }
    ensures { outcome (said_written result) (count_written result) output.new
        ≡ leaves output.old (fitting (length output.old) (codings numbers.now)) }
{
    let length = codings_length(numbers);
    if output.len() < length {
        return Err(WriteRefusal::OutputShort);
    }
    put_all(numbers, output);
    Ok(length)
}

/// Writes a record to the start of an output, and answers how many bytes it takes. What is not
/// written stays as it was; a refusal writes nothing.
/// Refused: outside values (28), then output full (23).
pub fn write_preferences(preferences: Preferences, output: &mut [u8]) -> Result<usize, WriteRefusal>
    ensures { outcome (said_written result) (count_written result) output.new
        ≡ leaves output.old (written (length output.old) preferences) }
{
    if !preferences.within_values() {
        return Err(WriteRefusal::OutsideValues);
    }
    match preferences {
        Preferences::Version1(four) => write_all(
            &[
                Version::One as u32,
                FIELDS_1,
                four.set,
                four.rate,
                four.resolution,
                four.lamps,
            ],
            output,
        ),
        Preferences::Version2(fields, repeat) => write_all(
            &[
                Version::Two as u32,
                FIELDS_2,
                fields.set,
                fields.rate,
                fields.resolution,
                fields.lamps,
                repeat,
            ],
            output,
        ),
    }
}
