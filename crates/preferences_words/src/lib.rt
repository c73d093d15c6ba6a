// A club's preferences as six numbers: written into an output as bytes, read from bytes by either
// reader, and applied to the devices.
#![tactic(auto)]

ghost use Rattle.std.specs.Prelude.{◌≡◌};
ghost use Rattle.preferences.specs.Reading.{read1, read2, said_read2, refusal_number};
ghost use Rattle.exchange.specs.Answer.{refuses};
ghost use Rattle.argument_words.specs.Arguments.{invalid_argument, said_found};
ghost use Rattle.preferences_application.specs.Application.{apply_preferences};
ghost use Rattle.port_words.specs.Told.{refusing, no_value, told};
ghost use Rattle.port_words.specs.Tells.{TellsAt};
ghost use Rattle.preferences_words.specs.Record.{preferences_at, words_of};
ghost use Rattle.preferences_words.specs.Writing.{WordsWritten};
ghost use Rattle.preferences_words.specs.Reading.{told_read, as_version1};

use argument_words::INVALID_ARGUMENT;
use port_words::{PortWords, answer_words, refusing_words};
use preferences::coding::{ReadRefusal, read_preferences_1, read_preferences_2, write_preferences};
use preferences::{Fields, Preferences};
use preferences_application::apply_preferences;

// C reads these three: a refusal stands beside what is given.

/// A record of version 1 or 2: its fields in their order. Version 1 has no repeat byte: it is not
/// looked at, and 0 where it is given back.
#[repr(C)]
#[derive(Clone, Copy)]
pub struct PreferencesWords {
    pub version: u32,
    pub set: u32,
    pub rate: u32,
    pub resolution: u32,
    pub lamps: u32,
    pub repeat: u32,
}

/// What a reading answers: the refusal, 0 where there is none; and the record read, all 0 where it
/// is refused.
#[repr(C)]
#[derive(Clone, Copy)]
pub struct PreferencesReadWords {
    pub refusal: u32,
    pub preferences: PreferencesWords,
}

/// What a writing answers: the refusal, 0 where there is none; and how many bytes of the output are
/// written.
#[repr(C)]
#[derive(Clone, Copy)]
pub struct PreferencesWrittenWords {
    pub refusal: u32,
    pub written: usize,
}

// The record that six numbers stand for, if any.
#[tactic(auto, unfolding(crate::specs::Record::preferences_at))]
fn preferences_of(words: PreferencesWords) -> Option<Preferences>
    ensures { said_found result ≡ preferences_at words }
{
    let fields = Fields {
        set: words.set,
        rate: words.rate,
        resolution: words.resolution,
        lamps: words.lamps,
    };
    match words.version {
        1 => Some(Preferences::Version1(fields)),
        2 => Some(Preferences::Version2(fields, words.repeat)),
        _ => None,
    }
}

// The six numbers of a record.
fn words_of(preferences: Preferences) -> PreferencesWords
    ensures { result ≡ words_of preferences }
{
    match preferences {
        Preferences::Version1(fields) => PreferencesWords {
            version: 1,
            set: fields.set,
            rate: fields.rate,
            resolution: fields.resolution,
            lamps: fields.lamps,
            repeat: 0,
        },
        Preferences::Version2(fields, repeat) => PreferencesWords {
            version: 2,
            set: fields.set,
            rate: fields.rate,
            resolution: fields.resolution,
            lamps: fields.lamps,
            repeat,
        },
    }
}

// A reading that is refused.
fn refused(refusal: ReadRefusal) -> PreferencesReadWords
    ensures { result ≡ told_read (refuses (refusal_number refusal)) }
{
    PreferencesReadWords {
        refusal: u32::from(refusal.number()),
        preferences: PreferencesWords {
            version: 0,
            set: 0,
            rate: 0,
            resolution: 0,
            lamps: 0,
            repeat: 0,
        },
    }
}

// A reading's answer.
fn read_words(read: Result<Preferences, ReadRefusal>) -> PreferencesReadWords
    ensures { result ≡ told_read (said_read2 read) }
{
    match read {
        Ok(preferences) => PreferencesReadWords {
            refusal: 0,
            preferences: words_of(preferences),
        },
        Err(refusal) => refused(refusal),
    }
}

/// Writes a record to the start of an output. What is not written stays as it was; a refusal writes
/// nothing.
pub fn write(preferences: PreferencesWords, output: &mut [u8]) -> PreferencesWrittenWords
    ensures { WordsWritten preferences output.old result output.new }
{
    let Some(known) = preferences_of(preferences) else {
        return PreferencesWrittenWords {
            refusal: INVALID_ARGUMENT,
            written: 0,
        };
    };
    match write_preferences(known, output) {
        Ok(written) => PreferencesWrittenWords {
            refusal: 0,
            written,
        },
        Err(refusal) => PreferencesWrittenWords {
            refusal: u32::from(refusal.number()),
            written: 0,
        },
    }
}

/// The version 1 reader. Of a record of either version it gives the four fields, as a record of
/// version 1.
pub fn read_1(input: &[u8]) -> PreferencesReadWords
    ensures { result ≡ told_read (as_version1 (read1 input.now)) }
{
    read_words(read_preferences_1(input).map(Preferences::Version1))
}

/// The version 2 reader, which takes records of both versions.
pub fn read_2(input: &[u8]) -> PreferencesReadWords
    ensures { result ≡ told_read (read2 input.now) }
{
    read_words(read_preferences_2(input))
}

/// Applies a record's fields to the devices, in their order. Where one is outside its values
/// nothing is read or written; after a refusal the fields before it stay applied.
pub fn apply(preferences: PreferencesWords, script: &[u8], log: &mut [u8]) -> PortWords
    ensures { TellsAt (refusing invalid_argument) (told no_value) apply_preferences
        (preferences_at preferences) script.now log.old result log.new }
{
    let Some(known) = preferences_of(preferences) else {
        return refusing_words(INVALID_ARGUMENT);
    };
    answer_words(apply_preferences(script, log, known))
}
