// A club's preferences: written, read and applied.
ghost use Rattle.std.specs.Prelude.{◌≡◌};
ghost use Rattle.preferences.specs.Reading.{read1, read2};
ghost use Rattle.argument_words.specs.Arguments.{invalid_argument};
ghost use Rattle.preferences_application.specs.Application.{apply_preferences};
ghost use Rattle.port_words.specs.Told.{refusing, no_value, told};
ghost use Rattle.port_words.specs.Tells.{TellsAt};
ghost use Rattle.preferences_words.specs.Record.{preferences_at};
ghost use Rattle.preferences_words.specs.Writing.{WordsWritten};
ghost use Rattle.preferences_words.specs.Reading.{told_read, as_version1};

use port_words::PortWords;
use preferences_words::{
    PreferencesReadWords, PreferencesWords, PreferencesWrittenWords, apply, read_1, read_2, write,
};

/// Writes a record to the start of an output. What is not written stays as it was; a refusal writes
/// nothing.
#[unsafe(no_mangle)]
pub extern "C" fn vd_preferences_write(
    preferences: PreferencesWords,
    output: &mut [u8],
) -> PreferencesWrittenWords
    ensures { WordsWritten preferences output.old result output.new }
{
    write(preferences, output)
}

/// The version 1 reader. Of a record of either version it gives the four fields, as a record of
/// version 1.
#[unsafe(no_mangle)]
pub extern "C" fn vd_preferences_read_1(input: &[u8]) -> PreferencesReadWords
    ensures { result ≡ told_read (as_version1 (read1 input.now)) }
{
    read_1(input)
}

/// The version 2 reader, which takes records of both versions.
#[unsafe(no_mangle)]
pub extern "C" fn vd_preferences_read_2(input: &[u8]) -> PreferencesReadWords
    ensures { result ≡ told_read (read2 input.now) }
{
    read_2(input)
}

/// Applies a record's fields to the devices, in their order. Where one is outside its values
/// nothing is read or written; after a refusal the fields before it stay applied.
#[unsafe(no_mangle)]
pub extern "C" fn vd_preferences_apply(
    preferences: PreferencesWords,
    script: &[u8],
    log: &mut [u8],
) -> PortWords
    ensures { TellsAt (refusing invalid_argument) (told no_value) apply_preferences
        (preferences_at preferences) script.now log.old result log.new }
{
    apply(preferences, script, log)
}
