// The handler record lent as numbers: a fresh one, the handler call and the taking.
ghost use Rattle.handler_words.specs.Calls.{WordsHandled, WordsTaken, WordsFresh};

use handler_words::{HandledWords, TakenWords, fresh_words, handle_words, take_words};

/// Makes a lent record a fresh one, for a table with 1 keyboard or 2, under profile 0 (none) or 1
/// (the tournament's).
#[unsafe(no_mangle)]
pub extern "C" fn vd_handler_fresh(words: &mut [u64], keyboards: u32, profile: u32) -> u32
    ensures { WordsFresh words.old keyboards profile result words.new }
{
    fresh_words(words, keyboards, profile)
}

/// A handler call on a lent record, for side 1 or 2.
#[unsafe(no_mangle)]
pub extern "C" fn vd_handle(
    words: &mut [u64],
    side: u32,
    script: &[u8],
    log: &mut [u8],
) -> HandledWords
    ensures { WordsHandled words.old side script.now log.old result words.new log.new }
{
    handle_words(words, side, script, log)
}

/// A taking from a lent record.
#[unsafe(no_mangle)]
pub extern "C" fn vd_take(words: &mut [u64]) -> TakenWords
    ensures { WordsTaken words.old result words.new }
{
    take_words(words)
}
