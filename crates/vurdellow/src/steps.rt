// Operations on the ports a byte at a time: no script, no log, no callback.
ghost use Rattle.step_words.specs.Whole.{NextWords, BeginWords};
ghost use Rattle.step_words.specs.Reads.{WantedWords, KeptRead};

use port_words::KeptWords;
use step_words::{RequestWords, begin, kept, next, wanted};

/// Begins an operation, by its number and its argument, on 256 lent numbers: what is asked first.
#[unsafe(no_mangle)]
pub extern "C" fn vd_begin(words: &mut [u64], operation: u32, argument: u64) -> RequestWords
    ensures { BeginWords words.old operation argument result words.new }
{
    begin(words, operation, argument)
}

/// The byte that was read, or after a write any byte: what is asked next, or that the operation is
/// at its end.
#[unsafe(no_mangle)]
pub extern "C" fn vd_next(words: &mut [u64], byte: u32) -> RequestWords
    ensures { NextWords words.old byte result words.new }
{
    next(words, byte)
}

/// What is asked, once more, without a step.
#[unsafe(no_mangle)]
pub extern "C" fn vd_wanted(words: &[u64]) -> RequestWords
    ensures { WantedWords words.now result }
{
    wanted(words)
}

/// The bytes that were thrown away so far.
#[unsafe(no_mangle)]
pub extern "C" fn vd_step_kept(words: &[u64]) -> KeptWords
    ensures { KeptRead words.now result }
{
    kept(words)
}
