// The dispatcher lent as numbers: a fresh one and the step. The first 144 of its numbers are the
// handler's record, from which `vd_take` takes.
ghost use Rattle.dispatcher_words.specs.Steps.{StepMade};
ghost use Rattle.dispatcher_words.specs.Fresh.{MadeFresh};

use dispatcher_words::{StepWords, dispatcher_fresh, dispatcher_step};

/// Makes a lent dispatcher a fresh one, for a table as `vd_handler_fresh` has it and a mouse of
/// identity 0, 3 or 4.
#[unsafe(no_mangle)]
pub extern "C" fn vd_dispatcher_fresh(
    words: &mut [u64],
    keyboards: u32,
    profile: u32,
    identity: u32,
) -> u32
    ensures { MadeFresh words.old keyboards profile identity result words.new }
{
    dispatcher_fresh(words, keyboards, profile, identity)
}

/// A step of a lent dispatcher: one source that waits is served.
#[unsafe(no_mangle)]
pub extern "C" fn vd_dispatcher_step(
    words: &mut [u64],
    first: &[u8],
    second: &[u8],
    mouse: &[u8],
    log: &mut [u8],
) -> StepWords
    ensures { StepMade words.old first.now second.now mouse.now log.old result words.new log.new }
{
    dispatcher_step(words, first, second, mouse, log)
}
