// How the programs read and end: with status 0, or with another and a word on standard error that
// says what failed; quietly where the reader of their output went away.
#![tactic(auto)]

ghost use Rattle.std.specs.Prelude.{◌≡◌, ◌<◌, ◌≤◌, length, take, OnOk};
ghost use Rattle.std.specs.Io.KnownBytes.{Consumes, IsAtEnd};
ghost use Rattle.std.specs.Process.{exit_status};
ghost use Rattle.program_status.specs.Status.{failed_status, status_of};

use std::io::{Eprint, Error, ErrorKind, Read, Result};
use std::process::ExitCode;

/// Reads into the front of `buffer` until it is full or the input ends. Answers how many bytes
/// came, and how the reading ended: what came before a read that failed is in the buffer too.
pub fn read_full<R: Read>(input: &mut R, buffer: &mut [u8]) -> (usize, Result<()>)
    ensures within { result.0 ≤ length buffer.new }
    ensures bytes { Consumes (R.remaining input.old) (R.remaining input.new)
        (take result.0 buffer.new) }
    ensures ends { OnOk result.1 (result.0 < length buffer.new → IsAtEnd (R.remaining input.new)) }
{
    let mut filled = 0;
    for _ in 0..u64::MAX {
        if buffer.len() <= filled {
            return (filled, Ok(()));
        }
        match input.read(&mut buffer[filled..]) {
            Ok(0) => return (filled, Ok(())),
            Ok(count) => filled += count,
            Err(e) => {
                if e.kind() != ErrorKind::Interrupted {
                    return (filled, Err(e));
                }
            }
        }
    }
    (filled, Err(Error::from(ErrorKind::Interrupted)))
}

// The status by which a shell tells that a closed pipe ended a program, and that of other failures.
fn failed_status(kind: ErrorKind) -> u8
    ensures { result ≡ failed_status kind }
{
    match kind {
        ErrorKind::BrokenPipe => 141,
        _ => 1,
    }
}

/// The status that a program ends with, by what its work came to: 0 where all was done, 141 where
/// the reader of its output went away, 1 where anything else failed, which is then told on
/// standard error behind the program's name.
pub fn ended(rt: &impl Eprint, program: &str, done: Result<()>) -> ExitCode
    ensures { exit_status result ≡ status_of done }
{
    let Err(e) = done else {
        return ExitCode::from(0);
    };
    if e.kind() != ErrorKind::BrokenPipe {
        // Where this can't be written either, the status alone says it.
        let _ = eprintln!(rt; "{program}: {e}");
    }
    ExitCode::from(failed_status(e.kind()))
}
