// Converts the set 2 key stream on standard input to set 1, on standard
// output. The first 65,536 bytes are taken; more are ignored. A refusal
// is told on standard error, with the place of the code that was refused.
#![tactic(auto)]

use program_status::{ended, read_full};
use std::io::{Eprint, Result, Write};
use std::process::ExitCode;

const STREAM_LIMIT: usize = 65536;

// A refusal is told where the output can't be written, too.
fn write_converted(rt: &HostRuntime, stream: &[u8], out: &mut [u8]) -> Result<()> {
    let conversion = scancode_set2::convert(stream, out);
    let done = rt.stdout().write_all(&out[..conversion.written]);
    if let Err(refusal) = conversion.answer {
        let number = refusal.number();
        let place = conversion.used;
        eprintln!(rt; "refused {number} at byte {place}")?;
    }
    done
}

// What came before a read that fails is converted too.
fn convert_input(rt: &HostRuntime) -> Result<()> {
    let mut stream = [0; STREAM_LIMIT];
    let (count, read) = read_full(&mut rt.stdin(), &mut stream);
    // The output is never longer than the stream.
    let mut out = [0; STREAM_LIMIT];
    write_converted(rt, &stream[..count], &mut out)?;
    read
}

fn main(rt: HostRuntime) -> ExitCode {
    ended(&rt, "set2to1", convert_input(&rt))
}
