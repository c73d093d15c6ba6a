// Prints the key events of the scancodes on standard input.
// The first 65,536 bytes are the script; more are ignored.
#![tactic(auto)]

use program_status::{ended, read_full};
use std::io::{BufWriter, Result, Write};
use std::process::ExitCode;

const SCRIPT_LIMIT: usize = 65536;

// What came before a read that fails is listed too.
fn list_input(rt: &HostRuntime) -> Result<()> {
    let mut script = [0; SCRIPT_LIMIT];
    let (count, read) = read_full(&mut rt.stdin(), &mut script);
    let mut output = BufWriter::new(rt.alloc(), rt.stdout())?;
    key_listing::write_keys(&script[..count], &mut output)?;
    output.flush()?;
    read
}

fn main(rt: HostRuntime) -> ExitCode {
    ended(&rt, "tablekeys", list_input(&rt))
}
