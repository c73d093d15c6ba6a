// Types the text on standard input: writes its scancodes to standard output. The first 65,536
// characters are taken; more are ignored. A refusal is told on standard error.
#![tactic(auto)]

use program_status::{ended, read_full};
use std::io::{BufWriter, Eprint, Result, Write};
use std::process::ExitCode;

const TEXT_LIMIT: usize = 65536;

// What came before a read that fails is typed too.
fn type_input(rt: &HostRuntime) -> Result<()> {
    let mut text = [0; TEXT_LIMIT];
    let (count, read) = read_full(&mut rt.stdin(), &mut text);
    let mut output = BufWriter::new(rt.alloc(), rt.stdout())?;
    if let Err(refusal) = typing::write_text(&text[..count], &mut output)? {
        let number = refusal.number();
        eprintln!(rt; "refused {number}")?;
    }
    output.flush()?;
    read
}

fn main(rt: HostRuntime) -> ExitCode {
    ended(&rt, "tabletypes", type_input(&rt))
}
