// Keyboards that speak scan code set 2: their key stream
// converted to set 1, by the 8042's translation table.
#![tactic(auto)]

ghost use Rattle.std.specs.Prelude.{◌≡◌};
ghost use Rattle.scancode_set2.specs.Convert.{outcome, converted, refusal_number, said_converted};

use translation::{AFTER_F0, ALONE, ALONE_FROM_80};

mod translation;

/// Why a conversion ends before its stream does: 22, 23 and 24 by number.
#[derive(Clone, Copy, Debug, PartialEq, Eq)]
pub enum ConvertRefusal {
    NoEntry = 22,
    OutputFull = 23,
    EndsAfterF0 = 24,
}

impl ConvertRefusal {
    /// The number of a refusal, as an answer tells it.
    pub fn number(self) -> u8
        ensures { result ≡ refusal_number self }
    {
        self as u8
    }
}

/// An answer with its counts, which are told with a refusal too: bytes of the stream used, bytes of
/// the output written.
#[derive(Clone, Copy)]
pub struct Conversion {
    pub answer: Result<(), ConvertRefusal>,
    pub used: usize,
    pub written: usize,
}

// F0, which stands before the code of a key that is released.
const BREAK: u8 = 0xF0;

// What stands for the byte of a code that has no entry.
const NO_ENTRY: u8 = 0x00;

// From here on a code has the top bit: F0, E0 and E1, and two keys.
const TOP_BIT: u8 = 0x80;

/// Converts a set 2 key stream to set 1, from the start of both slices on. Behind the bytes written
/// the output stays as it was.
/// Refused: no entry (22), output full (23), ends after F0 (24). OSDev Wiki, "PS/2 Keyboard", "Scan
/// Code Set 2"; the conversion is Brouwer's, "Keyboard scancodes".
pub fn convert(stream: &[u8], out: &mut [u8]) -> Conversion
    ensures { outcome (said_converted result.answer) result.used result.written out.new
        ≡ converted stream.now out.old }
{
    let mut used = 0;
    let mut written = 0;
    while used < stream.len() {
        let code = stream[used];
        let after = used + 1;
        let byte: u8;
        let next: usize;
        // asked by the top bit first, so that the processor
        // sees E0 and F0 come and guesses what follows them
        if code < TOP_BIT {
            byte = ALONE[usize::from(code)];
            next = after;
        } else if code == BREAK {
            if after == stream.len() {
                return Conversion {
                    answer: Err(ConvertRefusal::EndsAfterF0),
                    used,
                    written,
                };
            }
            byte = AFTER_F0[usize::from(stream[after])];
            next = after + 1;
        } else {
            byte = ALONE_FROM_80[usize::from(code - TOP_BIT)];
            next = after;
        }
        if byte == NO_ENTRY {
            return Conversion {
                answer: Err(ConvertRefusal::NoEntry),
                used,
                written,
            };
        }
        if out.len() <= written {
            return Conversion {
                answer: Err(ConvertRefusal::OutputFull),
                used,
                written,
            };
        }
        out[written] = byte;
        written += 1;
        used = next;
    }
    Conversion {
        answer: Ok(()),
        used,
        written,
    }
}
