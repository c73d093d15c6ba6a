// All that is kept of a session in one lent slice, and requests as numbers that cross to C.
ghost use Rattle.std.specs.Prelude.{◌≡◌, Some};
ghost use Rattle.step_words.specs.declared.ends.Advance.TheVariants.{Asks};
ghost use Rattle.step_words.specs.Arguments.{operation_in};
ghost use Rattle.step_words.specs.Whole.{request_numbers, refusing, StepAll, BeginAll, NextWords, BeginWords};

use crate::arguments::operation_at;
use crate::ends::Advance;
use crate::steps::{begin_in, next_in};
use questions::Request;
use sessions::Operation;

/// The numbers that are kept of an operation.
pub const STEP_WORDS: usize = 256;

// Where its parts begin behind the first: the counts of the bytes that were thrown away, those
// bytes, and the replies.
const COUNTS_AT: usize = 12;

const COUNTS: usize = 4;

const BYTES: usize = 16;

/// A request as numbers: 1 a read, 2 a write, 0 the end; the port of a read or a write; the byte of
/// a write; and at the end the refusal, 0 where there is none.
#[repr(C)]
#[derive(Clone, Copy)]
pub struct RequestWords {
    pub kind: u32,
    pub port: u32,
    pub byte: u32,
    pub refusal: u32,
}

/// A refusal before anything is asked.
pub fn refusing_request(refusal: u32) -> RequestWords
    ensures { result ≡ refusing refusal }
{
    RequestWords {
        kind: 0,
        port: 0,
        byte: 0,
        refusal,
    }
}

/// A request as numbers.
pub fn request_words(request: Request) -> RequestWords
    ensures { result ≡ request_numbers (Asks request) }
{
    match request {
        Request::Read(port) => RequestWords {
            kind: 1,
            port: u32::from(port.number()),
            byte: 0,
            refusal: 0,
        },
        Request::Write(port, value) => RequestWords {
            kind: 2,
            port: u32::from(port.number()),
            byte: u32::from(value),
            refusal: 0,
        },
    }
}

// What a step comes to, as numbers.
fn advance_words(advance: Advance) -> RequestWords
    ensures { result ≡ request_numbers advance }
{
    match advance {
        Advance::Malformed => refusing_request(21),
        Advance::Asks(request) => request_words(request),
        Advance::Ends(refusal) => refusing_request(refusal),
    }
}

// One byte, on all numbers.
fn next_all(words: &mut [u64; STEP_WORDS], byte: u8) -> Advance
    ensures { StepAll words.old byte result words.new }
{
    let (fields, rest) = words.split_at_mut(COUNTS_AT);
    let (counts, rest) = rest.split_at_mut(COUNTS);
    let (bytes, replies) = rest.split_at_mut(BYTES);
    next_in(fields, counts, bytes, replies, byte)
}

// The beginning, on all numbers.
fn begin_all(
    words: &mut [u64; STEP_WORDS],
    number: u64,
    argument: u64,
    operation: Operation,
) -> Advance
    requires { operation_in number argument ≡ Some operation }
    ensures { BeginAll operation result words.new }
{
    let (fields, rest) = words.split_at_mut(COUNTS_AT);
    let (counts, rest) = rest.split_at_mut(COUNTS);
    let (bytes, _) = rest.split_at_mut(BYTES);
    begin_in(fields, counts, bytes, number, argument, operation)
}

// The same by an operation's number in 64 bits.
fn begin_by(words: &mut [u64], number: u64, argument: u64) -> RequestWords
    ensures { BeginWords words.old number argument result words.new }
{
    let Some(operation) = operation_at(number, argument) else {
        return refusing_request(255);
    };
    let Some(all) = words.as_mut_array() else {
        return refusing_request(21);
    };
    let advance = begin_all(all, number, argument, operation);
    advance_words(advance)
}

/// Begins an operation on 256 lent numbers: what it asks first. 255 where number and argument stand
/// for nothing, and then 21 where they are not 256; then they are as they were.
pub fn begin(words: &mut [u64], number: u32, argument: u64) -> RequestWords
    ensures { BeginWords words.old number argument result words.new }
{
    begin_by(words, u64::from(number), argument)
}

/// The byte that was read, or the write that was made: what is asked next. 255 where it is no byte,
/// 21 where the numbers are no session that runs; then they are as they were.
pub fn next(words: &mut [u64], byte: u32) -> RequestWords
    ensures { NextWords words.old byte result words.new }
{
    if byte > 255 {
        return refusing_request(255);
    }
    let Some(all) = words.as_mut_array() else {
        return refusing_request(21);
    };
    let advance = next_all(all, byte as u8);
    advance_words(advance)
}
