// A place in a question, in four numbers.
ghost use Rattle.std.specs.Prelude.{◌≡◌, ◌≤◌, Some, length, get_or, take};
ghost use Rattle.questions.specs.declared.Going.TheVariants.{Seeking};
ghost use Rattle.step_words.specs.Places.{port_in, below, flag_in, sought_in, seeking_in, going_in, place_in};

use ps2_answers::ReadPort;
use questions::{Going, Sought, Wait};

fn port_at(word: u64) -> Option<ReadPort>
    ensures { result ≡ port_in word }
{
    if word == 0x60 {
        Some(ReadPort::Data)
    } else if word == 0x64 {
        Some(ReadPort::Status)
    } else {
        None
    }
}

/// The byte that a number is, and none for one above 255.
pub fn byte_at(word: u64) -> Option<u8>
    ensures { result ≡ below 256 word }
{
    if word < 256 { Some(word as u8) } else { None }
}

fn turns_at(word: u64) -> Option<u32>
    ensures { result ≡ below 4294967296 word }
{
    if word < 4294967296 {
        Some(word as u32)
    } else {
        None
    }
}

fn flag_at(word: u64) -> Option<bool>
    ensures { result ≡ flag_in word }
{
    if word == 0 {
        Some(false)
    } else if word == 1 {
        Some(true)
    } else {
        None
    }
}

#[inline(always)]
fn sought_at(kind: u64, word: u64) -> Option<Sought>
    ensures { result ≡ sought_in kind word }
{
    match kind {
        2 => Some(Sought::InputFree),
        3 => Some(Sought::Response),
        4 => Some(Sought::FirstOfIdentity),
        5 => Some(Sought::SecondOfIdentity),
        6 => Some(Sought::ScancodeSet),
        7 => Some(Sought::PortPassed),
        8 => Some(Sought::MouseIdentity),
        9 => Some(Sought::Byte(byte_at(word)?)),
        10 => Some(Sought::Data),
        11 => Some(Sought::Status),
        _ => None,
    }
}

fn writing_at(first: u64, second: u64) -> Option<Going>
    ensures { result ≡ going_in 1 first second 0 }
{
    let port = port_at(first)?;
    let value = byte_at(second)?;
    Some(Going::Writing(port, value))
}

fn sending_at(first: u64, second: u64) -> Option<Going>
    ensures { result ≡ going_in 12 first second 0 }
{
    let value = byte_at(first)?;
    let further = turns_at(second)?;
    Some(Going::Sending(value, further))
}

fn submitting_at(first: u64) -> Option<Going>
    ensures { result ≡ going_in 13 first 0 0 }
{
    let value = byte_at(first)?;
    Some(Going::Submitting(value))
}

#[inline(always)]
fn seeking_at(kind: u64, first: u64, second: u64, third: u64) -> Option<Going>
    ensures { result ≡ seeking_in (sought_in kind first) (below 4294967296 second) (flag_in third) }
{
    let sought = sought_at(kind, first)?;
    let further = turns_at(second)?;
    let at_data = flag_at(third)?;
    Some(Going::Seeking(Wait {
        sought,
        further,
        at_data,
    }))
}

/// The place that four numbers are.
#[inline(always)]
pub fn going_at(kind: u64, first: u64, second: u64, third: u64) -> Option<Going>
    ensures { result ≡ going_in kind first second third }
{
    match kind {
        1 => writing_at(first, second),
        12 => sending_at(first, second),
        13 => submitting_at(first),
        _ => seeking_at(kind, first, second, third),
    }
}

/// What is waited for, in two numbers.
#[derive(Clone, Copy)]
pub struct Two {
    pub kind: u64,
    pub first: u64,
}

/// The numbers of a place.
#[derive(Clone, Copy)]
pub struct Four {
    pub kind: u64,
    pub first: u64,
    pub second: u64,
    pub third: u64,
}

#[inline(always)]
fn sought_words(sought: Sought) -> Two
    ensures kind { sought_in result.kind result.first ≡ Some sought }
    ensures seeks { 2 ≤ result.kind }
    ensures waits { result.kind ≤ 11 }
{
    match sought {
        Sought::InputFree => Two { kind: 2, first: 0 },
        Sought::Response => Two { kind: 3, first: 0 },
        Sought::FirstOfIdentity => Two { kind: 4, first: 0 },
        Sought::SecondOfIdentity => Two { kind: 5, first: 0 },
        Sought::ScancodeSet => Two { kind: 6, first: 0 },
        Sought::PortPassed => Two { kind: 7, first: 0 },
        Sought::MouseIdentity => Two { kind: 8, first: 0 },
        Sought::Byte(b) => Two {
            kind: 9,
            first: b as u64,
        },
        Sought::Data => Two { kind: 10, first: 0 },
        Sought::Status => Two { kind: 11, first: 0 },
    }
}

fn port_word(port: ReadPort) -> u64
    ensures { port_in result ≡ Some port }
{
    match port {
        ReadPort::Data => 0x60,
        ReadPort::Status => 0x64,
    }
}

fn flag_word(b: bool) -> u64
    ensures { flag_in result ≡ Some b }
{
    if b { 1 } else { 0 }
}

#[inline(always)]
fn wait_words(wait: Wait) -> Four
    ensures { going_in result.kind result.first result.second result.third ≡ Some (Seeking wait) }
{
    let sought = sought_words(wait.sought);
    Four {
        kind: sought.kind,
        first: sought.first,
        second: wait.further as u64,
        third: flag_word(wait.at_data),
    }
}

// The numbers that a place is.
#[inline(always)]
fn going_words(going: Going) -> Four
    ensures { going_in result.kind result.first result.second result.third ≡ Some going }
{
    match going {
        Going::Writing(port, value) => Four {
            kind: 1,
            first: port_word(port),
            second: value as u64,
            third: 0,
        },
        Going::Seeking(wait) => wait_words(wait),
        Going::Sending(value, further) => Four {
            kind: 12,
            first: value as u64,
            second: further as u64,
            third: 0,
        },
        Going::Submitting(value) => Four {
            kind: 13,
            first: value as u64,
            second: 0,
            third: 0,
        },
    }
}

/// Puts a place where it stands in a session's first numbers, and leaves all others.
#[inline(always)]
pub(crate) fn put_place(fields: &mut [u64], going: Going)
    requires { length fields.old ≡ 12 }
    ensures place { place_in fields.new ≡ Some going }
    ensures before { take 3 fields.new ≡ take 3 fields.old }
    ensures operation { get_or fields.new 0 0 ≡ get_or fields.old 0 0 }
    ensures argument { get_or fields.new 1 0 ≡ get_or fields.old 1 0 }
    ensures count { get_or fields.new 2 0 ≡ get_or fields.old 2 0 }
    ensures length { length fields.new ≡ 12 }
{
    let four = going_words(going);
    fields[3] = four.kind;
    fields[4] = four.first;
    fields[5] = four.second;
    fields[6] = four.third;
}
