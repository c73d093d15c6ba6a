// Numbers below 4,294,967,296 as bytes: groups of seven bits, lowest first, the top bit set on all
// but the last, in the shortest form.

ghost use Rattle.std.specs.Prelude.{◌≡◌, ◌-◌, ◌≤◌, ◌<◌, length, drop, get_or};
ghost use Rattle.exchange.specs.Answer.{number_answered};
ghost use Rattle.preferences.specs.Coding.{groups_end, coding};
ghost use Rattle.preferences.specs.NumberReading.{read_number, said_number};
ghost use Rattle.preferences.specs.NumberWriting.{outcome, number_written, said_written, count_written};

/// A number that was read, and how many bytes it took.
#[derive(Clone, Copy, PartialEq, Eq)]
pub struct Number {
    pub value: u32,
    pub count: usize,
}

/// A number is cut short, too large or not in the shortest form.
#[derive(Clone, Copy, PartialEq, Eq)]
pub struct Malformed;

impl Malformed {
    /// The number of the refusal, as an answer tells it.
    pub fn number(self) -> u8
        ensures { result ≡ number_answered (said_number (Err self)) }
    {
        27
    }
}

/// An output has no room for a number.
#[derive(Clone, Copy, PartialEq, Eq)]
pub struct OutputShort;

impl OutputShort {
    /// The number of the refusal, as an answer tells it.
    pub fn number(self) -> u8
        ensures { result ≡ number_answered (said_written (Err self)) }
    {
        23
    }
}

// A group is below this; a byte from here on has its top bit set, and another group follows.
const GROUPS_END: u8 = 128;

// What a group counts more than the one before it.
const SCALE: u64 = 128;

// Five groups hold every number.
const MOST_GROUPS: usize = 5;

// Numbers are below this.
const NUMBERS_END: u64 = 0x1_0000_0000;

// From these numbers on a number has two, three, four and five groups.
const TWO_GROUPS: u32 = 0x80;

const THREE_GROUPS: u32 = 0x4000;

const FOUR_GROUPS: u32 = 0x20_0000;

const FIVE_GROUPS: u32 = 0x1000_0000;

/// Reads the number that stands in a string from a place on, which may lie past its end: the number
/// is cut short there.
#[inline(always)]
pub fn read_number(input: &[u8], at: usize) -> Result<Number, Malformed>
    ensures { said_number result ≡ read_number (drop at input.now) }
{
    let Some(&first) = input.get(at) else {
        return Err(Malformed);
    };
    if first < GROUPS_END {
        return Ok(Number {
            value: u32::from(first),
            count: 1,
        });
    }
    read_groups(input, at, u64::from(first - GROUPS_END))
}

// Reads the other groups of a number, behind the first.
fn read_groups(input: &[u8], at: usize, first: u64) -> Result<Number, Malformed>
    requires { (at < length input.now) × (groups_end ≤ get_or input.now at 0)
        × (first ≡ get_or input.now at 0 - groups_end) }
    ensures { said_number result ≡ read_number (drop at input.now) }
{
    let mut value = first;
    let mut scale = SCALE;
    for place in 1..MOST_GROUPS {
        let Some(&byte) = input.get(at + place) else {
            return Err(Malformed);
        };
        let whole = value + u64::from(byte % GROUPS_END) * scale;
        if byte < GROUPS_END {
            if byte == 0 || NUMBERS_END <= whole {
                return Err(Malformed);
            }
            return Ok(Number {
                value: whole as u32,
                count: place + 1,
            });
        }
        value = whole;
        scale *= SCALE;
    }
    Err(Malformed)
}

/// How many bytes a number takes.
pub fn number_length(number: u32) -> usize
    ensures { result ≡ length (coding number) }
{
    match number {
        ..TWO_GROUPS => 1,
        ..THREE_GROUPS => 2,
        ..FOUR_GROUPS => 3,
        ..FIVE_GROUPS => 4,
        _ => 5,
    }
}

/// Writes a number into an output from a place on, and tells how many bytes it takes. What is not
/// written stays as it was; a refusal writes nothing.
pub fn write_number(number: u32, output: &mut [u8], at: usize) -> Result<usize, OutputShort>
    ensures { outcome (said_written result) (count_written result) output.new
        ≡ number_written number at output.old }
{
    let length = number_length(number);
    if output.len().saturating_sub(at) < length {
        return Err(OutputShort);
    }
    put_number(number, &mut output[at..at + length]);
    Ok(length)
}

// Writes a number into as much room as it takes.
fn put_number(number: u32, room: &mut [u8])
    requires { length room.old ≡ length (coding number) }
    ensures { room.new ≡ coding number }
{
    let mut left = number;
    for group in room.iter_mut() {
        *group = if left < TWO_GROUPS {
            left as u8
        } else {
            (left % TWO_GROUPS) as u8 + GROUPS_END
        };
        left /= TWO_GROUPS;
    }
}
