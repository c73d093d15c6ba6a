// The two sides of a table, and the sides of the events that wait, as a row of bits: bit i is the
// side of the i-th event, the oldest first.
#![tactic(auto)]

ghost use Rattle.std.specs.Prelude.{◌≡◌, ◌%◌, ◌^◌, ◌<◌};
ghost use Rattle.std.specs.Int.Count.{ones};
ghost use Rattle.bits.specs.Bits.{put_bit};
ghost use Rattle.keyboard_sides.specs.Sides.{is_second, sides_of, count_of, oldest_side, without_oldest_side, with_side};

// The bits of a word.
const WORD: usize = 64;

/// The side of a table that a keyboard stands at: the first one's is on the first port, the second
/// one's on the second.
#[derive(Clone, Copy, PartialEq, Eq)]
pub enum Side {
    First,
    Second,
}

/// The sides of up to 128 events in two words, the low bits first. A bit that is set says the
/// second side. The bits behind those of the events that wait may be anything. C has the words as
/// two numbers.
#[derive(Clone, Copy, PartialEq, Eq)]
pub struct Sides {
    pub low: u64,
    pub high: u64,
}

impl Sides {
    /// How many of the first `count` events are of a side.
    pub fn count_of(self, side: Side, count: usize) -> usize
        ensures { result ≡ count_of side (sides_of self count) }
    {
        let second = self.second_of(count);
        match side {
            Side::First => count - second,
            Side::Second => second,
        }
    }

    // How many of the first `count` events are of the second side.
    fn second_of(self, count: usize) -> usize
        ensures { result ≡ count_of Side.Second (sides_of self count) }
    {
        if count <= WORD {
            ones_below(self.low, count)
        } else {
            ones_below(self.low, WORD) + ones_below(self.high, count - WORD)
        }
    }

    /// The side of the oldest event.
    pub fn oldest(self) -> Side
        ensures { result ≡ oldest_side self }
    {
        if self.low & 1 == 0 {
            Side::First
        } else {
            Side::Second
        }
    }

    /// The sides without the oldest.
    pub fn without_oldest(self) -> Sides
        ensures { result ≡ without_oldest_side self }
    {
        Sides {
            low: (self.low >> 1) | (self.high << 63),
            high: self.high >> 1,
        }
    }

    /// The sides of `count` events with one more behind them; behind 128 there is no place for one.
    pub fn with_side(self, side: Side, count: usize) -> Sides
        ensures { result ≡ with_side side count self }
    {
        if count < WORD {
            Sides {
                low: put(self.low, count, side),
                ..self
            }
        } else if count < 2 * WORD {
            Sides {
                high: put(self.high, count - WORD, side),
                ..self
            }
        } else {
            self
        }
    }
}

// How many of the `n` lowest bits of a word are set.
fn ones_below(word: u64, n: usize) -> usize
    ensures { result ≡ ones (word % 2 ^ n) }
{
    if n < WORD {
        (word & ((1 << n) - 1)).count_ones() as usize
    } else {
        word.count_ones() as usize
    }
}

// A word with bit `k` made to say a side.
fn put(word: u64, k: usize, side: Side) -> u64
    requires { k < 64 }
    ensures { result ≡ put_bit k (is_second side) word }
{
    let bit = 1 << k;
    match side {
        Side::First => word & !bit,
        Side::Second => word | bit,
    }
}
