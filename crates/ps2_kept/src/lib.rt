// The bytes that receiving throws away: the earliest of them are kept, and the others counted.
#![tactic(auto)]

ghost use Rattle.std.specs.Prelude.{◌≡◌};
ghost use Rattle.ps2_answers.specs.Answers.{ended};
ghost use Rattle.ps2_kept.specs.Kept.{nothing_kept, kept_or, kept_at};
ghost use Rattle.ps2_kept.specs.Added.{added};

use ps2_answers::{Answer, Refusal};

/// The bytes that are kept; any further ones are only counted.
pub const KEPT_LIMIT: usize = 16;

/// Bytes that were thrown away: the earliest, in order, in the first `count` places, and how many
/// others there were.
#[derive(Clone, Copy)]
pub struct KeptBytes {
    pub bytes: [u8; KEPT_LIMIT],
    pub count: u8,
    pub others: u32,
}

/// An answer, with the bytes that the whole run threw away.
/// They are handed back with a failure too.
#[derive(Clone, Copy)]
pub struct Handed<T> {
    pub answer: Answer<T>,
    pub kept: KeptBytes,
}

/// No byte yet.
pub fn none_kept() -> KeptBytes
    ensures { result ≡ nothing_kept }
{
    KeptBytes {
        bytes: [0; KEPT_LIMIT],
        count: 0,
        others: 0,
    }
}

impl KeptBytes {
    /// One byte more: in the first free place, or counted. The count stops at its greatest number,
    /// which no operation of the ports reaches.
    #[tactic(auto, unfolding(crate::specs::Added::added))]
    pub fn add(&mut self, byte: u8)
        ensures { self.new ≡ added self.old byte }
    {
        let place = usize::from(self.count);
        if place < KEPT_LIMIT {
            self.bytes[place] = byte;
            self.count += 1;
        } else if self.others < u32::MAX {
            self.others += 1;
        }
    }

    /// What is handed back beside an answer: nothing where the script was used up or the log full.
    pub fn after<T: Copy>(self, answer: Answer<T>) -> KeptBytes
        ensures { result ≡ kept_at (ended answer) self }
    {
        self.or_lent(none_kept(), answer)
    }

    /// The same of bytes that were lent: after 2 and 3 they are as they were lent.
    pub fn or_lent<T: Copy>(self, lent: KeptBytes, answer: Answer<T>) -> KeptBytes
        ensures { result ≡ kept_or lent (ended answer) self }
    {
        match answer {
            Ok(_) => self,
            Err(refused) => match refused.value {
                Refusal::Lacking(_) => lent,
                Refusal::Failed(_) => self,
            },
        }
    }
}
