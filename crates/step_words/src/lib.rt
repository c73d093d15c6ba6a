//! Operations that are run a byte at a time, with all that is kept of one in 256 lent numbers.
//!
//! The first twelve numbers say which operation it is, how many replies there are, the place in the
//! question that is being asked, and at the end what the operation came to. Behind them lie the
//! bytes that were thrown away, and then the replies.
#![tactic(auto)]

mod arguments;
mod ends;
mod places;
mod reads;
mod steps;
mod whole;

pub use ends::{Advance, Session};
pub use reads::{kept, wanted};
pub use whole::{RequestWords, STEP_WORDS, begin, next};
