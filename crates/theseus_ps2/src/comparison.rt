// The Rust's functions and ours on one script and on two logs that begin alike.
ghost use Rattle.theseus_ps2.specs.Comparison.{Starts};

use crate::{PS2Controller, Recording};

/// What the two answered, and how the Rust's hardware was left.
#[derive(Drop)]
pub struct Both<'a, O: Drop, R: Drop> {
    pub ours: O,
    pub rusts: R,
    pub left: Recording<'a>,
}

/// A controller over a script and a log, of which nothing is used or written yet.
pub fn start<'a>(script: &'a [u8], log: &'a mut [u8]) -> PS2Controller<Recording<'a>>
    ensures { Starts script.now log.old result.hardware }
{
    PS2Controller {
        hardware: Recording::new(script, log),
        keyboard_attached: false,
        mouse_attached: false,
    }
}
