//! The operations on the ports, each once, with whoever replies to its questions.
#![tactic(auto)]

ghost use Rattle.std.specs.Prelude.{◌≡◌};
ghost use Rattle.questions.specs.declared.Question.{Question as AQuestion};
ghost use Rattle.talks.specs.Talk.{asks};
ghost use Rattle.talks.specs.Heard.{Replies, by, heard, fails_as, forgives, works, said};

mod application;
mod commands;
mod controller;
mod keyboard;
mod mouse;

pub use application::apply_preferences;
pub use commands::{
    command, command_by, command_pair, read_data, read_status, seek, self_test, write,
    write_command,
};
pub use controller::{ControllerLeft, initialize, read_config, write_config};
pub use keyboard::{
    get_scancode_set, keyboard_command, keyboard_detect, keyboard_init, keyboard_waits,
    reset_keyboard, set_keyboard_repeat, set_port_led, set_scancode_set,
};
pub use mouse::{
    IdentityLeft, disable_packet_streaming, enable_packet_streaming, mouse_command, mouse_id,
    mouse_waits, read_packet, reset_mouse, set_mouse_id, set_resolution, set_sampling_rate,
};
use ps2_answers::Failure;
use questions::Question;

/// Why a talk stops.
#[derive(Clone, Copy)]
pub enum Stop {
    /// This question has no reply yet.
    Asks(Question),
    /// The operation failed.
    Refused(Failure),
}

/// Whoever replies to questions: a memory of what the ports replied so far.
pub trait Partner {
    ghost replies: { Replies Self };

    /// The reply to a question: the byte that a wait found; or that there is none yet.
    fn ask(&mut self, question: Question) -> Result<Option<u8>, Stop>
        ensures { by result self.new ≡ heard replies (asks question) self.old };
}

// A failure replaced by another. A question without a reply stays.
fn failing_as<T: Copy>(answer: Result<T, Stop>, failure: Failure) -> Result<T, Stop>
    ensures { result ≡ fails_as failure answer }
{
    match answer {
        Ok(value) => Ok(value),
        Err(Stop::Asks(question)) => Err(Stop::Asks(question)),
        Err(Stop::Refused(_)) => Err(Stop::Refused(failure)),
    }
}

// A failure forgiven. A question without a reply stays.
fn tried<T: Copy>(answer: Result<T, Stop>) -> Result<Result<T, Failure>, Stop>
    ensures { result ≡ forgives answer }
{
    match answer {
        Ok(value) => Ok(Ok(value)),
        Err(Stop::Asks(question)) => Err(Stop::Asks(question)),
        Err(Stop::Refused(failure)) => Ok(Err(failure)),
    }
}

// What was told before.
fn told<T: Copy>(answer: Result<T, Failure>) -> Result<T, Stop>
    ensures { result ≡ said answer }
{
    match answer {
        Ok(value) => Ok(value),
        Err(failure) => Err(Stop::Refused(failure)),
    }
}

// Whether there was no failure, which is forgiven. A question without a reply stays.
fn worked<T: Copy>(answer: Result<T, Stop>) -> Result<bool, Stop>
    ensures { result ≡ works answer }
{
    match answer {
        Ok(_) => Ok(true),
        Err(Stop::Asks(question)) => Err(Stop::Asks(question)),
        Err(Stop::Refused(_)) => Ok(false),
    }
}
