// The controller's initialisation by numbers: its record
// and the answer are numbers that cross to C.
#![tactic(auto)]

ghost use Rattle.std.specs.Prelude.{not, ◌≡◌, eqb};
ghost use Rattle.ps2_answers.specs.Answers.{used_of, pairs_of};
ghost use Rattle.ps2_init.specs.Answers.{said_init};
ghost use Rattle.ps2_init.specs.Init.{initialize};
ghost use Rattle.port_words.specs.Tells.{Tells};
ghost use Rattle.controller_words.specs.Controller.{controller_of, told_init};

use port_words::answer_words;
use ps2_init::{Initialized, PS2Controller, init};

/// What is known of the controller: whether it was initialised, and whether the keyboard and the
/// mouse passed their resets then. Any number but 0 says yes; 1 does where the library writes it.
#[repr(C)]
#[derive(Clone, Copy)]
pub struct ControllerWords {
    pub initialized: u32,
    pub keyboard: u32,
    pub mouse: u32,
}

/// What initialisation answers: the refusal, 0 where there is none; the port of the read that the
/// script was too short for, or 0; script bytes used and pairs written; and the controller as it is
/// left.
#[repr(C)]
#[derive(Clone, Copy)]
pub struct InitializedWords {
    pub refusal: u32,
    pub port: u32,
    pub used: usize,
    pub pairs: usize,
    pub controller: ControllerWords,
}

// Any number but 0 says yes.
fn is_set(word: u32) -> bool
    ensures { result ≡ not (eqb word 0) }
{
    word != 0
}

// The record that the numbers stand for, and the numbers of a record.
impl From<ControllerWords> for PS2Controller {
    ghost use Rattle.controller_words.specs.Controller.{controller_of};

    ghost from_gives = { λ words controller. controller ≡ controller_of words };

    fn from(words: ControllerWords) -> PS2Controller {
        PS2Controller {
            initialized: is_set(words.initialized),
            keyboard_attached: is_set(words.keyboard),
            mouse_attached: is_set(words.mouse),
        }
    }
}

impl From<PS2Controller> for ControllerWords {
    ghost use Rattle.controller_words.specs.Controller.{controller_numbers};

    ghost from_gives = { λ controller words. words ≡ controller_numbers controller };

    fn from(controller: PS2Controller) -> ControllerWords {
        ControllerWords {
            initialized: u32::from(controller.initialized),
            keyboard: u32::from(controller.keyboard_attached),
            mouse: u32::from(controller.mouse_attached),
        }
    }
}

// The answer of an initialisation that began with these numbers.
// Where it is refused, they come back as they were lent.
#[tactic(auto, using(crate::proofs::Controller::refused_left))]
fn initialized_words(initialized: Initialized, passed: ControllerWords) -> InitializedWords
    ensures { result ≡ told_init passed (said_init initialized.answer initialized.controller)
        (used_of initialized.answer) (pairs_of initialized.answer) }
{
    let told = answer_words(initialized.answer);
    InitializedWords {
        refusal: told.refusal,
        port: told.port,
        used: told.used,
        pairs: told.pairs,
        controller: match initialized.answer {
            Ok(_) => ControllerWords::from(initialized.controller),
            Err(_) => passed,
        },
    }
}

/// Initialises the controller, unless it was before. It becomes initialised only where all steps
/// were done.
pub fn controller_init(
    controller: ControllerWords,
    script: &[u8],
    log: &mut [u8],
) -> InitializedWords
    ensures { Tells (told_init controller) (initialize (controller_of controller)) script.now
        log.old result log.new }
{
    initialized_words(
        init(PS2Controller::from(controller), script, log),
        controller,
    )
}
