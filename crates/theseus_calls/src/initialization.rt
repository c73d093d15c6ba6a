// The controller's initialisation.
ghost use Rattle.ps2_init.specs.Init.{initialize};
ghost use Rattle.ps2_kept.specs.Kept.{nothing_kept};
ghost use Rattle.ps2_kept.specs.Added.{keeping_onto};
ghost use Rattle.std.specs.Prelude.{◌≡◌};
ghost use Rattle.controller_words.specs.Controller.{controller_of};
ghost use Rattle.theseus_ps2.specs.Messages.{said};
ghost use Rattle.port_words.specs.Tells.{Tells};
ghost use Rattle.theseus_calls.specs.Left.{told_initialized, initialized_recorded};

use crate::answers::{NotedWords, Run, begun_recording, recorded_words, run_of};
use controller_words::ControllerWords;
use ps2_init::PS2Controller as Ours;
use theseus_ps2::{PS2Controller, Recording, init};

/// What initialisation answers, and the controller as it is left: 0 and 1, or its numbers as they were
/// lent after any refusal.
#[repr(C)]
#[derive(Clone, Copy)]
pub struct InitializedNotedWords {
    pub run: NotedWords,
    pub controller: ControllerWords,
}

// What the Rust's initialisation answered that began with these numbers, by how it left its static and its recording.
fn initialized_words(
    answer: Result<(), &'static str>,
    now: Ours,
    left: &Recording<'_>,
    passed: ControllerWords,
) -> InitializedNotedWords
    ensures { result ≡ initialized_recorded passed (said answer.entry) now left.now }
{
    InitializedNotedWords {
        controller: match answer {
            Ok(_) if !left.short => ControllerWords::from(now),
            _ => passed,
        },
        run: recorded_words(answer, left),
    }
}

// Initialises the controller of this record, which these numbers stand for.
fn initialized<'a>(
    passed: Ours,
    numbers: ControllerWords,
    script: &'a [u8],
    log: &'a mut [u8],
) -> Run<'a, InitializedNotedWords>
    ensures told { Tells (told_initialized numbers) (keeping_onto nothing_kept (initialize passed))
        script.now log.old result.words result.log.now }
    ensures same_log { result.log.ghost_name ≡ log.entry.ghost_name }
{
    let mut rusts = PS2Controller {
        hardware: begun_recording(script, log),
        keyboard_attached: passed.keyboard_attached,
        mouse_attached: passed.mouse_attached,
    };
    let mut is_completed = passed.initialized;
    let answer = init(&mut is_completed, &mut rusts);
    let now = Ours {
        initialized: is_completed,
        keyboard_attached: rusts.keyboard_attached,
        mouse_attached: rusts.mouse_attached,
    };
    let words = initialized_words(answer, now, &rusts.hardware, numbers);
    run_of(words, rusts.hardware)
}

/// Initialises the controller, unless it was before.
#[unsafe(no_mangle)]
pub extern "C" fn vdr_controller_init(
    controller: ControllerWords,
    script: &[u8],
    log: &mut [u8],
) -> InitializedNotedWords
    ensures { Tells (told_initialized controller)
        (keeping_onto nothing_kept (initialize (controller_of controller))) script.now log.old
        result log.new }
{
    initialized(Ours::from(controller), controller, script, log).words
}
