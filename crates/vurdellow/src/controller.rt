// The controller's initialisation.
ghost use Rattle.ps2_init.specs.Init.{initialize};
ghost use Rattle.port_words.specs.Tells.{Tells};
ghost use Rattle.controller_words.specs.Controller.{controller_of, told_init};

use controller_words::{ControllerWords, InitializedWords, controller_init};

/// Initialises the controller, unless it was before. It becomes initialised only where all steps
/// were done.
#[unsafe(no_mangle)]
pub extern "C" fn vd_controller_init(
    controller: ControllerWords,
    script: &[u8],
    log: &mut [u8],
) -> InitializedWords
    ensures { Tells (told_init controller) (initialize (controller_of controller)) script.now
        log.old result log.new }
{
    controller_init(controller, script, log)
}
