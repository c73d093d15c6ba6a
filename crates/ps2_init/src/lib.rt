// Initialisation of the controller, and the devices that it found. Its steps are numbered and named
// as the OSDev Wiki's (crates/ps2_setup).
#![tactic(auto)]

ghost use Rattle.std.specs.Prelude.{◌≡◌};
ghost use Rattle.exchange.specs.Exchange.{play, bind};
ghost use Rattle.ps2_answers.specs.Answers.{told, PlaysLeftTold};
ghost use Rattle.ps2_init.specs.Init.{reset_devices, read_last, set_up, initialize, keyboard_ref, mouse_ref};
ghost use Rattle.ps2_init.specs.Answers.{said_init};

use ps2_answers::{Answer, Counted, Failure, Refusal};
use ps2_keyboard::reset_keyboard;
use ps2_mouse::PS2Mouse;
use ps2_ports::read_config;
use ps2_setup::{disable_devices, enable_ports, quieted, test_ports, test_with, tried};

/// What is known of the controller: whether it was initialised, and which devices passed their
/// reset then.
#[derive(Clone, Copy)]
pub struct PS2Controller {
    pub initialized: bool,
    pub keyboard_attached: bool,
    pub mouse_attached: bool,
}

/// A keyboard that is attached. It has no record: what is done with one stands in ps2_keyboard.
#[derive(Clone, Copy)]
pub struct PS2Keyboard;

/// The answer of `init`, with the controller's record as it is left.
/// After 1, 8 or 9 the record is as it was passed.
#[derive(Clone, Copy)]
pub struct Initialized {
    pub answer: Answer<()>,
    pub controller: PS2Controller,
}

/// Initialises the controller, unless it was before. It becomes initialised only where all steps
/// were done.
/// Refused: already initialized (1), 2, 3, controller test failed (8), port test failed (9).
pub fn init(controller: PS2Controller, script: &[u8], log: &mut [u8]) -> Initialized
    ensures { PlaysLeftTold said_init (initialize controller) controller script.now log.old
        result.answer log.new result.controller }
{
    if controller.initialized {
        return Initialized {
            answer: Err(Counted::new(Refusal::Failed(Failure::AlreadyInitialized))),
            controller,
        };
    }
    match set_up(script, log) {
        Ok(ready) => Initialized {
            answer: Ok(ready.with(())),
            controller: ready.value,
        },
        Err(e) => Initialized {
            answer: Err(e),
            controller,
        },
    }
}

impl PS2Controller {
    /// The keyboard, where its reset passed.
    pub fn keyboard_ref(self) -> Option<PS2Keyboard>
        ensures { result ≡ keyboard_ref self }
    {
        self.keyboard_attached.then_some(PS2Keyboard)
    }

    /// The mouse, where its reset passed.
    pub fn mouse_ref(self) -> Option<PS2Mouse>
        ensures { result ≡ mouse_ref self }
    {
        self.mouse_attached.then_some(PS2Mouse::new())
    }
}

// All the steps. What the configuration says of a mouse is asked of it as it was read.
fn set_up(script: &[u8], log: &mut [u8]) -> Answer<PS2Controller>
    ensures { told result log.new ≡ play set_up script.now log.old }
{
    // Step 3: Disable Devices
    // Step 4: Flush The Output Buffer
    let disabled = disable_devices(script, log)?;
    // Step 5: Set the Controller Configuration Byte
    let config = quieted(disabled.value);
    // Step 7: Determine If There Are 2 Channels. There are if the second one's clock stands, now
    // that both are disabled.
    let has_mouse = disabled.value.port2_clock_disabled();
    // Step 6: Perform Controller Self Test
    let tested = disabled.then(test_with(
        &script[disabled.used..],
        &mut log[2 * disabled.pairs..],
        config,
    ))?;
    // Step 8: Perform Interface Tests
    let working = tested.then(test_ports(
        &script[tested.used..],
        &mut log[2 * tested.pairs..],
        has_mouse,
    ))?;
    // Step 9: Enable Devices
    let enabled = working.then(enable_ports(&mut log[2 * working.pairs..], working.value, config))?;
    // Step 10: Reset Devices
    enabled.then(reset_devices(&script[enabled.used..], &mut log[2 * enabled.pairs..]))
}

// Step 10: Reset Devices
// Resets the keyboard and then the mouse, whether the keyboard's reset passed or not. The
// configuration is read once more; the Rust logs it.
fn reset_devices(script: &[u8], log: &mut [u8]) -> Answer<PS2Controller>
    ensures { told result log.new ≡ play (bind reset_devices read_last) script.now log.old }
{
    let keyboard = tried(reset_keyboard(script, log))?;
    let mouse = keyboard.then(tried(PS2Mouse::reset(
        &script[keyboard.used..],
        &mut log[2 * keyboard.pairs..],
    )))?;
    let last = mouse.then(read_config(&script[mouse.used..], &mut log[2 * mouse.pairs..]))?;
    Ok(last.with(PS2Controller {
        initialized: true,
        keyboard_attached: keyboard.value,
        mouse_attached: mouse.value,
    }))
}
