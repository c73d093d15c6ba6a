// The Rust's functions once more, as near to its lines as the language allows, over any hardware.
#![tactic(auto)]

ghost use Rattle.std.specs.Prelude.{◌≡◌, true, false, ◌||◌};
ghost use Rattle.exchange.specs.Answer.{gives, refuses};
ghost use Rattle.exchange.specs.Refuses.{given};
ghost use Rattle.ps2_ports.specs.Ports.{read_status, read_config, write_config, read_data as read_data_rule, flush_output_buffer as flush_rule, write_data as write_data_rule, write_command as write_command_rule};
ghost use Rattle.ps2_answers.specs.Refusals.{success};
ghost use Rattle.ps2_polling.specs.Polling.{test_controller, test_port, port_test_result, controller_test_result, polling_send, polling_receive, polling_send_receive};
ghost use Rattle.ps2_command.specs.Command.{command as command_rule};
ghost use Rattle.ps2_bytes.specs.declared.writable.HostToDevice.TheVariants.{Keyboard};
ghost use Rattle.ps2_keyboard.specs.Keyboard.{reset_keyboard, set_keyboard_led, keyboard_output_buffer_full, read_scancode, set_scancode_set, get_scancode_set};
ghost use Rattle.ps2_detect.specs.Detection.{keyboard_detect};
ghost use Rattle.ps2_mouse.specs.Mouse.{reset_mouse, command_to_mouse, set_sampling_rate, set_resolution, mouse_id, enable_packet_streaming, disable_packet_streaming, mouse_output_buffer_full};
ghost use Rattle.ps2_bytes.specs.declared.command.HostToControllerCommand.TheVariants as Command;
ghost use Rattle.ps2_bytes.specs.declared.response.MouseId.TheVariants.{Zero};
ghost use Rattle.exchange.specs.Left.{left};
ghost use Rattle.ps2_mouse_identity.specs.Identity.{set_mouse_id};
ghost use Rattle.ps2_packet_reading.specs.Reading.{read_mouse_packet};
ghost use Rattle.ps2_init.specs.Init.{set_up};
ghost use Rattle.theseus_ps2.specs.Initialized.{present, identity_lent, lent_fresh, ready};
ghost use Rattle.ps2_keyboard.specs.Parts.{set_search};
ghost use Rattle.theseus_ps2.specs.ScancodeSets.{scancode_set_compared};
ghost use Rattle.theseus_ps2.specs.Messages.{said};
ghost use Rattle.theseus_ps2.specs.Hardware.{ran, run};
ghost use Rattle.theseus_ps2.specs.Controller.{on_controller};

use ps2_bytes::{
    DeviceToHostResponse, HostToControllerCommand, HostToDevice, HostToKeyboardCommand,
    HostToKeyboardCommandOrData, HostToMouseCommand, HostToMouseCommandOrData, KeyboardType,
    MouseId, MouseResolution, MouseSampleRate, PortTestResult, ScancodeSet, WritableData,
};
use ps2_layouts::{ControllerConfigurationByte, ControllerToHostStatus, LEDState};
use ps2_packet::{MousePacket, MousePacket3, MousePacket4, MousePacketGeneric};

macro_rules! warn {
    ($($t:tt)*) => { () };
}

macro_rules! debug {
    ($($t:tt)*) => { () };
}

// `assert!(b)`: where the Rust panics, its function ends with a text of its own.
macro_rules! rust_assert {
    ($b:expr) => {
        if !($b) {
            return Err("panicked");
        }
    };
}

// `r.and_then(f)`, as the Rust's library has it, with the closure called where it stands: what it changes is then known.
macro_rules! and_then {
    ($r:expr, $f:expr) => {
        match $r {
            Ok(v) => {
                let mut f = $f;
                f(v)
            }
            Err(e) => Err(e),
        }
    };
}

// `r.map_err(f)`, likewise.
macro_rules! map_err {
    ($r:expr, $f:expr) => {{
        let outcome = $r;
        match outcome {
            Ok(v) => Ok(v),
            Err(e) => {
                let mut f = $f;
                Err(f(e))
            }
        }
    }};
}

pub mod both_controller;
pub mod both_identity;
pub mod both_init;
pub mod both_keyboard;
pub mod both_mouse;
mod comparison;
mod hardware;
mod recording;

use DeviceToHostResponse::*;
use HostToControllerCommand::*;
use HostToKeyboardCommand::*;
use HostToMouseCommand::*;
pub use comparison::{Both, start};
pub use hardware::{Hardware, IoPort};
pub use recording::Recording;

/// Initializes the PS/2 controller, and the first and second PS/2 ports (if they exist).
///
/// We roughly follow the procedure from the [OS dev wiki].
///
/// [OS dev wiki]: https://wiki.osdev.org/%228042%22_PS/2_Controller#Initialising_the_PS.2F2_Controller
pub fn init<H: Hardware + Drop>(
    is_completed: &mut bool,
    controller: &mut PS2Controller<H>,
) -> Result<(), &'static str>
    ensures already { is_completed.old ≡ true
        → (said result ≡ refuses 1) × (controller.new ≡ controller.old) }
    ensures ran { is_completed.old ≡ false
        → ran (ready (said result) controller.new) controller.new.hardware
        ≡ run H.device set_up controller.old.hardware }
    ensures completed { is_completed.new ≡ is_completed.old || given (said result) }
{
    if *is_completed {
        return Err("The PS/2 Controller has already been initialized once.");
    }

    // Step 1: Initialise USB Controllers
    // no USB support yet

    // Here: the PS/2 Controller exists, so create the object representing it.
    controller.keyboard_attached = false;
    controller.mouse_attached = false;

    // Step 3: Disable Devices
    controller.write_command(DisablePort1);
    controller.write_command(DisablePort2);

    // Step 4: Flush The Output Buffer
    controller.flush_output_buffer();

    // Step 5: Set the Controller Configuration Byte
    let mut config = controller.read_config();
    config = config.set_port1_interrupt_enabled(false);
    config = config.set_port2_interrupt_enabled(false);
    config = config.set_port1_scancode_translation_enabled(false);
    let has_mouse = config.port2_clock_disabled();
    controller.write_config(config);

    // Step 6: Perform Controller Self Test
    controller.test()?;
    debug!("passed PS/2 controller test");
    // as this can reset the controller on some hardware, we restore the config
    controller.write_config(config);

    // Step 7: Determine If There Are 2 Channels
    // not needed, already done above

    // Step 8: Perform Interface Tests
    let port_1_works = controller.test_port1().is_ok();
    let port_2_works = if has_mouse {
        controller.test_port2().is_ok()
    } else {
        warn!("PS/2 controller is not dual channel, so no mouse available");
        false
    };
    if !port_1_works && !port_2_works {
        return Err("failed both PS/2 port tests, terminating PS/2 controller driver");
    }

    // Step 9: Enable Devices
    if port_1_works {
        debug!("passed PS/2 port 1 test");
        controller.write_command(EnablePort1);
        config = config.set_port1_clock_disabled(false);
        config = config.set_port1_interrupt_enabled(true);
    }
    if port_2_works {
        debug!("passed PS/2 port 2 test");
        controller.write_command(EnablePort2);
        config = config.set_port2_clock_disabled(false);
        config = config.set_port2_interrupt_enabled(true);
    }
    controller.write_config(config);

    // Step 10: Reset Devices
    let mut keyboard_ref = PS2Keyboard::new(controller);
    if let Err(e) = keyboard_ref.reset() {
        warn!("couldn't reset the keyboard; assuming there is none: {e}");
    } else {
        controller.keyboard_attached = true;
    }
    let mut mouse_ref = PS2Mouse::new(controller);
    if let Err(e) = mouse_ref.reset() {
        warn!("couldn't reset the mouse; assuming there is none: {e}");
    } else {
        controller.mouse_attached = true;
    }

    controller.read_config();

    *is_completed = true;
    Ok(())
}

// The controller, over some hardware.
#[derive(Drop)]
pub struct PS2Controller<H: Drop> {
    pub hardware: H,
    pub keyboard_attached: bool,
    pub mouse_attached: bool,
}

impl<H: Hardware + Drop> PS2Controller<H> {
    /// Returns a reference to the keyboard attached to this PS/2 controller.
    ///
    /// The keyboard only uses the data port.
    pub fn keyboard_ref(&mut self) -> Option<PS2Keyboard<'_, H>>
        ensures { present result ≡ self.old.keyboard_attached }
    {
        self.keyboard_attached.then_some(PS2Keyboard::new(self))
    }

    /// Returns a reference to the mouse attached to this PS/2 controller.
    ///
    /// The mouse uses both the data port and the command/status port.
    pub fn mouse_ref(&mut self) -> Option<PS2Mouse<'_, H>>
        ensures { identity_lent result ≡ lent_fresh self.old.mouse_attached }
    {
        self.mouse_attached.then_some(PS2Mouse::new(self))
    }

    pub fn write_command(&mut self, value: HostToControllerCommand)
        ensures { ran (gives success) self.new
            ≡ run (on_controller H.device) (write_command_rule value) self.old }
    {
        self.hardware.write(IoPort::CommandAndStatus, value as u8);
    }

    /// Reads and returns the current config value from the PS/2 controller.
    pub fn read_config(&mut self) -> ControllerConfigurationByte
        ensures { ran (gives result) self.new ≡ run (on_controller H.device) read_config self.old }
    {
        self.write_command(ReadFromInternalRAMByte0);
        ControllerConfigurationByte::from(self.read_data())
    }

    /// Writes the given config `value` to the PS/2 controller.
    pub fn write_config(&mut self, value: ControllerConfigurationByte)
        ensures { ran (gives success) self.new
            ≡ run (on_controller H.device) (write_config value) self.old }
    {
        self.write_command(WriteToInternalRAMByte0);
        self.write_data(WritableData::Configuration(value));
    }

    pub fn status_register(&mut self) -> ControllerToHostStatus
        ensures { ran (gives result) self.new ≡ run (on_controller H.device) read_status self.old }
    {
        ControllerToHostStatus::from(self.hardware.read(IoPort::CommandAndStatus))
    }

    pub fn flush_output_buffer(&mut self)
        ensures { ran (gives success) self.new ≡ run (on_controller H.device) flush_rule self.old }
    {
        self.read_data();
    }

    pub fn test(&mut self) -> Result<(), &'static str>
        ensures { ran (said result) self.new
            ≡ run (on_controller H.device) test_controller self.old }
    {
        self.write_command(TestController);
        self.read_controller_test_result()
    }

    pub fn test_port1(&mut self) -> Result<(), &'static str>
        ensures { ran (said result) self.new
            ≡ run (on_controller H.device) (test_port Command.TestPort1) self.old }
    {
        self.write_command(TestPort1);
        map_err!(self.match_port_test_result(), |e| {
            warn!("failed PS/2 port 1 test: {e}");
            e
        })
    }

    pub fn test_port2(&mut self) -> Result<(), &'static str>
        ensures { ran (said result) self.new
            ≡ run (on_controller H.device) (test_port Command.TestPort2) self.old }
    {
        self.write_command(TestPort2);
        map_err!(self.match_port_test_result(), |e| {
            warn!("failed PS/2 port 2 test: {e}");
            e
        })
    }

    fn match_port_test_result(&mut self) -> Result<(), &'static str>
        ensures { ran (said result) self.new
            ≡ run (on_controller H.device) port_test_result self.old }
    {
        const VERY_ARBITRARY_TIMEOUT_VALUE: u16 = u16::MAX;
        for _ in 0..VERY_ARBITRARY_TIMEOUT_VALUE {
            if self.status_register().output_buffer_full() {
                use PortTestResult::*;
                match self.read_data().try_into() {
                    Ok(Passed) => return Ok(()),
                    Ok(ClockLineStuckLow) => warn!("clock line stuck low"),
                    Ok(ClockLineStuckHigh) => warn!("clock line stuck high"),
                    Ok(DataLineStuckLow) => warn!("data line stuck low"),
                    Ok(DataLineStuckHigh) => warn!("data line stuck high"),
                    _ => warn!("failed to read port test result"),
                }
            }
        }

        Err("failed PS/2 port test")
    }

    /// must only be called after writing the [TestController] command
    /// otherwise would read bogus data
    pub fn read_controller_test_result(&mut self) -> Result<(), &'static str>
        ensures { ran (said result) self.new
            ≡ run (on_controller H.device) controller_test_result self.old }
    {
        const CONTROLLER_TEST_PASSED: u8 = 0x55;

        const VERY_ARBITRARY_TIMEOUT_VALUE: u16 = u16::MAX;
        for _ in 0..VERY_ARBITRARY_TIMEOUT_VALUE {
            if self.read_data() == CONTROLLER_TEST_PASSED {
                return Ok(())
            }
        }

        Err("failed PS/2 controller test")
    }

    fn polling_send_receive(
        &mut self,
        value: HostToDevice,
    ) -> Result<DeviceToHostResponse, &'static str>
        ensures { ran (said result) self.new
            ≡ run (on_controller H.device) (polling_send_receive value) self.old }
    {
        self.polling_send(value)?;
        self.polling_receive()
    }

    fn polling_send(&mut self, value: HostToDevice) -> Result<(), &'static str>
        ensures { ran (said result) self.new
            ≡ run (on_controller H.device) (polling_send value) self.old }
    {
        const VERY_ARBITRARY_TIMEOUT_VALUE: u8 = u8::MAX;
        for _ in 0..VERY_ARBITRARY_TIMEOUT_VALUE {
            // so that we don't overwrite the previously sent value
            if !self.status_register().input_buffer_full() {
                self.write_data(WritableData::HostToDevice(value));
                return Ok(());
            }
        }
        Err("polling_send timeout value exceeded")
    }

    fn polling_receive(&mut self) -> Result<DeviceToHostResponse, &'static str>
        ensures { ran (said result) self.new
            ≡ run (on_controller H.device) polling_receive self.old }
    {
        const VERY_ARBITRARY_TIMEOUT_VALUE: u16 = u16::MAX;
        for _ in 0..VERY_ARBITRARY_TIMEOUT_VALUE {
            // so that we only read when data is available
            if self.status_register().output_buffer_full() {
                if let Ok(response) = self.read_data().try_into() {
                    return Ok(response);
                }
            }
        }
        Err("polling_receive timeout value exceeded")
    }

    fn read_data(&mut self) -> u8
        ensures { ran (gives result) self.new
            ≡ run (on_controller H.device) read_data_rule self.old }
    {
        self.hardware.read(IoPort::Data)
    }

    fn write_data(&mut self, value: WritableData)
        ensures { ran (gives success) self.new
            ≡ run (on_controller H.device) (write_data_rule value) self.old }
    {
        self.hardware.write(IoPort::Data, value.into());
    }
}

/// A reference to the PS/2 Mouse connected to the PS/2 Controller.
#[derive(Drop)]
pub struct PS2Mouse<'c, H: Drop> {
    controller: &'c mut PS2Controller<H>,
    id: MouseId,
}

impl<'c, H: Hardware + Drop> PS2Mouse<'c, H> {
    pub fn new(controller: &'c mut PS2Controller<H>) -> Self
        ensures same { result.controller.ghost_name ≡ controller.entry.ghost_name }
        ensures now { result.controller.now ≡ controller.old }
        ensures id { result.id ≡ Zero }
    {
        Self {
            controller,
            id: MouseId::Zero,
        }
    }

    /// Reset the mouse.
    pub fn reset(&mut self) -> Result<(), &'static str>
        ensures same { self.new.controller.ghost_name ≡ self.old.controller.ghost_name }
        ensures id { self.new.id ≡ self.old.id }
        ensures ran { ran (said result) self.new.controller.now
            ≡ run (on_controller H.device) reset_mouse self.old.controller.now }
    {
        self.command_to_mouse(HostToMouseCommandOrData::MouseCommand(Reset))?;
        const VERY_ARBITRARY_TIMEOUT_VALUE: u32 = u16::MAX as u32 * 3;
        for _ in 0..VERY_ARBITRARY_TIMEOUT_VALUE {
            if let Ok(SelfTestPassed) = self.controller.read_data().try_into() { //not sure if we need to do this here, as command_to_mouse handles it on real hardware at least (same goes for keyboard reset)
                //returns mouse id 0
                self.controller.read_data();
                return Ok(());
            }
        }
        Err("failed to reset mouse")
    }

    /// write command to the mouse and handle the result
    fn command_to_mouse(&mut self, value: HostToMouseCommandOrData) -> Result<(), &'static str>
        ensures same { self.new.controller.ghost_name ≡ self.old.controller.ghost_name }
        ensures id { self.new.id ≡ self.old.id }
        ensures ran { ran (said result) self.new.controller.now
            ≡ run (on_controller H.device) (command_to_mouse value) self.old.controller.now }
    {
        self.controller.write_command(WriteByteToPort2InputBuffer);
        const RETRIES: u8 = 3;
        for _ in 0..=RETRIES { // after one D4
            return match self
                .controller
                .polling_send_receive(HostToDevice::Mouse(value))?
            {
                Acknowledge => Ok(()),
                ResendCommand => continue,
                //we should probably handle the response one more level outside, but this suffices for now:
                SelfTestPassed => Ok(()),
                SelfTestFailed1 | SelfTestFailed2 => Err("failed self-test on reset"),
                e => {
                    warn!("wrong response type: {:?}", e);
                    continue;
                }
            };
        }
        Err("mouse doesn't support the command or there has been a hardware failure")
    }

    /// set PS/2 mouse's sampling rate
    fn set_mouse_sampling_rate(&mut self, value: MouseSampleRate) -> Result<(), &'static str>
        ensures same { self.new.controller.ghost_name ≡ self.old.controller.ghost_name }
        ensures id { self.new.id ≡ self.old.id }
        ensures ran { ran (said result) self.new.controller.now
            ≡ run (on_controller H.device) (set_sampling_rate value) self.old.controller.now }
    {
        map_err!(
            and_then!(
                self.command_to_mouse(HostToMouseCommandOrData::MouseCommand(SampleRate)),
                |_| self.command_to_mouse(HostToMouseCommandOrData::SampleRate(value))
            ),
            |_| "failed to set the mouse sampling rate"
        )
    }

    /// set `self.id` to the highest possible [MouseId] by magic sequence
    pub fn set_mouse_id(&mut self) -> Result<(), &'static str>
        ensures same { self.new.controller.ghost_name ≡ self.old.controller.ghost_name }
        ensures ran { ran (left (said result) (record { id = self.new.id })) self.new.controller.now
            ≡ run (on_controller H.device) (set_mouse_id (record { id = self.old.id }))
            self.old.controller.now }
    {
        self.disable_mouse_packet_streaming()?;

        use crate::MouseSampleRate::*;

        // Try setting mouse id to three
        for rate in [_200, _100, _80] {
            self.set_mouse_sampling_rate(rate)?;
        }

        match self.mouse_id() {
            Ok(id) => {
                if let MouseId::Three = id {
                    // Try setting mouse id to four
                    for rate in [_200, _200, _80] {
                        self.set_mouse_sampling_rate(rate)?;
                    }
                    // We need to use whatever the hardware returns here, 4 or 3
                    if let Ok(id) = self.mouse_id() {
                        self.id = id
                    }
                } else {
                    rust_assert!(id == MouseId::Zero)
                }
            }
            Err(e) => debug!("Failed to read the PS/2 mouse ID: {e}"),
        }

        debug!("The PS/2 mouse ID is: {:?}", self.id);

        self.enable_mouse_packet_streaming()?;
        Ok(())
    }

    /// get the [MouseId] without disabling packet streaming, since we already do so in set_mouse_id
    fn mouse_id(&mut self) -> Result<MouseId, &'static str>
        ensures same { self.new.controller.ghost_name ≡ self.old.controller.ghost_name }
        ensures id { self.new.id ≡ self.old.id }
        ensures ran { ran (said result) self.new.controller.now
            ≡ run (on_controller H.device) mouse_id self.old.controller.now }
    {
        self.command_to_mouse(HostToMouseCommandOrData::MouseCommand(GetDeviceID))?;

        const VERY_ARBITRARY_TIMEOUT_VALUE: u16 = u16::MAX;
        for _ in 0..VERY_ARBITRARY_TIMEOUT_VALUE {
            if self.is_output_buffer_full() {
                if let Ok(id) = self.controller.read_data().try_into() {
                    return Ok(id)
                }
            }
        }

        Err("failed to get mouse id: bad response")
    }

    /// enable the packet streaming
    fn enable_mouse_packet_streaming(&mut self) -> Result<(), &'static str>
        ensures same { self.new.controller.ghost_name ≡ self.old.controller.ghost_name }
        ensures id { self.new.id ≡ self.old.id }
        ensures ran { ran (said result) self.new.controller.now
            ≡ run (on_controller H.device) enable_packet_streaming self.old.controller.now }
    {
        map_err!(
            self.command_to_mouse(HostToMouseCommandOrData::MouseCommand(EnableDataReporting)),
            |_| { "failed to enable mouse streaming" }
        )
    }

    /// disable the packet streaming
    fn disable_mouse_packet_streaming(&mut self) -> Result<(), &'static str>
        ensures same { self.new.controller.ghost_name ≡ self.old.controller.ghost_name }
        ensures id { self.new.id ≡ self.old.id }
        ensures ran { ran (said result) self.new.controller.now
            ≡ run (on_controller H.device) disable_packet_streaming self.old.controller.now }
    {
        map_err!(
            self.command_to_mouse(HostToMouseCommandOrData::MouseCommand(DisableDataReporting)),
            |_| { "failed to disable mouse streaming" }
        )
    }

    /// set the resolution of the mouse
    fn mouse_resolution(&mut self, value: MouseResolution) -> Result<(), &'static str>
        ensures same { self.new.controller.ghost_name ≡ self.old.controller.ghost_name }
        ensures id { self.new.id ≡ self.old.id }
        ensures ran { ran (said result) self.new.controller.now
            ≡ run (on_controller H.device) (set_resolution value) self.old.controller.now }
    {
        map_err!(
            and_then!(
                self.command_to_mouse(HostToMouseCommandOrData::MouseCommand(SetResolution)),
                |_| self.command_to_mouse(HostToMouseCommandOrData::MouseResolution(value))
            ),
            |_| "failed to set the mouse resolution"
        )
    }

    /// read the correct [MousePacket] according to [MouseId]
    pub fn read_mouse_packet(&mut self) -> MousePacket
        ensures same { self.new.controller.ghost_name ≡ self.old.controller.ghost_name }
        ensures id { self.new.id ≡ self.old.id }
        ensures ran { ran (gives result) self.new.controller.now
            ≡ run (on_controller H.device) (read_mouse_packet self.old.id) self.old.controller.now }
    {
        let mut read_data = || self.controller.read_data();
        match self.id {
            MouseId::Zero => MousePacket::Zero(MousePacketGeneric::from_bytes(
                read_data(),
                read_data(),
                read_data(),
            )),
            MouseId::Three => MousePacket::Three(MousePacket3::from_bytes(
                read_data(),
                read_data(),
                read_data(),
                read_data(),
            )),
            MouseId::Four => MousePacket::Four(MousePacket4::from_bytes(
                read_data(),
                read_data(),
                read_data(),
                read_data(),
            )),
        }
    }

    pub fn is_output_buffer_full(&mut self) -> bool
        ensures same { self.new.controller.ghost_name ≡ self.old.controller.ghost_name }
        ensures id { self.new.id ≡ self.old.id }
        ensures ran { ran (gives result) self.new.controller.now
            ≡ run (on_controller H.device) mouse_output_buffer_full self.old.controller.now }
    {
        let sr = self.controller.status_register();
        sr.output_buffer_full() && sr.mouse_output_buffer_full()
    }
}

// A reference to the keyboard.
#[derive(Drop)]
pub struct PS2Keyboard<'c, H: Drop> {
    controller: &'c mut PS2Controller<H>,
}

impl<'c, H: Hardware + Drop> PS2Keyboard<'c, H> {
    pub fn new(controller: &'c mut PS2Controller<H>) -> Self
        ensures same { result.controller.ghost_name ≡ controller.entry.ghost_name }
        ensures now { result.controller.now ≡ controller.old }
    {
        Self { controller }
    }

    /// Reset the keyboard.
    pub fn reset(&mut self) -> Result<(), &'static str>
        ensures same { self.new.controller.ghost_name ≡ self.old.controller.ghost_name }
        ensures ran { ran (said result) self.new.controller.now
            ≡ run (on_controller H.device) reset_keyboard self.old.controller.now }
    {
        self.command_to_keyboard(HostToKeyboardCommandOrData::KeyboardCommand(
            ResetAndStartSelfTest,
        ))?;
        // VirtualBox and presumably real hardware wants this. Qemu worked without this.
        // Sadly self.controller.polling_receive doesn't work here, either.
        const VERY_ARBITRARY_TIMEOUT_VALUE: u32 = u16::MAX as u32 * 4;
        for _ in 0..VERY_ARBITRARY_TIMEOUT_VALUE {
            if let Ok(SelfTestPassed) = self.controller.read_data().try_into() {
                return Ok(())
            }
        }
        Err("failed to reset keyboard")
    }

    fn command_to_keyboard(
        &mut self,
        value: HostToKeyboardCommandOrData,
    ) -> Result<(), &'static str>
        ensures same { self.new.controller.ghost_name ≡ self.old.controller.ghost_name }
        ensures ran { ran (said result) self.new.controller.now
            ≡ run (on_controller H.device) (command_rule (Keyboard value)) self.old.controller.now }
    {
        const RETRIES: u8 = 3;
        for _ in 0..=RETRIES { // four attempts
            return match self
                .controller
                .polling_send_receive(HostToDevice::Keyboard(value))?
            {
                Acknowledge => Ok(()),
                ResendCommand => continue,
                //we should probably handle the response one more level outside, but this suffices for now:
                SelfTestPassed => Ok(()),
                SelfTestFailed1 | SelfTestFailed2 => Err("failed self-test on reset"),
                e => {
                    warn!("wrong response type: {:?}", e);
                    continue;
                }
            };
        }
        Err("keyboard doesn't support the command or there has been a hardware failure")
    }

    /// Set the status LEDs on the keyboard.
    pub fn set_keyboard_led(&mut self, value: LEDState) -> Result<(), &'static str>
        ensures same { self.new.controller.ghost_name ≡ self.old.controller.ghost_name }
        ensures ran { ran (said result) self.new.controller.now
            ≡ run (on_controller H.device) (set_keyboard_led value) self.old.controller.now }
    {
        map_err!(
            and_then!(
                self.command_to_keyboard(HostToKeyboardCommandOrData::KeyboardCommand(
                    SetLEDStatus
                )),
                |_| self.command_to_keyboard(HostToKeyboardCommandOrData::LEDState(value))
            ),
            |_| "failed to set the keyboard led"
        )
    }

    /// Set the active scancode set currently used by the keyboard.
    pub fn set_keyboard_scancode_set(&mut self, value: ScancodeSet) -> Result<(), &'static str>
        ensures same { self.new.controller.ghost_name ≡ self.old.controller.ghost_name }
        ensures ran { ran (said result) self.new.controller.now
            ≡ run (on_controller H.device) (set_scancode_set value) self.old.controller.now }
    {
        map_err!(
            and_then!(
                and_then!(
                    self.command_to_keyboard(HostToKeyboardCommandOrData::KeyboardCommand(
                        HostToKeyboardCommand::ScancodeSet
                    )),
                    |_| self.command_to_keyboard(HostToKeyboardCommandOrData::ScancodeSet(value))
                ),
                |_| self.compare_scancode_set(value)
            ),
            |e| {
                warn!("{e}");
                e
            }
        )
    }

    // The body of the closure that ends `set_keyboard_scancode_set`.
    fn compare_scancode_set(&mut self, value: ScancodeSet) -> Result<(), &'static str>
        ensures same { self.new.controller.ghost_name ≡ self.old.controller.ghost_name }
        ensures ran { ran (said result) self.new.controller.now
            ≡ run (on_controller H.device) scancode_set_compared self.old.controller.now }
    {
        if self.get_keyboard_scancode_set()? == value {
            //Note: this does not mean it supports the scancode set,
            //      it will not interrupt if the set is unsupported
            debug!("hardware returned the scancode set we've set");
        } else {
            debug!("failed: hardware didn't return the scancode set we've set");
        }
        Ok(())
    }

    fn get_keyboard_scancode_set(&mut self) -> Result<ScancodeSet, &'static str>
        ensures same { self.new.controller.ghost_name ≡ self.old.controller.ghost_name }
        ensures ran { ran (said result) self.new.controller.now
            ≡ run (on_controller H.device) get_scancode_set self.old.controller.now }
    {
        map_err!(
            and_then!(
                and_then!(
                    self.command_to_keyboard(HostToKeyboardCommandOrData::KeyboardCommand(
                        HostToKeyboardCommand::ScancodeSet
                    )),
                    |_| self.command_to_keyboard(HostToKeyboardCommandOrData::ScancodeSet(
                        ScancodeSet::Get
                    ))
                ),
                |_| self.poll_scancode_set()
            ),
            |e| {
                warn!("{e}");
                e
            }
        )
    }

    // The body of the closure that ends `get_keyboard_scancode_set`.
    fn poll_scancode_set(&mut self) -> Result<ScancodeSet, &'static str>
        ensures same { self.new.controller.ghost_name ≡ self.old.controller.ghost_name }
        ensures ran { ran (said result) self.new.controller.now
            ≡ run (on_controller H.device) set_search self.old.controller.now }
    {
        const VERY_ARBITRARY_TIMEOUT_VALUE: u16 = u16::MAX;
        for _ in 0..VERY_ARBITRARY_TIMEOUT_VALUE {
            if self.is_output_buffer_full() {
                if let Ok(id) = self.controller.read_data().try_into() {
                    return Ok(id)
                }
            }
        }
        Err("failed to get scancode set: timeout exceeded")
    }

    /// Detect the [KeyboardType].
    pub fn keyboard_detect(&mut self) -> Result<KeyboardType, &'static str>
        ensures same { self.new.controller.ghost_name ≡ self.old.controller.ghost_name }
        ensures ran { ran (said result) self.new.controller.now
            ≡ run (on_controller H.device) keyboard_detect self.old.controller.now }
    {
        self.command_to_keyboard(HostToKeyboardCommandOrData::KeyboardCommand(DisableScanning))?;
        self.command_to_keyboard(HostToKeyboardCommandOrData::KeyboardCommand(IdentifyKeyboard))?;

        let mut keyboard_type = Err("unrecognized keyboard type");
        const VERY_ARBITRARY_TIMEOUT_VALUE: u16 = u16::MAX; //TODO: replace all these loops with an untyped polling_receive?
        for _ in 0..VERY_ARBITRARY_TIMEOUT_VALUE {
            if self.is_output_buffer_full() {
                match self.controller.read_data() {
                    0x00 => keyboard_type = Ok(KeyboardType::AncientATKeyboard), //might be wrong
                    0xAB => {
                        //This loop + check might be irrelevant
                        for _ in 0..VERY_ARBITRARY_TIMEOUT_VALUE {
                            if self.is_output_buffer_full() {
                                match self.controller.read_data() {
                                    0x41 | 0xC1 => keyboard_type = Ok(
                                        KeyboardType::MF2KeyboardWithPSControllerTranslator,
                                    ),
                                    0x83 => keyboard_type = Ok(KeyboardType::MF2Keyboard),
                                    _ => continue,
                                };
                                break;
                            }
                        }
                    }
                    _ => continue,
                };
                break;
            }
        }

        self.command_to_keyboard(HostToKeyboardCommandOrData::KeyboardCommand(EnableScanning))?;
        keyboard_type
    }

    /// Convenience method to see if the keyboard can be polled
    fn is_output_buffer_full(&mut self) -> bool
        ensures same { self.new.controller.ghost_name ≡ self.old.controller.ghost_name }
        ensures ran { ran (gives result) self.new.controller.now
            ≡ run (on_controller H.device) keyboard_output_buffer_full self.old.controller.now }
    {
        self.controller.status_register().output_buffer_full()
    }

    /// Reads a raw scancode value from the PS/2 controller's data port.
    pub fn read_scancode(&mut self) -> u8
        ensures same { self.new.controller.ghost_name ≡ self.old.controller.ghost_name }
        ensures ran { ran (gives result) self.new.controller.now
            ≡ run (on_controller H.device) read_scancode self.old.controller.now }
    {
        self.controller.read_data()
    }
}
