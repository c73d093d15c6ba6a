// Initialisation of the controller.
ghost use Rattle.std.specs.Prelude.{◌≡◌};
ghost use Rattle.talks.specs.Heard.{by, heard};
ghost use Rattle.talks.specs.Controller as talk;
ghost use Rattle.talks.specs.Controller.{controller_left as controller_left_rule};
ghost use Rattle.ps2_setup.specs.SetUp.{running as running_rule};
ghost use Rattle.ps2_setup.specs.Answers.{enable_of, clock_of, interrupt_of};

use crate::commands::{read_data, seek, write, write_command};
use crate::keyboard::reset_keyboard;
use crate::mouse::reset_mouse;
use crate::{Partner, Stop, tried, worked};
use ps2_answers::{Failure, ReadPort};
use ps2_bytes::HostToControllerCommand;
use ps2_init::PS2Controller;
use ps2_layouts::ControllerConfigurationByte;
use ps2_ports::DevicePort;
use ps2_setup::{WorkingPorts, quieted};
use questions::{FURTHER_POLLS, Sought};

/// An answer, with the controller's record as it is left.
#[derive(Clone, Copy)]
pub struct ControllerLeft {
    pub answer: Result<(), Failure>,
    pub controller: PS2Controller,
}

/// Reads the configuration.
/// Writes 20 to port 64, and reads port 60.
#[tactic(auto, unfolding(crate::specs::Controller::read_config, crate::specs::Heard::heard))]
pub fn read_config<P: Partner>(partner: &mut P) -> Result<ControllerConfigurationByte, Stop>
    ensures { by result partner.new ≡ heard P.replies talk.read_config partner.old }
{
    write_command(partner, HostToControllerCommand::ReadFromInternalRAMByte0)?;
    let byte = read_data(partner)?;
    Ok(ControllerConfigurationByte::from(byte))
}

/// Writes the configuration.
/// Writes 60 to port 64, and the byte to port 60.
#[tactic(auto, unfolding(crate::specs::Controller::write_config, crate::specs::Heard::heard))]
pub fn write_config<P: Partner>(
    partner: &mut P,
    config: ControllerConfigurationByte,
) -> Result<(), Stop>
    ensures { by result partner.new ≡ heard P.replies (talk.write_config config) partner.old }
{
    write_command(partner, HostToControllerCommand::WriteToInternalRAMByte0)?;
    write(partner, ReadPort::Data, u8::from(config))
}

// Disables both devices, drops a byte that one sent before, and reads the configuration.
#[tactic(auto, unfolding(crate::specs::Controller::disable_devices, crate::specs::Heard::heard))]
fn disable_devices<P: Partner>(partner: &mut P) -> Result<ControllerConfigurationByte, Stop>
    ensures { by result partner.new ≡ heard P.replies talk.disable_devices partner.old }
{
    write_command(partner, HostToControllerCommand::DisablePort1)?;
    write_command(partner, HostToControllerCommand::DisablePort2)?;
    read_data(partner)?;
    read_config(partner)
}

// The controller's own test.
#[tactic(auto, unfolding(crate::specs::Controller::test_controller, crate::specs::Heard::heard))]
fn test_controller<P: Partner>(partner: &mut P) -> Result<(), Stop>
    ensures { by result partner.new ≡ heard P.replies talk.test_controller partner.old }
{
    write_command(partner, HostToControllerCommand::TestController)?;
    seek(
        partner,
        Sought::Byte(0x55),
        FURTHER_POLLS,
        Failure::ControllerTestFailed,
    )?;
    Ok(())
}

// The same, with the configuration written before it and again after it: the test can reset the
// controller.
#[tactic(auto, unfolding(crate::specs::Controller::test_with, crate::specs::Heard::heard))]
fn test_with<P: Partner>(partner: &mut P, config: ControllerConfigurationByte) -> Result<(), Stop>
    ensures { by result partner.new ≡ heard P.replies (talk.test_with config) partner.old }
{
    write_config(partner, config)?;
    test_controller(partner)?;
    write_config(partner, config)
}

// The test of a port.
#[tactic(auto, unfolding(crate::specs::Controller::test_port, crate::specs::Heard::heard))]
fn test_port<P: Partner>(partner: &mut P, command: HostToControllerCommand) -> Result<(), Stop>
    ensures { by result partner.new ≡ heard P.replies (talk.test_port command) partner.old }
{
    write_command(partner, command)?;
    seek(
        partner,
        Sought::PortPassed,
        FURTHER_POLLS,
        Failure::PortTestFailed,
    )?;
    Ok(())
}

// Whether a port passes its test; that it fails is forgiven.
#[tactic(auto, unfolding(crate::specs::Controller::port_works, crate::specs::Heard::heard))]
fn port_works<P: Partner>(partner: &mut P, command: HostToControllerCommand) -> Result<bool, Stop>
    ensures { by result partner.new ≡ heard P.replies (talk.port_works command) partner.old }
{
    let tested = test_port(partner, command);
    worked(tested)
}

// The second port is tested only with a mouse.
#[tactic(auto, unfolding(crate::specs::Heard::heard))]
fn second_works<P: Partner>(partner: &mut P, has_mouse: bool) -> Result<bool, Stop>
    ensures { by result partner.new ≡ heard P.replies (talk.second_works has_mouse) partner.old }
{
    if has_mouse {
        port_works(partner, HostToControllerCommand::TestPort2)
    } else {
        Ok(false)
    }
}

// The tests of both ports; one that passed is enough.
#[tactic(auto, unfolding(crate::specs::Controller::test_ports, crate::specs::Heard::heard))]
fn test_ports<P: Partner>(partner: &mut P, has_mouse: bool) -> Result<WorkingPorts, Stop>
    ensures { by result partner.new ≡ heard P.replies (talk.test_ports has_mouse) partner.old }
{
    let first = port_works(partner, HostToControllerCommand::TestPort1)?;
    let second = second_works(partner, has_mouse)?;
    if first || second {
        Ok(WorkingPorts {
            port_1_works: first,
            port_2_works: second,
        })
    } else {
        Err(Stop::Refused(Failure::PortTestFailed))
    }
}

// The command that enables a port.
fn enabling(port: DevicePort) -> HostToControllerCommand
    ensures { result ≡ enable_of port }
{
    match port {
        DevicePort::Port1 => HostToControllerCommand::EnablePort1,
        DevicePort::Port2 => HostToControllerCommand::EnablePort2,
    }
}

// The configuration of a port that is enabled: its clock runs, and it interrupts.
fn running(port: DevicePort, config: ControllerConfigurationByte) -> ControllerConfigurationByte
    ensures { result ≡ running_rule (clock_of port) (interrupt_of port) config }
{
    match port {
        DevicePort::Port1 => config
            .set_port1_clock_disabled(false)
            .set_port1_interrupt_enabled(true),
        DevicePort::Port2 => config
            .set_port2_clock_disabled(false)
            .set_port2_interrupt_enabled(true),
    }
}

// Enables a port where it passed, and gives the configuration that goes with it.
#[tactic(auto, unfolding(crate::specs::Heard::heard))]
fn enable_port<P: Partner>(
    partner: &mut P,
    port: DevicePort,
    works: bool,
    config: ControllerConfigurationByte,
) -> Result<ControllerConfigurationByte, Stop>
    ensures { by result partner.new
        ≡ heard P.replies (talk.enable_port port works config) partner.old }
{
    if works {
        write_command(partner, enabling(port))?;
        Ok(running(port, config))
    } else {
        Ok(config)
    }
}

// Enables the ports that passed, and then writes the configuration that says so.
#[tactic(auto, unfolding(crate::specs::Controller::enable_ports, crate::specs::Heard::heard))]
fn enable_ports<P: Partner>(
    partner: &mut P,
    ports: WorkingPorts,
    config: ControllerConfigurationByte,
) -> Result<(), Stop>
    ensures { by result partner.new ≡ heard P.replies (talk.enable_ports ports config) partner.old }
{
    let one = enable_port(partner, DevicePort::Port1, ports.port_1_works, config)?;
    let both = enable_port(partner, DevicePort::Port2, ports.port_2_works, one)?;
    write_config(partner, both)
}

// Whether the keyboard's reset passes, and below the mouse's; that it fails is forgiven.
#[tactic(auto, unfolding(crate::specs::Controller::keyboard_attached, crate::specs::Heard::heard))]
fn keyboard_attached<P: Partner>(partner: &mut P) -> Result<bool, Stop>
    ensures { by result partner.new ≡ heard P.replies talk.keyboard_attached partner.old }
{
    let reset = reset_keyboard(partner);
    worked(reset)
}

#[tactic(auto, unfolding(crate::specs::Controller::mouse_attached, crate::specs::Heard::heard))]
fn mouse_attached<P: Partner>(partner: &mut P) -> Result<bool, Stop>
    ensures { by result partner.new ≡ heard P.replies talk.mouse_attached partner.old }
{
    let reset = reset_mouse(partner);
    worked(reset)
}

// Resets the keyboard and then the mouse, whether the keyboard's reset passed or not. The
// configuration is read once more; the Rust logs it.
#[tactic(auto, unfolding(crate::specs::Controller::reset_devices, crate::specs::Heard::heard))]
fn reset_devices<P: Partner>(partner: &mut P) -> Result<PS2Controller, Stop>
    ensures { by result partner.new ≡ heard P.replies talk.reset_devices partner.old }
{
    let keyboard = keyboard_attached(partner)?;
    let mouse = mouse_attached(partner)?;
    read_config(partner)?;
    Ok(PS2Controller {
        initialized: true,
        keyboard_attached: keyboard,
        mouse_attached: mouse,
    })
}

// All the steps. What the configuration says of a mouse is asked of it as it was read.
#[tactic(auto, unfolding(crate::specs::Controller::set_up, crate::specs::Heard::heard))]
fn set_up<P: Partner>(partner: &mut P) -> Result<PS2Controller, Stop>
    ensures { by result partner.new ≡ heard P.replies talk.set_up partner.old }
{
    let as_read = disable_devices(partner)?;
    let config = quieted(as_read);
    test_with(partner, config)?;
    let ports = test_ports(partner, as_read.port2_clock_disabled())?;
    enable_ports(partner, ports, config)?;
    reset_devices(partner)
}

// After 1, 8 or 9 the record is as it was passed.
fn controller_left(passed: PS2Controller, ready: Result<PS2Controller, Failure>) -> ControllerLeft
    ensures { result ≡ controller_left_rule passed ready }
{
    match ready {
        Ok(controller) => ControllerLeft {
            answer: Ok(()),
            controller,
        },
        Err(failure) => ControllerLeft {
            answer: Err(failure),
            controller: passed,
        },
    }
}

/// Initialises the controller, unless it was before. It becomes initialised only where all steps
/// were done.
#[tactic(auto, unfolding(crate::specs::Controller::initialize, crate::specs::Heard::heard))]
pub fn initialize<P: Partner>(
    partner: &mut P,
    passed: PS2Controller,
) -> Result<ControllerLeft, Stop>
    ensures { by result partner.new ≡ heard P.replies (talk.initialize passed) partner.old }
{
    if passed.initialized {
        return Ok(controller_left(passed, Err(Failure::AlreadyInitialized)));
    }
    let ready = tried(set_up(partner))?;
    Ok(controller_left(passed, ready))
}
