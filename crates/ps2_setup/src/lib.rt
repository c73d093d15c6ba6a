// The steps of initialisation that concern the controller alone:
// both ports disabled, the tests, the ports enabled again.
// They are numbered and named as in the OSDev Wiki, "8042 PS/2 Controller", section "Initialising
// the PS/2 Controller". Steps 1 and 2, of USB and of whether there is a controller, use none of its
// ports and are the caller's. Step 10 is in ps2_init.
#![tactic(auto)]

ghost use Rattle.std.specs.Prelude.{◌≡◌};
ghost use Rattle.exchange.specs.Exchange.{play, done, bind};
ghost use Rattle.exchange.specs.Answer.{gives};
ghost use Rattle.ps2_answers.specs.Answers.{told, WritesTold};
ghost use Rattle.ps2_setup.specs.SetUp.{quieted as quieted_rule, disable_devices, test_with, test_second, test_ports, enable_port, enable_ports};
ghost use Rattle.ps2_setup.specs.Answers.{Forgiven, enable_of, clock_of, interrupt_of};

use ps2_answers::{Answer, Counted, Failure, Refusal, outcome};
use ps2_bytes::HostToControllerCommand;
use ps2_layouts::ControllerConfigurationByte;
use ps2_polling::{test, test_port1, test_port2};
use ps2_ports::{DevicePort, flush_output_buffer, read_config, write_command, write_config};

/// Which of the two ports passed its test.
#[derive(Clone, Copy)]
pub struct WorkingPorts {
    pub port_1_works: bool,
    pub port_2_works: bool,
}

/// Disables both ports, and reads the configuration.
/// AD and A7, a read of port 60, then the configuration. Refused: 2, 3.
pub fn disable_devices(script: &[u8], log: &mut [u8]) -> Answer<ControllerConfigurationByte>
    ensures { told result log.new ≡ play disable_devices script.now log.old }
{
    // Step 3: Disable Devices
    let one = write_command(log, HostToControllerCommand::DisablePort1)?;
    let both = one.then(write_command(
        &mut log[2 * one.pairs..],
        HostToControllerCommand::DisablePort2,
    ))?;
    // Step 4: Flush The Output Buffer. A byte that a device sent before it was disabled is dropped.
    let flushed = both.then(flush_output_buffer(script))?;
    // Step 5: Set the Controller Configuration Byte. It is read here.
    flushed.then(read_config(&script[flushed.used..], &mut log[2 * flushed.pairs..]))
}

/// Step 5: Set the Controller Configuration Byte
/// Neither port interrupts, and scancodes are not translated.
pub fn quieted(config: ControllerConfigurationByte) -> ControllerConfigurationByte
    ensures { result ≡ quieted_rule config }
{
    config
        .set_port1_interrupt_enabled(false)
        .set_port2_interrupt_enabled(false)
        .set_port1_scancode_translation_enabled(false)
}

/// Step 6: Perform Controller Self Test
/// The controller's own test, with the configuration written before it and again after it: the test
/// can reset the controller.
pub fn test_with(script: &[u8], log: &mut [u8], config: ControllerConfigurationByte) -> Answer<()>
    ensures { told result log.new ≡ play (test_with config) script.now log.old }
{
    let written = write_config(log, config)?;
    let tested = written.then(test(script, &mut log[2 * written.pairs..]))?;
    tested.then(write_config(&mut log[2 * tested.pairs..], config))
}

/// Step 8: Perform Interface Tests
/// The tests of both ports; that one of them fails is forgiven, and one that passed is enough.
pub fn test_ports(script: &[u8], log: &mut [u8], has_mouse: bool) -> Answer<WorkingPorts>
    ensures { told result log.new ≡ play (test_ports has_mouse) script.now log.old }
{
    let first = tried(test_port1(script, log))?;
    let second = first.then(test_second(
        &script[first.used..],
        &mut log[2 * first.pairs..],
        has_mouse,
    ))?;
    if first.value || second.value {
        Ok(second.with(WorkingPorts {
            port_1_works: first.value,
            port_2_works: second.value,
        }))
    } else {
        Err(second.with(Refusal::Failed(Failure::PortTestFailed)))
    }
}

// The second port is tested only with a mouse.
fn test_second(script: &[u8], log: &mut [u8], has_mouse: bool) -> Answer<bool>
    ensures { told result log.new
        ≡ play (bind (test_second has_mouse) (λ second. done (gives second))) script.now log.old }
{
    if has_mouse {
        tried(test_port2(script, log))
    } else {
        Ok(Counted::new(false))
    }
}

/// Whether a step worked, where its failure is forgiven. Nothing forgives a lack: it is the only
/// refusal that is answered.
pub fn tried(answer: Answer<()>) -> Answer<bool>
    ensures { Forgiven answer result }
{
    let done = outcome(answer)?;
    Ok(done.with(done.value.is_ok()))
}

/// Step 9: Enable Devices
/// Enables the ports that passed, and then writes the configuration that says so.
pub fn enable_ports(
    log: &mut [u8],
    ports: WorkingPorts,
    config: ControllerConfigurationByte,
) -> Answer<()>
    ensures { WritesTold (enable_ports ports config) log.old result log.new }
{
    let one = enable_port(log, DevicePort::Port1, ports.port_1_works, config)?;
    let both = one.then(enable_port(
        &mut log[2 * one.pairs..],
        DevicePort::Port2,
        ports.port_2_works,
        one.value,
    ))?;
    both.then(write_config(&mut log[2 * both.pairs..], both.value))
}

// Enables a port where it passed, and gives the configuration that goes with it: the port's clock
// runs, and the port interrupts.
fn enable_port(
    log: &mut [u8],
    port: DevicePort,
    works: bool,
    config: ControllerConfigurationByte,
) -> Answer<ControllerConfigurationByte>
    ensures { WritesTold (enable_port (enable_of port) (clock_of port) (interrupt_of port) works
        config) log.old result log.new }
{
    if !works {
        return Ok(Counted::new(config));
    }
    let (enable, running) = match port {
        DevicePort::Port1 => (
            HostToControllerCommand::EnablePort1,
            config
                .set_port1_clock_disabled(false)
                .set_port1_interrupt_enabled(true),
        ),
        DevicePort::Port2 => (
            HostToControllerCommand::EnablePort2,
            config
                .set_port2_clock_disabled(false)
                .set_port2_interrupt_enabled(true),
        ),
    };
    let written = write_command(log, enable)?;
    Ok(written.with(running))
}
