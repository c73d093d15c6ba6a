// The controller's tests and its configuration, and sending and receiving by polling.
ghost use Rattle.std.specs.Prelude.{◌≡◌};
ghost use Rattle.exchange.specs.Answer.{gives};
ghost use Rattle.ps2_bytes.specs.declared.command.HostToControllerCommand.TheVariants.{TestPort1, TestPort2};
ghost use Rattle.ps2_bytes.specs.Responses.{response_byte};
ghost use Rattle.ps2_ports.specs.Ports.{read_config, write_config};
ghost use Rattle.ps2_polling.specs.Polling.{test_controller, test_port, polling_receive};
ghost use Rattle.port_words.specs.Told.{no_value};
ghost use Rattle.theseus_calls.specs.Arguments.{set_at};
ghost use Rattle.theseus_calls.specs.Operations.{configuration_value, sending_set};
ghost use Rattle.theseus_calls.specs.Recorded.{told_recorded, TellsNoted, TellsNotedAt};

use crate::answers::{NotedWords, Run, begun, recorded_words, refusing_noted_words, run_of};
use crate::arguments::set_of;
use argument_words::INVALID_ARGUMENT;
use ps2_bytes::{HostToDevice, HostToKeyboardCommandOrData, ScancodeSet};
use ps2_layouts::ControllerConfigurationByte;
use theseus_ps2::Recording;
use theseus_ps2::both_controller::{rusts_polling_receive, rusts_polling_send};

fn controller_test<'a>(script: &'a [u8], log: &'a mut [u8]) -> Run<'a, NotedWords>
    ensures told { TellsNoted no_value test_controller script.now log.old result.words
        result.log.now }
    ensures same_log { result.log.ghost_name ≡ log.entry.ghost_name }
{
    let mut controller = begun(script, log);
    let rusts = controller.test();
    let words = recorded_words(rusts, &controller.hardware);
    run_of(words, controller.hardware)
}

/// Has the controller test itself.
#[unsafe(no_mangle)]
pub extern "C" fn vdr_controller_test(script: &[u8], log: &mut [u8]) -> NotedWords
    ensures { TellsNoted no_value test_controller script.now log.old result log.new }
{
    controller_test(script, log).words
}

fn port1_test<'a>(script: &'a [u8], log: &'a mut [u8]) -> Run<'a, NotedWords>
    ensures told { TellsNoted no_value (test_port TestPort1) script.now log.old result.words
        result.log.now }
    ensures same_log { result.log.ghost_name ≡ log.entry.ghost_name }
{
    let mut controller = begun(script, log);
    let rusts = controller.test_port1();
    let words = recorded_words(rusts, &controller.hardware);
    run_of(words, controller.hardware)
}

/// Has the controller test the keyboard's port.
#[unsafe(no_mangle)]
pub extern "C" fn vdr_port1_test(script: &[u8], log: &mut [u8]) -> NotedWords
    ensures { TellsNoted no_value (test_port TestPort1) script.now log.old result log.new }
{
    port1_test(script, log).words
}

fn port2_test<'a>(script: &'a [u8], log: &'a mut [u8]) -> Run<'a, NotedWords>
    ensures told { TellsNoted no_value (test_port TestPort2) script.now log.old result.words
        result.log.now }
    ensures same_log { result.log.ghost_name ≡ log.entry.ghost_name }
{
    let mut controller = begun(script, log);
    let rusts = controller.test_port2();
    let words = recorded_words(rusts, &controller.hardware);
    run_of(words, controller.hardware)
}

/// Has the controller test the mouse's port.
#[unsafe(no_mangle)]
pub extern "C" fn vdr_port2_test(script: &[u8], log: &mut [u8]) -> NotedWords
    ensures { TellsNoted no_value (test_port TestPort2) script.now log.old result log.new }
{
    port2_test(script, log).words
}

// A configuration that was read, by its byte.
fn configuration_words(config: ControllerConfigurationByte, left: &Recording<'_>) -> NotedWords
    ensures { result ≡ told_recorded configuration_value (gives config) left.now }
{
    recorded_words(Ok(u8::from(config)), left)
}

fn configuration_read<'a>(script: &'a [u8], log: &'a mut [u8]) -> Run<'a, NotedWords>
    ensures told { TellsNoted configuration_value read_config script.now log.old result.words
        result.log.now }
    ensures same_log { result.log.ghost_name ≡ log.entry.ghost_name }
{
    let mut controller = begun(script, log);
    let config = controller.read_config();
    let words = configuration_words(config, &controller.hardware);
    run_of(words, controller.hardware)
}

/// Reads the controller's configuration; the value is its byte.
#[unsafe(no_mangle)]
pub extern "C" fn vdr_configuration_read(script: &[u8], log: &mut [u8]) -> NotedWords
    ensures { TellsNoted configuration_value read_config script.now log.old result log.new }
{
    configuration_read(script, log).words
}

fn written<'a>(configuration: u8, script: &'a [u8], log: &'a mut [u8]) -> Run<'a, NotedWords>
    ensures told { TellsNoted no_value (write_config (record { bits = configuration })) script.now
        log.old result.words result.log.now }
    ensures same_log { result.log.ghost_name ≡ log.entry.ghost_name }
{
    let mut controller = begun(script, log);
    controller.write_config(ControllerConfigurationByte::from(configuration));
    let words = recorded_words(Ok(()), &controller.hardware);
    run_of(words, controller.hardware)
}

/// Writes the controller's configuration.
#[unsafe(no_mangle)]
pub extern "C" fn vdr_configuration_write(
    configuration: u8,
    script: &[u8],
    log: &mut [u8],
) -> NotedWords
    ensures { TellsNoted no_value (write_config (record { bits = configuration })) script.now
        log.old result log.new }
{
    written(configuration, script, log).words
}

fn polling_send<'a>(set: ScancodeSet, script: &'a [u8], log: &'a mut [u8]) -> Run<'a, NotedWords>
    ensures told { TellsNoted no_value (sending_set set) script.now log.old result.words
        result.log.now }
    ensures same_log { result.log.ghost_name ≡ log.entry.ghost_name }
{
    let mut controller = begun(script, log);
    let byte = HostToDevice::Keyboard(HostToKeyboardCommandOrData::ScancodeSet(set));
    let rusts = rusts_polling_send(&mut controller, byte);
    let words = recorded_words(rusts, &controller.hardware);
    run_of(words, controller.hardware)
}

/// Sends a scancode set, 0 to 3, as soon as the last byte was taken, and waits for no response.
#[unsafe(no_mangle)]
pub extern "C" fn vdr_polling_send(set: u32, script: &[u8], log: &mut [u8]) -> NotedWords
    ensures { TellsNotedAt no_value sending_set (set_at set) script.now log.old result log.new }
{
    match set_of(set) {
        Some(known) => polling_send(known, script, log).words,
        None => refusing_noted_words(INVALID_ARGUMENT),
    }
}

fn received<'a>(script: &'a [u8], log: &'a mut [u8]) -> Run<'a, NotedWords>
    ensures told { TellsNoted response_byte polling_receive script.now log.old result.words
        result.log.now }
    ensures same_log { result.log.ghost_name ≡ log.entry.ghost_name }
{
    let mut controller = begun(script, log);
    let rusts = rusts_polling_receive(&mut controller);
    let words = recorded_words(rusts, &controller.hardware);
    run_of(words, controller.hardware)
}

/// Receives a response; the value is its byte.
#[unsafe(no_mangle)]
pub extern "C" fn vdr_polling_receive(script: &[u8], log: &mut [u8]) -> NotedWords
    ensures { TellsNoted response_byte polling_receive script.now log.old result log.new }
{
    received(script, log).words
}
