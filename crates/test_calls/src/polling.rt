// The controller's tests and its configuration, and sending and receiving by polling.
ghost use Rattle.std.specs.Prelude.{List, ℕ};
ghost use Rattle.argument_words.specs.Arguments.{invalid_argument};
ghost use Rattle.ps2_bytes.specs.declared.command.HostToControllerCommand.TheVariants.{TestPort1, TestPort2};
ghost use Rattle.ps2_kept.specs.Kept.{keeping_thrown};
ghost use Rattle.ps2_ports.specs.Ports.{read_config, write_config};
ghost use Rattle.ps2_polling.specs.Polling.{test_controller, test_port, polling_receive};
ghost use Rattle.port_words.specs.Told.{refusing, no_value, told};
ghost use Rattle.port_words.specs.Tells.{Tells, TellsReading, TellsAt};
ghost use Rattle.test_calls.specs.Arguments.{set_at};
ghost use Rattle.test_calls.specs.Polling.{configuration_value, sending_set, told_received};

use crate::arguments::set_of;
use argument_words::INVALID_ARGUMENT;
use port_words::{PortWords, answer_words, refusing_words};
use ps2_bytes::{HostToDevice, HostToKeyboardCommandOrData};
use ps2_layouts::ControllerConfigurationByte;
use ps2_polling::{polling_receive, polling_send, test, test_port1, test_port2};
use ps2_ports::{read_config, write_config};

/// What a receiving answers: its answer, whose value is the response's byte, and the bytes that it
/// threw away, as `KeptWords` has them.
#[repr(C)]
#[derive(Clone, Copy)]
pub struct ReceivedWords {
    pub answer: PortWords,
    pub count: u32,
    pub others: u32,
    pub bytes: [u8; 16],
}

/// Has the controller test itself.
#[unsafe(no_mangle)]
pub extern "C" fn vdt_controller_test(script: &[u8], log: &mut [u8]) -> PortWords
    ensures { Tells (told no_value) test_controller script.now log.old result log.new }
{
    answer_words(test(script, log))
}

/// Has the controller test the keyboard's port.
#[unsafe(no_mangle)]
pub extern "C" fn vdt_port1_test(script: &[u8], log: &mut [u8]) -> PortWords
    ensures { Tells (told no_value) (test_port TestPort1) script.now log.old result log.new }
{
    answer_words(test_port1(script, log))
}

/// Has the controller test the mouse's port.
#[unsafe(no_mangle)]
pub extern "C" fn vdt_port2_test(script: &[u8], log: &mut [u8]) -> PortWords
    ensures { Tells (told no_value) (test_port TestPort2) script.now log.old result log.new }
{
    answer_words(test_port2(script, log))
}

/// Reads the controller's configuration; the value is its byte.
#[unsafe(no_mangle)]
pub extern "C" fn vdt_configuration_read(script: &[u8], log: &mut [u8]) -> PortWords
    ensures { Tells (told configuration_value) read_config script.now log.old result log.new }
{
    answer_words(read_config(script, log).map(|read| read.with(u8::from(read.value))))
}

/// Writes the controller's configuration.
#[unsafe(no_mangle)]
pub extern "C" fn vdt_configuration_write(configuration: u8, log: &mut [u8]) -> PortWords
    ensures { (script : List ℕ) → Tells (told no_value)
        (write_config (record { bits = configuration })) script log.old result log.new }
{
    answer_words(write_config(log, ControllerConfigurationByte::from(configuration)))
}

/// Sends a scancode set, 0 to 3, as soon as the last byte was taken, and waits for no response.
#[unsafe(no_mangle)]
pub extern "C" fn vdt_polling_send(set: u32, script: &[u8], log: &mut [u8]) -> PortWords
    ensures { TellsAt (refusing invalid_argument) (told no_value) sending_set (set_at set)
        script.now log.old result log.new }
{
    match set_of(set) {
        Some(known) => answer_words(polling_send(
            script,
            log,
            HostToDevice::Keyboard(HostToKeyboardCommandOrData::ScancodeSet(known)),
        )),
        None => refusing_words(INVALID_ARGUMENT),
    }
}

/// Receives a response.
#[unsafe(no_mangle)]
pub extern "C" fn vdt_polling_receive(script: &[u8]) -> ReceivedWords
    ensures { TellsReading told_received (keeping_thrown polling_receive) script.now result }
{
    let received = polling_receive(script);
    let kept = received.kept;
    let bytes = kept.bytes;
    ReceivedWords {
        answer: answer_words(received.answer),
        count: u32::from(kept.count),
        others: kept.others,
        bytes,
    }
}
