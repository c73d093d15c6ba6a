// The controller's operations: the Rust's and ours on one script and on two logs that begin alike.
ghost use Rattle.std.specs.Prelude.{◌≡◌};
ghost use Rattle.exchange.specs.Answer.{gives};
ghost use Rattle.ps2_answers.specs.Refusals.{success};
ghost use Rattle.ps2_polling.specs.Polling.{polling_send as polling_send_rule, polling_receive as polling_receive_rule};
ghost use Rattle.theseus_ps2.specs.Controller.{on_controller};
ghost use Rattle.theseus_ps2.specs.Hardware.{ran, run};
ghost use Rattle.theseus_ps2.specs.Messages.{said};
ghost use Rattle.theseus_ps2.specs.Comparison.{Agree, AgreeKept};

use crate::comparison::{Both, start};
use crate::{Hardware, PS2Controller};
use ps2_answers::Answer;
use ps2_bytes::{DeviceToHostResponse, HostToControllerCommand, HostToDevice, WritableData};
use ps2_kept::none_kept;
use ps2_layouts::{ControllerConfigurationByte, ControllerToHostStatus};
use ps2_polling::{
    Received, match_port_test_result, polling_receive, polling_send, polling_send_receive,
    read_controller_test_result, test, test_port1, test_port2,
};
use ps2_ports::{
    flush_output_buffer, read_config, read_data, status_register, write_command, write_config,
    write_data,
};

/// The Rust's `write_command` on the script and its log, and ours on the same: they agree.
pub fn both_write_command<'a>(
    script: &'a [u8],
    log: &mut [u8],
    rusts_log: &'a mut [u8],
    value: HostToControllerCommand,
) -> Both<'a, Answer<()>, ()>
    ensures { log.old ≡ rusts_log.old → Agree result.ours log.new (gives success) result.left }
{
    let mut controller = start(script, rusts_log);
    controller.write_command(value);
    let ours = write_command(log, value);
    Both {
        ours,
        rusts: (),
        left: controller.hardware,
    }
}

/// The Rust's `read_config` on the script and its log, and ours on the same: they agree.
pub fn both_read_config<'a>(
    script: &'a [u8],
    log: &mut [u8],
    rusts_log: &'a mut [u8],
) -> Both<'a, Answer<ControllerConfigurationByte>, ControllerConfigurationByte>
    ensures { log.old ≡ rusts_log.old → Agree result.ours log.new (gives result.rusts) result.left }
{
    let mut controller = start(script, rusts_log);
    let rusts = controller.read_config();
    let ours = read_config(script, log);
    Both {
        ours,
        rusts,
        left: controller.hardware,
    }
}

/// The Rust's `write_config` on the script and its log, and ours on the same: they agree.
pub fn both_write_config<'a>(
    script: &'a [u8],
    log: &mut [u8],
    rusts_log: &'a mut [u8],
    value: ControllerConfigurationByte,
) -> Both<'a, Answer<()>, ()>
    ensures { log.old ≡ rusts_log.old → Agree result.ours log.new (gives success) result.left }
{
    let mut controller = start(script, rusts_log);
    controller.write_config(value);
    let ours = write_config(log, value);
    Both {
        ours,
        rusts: (),
        left: controller.hardware,
    }
}

/// The Rust's `status_register` on the script and its log, and ours on the same: they agree.
pub fn both_status_register<'a>(
    script: &'a [u8],
    rusts_log: &'a mut [u8],
) -> Both<'a, Answer<ControllerToHostStatus>, ControllerToHostStatus>
    ensures { Agree result.ours rusts_log.old (gives result.rusts) result.left }
{
    let mut controller = start(script, rusts_log);
    let rusts = controller.status_register();
    let ours = status_register(script);
    Both {
        ours,
        rusts,
        left: controller.hardware,
    }
}

/// The Rust's `flush_output_buffer` on the script and its log, and ours on the same: they agree.
pub fn both_flush_output_buffer<'a>(
    script: &'a [u8],
    rusts_log: &'a mut [u8],
) -> Both<'a, Answer<()>, ()>
    ensures { Agree result.ours rusts_log.old (gives success) result.left }
{
    let mut controller = start(script, rusts_log);
    controller.flush_output_buffer();
    let ours = flush_output_buffer(script);
    Both {
        ours,
        rusts: (),
        left: controller.hardware,
    }
}

/// The Rust's `test` on the script and its log, and ours on the same: they agree.
pub fn both_test<'a>(
    script: &'a [u8],
    log: &mut [u8],
    rusts_log: &'a mut [u8],
) -> Both<'a, Answer<()>, Result<(), &'static str>>
    ensures { log.old ≡ rusts_log.old → Agree result.ours log.new (said result.rusts) result.left }
{
    let mut controller = start(script, rusts_log);
    let rusts = controller.test();
    let ours = test(script, log);
    Both {
        ours,
        rusts,
        left: controller.hardware,
    }
}

/// The Rust's `test_port1` on the script and its log, and ours on the same: they agree.
pub fn both_test_port1<'a>(
    script: &'a [u8],
    log: &mut [u8],
    rusts_log: &'a mut [u8],
) -> Both<'a, Answer<()>, Result<(), &'static str>>
    ensures { log.old ≡ rusts_log.old → Agree result.ours log.new (said result.rusts) result.left }
{
    let mut controller = start(script, rusts_log);
    let rusts = controller.test_port1();
    let ours = test_port1(script, log);
    Both {
        ours,
        rusts,
        left: controller.hardware,
    }
}

/// The Rust's `test_port2` on the script and its log, and ours on the same: they agree.
pub fn both_test_port2<'a>(
    script: &'a [u8],
    log: &mut [u8],
    rusts_log: &'a mut [u8],
) -> Both<'a, Answer<()>, Result<(), &'static str>>
    ensures { log.old ≡ rusts_log.old → Agree result.ours log.new (said result.rusts) result.left }
{
    let mut controller = start(script, rusts_log);
    let rusts = controller.test_port2();
    let ours = test_port2(script, log);
    Both {
        ours,
        rusts,
        left: controller.hardware,
    }
}

/// The Rust's `match_port_test_result` on the script and its log, and ours on the same: they agree.
pub fn both_match_port_test_result<'a>(
    script: &'a [u8],
    rusts_log: &'a mut [u8],
) -> Both<'a, Answer<()>, Result<(), &'static str>>
    ensures { Agree result.ours rusts_log.old (said result.rusts) result.left }
{
    let mut controller = start(script, rusts_log);
    let rusts = controller.match_port_test_result();
    let ours = match_port_test_result(script);
    Both {
        ours,
        rusts,
        left: controller.hardware,
    }
}

/// The Rust's `read_controller_test_result` on the script and its log, and ours on the same: they
/// agree.
pub fn both_read_controller_test_result<'a>(
    script: &'a [u8],
    rusts_log: &'a mut [u8],
) -> Both<'a, Answer<()>, Result<(), &'static str>>
    ensures { Agree result.ours rusts_log.old (said result.rusts) result.left }
{
    let mut controller = start(script, rusts_log);
    let rusts = controller.read_controller_test_result();
    let ours = read_controller_test_result(script);
    Both {
        ours,
        rusts,
        left: controller.hardware,
    }
}

/// The Rust's `polling_send_receive` on the script and its log, and ours on the same: they agree.
pub fn both_polling_send_receive<'a>(
    script: &'a [u8],
    log: &mut [u8],
    rusts_log: &'a mut [u8],
    value: HostToDevice,
) -> Both<'a, Received, Result<DeviceToHostResponse, &'static str>>
    ensures { log.old ≡ rusts_log.old
        → AgreeKept result.ours.answer result.ours.kept log.new (said result.rusts) result.left }
{
    let mut controller = start(script, rusts_log);
    let rusts = controller.polling_send_receive(value);
    let mut kept = none_kept();
    let answer = polling_send_receive(script, log, value, &mut kept);
    Both {
        ours: Received { answer, kept },
        rusts,
        left: controller.hardware,
    }
}

/// The Rust's `polling_send`, over any hardware.
pub fn rusts_polling_send<H: Hardware + Drop>(
    controller: &mut PS2Controller<H>,
    value: HostToDevice,
) -> Result<(), &'static str>
    ensures { ran (said result) controller.new
        ≡ run (on_controller H.device) (polling_send_rule value) controller.old }
{
    controller.polling_send(value)
}

/// The Rust's `polling_send` on the script and its log, and ours on the same: they agree.
pub fn both_polling_send<'a>(
    script: &'a [u8],
    log: &mut [u8],
    rusts_log: &'a mut [u8],
    value: HostToDevice,
) -> Both<'a, Answer<()>, Result<(), &'static str>>
    ensures { log.old ≡ rusts_log.old → Agree result.ours log.new (said result.rusts) result.left }
{
    let mut controller = start(script, rusts_log);
    let rusts = controller.polling_send(value);
    let ours = polling_send(script, log, value);
    Both {
        ours,
        rusts,
        left: controller.hardware,
    }
}

/// The Rust's `polling_receive`, over any hardware.
pub fn rusts_polling_receive<H: Hardware + Drop>(
    controller: &mut PS2Controller<H>,
) -> Result<DeviceToHostResponse, &'static str>
    ensures { ran (said result) controller.new
        ≡ run (on_controller H.device) polling_receive_rule controller.old }
{
    controller.polling_receive()
}

/// The Rust's `polling_receive` on the script and its log, and ours on the same: they agree.
pub fn both_polling_receive<'a>(
    script: &'a [u8],
    rusts_log: &'a mut [u8],
) -> Both<'a, Received, Result<DeviceToHostResponse, &'static str>>
    ensures { AgreeKept result.ours.answer result.ours.kept rusts_log.old (said result.rusts)
        result.left }
{
    let mut controller = start(script, rusts_log);
    let rusts = controller.polling_receive();
    let ours = polling_receive(script);
    Both {
        ours,
        rusts,
        left: controller.hardware,
    }
}

/// The Rust's `read_data` on the script and its log, and ours on the same: they agree.
pub fn both_read_data<'a>(script: &'a [u8], rusts_log: &'a mut [u8]) -> Both<'a, Answer<u8>, u8>
    ensures { Agree result.ours rusts_log.old (gives result.rusts) result.left }
{
    let mut controller = start(script, rusts_log);
    let rusts = controller.read_data();
    let ours = read_data(script);
    Both {
        ours,
        rusts,
        left: controller.hardware,
    }
}

/// The Rust's `write_data` on the script and its log, and ours on the same: they agree.
pub fn both_write_data<'a>(
    script: &'a [u8],
    log: &mut [u8],
    rusts_log: &'a mut [u8],
    value: WritableData,
) -> Both<'a, Answer<()>, ()>
    ensures { log.old ≡ rusts_log.old → Agree result.ours log.new (gives success) result.left }
{
    let mut controller = start(script, rusts_log);
    controller.write_data(value);
    let ours = write_data(log, value);
    Both {
        ours,
        rusts: (),
        left: controller.hardware,
    }
}
