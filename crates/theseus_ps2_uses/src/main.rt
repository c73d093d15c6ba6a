// Each theorem of theseus_ps2 used once: the Rust's function and ours on a real script and on two
// logs that begin alike. And that of theseus_packet, on a packet's bytes.
#![tactic(auto)]

use program_status::ended;
use ps2_answers::Answer;
use ps2_bytes::{
    HostToControllerCommand, HostToDevice, HostToKeyboardCommand, HostToKeyboardCommandOrData,
    HostToMouseCommand, HostToMouseCommandOrData, MouseId, MouseResolution, MouseSampleRate,
    ScancodeSet, WritableData,
};
use ps2_init::PS2Controller as Ours;
use ps2_layouts::{ControllerConfigurationByte, LEDState};
use ps2_mouse::PS2Mouse as Mouse;
use std::io::Result;
use std::process::ExitCode;
use theseus_packet::both_packet;
use theseus_ps2::both_controller::{
    both_flush_output_buffer, both_match_port_test_result, both_polling_receive, both_polling_send,
    both_polling_send_receive, both_read_config, both_read_controller_test_result, both_read_data,
    both_status_register, both_test, both_test_port1, both_test_port2, both_write_command,
    both_write_config, both_write_data,
};
use theseus_ps2::both_identity::{both_read_mouse_packet, both_set_mouse_id};
use theseus_ps2::both_init::{both_init, both_keyboard_ref, both_mouse_ref};
use theseus_ps2::both_keyboard::{
    both_command_to_keyboard, both_get_keyboard_scancode_set, both_keyboard_detect,
    both_keyboard_output_buffer_full, both_read_scancode, both_reset_keyboard,
    both_set_keyboard_led, both_set_keyboard_scancode_set,
};
use theseus_ps2::both_mouse::{
    both_command_to_mouse, both_disable_mouse_packet_streaming, both_enable_mouse_packet_streaming,
    both_mouse_id, both_mouse_output_buffer_full, both_mouse_resolution, both_reset_mouse,
    both_set_mouse_sampling_rate,
};
use theseus_ps2::{Recording, start};

// Room for every exchange below.
const ROOM: usize = 64;

// A line on what the two came to: ours by its refusal's number, 0 for none.
fn tell<T: Copy>(rt: &impl Print, name: &str, ours: Answer<T>, left: &Recording<'_>) -> Result<()> {
    let (number, used, pairs) = match ours {
        Ok(a) => (0, a.used, a.pairs),
        Err(e) => (e.value.number(), e.used, e.pairs),
    };
    println!(rt;
        "{name}: ours {number}, {used} bytes, {pairs} pairs; the Rust {} bytes, {} pairs",
        left.used, left.pairs
    )
}

macro_rules! reads {
    ($rt:expr, $script:expr, $both:ident) => {{
        let script = $script;
        let mut rusts_log = [0u8; ROOM];
        let both = $both(&script, &mut rusts_log);
        tell($rt, stringify!($both), both.ours, &both.left)?;
    }};
}

macro_rules! plays {
    ($rt:expr, $script:expr, $both:ident $(, $value:expr)*) => {{
        let script = $script;
        let mut log = [0u8; ROOM];
        let mut rusts_log = [0u8; ROOM];
        let both = $both(&script, &mut log, &mut rusts_log $(, $value)*);
        tell($rt, stringify!($both), both.ours, &both.left)?;
    }};
}

macro_rules! keeps {
    ($rt:expr, $script:expr, $both:ident $(, $value:expr)*) => {{
        let script = $script;
        let mut log = [0u8; ROOM];
        let mut rusts_log = [0u8; ROOM];
        let both = $both(&script, &mut log, &mut rusts_log $(, $value)*);
        tell($rt, stringify!($both), both.ours.answer, &both.left)?;
    }};
}

fn use_registers(rt: &impl Print) -> Result<()> {
    plays!(
        rt,
        [0xFA],
        both_write_command,
        HostToControllerCommand::DisablePort1
    );
    plays!(rt, [0x65], both_read_config);
    plays!(
        rt,
        [0xFA],
        both_write_config,
        ControllerConfigurationByte::from(0x47)
    );
    reads!(rt, [0x1D], both_status_register);
    reads!(rt, [0xFA], both_flush_output_buffer);
    reads!(rt, [0x1E], both_read_data);
    let byte = WritableData::Configuration(ControllerConfigurationByte::from(0x47));
    plays!(rt, [0xFA], both_write_data, byte);
    Ok(())
}

fn use_polling(rt: &impl Print) -> Result<()> {
    let echo = HostToDevice::Keyboard(HostToKeyboardCommandOrData::KeyboardCommand(
        HostToKeyboardCommand::EnableScanning,
    ));
    plays!(rt, [0x00, 0x55], both_test);
    plays!(rt, [0x00, 0x01, 0x00], both_test_port1);
    plays!(rt, [0x01, 0x00], both_test_port2);
    reads!(rt, [0x01, 0x00], both_match_port_test_result);
    reads!(rt, [0x55], both_read_controller_test_result);
    plays!(rt, [0x02, 0x00], both_polling_send, echo);
    keeps!(
        rt,
        [0x00, 0x01, 0x1E, 0x01, 0xFA],
        both_polling_send_receive,
        echo
    );
    let script = [0x00, 0x01, 0x1E, 0x01, 0xFA];
    let mut rusts_log = [0u8; ROOM];
    let both = both_polling_receive(&script, &mut rusts_log);
    tell(rt, "both_polling_receive", both.ours.answer, &both.left)
}

fn use_keyboard(rt: &impl Print) -> Result<()> {
    let scan = HostToKeyboardCommandOrData::KeyboardCommand(HostToKeyboardCommand::EnableScanning);
    plays!(rt, [0x00, 0x01, 0xFA, 0xAA], both_reset_keyboard);
    keeps!(
        rt,
        [0x00, 0x01, 0xFE, 0x00, 0x01, 0xFA],
        both_command_to_keyboard,
        scan
    );
    keeps!(
        rt,
        [0x00, 0x01, 0xFA, 0x00, 0x01, 0xFA],
        both_set_keyboard_led,
        LEDState::from(4)
    );
    plays!(
        rt,
        [
            0x00, 0x01, 0xFA, 0x00, 0x01, 0xFA, 0x00, 0x01, 0xFA, 0x00, 0x01, 0xFA, 0x01, 0x02
        ],
        both_set_keyboard_scancode_set,
        ScancodeSet::Set1
    );
    plays!(
        rt,
        [0x00, 0x01, 0xFA, 0x00, 0x01, 0xFA, 0x01, 0x01],
        both_get_keyboard_scancode_set
    );
    plays!(
        rt,
        [
            0x00, 0x01, 0xFA, 0x00, 0x01, 0xFA, 0x01, 0xAB, 0x01, 0x83, 0x00, 0x01, 0xFA
        ],
        both_keyboard_detect
    );
    reads!(rt, [0x01], both_keyboard_output_buffer_full);
    reads!(rt, [0x1E], both_read_scancode);
    Ok(())
}

fn use_mouse(rt: &impl Print) -> Result<()> {
    let stream = HostToMouseCommandOrData::MouseCommand(HostToMouseCommand::SetStreamMode);
    plays!(rt, [0x00, 0x01, 0xFA, 0xAA, 0x00], both_reset_mouse);
    keeps!(rt, [0x00, 0x01, 0xFA], both_command_to_mouse, stream);
    plays!(
        rt,
        [0x00, 0x01, 0xFA, 0x00, 0x01, 0xFA],
        both_set_mouse_sampling_rate,
        MouseSampleRate::_100
    );
    plays!(rt, [0x00, 0x01, 0xFA, 0x21, 0x03], both_mouse_id);
    plays!(rt, [0x00, 0x01, 0xFA], both_enable_mouse_packet_streaming);
    plays!(rt, [0x00, 0x01, 0xFC], both_disable_mouse_packet_streaming);
    plays!(
        rt,
        [0x00, 0x01, 0xFA, 0x00, 0x01, 0xFA],
        both_mouse_resolution,
        MouseResolution::Count4PerMm
    );
    reads!(rt, [0x21], both_mouse_output_buffer_full);
    Ok(())
}

// With an identity that stays 0: F5, three rates, the identity, F4.
fn use_identity(rt: &impl Print) -> Result<()> {
    let script = [0x08, 0x01, 0x02, 0xFF];
    let mut rusts_log = [0u8; ROOM];
    let read = both_read_mouse_packet(&script, &mut rusts_log, Mouse { id: MouseId::Three });
    tell(rt, "both_read_mouse_packet", read.ours, &read.left)?;
    let script = [
        0x00, 0x01, 0xFA, 0x00, 0x01, 0xFA, 0x00, 0x01, 0xFA, 0x00, 0x01, 0xFA, 0x00, 0x01, 0xFA,
        0x00, 0x01, 0xFA, 0x00, 0x01, 0xFA, 0x00, 0x01, 0xFA, 0x21, 0x00, 0x00, 0x01, 0xFA,
    ];
    let mut log = [0u8; ROOM];
    let mut rusts_log = [0u8; ROOM];
    let set = both_set_mouse_id(
        &script,
        &mut log,
        &mut rusts_log,
        Mouse { id: MouseId::Zero },
    );
    tell(rt, "both_set_mouse_id", set.ours.answer, &set.left)
}

// A packet of a mouse with five buttons: x overflows to the left, y is 16 up, the wheel is 15,
// button 4 is down.
fn use_packet(rt: &impl Print) -> Result<()> {
    let both = both_packet(MouseId::Four, 0x59, 0x01, 0x10, 0x1F);
    let (ours, rusts) = (both.ours, both.rusts);
    println!(rt;
        "both_packet: ours x {}, y {}, wheel {}, button 4 {}; the Rust x {}, y {}, wheel {}, button 4 {}",
        ours.x_movement,
        ours.y_movement,
        ours.scroll_movement,
        ours.button_4,
        rusts.x_movement,
        rusts.y_movement,
        rusts.scroll_movement,
        rusts.button_4
    )
}

// A controller with both ports, a keyboard and a mouse.
fn use_init(rt: &impl Print) -> Result<()> {
    let record = Ours {
        initialized: false,
        keyboard_attached: false,
        mouse_attached: false,
    };
    let script = [
        0xFA, 0x65, 0x55, 0x01, 0x00, 0x01, 0x00, 0x00, 0x01, 0xFA, 0xAA, 0x00, 0x01, 0xFA, 0xAA,
        0x00, 0x47,
    ];
    let mut log = [0u8; ROOM];
    let mut rusts_log = [0u8; ROOM];
    let both = both_init(&script, &mut log, &mut rusts_log, record);
    tell(rt, "both_init", both.ours.answer, &both.left)?;
    let mut other_log = [0u8; ROOM];
    let mut controller = start(&script, &mut other_log);
    let (ours, rusts) = both_keyboard_ref(record, &mut controller);
    let lent = ours.is_some();
    let rusts_lent = rusts.is_some();
    println!(rt; "both_keyboard_ref: ours lends one: {lent}; the Rust lends one: {rusts_lent}")?;
    let (ours, rusts) = both_mouse_ref(record, &mut controller);
    let lent = ours.is_some();
    let rusts_lent = rusts.is_some();
    println!(rt; "both_mouse_ref: ours lends one: {lent}; the Rust lends one: {rusts_lent}")
}

fn use_all(rt: &impl Print) -> Result<()> {
    use_registers(rt)?;
    use_polling(rt)?;
    use_keyboard(rt)?;
    use_mouse(rt)?;
    use_identity(rt)?;
    use_packet(rt)?;
    use_init(rt)
}

fn main(rt: HostRuntime) -> ExitCode {
    ended(&rt, "theseus_ps2_uses", use_all(&rt))
}
