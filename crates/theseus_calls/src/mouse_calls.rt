// The mouse's operations.
ghost use Rattle.std.specs.Prelude.{◌≡◌};
ghost use Rattle.bits.specs.Bits.{weigh};
ghost use Rattle.ps2_bytes.specs.Responses.{mouse_id_byte};
ghost use Rattle.ps2_mouse.specs.Mouse.{command_to_mouse, reset_mouse, set_sampling_rate, set_resolution, disable_packet_streaming, enable_packet_streaming, mouse_id as mouse_id_rule, mouse_output_buffer_full};
ghost use Rattle.port_words.specs.Told.{no_value};
ghost use Rattle.mouse_words.specs.Arguments.{command_at, rate_at, resolution_at};
ghost use Rattle.theseus_calls.specs.Operations.{commanding_mouse, commanding_rate, commanding_resolution};
ghost use Rattle.theseus_calls.specs.Recorded.{TellsNoted, TellsNotedAt};

use crate::answers::{NotedWords, Run, begun, recorded_words, refusing_noted_words, run_of};
use crate::arguments::mouse_command_of;
use argument_words::INVALID_ARGUMENT;
use mouse_words::{rate_of, resolution_of};
use ps2_bytes::{HostToMouseCommandOrData, MouseResolution, MouseSampleRate};
use theseus_ps2::both_mouse::{
    rusts_command_to_mouse, rusts_disable_mouse_packet_streaming,
    rusts_enable_mouse_packet_streaming, rusts_mouse_id, rusts_mouse_output_buffer_full,
    rusts_mouse_resolution, rusts_reset_mouse, rusts_set_mouse_sampling_rate,
};

fn mouse_reset<'a>(script: &'a [u8], log: &'a mut [u8]) -> Run<'a, NotedWords>
    ensures told { TellsNoted no_value reset_mouse script.now log.old result.words result.log.now }
    ensures same_log { result.log.ghost_name ≡ log.entry.ghost_name }
{
    let mut controller = begun(script, log);
    let rusts = rusts_reset_mouse(&mut controller);
    let words = recorded_words(rusts, &controller.hardware);
    run_of(words, controller.hardware)
}

/// Resets the mouse.
#[unsafe(no_mangle)]
pub extern "C" fn vdr_mouse_reset(script: &[u8], log: &mut [u8]) -> NotedWords
    ensures { TellsNoted no_value reset_mouse script.now log.old result log.new }
{
    mouse_reset(script, log).words
}

fn mouse_start_packets<'a>(script: &'a [u8], log: &'a mut [u8]) -> Run<'a, NotedWords>
    ensures told { TellsNoted no_value enable_packet_streaming script.now log.old result.words
        result.log.now }
    ensures same_log { result.log.ghost_name ≡ log.entry.ghost_name }
{
    let mut controller = begun(script, log);
    let rusts = rusts_enable_mouse_packet_streaming(&mut controller);
    let words = recorded_words(rusts, &controller.hardware);
    run_of(words, controller.hardware)
}

/// Starts the packets.
#[unsafe(no_mangle)]
pub extern "C" fn vdr_mouse_start_packets(script: &[u8], log: &mut [u8]) -> NotedWords
    ensures { TellsNoted no_value enable_packet_streaming script.now log.old result log.new }
{
    mouse_start_packets(script, log).words
}

fn mouse_stop_packets<'a>(script: &'a [u8], log: &'a mut [u8]) -> Run<'a, NotedWords>
    ensures told { TellsNoted no_value disable_packet_streaming script.now log.old result.words
        result.log.now }
    ensures same_log { result.log.ghost_name ≡ log.entry.ghost_name }
{
    let mut controller = begun(script, log);
    let rusts = rusts_disable_mouse_packet_streaming(&mut controller);
    let words = recorded_words(rusts, &controller.hardware);
    run_of(words, controller.hardware)
}

/// Stops the packets.
#[unsafe(no_mangle)]
pub extern "C" fn vdr_mouse_stop_packets(script: &[u8], log: &mut [u8]) -> NotedWords
    ensures { TellsNoted no_value disable_packet_streaming script.now log.old result log.new }
{
    mouse_stop_packets(script, log).words
}

fn mouse_identity<'a>(script: &'a [u8], log: &'a mut [u8]) -> Run<'a, NotedWords>
    ensures told { TellsNoted mouse_id_byte mouse_id_rule script.now log.old result.words
        result.log.now }
    ensures same_log { result.log.ghost_name ≡ log.entry.ghost_name }
{
    let mut controller = begun(script, log);
    let rusts = rusts_mouse_id(&mut controller);
    let words = recorded_words(rusts, &controller.hardware);
    run_of(words, controller.hardware)
}

/// Asks the mouse for its identity: 0, 3 or 4.
#[unsafe(no_mangle)]
pub extern "C" fn vdr_mouse_identity(script: &[u8], log: &mut [u8]) -> NotedWords
    ensures { TellsNoted mouse_id_byte mouse_id_rule script.now log.old result log.new }
{
    mouse_identity(script, log).words
}

// Sends a command or a data byte.
fn command<'a>(
    value: HostToMouseCommandOrData,
    script: &'a [u8],
    log: &'a mut [u8],
) -> Run<'a, NotedWords>
    ensures told { TellsNoted no_value (command_to_mouse value) script.now log.old result.words
        result.log.now }
    ensures same_log { result.log.ghost_name ≡ log.entry.ghost_name }
{
    let mut controller = begun(script, log);
    let rusts = rusts_command_to_mouse(&mut controller, value);
    let words = recorded_words(rusts, &controller.hardware);
    run_of(words, controller.hardware)
}

/// Sends a command, by the byte that the wiki lists it with.
#[unsafe(no_mangle)]
pub extern "C" fn vdr_mouse_command(byte: u32, script: &[u8], log: &mut [u8]) -> NotedWords
    ensures { TellsNotedAt no_value commanding_mouse (command_at byte) script.now log.old result
        log.new }
{
    match mouse_command_of(byte) {
        Some(known) => command(HostToMouseCommandOrData::MouseCommand(known), script, log).words,
        None => refusing_noted_words(INVALID_ARGUMENT),
    }
}

/// Sends a sampling rate as a command's data byte.
#[unsafe(no_mangle)]
pub extern "C" fn vdr_mouse_data_rate(rate: u32, script: &[u8], log: &mut [u8]) -> NotedWords
    ensures { TellsNotedAt no_value commanding_rate (rate_at rate) script.now log.old result
        log.new }
{
    match rate_of(rate) {
        Some(known) => command(HostToMouseCommandOrData::SampleRate(known), script, log).words,
        None => refusing_noted_words(INVALID_ARGUMENT),
    }
}

/// Sends a resolution as a command's data byte.
#[unsafe(no_mangle)]
pub extern "C" fn vdr_mouse_data_resolution(
    resolution: u32,
    script: &[u8],
    log: &mut [u8],
) -> NotedWords
    ensures { TellsNotedAt no_value commanding_resolution (resolution_at resolution) script.now
        log.old result log.new }
{
    match resolution_of(resolution) {
        Some(known) => command(
            HostToMouseCommandOrData::MouseResolution(known),
            script,
            log,
        )
        .words,
        None => refusing_noted_words(INVALID_ARGUMENT),
    }
}

fn set_rate<'a>(rate: MouseSampleRate, script: &'a [u8], log: &'a mut [u8]) -> Run<'a, NotedWords>
    ensures told { TellsNoted no_value (set_sampling_rate rate) script.now log.old result.words
        result.log.now }
    ensures same_log { result.log.ghost_name ≡ log.entry.ghost_name }
{
    let mut controller = begun(script, log);
    let rusts = rusts_set_mouse_sampling_rate(&mut controller, rate);
    let words = recorded_words(rusts, &controller.hardware);
    run_of(words, controller.hardware)
}

/// Sets the mouse's sampling rate.
#[unsafe(no_mangle)]
pub extern "C" fn vdr_mouse_sampling_rate(rate: u32, script: &[u8], log: &mut [u8]) -> NotedWords
    ensures { TellsNotedAt no_value set_sampling_rate (rate_at rate) script.now log.old result
        log.new }
{
    match rate_of(rate) {
        Some(known) => set_rate(known, script, log).words,
        None => refusing_noted_words(INVALID_ARGUMENT),
    }
}

fn set_resolution<'a>(
    resolution: MouseResolution,
    script: &'a [u8],
    log: &'a mut [u8],
) -> Run<'a, NotedWords>
    ensures told { TellsNoted no_value (set_resolution resolution) script.now log.old result.words
        result.log.now }
    ensures same_log { result.log.ghost_name ≡ log.entry.ghost_name }
{
    let mut controller = begun(script, log);
    let rusts = rusts_mouse_resolution(&mut controller, resolution);
    let words = recorded_words(rusts, &controller.hardware);
    run_of(words, controller.hardware)
}

/// Sets the mouse's resolution.
#[unsafe(no_mangle)]
pub extern "C" fn vdr_mouse_resolution(resolution: u32, script: &[u8], log: &mut [u8]) -> NotedWords
    ensures { TellsNotedAt no_value set_resolution (resolution_at resolution) script.now log.old
        result log.new }
{
    match resolution_of(resolution) {
        Some(known) => set_resolution(known, script, log).words,
        None => refusing_noted_words(INVALID_ARGUMENT),
    }
}

fn mouse_waits<'a>(script: &'a [u8], log: &'a mut [u8]) -> Run<'a, NotedWords>
    ensures told { TellsNoted weigh mouse_output_buffer_full script.now log.old result.words
        result.log.now }
    ensures same_log { result.log.ghost_name ≡ log.entry.ghost_name }
{
    let mut controller = begun(script, log);
    let waits = rusts_mouse_output_buffer_full(&mut controller);
    let words = recorded_words(Ok(waits), &controller.hardware);
    run_of(words, controller.hardware)
}

/// Whether there is a byte of the mouse to read: 1 where there is.
#[unsafe(no_mangle)]
pub extern "C" fn vdr_mouse_waits(script: &[u8], log: &mut [u8]) -> NotedWords
    ensures { TellsNoted weigh mouse_output_buffer_full script.now log.old result log.new }
{
    mouse_waits(script, log).words
}
