// What a function of the Rust answers on a script and a log, as numbers.
ghost use Rattle.std.specs.Prelude.{◌≡◌};
ghost use Rattle.theseus_ps2.specs.Comparison.{Starts};
ghost use Rattle.theseus_ps2.specs.Messages.{messages, number_in, said};
ghost use Rattle.theseus_calls.specs.Recorded.{later_messages, told_run, told_recorded, with_bytes, refusing_noted};

use port_words::{PortWords, Value, refusing_words};
use ps2_kept::{KeptBytes, none_kept};
use theseus_ps2::{PS2Controller, Recording};

/// An answer, and the bytes of data that were read and are no response: the earliest, in order, in the
/// first `count` places, and how many others there were. After 2 and 3 there are none.
#[repr(C)]
#[derive(Clone, Copy)]
pub struct NotedWords {
    pub answer: PortWords,
    pub count: u32,
    pub others: u32,
    pub bytes: [u8; 16],
}

/// The number of the refusal that a text with which the Rust fails stands for; its one panic is 13.
pub fn number_of(text: &'static str) -> u32
    ensures { result ≡ number_in messages text.now }
{
    if text == "The PS/2 Controller has already been initialized once." {
        1
    } else if text == "polling_send timeout value exceeded" {
        4
    } else if text == "polling_receive timeout value exceeded" {
        5
    } else if text == "failed self-test on reset" {
        6
    } else if text == "keyboard doesn't support the command or there has been a hardware failure" {
        7
    } else if text == "mouse doesn't support the command or there has been a hardware failure" {
        7
    } else if text == "failed PS/2 controller test" {
        8
    } else if text == "failed PS/2 port test" {
        9
    } else if text == "failed both PS/2 port tests, terminating PS/2 controller driver" {
        9
    } else if text == "failed to reset keyboard" {
        10
    } else if text == "failed to reset mouse" {
        10
    } else if text == "failed to get scancode set: timeout exceeded" {
        11
    } else {
        later_number_of(text)
    }
}

// The same of those behind the first twelve.
fn later_number_of(text: &'static str) -> u32
    ensures { result ≡ number_in later_messages text.now }
{
    if text == "failed to get mouse id: bad response" {
        11
    } else if text == "unrecognized keyboard type" {
        12
    } else if text == "panicked" {
        13
    } else if text == "failed to set the keyboard led" {
        14
    } else if text == "failed to set the mouse sampling rate" {
        15
    } else if text == "failed to set the mouse resolution" {
        15
    } else if text == "failed to disable mouse streaming" {
        16
    } else if text == "failed to enable mouse streaming" {
        17
    } else if text == "Failed to detect the PS/2 keyboard type" {
        18
    } else if text == "unknown keyboard scancode" {
        19
    } else if text == "keyboard input queue is full" {
        20
    } else {
        0
    }
}

/// What a call answers by numbers, and the log that was lent to it.
#[derive(Drop)]
pub struct Run<'a, W: Copy> {
    pub words: W,
    pub log: &'a mut [u8],
}

/// What the call answers, and the log that the recording had. A log on its own the prover follows
/// to its end, and one in a recording that was lent on it does not.
pub fn run_of<'a, W: Copy>(words: W, left: Recording<'a>) -> Run<'a, W>
    ensures words { result.words ≡ words }
    ensures log { result.log ≡ left.entry.log }
{
    let log = left.log;
    Run { words, log }
}

/// A recording of a script and a log, of which nothing is used or written yet.
pub fn begun_recording<'a>(script: &'a [u8], log: &'a mut [u8]) -> Recording<'a>
    ensures starts { Starts script.now log.old result }
    ensures same_log { result.log.ghost_name ≡ log.entry.ghost_name }
{
    Recording {
        script,
        log,
        used: 0,
        pairs: 0,
        short: false,
        asked: 0,
        thrown: none_kept(),
    }
}

/// A controller over one.
pub fn begun<'a>(script: &'a [u8], log: &'a mut [u8]) -> PS2Controller<Recording<'a>>
    ensures starts { Starts script.now log.old result.hardware }
    ensures same_log { result.hardware.log.ghost_name ≡ log.entry.ghost_name }
{
    PS2Controller {
        hardware: begun_recording(script, log),
        keyboard_attached: false,
        mouse_attached: false,
    }
}

// What a run is answered that fell short, 2 with the port that was read, or 3; and the Rust's answer
// otherwise.
fn run_words<V: Value>(
    rusts: Result<V, &'static str>,
    short: bool,
    asked: u8,
    used: usize,
    pairs: usize,
) -> PortWords
    ensures { result ≡ told_run V.worth (said rusts.entry) short asked used pairs }
{
    let (refusal, port, value) = if short {
        (if asked == 0 { 3 } else { 2 }, u32::from(asked), 0)
    } else {
        match rusts {
            Ok(value) => (0, 0, value.number()),
            Err(text) => (number_of(text), 0, 0),
        }
    };
    PortWords {
        refusal,
        port,
        used,
        pairs,
        value,
    }
}

// An answer with bytes.
fn with_bytes(answer: PortWords, kept: KeptBytes) -> NotedWords
    ensures { result ≡ with_bytes answer kept }
{
    let bytes = kept.bytes;
    NotedWords {
        answer,
        count: u32::from(kept.count),
        others: kept.others,
        bytes,
    }
}

/// What a function of the Rust answered, and how it left its recording.
pub fn recorded_words<V: Value>(rusts: Result<V, &'static str>, left: &Recording<'_>) -> NotedWords
    ensures { result ≡ told_recorded V.worth (said rusts.entry) left.now }
{
    let answer = run_words(rusts, left.short, left.asked, left.used, left.pairs);
    with_bytes(answer, if left.short { none_kept() } else { left.thrown })
}

/// A refusal before anything is read.
pub fn refusing_noted_words(refusal: u32) -> NotedWords
    ensures { result ≡ refusing_noted refusal }
{
    with_bytes(refusing_words(refusal), none_kept())
}
