//! Operations that are run a byte at a time, on what the ports replied so far.
#![tactic(auto)]

ghost use Rattle.std.specs.Prelude.{◌≡◌};
ghost use Rattle.ps2_answers.specs.Refusals.{number_of};
ghost use Rattle.talks.specs.Heard.{by, heard};
ghost use Rattle.sessions.specs.Memory.{reply_in, memory};
ghost use Rattle.sessions.specs.Operations.{talk_of, value_told, one_number, refused_as, identity_told, controller_told, packet_told};
ghost use Rattle.sessions.specs.Rounds.{rounds, past, shown};

use port_words::{Value, packet_words};
use preferences::Preferences;
use ps2_answers::{Counted, Failure};
use ps2_bytes::{
    HostToKeyboardCommand, HostToMouseCommand, MouseId, MouseResolution, MouseSampleRate,
    ScancodeSet,
};
use ps2_init::PS2Controller;
use ps2_layouts::LEDState;
use ps2_packet::SignedPacket;
use ps2_ports::DevicePort;
use questions::Question;
use talks::{
    ControllerLeft, IdentityLeft, Partner, Stop, apply_preferences, disable_packet_streaming,
    enable_packet_streaming, get_scancode_set, initialize, keyboard_command, keyboard_detect,
    keyboard_init, keyboard_waits, mouse_command, mouse_id, mouse_waits, read_data, read_packet,
    reset_keyboard, reset_mouse, set_keyboard_repeat, set_mouse_id, set_port_led, set_resolution,
    set_sampling_rate, set_scancode_set,
};

/// What can be run a byte at a time.
#[derive(Clone, Copy)]
pub enum Operation {
    InitializeController(PS2Controller),
    InitializeKeyboard,
    ResetKeyboard,
    CommandKeyboard(HostToKeyboardCommand),
    SetLamps(LEDState),
    SetScancodeSet(ScancodeSet),
    GetScancodeSet,
    DetectKeyboard,
    SetRepeat(u8),
    KeyboardWaits,
    ReadScancode,
    ResetMouse,
    StartPackets,
    StopPackets,
    GetIdentity,
    SetIdentity(MouseId),
    CommandMouse(HostToMouseCommand),
    SetSamplingRate(MouseSampleRate),
    SetResolution(MouseResolution),
    MouseWaits,
    ReadPacket(MouseId),
    ApplyPreferences(Preferences),
}

/// What an operation comes to: the refusal's number, 0 where there is none, and what it hands back.
#[derive(Clone, Copy)]
pub struct Ending {
    pub refusal: u32,
    pub first: u64,
    pub second: u64,
    pub third: u64,
    pub fourth: u64,
}

/// What the ports replied so far, told once more.
#[derive(Drop)]
pub struct Memory<'a> {
    pub replies: &'a [u64],
    pub at: usize,
}

// A reply as it is remembered: the byte that was found. Any number that is no byte is none.
fn reply_of(word: u64) -> Option<u8>
    ensures { result ≡ reply_in word }
{
    if word < 256 { Some(word as u8) } else { None }
}

impl Partner for Memory<'_> {
    ghost replies = { memory };

    fn ask(&mut self, question: Question) -> Result<Option<u8>, Stop> {
        if self.at < self.replies.len() {
            let reply = reply_of(self.replies[self.at]);
            self.at += 1;
            Ok(reply)
        } else {
            Err(Stop::Asks(question))
        }
    }
}

// What an operation hands back that gives one value.
fn one<V: Value>(value: V) -> Ending
    ensures { result ≡ value_told V.worth value }
{
    Ending {
        refusal: 0,
        first: value.number(),
        second: 0,
        third: 0,
        fourth: 0,
    }
}

// What is handed back of an answer that comes with a mouse's identity.
fn identity_ending(left: IdentityLeft) -> Ending
    ensures { result ≡ identity_told left }
{
    Ending {
        refusal: refusal_of(left.answer),
        first: left.id.number(),
        second: 0,
        third: 0,
        fourth: 0,
    }
}

// What is handed back of an answer that comes with the controller's record.
fn controller_ending(left: ControllerLeft) -> Ending
    ensures { result ≡ controller_told left }
{
    Ending {
        refusal: refusal_of(left.answer),
        first: left.controller.initialized.number(),
        second: left.controller.keyboard_attached.number(),
        third: left.controller.mouse_attached.number(),
        fourth: 0,
    }
}

// What is handed back of a packet: the numbers of the one
// call's answer, of which a signed one is its 64 bits.
fn packet_ending(packet: SignedPacket) -> Ending
    ensures { result ≡ packet_told packet }
{
    let words = packet_words(Ok(Counted::new(packet)));
    Ending {
        refusal: 0,
        first: u64::from(words.buttons),
        second: i64::from(words.x).cast_unsigned(),
        third: i64::from(words.y).cast_unsigned(),
        fourth: i64::from(words.wheel).cast_unsigned(),
    }
}

// The number of a refusal, 0 where there is none.
fn refusal_of(answer: Result<(), Failure>) -> u32
    ensures { result ≡ refused_as answer }
{
    match answer {
        Ok(()) => 0,
        Err(failure) => u32::from(failure.number()),
    }
}

/// Runs an operation with whoever replies.
#[tactic(auto, unfolding(crate::specs::Operations::talk_of, talks::specs::Heard::heard))]
pub fn run<P: Partner>(partner: &mut P, operation: Operation) -> Result<Ending, Stop>
    ensures { by result partner.new ≡ heard P.replies (talk_of operation) partner.old }
{
    match operation {
        Operation::InitializeController(passed) => {
            let left = initialize(partner, passed)?;
            Ok(controller_ending(left))
        }
        Operation::InitializeKeyboard => {
            let done = keyboard_init(partner)?;
            Ok(one(done))
        }
        Operation::ResetKeyboard => {
            let done = reset_keyboard(partner)?;
            Ok(one(done))
        }
        Operation::CommandKeyboard(command) => {
            let done = keyboard_command(partner, command)?;
            Ok(one(done))
        }
        Operation::SetLamps(leds) => {
            let done = set_port_led(partner, DevicePort::Port1, leds)?;
            Ok(one(done))
        }
        Operation::SetScancodeSet(set) => {
            let done = set_scancode_set(partner, set)?;
            Ok(one(done))
        }
        Operation::GetScancodeSet => {
            let set = get_scancode_set(partner)?;
            Ok(one(set))
        }
        Operation::DetectKeyboard => {
            let found = keyboard_detect(partner)?;
            Ok(one(found))
        }
        Operation::SetRepeat(byte) => {
            let done = set_keyboard_repeat(partner, byte)?;
            Ok(one(done))
        }
        Operation::KeyboardWaits => {
            let waits = keyboard_waits(partner)?;
            Ok(one(waits))
        }
        Operation::ReadScancode => {
            let byte = read_data(partner)?;
            Ok(one(byte))
        }
        Operation::ResetMouse => {
            let done = reset_mouse(partner)?;
            Ok(one(done))
        }
        Operation::StartPackets => {
            let done = enable_packet_streaming(partner)?;
            Ok(one(done))
        }
        Operation::StopPackets => {
            let done = disable_packet_streaming(partner)?;
            Ok(one(done))
        }
        Operation::GetIdentity => {
            let id = mouse_id(partner)?;
            Ok(one(id))
        }
        Operation::SetIdentity(old) => {
            let left = set_mouse_id(partner, old)?;
            Ok(identity_ending(left))
        }
        Operation::CommandMouse(command) => {
            let done = mouse_command(partner, command)?;
            Ok(one(done))
        }
        Operation::SetSamplingRate(rate) => {
            let done = set_sampling_rate(partner, rate)?;
            Ok(one(done))
        }
        Operation::SetResolution(resolution) => {
            let done = set_resolution(partner, resolution)?;
            Ok(one(done))
        }
        Operation::MouseWaits => {
            let waits = mouse_waits(partner)?;
            Ok(one(waits))
        }
        Operation::ReadPacket(id) => {
            let packet = read_packet(partner, id)?;
            Ok(packet_ending(packet))
        }
        Operation::ApplyPreferences(preferences) => {
            let done = apply_preferences(partner, preferences)?;
            Ok(one(done))
        }
    }
}

/// What an operation comes to on the replies so far: its end, or the question that has no reply.
pub fn replay(operation: Operation, replies: &[u64]) -> Result<Ending, Stop>
    ensures { result ≡ shown (past (rounds (talk_of operation)) replies.now) }
{
    let mut memory = Memory { replies, at: 0 };
    run(&mut memory, operation)
}
