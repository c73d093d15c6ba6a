//! Questions to the ports, a byte at a time: a write, a whole bounded wait, or one attempt of a
//! command. Each has one reply, however often it reads.
//!
//! A place in a question is all that is kept of it. [`wanted_at`] tells what is asked of the ports
//! there, and [`step`] what one byte makes of it: another place, or the question's reply.
#![tactic(auto)]

ghost use Rattle.std.specs.Prelude.{◌≡◌, cond, Some, None};
ghost use Rattle.exchange.specs.Repeat.{found, again, repeat};
ghost use Rattle.exchange.specs.Exchange.{bind, done};
ghost use Rattle.ps2_answers.specs.Refusals.{port_of};
ghost use Rattle.ps2_bytes.specs.Responses.{mouse_ids};
ghost use Rattle.ps2_bytes.specs.Data.{scancode_sets};
ghost use Rattle.ps2_mouse.specs.Mouse.{mouse_byte_waits};
ghost use Rattle.questions.specs.declared.Sought.TheVariants as AnySought;
ghost use Rattle.questions.specs.declared.Sought.{Sought as ASought};
ghost use Rattle.bits.specs.Bits.{bit};
ghost use Rattle.ps2_layouts.specs.Status.{output_buffer_full, input_buffer_full};
ghost use Rattle.questions.specs.Asked.{meets, first, second, turn, further_turns, going, going_on, begun, first_port, response_awaited, sent};
ghost use Rattle.questions.specs.declared.Going.TheVariants as AGoing;
ghost use Rattle.questions.specs.Steps.{worth, after, stepped, wants, a_read, requested};

use ps2_answers::ReadPort;
use ps2_bytes::DeviceToHostResponse;
use ps2_layouts::ControllerToHostStatus;

/// What a wait is for.
#[derive(Clone, Copy)]
pub enum Sought {
    /// The status once it says that the input buffer is free.
    InputFree,
    /// A device's response, polled for.
    Response,
    /// The first byte of a keyboard's identity that means something, 00 or AB, polled for.
    FirstOfIdentity,
    /// The byte behind AB, polled for.
    SecondOfIdentity,
    /// A scancode set, 0 to 3, polled for.
    ScancodeSet,
    /// 00, by which a port passes its test, polled for.
    PortPassed,
    /// A mouse's identity, polled for by bits 0 and 5 of the status.
    MouseIdentity,
    /// This byte, in reads of data that don't ask the status.
    Byte(u8),
    /// Whatever a read of data brings.
    Data,
    /// Whatever a read of the status brings.
    Status,
}

/// The polls of a receiving behind the first: 65,535 in all.
pub const FURTHER_POLLS: u32 = 65534;

// The status reads of a sending, behind the first.
const FURTHER_TRIES: u32 = 254;

// The reply to an attempt where the input buffer stayed full. No response is this byte.
const INPUT_STAYED_FULL: u8 = 4;

/// A question to the ports: a write, a wait with so many turns behind its first, or one attempt of
/// a command, which sends this byte to a device and polls for its response.
#[derive(Clone, Copy)]
pub enum Question {
    Write(ReadPort, u8),
    Seek(Sought, u32),
    Attempt(u8),
}

/// A place in a question: the write is to be made, or a wait has come so far. An attempt waits
/// until it can send its byte, with so many turns behind this one; sends it; and is then a wait.
#[derive(Clone, Copy)]
pub enum Going {
    Writing(ReadPort, u8),
    Seeking(Wait),
    Sending(u8, u32),
    Submitting(u8),
}

/// A place in a wait: its turn is at its first byte, or at the data behind its status, with so many
/// turns behind it.
#[derive(Clone, Copy)]
pub struct Wait {
    pub sought: Sought,
    pub further: u32,
    pub at_data: bool,
}

/// What is asked of the ports.
#[derive(Clone, Copy)]
pub enum Request {
    Read(ReadPort),
    Write(ReadPort, u8),
}

/// What a turn's first byte comes to.
#[derive(Clone, Copy)]
pub enum Worth {
    Found,
    Again,
    Data,
}

/// What one byte makes of a place: another place, or the question's reply, which is the byte that a
/// wait found; a write has none, and neither has a wait whose turns are over. An attempt's reply is
/// that of its wait for a response, or a 4, which is no response, if its byte could not be sent.
#[derive(Clone, Copy)]
pub enum Stepped {
    Goes(Going),
    Reply(Option<u8>),
}

// Whether a byte is a device's response.
fn is_response(byte: u8) -> bool
    ensures { meets AnySought.Response byte ≡ cond result (found (Some byte)) again }
{
    match DeviceToHostResponse::try_from(byte) {
        Ok(_) => true,
        Err(_) => false,
    }
}

// Whether a byte is the second of an identity.
#[tactic(auto, unfolding(bits::specs::Table::decode))]
fn is_second(byte: u8) -> bool
    ensures { meets AnySought.SecondOfIdentity byte ≡ cond result (found (Some byte)) again }
{
    match byte {
        0x41 => true,
        0xC1 => true,
        0x83 => true,
        _ => false,
    }
}

// Whether a byte is a scancode set.
#[tactic(auto, unfolding(bits::specs::Table::decode))]
fn is_set(byte: u8) -> bool
    ensures { meets AnySought.ScancodeSet byte ≡ cond result (found (Some byte)) again }
{
    match byte {
        0 => true,
        1 => true,
        2 => true,
        3 => true,
        _ => false,
    }
}

// Whether a byte is a mouse's identity.
#[tactic(auto, unfolding(bits::specs::Table::decode))]
fn is_identity(byte: u8) -> bool
    ensures { meets AnySought.MouseIdentity byte ≡ cond result (found (Some byte)) again }
{
    match byte {
        0 => true,
        3 => true,
        4 => true,
        _ => false,
    }
}

// Whether a byte of data is what a wait is for.
fn is_met(sought: Sought, byte: u8) -> bool
    ensures { meets sought byte ≡ cond result (found (Some byte)) again }
{
    match sought {
        Sought::InputFree => true,
        Sought::Response => is_response(byte),
        Sought::FirstOfIdentity => byte == 0x00 || byte == 0xAB,
        Sought::SecondOfIdentity => is_second(byte),
        Sought::ScancodeSet => is_set(byte),
        Sought::PortPassed => byte == 0x00,
        Sought::MouseIdentity => is_identity(byte),
        Sought::Byte(x) => byte == x,
        Sought::Data => true,
        Sought::Status => true,
    }
}

// What the status says of a poll.
fn poll_byte(byte: u8) -> Worth
    ensures { (s : ASought) → cond (bit output_buffer_full byte) (second s) (done again)
        ≡ worth s byte result }
{
    let status = ControllerToHostStatus::from(byte);
    if status.output_buffer_full() {
        Worth::Data
    } else {
        Worth::Again
    }
}

// What the status says of a poll for the mouse.
fn mouse_poll_byte(byte: u8) -> Worth
    ensures { (s : ASought) → cond (mouse_byte_waits byte) (second s) (done again)
        ≡ worth s byte result }
{
    let status = ControllerToHostStatus::from(byte);
    if status.output_buffer_full() && status.mouse_output_buffer_full() {
        Worth::Data
    } else {
        Worth::Again
    }
}

// Whether the input buffer is full, by the status.
fn is_full(status: u8) -> bool
    ensures { result ≡ bit input_buffer_full status }
{
    ControllerToHostStatus::from(status).input_buffer_full()
}

// What the first byte of a turn comes to.
#[inline(always)]
fn first_byte(sought: Sought, byte: u8) -> Worth
    ensures { first sought byte ≡ worth sought byte result }
{
    match sought {
        Sought::InputFree => {
            if is_full(byte) {
                Worth::Again
            } else {
                Worth::Found
            }
        }
        Sought::Response => poll_byte(byte),
        Sought::FirstOfIdentity => poll_byte(byte),
        Sought::SecondOfIdentity => poll_byte(byte),
        Sought::ScancodeSet => poll_byte(byte),
        Sought::PortPassed => poll_byte(byte),
        Sought::MouseIdentity => mouse_poll_byte(byte),
        Sought::Byte(x) => {
            if byte == x {
                Worth::Found
            } else {
                Worth::Again
            }
        }
        Sought::Data => Worth::Found,
        Sought::Status => Worth::Found,
    }
}

// A turn that found nothing: the next, or none.
#[inline(always)]
fn next_turn(sought: Sought, further: u32) -> Stepped
    ensures { repeat further None (turn sought) ≡ stepped result }
{
    if further == 0 {
        return Stepped::Reply(None);
    }
    Stepped::Goes(Going::Seeking(Wait {
        sought,
        further: further - 1,
        at_data: false,
    }))
}

// The first byte of a wait's turn.
#[inline(always)]
fn step_first(sought: Sought, further: u32, byte: u8) -> Stepped
    ensures { after (bind (turn sought) (further_turns sought further)) byte ≡ stepped result }
{
    match first_byte(sought, byte) {
        Worth::Found => Stepped::Reply(Some(byte)),
        Worth::Again => next_turn(sought, further),
        Worth::Data => Stepped::Goes(Going::Seeking(Wait {
            sought,
            further,
            at_data: true,
        })),
    }
}

// The data of a wait's turn.
#[inline(always)]
fn step_data(sought: Sought, further: u32, byte: u8) -> Stepped
    ensures { after (bind (second sought) (further_turns sought further)) byte ≡ stepped result }
{
    if is_met(sought, byte) {
        Stepped::Reply(Some(byte))
    } else {
        next_turn(sought, further)
    }
}

// One byte of a wait.
#[inline(always)]
fn step_wait(wait: Wait, byte: u8) -> Stepped
    ensures { after (going_on wait) byte ≡ stepped result }
{
    if wait.at_data {
        step_data(wait.sought, wait.further, byte)
    } else {
        step_first(wait.sought, wait.further, byte)
    }
}

// What is left of a sending after a status that let nothing through.
fn next_try(value: u8, further: u32) -> Stepped
    ensures { bind (repeat further None (turn AnySought.InputFree)) (sent value) ≡ stepped result }
{
    if further == 0 {
        return Stepped::Reply(Some(INPUT_STAYED_FULL));
    }
    Stepped::Goes(Going::Sending(value, further - 1))
}

// One status of an attempt that waits until it can send its byte.
fn step_sending(value: u8, further: u32, status: u8) -> Stepped
    ensures { after (going (AGoing.Sending value further)) status ≡ stepped result }
{
    if is_full(status) {
        next_try(value, further)
    } else {
        Stepped::Goes(Going::Submitting(value))
    }
}

// The wait for the response to a byte that was sent.
fn receiving() -> Going
    ensures { going result ≡ response_awaited }
{
    Going::Seeking(Wait {
        sought: Sought::Response,
        further: FURTHER_POLLS,
        at_data: false,
    })
}

/// What the byte that was read makes of a place; or the write that was made, where the byte means
/// nothing.
#[inline(always)]
pub fn step(at: Going, byte: u8) -> Stepped
    ensures { after (going at) byte ≡ stepped result }
{
    match at {
        Going::Writing(_, _) => Stepped::Reply(None),
        Going::Seeking(wait) => step_wait(wait, byte),
        Going::Sending(value, further) => step_sending(value, further, byte),
        Going::Submitting(_) => Stepped::Goes(receiving()),
    }
}

/// The place at which a question begins.
pub fn begin_question(question: Question) -> Going
    ensures { result ≡ begun question }
{
    match question {
        Question::Write(port, value) => Going::Writing(port, value),
        Question::Seek(sought, further) => Going::Seeking(Wait {
            sought,
            further,
            at_data: false,
        }),
        Question::Attempt(value) => Going::Sending(value, FURTHER_TRIES),
    }
}

// The port that a wait's turn reads first.
fn first_read(sought: Sought) -> ReadPort
    ensures { port_of result ≡ first_port sought }
{
    match sought {
        Sought::InputFree => ReadPort::Status,
        Sought::Response => ReadPort::Status,
        Sought::FirstOfIdentity => ReadPort::Status,
        Sought::SecondOfIdentity => ReadPort::Status,
        Sought::ScancodeSet => ReadPort::Status,
        Sought::PortPassed => ReadPort::Status,
        Sought::MouseIdentity => ReadPort::Status,
        Sought::Byte(_) => ReadPort::Data,
        Sought::Data => ReadPort::Data,
        Sought::Status => ReadPort::Status,
    }
}

// What a wait asks of the ports.
#[inline(always)]
#[tactic(auto, unfolding(exchange::specs::Exchange::bind))]
fn wanted_on(wait: Wait) -> ReadPort
    ensures { wants (going_on wait) ≡ a_read (port_of result) }
{
    if wait.at_data {
        ReadPort::Data
    } else {
        first_read(wait.sought)
    }
}

/// What a place in a question asks of the ports.
#[inline(always)]
#[tactic(auto, unfolding(exchange::specs::Exchange::bind))]
pub fn wanted_at(at: Going) -> Request
    ensures { wants (going at) ≡ requested result }
{
    match at {
        Going::Writing(port, value) => Request::Write(port, value),
        Going::Seeking(wait) => Request::Read(wanted_on(wait)),
        Going::Sending(_, _) => Request::Read(ReadPort::Status),
        Going::Submitting(value) => Request::Write(ReadPort::Data, value),
    }
}
