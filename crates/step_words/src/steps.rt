// One byte of a session, and its beginning.
ghost use Rattle.std.specs.Prelude.{List, ℕ, ◌≡◌, ◌<◌, ◌+◌, ◌++◌, ◌∷◌, [], None, Some, length, get_or, take};
ghost use Rattle.exchange.specs.Exchange.{bind, done};
ghost use Rattle.ps2_kept.specs.Kept.{nothing_kept};
ghost use Rattle.ps2_kept.specs.Thrown.{unlisted};
ghost use Rattle.ps2_kept.specs.Added.{added};
ghost use Rattle.questions.specs.Asked.{going};
ghost use Rattle.questions.specs.Steps.{requested, wants};
ghost use Rattle.sessions.specs.Memory.{reply_in};
ghost use Rattle.sessions.specs.Operations.{talk_of};
ghost use Rattle.sessions.specs.Rounds.{rounds, past, answered, exchange_of};
ghost use Rattle.step_words.specs.declared.ends.Advance.TheVariants as AnAdvance;
ghost use Rattle.step_words.specs.Sessions.{session_in, kept_in, noting, ended, said_rest, whole};
ghost use Rattle.step_words.specs.Arguments.{operation_in};
ghost use Rattle.step_words.specs.Steps.{Said, StepIn, BeginIn};

use crate::ends::{Advance, Session, go_on, session_at};
use crate::places::put_place;
use ps2_answers::ReadPort;
use ps2_bytes::DeviceToHostResponse;
use questions::{Going, Request, Stepped, step, wanted_at};
use sessions::{Operation, replay};

// A reply as it is remembered: the byte that was found, or a number that is no byte.
fn word_of(reply: Option<u8>) -> u64
    ensures { reply_in result ≡ reply }
{
    match reply {
        Some(byte) => u64::from(byte),
        None => 256,
    }
}

// One reply more is known.
fn remember(replies: &mut [u64], count: usize, word: u64)
    requires { count < length replies.old }
    ensures known { take (count + 1) replies.new ≡ take count replies.old ++ (word ∷ []) }
    ensures counted { length (take (count + 1) replies.new) ≡ count + 1 }
    ensures length { length replies.new ≡ length replies.old }
{
    replies[count] = word;
}

// The reply to a session's question.
fn replied(fields: &mut [u64], replies: &mut [u64], session: Session, reply: Option<u8>) -> Advance
    requires fields { length fields.old ≡ 12 }
    requires replies { length replies.old ≡ 224 }
    requires session { session_in fields.old ≡ Some session }
    ensures rest { bind (exchange_of
        (answered (past (rounds (talk_of session.operation)) (take session.count replies.old))
        reply)) (λ r. done (ended r)) ≡ said_rest result fields.new replies.new }
    ensures says { Said result fields.new replies.new }
    ensures formed { result ≡ AnAdvance.Malformed → ⊥ }
{
    let count = session.count + 1;
    let word = word_of(reply);
    remember(replies, session.count, word);
    let said = replay(session.operation, &replies[..count]);
    go_on(fields, count, said)
}

// Whether a byte is thrown away.
fn is_unlisted(byte: u8) -> bool
    ensures { result ≡ unlisted byte }
{
    match DeviceToHostResponse::try_from(byte) {
        Ok(_) => false,
        Err(_) => true,
    }
}

// One byte more is kept, or counted. The count stops at its greatest number.
#[tactic(auto, unfolding(ps2_kept::specs::Added::added))]
fn add(counts: &mut [u64], bytes: &mut [u64], byte: u8)
    requires counts { length counts.old ≡ 4 }
    requires bytes { length bytes.old ≡ 16 }
    ensures { kept_in counts.new bytes.new ≡ added (kept_in counts.old bytes.old) byte }
{
    let place = counts[0];
    if place < 16 {
        bytes[place as usize] = u64::from(byte);
        counts[0] = place + 1;
    } else if counts[1] < u64::from(u32::MAX) {
        counts[1] += 1;
    }
}

// A byte that was read or, of a write, one that means nothing: it is kept where it is thrown away.
fn note(counts: &mut [u64], bytes: &mut [u64], request: Request, byte: u8)
    requires counts { length counts.old ≡ 4 }
    requires bytes { length bytes.old ≡ 16 }
    ensures { kept_in counts.new bytes.new
        ≡ noting (requested request) (kept_in counts.old bytes.old) byte }
{
    match request {
        Request::Read(ReadPort::Data) => {
            if is_unlisted(byte) {
                add(counts, bytes, byte);
            }
        }
        Request::Read(ReadPort::Status) => {}
        Request::Write(_, _) => {}
    }
}

// The step itself, whatever was noted of the byte.
#[inline(always)]
fn advance(fields: &mut [u64], replies: &mut [u64], session: Session, byte: u8) -> Advance
    requires fields { length fields.old ≡ 12 }
    requires replies { length replies.old ≡ 224 }
    requires session { session_in fields.old ≡ Some session }
    ensures { (c b c' b' : List ℕ)
        → kept_in c' b' ≡ noting (wants (going session.at)) (kept_in c b) byte
        → StepIn fields.old c b replies.old byte result fields.new c' b' replies.new }
{
    match step(session.at, byte) {
        Stepped::Goes(at) => {
            put_place(fields, at);
            Advance::Asks(wanted_at(at))
        }
        Stepped::Reply(reply) => replied(fields, replies, session, reply),
    }
}

/// The byte that was read, or the write that was made. Only a wait reads data, of which a byte may
/// be thrown away. Each kind of place has an arm of its own, so that the compiler makes its step
/// where it has read it, and asks for the kind once.
pub(crate) fn next_in(
    fields: &mut [u64],
    counts: &mut [u64],
    bytes: &mut [u64],
    replies: &mut [u64],
    byte: u8,
) -> Advance
    requires fields { length fields.old ≡ 12 }
    requires counts { length counts.old ≡ 4 }
    requires bytes { length bytes.old ≡ 16 }
    requires replies { length replies.old ≡ 224 }
    ensures { StepIn fields.old counts.old bytes.old replies.old byte result fields.new counts.new
        bytes.new replies.new }
{
    let Some(session) = session_at(fields) else {
        return Advance::Malformed;
    };
    match session.at {
        Going::Writing(_, _) => advance(fields, replies, session, byte),
        Going::Sending(_, _) => advance(fields, replies, session, byte),
        Going::Submitting(_) => advance(fields, replies, session, byte),
        Going::Seeking(_) => {
            note(counts, bytes, wanted_at(session.at), byte);
            advance(fields, replies, session, byte)
        }
    }
}

// Nothing is kept yet.
fn clear(counts: &mut [u64], bytes: &mut [u64])
    requires counts { length counts.old ≡ 4 }
    requires bytes { length bytes.old ≡ 16 }
    ensures { kept_in counts.new bytes.new ≡ nothing_kept }
{
    counts.fill(0);
    bytes.fill(0);
}

// Writes which operation it is.
fn put_operation(fields: &mut [u64], number: u64, argument: u64)
    requires { length fields.old ≡ 12 }
    ensures number { get_or fields.new 0 0 ≡ number }
    ensures argument { get_or fields.new 1 0 ≡ argument }
    ensures length { length fields.new ≡ 12 }
{
    fields[0] = number;
    fields[1] = argument;
    fields[7] = 0;
    fields[8] = 0;
    fields[9] = 0;
    fields[10] = 0;
    fields[11] = 0;
}

/// Begins the operation that a number and an argument stand for.
pub(crate) fn begin_in(
    fields: &mut [u64],
    counts: &mut [u64],
    bytes: &mut [u64],
    number: u64,
    argument: u64,
    operation: Operation,
) -> Advance
    requires fields { length fields.old ≡ 12 }
    requires counts { length counts.old ≡ 4 }
    requires bytes { length bytes.old ≡ 16 }
    requires operation { operation_in number argument ≡ Some operation }
    ensures { BeginIn operation result fields.new counts.new bytes.new }
{
    clear(counts, bytes);
    put_operation(fields, number, argument);
    let said = replay(operation, &[]);
    go_on(fields, 0, said)
}
