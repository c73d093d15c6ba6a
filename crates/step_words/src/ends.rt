// What is written of a session: what it asks next, or what its operation came to.
ghost use Rattle.std.specs.Prelude.{List, ℕ, ◌≡◌, ◌<◌, None, Some, Err, length, get_or, take};
ghost use Rattle.exchange.specs.Exchange.{bind, done};
ghost use Rattle.questions.specs.declared.Question.{Question as AQuestion};
ghost use Rattle.questions.specs.Asked.{going};
ghost use Rattle.questions.specs.Steps.{wants, requested};
ghost use Rattle.talks.specs.declared.Stop.TheVariants.{Asks as StopsAsking};
ghost use Rattle.sessions.specs.declared.Operation.{Operation as AnOperation};
ghost use Rattle.sessions.specs.Operations.{talk_of, refusal_told};
ghost use Rattle.sessions.specs.Rounds.{rounds, past, shown, exchange_of};
ghost use Rattle.step_words.specs.declared.ends.Advance.TheVariants as AnAdvance;
ghost use Rattle.step_words.specs.Arguments.{operation_in};
ghost use Rattle.step_words.specs.Places.{place_in};
ghost use Rattle.step_words.specs.Sessions.{session_in, ending_in, ended, said_rest};
ghost use Rattle.step_words.specs.Steps.{Said};

use crate::arguments::operation_at;
use crate::places::{going_at, put_place};
use ps2_answers::Failure;
use questions::{Going, Request, begin_question, wanted_at};
use sessions::{Ending, Operation};
use talks::Stop;

// The replies that there is room for.
const ROOM: u64 = 224;

/// A session: its operation, how many replies there are, and the place in the question.
#[derive(Clone, Copy)]
pub struct Session {
    pub operation: Operation,
    pub count: usize,
    pub at: Going,
}

/// What a step comes to: the numbers are no running session, or this is asked next, or the
/// operation is at its end, with the number of its refusal.
#[derive(Clone, Copy)]
pub enum Advance {
    Malformed,
    Asks(Request),
    Ends(u32),
}

// The session that the numbers stand for, if it runs. The place is read last, so that what is done
// there follows at once.
#[inline(always)]
pub(crate) fn session_at(fields: &[u64]) -> Option<Session>
    requires { length fields.now ≡ 12 }
    ensures { result ≡ session_in fields.now }
{
    let operation = operation_at(fields[0], fields[1])?;
    if fields[2] >= ROOM {
        return None;
    }
    let at = going_at(fields[3], fields[4], fields[5], fields[6])?;
    Some(Session {
        operation,
        count: fields[2] as usize,
        at,
    })
}

// Writes what an operation came to.
fn end(fields: &mut [u64], ending: Ending) -> Advance
    requires { length fields.old ≡ 12 }
    ensures place { place_in fields.new ≡ None }
    ensures ending { ending_in fields.new ≡ ending }
    ensures said { result ≡ AnAdvance.Ends ending.refusal }
{
    fields[3] = 0;
    fields[7] = u64::from(ending.refusal);
    fields[8] = ending.first;
    fields[9] = ending.second;
    fields[10] = ending.third;
    fields[11] = ending.fourth;
    Advance::Ends(ending.refusal)
}

// What is handed back of a failure.
fn failed(failure: Failure) -> Ending
    ensures { result ≡ refusal_told failure }
{
    Ending {
        refusal: u32::from(failure.number()),
        first: 0,
        second: 0,
        third: 0,
        fourth: 0,
    }
}

// Writes what is asked next, behind so many replies.
fn asking(fields: &mut [u64], count: usize, at: Going) -> Request
    requires { length fields.old ≡ 12 }
    ensures place { place_in fields.new ≡ Some at }
    ensures operation { get_or fields.new 0 0 ≡ get_or fields.old 0 0 }
    ensures argument { get_or fields.new 1 0 ≡ get_or fields.old 1 0 }
    ensures count { get_or fields.new 2 0 ≡ count }
    ensures said { wants (going at) ≡ requested result }
{
    fields[2] = count as u64;
    put_place(fields, at);
    wanted_at(at)
}

// Writes why an operation stopped on so many replies: it failed, or its question has no reply yet.
fn stopped(fields: &mut [u64], count: usize, stop: Stop) -> Advance
    requires length { length fields.old ≡ 12 }
    requires room { (q : AQuestion) → stop ≡ StopsAsking q → count < 224 }
    ensures left { (o : AnOperation) (p : List ℕ)
        → operation_in (get_or fields.old 0 0) (get_or fields.old 1 0) ≡ Some o
        → Err stop ≡ shown (past (rounds (talk_of o)) (take count p))
        → (bind (exchange_of (past (rounds (talk_of o)) (take count p))) (λ r. done (ended r))
        ≡ said_rest result fields.new p) × Said result fields.new p }
    ensures formed { result ≡ AnAdvance.Malformed → ⊥ }
{
    match stop {
        Stop::Refused(failure) => end(fields, failed(failure)),
        Stop::Asks(question) => {
            let at = begin_question(question);
            let request = asking(fields, count, at);
            Advance::Asks(request)
        }
    }
}

// Writes what an operation says on so many replies.
pub(crate) fn go_on(fields: &mut [u64], count: usize, said: Result<Ending, Stop>) -> Advance
    requires length { length fields.old ≡ 12 }
    requires room { (q : AQuestion) → said ≡ Err (StopsAsking q) → count < 224 }
    ensures left { (o : AnOperation) (p : List ℕ)
        → operation_in (get_or fields.old 0 0) (get_or fields.old 1 0) ≡ Some o
        → said ≡ shown (past (rounds (talk_of o)) (take count p))
        → (bind (exchange_of (past (rounds (talk_of o)) (take count p))) (λ r. done (ended r))
        ≡ said_rest result fields.new p) × Said result fields.new p }
    ensures formed { result ≡ AnAdvance.Malformed → ⊥ }
{
    match said {
        Ok(ending) => end(fields, ending),
        Err(stop) => stopped(fields, count, stop),
    }
}
