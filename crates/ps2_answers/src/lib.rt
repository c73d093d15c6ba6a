// What the operations on the ports answer: refusals with
// their numbers, and answers with their counts.
#![tactic(auto)]

ghost use Rattle.std.specs.Prelude.{◌≡◌};
ghost use Rattle.exchange.specs.Exchange.{number as port_number};
ghost use Rattle.exchange.specs.Answer.{lack_number};
ghost use Rattle.ps2_answers.specs.Refusals.{port_of, lack_of, number_of, refusal_number};
ghost use Rattle.ps2_answers.specs.Answers.{counted, behind, concluded, outcome_of};

/// The controller's ports as they are read: data from 60, the status from 64.
#[derive(Clone, Copy, PartialEq, Eq)]
pub enum ReadPort {
    Data = 0x60,
    Status = 0x64,
}

/// What a call lacked: a script byte for its next read, which was to be of this port, or two free
/// log bytes for its next write.
#[derive(Clone, Copy, PartialEq, Eq)]
pub enum Lack {
    Script(ReadPort),
    Log,
}

/// Why the controller or a device did not do what was asked, or was not asked. Each has a number
/// (docs/REFUSALS.md).
#[derive(Clone, Copy, PartialEq, Eq)]
pub enum Failure {
    AlreadyInitialized = 1,
    InputBufferFull = 4,
    NoResponse = 5,
    SelfTestFailed = 6,
    NotAcknowledged = 7,
    ControllerTestFailed = 8,
    PortTestFailed = 9,
    ResetFailed = 10,
    NoSetOrIdentity = 11,
    UnknownKeyboard = 12,
    FirstIdentityFour = 13,
    LedsNotSet = 14,
    RateOrResolutionNotSet = 15,
    PacketsNotStopped = 16,
    PacketsNotStarted = 17,
    KeyboardNotDetected = 18,
    FieldOutsideValues = 28,
}

/// Why a call ended without what it is for: it lacked a byte or room, or it failed.
#[derive(Clone, Copy, PartialEq, Eq)]
pub enum Refusal {
    Lacking(Lack),
    Failed(Failure),
}

impl ReadPort {
    /// The port's number.
    pub fn number(self) -> u8
        ensures { result ≡ port_number (port_of self) }
    {
        self as u8 // where it is read
    }
}

impl Lack {
    /// The number of this lack, as an answer tells it.
    pub fn number(self) -> u8
        ensures { result ≡ lack_number (lack_of self) }
    {
        match self {
            Lack::Script(_) => 2,
            Lack::Log => 3,
        }
    }
}

impl Failure {
    /// The number of this failure, as an answer tells it.
    pub fn number(self) -> u8
        ensures { result ≡ number_of self }
    {
        self as u8 // as it is declared
    }
}

impl Refusal {
    /// The number of this refusal, as an answer tells it.
    pub fn number(self) -> u8
        ensures { result ≡ refusal_number self }
    {
        match self {
            Refusal::Lacking(lack) => lack.number(),
            Refusal::Failed(failure) => failure.number(),
        }
    }
}

/// A value with the counts of what brought it: `used` script bytes, `pairs` written to the log.
#[derive(Clone, Copy)]
pub struct Counted<V> {
    pub value: V,
    pub used: usize,
    pub pairs: usize,
}

/// What an exchange answers: what it brought, or why it ended without; with the counts of either.
pub type Answer<T> = Result<Counted<T>, Counted<Refusal>>;

impl<V: Copy> Counted<V> {
    /// A value before anything is read or written.
    pub fn new(value: V) -> Counted<V>
        ensures { result ≡ counted value 0 0 }
    {
        Counted {
            value,
            used: 0,
            pairs: 0,
        }
    }

    /// Another value with the same counts.
    pub fn with<W: Copy>(self, value: W) -> Counted<W>
        ensures { result ≡ counted value self.used self.pairs }
    {
        Counted {
            value,
            used: self.used,
            pairs: self.pairs,
        }
    }

    /// The answer of the exchange that came next, with the counts of what came before it added. The
    /// sums wrap, which no counts of one script and log do.
    pub fn then<W: Copy>(self, next: Answer<W>) -> Answer<W>
        ensures { result ≡ behind self next }
    {
        match next {
            Ok(brought) => Ok(Counted {
                value: brought.value,
                used: self.used.wrapping_add(brought.used),
                pairs: self.pairs.wrapping_add(brought.pairs),
            }),
            Err(refused) => Err(Counted {
                value: refused.value,
                used: self.used.wrapping_add(refused.used),
                pairs: self.pairs.wrapping_add(refused.pairs),
            }),
        }
    }

    /// The answer that an outcome comes to, with the same counts.
    pub fn conclude<W: Copy>(self, outcome: Result<W, Failure>) -> Answer<W>
        ensures { result ≡ concluded self outcome }
    {
        match outcome {
            Ok(value) => Ok(self.with(value)),
            Err(failure) => Err(self.with(Refusal::Failed(failure))),
        }
    }
}

/// The outcome of an exchange, for a caller that may forgive a failure. Nothing forgives a lack: it
/// stays a refusal.
pub fn outcome<T: Copy>(answer: Answer<T>) -> Answer<Result<T, Failure>>
    ensures { result ≡ outcome_of answer }
{
    match answer {
        Ok(done) => Ok(done.with(Ok(done.value))),
        Err(refused) => match refused.value {
            Refusal::Lacking(_) => Err(refused),
            Refusal::Failed(failure) => Ok(refused.with(Err(failure))),
        },
    }
}
