// A dispatcher: each step serves one of three sources, two keyboards and a mouse on a controller of
// its own, with one handler call or one packet.
#![tactic(auto)]

ghost use Rattle.std.specs.Prelude.{List, ◌≡◌, ℕ, ◌≤◌, length};
ghost use Rattle.keyboard.specs.KeyboardLamps.{keyboard_lamps};
ghost use Rattle.ps2_answers.specs.Answers.{used_of, pairs_of};
ghost use Rattle.dispatcher.specs.Turns.{next, asked_first, served};
ghost use Rattle.dispatcher.specs.Sources.{scripts, value_at, with_place, unused, keyboard_waits, mouse_waits, waits_now};
ghost use Rattle.dispatcher.specs.Step.{new_dispatcher, with_handler, turn_over, serve_mouse, serve_keyboard, step_of};
ghost use Rattle.dispatcher.specs.Said.{wait_in, said_step, said_step_in_place};

use keyboard::{CallAnswer, handle_in_place};
use keyboard_record::KeyboardHandler;
use keyboard_sides::Side;
use ps2_answers::Answer;
use ps2_bytes::MouseId;
use ps2_mouse::PS2Mouse;
use ps2_packet::{SignedPacket, packet_length};
use ps2_packet_reading::read_signed_packet;

/// What a step can serve: the keyboard of a side, or the mouse.
#[derive(Clone, Copy)]
pub enum Source {
    Keyboard(Side),
    Mouse,
}

/// A value for each source.
#[derive(Clone, Copy)]
pub struct Each<T> {
    pub first: T,
    pub second: T,
    pub mouse: T,
}

/// Where in its script each source is: the number of its bytes that are used.
pub type Places = Each<usize>;

/// Which sources wait.
pub type Waits = Each<bool>;

/// The dispatcher's state: who was served last, if a source was; the places in the three scripts,
/// the handler record and the mouse's.
#[derive(Clone, Copy)]
pub struct Dispatcher {
    pub last: Option<Source>,
    pub places: Places,
    pub mouse: PS2Mouse,
    pub handler: KeyboardHandler,
}

/// What a step answers: a side was served, with what its handler call answered; the mouse, with its
/// packet; or nobody waited.
#[derive(Clone, Copy)]
pub enum Served {
    Key(Side, CallAnswer),
    Packet(Answer<SignedPacket>),
    Idle,
}

/// What a step gives back beside the state: its answer, with the script bytes used and the pairs
/// written by the call that it made.
#[derive(Clone, Copy)]
pub struct StepAnswer {
    pub served: Served,
    pub used: usize,
    pub pairs: usize,
}

/// The same with the state, for a step by value.
#[derive(Clone, Copy)]
pub struct Dispatched {
    pub served: Served,
    pub used: usize,
    pub pairs: usize,
    pub state: Dispatcher,
}

impl Source {
    /// The source that is asked after this one.
    pub fn next(self) -> Source
        ensures { result ≡ next self }
    {
        match self {
            Source::Keyboard(Side::First) => Source::Keyboard(Side::Second),
            Source::Keyboard(Side::Second) => Source::Mouse,
            Source::Mouse => Source::Keyboard(Side::First),
        }
    }
}

/// The source that a step asks first, by the one served last.
pub fn asked_first(last: Option<Source>) -> Source
    ensures { result ≡ asked_first last }
{
    match last {
        None => Source::Keyboard(Side::First),
        Some(source) => source.next(),
    }
}

impl<T: Copy> Each<T> {
    /// The value of a source.
    pub fn at(self, source: Source) -> T
        ensures { result ≡ value_at source self }
    {
        match source {
            Source::Keyboard(Side::First) => self.first,
            Source::Keyboard(Side::Second) => self.second,
            Source::Mouse => self.mouse,
        }
    }
}

impl Waits {
    /// Whom a step serves: the first that waits, going round from the one after the last served.
    pub fn serves(self, last: Option<Source>) -> Option<Source>
        ensures { result ≡ served (wait_in self) last }
    {
        let one = asked_first(last);
        if self.at(one) {
            return Some(one);
        }
        let two = one.next();
        if self.at(two) {
            return Some(two);
        }
        let three = two.next();
        if self.at(three) {
            return Some(three);
        }
        None
    }
}

impl Places {
    /// The places with another for one source.
    pub fn with_place(self, source: Source, place: usize) -> Places
        ensures { result ≡ with_place source place self }
    {
        match source {
            Source::Keyboard(Side::First) => Places {
                first: place,
                ..self
            },
            Source::Keyboard(Side::Second) => Places {
                second: place,
                ..self
            },
            Source::Mouse => Places {
                mouse: place,
                ..self
            },
        }
    }
}

/// A place in a source's script, or the script's end where it is past it: from there on the same
/// bytes are unused.
pub fn start(place: usize, bytes: &[u8]) -> usize
    ensures within { result ≤ length bytes.now }
    ensures rest { unused result bytes.now ≡ unused place bytes.now }
{
    place.min(bytes.len())
}

/// Whether a keyboard waits, by its place in its script and the number of its waiting bytes: it has
/// an unused script byte or a waiting byte.
pub fn keyboard_waits(place: usize, bytes: &[u8], waiting: usize) -> bool
    ensures { result ≡ keyboard_waits (unused place bytes.now) waiting }
{
    place < bytes.len() || 0 < waiting
}

/// Whether a mouse of this identity waits, by its place in its script: a whole packet is unread.
pub fn mouse_waits(place: usize, bytes: &[u8], id: MouseId) -> bool
    ensures { result ≡ mouse_waits (unused place bytes.now) id }
{
    let unread = bytes.len() - start(place, bytes);
    packet_length(id) <= unread
}

// The counts of an answer, script bytes used and pairs written.
fn counts(answer: Answer<SignedPacket>) -> (usize, usize)
    ensures used { result.0 ≡ used_of answer }
    ensures pairs { result.1 ≡ pairs_of answer }
{
    match answer {
        Ok(packet) => (packet.used, packet.pairs),
        Err(refused) => (refused.used, refused.pairs),
    }
}

impl Dispatcher {
    /// A dispatcher that has served nobody, at the start of its scripts.
    pub fn new(handler: KeyboardHandler, mouse: PS2Mouse) -> Dispatcher
        ensures { result ≡ new_dispatcher handler mouse }
    {
        Dispatcher {
            last: None,
            places: Places {
                first: 0,
                second: 0,
                mouse: 0,
            },
            mouse,
            handler,
        }
    }

    /// The same with another handler record, as after a taking from the queue.
    pub fn with_handler(self, handler: KeyboardHandler) -> Dispatcher
        ensures { result ≡ with_handler handler self }
    {
        Dispatcher { handler, ..self }
    }

    // A source was served, up to this place in its script:
    // its turn is over, whatever the call answered.
    fn end_turn(&mut self, source: Source, place: usize)
        ensures { self.new ≡ turn_over source (with_place source place self.old.places)
            self.old.handler self.old }
    {
        self.last = Some(source);
        self.places = self.places.with_place(source, place);
    }

    // A side's turn: one handler call on its unused bytes. A refused call uses the turn too.
    fn serve_keyboard(&mut self, side: Side, script: &[u8], log: &mut [u8]) -> StepAnswer
        ensures { said_step_in_place result self.new log.new
            ≡ serve_keyboard keyboard_lamps side self.old script.now log.old }
    {
        let source = Source::Keyboard(side);
        let place = self.places.at(source);
        let call = handle_in_place(
            &mut self.handler,
            side,
            &script[start(place, script)..],
            log,
        );
        self.end_turn(source, place + call.used);
        StepAnswer {
            served: Served::Key(side, call),
            used: call.used,
            pairs: call.pairs,
        }
    }

    // The mouse's turn: one packet of its unread bytes.
    fn serve_mouse(&mut self, script: &[u8]) -> StepAnswer
        ensures { (log : List ℕ) → said_step_in_place result self.new log
            ≡ serve_mouse self.old script.now log }
    {
        let place = self.places.mouse;
        let read = read_signed_packet(self.mouse.id, &script[start(place, script)..]);
        let (used, pairs) = counts(read);
        self.end_turn(Source::Mouse, place + used);
        StepAnswer {
            served: Served::Packet(read),
            used,
            pairs,
        }
    }

    /// Which sources wait.
    pub fn waits(&self, first: &[u8], second: &[u8], mouse: &[u8]) -> Waits
        ensures { (source : Source) → wait_in result source
            ≡ waits_now self.now (scripts first.now second.now mouse.now) source }
    {
        Waits {
            first: keyboard_waits(
                self.places.first,
                first,
                usize::from(self.handler.state.first.waiting.count),
            ),
            second: keyboard_waits(
                self.places.second,
                second,
                usize::from(self.handler.state.second.waiting.count),
            ),
            mouse: mouse_waits(self.places.mouse, mouse, self.mouse.id),
        }
    }

    /// A step: the first source that waits, going round from the one after the last served, is
    /// served. Where none waits it is idle and leaves all as it was.
    pub fn step_in_place(
        &mut self,
        first: &[u8],
        second: &[u8],
        mouse: &[u8],
        log: &mut [u8],
    ) -> StepAnswer
        ensures { said_step_in_place result self.new log.new
            ≡ step_of keyboard_lamps self.old (scripts first.now second.now mouse.now) log.old }
    {
        match self.waits(first, second, mouse).serves(self.last) {
            Some(Source::Keyboard(Side::First)) => self.serve_keyboard(Side::First, first, log),
            Some(Source::Keyboard(Side::Second)) => self.serve_keyboard(Side::Second, second, log),
            Some(Source::Mouse) => self.serve_mouse(mouse),
            None => StepAnswer {
                served: Served::Idle,
                used: 0,
                pairs: 0,
            },
        }
    }

    /// The same by value.
    pub fn step(mut self, first: &[u8], second: &[u8], mouse: &[u8], log: &mut [u8]) -> Dispatched
        ensures { said_step result log.new
            ≡ step_of keyboard_lamps self (scripts first.now second.now mouse.now) log.old }
    {
        let done = self.step_in_place(first, second, mouse, log);
        Dispatched {
            served: done.served,
            used: done.used,
            pairs: done.pairs,
            state: self,
        }
    }
}
