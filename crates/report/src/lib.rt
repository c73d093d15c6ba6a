// Reports over sessions: presses for each key, packets, sums of x and y, and the mean movement.
#![tactic(auto)]

ghost use Rattle.std.specs.Prelude.{◌≡◌, true, ◌<◌, ◌+◌, ◌+ℤ◌, get_or};
ghost use Rattle.std.specs.Int.Signed.{mag};
ghost use Rattle.report.specs.Keys.{for_each_key};
ghost use Rattle.report.specs.Totals.{no_totals};
ghost use Rattle.report.specs.Adding.{refusal_number, answer_number, plus, at_most, in_range, fitting, count_within, counts_within, sum_within};
ghost use Rattle.report.specs.Mean.{quotient_of, remainder_of, mean_of};
ghost use Rattle.report.specs.Narrow.{narrow_limits, report_of};
ghost use Rattle.report.specs.Runs.{add};
ghost use Rattle.std.proofs.Common.{rules};

/// The report in 64 bits.
pub mod long;
/// The numbers of a session.
pub mod sessions;

use crate::sessions::{Totals, tally};
use ps2_bytes::MouseId;

/// A count or a sum would be outside its range.
#[derive(Clone, Copy)]
pub struct OutOfRange;

impl OutOfRange {
    /// The number of this refusal, as an answer tells it.
    pub fn number(self) -> u8
        ensures { result ≡ refusal_number self }
    {
        32
    }
}

/// The number of an answer: 0 where nothing is refused.
pub fn answer_number(answer: Result<(), OutOfRange>) -> u8
    ensures { result ≡ answer_number answer }
{
    match answer {
        Ok(()) => 0,
        Err(refusal) => refusal.number(),
    }
}

/// What a report's numbers may be: counts up to one number, sums from one to another.
#[derive(Clone, Copy)]
pub struct Limits {
    pub count: u64,
    pub low: i64,
    pub high: i64,
}

// ---- totals within limits

// C has the counts of the 94 keys as an array, so they are one here and in each report.

// Two counts together.
fn add_count(most: u64, old: u64, more: u64) -> Result<u64, OutOfRange>
    ensures { result ≡ count_within most (old + more) }
{
    match old.checked_add(more) {
        Some(sum) if sum <= most => Ok(sum),
        _ => Err(OutOfRange),
    }
}

// The counts of each key together.
fn add_counts(most: u64, old: [u64; 94], more: [u64; 94]) -> Result<[u64; 94], OutOfRange>
    ensures { result ≡ counts_within most
        (for_each_key (λ key. get_or old key 0 + get_or more key 0)) }
{
    let mut counts = [0; 94];
    for i in 0..94 {
        counts[i] = add_count(most, old[i], more[i])?;
    }
    Ok(counts)
}

// Two sums together.
fn add_sum(low: i64, high: i64, old: i64, more: i64) -> Result<i64, OutOfRange>
    ensures { result ≡ sum_within low high (old +ℤ more) }
{
    match old.checked_add(more) {
        Some(sum) if low <= sum && sum <= high => Ok(sum),
        _ => Err(OutOfRange),
    }
}

/// Totals with others added to them, where every number is within the limits then.
pub fn settle(limits: Limits, old: Totals, more: Totals) -> Result<Totals, OutOfRange>
    ensures { result ≡ fitting limits (plus old more) }
{
    Ok(Totals {
        presses: add_counts(limits.count, old.presses, more.presses)?,
        packets: add_count(limits.count, old.packets, more.packets)?,
        x: add_sum(limits.low, limits.high, old.x, more.x)?,
        y: add_sum(limits.low, limits.high, old.y, more.y)?,
    })
}

// ---- the mean

/// How far a number is from 0, less 1 below 0.
pub fn magnitude(z: i64) -> u64
    ensures { result ≡ mag z }
{
    if z < 0 {
        return (!z) as u64;
    }
    z as u64
}

/// A whole quotient, rounded down, and the remainder, which is below the packet count.
#[derive(Clone, Copy)]
pub struct WholeMean {
    pub quotient: i64,
    pub remainder: u64,
}

// Below 0 the bits are inverted, so that an unsigned division rounds down: -(k + 1) is !k.
fn divide(sum: i64, packets: u64) -> WholeMean
    requires { 0 < packets }
    ensures { result ≡ record {
      quotient = quotient_of sum packets;
      remainder = remainder_of sum packets;
    } }
{
    if sum < 0 {
        let k = (!sum) as u64;
        let q = k / packets;
        return WholeMean {
            quotient: !(q as i64),
            remainder: packets - 1 - k % packets,
        };
    }
    let s = sum as u64;
    let q = s / packets;
    WholeMean {
        quotient: q as i64,
        remainder: s % packets,
    }
}

/// The mean of a sum over so many packets, where there are any.
pub fn mean_of(sum: i64, packets: u64) -> Option<WholeMean>
    ensures { result ≡ mean_of sum packets }
{
    if packets == 0 {
        return None;
    }
    Some(divide(sum, packets))
}

// ---- the report of a season

/// A report of one width: what its numbers may be, and which they are.
pub trait Season: Copy {
    ghost use Rattle.report.specs.declared.sessions.Totals.{Totals};
    ghost use Rattle.report.specs.declared.Limits.{Limits};

    ghost LIMITS: { Limits };

    const LIMITS: Limits;

    // Its numbers, and the report that has given ones.
    ghost told: { Self → Totals };

    ghost having: { Totals → Self };

    // The same numbers, in 64 bits.
    fn numbers(self) -> Totals
        ensures { result ≡ told self };

    // The report that has these numbers, where they are all within its limits.
    fn of_totals(totals: Totals) -> Self
        ensures { in_range LIMITS totals ≡ true → result ≡ having totals };

    // A session that is too long to be tallied has more packets than that.
    ghost few: { LIMITS.count < 4503599627370495 };

    // Adds a session: its events, each as `event_code` has it, and its
    // mouse bytes, in packets of one identity. Where a number would be
    // outside its range at the session's end the report stays as it was.
    final fn add(&mut self, id: MouseId, events: &[u8], mouse: &[u8]) -> Result<(), OutOfRange>
        ensures { record {
          answer = result;
          report = self.new;
        } ≡ add (record { limits = LIMITS; told = told; having = having })
            self.old (record { id = id; events = events.now; mouse = mouse.now }) }
    {
        let brought = tally(id, events, mouse).ok_or(OutOfRange)?;
        *self = Self::of_totals(settle(Self::LIMITS, self.numbers(), brought)?);
        Ok(())
    }

    // The mean movement sideways, and upwards.
    final fn mean_x(self) -> Option<WholeMean>
        ensures { result ≡ mean_of (told self).x (told self).packets }
    {
        let totals = self.numbers();
        mean_of(totals.x, totals.packets)
    }

    final fn mean_y(self) -> Option<WholeMean>
        ensures { result ≡ mean_of (told self).y (told self).packets }
    {
        let totals = self.numbers();
        mean_of(totals.y, totals.packets)
    }
}

// ---- the report in 32 bits

/// Presses for each key, packets, and sums of x and y, as C has them.
#[repr(C)]
#[derive(Clone, Copy)]
pub struct Report {
    pub presses: [u32; 94],
    pub packets: u32,
    pub x: i32,
    pub y: i32,
}

fn narrow(n: u64) -> u32
    ensures { n < 4294967296 → result ≡ n }
{
    u32::try_from(n).unwrap_or(u32::MAX)
}

fn narrow_signed(z: i64) -> i32
    ensures { mag z < 2147483648 → result ≡ z }
{
    i32::try_from(z).unwrap_or(i32::MAX)
}

// Both by a loop: by `map`, whose closure is called for each
// key, a session of ten packets took four times as long.
fn wide_counts(counts: [u32; 94]) -> [u64; 94]
    ensures { result ≡ for_each_key (λ key. get_or counts key 0) }
{
    let mut all = [0; 94];
    for i in 0..94 {
        all[i] = u64::from(counts[i]);
    }
    all
}

fn narrow_counts(counts: [u64; 94]) -> [u32; 94]
    ensures { at_most narrow_limits.count counts ≡ true → result
        ≡ for_each_key (λ key. get_or counts key 0) }
{
    let mut all = [0; 94];
    for i in 0..94 {
        all[i] = narrow(counts[i]);
    }
    all
}

impl Report {
    /// A report of no session.
    pub fn empty() -> Report
        ensures { result ≡ report_of no_totals }
    {
        Report {
            presses: [0; 94],
            packets: 0,
            x: 0,
            y: 0,
        }
    }
}

impl Season for Report {
    ghost use Rattle.report.specs.Narrow.{narrow_limits, numbers, report_of};

    ghost LIMITS = { narrow_limits };

    const LIMITS: Limits = Limits {
        count: 4294967295,
        low: -2147483648,
        high: 2147483647,
    };

    ghost told = { numbers };

    ghost having = { report_of };

    fn numbers(self) -> Totals {
        Totals {
            presses: wide_counts(self.presses),
            packets: u64::from(self.packets),
            x: i64::from(self.x),
            y: i64::from(self.y),
        }
    }

    fn of_totals(totals: Totals) -> Report {
        Report {
            presses: narrow_counts(totals.presses),
            packets: narrow(totals.packets),
            x: narrow_signed(totals.x),
            y: narrow_signed(totals.y),
        }
    }

    ghost few = { Prim.search rules };
}
