// Reports as a program in another language calls them: numbers
// in, answers as numbers, and a report as its numbers.
#![tactic(auto)]

ghost use Rattle.std.specs.Prelude.{◌≡◌};
ghost use Rattle.argument_words.specs.Arguments.{identity_at};
ghost use Rattle.report.specs.Totals.{no_totals};
ghost use Rattle.report.specs.Mean.{mean_of};
ghost use Rattle.report.specs.Narrow.{report_of};
ghost use Rattle.report.specs.Long.{long_of, widened};
ghost use Rattle.report_words.specs.Words.{mean_words, session_added, report_added, long_added};

use argument_words::{INVALID_ARGUMENT, identity_of};
use report::long::LongReport;
use report::{Report, Season, WholeMean, answer_number};

/// What adding a session answers: the refusal's number, 0 where there is none; and the report after
/// it. C has a struct for each width.
#[repr(C)]
#[derive(Clone, Copy)]
pub struct ReportAddedWords {
    pub refusal: u32,
    pub report: Report,
}

/// The same, of a report in 64 bits.
#[repr(C)]
#[derive(Clone, Copy)]
pub struct LongAddedWords {
    pub refusal: u32,
    pub report: LongReport,
}

/// A mean, where one is present (1) and not absent (0): a whole quotient and the remainder. C has
/// no `Option`.
#[repr(C)]
#[derive(Clone, Copy)]
pub struct MeanWords {
    pub present: u32,
    pub quotient: i64,
    pub remainder: u64,
}

// Adds a session of a mouse whose identity is 0, 3 or 4, and answers the refusal's number: 255
// where the identity is another.
fn add_session<R: Season>(report: &mut R, identity: u32, events: &[u8], mouse: &[u8]) -> u32
    ensures { record {
      refusal = result;
      report = report.new;
    } ≡ session_added R.LIMITS R.told R.having (identity_at identity)
        report.old events.now mouse.now }
{
    match identity_of(identity) {
        Some(id) => u32::from(answer_number(report.add(id, events, mouse))),
        None => INVALID_ARGUMENT,
    }
}

fn mean_words(mean: Option<WholeMean>) -> MeanWords
    ensures { result ≡ mean_words mean }
{
    match mean {
        Some(whole) => MeanWords {
            present: 1,
            quotient: whole.quotient,
            remainder: whole.remainder,
        },
        None => MeanWords {
            present: 0,
            quotient: 0,
            remainder: 0,
        },
    }
}

/// The mean movement sideways, and upwards, of a report of either width.
pub fn mean_x<R: Season>(report: R) -> MeanWords
    ensures { result ≡ mean_words (mean_of (R.told report).x (R.told report).packets) }
{
    mean_words(report.mean_x())
}

/// The mean movement up or down, of a report of either width.
pub fn mean_y<R: Season>(report: R) -> MeanWords
    ensures { result ≡ mean_words (mean_of (R.told report).y (R.told report).packets) }
{
    mean_words(report.mean_y())
}

// ---- the report in 32 bits

/// A report of no session.
pub fn report_empty() -> Report
    ensures { result ≡ report_of no_totals }
{
    Report::empty()
}

/// A report with a session more, of a mouse whose identity is 0, 3 or 4: 255 where it is another.
pub fn report_add(
    mut report: Report,
    identity: u32,
    events: &[u8],
    mouse: &[u8],
) -> ReportAddedWords
    ensures { result ≡ report_added (identity_at identity) report events.now mouse.now }
{
    let refusal = add_session(&mut report, identity, events, mouse);
    ReportAddedWords { refusal, report }
}

// ---- the report in 64 bits

/// An old report, with no number changed.
pub fn report_widen(report: Report) -> LongReport
    ensures { result ≡ widened report }
{
    LongReport::widen(report)
}

/// A report of no session.
pub fn long_report_empty() -> LongReport
    ensures { result ≡ long_of no_totals }
{
    LongReport::empty()
}

/// A report with a session more, of a mouse whose identity is 0, 3 or 4: 255 where it is another.
pub fn long_report_add(
    mut long: LongReport,
    identity: u32,
    events: &[u8],
    mouse: &[u8],
) -> LongAddedWords
    ensures { result ≡ long_added (identity_at identity) long events.now mouse.now }
{
    let refusal = add_session(&mut long, identity, events, mouse);
    LongAddedWords {
        refusal,
        report: long,
    }
}
