// Reports over sessions, in 32 bits and in 64.
ghost use Rattle.std.specs.Prelude.{◌≡◌};
ghost use Rattle.argument_words.specs.Arguments.{identity_at};
ghost use Rattle.report.specs.Totals.{no_totals};
ghost use Rattle.report.specs.Mean.{mean_of};
ghost use Rattle.report.specs.Narrow.{report_of};
ghost use Rattle.report.specs.Long.{long_of, widened};
ghost use Rattle.report_words.specs.Words.{mean_words, report_added, long_added};

use report::Report;
use report::long::LongReport;
use report_words::{
    LongAddedWords, MeanWords, ReportAddedWords, long_report_add, long_report_empty, mean_x,
    mean_y, report_add, report_empty, report_widen,
};

/// A report of no session.
#[unsafe(no_mangle)]
pub extern "C" fn vd_report_empty() -> Report
    ensures { result ≡ report_of no_totals }
{
    report_empty()
}

/// A report with a session more: its events, each as `vd_event_code` has it, and its mouse bytes,
/// in packets of one identity.
#[unsafe(no_mangle)]
pub extern "C" fn vd_report_add(
    report: Report,
    identity: u32,
    events: &[u8],
    mouse: &[u8],
) -> ReportAddedWords
    ensures { result ≡ report_added (identity_at identity) report events.now mouse.now }
{
    report_add(report, identity, events, mouse)
}

/// The mean movement sideways, and upwards.
#[unsafe(no_mangle)]
pub extern "C" fn vd_report_mean_x(report: Report) -> MeanWords
    ensures { result ≡ mean_words (mean_of report.x report.packets) }
{
    mean_x(report)
}

/// The mean movement up or down: absent (0) where the report has no packet.
#[unsafe(no_mangle)]
pub extern "C" fn vd_report_mean_y(report: Report) -> MeanWords
    ensures { result ≡ mean_words (mean_of report.y report.packets) }
{
    mean_y(report)
}

/// An old report in 64 bits, with no number changed.
#[unsafe(no_mangle)]
pub extern "C" fn vd_report_widen(report: Report) -> LongReport
    ensures { result ≡ widened report }
{
    report_widen(report)
}

/// A report of no session, in 64 bits.
#[unsafe(no_mangle)]
pub extern "C" fn vd_long_report_empty() -> LongReport
    ensures { result ≡ long_of no_totals }
{
    long_report_empty()
}

/// A report with a session more, in 64 bits.
#[unsafe(no_mangle)]
pub extern "C" fn vd_long_report_add(
    long: LongReport,
    identity: u32,
    events: &[u8],
    mouse: &[u8],
) -> LongAddedWords
    ensures { result ≡ long_added (identity_at identity) long events.now mouse.now }
{
    long_report_add(long, identity, events, mouse)
}

/// The mean movement sideways, and upwards.
#[unsafe(no_mangle)]
pub extern "C" fn vd_long_report_mean_x(long: LongReport) -> MeanWords
    ensures { result ≡ mean_words (mean_of long.totals.x long.totals.packets) }
{
    mean_x(long)
}

/// The mean movement up or down, in 64 bits: absent (0) where the report has no packet.
#[unsafe(no_mangle)]
pub extern "C" fn vd_long_report_mean_y(long: LongReport) -> MeanWords
    ensures { result ≡ mean_words (mean_of long.totals.y long.totals.packets) }
{
    mean_y(long)
}
