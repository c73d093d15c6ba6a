// Reports over long seasons: the same numbers as a report's, in 64 bits and with wider limits.

ghost use Rattle.std.specs.Prelude.{◌≡◌};
ghost use Rattle.std.proofs.Common.{rules};
ghost use Rattle.report.specs.Totals.{no_totals};
ghost use Rattle.report.specs.Long.{long_of, widened};

use crate::sessions::Totals;
use crate::{Limits, Report, Season};

/// Presses for each key, packets, and sums of x and y.
#[repr(C)]
#[derive(Clone, Copy)]
pub struct LongReport {
    pub totals: Totals,
}

impl LongReport {
    /// A report of no session.
    pub fn empty() -> LongReport
        ensures { result ≡ long_of no_totals }
    {
        LongReport {
            totals: Totals {
                presses: [0; 94],
                packets: 0,
                x: 0,
                y: 0,
            },
        }
    }

    /// An old report, with no number changed.
    pub fn widen(old: Report) -> LongReport
        ensures { result ≡ widened old }
    {
        LongReport {
            totals: old.numbers(),
        }
    }
}

impl Season for LongReport {
    ghost use Rattle.report.specs.Long.{long_limits, long_of, long_numbers};

    // A report beyond them is taken as it is: 32 goes by what it would be at the session's end.
    ghost LIMITS = { long_limits };

    const LIMITS: Limits = Limits {
        count: 281474976710656,
        low: -72057594037927936,
        high: 72057594037927936,
    };

    ghost told = { long_numbers };

    ghost having = { long_of };

    fn numbers(self) -> Totals {
        self.totals
    }

    fn of_totals(totals: Totals) -> LongReport {
        LongReport { totals }
    }

    ghost few = { Prim.search rules };
}
