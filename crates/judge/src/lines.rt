//! The line that tells a report.
ghost use Rattle.std.specs.Prelude.{◌≡◌, IfOk, Some, string_bytes};
ghost use Rattle.judge.specs.Lines.{judgement_text, report_line, report_text};

use super::report::{Judgement, Report};
use sheet::SheetKind;
use std::alloc::{AllocError, Global};
use std::fmt;
use wording::Refused;

impl fmt::Display for Judgement {
    ghost output = { λ judgement. Some (judgement_text judgement) };

    fn fmt<W: fmt::Write>(&self, f: &mut fmt::Formatter<W>) -> fmt::Result {
        let verdict = self.verdict;
        let rows = self.rows;
        let strikes = self.strikes;
        let examinations = self.examinations;
        write!(f, "{verdict} {rows} {strikes} {examinations}")
    }
}

impl fmt::Display for Report {
    ghost output = { λ report. Some (report_text report) };

    fn fmt<W: fmt::Write>(&self, f: &mut fmt::Formatter<W>) -> fmt::Result {
        match *self {
            Report::DeviceRefused(fault) => {
                let refused = Refused {
                    kind: SheetKind::Device,
                    fault,
                };
                write!(f, "{refused}")
            }
            Report::PropertyRefused(fault) => {
                let refused = Refused {
                    kind: SheetKind::Property,
                    fault,
                };
                write!(f, "{refused}")
            }
            Report::RunRefused(refusal) => {
                let number = refusal.number();
                write!(f, "refused {number}")
            }
            Report::Judged(judgement) => write!(f, "{judgement}"),
        }
    }
}

/// The line that tells a report: verdict, rows, strikes and examinations; or the sheet that is
/// refused; or the number of the run's refusal.
pub fn report_line(heap: Global, report: Report) -> Result<String, AllocError>
    ensures { IfOk result (λ t. string_bytes t ≡ report_line report) }
{
    format!(in heap; "{report}\n")
}
