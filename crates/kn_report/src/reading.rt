//! Reading a report's text.

ghost use Rattle.std.specs.Prelude.{◌≡◌, ◌+◌, ◌≤◌, ◌<◌, ◌^◌, ℕ, IfOk, IsErrOf, MatchOption, MatchResult, Ok, length, string_bytes};
ghost use Rattle.kn_model.specs.Reports.{Report as Parts};
ghost use Rattle.kn_report.specs.Forms.{Fits, IsReport};
ghost use Rattle.kn_report.specs.Reading.{IsEnded, IsFaultAt, IsReadAs, IsReadOf};
ghost use Rattle.kn_report.specs.Texts.{report_text};

use crate::draft::{report_of, sections_of};
use crate::report::Report;
use crate::writing::{end_line, text};
use std::alloc::{AllocError, Global};
use thiserror::Error;

/// Why a text was not read as a report.
#[derive(Debug, Drop, Error)]
pub enum ReportFault {
    /// The text is no report's. This is the number, from 1, of the first line that is not of its form given the lines
    /// above it: a line without its line feed is of no form, and where the text ends too early it is the line after the
    /// last one.
    #[error("line {line} is not that of a report")]
    Line { line: usize },
    /// Memory for the report was wanting.
    #[error("out of memory")]
    Memory(AllocError),
}

/// The report that the text spells. Any report's text is read as that report, unless memory is wanting, and no other
/// text is read.
pub fn read(alloc: Global, text: &str) -> Result<Report, ReportFault>
    // What is read has this text.
    ensures found { IfOk result (λ r. text.now ≡ report_text r) }
    // What has this text is read, unless memory is wanting.
    ensures only { (r : Parts) → IsReport r → Fits r → text.now ≡ report_text r → IsReadAs r result }
    // Which fault it is.
    ensures fault { (line : ℕ) → IsErrOf result (ReportFault.Line line) → IsFaultAt text.now line }
{
    match read_bytes(alloc, text.as_bytes()) {
        Ok(Ok(report)) => Ok(report),
        Ok(Err(line)) => Err(ReportFault::Line { line }),
        Err(error) => Err(ReportFault::Memory(error)),
    }
}

/// The report that the text spells, or the number of the first line that is not of its form.
fn read_bytes(alloc: Global, text: &[u8]) -> Result<Result<Report, usize>, AllocError>
    ensures { IfOk result (λ r. IsReadOf text.now r) }
{
    let Some((draft, failed, rest)) = sections_of(alloc, text)? else {
        return Ok(Err(1));
    };
    let above = draft.line_count(rest, text);
    if draft.failure_count() < failed {
        return Ok(Err(above + 1));
    }
    with_end(report_of(draft), above, rest)
}

/// The report, where its last line is the rest of the text; or else the number of the line that is wrong, where so many
/// lines stand above the last one.
fn with_end(report: Report, above: usize, rest: &[u8]) -> Result<Result<Report, usize>, AllocError>
    requires { above + 2 < 2 ^ 64 }
    ensures { IfOk result (λ r. IsEnded above report rest.now r) }
{
    let end = end_line(&report)?;
    match rest.strip_prefix(end.as_bytes()) {
        None => Ok(Err(above + 1)),
        Some(after) => {
            if !after.is_empty() {
                return Ok(Err(above + 2));
            }
            Ok(Ok(report))
        }
    }
}

/// The law that a report's text is read as that report: nothing but want of memory keeps it from that.
pub fn read_back(report: &Report) -> Result<Report, ReportFault>
    ensures { IsReadAs report.now result }
{
    match text(report) {
        Ok(spelled) => read(*report.states.allocator(), &spelled),
        Err(error) => Err(ReportFault::Memory(error)),
    }
}
