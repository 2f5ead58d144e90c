//! How a call of the program ends.

ghost use Rattle.std.specs.Prelude.{◌≡◌};
ghost use Rattle.kn_report.specs.Statuses.{code_of, status_in};

use crate::report::Report;
use crate::writing::{reached_count, undecided_count};

/// How a call of the program ends; the numbers are the process's exit status.
#[derive(Clone, Copy, Debug, PartialEq, Eq)]
pub enum Status {
    /// 0: the report was printed, no failure is reached, and nothing is left open.
    Clean,
    /// 1: the report was printed, and a failure is reached.
    Found,
    /// 2: the words are no command.
    Usage,
    /// 3: the file is refused.
    Refused,
    /// 4: the source failed.
    ReadFault,
    /// 5: the sink failed.
    WriteFault,
    /// 6: memory ran out.
    Memory,
    /// 7: the exploration passed a limit.
    Limit,
    /// 8: the report was printed, no failure is reached, and a state or a failure is open.
    Open,
}

impl Status {
    /// The exit status of the process, 0 to 8.
    pub fn code(self) -> u8
        ensures { result ≡ code_of self }
    {
        match self {
            Status::Clean => 0,
            Status::Found => 1,
            Status::Usage => 2,
            Status::Refused => 3,
            Status::ReadFault => 4,
            Status::WriteFault => 5,
            Status::Memory => 6,
            Status::Limit => 7,
            Status::Open => 8,
        }
    }
}

/// The status of a call that prints the report: Found exactly where a failure is reached, else Open exactly where a state
/// or a failure is open, else Clean.
pub fn status_of(report: &Report) -> Status
    ensures { result ≡ status_in report.now }
{
    if reached_count(&report.failures) > 0 {
        return Status::Found;
    }
    if undecided_count(report) > 0 {
        return Status::Open;
    }
    Status::Clean
}
