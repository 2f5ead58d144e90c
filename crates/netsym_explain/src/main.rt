//! The program netsym-explain: says in sentences what is wrong with a network file, or what it holds.
#![tactic(auto)]

mod complaint;
mod contents;
mod explain;
mod keys;
mod place;
mod shown;
#[cfg(test)]
mod tests;
mod texts;

ghost use Rattle.std.specs.Prelude.{◌≡◌, ℕ, List, Some, is_ok, if◌then◌else◌};
ghost use Rattle.netsym_explain.specs.Saying.{IsSaid};

use explain::explain;
use kn_io::{Failed, ReadStop, Sink, Source, StdSink, StdSource, read_all, write_all};
use netsym::Status;
use std::alloc::Global;
use std::process::ExitCode;

/// The most bytes of a file.
const LIMIT: usize = 1_048_576;

/// What is said of a longer file.
const TOO_LONG: &[u8] = b"The file is refused: F1 -\nIt has more than 1048576 bytes.\n";

/// The status after its text was written, or could not be.
fn ended(status: Status, written: Result<(), Failed>) -> Status
    ensures { result ≡ (if is_ok written then status else Status.WriteFault) }
{
    match written {
        Ok(()) => status,
        Err(_) => Status::WriteFault,
    }
}

/// Says of the bytes of a source, to its end, what is wrong with them as a network file, or what they hold. The statuses
/// are netsym's: Clean where it accepts the file, and Refused where it refuses it.
fn explain_source<S: Source, K: Sink>(alloc: Global, source: &mut S, sink: &mut K) -> Status
    // It complains exactly where netsym refuses, but where a fault or want of memory comes between.
    ensures { (bytes : List ℕ) → S.left source.old ≡ Some bytes → IsSaid bytes result }
{
    let bytes = match read_all(alloc, source, LIMIT) {
        Ok(bytes) => bytes,
        Err(ReadStop::Failed) => {
            return ended(Status::ReadFault, write_all(sink, b"read fault\n"));
        }
        Err(ReadStop::TooLong) => {
            return ended(Status::Refused, write_all(sink, TOO_LONG));
        }
        Err(ReadStop::Memory(_)) => {
            return ended(Status::Memory, write_all(sink, b"out of memory\n"));
        }
    };
    match explain(alloc, &bytes) {
        Ok(said) => ended(
            status_of(said.accepted),
            write_all(sink, said.text.as_bytes()),
        ),
        Err(_) => ended(Status::Memory, write_all(sink, b"out of memory\n")),
    }
}

/// Clean for an accepted file, else Refused.
fn status_of(accepted: bool) -> Status
    ensures { result ≡ (if accepted then Status.Clean else Status.Refused) }
{
    if accepted {
        Status::Clean
    } else {
        Status::Refused
    }
}

fn main(rt: HostRuntime) -> ExitCode {
    let mut source = StdSource::new(rt.stdin());
    let mut sink = StdSink::new(rt.stdout());
    ExitCode::from(explain_source(rt.alloc(), &mut source, &mut sink).code())
}
