//! The top call.

ghost use Rattle.std.specs.Prelude.{◌≡◌, ◌≤◌, ◌<◌, ℕ, List, Some, is_ok, if◌then◌else◌};
ghost use Rattle.kn_io.specs.Causes.{Rose};
ghost use Rattle.kn_words.specs.Lines.{IsLine, words_of};
ghost use Rattle.netsym.specs.Runs.{AsksFile, Ends, IsInRange, IsOfFile, IsRightFor, IsRightOnFile, IsRightOnNumber, Runs, line_for, line_of_making};
ghost use Rattle.netsym.specs.declared.command.Command.{Command};
ghost use Rattle.netsym.specs.declared.command.Making.{Making};
ghost use Rattle.netsym.specs.Exact.{IsUsage, IsExact, IsExactMade};

use crate::answer::{Unanswered, answer, answer_made};
use crate::command::{Command, Making};
use crate::output::write_lines;
use kn_io::{Failed, ReadStop, Sink, Source, read_all, write_all};
use kn_report::Status;
use kn_words::{Line, line_of, made_in_range, one_line};
use std::alloc::Global;

/// The most bytes of a file.
const LIMIT: usize = 1_048_576;

/// The status after the text of a status was written, or could not be.
fn ended(status: Status, written: Result<(), Failed>) -> Status
    ensures { result ≡ (if is_ok written then status else Status.WriteFault) }
{
    match written {
        Ok(()) => status,
        Err(_) => Status::WriteFault,
    }
}

/// The work of a command over the network of a file, exit by exit.
fn run_file<S: Source, K: Sink>(
    alloc: Global,
    command: Command,
    source: &mut S,
    sink: &mut K,
) -> Status
    ensures ends { Ends (IsRightOnFile command (S.left source.old) (S.left source.new)) (S.faults source.old) (S.faults source.new) (K.taken sink.old) (K.taken sink.new) result }
    ensures reads { S.faults source.old ≤ S.faults source.new }
    ensures writes { K.faults sink.old ≤ K.faults sink.new }
    ensures read_fault { result ≡ Status.ReadFault → Rose (S.faults source.old) (S.faults source.new) }
    ensures write_fault { result ≡ Status.WriteFault → Rose (K.faults sink.old) (K.faults sink.new) }
{
    let bytes = match read_all(alloc, source, LIMIT) {
        Ok(bytes) => bytes,
        Err(ReadStop::Failed) => {
            return ended(Status::ReadFault, write_all(sink, b"netsym: read fault\n"));
        }
        Err(ReadStop::TooLong) => {
            return ended(Status::Refused, write_all(sink, b"netsym: refused F1 -\n"));
        }
        Err(ReadStop::Memory(_)) => {
            return ended(Status::Memory, write_all(sink, b"netsym: out of memory\n"));
        }
    };
    match answer(alloc, command, &bytes) {
        Ok(told) => ended(told.status, write_lines(sink, told.text.as_bytes())),
        Err(Unanswered::Refused(line)) => ended(Status::Refused, write_all(sink, &line)),
        Err(Unanswered::Memory(_)) => {
            ended(Status::Memory, write_all(sink, b"netsym: out of memory\n"))
        }
    }
}

/// The work of a command over the network that is made of a number, 0 to 35.
fn run_made<K: Sink>(alloc: Global, making: Making, number: u8, sink: &mut K) -> Status
    requires { number < 36 }
    ensures ends { (faults faults' : ℕ) → Ends (IsRightOnNumber making number) faults faults' (K.taken sink.old) (K.taken sink.new) result }
    ensures writes { K.faults sink.old ≤ K.faults sink.new }
    ensures write_fault { result ≡ Status.WriteFault → Rose (K.faults sink.old) (K.faults sink.new) }
{
    match answer_made(alloc, making, number) {
        Ok(told) => ended(told.status, write_lines(sink, told.text.as_bytes())),
        Err(_) => ended(Status::Memory, write_all(sink, b"netsym: out of memory\n")),
    }
}

/// The work of a command line, exit by exit.
fn run_line<S: Source, K: Sink>(alloc: Global, line: Line, source: &mut S, sink: &mut K) -> Status
    requires { IsInRange line }
    ensures ends { Ends (IsRightFor line (S.left source.old) (S.left source.new)) (S.faults source.old) (S.faults source.new) (K.taken sink.old) (K.taken sink.new) result }
    ensures unread { (AsksFile line → ⊥) → source.new ≡ source.old }
    ensures reads { S.faults source.old ≤ S.faults source.new }
    ensures writes { K.faults sink.old ≤ K.faults sink.new }
    ensures read_fault { result ≡ Status.ReadFault → Rose (S.faults source.old) (S.faults source.new) }
    ensures write_fault { result ≡ Status.WriteFault → Rose (K.faults sink.old) (K.faults sink.new) }
{
    match line {
        Line::Explore => run_file(alloc, Command::Explore, source, sink),
        Line::Replay => run_file(alloc, Command::Replay, source, sink),
        Line::ExploreMade(number) => run_made(alloc, Making::Explore, number, sink),
        Line::Make(number) => run_made(alloc, Making::Print, number, sink),
    }
}

/// The work of the top call.
fn run_once<S: Source, K: Sink>(
    alloc: Global,
    words: &[&str],
    source: &mut S,
    sink: &mut K,
) -> Status
    ensures runs { Runs (words_of words.now) (S.left source.old) (S.left source.new) (S.faults source.old) (S.faults source.new) (K.taken sink.old) (K.taken sink.new) result }
    ensures unread { (IsOfFile (words_of words.now) → ⊥) → source.new ≡ source.old }
    ensures reads { S.faults source.old ≤ S.faults source.new }
    ensures writes { K.faults sink.old ≤ K.faults sink.new }
    ensures read_fault { result ≡ Status.ReadFault → Rose (S.faults source.old) (S.faults source.new) }
    ensures write_fault { result ≡ Status.WriteFault → Rose (K.faults sink.old) (K.faults sink.new) }
{
    made_in_range();
    match line_of(alloc, words) {
        Ok(Some(line)) => run_line(alloc, line, source, sink),
        Ok(None) => ended(
            Status::Usage,
            write_all(sink, b"netsym: not a command line\n"),
        ),
        Err(_) => ended(Status::Memory, write_all(sink, b"netsym: out of memory\n")),
    }
}

/// Does all that the program does, and waits for nobody. `explore --mapping cob` and `replay` read a network file to its end:
/// the one explores the network by copying it whole at every branch, and writes the report line by line, the other replays it
/// on the inputs of the file, and writes the run. `explore --mapping cob --make N` reads nothing, explores the network that
/// the generator makes of N, and writes the first and the last line of the report; `make N` writes that network as a file. Or
/// it writes one line: the number and the place of the file's fault, or a limit that the network passes and the tick. The
/// whole text is made before its first byte is written.
pub fn run_alone<S: Source, K: Sink>(
    alloc: Global,
    words: &[&str],
    source: &mut S,
    sink: &mut K,
) -> Status
    // Which status comes, with which text, and how the text went out.
    ensures runs { Runs (words_of words.now) (S.left source.old) (S.left source.new) (S.faults source.old) (S.faults source.new) (K.taken sink.old) (K.taken sink.new) result }

    // Where the words are no command line that asks for the network of a file, nothing is asked of the source.
    ensures unread { (IsOfFile (words_of words.now) → ⊥) → source.new ≡ source.old }

    // A fault is answered only where the count of faults rose in this call.
    ensures reads { S.faults source.old ≤ S.faults source.new }
    ensures writes { K.faults sink.old ≤ K.faults sink.new }
    ensures read_fault { result ≡ Status.ReadFault → Rose (S.faults source.old) (S.faults source.new) }
    ensures write_fault { result ≡ Status.WriteFault → Rose (K.faults sink.old) (K.faults sink.new) }

    // When each status comes, for a source that tells its bytes: where the network that they describe passes no limit, its
    // report or its run is printed, but where a fault or want of memory comes between. The same for a network that is made.
    ensures usage { IsUsage (words_of words.now) result }
    ensures exact { (command : Command) (bytes : List ℕ) → IsLine (line_for command) (words_of words.now) → S.left source.old ≡ Some bytes → IsExact command bytes result }
    ensures made { (making : Making) (number : ℕ) → IsLine (line_of_making making number) (words_of words.now) → IsExactMade making number result }
{
    one_line();
    run_once(alloc, words, source, sink)
}
