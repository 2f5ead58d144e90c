//! The program netsym: the real words, standard input and standard output for the library's top call.
#![tactic(auto)]

ghost use Rattle.std.specs.Prelude.{◌≡◌, ◌⊎◌, IfOk, IfErr, map, drop, string_bytes};
ghost use Rattle.std.specs.IoError.{error_kind};
ghost use Rattle.std.specs.Vec.Iter.{into_iter_items};
ghost use Rattle.kn_words.specs.Lines.{words_of};
ghost use Rattle.netsym.specs.Runs.{IsOfFile};
ghost use Rattle.kn_report.specs.Statuses.{code_of};
ghost use Rattle.kn_report.specs.declared.status.Status.TheVariants as statuses;
ghost use Rattle.netsym_main.specs.Calls.{IsRefusal, IsUntouched, IsCall};

use kn_io::{Sink, Source, StdSink, StdSource};
use netsym::{Status, run_alone};
use std::alloc::{AllocError, Global};
use std::env::{self, Args};
use std::io::{self, ErrorKind};
use std::process::ExitCode;

/// The exit status where the system refuses the words, and not for want of memory. No call of the library ends with it.
const REFUSED_WORD: u8 = 9;

/// The exit status where the system gives no words: 6 for want of memory, and 9 for another cause, such as a word that is
/// not UTF-8.
fn refusal(error: &io::Error) -> u8
    ensures { IsRefusal (error_kind error.now ≡ ErrorKind.OutOfMemory) result }
{
    if error.kind() == ErrorKind::OutOfMemory {
        Status::Memory.code()
    } else {
        REFUSED_WORD
    }
}

/// The words after the program's name. Err is want of memory.
fn texts_after_name(alloc: Global, mut args: Args) -> Result<Vec<String>, AllocError>
    ensures { IfOk result (λ v. v.items ≡ drop 1 (into_iter_items args)) }
{
    let _name = args.next();
    let mut texts = Vec::new(alloc);
    for text in args {
        texts.push(text)?;
    }
    Ok(texts)
}

/// The words as texts that the top call takes. Err is want of memory.
fn word_slices(alloc: Global, texts: &[String]) -> Result<Vec<&str>, AllocError>
    ensures { IfOk result (λ v. words_of v.items ≡ map string_bytes texts.now) }
{
    let mut words = Vec::new(alloc);
    for text in texts {
        words.push(text.as_str())?;
    }
    Ok(words)
}

/// The exit status of the library's call with these words. Where memory for them is wanting it is 6, nothing is called,
/// and so nothing read or written.
fn called<S: Source, K: Sink>(alloc: Global, texts: &[String], source: &mut S, sink: &mut K) -> u8
    ensures ends { ((result ≡ code_of statuses.Memory) × IsUntouched source.old source.new sink.old sink.new) ⊎ IsCall (map string_bytes texts.now) (S.left source.old) (S.left source.new) (S.faults source.old) (S.faults source.new) (K.taken sink.old) (K.taken sink.new) (K.faults sink.old) (K.faults sink.new) result }
    ensures unread { (IsOfFile (map string_bytes texts.now) → ⊥) → source.new ≡ source.old }
{
    let Ok(words) = word_slices(alloc, texts) else {
        return Status::Memory.code();
    };
    run_alone(alloc, &words, source, sink).code()
}

/// The exit status for what the system answers where it is asked for the program's words: that of the library's call with
/// the words after the program's name. Where there are no words, nothing is called, and so nothing read or written.
fn exit_status<S: Source, K: Sink>(
    alloc: Global,
    args: io::Result<Args>,
    source: &mut S,
    sink: &mut K,
) -> u8
    // Where the system gives no words.
    ensures refused { IfErr args (λ e. IsRefusal (error_kind e ≡ ErrorKind.OutOfMemory) result × IsUntouched source.old source.new sink.old sink.new) }

    // Where it gives them.
    ensures ends { IfOk args (λ all. ((result ≡ code_of statuses.Memory) × IsUntouched source.old source.new sink.old sink.new) ⊎ IsCall (map string_bytes (drop 1 (into_iter_items all))) (S.left source.old) (S.left source.new) (S.faults source.old) (S.faults source.new) (K.taken sink.old) (K.taken sink.new) (K.faults sink.old) (K.faults sink.new) result) }
    ensures unread { IfOk args (λ all. (IsOfFile (map string_bytes (drop 1 (into_iter_items all))) → ⊥) → source.new ≡ source.old) }
{
    let args = match args {
        Ok(args) => args,
        Err(error) => return refusal(&error),
    };
    let Ok(texts) = texts_after_name(alloc, args) else {
        return Status::Memory.code();
    };
    called(alloc, &texts, source, sink)
}

/// Calls the library with the words after the program's name, and ends with its status.
fn main(rt: HostRuntime) -> ExitCode {
    let mut source = StdSource::new(rt.stdin());
    let mut sink = StdSink::new(rt.stdout());
    ExitCode::from(exit_status(rt.alloc(), env::args(&rt), &mut source, &mut sink))
}
