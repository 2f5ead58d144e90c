//! What the program answers to a network file.

ghost use Rattle.std.specs.Prelude.{◌≡◌, ◌≤◌, ◌<◌, ℕ, length, Ok, IfOk, IfErr, string_bytes};
ghost use Rattle.kn_model.specs.Reports.{Cob, Gives};
ghost use Rattle.kn_report.specs.Statuses.{status_in};
ghost use Rattle.kn_report.specs.Texts.{report_text, summary_text};
ghost use Rattle.kn_cob.specs.Runs.{AreScenarios};
ghost use Rattle.kn_netfile.specs.Reading.{file_of};
ghost use Rattle.kn_cob.specs.Ticks.{limit_of, IsPassed};
ghost use Rattle.netsym.specs.Refusals.{SaysWhy, Tells, refusal_line};
ghost use Rattle.netsym.specs.Runs.{Answers, AnswersMade, IsEither, IsReplayed, limit_line, limit_name};

use crate::command::{Command, Making};
use kn_cob::{CobRun, Stop, explore_cob, report_of};
use kn_make::make;
use kn_netfile::{FileFault, print, read};
use kn_plan::Net;
use kn_replay::{failed_count, replay, text as run_text};
use kn_report::{Report, Status, status_of, summary, text};
use kn_step::{LimitAt, LimitKind, Steps};
use std::alloc::{AllocError, Global};
use std::marker::Brand;
use std::sync::ledger::{Blank, Ledger};
use thiserror::Error;

/// Why there is no answer on the network of a file.
#[derive(Debug, Drop, Error)]
pub enum Unanswered {
    /// The file is refused, and this line says why.
    #[error("the file is refused")]
    Refused(Vec<u8>),
    /// Want of memory.
    #[error("out of memory")]
    Memory(AllocError),
}

/// The scenarios of a network at its last tick. The events are counted on a ledger of this call's own.
fn explored<L: Ledger>(net: &Net, blank: Blank) -> Result<CobRun, Stop>
    requires name { blank.name ≡ L.name }
    requires parts { blank.parts ≡ L.parts }
    requires some { 0 < L.parts }
    ensures scenarios { IfOk result (λ r. AreScenarios net.now.network r) }
    ensures passed { IfErr result (IsPassed net.now.network) }
{
    let mut steps: Steps<L> = Steps::new(blank);
    explore_cob(net, &mut steps)
}

/// The report of a network: what copying it whole at every branch gives at its last tick.
pub fn report_of_net(alloc: Global, net: &Net) -> Result<Report, Stop>
    ensures given { IfOk result (λ r. Gives r net.now.network) }
    ensures mapping { IfOk result (λ r. r.mapping ≡ Cob) }
    ensures within { IfOk result (λ r. length r.dstates ≤ net.now.network.limits.dstates) }
    ensures passed { IfErr result (IsPassed net.now.network) }
{
    let run = explored::<Brand>(net, Blank::new(1))?;
    let report = report_of(alloc, net, &run)?;
    Ok(report)
}

/// A status, and the text that goes with it.
#[derive(Debug, Drop)]
pub struct Told {
    pub status: Status,
    pub text: String,
}

/// The name of a limit.
fn name_of(kind: LimitKind) -> &'static str
    ensures { result.now ≡ limit_name (limit_of kind) }
{
    match kind {
        LimitKind::States => "states",
        LimitKind::Dstates => "dstates",
    }
}

/// The answer where a limit was passed in a tick.
fn limited(alloc: Global, at: LimitAt) -> Result<Told, AllocError>
    ensures status { IfOk result (λ t. t.status ≡ Status.Limit) }
    ensures text { IfOk result (λ t. string_bytes t.text ≡ limit_line (limit_of at.kind) at.tick) }
{
    let name = name_of(at.kind);
    let tick = at.tick;
    Ok(Told {
        status: Status::Limit,
        text: format!(in alloc; "netsym: limit {name} tick {tick}\n")?,
    })
}

/// The answer where there is a report: all of it.
fn printed(report: &Report) -> Result<Told, AllocError>
    ensures status { IfOk result (λ t. t.status ≡ status_in report.now) }
    ensures text { IfOk result (λ t. string_bytes t.text ≡ report_text report.now) }
{
    let status = status_of(report);
    Ok(Told {
        status,
        text: text(report)?,
    })
}

/// The answer where there is a report of which the first and the last line are wanted.
fn summarized(report: &Report) -> Result<Told, AllocError>
    ensures status { IfOk result (λ t. t.status ≡ status_in report.now) }
    ensures text { IfOk result (λ t. string_bytes t.text ≡ summary_text report.now) }
{
    Ok(Told {
        status: status_of(report),
        text: summary(report)?,
    })
}

/// The answer on the network of a file that is explored.
fn reported(alloc: Global, net: &Net) -> Result<Told, AllocError>
    ensures { IfOk result (λ t. IsEither report_text net.now.network t.status (string_bytes t.text)) }
{
    match report_of_net(alloc, net) {
        Ok(report) => {
            let told = printed(&report)?;
            Ok(told)
        }
        Err(Stop::Limit(at)) => {
            let told = limited(alloc, at)?;
            Ok(told)
        }
        Err(Stop::Memory(error)) => Err(error),
    }
}

/// The answer on a network that was made and is explored.
fn reported_in_short(alloc: Global, net: &Net) -> Result<Told, AllocError>
    ensures { IfOk result (λ t. IsEither summary_text net.now.network t.status (string_bytes t.text)) }
{
    match report_of_net(alloc, net) {
        Ok(report) => {
            let told = summarized(&report)?;
            Ok(told)
        }
        Err(Stop::Limit(at)) => {
            let told = limited(alloc, at)?;
            Ok(told)
        }
        Err(Stop::Memory(error)) => Err(error),
    }
}

/// The line that refuses a file by a number and a place.
fn line_of(alloc: Global, number: u8, place: &[u8]) -> Result<Vec<u8>, AllocError>
    ensures { IfOk result (λ line. line.items ≡ refusal_line number place.now) }
{
    let mut line = format!(in alloc; "netsym: refused F{number} ")?.into_bytes();
    line.extend_from_slice(place)?;
    line.push(b'\n')?;
    Ok(line)
}

/// The refusal of a file by a number and a place.
fn refusal(alloc: Global, number: u8, place: &[u8]) -> Unanswered
    ensures { Tells number place.now result }
{
    match line_of(alloc, number, place) {
        Ok(line) => Unanswered::Refused(line),
        Err(error) => Unanswered::Memory(error),
    }
}

/// The answer on a network that is replayed on the inputs of its file.
fn replayed(net: &Net) -> Result<Told, AllocError>
    ensures { IfOk result (λ t. IsReplayed net.now t.status (string_bytes t.text)) }
{
    let run = replay(net, &net.inputs)?;
    let status = if failed_count(&run) == 0 {
        Status::Clean
    } else {
        Status::Found
    };
    Ok(Told {
        status,
        text: run_text(net, &run)?,
    })
}

/// The network of a file, with its inputs.
///
/// - `Refused`: the file has a fault, whose number and place the line gives.
/// - `Memory`: want of memory.
pub fn accepted(alloc: Global, bytes: &[u8]) -> Result<Net, Unanswered>
    ensures accepted { IfOk result (λ net. file_of bytes.now ≡ Ok net) }
    ensures refused { IfErr result (SaysWhy bytes.now) }
{
    match read(alloc, bytes) {
        Ok(net) => Ok(net),
        Err(FileFault::Refused { number, place }) => Err(refusal(alloc, number, &place.bytes)),
        Err(FileFault::Memory(error)) => Err(Unanswered::Memory(error)),
    }
}

/// The status and the text of a command on the bytes of a network file.
pub fn answer(alloc: Global, command: Command, bytes: &[u8]) -> Result<Told, Unanswered>
    ensures told { IfOk result (λ t. Answers command bytes.now t.status (string_bytes t.text)) }
    ensures refused { IfErr result (SaysWhy bytes.now) }
{
    let net = accepted(alloc, bytes)?;
    match command {
        Command::Explore => reported(alloc, &net).map_err(Unanswered::Memory),
        Command::Replay => replayed(&net).map_err(Unanswered::Memory),
    }
}

/// The status and the text of a command on the network that is made of a number, 0 to 35.
pub fn answer_made(alloc: Global, making: Making, number: u8) -> Result<Told, AllocError>
    requires { number < 36 }
    ensures { IfOk result (λ t. AnswersMade making number t.status (string_bytes t.text)) }
{
    let net = make(alloc, number)?;
    match making {
        Making::Explore => reported_in_short(alloc, &net),
        Making::Print => Ok(Told {
            status: Status::Clean,
            text: print(&net)?,
        }),
    }
}
