//! The top call on worked files, over a source and a sink in memory.

use crate::protocols::PROTOCOLS;
use crate::rows::{
    HALF_REPORT, HALVES, HALVES_REPORT, REPLAYS, ROWS, ROWS_OF_WORDS_AND_REFUSALS, Row, TREE,
};
use crate::top::run_alone;
use kn_io::{MemSink, MemSource};
use kn_report::Status;
use std::alloc::Global;
use std::fmt::Write;
use std::test::Fail;

pub const COMMAND: [&str; 3] = ["explore", "--mapping", "cob"];

/// The status of a call, and what it wrote.
#[derive(Debug, Drop)]
pub struct Ran {
    pub status: Status,
    pub text: Vec<u8>,
}

impl Ran {
    /// Whether the call ended with this status and text.
    fn is(&self, status: Status, text: &str) -> bool {
        self.status == status && self.text.as_slice() == text.as_bytes()
    }
}

/// Calls the program on a file; of the source and of the sink the calls with these numbers fail.
pub fn call_on(
    alloc: Global,
    words: &[&str],
    file: &[u8],
    reads: &[u64],
    writes: &[u64],
) -> Result<Ran, Fail> {
    let mut source = MemSource::new(file.to_vec(alloc)?, reads.to_vec(alloc)?);
    let mut sink = MemSink::new(vec![in alloc; 0u8; 16384]?, writes.to_vec(alloc)?);
    let status = run_alone(alloc, words, &mut source, &mut sink);
    Ok(Ran {
        status,
        text: sink.bytes().to_vec(alloc)?,
    })
}

/// Whether a file ends with this status and text, where no read and no write fails.
pub fn ends(alloc: Global, file: &[u8], status: Status, text: &str) -> Result<bool, Fail> {
    Ok(call_on(alloc, &COMMAND, file, &[], &[])?.is(status, text))
}

/// Whether the call of a command on a worked file ends as it must.
fn is_right(alloc: Global, words: &[&str], row: &Row) -> Result<bool, Fail> {
    let (from, to) = row.change;
    let file = row.file.replace(alloc, from, to)?;
    let ran = call_on(alloc, words, file.as_bytes(), &[], &[])?;
    Ok(ran.is(row.status, row.text))
}

#[test]
fn worked_files(rt: HostRuntime) -> Result<(), Fail> {
    for row in &ROWS {
        let right = is_right(rt.alloc(), &COMMAND, row)?;
        assert!(rt; right, "{}", row.name);
    }
    Ok(())
}

#[test]
fn worked_files_of_words_and_refusals(rt: HostRuntime) -> Result<(), Fail> {
    for row in &ROWS_OF_WORDS_AND_REFUSALS {
        let right = is_right(rt.alloc(), &COMMAND, row)?;
        assert!(rt; right, "{}", row.name);
    }
    Ok(())
}

#[test]
fn replayed_files(rt: HostRuntime) -> Result<(), Fail> {
    for row in &REPLAYS {
        let right = is_right(rt.alloc(), &["replay"], row)?;
        assert!(rt; right, "{}", row.name);
    }
    Ok(())
}

#[test]
fn protocols_of_the_examples(rt: HostRuntime) -> Result<(), Fail> {
    for protocol in &PROTOCOLS {
        let ran = call_on(rt.alloc(), &COMMAND, protocol.file.as_bytes(), &[], &[])?;
        assert!(rt;
            ran.is(protocol.status, protocol.report),
            "{}",
            protocol.name
        );
    }
    Ok(())
}

#[test]
fn a_tree_that_may_lose_packets(rt: HostRuntime) -> Result<(), Fail> {
    let ran = call_on(rt.alloc(), &COMMAND, TREE.as_bytes(), &[], &[])?;
    assert_eq!(rt; ran.status, Status::Found);
    let last = b"end states 72 dstates 12 reached 1 open 0\n";
    assert!(rt; ran.text.ends_with(last));
    Ok(())
}

#[test]
fn calls_that_end_early(rt: HostRuntime) -> Result<(), Fail> {
    let long = vec![in rt.alloc(); 32u8; 1_048_577]?;
    let halves = HALVES.as_bytes();
    let fault = "netsym: read fault\n";
    let rows = [
        (
            &[] as &[&str],
            halves,
            &[0u64] as &[u64],
            Status::Usage,
            "netsym: not a command line\n",
        ),
        (
            &COMMAND,
            b"",
            &[],
            Status::Refused,
            "netsym: refused F4 version\n",
        ),
        (
            &COMMAND,
            &long,
            &[],
            Status::Refused,
            "netsym: refused F1 -\n",
        ),
        (&COMMAND, halves, &[0], Status::ReadFault, fault),
        (&COMMAND, halves, &[1], Status::ReadFault, fault),
    ];
    for (index, (words, file, reads, status, text)) in rows.into_iter().enumerate() {
        let ran = call_on(rt.alloc(), words, file, reads, &[])?;
        assert!(rt; ran.is(status, text), "row {index}");
    }
    Ok(())
}

#[test]
fn each_write_fails(rt: HostRuntime) -> Result<(), Fail> {
    let mut whole = 0;
    for (call, line) in HALVES_REPORT.split_inclusive('\n').enumerate() {
        let ran = call_on(rt.alloc(), &COMMAND, HALVES.as_bytes(), &[], &[call as u64])?;
        assert_eq!(rt; ran.status, Status::WriteFault, "call {call}");
        assert_eq!(rt; ran.text.len(), whole, "call {call}");
        assert!(rt; HALVES_REPORT.as_bytes().starts_with(&ran.text));
        whole += line.len();
    }
    assert_eq!(rt; whole, HALVES_REPORT.len());
    Ok(())
}

/// What the file of two nodes is answered where it ends after none of its lines, after one, and on.
const AFTER_LINES: [(Status, &str); 10] = [
    (Status::Refused, "netsym: refused F4 version\n"),
    (Status::Refused, "netsym: refused F4 ticks\n"),
    (Status::Refused, "netsym: refused F4 program\n"),
    (Status::Refused, "netsym: refused F4 node\n"),
    (Status::Refused, "netsym: refused F4 node\n"),
    (Status::Refused, "netsym: refused F4 node\n"),
    (Status::Refused, "netsym: refused F4 node[0].program\n"),
    (Status::Clean, HALF_REPORT),
    (Status::Refused, "netsym: refused F4 node[1].program\n"),
    (Status::Clean, HALVES_REPORT),
];

/// What it is answered where it ends within a line.
const WITHIN_A_LINE: (Status, &str) = (Status::Refused, "netsym: refused F2 -\n");

/// What it is answered where it ends with so many of its lines.
fn answer_after(lines: usize) -> (Status, &'static str) {
    AFTER_LINES.get(lines).copied().unwrap_or(WITHIN_A_LINE)
}

/// What a front of the file is answered, where the rest is left out.
fn answer_of_front(front: &[u8], rest: &[u8]) -> (Status, &'static str) {
    let line_feeds = front.iter().filter(|byte| **byte == b'\n').count();
    if front.is_empty() || front.ends_with(b"\n") {
        answer_after(line_feeds)
    } else if rest.starts_with(b"\n") {
        answer_after(line_feeds.saturating_add(1))
    } else {
        WITHIN_A_LINE
    }
}

#[test]
fn each_front_of_a_file(rt: HostRuntime) -> Result<(), Fail> {
    let file = HALVES.as_bytes();
    for length in 0..file.len() {
        let (front, rest) = file.split_at(length);
        let (status, text) = answer_of_front(front, rest);
        assert!(rt; ends(rt.alloc(), front, status, text)?, "front of {length}");
    }
    Ok(())
}

/// A program that makes so many inputs of one bit and branches on each, at boot.
fn branching(alloc: Global, count: u16) -> Result<String, Fail> {
    let mut code = format!(in alloc;
        "{:04x}0000ffffffffffffffffffffffffffffffffffff",
        2 * u32::from(count) + 1
    )?;
    for index in 0..count {
        let next = 2 * u32::from(index) + 2;
        write!(code, "0a00000000010000090000000{next:03x}0000")?;
    }
    code.push_str("2300000000000000")?;
    Ok(code)
}

/// A file of one tick with one program, and so many nodes that run it, where 64 paths and 64 scenarios are allowed.
fn alike_nodes(alloc: Global, code: &str, nodes: u32) -> Result<String, Fail> {
    let mut text = format!(in alloc;
        "version = 1\nticks = 1\nstates = 64\ndstates = 64\n[[program]]\nname = \"p\"\ncode = \"{code}\"\n"
    )?;
    for _ in 0..nodes {
        text.push_str("[[node]]\nprogram = \"p\"\n")?;
    }
    Ok(text)
}

/// The status on a file, and whether the text ends so.
fn ends_with(alloc: Global, file: &str, end: &str) -> Result<(Status, bool), Fail> {
    let mut source = MemSource::new(file.as_bytes().to_vec(alloc)?, Vec::new(alloc));
    let mut sink = MemSink::new(vec![in alloc; 0u8; 2_000_000]?, Vec::new(alloc));
    let status = run_alone(alloc, &COMMAND, &mut source, &mut sink);
    Ok((status, sink.bytes().ends_with(end.as_bytes())))
}

/// Six branches in one event are 64 paths, as many as are allowed; with one more they are too many. Two nodes with three
/// branches each have 64 scenarios, as many as are allowed; with a third node they are too many.
#[test]
fn paths_and_scenarios_up_to_the_limits(rt: HostRuntime) -> Result<(), Fail> {
    let alloc = rt.alloc();
    let three = branching(alloc, 3)?;
    let one = branching(alloc, 1)?;
    let over = format!(in alloc;
        "version = 1\nticks = 1\nstates = 64\ndstates = 64\n[[program]]\nname = \"p\"\ncode = \"{three}\"\n[[program]]\nname = \"q\"\ncode = \"{one}\"\n[[node]]\nprogram = \"p\"\n[[node]]\nprogram = \"p\"\n[[node]]\nprogram = \"q\"\n"
    )?;
    let rows = vec![in alloc;
        (
            alike_nodes(alloc, &branching(alloc, 6)?, 1)?,
            Status::Clean,
            "\nend states 64 dstates 64 reached 0 open 0\n"
        ),
        (
            alike_nodes(alloc, &branching(alloc, 7)?, 1)?,
            Status::Limit,
            "netsym: limit states tick 0\n"
        ),
        (
            alike_nodes(alloc, &three, 2)?,
            Status::Clean,
            "\nend states 128 dstates 64 reached 0 open 0\n"
        ),
        (over, Status::Limit, "netsym: limit dstates tick 0\n"),
    ]?;
    for (file, status, end) in &rows {
        assert!(rt; ends_with(alloc, file, end)? == (*status, true), "{end}");
    }
    Ok(())
}
