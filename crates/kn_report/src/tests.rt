//! A report's text in both directions, the first line that is wrong, and the status of reports.

use super::*;
use std::alloc::Global;
use std::test::Fail;

fn is_shared<T: Send + Sync>(_value: &T) {}

/// Two copies of three nodes, without the last line.
const CUT: &str = "report 1 mapping cob ticks 2 nodes 3
state 0 node 0 trace 0 outcome running inputs 0.0=1
state 1 node 1 trace - outcome running inputs 0.0=1
state 2 node 2 trace - outcome running inputs -
state 3 node 0 trace 1 outcome running inputs -
state 4 node 1 trace - outcome running inputs -
state 5 node 2 trace - outcome running inputs -
dstate 0 columns 0 1 2
dstate 1 columns 3 4 5
";

/// The last line.
const END: &str = "end states 6 dstates 2 reached 0 open 0\n";

/// A report with a failure, line by line.
const FAILED: [&str; 8] = [
    "report 1 mapping sds ticks 1 nodes 2",
    "state 0 node 0 trace 0 outcome assert@1@0 inputs 0.0=1 0.3=65535",
    "state 1 node 0 trace 1 outcome running inputs -",
    "state 2 node 1 trace - outcome halted open 5",
    "dstate 0 columns 0,1 2",
    "dstate 1 columns 1 2",
    "failure 0 reached dstate 0 pick 0 2 inputs 0.0=1",
    "end states 3 dstates 2 reached 1 open 1",
];

/// The text of these lines, with another one in place of the line of this number, from 1.
fn text_with(alloc: Global, line: usize, with: &str) -> Result<String, Fail> {
    let mut text = String::new(alloc);
    for (place, own) in FAILED.iter().enumerate() {
        text.push_str(if place + 1 == line { with } else { *own })?;
        text.push_str("\n")?;
    }
    Ok(text)
}

/// The line of the fault, or 0 where the text is a report's.
fn fault_of(alloc: Global, text: &str) -> Result<usize, Fail> {
    match read(alloc, text) {
        Ok(_) => Ok(0),
        Err(ReportFault::Line { line }) => Ok(line),
        Err(ReportFault::Memory(error)) => Err(Fail::from(error)),
    }
}

#[test]
fn reads_what_it_writes(rt: HostRuntime) -> Result<(), Fail> {
    let alloc = rt.alloc();
    let whole = format!(in alloc; "{CUT}{END}")?;
    let report = read(alloc, &whole)?;
    is_shared(&report);
    assert_eq!(rt; text(&report)?.as_str(), whole.as_str());
    assert_eq!(rt;
        summary(&report)?.as_str(),
        "report 1 mapping cob ticks 2 nodes 3\nend states 6 dstates 2 reached 0 open 0\n"
    );
    let again = read_back(&report)?;
    assert_eq!(rt; text(&again)?.as_str(), whole.as_str());
    let failed = text_with(alloc, 0, "")?;
    assert_eq!(rt; text(&read(alloc, &failed)?)?.as_str(), failed.as_str());
    assert_eq!(rt; fault_of(alloc, CUT)?, 10);
    assert_eq!(rt; fault_of(alloc, &format!(in alloc; "{whole}{END}")?)?, 11);
    assert_eq!(rt; fault_of(alloc, "")?, 1);
    Ok(())
}

/// A line in place of another one.
#[derive(Clone, Copy)]
struct Row {
    line: usize,
    with: &'static str,
}

#[test]
fn names_the_first_line_that_is_wrong(rt: HostRuntime) -> Result<(), Fail> {
    let rows = [
        Row {
            line: 1,
            with: "report 1 mapping cow ticks 1 nodes 2",
        },
        Row {
            line: 1,
            with: "report 1 mapping sds ticks 4294967296 nodes 2",
        },
        Row {
            line: 2,
            with: "state 00 node 0 trace 0 outcome assert@1@0 inputs 0.0=1",
        },
        Row {
            line: 2,
            with: "state 0 node 0 trace 0 outcome assert@1@0 inputs 0.0=0",
        },
        Row {
            line: 2,
            with: "state 0 node 0 trace 0 outcome assert@1@0 inputs 0.3=1 0.0=1",
        },
        Row {
            line: 3,
            with: "state 1 node +0 trace 1 outcome running inputs -",
        },
        Row {
            line: 4,
            with: "state 3 node 1 trace - outcome halted open 5",
        },
        Row {
            line: 5,
            with: "dstate 0 columns 1,0 2",
        },
        Row {
            line: 5,
            with: "dstate 0 columns 0,1 3",
        },
        Row {
            line: 6,
            with: "dstate 1 columns 1",
        },
        Row {
            line: 7,
            with: "failure 0 reached dstate 1 pick 0 2 inputs 0.0=1",
        },
        Row {
            line: 7,
            with: "failure 0 reached dstate 2 pick 0 2 inputs 0.0=1",
        },
        Row {
            line: 7,
            with: "failure 1 open",
        },
        Row {
            line: 7,
            with: "end states 3 dstates 2 reached 0 open 1",
        },
        Row {
            line: 8,
            with: "end states 3 dstates 2 reached 0 open 1",
        },
        Row {
            line: 8,
            with: "failure 1 open",
        },
    ];
    let alloc = rt.alloc();
    for row in &rows {
        let text = text_with(alloc, row.line, row.with)?;
        assert_eq!(rt; fault_of(alloc, &text)?, row.line, "{}", row.with);
    }
    Ok(())
}

#[test]
fn gives_statuses(rt: HostRuntime) -> Result<(), Fail> {
    let alloc = rt.alloc();
    let head = "report 1 mapping cob ticks 1 nodes 1\nstate 0 node 0 trace - outcome fuel@0@0 ";
    for (rest, want) in [
        (
            "inputs -\ndstate 0 columns 0\nfailure 0 reached dstate 0 pick 0 inputs -\nend states 1 dstates 1 reached 1 open 0\n",
            Status::Found,
        ),
        (
            "open 3\ndstate 0 columns 0\nfailure 0 reached dstate 0 pick 0 inputs -\nend states 1 dstates 1 reached 1 open 1\n",
            Status::Found,
        ),
        (
            "inputs -\ndstate 0 columns 0\nfailure 0 open\nend states 1 dstates 1 reached 0 open 1\n",
            Status::Open,
        ),
        (
            "open 3\ndstate 0 columns 0\nfailure 0 nowhere\nend states 1 dstates 1 reached 0 open 1\n",
            Status::Open,
        ),
        (
            "inputs -\ndstate 0 columns 0\nfailure 0 nowhere\nend states 1 dstates 1 reached 0 open 0\n",
            Status::Clean,
        ),
    ] {
        let report = read(alloc, &format!(in alloc; "{head}{rest}")?)?;
        assert_eq!(rt; status_of(&report), want, "{rest}");
    }
    assert_eq!(rt; Status::Clean.code(), 0u8);
    assert_eq!(rt; Status::Open.code(), 8u8);
    Ok(())
}
