//! The top call on networks that the generator makes, and on words that are no command line.

use crate::tests::{COMMAND, call_on};
use kn_report::Status;
use std::test::Fail;

/// A call that reads nothing.
#[derive(Clone, Copy)]
struct Row {
    words: &'static [&'static str],
    status: Status,
    first: &'static str,
    last: &'static str,
}

/// Commands over made networks, and lines that are none.
const ROWS: [Row; 7] = [
    Row {
        words: &["explore", "--mapping", "cob", "--make", "0"],
        status: Status::Found,
        first: "report 1 mapping cob ticks 5 nodes 2\n",
        last: "end states 6 dstates 3 reached 1 open 0\n",
    },
    Row {
        words: &["explore", "--mapping=cob", "--make=7"],
        status: Status::Clean,
        first: "report 1 mapping cob ticks 8 nodes 3\n",
        last: "end states 78 dstates 26 reached 0 open 0\n",
    },
    Row {
        words: &["make", "0"],
        status: Status::Clean,
        first: "version = 1\nticks = 5\n",
        last: "\n[[link]]\nfrom = 1\nto = 0\ndelay = 1\n",
    },
    Row {
        words: &["make", "36"],
        status: Status::Usage,
        first: "netsym: not a command line\n",
        last: "netsym: not a command line\n",
    },
    Row {
        words: &["explore", "--mapping", "cob", "--make", "07"],
        status: Status::Usage,
        first: "netsym: not a command line\n",
        last: "netsym: not a command line\n",
    },
    Row {
        words: &["explore", "--mapping", "cob", "--workers", "2"],
        status: Status::Usage,
        first: "netsym: not a command line\n",
        last: "netsym: not a command line\n",
    },
    Row {
        words: &["--help"],
        status: Status::Usage,
        first: "netsym: not a command line\n",
        last: "netsym: not a command line\n",
    },
];

/// The first read fails, so a call that read would end otherwise.
#[test]
fn calls_that_read_nothing(rt: HostRuntime) -> Result<(), Fail> {
    for (index, row) in ROWS.iter().enumerate() {
        let ran = call_on(rt.alloc(), row.words, b"", &[0], &[])?;
        assert_eq!(rt; ran.status, row.status, "row {index}");
        assert!(rt; ran.text.starts_with(row.first.as_bytes()), "row {index}");
        assert!(rt; ran.text.ends_with(row.last.as_bytes()), "row {index}");
    }
    Ok(())
}

/// A network that was made, printed and read is explored as it is where it is made.
#[test]
fn a_made_network_printed_and_read(rt: HostRuntime) -> Result<(), Fail> {
    let file = call_on(rt.alloc(), &["make", "7"], b"", &[0], &[])?;
    assert_eq!(rt; file.status, Status::Clean);
    let ran = call_on(rt.alloc(), &COMMAND, &file.text, &[], &[])?;
    assert_eq!(rt; ran.status, Status::Clean);
    assert!(rt;
        ran.text
            .starts_with(b"report 1 mapping cob ticks 8 nodes 3\n")
    );
    assert!(rt;
        ran.text
            .ends_with(b"\nend states 78 dstates 26 reached 0 open 0\n")
    );
    Ok(())
}
