//! The top call on files at the bounds and past them.

use crate::tests::ends;
use kn_report::Status;
use std::alloc::{AllocError, Global};
use std::fmt::Write;
use std::test::Fail;

/// A node that sends no word over its first link at boot, and one that does nothing on a packet.
const PROGRAMS: &str = "version = 1
ticks = 2
[[program]]
name = \"ping\"
code = \"00020000ffffffffffffffffffffffffffffffffffff0d000000000000002300000000000000\"
[[program]]
name = \"idle\"
code = \"0001ffff0000ffffffffffffffffffffffffffffffff2300000000000000\"
";

const NODES: &str = "[[node]]
program = \"ping\"
[[node]]
program = \"idle\"
";

const LINK: &str = "[[link]]
from = 0
to = 1
delay = 1
";

const REPORT: &str = "report 1 mapping cob ticks 2 nodes 2
state 0 node 0 trace - outcome running inputs -
state 1 node 1 trace - outcome running inputs -
dstate 0 columns 0 1
end states 2 dstates 1 reached 0 open 0
";

const ALONE_REPORT: &str = "report 1 mapping cob ticks 0 nodes 1
state 0 node 0 trace - outcome running inputs -
dstate 0 columns 0
end states 1 dstates 1 reached 0 open 0
";

/// A link of node 0, with these texts for its numbers.
fn link(alloc: Global, from: &str, to: &str, delay: &str) -> Result<String, AllocError> {
    format!(in alloc; "{PROGRAMS}{NODES}[[link]]\nfrom = {from}\nto = {to}\ndelay = {delay}\n")
}

/// So many links from node 0 to node 1.
fn links(alloc: Global, count: u32) -> Result<String, AllocError> {
    let mut text = format!(in alloc; "{PROGRAMS}{NODES}")?;
    for _ in 0..count {
        text.push_str(LINK)?;
    }
    Ok(text)
}

/// So many nodes without links.
fn nodes(alloc: Global, count: u32) -> Result<String, AllocError> {
    let mut text = format!(in alloc; "{PROGRAMS}")?;
    for _ in 0..count {
        text.push_str("[[node]]\nprogram = \"idle\"\n")?;
    }
    Ok(text)
}

/// A node whose program has so many instructions, all `ret`, and this entry of boot.
fn long_program(alloc: Global, count: u32, boot: &str) -> Result<String, AllocError> {
    let mut text = format!(in alloc;
        "version = 1\nticks = 0\n[[program]]\nname = \"long\"\ncode = \"{count:04x}{boot}ffffffffffffffffffffffffffffffffffff"
    )?;
    for _ in 0..count {
        text.push_str("2300000000000000")?;
    }
    text.push_str("\"\n[[node]]\nprogram = \"long\"\n")?;
    Ok(text)
}

/// The file of one link, with a byte at this place that begins no character.
fn no_text(alloc: Global, place: usize) -> Result<Vec<u8>, AllocError> {
    let mut bytes = link(alloc, "0", "1", "1")?.into_bytes();
    if let Some(byte) = bytes.get_mut(place) {
        *byte = 255;
    }
    Ok(bytes)
}

/// Files that are accepted, with what is printed.
fn accepted_files(alloc: Global) -> Result<Vec<(String, &'static str)>, AllocError> {
    let base = link(alloc, "0", "1", "1")?;
    Ok(vec![in alloc;
        (link(alloc, "0", "1", "1")?, REPORT),
        (link(alloc, "0", "1", "65535")?, REPORT),
        (link(alloc, "0", "1", "+1")?, REPORT),
        (link(alloc, "-0", "1", "1")?, REPORT),
        (link(alloc, "0", "1", "0x1")?, REPORT),
        (link(alloc, "0", "1", "1_0")?, REPORT),
        (link(alloc, "0", "1", "1 # a comment")?, REPORT),
        (link(alloc, "0", "1", "1\r")?, REPORT),
        (links(alloc, 0)?, REPORT),
        (links(alloc, 16)?, REPORT),
        (String::from_str(alloc, base.as_str().trim_end())?, REPORT),
        (format!(in alloc; "{base}\n")?, REPORT),
        (format!(in alloc; "\u{feff}{base}")?, REPORT),
        (format!(in alloc; "{PROGRAMS}{LINK}{NODES}")?, REPORT),
        (long_program(alloc, 4096, "0fff")?, ALONE_REPORT),
    ]?)
}

const NO_DOCUMENT: &str = "netsym: refused F2 -\n";

const KIND: &str = "netsym: refused F5 link[0].delay\n";

const CODE: &str = "netsym: refused F8 program[0].code\n";

const TO: &str = "netsym: refused F10 link[0].to\n";

const DELAY: &str = "netsym: refused F10 link[0].delay\n";

/// Files that are refused, with what is printed.
fn refused_files(alloc: Global) -> Result<Vec<(Vec<u8>, &'static str)>, AllocError> {
    Ok(vec![in alloc;
        (link(alloc, "0", "0", "1")?.into_bytes(), TO),
        (link(alloc, "0", "2", "1")?.into_bytes(), TO),
        (
            link(alloc, "2", "1", "1")?.into_bytes(),
            "netsym: refused F10 link[0].from\n"
        ),
        (
            links(alloc, 17)?.into_bytes(),
            "netsym: refused F10 link[16].from\n"
        ),
        (link(alloc, "0", "1", "0")?.into_bytes(), DELAY),
        (link(alloc, "0", "1", "-1")?.into_bytes(), DELAY),
        (link(alloc, "0", "1", "65536")?.into_bytes(), DELAY),
        (link(alloc, "0", "1", "4294967297")?.into_bytes(), DELAY),
        (link(alloc, "0", "1", "1.0")?.into_bytes(), KIND),
        (link(alloc, "0", "1", "\"1\"")?.into_bytes(), KIND),
        (link(alloc, "0", "1", "true")?.into_bytes(), KIND),
        (
            link(alloc, "0", "1", "18446744073709551617")?.into_bytes(),
            NO_DOCUMENT
        ),
        (link(alloc, "0", "1", "01")?.into_bytes(), NO_DOCUMENT),
        (link(alloc, "00", "1", "1")?.into_bytes(), NO_DOCUMENT),
        (link(alloc, "0", "01", "1")?.into_bytes(), NO_DOCUMENT),
        (link(alloc, "0", "1", "")?.into_bytes(), NO_DOCUMENT),
        (link(alloc, "0", "1", "\u{661}")?.into_bytes(), NO_DOCUMENT),
        (nodes(alloc, 65)?.into_bytes(), "netsym: refused F7 node\n"),
        (long_program(alloc, 4097, "0000")?.into_bytes(), CODE),
        (long_program(alloc, 1, "0001")?.into_bytes(), CODE),
        (long_program(alloc, 0, "ffff")?.into_bytes(), CODE),
        (no_text(alloc, 0)?, NO_DOCUMENT),
        (no_text(alloc, 11)?, NO_DOCUMENT),
        (no_text(alloc, 40)?, NO_DOCUMENT),
        (no_text(alloc, 100)?, NO_DOCUMENT),
    ]?)
}

#[test]
fn files_at_the_bounds_and_past_them(rt: HostRuntime) -> Result<(), Fail> {
    let accepted = accepted_files(rt.alloc())?;
    assert_eq!(rt; accepted.len(), 15);
    for (index, (file, text)) in accepted.iter().enumerate() {
        assert!(rt;
            ends(rt.alloc(), file.as_bytes(), Status::Clean, text)?,
            "accepted at {index}"
        );
    }
    let refused = refused_files(rt.alloc())?;
    assert_eq!(rt; refused.len(), 25);
    for (index, (file, text)) in refused.iter().enumerate() {
        assert!(rt;
            ends(rt.alloc(), file, Status::Refused, text)?,
            "refused at {index}"
        );
    }
    Ok(())
}
