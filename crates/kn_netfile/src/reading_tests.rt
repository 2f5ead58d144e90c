//! Files that are refused, and files that are read.

use super::*;
use std::alloc::{AllocError, Global};
use std::str;
use std::test::Fail;

/// A file with every key, line by line, with an empty line at the end of each table.
const LINES: [&str; 39] = [
    "version = 1",
    "ticks = 3",
    "fuel = 10",
    "conflicts = 9",
    "states = 8",
    "dstates = 7",
    "",
    "[[program]]",
    "name = \"p\"",
    "asm = \"boot: halt\"",
    "",
    "[[program]]",
    "name = \"q_-Z9\"",
    "code = \"00010000ffffffffffffffffffffffffffffffffffff2400000000000000\"",
    "",
    "[[node]]",
    "program = \"q_-Z9\"",
    "loss = 1",
    "duplicate = 2",
    "reboot = [0, 3]",
    "",
    "[[node]]",
    "program = \"p\"",
    "",
    "[[link]]",
    "from = 0",
    "to = 1",
    "delay = 1",
    "",
    "[[input]]",
    "node = 1",
    "index = 0",
    "value = 2",
    "",
    "[[input]]",
    "node = 1",
    "index = 1",
    "value = 0",
    "",
];

/// That file with one or two of its lines changed: the number of a line, counted from 0, and what stands there then, and
/// at last the number and the place of the fault, or that the file is read.
const CHANGES: &str = "0||4 version
1||4 ticks
8||4 program[0].name
9||4 program[0].code
13||4 program[1].code
16||4 node[0].program
25||4 link[0].from
26||4 link[0].to
27||4 link[0].delay
30||4 input[0].node
31||4 input[0].index
32||4 input[0].value
37||4 input[1].value
2||read
3||read
4||read
5||read
17||read
18||read
19||read
0|version = \"1\"|5 version
1|ticks = true|5 ticks
2|fuel = 1.0|5 fuel
3|conflicts = []|5 conflicts
4|states = {}|5 states
5|dstates = \"7\"|5 dstates
8|name = 1|5 program[0].name
9|asm = 1|5 program[0].asm
13|code = 1|5 program[1].code
16|program = 1|5 node[0].program
17|loss = \"1\"|5 node[0].loss
18|duplicate = []|5 node[0].duplicate
19|reboot = 1|5 node[0].reboot
19|reboot = [0, \"3\"]|5 node[0].reboot
25|from = \"0\"|5 link[0].from
26|to = 1.0|5 link[0].to
27|delay = []|5 link[0].delay
30|node = \"1\"|5 input[0].node
31|index = {}|5 input[0].index
32|value = 2.0|5 input[0].value
0|version = -1|6 version
0|version = 0|6 version
0|version = 2|6 version
1|ticks = -1|7 ticks
1|ticks = 4097|7 ticks
1|ticks = 0|read
1|ticks = 4096|read
2|fuel = 0|7 fuel
2|fuel = 4097|7 fuel
2|fuel = 1|read
2|fuel = 4096|read
3|conflicts = 0|7 conflicts
3|conflicts = 1048577|7 conflicts
3|conflicts = 1|read
3|conflicts = 1048576|read
4|states = 1|7 states
4|states = 16385|7 states
4|states = 2|read
4|states = 16384|read
5|dstates = 0|7 dstates
5|dstates = 16385|7 dstates
5|dstates = 1|read
5|dstates = 16384|read
17|loss = -1|11 node[0].loss
17|loss = 16|11 node[0].loss
17|loss = 0|read
17|loss = 15|read
18|duplicate = -1|11 node[0].duplicate
18|duplicate = 16|11 node[0].duplicate
18|duplicate = 0|read
18|duplicate = 15|read
25|from = -1|10 link[0].from
25|from = 2|10 link[0].from
26|to = -1|10 link[0].to
26|to = 2|10 link[0].to
26|to = 0|10 link[0].to
27|delay = 0|10 link[0].delay
27|delay = 65536|10 link[0].delay
27|delay = 65535|read
30|node = -1|12 input[0].node
30|node = 2|12 input[0].node
30|node = 0|read
31|index = -1|12 input[0].index
31|index = 65536|12 input[0].index
32|value = -1|12 input[0].value
32|value = 65536|12 input[0].value
32|value = 0|read
32|value = 65535|read
19|reboot = [-1]|11 node[0].reboot
19|reboot = [4096]|11 node[0].reboot
19|reboot = [1, 1]|11 node[0].reboot
19|reboot = [2, 1]|11 node[0].reboot
19|reboot = [0, 1, 2, 3, 4, 5, 6, 7, 8, 9, 10, 11, 12, 13, 14, 15, 16]|11 node[0].reboot
19|reboot = []|read
19|reboot = [4095]|read
19|reboot = [0, 1, 2, 3, 4, 5, 6, 7, 8, 9, 10, 11, 12, 13, 14, 15]|read
35|node = 0|12 input[1].index
36|index = 0|12 input[1].index
1|ticks = 0x1_0|read
8|name = \"\"|8 program[0].name
8|name = \"123456789-123456789-123456789-123\"|8 program[0].name
8|name = \"a b\"|8 program[0].name
8|name = \"é\"|8 program[0].name
12|name = \"p\"|8 program[1].name
12|name = \"123456789-123456789-123456789-12\"|9 node[0].program
22|program = \"P\"|9 node[1].program
9|asm = \"boot: hlt\"|8 program[0].asm
9|asm = \"\"|8 program[0].asm
13|code = \"00\"|8 program[1].code
13|code = \"000\"|8 program[1].code
13|code = \"0g\"|8 program[1].code
13|code = \"\"|8 program[1].code
13|code = \"00010000FFFFffffffffffffffffffffffffffffffff2400000000000000\"|read
10|code = \"00\"|8 program[0].code
9|asm = 1|10|code = \"00\"|5 program[0].asm
9|asm = \"hlt\"|10|code = 1|5 program[0].code
6|colour = 1|3 top
10|colour = 1|3 program[0]
14|colour = 1|3 program[1]
20|colour = 1|3 node[0]
23|colour = 1|3 node[1]
28|colour = 1|3 link[0]
33|colour = 1|3 input[0]
38|colour = 1|3 input[1]
6|Version = 1|3 top
1|ticks = true|38|colour = 1|3 input[1]
1|ticks = true|37||4 input[1].value
8|name = \"\"|37|value = 65536|8 program[0].name
17|loss = 16|27|delay = 0|10 link[0].delay
37|value = 65536|22|program = \"r\"|9 node[1].program
9|asm = 1|32|value = true|5 program[0].asm
16||30||4 node[0].program
0|version = 2|1|ticks = 4097|6 version
2|fuel = 0|5|dstates = 0|7 fuel
17|loss = 16|18|duplicate = 16|11 node[0].loss
25|from = 2|26|to = 2|10 link[0].from
6|colour = 1|10|colour = 1|3 top
9|asm = \"hlt\"|12|name = \"p\"|8 program[0].asm";

/// The least useful file.
const LEAST: &str = "version = 1
ticks = 1
[[program]]
name = \"p\"
asm = \"boot: halt\"
[[node]]
program = \"p\"
";

/// A node that may send one packet to another, and a third one.
const MAYBE_SEND: &str = "version = 1
ticks = 2
[[program]]
name = \"ifsend\"
asm = \"boot: input r0, 1\\n brz r0, a\\n send 0, r0, 1\\na: ret\"
[[program]]
name = \"idle\"
asm = \"recv: ret\"
[[node]]
program = \"ifsend\"
[[node]]
program = \"idle\"
[[node]]
program = \"idle\"
[[link]]
from = 0
to = 1
delay = 1
";

/// A node that may reboot in tick 1.
const REBOOT: &str = "version = 1
ticks = 3
[[program]]
name = \"ping\"
asm = \"boot: send 0, r0, 0\\n ret\"
[[program]]
name = \"fragile\"
asm = \"boot: timer 0, 1\\n ret\\nrecv: const r0, 0\\n assert r0\\n ret\\ntimer0: halt\"
[[node]]
program = \"ping\"
[[node]]
program = \"fragile\"
reboot = [1]
[[link]]
from = 0
to = 1
delay = 2
";

/// One of these files with a text in place of another, and what the file then is.
const FILES: &str = "least|version|version|read
maybe-send|version|version|read
reboot|version|version|read
maybe-send|delay = 1|delay = 0|10 link[0].delay
maybe-send|ticks = 2|colour = 1|3 top
least|ticks = 1|ticks = \"1\"|5 ticks
least|version = 1|version = 3|6 version
least|ticks = 1|ticks = 4097|7 ticks
least|boot: halt|boot: hlt|8 program[0].asm
least|program = \"p\"|program = \"q\"|9 node[0].program
maybe-send|to = 1|to = 0|10 link[0].to
reboot|reboot = [1]|reboot = [2, 1]|11 node[1].reboot";

/// Files of arrays, line by line, and the fault that each has, behind a version and the ticks.
const ARRAYS: &str = "4 program
program = []|node = []|7 program
program = 1|node = 1|5 program
program = {}|node = []|5 program
program = [1]|node = [1]|5 program
program = [{ name = \"p\", asm = \"boot: halt\" }, 1]|node = []|5 program
program = [{ name = \"p\", asm = \"boot: halt\" }]|4 node
program = [{ name = \"p\", asm = \"boot: halt\" }]|node = []|7 node
program = [{ name = \"p\", asm = \"boot: halt\" }]|node = [[]]|5 node
program = [{ name = \"p\", asm = \"boot: halt\" }]|node = [{ program = \"p\" }]|read
program = [{ name = \"p\", asm = \"boot: halt\" }]|node = [{ program = \"p\" }]|link = []|input = []|read
program = [{ name = \"p\", asm = \"boot: halt\" }]|node = [{ program = \"p\" }]|link = 1|input = []|5 link
program = [{ name = \"p\", asm = \"boot: halt\" }]|node = [{ program = \"p\" }]|link = [{}, 1]|5 link
program = [{ name = \"p\", asm = \"boot: halt\" }]|node = [{ program = \"p\" }]|input = [{}, []]|5 input
program = [{ name = \"p\", asm = \"boot: halt\" }]|node = [{ program = \"p\" }]|link = [{}, { color = 1 }]|3 link[1]";

/// The number and the place of a file's fault, or that it is read.
fn answer(alloc: Global, bytes: &[u8]) -> Result<String, AllocError> {
    match read(alloc, bytes) {
        Ok(_) => String::from_str(alloc, "read"),
        Err(FileFault::Memory(e)) => Err(e),
        Err(FileFault::Refused { number, place }) => match str::from_utf8(&place.bytes) {
            Ok(place) => format!(in alloc; "{number} {place}"),
            Err(_) => String::from_str(alloc, "no text"),
        },
    }
}

/// One of the files by its name.
fn file(name: &str) -> &'static str {
    match name {
        "least" => LEAST,
        "reboot" => REBOOT,
        _ => MAYBE_SEND,
    }
}

/// What stands before a bar and behind it.
fn parts(text: &str) -> (&str, &str) {
    match text.split_once("|") {
        Some(both) => both,
        None => ("", text),
    }
}

/// A text with another text in place of the first one of a kind.
fn replaced(alloc: Global, text: &str, old: &str, new: &str) -> Result<String, AllocError> {
    match text.split_once(old) {
        Some((before, behind)) => format!(in alloc; "{before}{new}{behind}"),
        None => String::from_str(alloc, text),
    }
}

/// The file with every key, with the text in place of one line.
fn changed(
    alloc: Global,
    at: usize,
    new: &str,
    also: usize,
    more: &str,
) -> Result<String, AllocError> {
    let mut text = String::new(alloc);
    for (index, line) in LINES.iter().enumerate() {
        let put = if index == at {
            new
        } else if index == also {
            more
        } else {
            *line
        };
        text.push_str(put)?;
        text.push_str("\n")?;
    }
    Ok(text)
}

/// A line's number, or that of no line.
fn line_number(text: &str) -> usize {
    text.parse().unwrap_or(usize::MAX)
}

/// What the file with every key is after a row of changes, and what it should be.
fn change<'a>(alloc: Global, row: &'a str) -> Result<(String, &'a str), AllocError> {
    let (at, rest) = parts(row);
    let (new, rest) = parts(rest);
    let (also, rest) = parts(rest);
    let (more, wanted) = parts(rest);
    let text = changed(alloc, line_number(at), new, line_number(also), more)?;
    Ok((answer(alloc, text.as_bytes())?, wanted))
}

/// What a file is after a replacement, and what it should be.
fn replacement<'a>(alloc: Global, row: &'a str) -> Result<(String, &'a str), AllocError> {
    let (name, rest) = parts(row);
    let (old, rest) = parts(rest);
    let (new, wanted) = parts(rest);
    let text = replaced(alloc, file(name), old, new)?;
    Ok((answer(alloc, text.as_bytes())?, wanted))
}

/// What a file of arrays is, and what it should be.
fn array<'a>(alloc: Global, row: &'a str) -> Result<(String, &'a str), AllocError> {
    let (first, rest) = parts(row);
    let (second, rest) = parts(rest);
    let (third, rest) = parts(rest);
    let (fourth, wanted) = parts(rest);
    let text = format!(in alloc; "version = 1\nticks = 1\n{first}\n{second}\n{third}\n{fourth}\n")?;
    Ok((answer(alloc, text.as_bytes())?, wanted))
}

/// What a file is with so many more elements behind it.
fn grown(
    alloc: Global,
    head: &str,
    element: &str,
    count: usize,
    last: &str,
) -> Result<String, AllocError> {
    let mut text = String::from_str(alloc, head)?;
    for _element in 0..count {
        text.push_str(element)?;
    }
    text.push_str(last)?;
    answer(alloc, text.as_bytes())
}

/// What the least useful file is with a comment that makes it so long.
fn padded(alloc: Global, length: usize) -> Result<String, AllocError> {
    let mut text = String::from_str(alloc, LEAST)?;
    for _byte in LEAST.len()..length {
        text.push_str("#")?;
    }
    answer(alloc, text.as_bytes())
}

const LINK: &str = "[[link]]\nfrom = 0\nto = 1\ndelay = 1\n";

const BACK: &str = "[[link]]\nfrom = 1\nto = 0\ndelay = 1\n";

const NODE: &str = "[[node]]\nprogram = \"p\"\n";

const INPUT: &str = "[[input]]\nnode = 0\nindex = 0\nvalue = 65536\n";

#[test]
fn each_change_of_a_file(rt: HostRuntime) -> Result<(), Fail> {
    for row in CHANGES.lines() {
        let (found, wanted) = change(rt.alloc(), row)?;
        assert!(rt; found.as_str() == wanted, "{row}");
    }
    for row in FILES.lines() {
        let (found, wanted) = replacement(rt.alloc(), row)?;
        assert!(rt; found.as_str() == wanted, "{row}");
    }
    for row in ARRAYS.lines() {
        let (found, wanted) = array(rt.alloc(), row)?;
        assert!(rt; found.as_str() == wanted, "{row}");
    }
    Ok(())
}

#[test]
fn whole_files_and_counts(rt: HostRuntime) -> Result<(), Fail> {
    let alloc = rt.alloc();
    assert!(rt; padded(alloc, 1_048_577)?.as_str() == "1 -");
    assert!(rt; padded(alloc, 1_048_576)?.as_str() == "read");
    assert!(rt; answer(alloc, b"")?.as_str() == "4 version");
    assert!(rt; answer(alloc, b"version = 1\nticks = 1\n[[prog")?.as_str() == "2 -");
    assert!(rt; answer(alloc, &[0xff])?.as_str() == "2 -");
    assert!(rt; grown(alloc, LEAST, INPUT, 1, "")?.as_str() == "12 input[0].value");
    assert!(rt; grown(alloc, MAYBE_SEND, LINK, 15, BACK)?.as_str() == "read");
    assert!(rt; grown(alloc, MAYBE_SEND, LINK, 16, BACK)?.as_str() == "10 link[16].from");
    assert!(rt; grown(alloc, MAYBE_SEND, LINK, 1024, "")?.as_str() == "7 link");
    assert!(rt; grown(alloc, LEAST, NODE, 63, "")?.as_str() == "read");
    assert!(rt; grown(alloc, LEAST, NODE, 64, "")?.as_str() == "7 node");
    Ok(())
}

#[test]
fn what_files_give(rt: HostRuntime) -> Result<(), Fail> {
    match read(rt.alloc(), LEAST.as_bytes()) {
        Ok(net) => {
            assert!(rt; net.programs.len() == 1 && net.nodes.len() == 1 && net.links.is_empty());
            assert!(rt; net.names[0].bytes.as_slice() == b"p".as_slice());
            assert!(rt;
                net.limits.ticks == 1 && net.limits.fuel == 512 && net.limits.conflicts == 65536
            );
            assert!(rt; net.limits.states == 4096 && net.limits.dstates == 4096);
            assert!(rt; net.nodes[0].loss == 0 && net.nodes[0].reboot.is_empty());
        }
        Err(_) => assert!(rt; false),
    }
    match read(
        rt.alloc(),
        changed(rt.alloc(), usize::MAX, "", usize::MAX, "")?.as_bytes(),
    ) {
        Ok(net) => {
            assert!(rt; net.programs.len() == 2);
            assert!(rt; net.names.len() == 2);
            assert!(rt; net.nodes.len() == 2);
            assert!(rt; net.links.len() == 1);
            assert!(rt; net.names[1].bytes.as_slice() == b"q_-Z9".as_slice());
            assert!(rt; net.programs[0] == net.programs[1]);
            assert!(rt; net.nodes[0].program == 1 && net.nodes[1].program == 0);
            assert!(rt; net.nodes[0].loss == 1 && net.nodes[0].duplicate == 2);
            assert!(rt; net.nodes[0].reboot.as_slice() == [0, 3].as_slice());
            assert!(rt; net.links[0].from == 0 && net.links[0].to == 1 && net.links[0].delay == 1);
            assert!(rt; net.inputs.at(0) == Some((1, 0, 2)) && net.inputs.at(1).is_none());
        }
        Err(_) => assert!(rt; false),
    }
    Ok(())
}
