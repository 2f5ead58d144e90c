//! Networks of some numbers, and their texts.

ghost use Rattle.std.specs.Prelude.{◌<◌};

use super::*;
use kn_netfile::{FileFault, print, read};
use std::alloc::{AllocError, Global};
use std::test::Fail;

/// What is made of a number.
struct Row {
    number: u8,
    ticks: u32,
    nodes: usize,
    links: usize,
}

/// One short chain; three nodes; one longest chain; two short chains; two longest chains.
const ROWS: [Row; 5] = [
    Row {
        number: 0,
        ticks: 5,
        nodes: 2,
        links: 1,
    },
    Row {
        number: 7,
        ticks: 8,
        nodes: 3,
        links: 2,
    },
    Row {
        number: 17,
        ticks: 12,
        nodes: 4,
        links: 3,
    },
    Row {
        number: 18,
        ticks: 5,
        nodes: 4,
        links: 2,
    },
    Row {
        number: 35,
        ticks: 12,
        nodes: 8,
        links: 6,
    },
];

/// One chain of three nodes whose source sends three readings: boot sets timer 0 to tick 7, and register 4 to 3.
const SEVEN: &str = "version = 1
ticks = 8
fuel = 512
conflicts = 65536
states = 4096
dstates = 4096

[[program]]
name = \"sink\"
code = \"000b000000020006ffffffffffffffffffffffffffff0b000000000700002300000000000000010100000001000010020201000000000f000000000000002300000000000000200200000000000001030000000800001c0400030000000009040000000a00002300000000000000\"

[[program]]
name = \"relay\"
code = \"0003ffff0000ffffffffffffffffffffffffffffffff0f000000000000000d010000000000002300000000000000\"

[[program]]
name = \"source\"
code = \"000a0000ffff0004ffffffffffffffffffffffffffff010300000001000001040000000300000b0000000001000023000000000000000a000000000400000d01000000000000110404030000000009040000000900000b000000000100002300000000000000\"

[[node]]
program = \"sink\"
loss = 1
duplicate = 0
reboot = []

[[node]]
program = \"relay\"
loss = 1
duplicate = 0
reboot = []

[[node]]
program = \"source\"
loss = 1
duplicate = 0
reboot = []

[[link]]
from = 1
to = 0
delay = 1

[[link]]
from = 2
to = 1
delay = 1
";

/// Whether what is printed of a number's network is read as that network.
fn is_read_back(alloc: Global, number: u8) -> Result<bool, AllocError>
    requires { number < 36 }
{
    let net = make(alloc, number)?;
    match read(alloc, print(&net)?.as_bytes()) {
        Ok(again) => Ok(again == net),
        Err(FileFault::Memory(e)) => Err(e),
        Err(FileFault::Refused { .. }) => Ok(false),
    }
}

#[test]
fn networks_of_numbers(rt: HostRuntime) -> Result<(), Fail> {
    programs_are_assembled();
    made_is_valid();
    made_is_read();
    for row in &ROWS {
        let net = make(rt.alloc(), row.number)?;
        assert!(rt; net.limits.ticks == row.ticks, "ticks of {}", row.number);
        assert!(rt; net.nodes.len() == row.nodes, "nodes of {}", row.number);
        assert!(rt; net.links.len() == row.links, "links of {}", row.number);
    }
    assert_eq!(rt; print(&make(rt.alloc(), 7)?)?.as_str(), SEVEN);
    for number in 0..36 {
        assert!(rt; is_read_back(rt.alloc(), number)?, "{number}");
    }
    Ok(())
}
