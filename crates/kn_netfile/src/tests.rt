//! Networks and their texts.

ghost use Rattle.std.specs.Prelude.{◌≡◌, ◌∷◌, [], codes, IfOk};

use super::*;
use kn_code::{Program, decode};
use kn_plan::{Limits, Link, Name, Net, NodePlan};
use kn_term::Valuation;
use std::alloc::{AllocError, Global};
use std::test::Fail;

/// The one instruction `halt`, at boot.
const HALT_AT_BOOT: [u8; 30] = [
    0x00, 0x01, 0x00, 0x00, 0xff, 0xff, 0xff, 0xff, 0xff, 0xff, 0xff, 0xff, 0xff, 0xff, 0xff, 0xff,
    0xff, 0xff, 0xff, 0xff, 0xff, 0xff, 0x24, 0x00, 0x00, 0x00, 0x00, 0x00, 0x00, 0x00,
];

/// The one instruction `ret`, at recv.
const RET_AT_RECV: [u8; 30] = [
    0x00, 0x01, 0xff, 0xff, 0x00, 0x00, 0xff, 0xff, 0xff, 0xff, 0xff, 0xff, 0xff, 0xff, 0xff, 0xff,
    0xff, 0xff, 0xff, 0xff, 0xff, 0xff, 0x23, 0x00, 0x00, 0x00, 0x00, 0x00, 0x00, 0x00,
];

/// What is printed of a node that halts at boot.
const LEAST: &str = "version = 1
ticks = 1
fuel = 512
conflicts = 65536
states = 4096
dstates = 4096

[[program]]
name = \"p\"
code = \"00010000ffffffffffffffffffffffffffffffffffff2400000000000000\"

[[node]]
program = \"p\"
loss = 0
duplicate = 0
reboot = []
";

/// What is printed of two nodes with links, reboots and inputs.
const PAIR: &str = "version = 1
ticks = 4096
fuel = 1
conflicts = 1048576
states = 2
dstates = 16384

[[program]]
name = \"p\"
code = \"00010000ffffffffffffffffffffffffffffffffffff2400000000000000\"

[[program]]
name = \"Z9_-\"
code = \"0001ffff0000ffffffffffffffffffffffffffffffff2300000000000000\"

[[node]]
program = \"Z9_-\"
loss = 15
duplicate = 2
reboot = [1, 5]

[[node]]
program = \"p\"
loss = 0
duplicate = 0
reboot = []

[[link]]
from = 1
to = 0
delay = 65535

[[link]]
from = 0
to = 1
delay = 1

[[input]]
node = 0
index = 3
value = 65535

[[input]]
node = 1
index = 65535
value = 5
";

fn program(alloc: Global, bytes: &[u8]) -> Result<Program, AllocError> {
    match decode(alloc, bytes) {
        Ok(program) => Ok(program),
        Err(_) => Err(AllocError),
    }
}

fn first_name(alloc: Global) -> Result<Name, AllocError>
    ensures { IfOk result (λ n. n ≡ codes "p") }
{
    Ok(Name {
        bytes: Vec::from_array(alloc, [b'p'])?,
    })
}

fn second_name(alloc: Global) -> Result<Name, AllocError>
    ensures { IfOk result (λ n. n ≡ codes "Z9_-") }
{
    Ok(Name {
        bytes: Vec::from_array(alloc, [b'Z', b'9', b'_', b'-'])?,
    })
}

fn plain(alloc: Global) -> Result<NodePlan, AllocError>
    ensures { IfOk result (λ p. p ≡ record { program = 0; loss = 0; duplicate = 0; reboot = [] }) }
{
    Ok(NodePlan {
        program: 0,
        loss: 0,
        duplicate: 0,
        reboot: Vec::new(alloc),
    })
}

fn rebooting(alloc: Global) -> Result<NodePlan, AllocError>
    ensures { IfOk result (λ p. p ≡ record { program = 1; loss = 15; duplicate = 2; reboot = 1 ∷ 5 ∷ [] }) }
{
    Ok(NodePlan {
        program: 1,
        loss: 15,
        duplicate: 2,
        reboot: Vec::from_array(alloc, [1, 5])?,
    })
}

fn inputs(alloc: Global) -> Result<Valuation, AllocError>
    ensures { IfOk result (λ a. a ≡ record { node = 0; index = 3; word = 65535 } ∷ record { node = 1; index = 65535; word = 5 } ∷ []) }
{
    let mut inputs = Valuation::new(alloc);
    inputs.set(1, 65_535, 5)?;
    inputs.set(0, 3, 65_535)?;
    Ok(inputs)
}

fn least(alloc: Global) -> Result<Net, AllocError> {
    let halt = HALT_AT_BOOT;
    Ok(Net {
        programs: Vec::from_array(alloc, [program(alloc, &halt)?])?,
        nodes: Vec::from_array(alloc, [plain(alloc)?])?,
        links: Vec::new(alloc),
        limits: Limits {
            ticks: 1,
            fuel: 512,
            conflicts: 65_536,
            states: 4_096,
            dstates: 4_096,
        },
        names: Vec::from_array(alloc, [first_name(alloc)?])?,
        inputs: Valuation::new(alloc),
    })
}

fn pair(alloc: Global) -> Result<Net, AllocError> {
    let halt = HALT_AT_BOOT;
    let ret = RET_AT_RECV;
    let there = Link {
        from: 0,
        to: 1,
        delay: 1,
    };
    let back = Link {
        from: 1,
        to: 0,
        delay: 65_535,
    };
    Ok(Net {
        programs: Vec::from_array(alloc, [program(alloc, &halt)?, program(alloc, &ret)?])?,
        nodes: Vec::from_array(alloc, [rebooting(alloc)?, plain(alloc)?])?,
        links: Vec::from_array(alloc, [back, there])?,
        limits: Limits {
            ticks: 4_096,
            fuel: 1,
            conflicts: 1_048_576,
            states: 2,
            dstates: 16_384,
        },
        names: Vec::from_array(alloc, [first_name(alloc)?, second_name(alloc)?])?,
        inputs: inputs(alloc)?,
    })
}

#[test]
fn prints_all_limits_and_keys(rt: HostRuntime) -> Result<(), Fail> {
    assert_eq!(rt; print(&least(rt.alloc())?)?.as_str(), LEAST);
    assert_eq!(rt; print(&pair(rt.alloc())?)?.as_str(), PAIR);
    Ok(())
}
