//! Each call on small networks.

ghost use Rattle.std.specs.Prelude.{◌≡◌, ◌≤◌, ◌∷◌, [], IfOk};

use super::*;
use kn_code::{Program, decode};
use kn_term::Valuation;
use std::alloc::{AllocError, Global};
use std::test::Fail;

/// The one instruction `halt`, at boot.
const HALT_AT_BOOT: [u8; 30] = [
    0x00, 0x01, 0x00, 0x00, 0xff, 0xff, 0xff, 0xff, 0xff, 0xff, 0xff, 0xff, 0xff, 0xff, 0xff, 0xff,
    0xff, 0xff, 0xff, 0xff, 0xff, 0xff, 0x24, 0x00, 0x00, 0x00, 0x00, 0x00, 0x00, 0x00,
];

fn is_shared<T: Send + Sync>() {}

fn halt_at_boot(alloc: Global) -> Result<Program, AllocError> {
    let bytes = HALT_AT_BOOT;
    match decode(alloc, &bytes) {
        Ok(program) => Ok(program),
        Err(_) => Err(AllocError),
    }
}

fn link(from: u32, to: u32, delay: u32) -> Link
    ensures { result ≡ record { from = from; to = to; delay = delay } }
{
    Link { from, to, delay }
}

fn plan(alloc: Global, loss: u8) -> Result<NodePlan, AllocError>
    ensures { IfOk result (λ p. p ≡ record { program = 0; loss = loss; duplicate = 0; reboot = 1 ∷ 5 ∷ [] }) }
{
    Ok(NodePlan {
        program: 0,
        loss,
        duplicate: 0,
        reboot: Vec::from_array(alloc, [1, 5])?,
    })
}

/// The name of the program: the letter, and one byte of each other kind.
fn name(alloc: Global, letter: u8) -> Result<Name, AllocError>
    ensures { IfOk result (λ n. n ≡ letter ∷ 90 ∷ 57 ∷ 95 ∷ 45 ∷ []) }
{
    Ok(Name {
        bytes: Vec::from_array(alloc, [letter, b'Z', b'9', b'_', b'-'])?,
    })
}

/// The last input that node 1 can have.
fn last_input(alloc: Global, word: u16) -> Result<Valuation, AllocError>
    requires { 1 ≤ word }
    ensures { IfOk result (λ a. a ≡ record { node = 1; index = 65535; word = word } ∷ []) }
{
    let mut inputs = Valuation::new(alloc);
    inputs.set(1, 65_535, word)?;
    Ok(inputs)
}

/// Two nodes with 16 links from node 0 to node 1, of delays 1 to 16, and one back among them, of delay 99.
fn two_nodes(alloc: Global, ticks: u32, letter: u8, word: u16) -> Result<Net, AllocError>
    requires ticks { ticks ≤ 4096 }
    requires least { 97 ≤ letter }
    requires most { letter ≤ 122 }
    requires word { 1 ≤ word }
{
    let links = [
        link(0, 1, 1),
        link(0, 1, 2),
        link(0, 1, 3),
        link(0, 1, 4),
        link(0, 1, 5),
        link(0, 1, 6),
        link(0, 1, 7),
        link(0, 1, 8),
        link(1, 0, 99),
        link(0, 1, 9),
        link(0, 1, 10),
        link(0, 1, 11),
        link(0, 1, 12),
        link(0, 1, 13),
        link(0, 1, 14),
        link(0, 1, 15),
        link(0, 1, 16),
    ];
    Ok(Net {
        programs: Vec::from_array(alloc, [halt_at_boot(alloc)?])?,
        nodes: Vec::from_array(alloc, [plan(alloc, 15)?, plan(alloc, 0)?])?,
        links: Vec::from_array(alloc, links)?,
        limits: Limits {
            ticks,
            fuel: 512,
            conflicts: 65536,
            states: 4096,
            dstates: 4096,
        },
        names: Vec::from_array(alloc, [name(alloc, letter)?])?,
        inputs: last_input(alloc, word)?,
    })
}

#[test]
fn numbers_the_links_of_each_node(rt: HostRuntime) -> Result<(), Fail> {
    let net = two_nodes(rt.alloc(), 3, b'a', 5)?;
    for number in 0..16u16 {
        assert!(rt; net.link_of(0, number) == Some(link(0, 1, u32::from(number) + 1)));
    }
    assert!(rt; net.link_of(0, 16).is_none());
    assert!(rt; net.link_of(1, 0) == Some(link(1, 0, 99)));
    assert!(rt; net.link_of(1, 1).is_none());
    assert!(rt; net.link_of(2, 0).is_none());
    Ok(())
}

#[test]
fn copies_are_equal(rt: HostRuntime) -> Result<(), Fail> {
    let net = two_nodes(rt.alloc(), 3, b'a', 5)?;
    net.bounds();
    assert!(rt; net.copy()? == net);
    assert!(rt; two_nodes(rt.alloc(), 4, b'a', 5)? != net);
    assert!(rt; two_nodes(rt.alloc(), 3, b'z', 5)? != net);
    assert!(rt; two_nodes(rt.alloc(), 3, b'a', 6)? != net);
    assert_eq!(rt; net.copy()?.inputs.at(0), Some((1, 65_535, 5)));
    assert!(rt; net.names[0].copy()? == net.names[0]);
    let lossy = plan(rt.alloc(), 15)?;
    assert!(rt; lossy.copy()? == lossy);
    assert!(rt; plan(rt.alloc(), 0)? != lossy);
    is_shared::<NodePlan>();
    is_shared::<Name>();
    is_shared::<Link>();
    is_shared::<Limits>();
    is_shared::<Net>();
    Ok(())
}
