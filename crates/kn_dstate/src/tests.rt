//! Each call on a graph of three nodes, and the order of histories.

ghost use Rattle.std.specs.Prelude.{ℕ, IfOk};
ghost use Rattle.kn_dstate.specs.Histories.{NamesBelow};

use super::*;
use kn_packet::{Event, Stamp};
use kn_trace::Trace;
use std::cmp::Ordering;
use std::test::Fail;

#[test]
fn reads_a_new_graph(rt: HostRuntime) -> Result<(), Fail> {
    let mut graph = Graph::open(rt.alloc(), 3)?;
    assert_eq!(rt; graph.column(DstateNo(0), 1), [StateNo(1)].as_slice());
    assert!(rt; graph.inbox(DstateNo(0), 1).is_empty());
    assert_eq!(rt; graph.node(StateNo(2)), 2);
    assert_eq!(rt; graph.history(StateNo(2)).0, 2);
    assert!(rt; graph.is_placed(StateNo(0)));
    assert!(rt; graph.pick_count(DstateNo(0)) == Some(1));
    assert!(rt; graph.rivals(StateNo(1), DstateNo(0))?.is_empty());
    assert_eq!(rt;
        graph.targets(StateNo(0), 1)?.as_slice(),
        [StateNo(1)].as_slice()
    );
    assert!(rt; graph.state_from(1) == Some(StateNo(1)) && graph.state_from(3).is_none());
    assert!(rt; graph.dstate_from(0) == Some(DstateNo(0)) && graph.dstate_from(1).is_none());
    assert_eq!(rt;
        graph.cmp_history(HistoryNo(0), HistoryNo(1)),
        Ordering::Equal
    );
    let packet = graph.new_packet(1)?;
    assert_eq!(rt; packet.0, 0);
    assert_eq!(rt; graph.destination(packet), 1);
    graph.pin(StateNo(2));
    assert!(rt; graph.state_from(2) == Some(StateNo(2)));
    Ok(())
}

/// An event with these bits.
fn ran(rt: &HostRuntime, event: Event, bits: &[bool]) -> Result<Entry, Fail>
    ensures { IfOk result (λ e. (n : ℕ) → NamesBelow n e) }
{
    let mut trace = Trace::new(rt.alloc());
    for bit in bits {
        trace.push(*bit)?;
    }
    Ok(Entry::Ran { event, bits: trace })
}

#[test]
fn adds_a_state(rt: HostRuntime) -> Result<(), Fail> {
    let mut graph = Graph::open(rt.alloc(), 3)?;
    let boot = ran(&rt, Event::Boot, &[true])?;
    let state = graph.new_state(1, HistoryNo(1), &[boot])?;
    assert_eq!(rt; graph.node(state), 1);
    assert!(rt; !graph.is_placed(state));
    let history = graph.history(state);
    assert_eq!(rt; graph.cmp_history(HistoryNo(1), history), Ordering::Less);
    assert_eq!(rt; graph.cmp_history(history, HistoryNo(0)), Ordering::Greater);
    graph.unpin(state);
    assert!(rt; graph.state_from(3).is_none());
    Ok(())
}

#[test]
fn takes_a_dstate_away(rt: HostRuntime) -> Result<(), Fail> {
    let mut graph = Graph::open(rt.alloc(), 3)?;
    graph.pin(StateNo(1));
    graph.replace(&[DstateNo(0)], Vec::new(rt.alloc()))?;
    assert!(rt; graph.dstate_from(0).is_none());
    assert!(rt; graph.state_from(0) == Some(StateNo(1)) && graph.state_from(2).is_none());
    Ok(())
}
