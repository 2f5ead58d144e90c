//! Each call on a few packets.

use super::*;
use kn_term::{Literal, Terms};
use kn_trace::Trace;
use smallvec::SmallVec;
use std::test::Fail;

fn is_shared<T: Send + Sync>() {}

/// A packet with this key, and all else the same.
fn packet(rt: &HostRuntime, arrival: u32, from: u32, seq: u32, copy: u8) -> Result<Packet, Fail> {
    let mut terms = Terms::new(rt.alloc());
    let word = terms.konst(7)?;
    let literal = Literal {
        term: word,
        truth: true,
    };
    let mut bits = Trace::new(rt.alloc());
    bits.push(true)?;
    Ok(Packet {
        from,
        seq,
        copy,
        to: 9,
        arrival,
        payload: SmallVec::from_slice(rt.alloc(), &[word, word])?,
        guard: Vec::from_slice(rt.alloc(), &[literal])?,
        terms,
        stamp: Stamp {
            node: from,
            history: 3,
            bits,
            seq,
        },
    })
}

#[test]
fn packets_come_out_in_order(rt: HostRuntime) -> Result<(), Fail> {
    let posted = [
        (5, 1, 0, 0),
        (4, 2, 0, 0),
        (4, 0, 8, 1),
        (4, 0, 9, 0),
        (4, 0, 8, 0),
        (3, 6, 0, 0),
    ];
    let mut queue = Queue::new(rt.alloc());
    assert_eq!(rt; queue.quiet_until(), u32::MAX);
    for (arrival, from, seq, copy) in posted {
        let p = packet(&rt, arrival, from, seq, copy)?;
        assert!(rt; queue.post(p).is_ok());
    }
    assert!(rt; queue.due(2).is_none());
    assert_eq!(rt; queue.quiet_until(), 3);
    for (from, seq, copy) in [(0, 8, 0), (0, 8, 1), (0, 9, 0), (2, 0, 0)] {
        let want = packet(&rt, 4, from, seq, copy)?;
        assert!(rt; queue.due(4).is_some_and(|p| *p == want));
        assert!(rt; queue.take(4).is_some_and(|p| p == want));
    }
    assert!(rt; queue.take(4).is_none());
    assert!(rt; queue.due(3).is_some() && queue.due(5).is_some());
    Ok(())
}

#[test]
fn copies_are_equal(rt: HostRuntime) -> Result<(), Fail> {
    let one = packet(&rt, 4, 0, 8, 0)?;
    let other = packet(&rt, 4, 0, 8, 1)?;
    assert!(rt; one.copy()? == one);
    assert!(rt; one != other);
    let mut queue = Queue::new(rt.alloc());
    assert!(rt; queue.post(one).is_ok());
    let copy = queue.copy()?;
    assert!(rt; copy == queue);
    assert!(rt; queue.post(other).is_ok());
    assert!(rt; copy != queue);
    is_shared::<Stamp>();
    is_shared::<Packet>();
    is_shared::<Event>();
    is_shared::<Queue>();
    Ok(())
}
