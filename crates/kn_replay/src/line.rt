//! Events that were run.

use kn_packet::Event;
use kn_trace::Trace;
use std::marker::Model;

/// An event that a node ran in a tick, and the bits of the decisions that it took.
#[derive(Debug, Drop)]
pub struct RunLine {
    pub tick: u32,
    pub node: u32,
    pub event: Event,
    pub bits: Trace,
}

impl Model for RunLine {
    ghost use Rattle.kn_model.specs.Concrete.{Happened};

    ghost Value = { Happened };

    ghost view = { λ l. record { tick = l.tick; node = l.node; event = l.event; bits = l.bits } };
}
