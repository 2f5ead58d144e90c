//! A path through an event.

use kn_cond::Cond;
use kn_node::Config;
use kn_packet::Packet;
use kn_trace::Trace;
use std::marker::Model;

/// A path through an event: its bits, the state after it, with what is known of the inputs that meet its own condition,
/// what it sent, and the literals of its decisions, over the state's terms.
#[derive(Debug, Drop)]
pub struct Path {
    pub bits: Trace,
    pub config: Config,
    pub sends: Vec<Packet>,
    pub literals: Cond,
}

impl Model for Path {
    ghost use Rattle.kn_machine.specs.Paths.{PathView};
    ghost use Rattle.kn_cond.specs.Meanings.{StandIn};

    ghost Value = { PathView };

    ghost view = { λ p. record { bits = p.bits; config = p.config; sends = p.sends.items; literals = p.literals } };

    ghost invariant = { λ p. StandIn p.config.terms p.literals };
}
