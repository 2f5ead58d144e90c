//! What a node receives.

ghost use Rattle.std.specs.Prelude.{◌≡◌, ◌<◌, ◌≤◌, ◌++◌, ◌∷◌, [], length, ℕ, MatchOption, IfOk, OnOk, IsTrue};
ghost use Rattle.kn_built.specs.Built.{Extends};
ghost use Rattle.kn_cond.specs.Conditions.{Query, that, IsImpossible, StandsFor};
ghost use Rattle.kn_cond.specs.Meanings.{condition_of, literal_of, StandIn};
ghost use Rattle.kn_model.specs.Alikes.{ConditionAlike};
ghost use Rattle.kn_machine.specs.Views.{own_of};
ghost use Rattle.kn_built.specs.Putting.{put_all};
ghost use Rattle.kn_packet.specs.Packets.{packet_le};
ghost use Rattle.kn_solve.specs.Verdicts.{IsJudged};
ghost use Rattle.kn_step.specs.Sides.{Implies};
ghost use Rattle.kn_step.specs.Answers.{OnReceived, OnLearned, guards_of};

use crate::deciding::holds_on;
use kn_cond::{Cond, Standing};
use kn_node::{Config, Machine};
use kn_packet::{Packet, Queue};
use kn_plan::Net;
use kn_solve::{Judge, Plain, ask_more};
use kn_term::{Literal, Node, Terms};
use std::alloc::{AllocError, Global};

/// A node's state with packets in its queue and their guards in its own condition, with the least inputs that meet this,
/// or its mark. None only where no inputs meet it. Err is want of memory.
pub fn receive(net: &Net, c: &Config, inbox: &[Packet]) -> Result<Option<Config>, AllocError>
    requires standing { StandsFor net.now.network.limits.conflicts (that (own_of c.now)) c.now.standing }
    ensures { IfOk result (OnReceived net.now.network.limits.conflicts c.now inbox.now) }
{
    receive_by(net, &mut Plain, c, inbox)
}

/// The same, where this judge is asked.
pub fn receive_by<J: Judge>(
    net: &Net,
    judge: &mut J,
    c: &Config,
    inbox: &[Packet],
) -> Result<Option<Config>, AllocError>
    requires standing { StandsFor net.now.network.limits.conflicts (that (own_of c.now)) c.now.standing }
    ensures { IfOk result (OnReceived net.now.network.limits.conflicts c.now inbox.now) }
{
    net.bounds();
    let alloc = *net.links.allocator();
    let config = c.copy()?;
    receive_own(alloc, judge, net.limits.conflicts, config, inbox)
}

/// The same of a state that is not needed any more.
fn receive_own<J: Judge>(
    alloc: Global,
    judge: &mut J,
    budget: u64,
    c: Config,
    inbox: &[Packet],
) -> Result<Option<Config>, AllocError>
    requires budget { 1 ≤ budget }
    requires standing { StandsFor budget (that (own_of c)) c.standing }
    ensures { IfOk result (OnReceived budget c inbox.now) }
{
    let Config {
        node,
        machine,
        terms,
        cond,
        trace,
        history,
        standing,
    } = c;
    let mut terms = terms;
    let mut machine = machine;
    let more = guards(alloc, &mut terms, &cond, inbox)?;
    queue_up(&mut machine, inbox)?;
    let queued = Config {
        node,
        machine,
        terms,
        cond,
        trace,
        history,
        standing,
    };
    learn(alloc, judge, budget, queued, more)
}

/// The literals of packets' guards that a condition does not say already, over the terms of a list, which grows. Err is
/// want of memory.
fn guards(alloc: Global, terms: &mut Terms, c: &Cond, inbox: &[Packet]) -> Result<Cond, AllocError>
    requires { StandIn terms.old c.now }
    ensures alike { IfOk result (λ more. ConditionAlike (condition_of terms.new c.now ++ condition_of terms.new more) (condition_of terms.old c.now ++ guards_of inbox.now)) }
    ensures stands { IfOk result (StandIn terms.new) }
    ensures grows { IfOk result (λ more. Extends terms.old terms.new) }
{
    let mut more = Cond::new(alloc);
    for packet in inbox {
        add_guard(terms, c, packet, &mut more)?;
    }
    Ok(more)
}

/// The same of one packet's guard, behind what other guards say.
fn add_guard(
    terms: &mut Terms,
    c: &Cond,
    packet: &Packet,
    more: &mut Cond,
) -> Result<(), AllocError>
    requires c { StandIn terms.old c.now }
    requires more { StandIn terms.old more.old }
    ensures alike { OnOk result (ConditionAlike (condition_of terms.new c.now ++ condition_of terms.new more.new) ((condition_of terms.old c.now ++ condition_of terms.old more.old) ++ condition_of packet.now.terms packet.now.guard)) }
    ensures stands { OnOk result (StandIn terms.new more.new) }
    ensures grows { OnOk result (Extends terms.old terms.new) }
{
    for literal in &packet.guard {
        add_literal(terms, c, &packet.terms, *literal, more)?;
    }
    Ok(())
}

/// The same of one literal over the terms of another list.
fn add_literal(
    terms: &mut Terms,
    c: &Cond,
    other: &Terms,
    literal: Literal,
    more: &mut Cond,
) -> Result<(), AllocError>
    requires c { StandIn terms.old c.now }
    requires more { StandIn terms.old more.old }
    requires literal { literal.term.index < length other.now }
    ensures alike { OnOk result (ConditionAlike (condition_of terms.new c.now ++ condition_of terms.new more.new) ((condition_of terms.old c.now ++ condition_of terms.old more.old) ++ literal_of other.now literal ∷ [])) }
    ensures stands { OnOk result (StandIn terms.new more.new) }
    ensures grows { OnOk result (Extends terms.old terms.new) }
{
    let term = terms.import(other, literal.term)?;
    let own = Literal {
        term,
        truth: literal.truth,
    };
    if is_said(terms, c, more, own) {
        return Ok(());
    }
    more.add(own)?;
    Ok(())
}

/// Whether a literal always holds, or is one of either condition.
fn is_said(terms: &Terms, c: &Cond, more: &Cond, literal: Literal) -> bool
    requires { literal.term.index < length terms.now }
    ensures { IsTrue result → Implies (condition_of terms.now c.now ++ condition_of terms.now more.now) (literal_of terms.now literal) }
{
    if let Node::Konst(word) = terms.node(literal.term) {
        return holds_on(word, literal.truth);
    }
    c.literals().contains(&literal) || more.literals().contains(&literal)
}

/// Packets come into the queue of a machine. Err is want of memory, and changes no more than the queue.
fn queue_up(machine: &mut Machine, inbox: &[Packet]) -> Result<(), AllocError>
    ensures queue { OnOk result (machine.new.queue ≡ put_all packet_le inbox.now machine.old.queue) }
    ensures others { machine.new ≡ record machine.old { queue = machine.new.queue } }
{
    post_all(&mut machine.queue, inbox)
}

/// Packets come into a queue. Err is want of memory.
fn post_all(queue: &mut Queue, inbox: &[Packet]) -> Result<(), AllocError>
    ensures { OnOk result (queue.new ≡ put_all packet_le inbox.now queue.old) }
{
    for packet in inbox {
        let packet = packet.copy()?;
        if queue.post(packet).is_err() {
            return Err(AllocError);
        }
    }
    Ok(())
}

/// A state whose own condition becomes more, with what is known of it; None where no inputs meet it.
fn learn<J: Judge>(
    alloc: Global,
    judge: &mut J,
    budget: u64,
    c: Config,
    more: Cond,
) -> Result<Option<Config>, AllocError>
    requires stands { StandIn c.terms more }
    requires budget { 1 ≤ budget }
    requires standing { StandsFor budget (that (own_of c)) c.standing }
    ensures { IfOk result (OnLearned budget c (condition_of c.terms more)) }
{
    if more.literals().is_empty() {
        return Ok(Some(c));
    }
    let Config {
        node,
        machine,
        terms,
        cond,
        trace,
        history,
        standing: known,
    } = c;
    let judged = ask_more(alloc, judge, &terms, &cond, &known, &more, budget)?;
    let Some(standing) = judged.standing() else {
        return Ok(None);
    };
    let mut cond = cond;
    cond.join(&more)?;
    let learned = Config {
        node,
        machine,
        terms,
        cond,
        trace,
        history,
        standing,
    };
    Ok(Some(learned))
}
