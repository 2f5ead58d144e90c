//! Failure choices.

ghost use Rattle.std.specs.Prelude.{◌≡◌, ◌<◌, ◌≤◌, ℕ, [], IfOk, OnOk};
ghost use Rattle.kn_model.specs.Terms.{words};
ghost use Rattle.kn_model.specs.Nets.{Network};
ghost use Rattle.kn_model.specs.Paths.{cleared, doubled, with_loss};
ghost use Rattle.kn_conc.specs.Ways.{IsPlace, here_of, way_of};
ghost use Rattle.kn_conc.specs.Runs.{arrived, chosen, is_taken};

use crate::packet::ConcPacket;
use crate::queue::put;
use crate::spot::Spot;
use crate::way::Way;
use kn_term::Valuation;
use smallvec::SmallVec;
use std::alloc::AllocError;

/// Whether a failure choice is taken, which a fresh input of one bit tells; it is not where the node has made 65,535
/// inputs. Err is want of memory.
pub fn choose(spot: &Spot, inputs: &Valuation, way: &mut Way) -> Result<bool, AllocError>
    ensures taken { (net : Network) → IfOk result (λ b. b ≡ is_taken inputs.now (here_of net spot.now) (way_of way.old)) }
    ensures losses { IfOk result (λ b. way.new.node.state.losses ≡ way.old.node.state.losses) }
    ensures duplications { IfOk result (λ b. way.new.node.state.duplications ≡ way.old.node.state.duplications) }
    ensures way { (net : Network) → IfOk result (λ b. way_of way.new ≡ chosen inputs.now (here_of net spot.now) (way_of way.old)) }
    ensures node { way.new.node.node ≡ way.old.node.node }
    ensures trace { way.new.node.state.trace ≡ way.old.node.state.trace }
{
    if way.node.inputs == 65535 {
        return Ok(false);
    }
    let is_taken = way.fresh_input(inputs, spot.node, 1) != 0;
    way.count_input();
    way.decide(is_taken)?;
    Ok(is_taken)
}

/// Registers, memory and timers are as at the start. Err is want of memory.
pub fn clear(way: &mut Way) -> Result<(), AllocError>
    ensures way { OnOk result (way_of way.new ≡ cleared (words []) (way_of way.old)) }
    ensures node { way.new.node.node ≡ way.old.node.node }
    ensures trace { way.new.node.state.trace ≡ way.old.node.state.trace }
{
    way.node.clear()
}

/// One loss is used.
pub fn lose(way: &mut Way)
    requires { 1 ≤ way.old.node.state.losses }
    ensures way { way_of way.new ≡ with_loss (words []) (way_of way.old) }
    ensures node { way.new.node.node ≡ way.old.node.node }
    ensures trace { way.new.node.state.trace ≡ way.old.node.state.trace }
{
    way.node.losses -= 1;
}

/// Copy 1 of a packet comes one tick later. Err is want of memory.
pub fn double(spot: &Spot, mail: &ConcPacket, way: &mut Way) -> Result<(), AllocError>
    requires place { IsPlace spot.now }
    requires some { 1 ≤ way.old.node.state.duplications }
    ensures way { (net : Network) → OnOk result (way_of way.new ≡ doubled (words []) (here_of net spot.now) mail.now (way_of way.old)) }
    ensures node { way.new.node.node ≡ way.old.node.node }
    ensures trace { way.new.node.state.trace ≡ way.old.node.state.trace }
{
    let alloc = *way.sends.allocator();
    let copy = mail.copy_at(alloc, spot.tick + 1)?;
    way.node.queue_copy(copy)
}

/// A packet that arrives is doubled, if it is no copy, duplications are left, and this is chosen. Err is want of memory.
pub fn may_double(
    spot: &Spot,
    inputs: &Valuation,
    mail: &ConcPacket,
    way: &mut Way,
) -> Result<(), AllocError>
    requires place { IsPlace spot.now }
    ensures way { (net : Network) → OnOk result (way_of way.new ≡ arrived inputs.now (here_of net spot.now) mail.now (way_of way.old)) }
    ensures node { way.new.node.node ≡ way.old.node.node }
    ensures trace { way.new.node.state.trace ≡ way.old.node.state.trace }
{
    if mail.copy != 0 || way.node.duplications == 0 {
        return Ok(());
    }
    if choose(spot, inputs, way)? {
        double(spot, mail, way)?;
    }
    Ok(())
}
