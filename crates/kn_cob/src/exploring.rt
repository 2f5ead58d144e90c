//! The exploration of a network by copying it whole at every branch.

ghost use Rattle.std.specs.Prelude.{◌≡◌, ◌+◌, ◌<◌, ◌≤◌, ◌++◌, ◌∷◌, [], ℕ, List, None, length, map, flat_map, is_some, IfOk, IfErr, OnOk};
ghost use Rattle.std.specs.List.{AllByRecursion};
ghost use Rattle.kn_term.specs.Terms.{Term};
ghost use Rattle.kn_model.specs.Terms.{terms};
ghost use Rattle.kn_model.specs.Laws.{IsNet};
ghost use Rattle.kn_model.specs.Due.{due as due_in};
ghost use Rattle.kn_node.specs.Due.{due};
ghost use Rattle.kn_model.specs.Scenarios.{Scenario as Scenarios, close, copies, settled, cob, pre};
ghost use Rattle.kn_machine.specs.Views.{state_of};
ghost use Rattle.kn_step.specs.Answers.{IsReady, AreRun};
ghost use Rattle.kn_cob.specs.Copies.{IsCopy, AreCopies, node_in, along};
ghost use Rattle.kn_cob.specs.Closing.{AreShut, IsStanding, configs_in};
ghost use Rattle.kn_cob.specs.Ticks.{AreIdleUntil, IsMetCopy, AreTurned, IsSettling, IsRun, so_far, some_due, StopsAt, StopsIn, IsPassed};
ghost use Rattle.kn_cob.specs.Runs.{AreScenarios};

use crate::copies::NetworkCopy;
use crate::node::node_count;
use crate::ordering::sort_by_name;
use crate::run::{CobRun, Scenario};
use crate::stop::Stop;
use kn_node::next_event;
use kn_plan::Net;
use kn_step::{LimitAt, LimitKind, Path, StepStop, Steps, comes_later, run_event};
use std::alloc::{AllocError, Global};
use std::sync::ledger::Ledger;

/// Where an exploration stands: the node whose events run, and the tick.
#[derive(Clone, Copy, Debug, PartialEq, Eq)]
pub struct Place {
    pub node: u32,
    pub tick: u32,
}

/// The paths of a node's due event in a copy.
fn paths_of<L: Ledger>(
    net: &Net,
    place: Place,
    copy: &NetworkCopy,
    steps: &mut Steps<L>,
) -> Result<Vec<Path>, Stop>
    requires inside { place.node < length copy.now }
    requires ready { IsReady net.now.network place.tick (node_in copy.now place.node).config }
    requires due { due_in net.now.network.limits.ticks place.tick (state_of (node_in copy.now place.node).config) ≡ None → ⊥ }
    ensures run { IfOk result (λ ps. IsRun net.now.network place.tick (node_in copy.now place.node).config ps.items) }
    ensures stop { IfErr result (StopsIn net.now.network place.tick (node_in copy.now place.node).config) }
{
    match run_event(net, &copy.node(place.node).config, place.tick, steps) {
        Ok(done) => Ok(done.paths),
        Err(StepStop::TooMany(over)) => Err(Stop::Limit(LimitAt {
            kind: LimitKind::States,
            tick: place.tick,
            count: over.prefixes.len(),
        })),
        Err(StepStop::Memory(error)) => Err(Stop::Memory(error)),
    }
}

/// One copy for each path of a node's event comes behind the others. Err is want of memory.
fn put_along(
    copy: &NetworkCopy,
    node: u32,
    paths: Vec<Path>,
    out: &mut Vec<NetworkCopy>,
) -> Result<(), AllocError>
    requires node { node < length copy.now }
    requires few { length copy.now ≤ 64 }
    ensures { OnOk result (out.new.items ≡ out.old.items ++ map (along copy.now node) paths.items) }
{
    for path in paths {
        out.push(copy.along(node, path)?)?;
    }
    Ok(())
}

/// A copy comes behind the others. Err is want of memory.
fn push(copy: NetworkCopy, out: &mut Vec<NetworkCopy>) -> Result<(), AllocError>
    ensures { OnOk result (out.new.items ≡ out.old.items ++ copy ∷ []) }
{
    out.push(copy)?;
    Ok(())
}

/// One copy for each path of a node's due event comes behind the others; the copy itself where nothing is due.
fn put_copies<L: Ledger>(
    net: &Net,
    place: Place,
    copy: NetworkCopy,
    steps: &mut Steps<L>,
    out: &mut Vec<NetworkCopy>,
) -> Result<(), Stop>
    requires sound { IsNet net.now.network }
    requires tick { place.tick < net.now.network.limits.ticks }
    requires node { place.node < length net.now.network.nodes }
    requires met { IsMetCopy net.now.network place.tick place.node copy }
    ensures given { (s : Scenarios Term) (before : List (Scenarios Term)) → IsCopy net.now.network place.tick copy s → AreCopies net.now.network place.tick out.old.items before → OnOk result (AreCopies net.now.network place.tick out.new.items (before ++ copies terms net.now.network place.node place.tick s)) }
    ensures stop { IfErr result (StopsAt net.now.network place.tick) }
{
    net.bounds();
    if !is_due(place, &copy) {
        push(copy, out)?;
        return Ok(());
    }
    let paths = paths_of(net, place, &copy, steps)?;
    put_along(&copy, place.node, paths, out)?;
    Ok(())
}

/// Err where there are more copies than the network's limit of dstates.
fn within_limit(net: &Net, tick: u32, copies: &[NetworkCopy]) -> Result<(), LimitAt>
    ensures few { OnOk result (length copies.now ≤ net.now.network.limits.dstates) }
    ensures kind { IfErr result (λ at. at.kind ≡ LimitKind.Dstates) }
    ensures tick { IfErr result (λ at. at.tick ≡ tick) }
    ensures many { IfErr result (λ at. net.now.network.limits.dstates < length copies.now) }
{
    if copies.len() > net.limits.dstates {
        return Err(LimitAt {
            kind: LimitKind::Dstates,
            tick,
            count: copies.len(),
        });
    }
    Ok(())
}

/// Each copy in which an event of the node is due is replaced by one copy for each path.
fn turn<L: Ledger>(
    alloc: Global,
    net: &Net,
    place: Place,
    list: Vec<NetworkCopy>,
    steps: &mut Steps<L>,
) -> Result<Vec<NetworkCopy>, Stop>
    requires sound { IsNet net.now.network }
    requires tick { place.tick < net.now.network.limits.ticks }
    requires turned { AreTurned net.now.network place.tick place.node list.items }
    ensures given { (ss : List (Scenarios Term)) → AreCopies net.now.network place.tick list.items ss → IfOk result (λ v. AreCopies net.now.network place.tick v.items (flat_map (copies terms net.now.network place.node place.tick) ss)) }
    ensures stop { IfErr result (StopsAt net.now.network place.tick) }
{
    let mut out = Vec::new(alloc);
    for copy in list {
        put_copies(net, place, copy, steps, &mut out)?;
        if let Err(at) = within_limit(net, place.tick, &out) {
            return Err(Stop::Limit(at));
        }
    }
    Ok(out)
}

/// Whether an event of a node is due in a copy.
fn is_due(place: Place, copy: &NetworkCopy) -> bool
    requires { place.node < length copy.now }
    ensures { result ≡ is_some (due place.tick (node_in copy.now place.node).config.machine) }
{
    next_event(&copy.node(place.node).config, place.tick).is_some()
}

/// Whether an event of a node is due in some copy.
fn is_due_in_some(place: Place, list: &[NetworkCopy]) -> bool
    requires { AllByRecursion (λ c. place.node < length c) list.now }
    ensures { result ≡ some_due place.tick place.node list.now }
{
    for copy in list {
        if is_due(place, copy) {
            return true;
        }
    }
    false
}

/// All events of the node in this tick, in one copy: turn by turn, until none is due. A tick holds no more events of a node
/// than memory holds packets.
fn turns<L: Ledger>(
    alloc: Global,
    net: &Net,
    place: Place,
    copy: NetworkCopy,
    steps: &mut Steps<L>,
) -> Result<Vec<NetworkCopy>, Stop>
    requires sound { IsNet net.now.network }
    requires tick { place.tick < net.now.network.limits.ticks }
    requires node { place.node < length net.now.network.nodes }
    requires settling { IsSettling net.now.network place.tick place.node copy }
    ensures given { (s : Scenarios Term) → IsCopy net.now.network place.tick copy s → IfOk result (λ v. AreCopies net.now.network place.tick v.items (settled terms net.now.network place.tick place.node s)) }
    ensures stop { IfErr result (StopsAt net.now.network place.tick) }
{
    let mut list = Vec::new(alloc);
    push(copy, &mut list)?;
    for _turn in 0..u64::MAX {
        if !is_due_in_some(place, &list) {
            return Ok(list);
        }
        list = turn(alloc, net, place, list, steps)?;
    }
    Err(Stop::Memory(AllocError))
}

/// A copy after all events of the node in this tick comes behind the others, once for each way through them.
fn settle<L: Ledger>(
    alloc: Global,
    net: &Net,
    place: Place,
    copy: NetworkCopy,
    steps: &mut Steps<L>,
    out: &mut Vec<NetworkCopy>,
) -> Result<(), Stop>
    requires sound { IsNet net.now.network }
    requires tick { place.tick < net.now.network.limits.ticks }
    requires node { place.node < length net.now.network.nodes }
    requires settling { IsSettling net.now.network place.tick place.node copy }
    ensures given { (s : Scenarios Term) (before : List (Scenarios Term)) → IsCopy net.now.network place.tick copy s → AreCopies net.now.network place.tick out.old.items before → OnOk result (AreCopies net.now.network place.tick out.new.items (before ++ settled terms net.now.network place.tick place.node s)) }
    ensures stop { IfErr result (StopsAt net.now.network place.tick) }
{
    if !is_due(place, &copy) {
        push(copy, out)?;
        return Ok(());
    }
    let mut settled = turns(alloc, net, place, copy, steps)?;
    out.append(&mut settled)?;
    Ok(())
}

/// All events of the node in this tick, in all copies.
fn settle_all<L: Ledger>(
    alloc: Global,
    net: &Net,
    place: Place,
    list: Vec<NetworkCopy>,
    steps: &mut Steps<L>,
) -> Result<Vec<NetworkCopy>, Stop>
    requires sound { IsNet net.now.network }
    requires tick { place.tick < net.now.network.limits.ticks }
    requires node { place.node < length net.now.network.nodes }
    requires before { AreCopies net.now.network place.tick list.items (so_far net.now.network place.tick place.node) }
    requires few { length list.items ≤ net.now.network.limits.dstates }
    ensures given { IfOk result (λ v. AreCopies net.now.network place.tick v.items (so_far net.now.network place.tick (place.node + 1))) }
    ensures few { IfOk result (λ v. length v.items ≤ net.now.network.limits.dstates) }
    ensures stop { IfErr result (StopsAt net.now.network place.tick) }
{
    if !is_due_in_some(place, &list) {
        return Ok(list);
    }
    let mut out = Vec::with_capacity(alloc, list.len())?;
    for copy in list {
        settle(alloc, net, place, copy, steps, &mut out)?;
        if let Err(at) = within_limit(net, place.tick, &out) {
            return Err(Stop::Limit(at));
        }
    }
    Ok(out)
}

/// The events of a tick, node after node.
fn run_tick<L: Ledger>(
    alloc: Global,
    net: &Net,
    tick: u32,
    list: Vec<NetworkCopy>,
    steps: &mut Steps<L>,
) -> Result<Vec<NetworkCopy>, Stop>
    requires sound { IsNet net.now.network }
    requires tick { tick < net.now.network.limits.ticks }
    requires copies { AreCopies net.now.network tick list.items (cob terms net.now.network tick) }
    requires few { length list.items ≤ net.now.network.limits.dstates }
    ensures given { IfOk result (λ v. AreCopies net.now.network tick v.items (pre terms net.now.network tick)) }
    ensures few { IfOk result (λ v. length v.items ≤ net.now.network.limits.dstates) }
    ensures stop { IfErr result (StopsAt net.now.network tick) }
{
    let mut list = list;
    for node in 0..node_count(net) {
        list = settle_all(alloc, net, Place { node, tick }, list, steps)?;
    }
    Ok(list)
}

/// A copy after the tick comes behind the others, unless no inputs lead to it. Err is want of memory.
fn put_shut(net: &Net, copy: NetworkCopy, out: &mut Vec<NetworkCopy>) -> Result<(), AllocError>
    requires standing { AllByRecursion (IsStanding net.now.network) copy }
    ensures given { (t : ℕ) (s : Scenarios Term) (before : List (Scenarios Term)) → IsCopy net.now.network t copy s → AreCopies net.now.network (t + 1) out.old.items before → OnOk result (AreCopies net.now.network (t + 1) out.new.items (before ++ close s ∷ [])) }
    ensures shut { AllByRecursion AreShut out.old.items → OnOk result (AllByRecursion AreShut out.new.items) }
    ensures few { OnOk result (length out.new.items ≤ length out.old.items + 1) }
{
    if copy.is_shut() {
        out.push(copy)?;
        return Ok(());
    }
    let Some(shut) = copy.shut(net)? else {
        return Ok(());
    };
    out.push(shut)?;
    Ok(())
}

/// The tick is closed in all copies, and those that no inputs lead to go. Err is want of memory.
fn shut_tick(
    alloc: Global,
    net: &Net,
    tick: u32,
    list: Vec<NetworkCopy>,
) -> Result<Vec<NetworkCopy>, AllocError>
    requires sound { IsNet net.now.network }
    requires copies { AreCopies net.now.network tick list.items (pre terms net.now.network tick) }
    ensures given { IfOk result (λ v. AreCopies net.now.network (tick + 1) v.items (cob terms net.now.network (tick + 1))) }
    ensures shut { IfOk result (λ v. AllByRecursion AreShut v.items) }
    ensures few { IfOk result (λ v. length v.items ≤ length list.items) }
{
    let mut out = Vec::with_capacity(alloc, list.len())?;
    for copy in list {
        put_shut(net, copy, &mut out)?;
    }
    Ok(out)
}

/// A tick up to which nothing is due in copies after tick 0; the greatest number where nothing comes.
fn quiet_until(list: &[NetworkCopy]) -> u32
    ensures { AreIdleUntil result list.now }
{
    let mut until = u32::MAX;
    for copy in list {
        until = until.min(copy.quiet_until());
    }
    until
}

/// The copies before the last tick's end. Ticks in which nothing is due change nothing, and are passed over.
fn copies_at_end<L: Ledger>(
    alloc: Global,
    net: &Net,
    steps: &mut Steps<L>,
) -> Result<Vec<NetworkCopy>, Stop>
    requires sound { IsNet net.now.network }
    ensures given { IfOk result (λ v. AreCopies net.now.network net.now.network.limits.ticks v.items (cob terms net.now.network net.now.network.limits.ticks)) }
    ensures shut { IfOk result (λ v. AllByRecursion AreShut v.items) }
    ensures few { IfOk result (λ v. length v.items ≤ net.now.network.limits.dstates) }
    ensures passed { IfErr result (IsPassed net.now.network) }
{
    net.bounds();
    let mut list = Vec::new(alloc);
    push(NetworkCopy::opening(alloc, net)?, &mut list)?;
    let mut quiet = 0;
    for tick in 0..net.limits.ticks {
        if tick < quiet {
            continue;
        }
        let run = run_tick(alloc, net, tick, list, steps)?;
        list = shut_tick(alloc, net, tick, run)?;
        quiet = quiet_until(&list);
    }
    Ok(list)
}

/// The states of the nodes of copies. Err is want of memory.
fn scenarios_of(alloc: Global, copies: &[NetworkCopy]) -> Result<Vec<Scenario>, AllocError>
    ensures { IfOk result (λ v. v.items ≡ map configs_in copies.now) }
{
    let mut scenarios = Vec::with_capacity(alloc, copies.len())?;
    for copy in copies {
        scenarios.push(copy.scenario()?)?;
    }
    Ok(scenarios)
}

/// The scenarios of copying on branch at the network's last tick, in the order of their names: each once, node by node
/// alike to the definition's, with what is known of each node's own condition. One that is left out has a node whose own
/// condition no inputs meet. It counts the events that it runs. Err: a limit of the network was passed, by the prefixes of
/// an event's paths (states) or by the copies at hand (dstates), or memory is wanting.
pub fn explore_cob<L: Ledger>(net: &Net, steps: &mut Steps<L>) -> Result<CobRun, Stop>
    ensures scenarios { IfOk result (λ r. AreScenarios net.now.network r) }
    ensures passed { IfErr result (IsPassed net.now.network) }
{
    net.bounds();
    comes_later(net);
    let alloc = *net.links.allocator();
    let copies = copies_at_end(alloc, net, steps)?;
    let mut scenarios = scenarios_of(alloc, &copies)?;
    sort_by_name(node_count(net), &mut scenarios);
    Ok(CobRun { scenarios })
}
