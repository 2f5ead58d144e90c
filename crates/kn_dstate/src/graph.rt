//! Graphs.

ghost use Rattle.std.specs.Prelude.{◌≡◌, ◌<◌, ◌≤◌, ◌^◌, ◌↔◌, ◌++◌, [], ◌∷◌, ℕ, true, false, length, map, slice_get, Some, None, IfOk, OnOk, OnErr, IsTrue, MatchOption};
ghost use Rattle.kn_packet.specs.Histories.{history_cmp};
ghost use Rattle.kn_dstate.specs.Histories.{history_in, IsHistoryOf, AllNameBelow};
ghost use Rattle.kn_dstate.specs.Places.{column, inbox, holds, is_in, others, choices, AreDistinct};
ghost use Rattle.std.specs.List.{AllByRecursion};
ghost use Rattle.kn_dstate.specs.Changes.{IsReplaced};
ghost use Rattle.kn_dstate.specs.Graphs.{HasState, HasDstate, state, dstate, with_state, IsPlace, IsPlaced, IsTarget, IsOpened, HasNew, Keeps, IsLowest, NoneFrom};

use crate::exchange::{put_all, take_all};
use crate::known::Known;
use crate::members::reserve_all;
use crate::number::{DstateNo, HistoryNo, PacketNo, StateNo};
use crate::opening::{open_dstates, open_states};
use crate::order::cmp_rows;
use crate::place::{Place, gather, without};
use crate::row::{Entry, Row};
use crate::table::{extend, open_rows};
use slab::Slab;
use std::alloc::{AllocError, Global};
use std::cmp::Ordering;
use std::marker::Model;

/// Dstates over the states of so many nodes, with a table of histories, and the numbers of packets. Contracts see each
/// dstate, state, history and packet under its number.
#[derive(Drop)]
pub struct Graph {
    nodes: u32,
    dstates: Slab<Place>,
    states: Slab<Known>,
    rows: Vec<Row>,
    packets: Vec<u32>,
}

impl Model for Graph {
    ghost use Rattle.std.specs.Coded.{codes};
    ghost use Rattle.kn_dstate.specs.HistoryCode.{history_code};
    ghost use Rattle.kn_dstate.specs.Histories.{told};
    ghost use Rattle.kn_dstate.specs.Graphs.{GraphView, IsGraph, shown};

    ghost Value = { GraphView };

    ghost coded = { Prim.hlevel (codes, history_code) };

    ghost view = { λ g. record { nodes = g.nodes; dstates = g.dstates.slots; states = shown g.states.slots; histories = told g.rows.items; packets = g.packets.items } };

    ghost invariant = { λ g. IsGraph g.nodes g.dstates.slots g.states.slots g.rows.items g.packets.items };
}

impl Graph {
    /// A graph of so many nodes with one dstate, in which state n is the one of node n, with empty inboxes. History n is
    /// the empty one of node n. Err is want of memory.
    pub fn open(alloc: Global, nodes: u32) -> Result<Graph, AllocError>
        ensures { IfOk result (λ g. IsOpened nodes g) }
    {
        Ok(Graph {
            nodes,
            dstates: open_dstates(alloc, nodes as usize)?,
            states: open_states(alloc, nodes)?,
            rows: open_rows(alloc, nodes)?,
            packets: Vec::new(alloc),
        })
    }

    /// A new state of a node, in no dstate yet. Its history is the parent's and then the entries, which share the
    /// parent's beginning; their stamps name histories of this graph. Err is want of memory.
    pub fn new_state(
        &mut self,
        node: u32,
        parent: HistoryNo,
        entries: &[Entry],
    ) -> Result<StateNo, AllocError>
        requires node { node < self.old.nodes }
        requires parent { IsHistoryOf self.old.histories node parent.0 }
        requires stamps { AllNameBelow (length self.old.histories) entries.now }
        ensures ok { IfOk result (λ s. HasNew self.old self.new s.0 node parent.0 entries.now) }
        ensures err { OnErr result (Keeps self.old self.new) }
    {
        let alloc = *self.rows.allocator();
        self.states.reserve(1)?;
        let history = extend(&mut self.rows, node, parent.0, entries)?;
        let key = self
            .states
            .insert_reserved(Known::new(alloc, node, history));
        Ok(StateNo(key))
    }

    /// The states of a node in a dstate.
    pub fn column(&self, d: DstateNo, node: u32) -> &[StateNo]
        requires dstate { HasDstate self.now d.0 }
        requires node { node < self.now.nodes }
        ensures { map (λ s. s.0) result.now ≡ column (dstate self.now d.0) node }
    {
        self.dstates[d.0].column(node as usize)
    }

    /// The packets that a node was sent in a dstate, rising.
    pub fn inbox(&self, d: DstateNo, node: u32) -> &[PacketNo]
        requires dstate { HasDstate self.now d.0 }
        requires node { node < self.now.nodes }
        ensures { map (λ k. k.0) result.now ≡ inbox (dstate self.now d.0) node }
    {
        self.dstates[d.0].inbox(node as usize)
    }

    /// The node of a state.
    pub fn node(&self, s: StateNo) -> u32
        requires { HasState self.now s.0 }
        ensures { result ≡ (state self.now s.0).node }
    {
        self.states[s.0].node
    }

    /// The number of a state's history.
    pub fn history(&self, s: StateNo) -> HistoryNo
        requires { HasState self.now s.0 }
        ensures { result.0 ≡ (state self.now s.0).history }
    {
        HistoryNo(self.states[s.0].history)
    }

    /// Whether some dstate has a state.
    pub fn is_placed(&self, s: StateNo) -> bool
        requires { HasState self.now s.0 }
        ensures { IsTrue result ↔ IsPlaced self.now s.0 }
    {
        self.states[s.0].is_placed()
    }

    /// The other states of a state's column in a dstate that has it. Err is want of memory.
    pub fn rivals(&self, s: StateNo, d: DstateNo) -> Result<Vec<StateNo>, AllocError>
        requires state { HasState self.now s.0 }
        requires dstate { HasDstate self.now d.0 }
        requires held { holds (state self.now s.0).node s.0 (dstate self.now d.0) ≡ true }
        ensures { IfOk result (λ v. map (λ x. x.0) v.items ≡ others s.0 (column (dstate self.now d.0) (state self.now s.0).node)) }
    {
        let node = self.states[s.0].node as usize;
        without(*self.rows.allocator(), self.dstates[d.0].column(node), s)
    }

    /// The states of a node in the dstates of a state, each once. Err is want of memory.
    pub fn targets(&self, s: StateNo, node: u32) -> Result<Vec<StateNo>, AllocError>
        requires state { HasState self.now s.0 }
        requires node { node < self.now.nodes }
        ensures once { IfOk result (λ v. AreDistinct (map (λ x. x.0) v.items)) }
        ensures each { IfOk result (λ v. (x : ℕ) → (is_in x (map (λ x. x.0) v.items) ≡ true) ↔ IsTarget self.now s.0 node x) }
    {
        let out = gather(
            *self.rows.allocator(),
            &self.dstates,
            self.states[s.0].dstates(),
            node as usize,
        )?;
        Ok(out)
    }

    /// Keeps the number of a state also where no dstate has it, until it is unpinned. It takes no memory.
    pub fn pin(&mut self, s: StateNo)
        requires { HasState self.old s.0 }
        ensures { self.new ≡ with_state self.old s.0 (Some (record (state self.old s.0) { pinned = true })) }
    {
        self.states[s.0].set_pinned(true);
    }

    /// Keeps the number of a state only while some dstate has it: a state that is in none goes. It takes no memory.
    pub fn unpin(&mut self, s: StateNo)
        requires { HasState self.old s.0 }
        ensures placed { IsPlaced self.old s.0 → self.new ≡ with_state self.old s.0 (Some (record (state self.old s.0) { pinned = false })) }
        ensures gone { (IsPlaced self.old s.0 → ⊥) → self.new ≡ with_state self.old s.0 None }
    {
        if self.states[s.0].is_placed() {
            self.states[s.0].set_pinned(false);
        } else {
            drop(self.states.remove(s.0));
        }
    }

    /// How many picks a dstate has: the product of how many states its columns have. None exactly where that is past the
    /// greatest u128.
    pub fn pick_count(&self, d: DstateNo) -> Option<u128>
        requires { HasDstate self.now d.0 }
        ensures { MatchOption result (2 ^ 128 ≤ choices (dstate self.now d.0).columns) (λ n. n ≡ choices (dstate self.now d.0).columns) }
    {
        self.dstates[d.0].pick_count()
    }

    /// The lowest state whose number is at least `least`. None exactly where there is none.
    pub fn state_from(&self, least: usize) -> Option<StateNo>
        ensures { MatchOption result (NoneFrom self.now.states least) (λ s. IsLowest self.now.states least s.0) }
    {
        match lowest_state(&self.states, least) {
            Some(key) => Some(StateNo(key)),
            None => None,
        }
    }

    /// The lowest dstate whose number is at least `least`. None exactly where there is none.
    pub fn dstate_from(&self, least: usize) -> Option<DstateNo>
        ensures { MatchOption result (NoneFrom self.now.dstates least) (λ d. IsLowest self.now.dstates least d.0) }
    {
        match lowest_dstate(&self.dstates, least) {
            Some(key) => Some(DstateNo(key)),
            None => None,
        }
    }

    /// The order of two histories: entry by entry, a prefix first; what ran comes before what was got; events by kind
    /// and number, then bits; packets by sender, sequence number and copy, then the sender's history, then bits. It takes
    /// no memory, and looks at no entry that both share.
    pub fn cmp_history(&self, a: HistoryNo, b: HistoryNo) -> Ordering
        requires a { a.0 < length self.now.histories }
        requires b { b.0 < length self.now.histories }
        ensures { result ≡ history_cmp (history_in self.now.histories a.0) (history_in self.now.histories b.0) }
    {
        cmp_rows(&self.rows, a.0, b.0)
    }

    /// Some dstates go, and others come. States of those that went that are then in no dstate go too, unless their
    /// numbers are kept. Err is want of memory.
    pub fn replace(&mut self, old: &[DstateNo], new: Vec<Place>) -> Result<(), AllocError>
        requires there { (d : ℕ) → is_in d (map (λ x. x.0) old.now) ≡ true → HasDstate self.old d }
        requires once { AreDistinct (map (λ x. x.0) old.now) }
        requires fits { AllByRecursion (IsPlace self.old.nodes self.old.states self.old.packets) new.items }
        ensures ok { OnOk result (IsReplaced self.old self.new (map (λ x. x.0) old.now) new.items) }
        ensures err { OnErr result (self.new ≡ self.old) }
    {
        self.dstates.reserve(new.len())?;
        reserve_all(&mut self.states, &new, new.len())?;
        put_all(&mut self.dstates, &mut self.states, new);
        take_all(&mut self.dstates, &mut self.states, old);
        Ok(())
    }

    /// A new number, for a packet to a node. Err is want of memory.
    pub fn new_packet(&mut self, to: u32) -> Result<PacketNo, AllocError>
        requires { to < self.old.nodes }
        ensures number { IfOk result (λ p. p.0 ≡ length self.old.packets) }
        ensures ok { OnOk result (self.new ≡ record self.old { packets = self.old.packets ++ to ∷ [] }) }
        ensures err { OnErr result (self.new ≡ self.old) }
    {
        let number = self.packets.len();
        self.packets.push(to)?;
        Ok(PacketNo(number))
    }

    /// The node that a packet is for. It takes no memory.
    pub fn destination(&self, p: PacketNo) -> u32
        requires { p.0 < length self.now.packets }
        ensures { slice_get self.now.packets p.0 ≡ Some result }
    {
        self.packets[p.0]
    }
}

/// The lowest key from `least` on that has a state.
fn lowest_state(states: &Slab<Known>, least: usize) -> Option<usize>
    ensures { MatchOption result (NoneFrom states.now.slots least) (λ k. IsLowest states.now.slots least k) }
{
    for key in least..states.capacity() {
        if states.contains(key) {
            return Some(key);
        }
    }
    None
}

/// The lowest key from `least` on that has a dstate.
fn lowest_dstate(dstates: &Slab<Place>, least: usize) -> Option<usize>
    ensures { MatchOption result (NoneFrom dstates.now.slots least) (λ k. IsLowest dstates.now.slots least k) }
{
    for key in least..dstates.capacity() {
        if dstates.contains(key) {
            return Some(key);
        }
    }
    None
}
