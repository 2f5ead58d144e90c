//! States as a graph keeps them.

ghost use Rattle.std.specs.Prelude.{◌≡◌, ◌<◌, ◌≤◌, ◌+◌, ◌↔◌, [], ◌∷◌, false, length, IfOk, OnOk, IsTrue};
ghost use Rattle.kn_dstate.specs.Graphs.{Held, first_state, with_pin};
ghost use Rattle.kn_dstate.specs.Places.{is_in};
ghost use Rattle.kn_dstate.specs.Members.{noted, forgot, is_idle, ends_with};

use std::alloc::{AllocError, Global};
use std::marker::Model;

/// A state: its node, the place of its history in the table, whether its number is kept where no dstate has it, and the
/// numbers of the dstates that have it. Contracts see too how many such numbers fit with no further memory.
#[derive(Debug, Drop)]
pub(crate) struct Known {
    pub(crate) node: u32,
    pub(crate) history: usize,
    pub(crate) pinned: bool,
    pub(crate) dstates: Vec<usize>,
}

impl Model for Known {
    ghost use Rattle.std.specs.Prelude.{vec_capacity};
    ghost use Rattle.kn_dstate.specs.Graphs.{Held};

    ghost Value = { Held };

    ghost view = { λ k. record { known = record { node = k.node; history = k.history; pinned = k.pinned }; dstates = k.dstates.items; capacity = vec_capacity k.dstates } };
}

impl Known {
    /// A state that is in no dstate.
    pub(crate) fn new(alloc: Global, node: u32, history: usize) -> Known
        ensures { result ≡ record { known = record { node = node; history = history; pinned = false }; dstates = []; capacity = result.capacity } }
    {
        Known {
            node,
            history,
            pinned: false,
            dstates: Vec::new(alloc),
        }
    }

    /// A node's state in a new graph, which is in dstate 0.
    pub(crate) fn first(alloc: Global, node: u32) -> Result<Known, AllocError>
        ensures { IfOk result (λ k. k ≡ first_state node k.capacity) }
    {
        Ok(Known {
            node,
            history: node as usize,
            pinned: false,
            dstates: Vec::from_slice(alloc, &[0])?,
        })
    }

    /// Is pinned from now on, or is not any more.
    pub(crate) fn set_pinned(&mut self, pinned: bool)
        ensures { self.new ≡ with_pin pinned self.old }
    {
        self.pinned = pinned;
    }

    /// The numbers of the dstates that have it.
    pub(crate) fn dstates(&self) -> &[usize]
        ensures { result.now ≡ self.now.dstates }
    {
        &self.dstates
    }

    /// Whether some dstate has it.
    pub(crate) fn is_placed(&self) -> bool
        ensures { IsTrue result ↔ (0 < length self.now.dstates) }
    {
        !self.dstates.is_empty()
    }
    /// Makes room for the numbers of so many more dstates. Err is want of memory.
    pub(crate) fn reserve(&mut self, more: usize) -> Result<(), AllocError>
        ensures same { self.new ≡ record self.old { capacity = self.new.capacity } }
        ensures grows { self.old.capacity ≤ self.new.capacity }
        ensures room { OnOk result (length self.new.dstates + more ≤ self.new.capacity) }
    {
        self.dstates.reserve(more)
    }

    /// Is in a dstate from now on. The dstate may be the last that it was said to be in; else there is room.
    pub(crate) fn note(&mut self, d: usize)
        requires { ends_with d self.old.dstates ≡ false → length self.old.dstates < self.old.capacity }
        ensures { self.new ≡ noted d self.old }
    {
        if self.ends_with(d) {
            return;
        }
        self.dstates.push_reserved(d);
    }

    /// Whether a dstate is the last that it was said to be in.
    fn ends_with(&self, d: usize) -> bool
        ensures { result ≡ ends_with d self.now.dstates }
    {
        match self.dstates.last() {
            Some(last) => *last == d,
            None => false,
        }
    }

    /// Is not in a dstate any more.
    pub(crate) fn forget(&mut self, d: usize)
        ensures { self.new ≡ forgot d self.old }
    {
        self.dstates.retain(|other| *other != d);
    }

    /// Whether no dstate has it and its number is not kept.
    pub(crate) fn is_idle(&self) -> bool
        ensures { result ≡ is_idle self.now }
    {
        self.dstates.is_empty() && !self.pinned
    }

    /// Whether a dstate has it.
    pub(crate) fn is_within(&self, d: usize) -> bool
        ensures { result ≡ is_in d self.now.dstates }
    {
        for other in &self.dstates {
            if *other == d {
                return true;
            }
        }
        false
    }
}
