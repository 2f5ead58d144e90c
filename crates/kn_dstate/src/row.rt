//! Entries of histories, and rows of a table of histories.

ghost use Rattle.std.specs.Prelude.{◌≡◌, IfOk};

use kn_packet::{Event, Stamp};
use kn_trace::Trace;
use std::alloc::AllocError;

/// One step of a node: an event that it ran, with the bits that it decided, or a packet that it was sent, by its stamp,
/// whose `history` is the number of a history in the same table, and by which copy it is.
#[derive(Debug, Drop)]
pub enum Entry {
    Ran { event: Event, bits: Trace },
    Got { stamp: Stamp, copy: u8 },
}

impl Entry {
    /// An equal entry. Err is want of memory.
    pub(crate) fn copy(&self) -> Result<Entry, AllocError>
        ensures { IfOk result (λ e. e ≡ self.now) }
    {
        match self {
            Entry::Ran { event, bits } => Ok(Entry::Ran {
                event: *event,
                bits: bits.copy()?,
            }),
            Entry::Got { stamp, copy } => Ok(Entry::Got {
                stamp: stamp.copy()?,
                copy: *copy,
            }),
        }
    }
}

/// What a history goes on from: nothing, or the history of an earlier row, with one more entry.
#[derive(Debug, Drop)]
pub(crate) enum Past {
    Nothing,
    After { before: usize, entry: Entry },
}

/// A history of a node, and how many entries it has. Histories that begin alike share their beginning.
#[derive(Debug, Drop)]
pub(crate) struct Row {
    pub(crate) node: u32,
    pub(crate) count: usize,
    pub(crate) past: Past,
}
