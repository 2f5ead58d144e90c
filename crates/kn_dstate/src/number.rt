//! The numbers by which a graph names what it holds.

/// The number of a state. A number is given again only once its state is gone.
#[derive(Clone, Copy, Debug, PartialEq, Eq)]
pub struct StateNo(pub usize);

/// The number of a dstate. A number is given again only once its dstate is gone.
#[derive(Clone, Copy, Debug, PartialEq, Eq)]
pub struct DstateNo(pub usize);

/// The number of a packet, from 0 in the order in which a graph gave them.
#[derive(Clone, Copy, Debug, PartialEq, Eq)]
pub struct PacketNo(pub usize);

/// The number of a history in a graph's table.
#[derive(Clone, Copy, Debug, PartialEq, Eq)]
pub struct HistoryNo(pub usize);
