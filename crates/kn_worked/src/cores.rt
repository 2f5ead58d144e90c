//! What a core stands for, on small cores.

ghost use Rattle.kn_worked.specs.Cores.{OpeningStands, Crossed, Unsent, Doubled, Unplaced, NotLeast, Marked, NotDrawn, StoppedEarly, StoppedElsewhere, LeftOut, SentStands, OneForBoth, NotInInbox, OtherEvent};

/// The opening core of two nodes that branch once stands.
pub fn opening_stands()
    ensures { OpeningStands }
{}

/// A core with a packet in an inbox and an open ticket stands; with one dstate, an empty inbox or another event it does not.
pub fn sent_stands()
    ensures stands { SentStands }
    ensures one_for_both { OneForBoth }
    ensures not_in_inbox { NotInInbox }
    ensures other_event { OtherEvent }
{}

/// A core does not stand where a possible scenario is left out.
pub fn left_out()
    ensures { LeftOut }
{}

/// Nor where two states have one node and history.
pub fn doubled()
    ensures { Doubled }
{}

/// Nor where a state has inputs that are not the least, or a mark without a far condition.
pub fn standing()
    ensures not_least { NotLeast }
    ensures marked { Marked }
{}

/// Nor where a column holds a state of another node, an inbox a packet that was not sent, or no dstate a state that is not held.
pub fn columns()
    ensures crossed { Crossed }
    ensures unsent { Unsent }
    ensures unplaced { Unplaced }
{}

/// Nor where a serial was not drawn, or the limit that stopped it was kept, or is said of another tick.
pub fn counts()
    ensures not_drawn { NotDrawn }
    ensures stopped { StoppedEarly }
    ensures elsewhere { StoppedElsewhere }
{}
