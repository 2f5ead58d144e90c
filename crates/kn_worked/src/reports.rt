//! What a report says, on a node that fails where its input is not 0, on two nodes that branch, and on one that fails either way.

ghost use Rattle.kn_worked.specs.Reports.{ReachedGiven, OpenGiven, OpenNotGiven, UndecidedNotGiven, NowhereNotGiven, StateNotLeast, FailureNotLeast, NoFailureLine, NowhereGiven, NowhereNotOpen, FirstPickReached, LaterPickNotGiven, SharpHalves, NotSharpHalves};

/// A failure is reached on its least inputs, and on no others, and not left out.
pub fn reached()
    ensures given { ReachedGiven }
    ensures state_not_least { StateNotLeast }
    ensures failure_not_least { FailureNotLeast }
    ensures no_line { NoFailureLine }
{}

/// A state and its failure are open where one valuation may be tried, and not where two may.
pub fn left_open()
    ensures given { OpenGiven }
    ensures state { OpenNotGiven }
    ensures failure { UndecidedNotGiven }
{}

/// A failure is nowhere where no inputs meet its scenario, though they meet each node, and not where some do.
pub fn nowhere()
    ensures given { NowhereGiven }
    ensures not_open { NowhereNotOpen }
    ensures met { NowhereNotGiven }
{}

/// Of two picks of a dstate that can reach a failure, it is reached by the one whose inputs come first.
pub fn two_picks()
    ensures first { FirstPickReached }
    ensures later { LaterPickNotGiven }
{}

/// One dstate of two columns is sharp, and four dstates that sent the same are not.
pub fn sharp()
    ensures one { SharpHalves }
    ensures four { NotSharpHalves }
{}
