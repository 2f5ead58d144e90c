//! Small and far conditions, and limits that are passed or just kept, on small examples.

ghost use Rattle.kn_worked.specs.Limits.{SmallAtBound, LargeBelowBound, FarAtBound, NearAboveBound, PossibleIsLive, LargeIsLive, NeverIsNotLive, PlacesOver, PrefixesOver, PlacesKept, CopiesOver, CopiesKept, RecordsKept, RecordsOver};

/// A condition on 8 bits is small where 256 valuations may be tried, and not where 255 may.
pub fn small()
    ensures at_bound { SmallAtBound }
    ensures below_bound { LargeBelowBound }
{}

/// That an input of 8 bits is not below 200 is far for 200 valuations, and not for 201.
pub fn far()
    ensures at_bound { FarAtBound }
    ensures above_bound { NearAboveBound }
{}

/// A condition is live where it can be met or is not small, and not where neither is so.
pub fn live()
    ensures possible { PossibleIsLive }
    ensures large { LargeIsLive }
    ensures never { NeverIsNotLive }
{}

/// A node that branches once passes a limit of one state, and keeps a limit of two.
pub fn states_limit()
    ensures places { PlacesOver }
    ensures prefixes { PrefixesOver }
    ensures kept { PlacesKept }
{}

/// Two nodes that branch once are four copies: more than three, and not more than four.
pub fn copies_limit()
    ensures passed { CopiesOver }
    ensures kept { CopiesKept }
{}

/// Scenarios that sent the same count as one dstate, and those that did not as two.
pub fn records_limit()
    ensures kept { RecordsKept }
    ensures passed { RecordsOver }
{}
