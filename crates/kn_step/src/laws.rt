//! What callers need to know of event runs in a proof.

ghost use Rattle.kn_step.specs.Laws.{OverMeans};

/// That the bits of an event's paths, where there are too many, are more than the limit of states of live prefixes.
pub fn over_means()
    ensures { OverMeans }
{}
