//! The report of the least network.

ghost use Rattle.kn_worked.specs.Report.{LeastGiven};

/// The report of one node that halts is given for its network.
pub fn least_given()
    ensures { LeastGiven }
{}
