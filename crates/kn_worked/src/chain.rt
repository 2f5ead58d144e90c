//! The generated chain.

ghost use Rattle.kn_worked.specs.Chain.{FourTicks, EightTicksRun};

/// How many members the chain of three nodes has before tick four.
pub fn four_ticks()
    ensures { FourTicks }
{}

/// The names of the chain's run on inputs that are all 0, at tick eight.
pub fn eight_ticks_run()
    ensures { EightTicksRun }
{}
