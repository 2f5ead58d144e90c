//! Worked networks of one tick, each by computation.

ghost use Rattle.kn_worked.specs.OneTick.{HalvesNames, HalvesOutcomes, HalvesInputs, HalvesJoined, NoTick, NoTickOutcomes, AssertedNames, AssertedOutcomes, AssertedInputs, ConstantOutcomes, ConstantClashes, TwiceNames, TwiceClashes, OneFailsNames, OneFailsOutcomes};

/// Two nodes that each take one bit and branch on it have four scenarios.
pub fn halves()
    ensures names { HalvesNames }
    ensures outcomes { HalvesOutcomes }
    ensures inputs { HalvesInputs }
    ensures joined { HalvesJoined }
{}

/// Before the first tick there is the opening scenario alone.
pub fn no_tick()
    ensures names { NoTick }
    ensures outcomes { NoTickOutcomes }
{}

/// An assertion on an input has a side that passes and a side that fails.
pub fn asserted()
    ensures names { AssertedNames }
    ensures outcomes { AssertedOutcomes }
    ensures inputs { AssertedInputs }
{}

/// An assertion on the constant 0 fails: the own condition of the side that passes clashes.
pub fn constant()
    ensures outcomes { ConstantOutcomes }
    ensures clashes { ConstantClashes }
{}

/// Of a branch taken twice on one input, the two sides that contradict themselves clash.
pub fn twice()
    ensures names { TwiceNames }
    ensures clashes { TwiceClashes }
{}

/// A node that fails does not stop the others.
pub fn one_fails()
    ensures names { OneFailsNames }
    ensures outcomes { OneFailsOutcomes }
{}
