//! The other definitions on worked networks, each by computation.

ghost use Rattle.kn_worked.specs.Parts.{RebootRun, LossyCovered, RebootCovered, LossyReplays, MaybeReplays, MaybePicked, MaybeBits};
ghost use Rattle.kn_worked.specs.Tree.{TreeMembers};

/// The run of the rebooting network on an input.
pub fn reboot_run()
    ensures { RebootRun }
{}

/// The members that hold under inputs, read under them, are the run.
pub fn covered()
    ensures lossy { LossyCovered }
    ensures reboot { RebootCovered }
{}

/// Replaying a node's history gives the node.
pub fn replays()
    ensures lossy { LossyReplays }
    ensures maybe { MaybeReplays }
{}

/// The scenario of a dstate's pick is the member that it stands for.
pub fn picked()
    ensures { MaybePicked }
{}

/// The bits of inputs that conditions read, counted.
pub fn bits()
    ensures { MaybeBits }
{}

/// How many members the collection tree has.
pub fn tree_members()
    ensures { TreeMembers }
{}
