//! Worked networks, each by computation.

ghost use Rattle.kn_worked.specs.Networks.{TwoInputs, MaybeSend, MaybeSendOwn, SendFirst, LostOrTwice, Reboots, PacketBeforeTimer, Endless, OneTooFew, Enough};

/// One node that branches on two inputs has four scenarios.
pub fn two_inputs()
    ensures { TwoInputs }
{}

/// A packet that is sent on one side alone: two scenarios, and where it was sent its guard is in the receiver's own condition.
pub fn maybe_send()
    ensures names { MaybeSend }
    ensures own { MaybeSendOwn }
{}

/// A packet that is sent before a branch goes to both sides.
pub fn send_first()
    ensures { SendFirst }
{}

/// A packet is lost, comes once, or comes twice.
pub fn lost_or_twice()
    ensures { LostOrTwice }
{}

/// A node that may reboot: its names and outcomes.
pub fn reboots()
    ensures { Reboots }
{}

/// A packet comes before a timer of the same tick.
pub fn packet_before_timer()
    ensures { PacketBeforeTimer }
{}

/// A loop fails by fuel.
pub fn endless()
    ensures { Endless }
{}

/// An event that would run one instruction more than the fuel fails.
pub fn one_too_few()
    ensures { OneTooFew }
{}

/// An event that runs as many instructions as the fuel does not fail.
pub fn enough()
    ensures { Enough }
{}
