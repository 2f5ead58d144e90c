//! Worked networks with packets, timers and links, each by computation.

ghost use Rattle.kn_worked.specs.Packets.{AgainOutcomes, AgainRun, AgainRunOutcomes, BcastEvents, BcastQueues, BcastSent, BcastTooMany, FailsAfterOutcomes, FailsAfterQueues, InputTooMany, LastBcast, LastInput, LastSend, LowerTimerFirst, MaybeSendInputs, MaybeSendOutcomes, MissedFirstQueues, MissedFirstSent, NoLinkOutcomes, NoLinkQueues, NoLinkSent, NoPacketRead, NoSendTooMany, PacketFirstClashes, PacketFirstOutcomes, PacketFirstRun, PacketRead, SendBothInputs, SendBothNames, SendBothOutcomes, SendBothOwn, SendTooMany, TimerCancelled, TimerEarlier, TimerLater, TimerLeft, TimerSet};

/// A packet that is sent on one side alone: all nodes run on, and the inputs of the sending side are forced at the sender and at the receiver.
pub fn maybe_send_ends()
    ensures outcomes { MaybeSendOutcomes }
    ensures inputs { MaybeSendInputs }
{}

/// One send on both sides of a branch: two scenarios, and the receiver has the guard of each side.
pub fn send_both()
    ensures names { SendBothNames }
    ensures outcomes { SendBothOutcomes }
    ensures own { SendBothOwn }
    ensures inputs { SendBothInputs }
{}

/// A packet comes before a timer of the same tick: the side on which the timer's assertion fails is impossible.
pub fn packet_first()
    ensures outcomes { PacketFirstOutcomes }
    ensures clashes { PacketFirstClashes }
    ensures run { PacketFirstRun }
{}

/// A send on a link that the node does not have sends nothing, and the node goes on.
pub fn no_link()
    ensures sent { NoLinkSent }
    ensures queues { NoLinkQueues }
    ensures outcomes { NoLinkOutcomes }
{}

/// Such a send takes no sequence number; the links of a node are numbered without those of other nodes.
pub fn missed_first()
    ensures sent { MissedFirstSent }
    ensures queues { MissedFirstQueues }
{}

/// What a node sent before it fails stays sent.
pub fn fails_after()
    ensures outcomes { FailsAfterOutcomes }
    ensures queues { FailsAfterQueues }
{}

/// A packet for each link of the node in the file's order; each comes after its link's delay.
pub fn bcast()
    ensures sent { BcastSent }
    ensures queues { BcastQueues }
    ensures events { BcastEvents }
{}

/// What a handler reads of its packet, its node and its tick.
pub fn packet_read()
    ensures within { PacketRead }
    ensures outside { NoPacketRead }
{}

/// A timer comes once in the tick that it is set to, and is then unset.
pub fn timer_set()
    ensures events { TimerSet }
    ensures timers { TimerLeft }
{}

/// A timer that is set again comes in the later setting's tick alone.
pub fn timer_replaced()
    ensures earlier { TimerEarlier }
    ensures later { TimerLater }
{}

/// A timer that is cancelled does not come.
pub fn timer_cancelled()
    ensures { TimerCancelled }
{}

/// Of two timers in one tick the lower one comes first.
pub fn lower_timer_first()
    ensures { LowerTimerFirst }
{}

/// A timer that another timer's handler sets again, with an assertion on the tick in which it comes.
pub fn timer_again()
    ensures run { AgainRun }
    ensures run_outcomes { AgainRunOutcomes }
    ensures outcomes { AgainOutcomes }
{}

/// A node makes 65,535 inputs, and fails at one more.
pub fn input_counts()
    ensures last { LastInput }
    ensures too_many { InputTooMany }
{}

/// A node sends 65,535 packets, and fails at a send that would send one more; a send on a link that is not there sends none.
pub fn send_counts()
    ensures last { LastSend }
    ensures too_many { SendTooMany }
    ensures none { NoSendTooMany }
{}

/// A broadcast that would bring the packets sent above 65,535 fails and sends none.
pub fn bcast_counts()
    ensures last { LastBcast }
    ensures too_many { BcastTooMany }
{}
