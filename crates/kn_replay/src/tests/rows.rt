//! Runs of small networks, each with its whole text.

/// Two nodes with a link from node 0 to node 1, and the text of their run. Each instruction is its code, its fields a, b
/// and c, and its fields p and q. Node 0 boots at its first instruction.
pub struct Case {
    pub name: &'static str,
    pub sender: &'static [[u8; 8]],
    pub receiver: &'static [[u8; 8]],
    /// Where boot, recv and timer 0 of node 1 begin, or 255.
    pub handlers: [u8; 3],
    pub delay: u32,
    /// What node 1 may lose and double, and when it may reboot; there are three ticks.
    pub loss: u8,
    pub duplicate: u8,
    pub reboot: u32,
    /// The first inputs of node 1.
    pub words: [u16; 3],
    pub failed: usize,
    pub text: &'static str,
}

const RET: [u8; 8] = [0x23, 0, 0, 0, 0, 0, 0, 0];

const HALT: [u8; 8] = [0x24, 0, 0, 0, 0, 0, 0, 0];

const CONST_0: [u8; 8] = [0x01, 0, 0, 0, 0, 0, 0, 0];

const ASSERT: [u8; 8] = [0x20, 0, 0, 0, 0, 0, 0, 0];

const TIMER_1: [u8; 8] = [0x0b, 0, 0, 0, 0, 1, 0, 0];

const SEND: [u8; 8] = [0x0d, 1, 0, 0, 0, 0, 0, 0];

/// A reboot and then a packet, on which an assertion fails.
const REPLAY: Case = Case {
    name: "a failure behind a reboot",
    sender: &[SEND, RET],
    receiver: &[TIMER_1, RET, CONST_0, ASSERT, RET, HALT],
    handlers: [0, 2, 5],
    delay: 2,
    loss: 0,
    duplicate: 0,
    reboot: 1,
    words: [1, 0, 0],
    failed: 1,
    text: "replay 1 ticks 3 nodes 2
tick 0 node 0 event boot bits -
tick 0 node 1 event boot bits -
tick 1 node 1 event reboot bits 1
tick 2 node 1 event packet 0.0.0 bits 1
node 0 trace - outcome running
node 1 trace 11 outcome assert@3@2
end failed 1
",
};

/// Two packets come in tick 1; node 1 may lose one and double one.
const TWO_PACKETS: Case = Case {
    name: "the first packet is lost, and the second one doubled",
    sender: &[SEND, SEND, RET],
    receiver: &[RET],
    handlers: [255, 0, 255],
    delay: 1,
    loss: 1,
    duplicate: 1,
    reboot: 4000,
    words: [1, 1, 0],
    failed: 0,
    text: "replay 1 ticks 3 nodes 2
tick 0 node 0 event boot bits -
tick 0 node 1 event boot bits -
tick 1 node 1 event packet 0.0.0 bits 1
tick 1 node 1 event packet 0.1.0 bits 1
tick 2 node 1 event packet 0.1.1 bits -
node 0 trace - outcome running
node 1 trace 11 outcome running
end failed 0
",
};

/// In tick 1 a reboot, a packet and a timer are due.
const REBOOT: Case = Case {
    name: "a reboot comes before the packet, and its boot sets the timer again",
    sender: &[SEND, RET],
    receiver: &[TIMER_1, RET, RET, HALT],
    handlers: [0, 2, 3],
    delay: 1,
    loss: 0,
    duplicate: 0,
    reboot: 1,
    words: [1, 0, 0],
    failed: 0,
    text: "replay 1 ticks 3 nodes 2
tick 0 node 0 event boot bits -
tick 0 node 1 event boot bits -
tick 1 node 1 event reboot bits 1
tick 1 node 1 event packet 0.0.0 bits -
tick 2 node 1 event timer 0 bits -
node 0 trace - outcome running
node 1 trace 1 outcome halted
end failed 0
",
};

pub const CASES: [Case; 6] = [
    REPLAY,
    TWO_PACKETS,
    Case {
        name: "the first packet is doubled, and the second one lost",
        words: [0, 1, 1],
        text: "replay 1 ticks 3 nodes 2
tick 0 node 0 event boot bits -
tick 0 node 1 event boot bits -
tick 1 node 1 event packet 0.0.0 bits 01
tick 1 node 1 event packet 0.1.0 bits 1
tick 2 node 1 event packet 0.0.1 bits -
node 0 trace - outcome running
node 1 trace 011 outcome running
end failed 0
",
        ..TWO_PACKETS
    },
    Case {
        name: "the copy of a packet is lost",
        sender: &[SEND, RET],
        words: [0, 1, 1],
        text: "replay 1 ticks 3 nodes 2
tick 0 node 0 event boot bits -
tick 0 node 1 event boot bits -
tick 1 node 1 event packet 0.0.0 bits 01
tick 2 node 1 event packet 0.0.1 bits 1
node 0 trace - outcome running
node 1 trace 011 outcome running
end failed 0
",
        ..TWO_PACKETS
    },
    REBOOT,
    Case {
        name: "no reboot, and so the packet and the timer come in the same tick",
        words: [0, 0, 0],
        text: "replay 1 ticks 3 nodes 2
tick 0 node 0 event boot bits -
tick 0 node 1 event boot bits -
tick 1 node 1 event reboot bits 0
tick 1 node 1 event packet 0.0.0 bits -
tick 1 node 1 event timer 0 bits -
node 0 trace - outcome running
node 1 trace 0 outcome halted
end failed 0
",
        ..REBOOT
    },
];

/// A tree that collects readings: node 0 counts what comes, nodes 1 and 2 pass packets on to it, nodes 3, 4 and 5 read. All
/// packets of tick 2 are lost, so node 0 has counted none in tick 10.
pub const SINK: &[[u8; 8]] = &[
    [0x0b, 0, 0, 0, 0, 10, 0, 0],
    RET,
    [0x04, 1, 0, 0, 0, 0, 0, 0],
    [0x01, 2, 0, 0, 0, 1, 0, 0],
    [0x10, 1, 1, 2, 0, 0, 0, 0],
    [0x05, 1, 0, 0, 0, 0, 0, 0],
    RET,
    [0x04, 1, 0, 0, 0, 0, 0, 0],
    [0x20, 1, 0, 0, 0, 0, 0, 0],
    RET,
];

pub const RELAY: &[[u8; 8]] = &[[0x0f, 0, 0, 0, 0, 0, 0, 0], SEND, RET];

pub const LEAF: &[[u8; 8]] = &[TIMER_1, RET, [0x0a, 0, 0, 0, 0, 8, 0, 0], SEND, RET];

pub const TREE: &str = "replay 1 ticks 12 nodes 6
tick 0 node 0 event boot bits -
tick 0 node 1 event boot bits -
tick 0 node 2 event boot bits -
tick 0 node 3 event boot bits -
tick 0 node 4 event boot bits -
tick 0 node 5 event boot bits -
tick 1 node 3 event timer 0 bits -
tick 1 node 4 event timer 0 bits -
tick 1 node 5 event timer 0 bits -
tick 2 node 0 event packet 5.0.0 bits 1
tick 2 node 1 event packet 3.0.0 bits 1
tick 2 node 2 event packet 4.0.0 bits 1
tick 10 node 0 event timer 0 bits 1
node 0 trace 11 outcome assert@8@10
node 1 trace 1 outcome running
node 2 trace 1 outcome running
node 3 trace - outcome running
node 4 trace - outcome running
node 5 trace - outcome running
end failed 1
";
