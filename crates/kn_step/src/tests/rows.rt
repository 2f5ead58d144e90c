//! What programs do, worked out by hand.

/// How a node may fail: how many losses and duplications are left, whether it may reboot in tick 1, and which copy of a
/// packet waits.
#[derive(Clone, Copy)]
pub struct Failing {
    pub losses: u8,
    pub duplications: u8,
    pub reboots: bool,
    pub copy: u8,
}

/// It does not.
const NEVER: Failing = Failing {
    losses: 0,
    duplications: 0,
    reboots: false,
    copy: 0,
};

/// How node 1 stands when an event comes: in which tick, whether a packet waits for it, what timer 3 is set to, how many
/// inputs it made and packets it sent before, and how it may fail.
#[derive(Drop)]
pub struct Start {
    pub tick: u32,
    pub mail: bool,
    pub timer: Option<u32>,
    pub made: u32,
    pub sent: u32,
    pub failing: Failing,
}

/// Before its boot.
pub const BOOT: Start = Start {
    tick: 0,
    mail: false,
    timer: None,
    made: 0,
    sent: 0,
    failing: NEVER,
};

/// A packet waits for it.
const MAIL: Start = Start {
    tick: 1,
    mail: true,
    timer: None,
    made: 0,
    sent: 0,
    failing: NEVER,
};

/// A timer is set to this tick.
const TIMER: Start = Start {
    tick: 1,
    mail: false,
    timer: Some(1),
    made: 0,
    sent: 0,
    failing: NEVER,
};

/// A packet waits for it, and a timer is set to this tick.
const BOTH: Start = Start {
    tick: 1,
    mail: true,
    timer: Some(1),
    made: 0,
    sent: 0,
    failing: NEVER,
};

/// Before its boot, with one input left to make.
const MADE_ALL_BUT_ONE: Start = Start {
    tick: 0,
    mail: false,
    timer: None,
    made: 65534,
    sent: 0,
    failing: NEVER,
};

/// Before its boot, with two packets left to send.
const SENT_ALL_BUT_TWO: Start = Start {
    tick: 0,
    mail: false,
    timer: None,
    made: 0,
    sent: 65533,
    failing: NEVER,
};

/// A row: its instructions as text and as code, how the node stands, how many instructions may run, where handlers begin (0
/// at the first instruction, 255 where there are none), and what its paths are: of each its bits, its outcome, register 0,
/// the timers that are set, and what is sent (sequence number, receiver, arrival, literals of the guard, words), all on
/// the least inputs.
pub struct Row {
    pub name: &'static str,
    pub instrs: &'static [[u8; 8]],
    pub start: Start,
    pub fuel: u32,
    pub entry: u8,
    pub paths: &'static str,
}

/// An operator by its code, two words, and the word that it makes of them.
pub struct Case {
    pub name: &'static str,
    pub code: u8,
    pub x: u16,
    pub y: u16,
    pub word: u16,
}

/// Each operator on words, at its edges.
pub const CASES: [Case; 22] = [
    Case {
        name: "add 65535, 2",
        code: 0x10,
        x: 65535,
        y: 2,
        word: 1,
    },
    Case {
        name: "sub 2, 3",
        code: 0x11,
        x: 2,
        y: 3,
        word: 65535,
    },
    Case {
        name: "mul 300, 300",
        code: 0x12,
        x: 300,
        y: 300,
        word: 24464,
    },
    Case {
        name: "and 65280, 4080",
        code: 0x13,
        x: 65280,
        y: 4080,
        word: 3840,
    },
    Case {
        name: "or 65280, 4080",
        code: 0x14,
        x: 65280,
        y: 4080,
        word: 65520,
    },
    Case {
        name: "xor 65280, 4080",
        code: 0x15,
        x: 65280,
        y: 4080,
        word: 61680,
    },
    Case {
        name: "shl 3, 15",
        code: 0x16,
        x: 3,
        y: 15,
        word: 32768,
    },
    Case {
        name: "shl 1, 16",
        code: 0x16,
        x: 1,
        y: 16,
        word: 0,
    },
    Case {
        name: "shr 32768, 15",
        code: 0x17,
        x: 32768,
        y: 15,
        word: 1,
    },
    Case {
        name: "shr 65535, 16",
        code: 0x17,
        x: 65535,
        y: 16,
        word: 0,
    },
    Case {
        name: "sar 32768, 1",
        code: 0x18,
        x: 32768,
        y: 1,
        word: 49152,
    },
    Case {
        name: "sar 32768, 65535",
        code: 0x18,
        x: 32768,
        y: 65535,
        word: 65535,
    },
    Case {
        name: "sar 32767, 16",
        code: 0x18,
        x: 32767,
        y: 16,
        word: 0,
    },
    Case {
        name: "udiv 65535, 256",
        code: 0x19,
        x: 65535,
        y: 256,
        word: 255,
    },
    Case {
        name: "udiv 3, 0",
        code: 0x19,
        x: 3,
        y: 0,
        word: 65535,
    },
    Case {
        name: "urem 1000, 7",
        code: 0x1a,
        x: 1000,
        y: 7,
        word: 6,
    },
    Case {
        name: "urem 3, 0",
        code: 0x1a,
        x: 3,
        y: 0,
        word: 3,
    },
    Case {
        name: "eq 5, 5",
        code: 0x1b,
        x: 5,
        y: 5,
        word: 1,
    },
    Case {
        name: "eq 5, 6",
        code: 0x1b,
        x: 5,
        y: 6,
        word: 0,
    },
    Case {
        name: "ult 1, 65535",
        code: 0x1c,
        x: 1,
        y: 65535,
        word: 1,
    },
    Case {
        name: "slt 65535, 0",
        code: 0x1d,
        x: 65535,
        y: 0,
        word: 1,
    },
    Case {
        name: "slt 1, 65535",
        code: 0x1d,
        x: 1,
        y: 65535,
        word: 0,
    },
];

/// Each other instruction on words.
pub const ROWS: [Row; 35] = [
    Row {
        name: "const r0, 513; ret",
        instrs: &[[0x01, 0, 0, 0, 2, 1, 0, 0], [0x23, 0, 0, 0, 0, 0, 0, 0]],
        start: BOOT,
        fuel: 512,
        entry: 0,
        paths: "- running 513;",
    },
    Row {
        name: "const r1, 513; mov r0, r1; ret",
        instrs: &[
            [0x01, 1, 0, 0, 2, 1, 0, 0],
            [0x02, 0, 1, 0, 0, 0, 0, 0],
            [0x23, 0, 0, 0, 0, 0, 0, 0],
        ],
        start: BOOT,
        fuel: 512,
        entry: 0,
        paths: "- running 513;",
    },
    Row {
        name: "const r1, 255; not r0, r1; ret",
        instrs: &[
            [0x01, 1, 0, 0, 0, 255, 0, 0],
            [0x03, 0, 1, 0, 0, 0, 0, 0],
            [0x23, 0, 0, 0, 0, 0, 0, 0],
        ],
        start: BOOT,
        fuel: 512,
        entry: 0,
        paths: "- running 65280;",
    },
    Row {
        name: "const r1, 9; st 63, r1; ld r0, 63; ret",
        instrs: &[
            [0x01, 1, 0, 0, 0, 9, 0, 0],
            [0x05, 1, 0, 0, 0, 63, 0, 0],
            [0x04, 0, 0, 0, 0, 63, 0, 0],
            [0x23, 0, 0, 0, 0, 0, 0, 0],
        ],
        start: BOOT,
        fuel: 512,
        entry: 0,
        paths: "- running 9;",
    },
    Row {
        name: "const r1, 9; st 63, r1; const r2, 2; ldx r0, r2, 61, 3; ret",
        instrs: &[
            [0x01, 1, 0, 0, 0, 9, 0, 0],
            [0x05, 1, 0, 0, 0, 63, 0, 0],
            [0x01, 2, 0, 0, 0, 2, 0, 0],
            [0x06, 0, 2, 0, 0, 61, 0, 3],
            [0x23, 0, 0, 0, 0, 0, 0, 0],
        ],
        start: BOOT,
        fuel: 512,
        entry: 0,
        paths: "0 running 9;",
    },
    Row {
        name: "const r2, 3; ldx r0, r2, 61, 3; ret",
        instrs: &[
            [0x01, 2, 0, 0, 0, 3, 0, 0],
            [0x06, 0, 2, 0, 0, 61, 0, 3],
            [0x23, 0, 0, 0, 0, 0, 0, 0],
        ],
        start: BOOT,
        fuel: 512,
        entry: 0,
        paths: "1 bounds@1@0 0;",
    },
    Row {
        name: "const r1, 15; const r3, 8; stx r3, r1, 48, 16; ld r0, 63; ret",
        instrs: &[
            [0x01, 1, 0, 0, 0, 15, 0, 0],
            [0x01, 3, 0, 0, 0, 8, 0, 0],
            [0x07, 3, 1, 0, 0, 48, 0, 16],
            [0x04, 0, 0, 0, 0, 63, 0, 0],
            [0x23, 0, 0, 0, 0, 0, 0, 0],
        ],
        start: BOOT,
        fuel: 512,
        entry: 0,
        paths: "0 running 8;",
    },
    Row {
        name: "const r1, 16; stx r3, r1, 48, 16; ret",
        instrs: &[
            [0x01, 1, 0, 0, 0, 16, 0, 0],
            [0x07, 3, 1, 0, 0, 48, 0, 16],
            [0x23, 0, 0, 0, 0, 0, 0, 0],
        ],
        start: BOOT,
        fuel: 512,
        entry: 0,
        paths: "1 bounds@1@0 0;",
    },
    Row {
        name: "const r0, 1; jmp 3; const r0, 2; ret",
        instrs: &[
            [0x01, 0, 0, 0, 0, 1, 0, 0],
            [0x08, 0, 0, 0, 0, 3, 0, 0],
            [0x01, 0, 0, 0, 0, 2, 0, 0],
            [0x23, 0, 0, 0, 0, 0, 0, 0],
        ],
        start: BOOT,
        fuel: 512,
        entry: 0,
        paths: "- running 1;",
    },
    Row {
        name: "const r0, 5; brz r0, 3; halt; ret",
        instrs: &[
            [0x01, 0, 0, 0, 0, 5, 0, 0],
            [0x09, 0, 0, 0, 0, 3, 0, 0],
            [0x24, 0, 0, 0, 0, 0, 0, 0],
            [0x23, 0, 0, 0, 0, 0, 0, 0],
        ],
        start: BOOT,
        fuel: 512,
        entry: 0,
        paths: "0 halted 5;",
    },
    Row {
        name: "brz r0, 2; halt; ret",
        instrs: &[
            [0x09, 0, 0, 0, 0, 2, 0, 0],
            [0x24, 0, 0, 0, 0, 0, 0, 0],
            [0x23, 0, 0, 0, 0, 0, 0, 0],
        ],
        start: BOOT,
        fuel: 512,
        entry: 0,
        paths: "1 running 0;",
    },
    Row {
        name: "timer 2, 5; timer 7, 9; timer 2, 65535; ret",
        instrs: &[
            [0x0b, 2, 0, 0, 0, 5, 0, 0],
            [0x0b, 7, 0, 0, 0, 9, 0, 0],
            [0x0b, 2, 0, 0, 255, 255, 0, 0],
            [0x23, 0, 0, 0, 0, 0, 0, 0],
        ],
        start: BOOT,
        fuel: 512,
        entry: 0,
        paths: "- running 0 t2@65535 t7@9;",
    },
    Row {
        name: "timer 0, 5; timer 3, 6; cancel 0; ret",
        instrs: &[
            [0x0b, 0, 0, 0, 0, 5, 0, 0],
            [0x0b, 3, 0, 0, 0, 6, 0, 0],
            [0x0c, 0, 0, 0, 0, 0, 0, 0],
            [0x23, 0, 0, 0, 0, 0, 0, 0],
        ],
        start: BOOT,
        fuel: 512,
        entry: 0,
        paths: "- running 0 t3@6;",
    },
    Row {
        name: "const r5, 7; const r6, 8; send 0, r5, 2; ret",
        instrs: &[
            [0x01, 5, 0, 0, 0, 7, 0, 0],
            [0x01, 6, 0, 0, 0, 8, 0, 0],
            [0x0d, 2, 5, 0, 0, 0, 0, 0],
            [0x23, 0, 0, 0, 0, 0, 0, 0],
        ],
        start: BOOT,
        fuel: 512,
        entry: 0,
        paths: "- running 0 #0 to 0@2 if 0: 7 8;",
    },
    Row {
        name: "send 1, r8, 8; ret",
        instrs: &[[0x0d, 8, 8, 0, 0, 1, 0, 0], [0x23, 0, 0, 0, 0, 0, 0, 0]],
        start: BOOT,
        fuel: 512,
        entry: 0,
        paths: "- running 0 #0 to 2@1 if 0: 0 0 0 0 0 0 0 0;",
    },
    Row {
        name: "send 2, r0, 1; ret",
        instrs: &[[0x0d, 1, 0, 0, 0, 2, 0, 0], [0x23, 0, 0, 0, 0, 0, 0, 0]],
        start: BOOT,
        fuel: 512,
        entry: 0,
        paths: "- running 0;",
    },
    Row {
        name: "const r15, 7; bcast r15, 1; send 1, r0, 0; ret",
        instrs: &[
            [0x01, 15, 0, 0, 0, 7, 0, 0],
            [0x0e, 1, 15, 0, 0, 0, 0, 0],
            [0x0d, 0, 0, 0, 0, 1, 0, 0],
            [0x23, 0, 0, 0, 0, 0, 0, 0],
        ],
        start: BOOT,
        fuel: 512,
        entry: 0,
        paths: "- running 0 #0 to 0@2 if 0: 7 #1 to 2@1 if 0: 7 #2 to 2@1 if 0:;",
    },
    Row {
        name: "const r0, 5; recvw r0, 0; ret",
        instrs: &[
            [0x01, 0, 0, 0, 0, 5, 0, 0],
            [0x0f, 0, 0, 0, 0, 0, 0, 0],
            [0x23, 0, 0, 0, 0, 0, 0, 0],
        ],
        start: BOOT,
        fuel: 512,
        entry: 0,
        paths: "- running 0;",
    },
    Row {
        name: "const r0, 5; rlen r0; ret",
        instrs: &[
            [0x01, 0, 0, 0, 0, 5, 0, 0],
            [0x1e, 0, 0, 0, 0, 0, 0, 0],
            [0x23, 0, 0, 0, 0, 0, 0, 0],
        ],
        start: BOOT,
        fuel: 512,
        entry: 0,
        paths: "- running 0;",
    },
    Row {
        name: "rfrom r0; ret",
        instrs: &[[0x1f, 0, 0, 0, 0, 0, 0, 0], [0x23, 0, 0, 0, 0, 0, 0, 0]],
        start: BOOT,
        fuel: 512,
        entry: 0,
        paths: "- running 65535;",
    },
    Row {
        name: "const r0, 1; assert r0; ret",
        instrs: &[
            [0x01, 0, 0, 0, 0, 1, 0, 0],
            [0x20, 0, 0, 0, 0, 0, 0, 0],
            [0x23, 0, 0, 0, 0, 0, 0, 0],
        ],
        start: BOOT,
        fuel: 512,
        entry: 0,
        paths: "0 running 1;",
    },
    Row {
        name: "ret; assert r0; ret",
        instrs: &[
            [0x23, 0, 0, 0, 0, 0, 0, 0],
            [0x20, 0, 0, 0, 0, 0, 0, 0],
            [0x23, 0, 0, 0, 0, 0, 0, 0],
        ],
        start: BOOT,
        fuel: 512,
        entry: 0,
        paths: "- running 0;",
    },
    Row {
        name: "const r1, 3; assert r0; ret",
        instrs: &[
            [0x01, 1, 0, 0, 0, 3, 0, 0],
            [0x20, 0, 0, 0, 0, 0, 0, 0],
            [0x23, 0, 0, 0, 0, 0, 0, 0],
        ],
        start: BOOT,
        fuel: 512,
        entry: 0,
        paths: "1 assert@1@0 0;",
    },
    Row {
        name: "node r0; ret",
        instrs: &[[0x21, 0, 0, 0, 0, 0, 0, 0], [0x23, 0, 0, 0, 0, 0, 0, 0]],
        start: BOOT,
        fuel: 512,
        entry: 0,
        paths: "- running 1;",
    },
    Row {
        name: "const r0, 5; now r0; ret",
        instrs: &[
            [0x01, 0, 0, 0, 0, 5, 0, 0],
            [0x22, 0, 0, 0, 0, 0, 0, 0],
            [0x23, 0, 0, 0, 0, 0, 0, 0],
        ],
        start: BOOT,
        fuel: 512,
        entry: 0,
        paths: "- running 0;",
    },
    Row {
        name: "const r0, 4; halt",
        instrs: &[[0x01, 0, 0, 0, 0, 4, 0, 0], [0x24, 0, 0, 0, 0, 0, 0, 0]],
        start: BOOT,
        fuel: 512,
        entry: 0,
        paths: "- halted 4;",
    },
    Row {
        name: "recvw r0, 0; ret",
        instrs: &[[0x0f, 0, 0, 0, 0, 0, 0, 0], [0x23, 0, 0, 0, 0, 0, 0, 0]],
        start: MAIL,
        fuel: 512,
        entry: 0,
        paths: "- running 7;",
    },
    Row {
        name: "recvw r0, 1; ret",
        instrs: &[[0x0f, 0, 0, 0, 0, 1, 0, 0], [0x23, 0, 0, 0, 0, 0, 0, 0]],
        start: MAIL,
        fuel: 512,
        entry: 0,
        paths: "- running 9;",
    },
    Row {
        name: "const r0, 5; recvw r0, 2; ret",
        instrs: &[
            [0x01, 0, 0, 0, 0, 5, 0, 0],
            [0x0f, 0, 0, 0, 0, 2, 0, 0],
            [0x23, 0, 0, 0, 0, 0, 0, 0],
        ],
        start: MAIL,
        fuel: 512,
        entry: 0,
        paths: "- running 0;",
    },
    Row {
        name: "rlen r0; ret",
        instrs: &[[0x1e, 0, 0, 0, 0, 0, 0, 0], [0x23, 0, 0, 0, 0, 0, 0, 0]],
        start: MAIL,
        fuel: 512,
        entry: 0,
        paths: "- running 2;",
    },
    Row {
        name: "rfrom r0; ret",
        instrs: &[[0x1f, 0, 0, 0, 0, 0, 0, 0], [0x23, 0, 0, 0, 0, 0, 0, 0]],
        start: MAIL,
        fuel: 512,
        entry: 0,
        paths: "- running 2;",
    },
    Row {
        name: "now r0; ret",
        instrs: &[[0x22, 0, 0, 0, 0, 0, 0, 0], [0x23, 0, 0, 0, 0, 0, 0, 0]],
        start: TIMER,
        fuel: 512,
        entry: 0,
        paths: "- running 1;",
    },
    Row {
        name: "timer 3, 4; ret",
        instrs: &[[0x0b, 3, 0, 0, 0, 4, 0, 0], [0x23, 0, 0, 0, 0, 0, 0, 0]],
        start: TIMER,
        fuel: 512,
        entry: 0,
        paths: "- running 0 t3@5;",
    },
    Row {
        name: "assert r0; ret",
        instrs: &[[0x20, 0, 0, 0, 0, 0, 0, 0], [0x23, 0, 0, 0, 0, 0, 0, 0]],
        start: TIMER,
        fuel: 512,
        entry: 0,
        paths: "1 assert@0@1 0;",
    },
    Row {
        name: "rlen r0; ret",
        instrs: &[[0x1e, 0, 0, 0, 0, 0, 0, 0], [0x23, 0, 0, 0, 0, 0, 0, 0]],
        start: BOTH,
        fuel: 512,
        entry: 0,
        paths: "- running 2 t3@1;",
    },
];

/// Decisions on inputs, and the limits of an event.
pub const WAYS: [Row; 24] = [
    Row {
        name: "input r0, 1; brz r0, 3; halt; ret",
        instrs: &[
            [0x0a, 0, 0, 0, 0, 1, 0, 0],
            [0x09, 0, 0, 0, 0, 3, 0, 0],
            [0x24, 0, 0, 0, 0, 0, 0, 0],
            [0x23, 0, 0, 0, 0, 0, 0, 0],
        ],
        start: BOOT,
        fuel: 512,
        entry: 0,
        paths: "0 halted 1;1 running 0;",
    },
    Row {
        name: "input r0, 1; brz r0, 2; brz r0, 3; ret",
        instrs: &[
            [0x0a, 0, 0, 0, 0, 1, 0, 0],
            [0x09, 0, 0, 0, 0, 2, 0, 0],
            [0x09, 0, 0, 0, 0, 3, 0, 0],
            [0x23, 0, 0, 0, 0, 0, 0, 0],
        ],
        start: BOOT,
        fuel: 512,
        entry: 0,
        paths: "00 running 1;11 running 0;",
    },
    Row {
        name: "input r0, 1; input r1, 1; brz r0, 3; brz r1, 4; ret",
        instrs: &[
            [0x0a, 0, 0, 0, 0, 1, 0, 0],
            [0x0a, 1, 0, 0, 0, 1, 0, 0],
            [0x09, 0, 0, 0, 0, 3, 0, 0],
            [0x09, 1, 0, 0, 0, 4, 0, 0],
            [0x23, 0, 0, 0, 0, 0, 0, 0],
        ],
        start: BOOT,
        fuel: 512,
        entry: 0,
        paths: "00 running 1;01 running 1;10 running 0;11 running 0;",
    },
    Row {
        name: "input r0, 1; input r1, 1; brz r0, 3; brz r1, 4; input r2, 1; brz r2, 6; ret",
        instrs: &[
            [0x0a, 0, 0, 0, 0, 1, 0, 0],
            [0x0a, 1, 0, 0, 0, 1, 0, 0],
            [0x09, 0, 0, 0, 0, 3, 0, 0],
            [0x09, 1, 0, 0, 0, 4, 0, 0],
            [0x0a, 2, 0, 0, 0, 1, 0, 0],
            [0x09, 2, 0, 0, 0, 6, 0, 0],
            [0x23, 0, 0, 0, 0, 0, 0, 0],
        ],
        start: BOOT,
        fuel: 512,
        entry: 0,
        paths: "more than 4",
    },
    Row {
        name: "input r0, 1; assert r0; halt",
        instrs: &[
            [0x0a, 0, 0, 0, 0, 1, 0, 0],
            [0x20, 0, 0, 0, 0, 0, 0, 0],
            [0x24, 0, 0, 0, 0, 0, 0, 0],
        ],
        start: BOOT,
        fuel: 512,
        entry: 0,
        paths: "0 halted 1;1 assert@1@0 0;",
    },
    Row {
        name: "input r0, 1; brz r0, 3; send 1, r0, 1; ret",
        instrs: &[
            [0x0a, 0, 0, 0, 0, 1, 0, 0],
            [0x09, 0, 0, 0, 0, 3, 0, 0],
            [0x0d, 1, 0, 0, 0, 1, 0, 0],
            [0x23, 0, 0, 0, 0, 0, 0, 0],
        ],
        start: BOOT,
        fuel: 512,
        entry: 0,
        paths: "0 running 1 #0 to 2@1 if 1: 1;1 running 0;",
    },
    Row {
        name: "const r1, 9; st 3, r1; input r2, 2; ldx r0, r2, 2, 2; brz r0, 6; halt; ret",
        instrs: &[
            [0x01, 1, 0, 0, 0, 9, 0, 0],
            [0x05, 1, 0, 0, 0, 3, 0, 0],
            [0x0a, 2, 0, 0, 0, 2, 0, 0],
            [0x06, 0, 2, 0, 0, 2, 0, 2],
            [0x09, 0, 0, 0, 0, 6, 0, 0],
            [0x24, 0, 0, 0, 0, 0, 0, 0],
            [0x23, 0, 0, 0, 0, 0, 0, 0],
        ],
        start: BOOT,
        fuel: 512,
        entry: 0,
        paths: "00 halted 9;01 running 0;1 bounds@3@0 0;",
    },
    Row {
        name: "const r1, 9; input r2, 1; stx r1, r2, 4, 1; ld r0, 4; ret",
        instrs: &[
            [0x01, 1, 0, 0, 0, 9, 0, 0],
            [0x0a, 2, 0, 0, 0, 1, 0, 0],
            [0x07, 1, 2, 0, 0, 4, 0, 1],
            [0x04, 0, 0, 0, 0, 4, 0, 0],
            [0x23, 0, 0, 0, 0, 0, 0, 0],
        ],
        start: BOOT,
        fuel: 512,
        entry: 0,
        paths: "0 running 9;1 bounds@2@0 0;",
    },
    Row {
        name: "const r1, 9; input r2, 1; stx r1, r2, 4, 2; ld r0, 5; brz r0, 6; halt; ret",
        instrs: &[
            [0x01, 1, 0, 0, 0, 9, 0, 0],
            [0x0a, 2, 0, 0, 0, 1, 0, 0],
            [0x07, 1, 2, 0, 0, 4, 0, 2],
            [0x04, 0, 0, 0, 0, 5, 0, 0],
            [0x09, 0, 0, 0, 0, 6, 0, 0],
            [0x24, 0, 0, 0, 0, 0, 0, 0],
            [0x23, 0, 0, 0, 0, 0, 0, 0],
        ],
        start: BOOT,
        fuel: 512,
        entry: 0,
        paths: "00 halted 9;01 running 0;",
    },
    Row {
        name: "const r2, 7; input r1, 16; udiv r0, r2, r1; ret",
        instrs: &[
            [0x01, 2, 0, 0, 0, 7, 0, 0],
            [0x0a, 1, 0, 0, 0, 16, 0, 0],
            [0x19, 0, 2, 1, 0, 0, 0, 0],
            [0x23, 0, 0, 0, 0, 0, 0, 0],
        ],
        start: BOOT,
        fuel: 512,
        entry: 0,
        paths: "- running 65535;",
    },
    Row {
        name: "const r2, 7; input r1, 16; urem r0, r2, r1; ret",
        instrs: &[
            [0x01, 2, 0, 0, 0, 7, 0, 0],
            [0x0a, 1, 0, 0, 0, 16, 0, 0],
            [0x1a, 0, 2, 1, 0, 0, 0, 0],
            [0x23, 0, 0, 0, 0, 0, 0, 0],
        ],
        start: BOOT,
        fuel: 512,
        entry: 0,
        paths: "- running 7;",
    },
    Row {
        name: "input r1, 16; brz r1, 3; udiv r0, r1, r1; ret",
        instrs: &[
            [0x0a, 1, 0, 0, 0, 16, 0, 0],
            [0x09, 1, 0, 0, 0, 3, 0, 0],
            [0x19, 0, 1, 1, 0, 0, 0, 0],
            [0x23, 0, 0, 0, 0, 0, 0, 0],
        ],
        start: BOOT,
        fuel: 512,
        entry: 0,
        paths: "0 running 1;1 running 0;",
    },
    Row {
        name: "rfrom r0; ret",
        instrs: &[[0x1f, 0, 0, 0, 0, 0, 0, 0], [0x23, 0, 0, 0, 0, 0, 0, 0]],
        start: BOOT,
        fuel: 2,
        entry: 0,
        paths: "- running 65535;",
    },
    Row {
        name: "rfrom r0; ret",
        instrs: &[[0x1f, 0, 0, 0, 0, 0, 0, 0], [0x23, 0, 0, 0, 0, 0, 0, 0]],
        start: BOOT,
        fuel: 1,
        entry: 0,
        paths: "- fuel@1@0 65535;",
    },
    Row {
        name: "jmp 0",
        instrs: &[[0x08, 0, 0, 0, 0, 0, 0, 0]],
        start: BOOT,
        fuel: 512,
        entry: 0,
        paths: "- fuel@0@0 0;",
    },
    Row {
        name: "input r0, 1; brz r0, 2; ret",
        instrs: &[
            [0x0a, 0, 0, 0, 0, 1, 0, 0],
            [0x09, 0, 0, 0, 0, 2, 0, 0],
            [0x23, 0, 0, 0, 0, 0, 0, 0],
        ],
        start: BOOT,
        fuel: 3,
        entry: 0,
        paths: "0 running 1;1 running 0;",
    },
    Row {
        name: "input r0, 1; brz r0, 2; ret",
        instrs: &[
            [0x0a, 0, 0, 0, 0, 1, 0, 0],
            [0x09, 0, 0, 0, 0, 2, 0, 0],
            [0x23, 0, 0, 0, 0, 0, 0, 0],
        ],
        start: BOOT,
        fuel: 2,
        entry: 0,
        paths: "0 fuel@2@0 1;1 fuel@2@0 0;",
    },
    Row {
        name: "input r0, 1; ret",
        instrs: &[[0x0a, 0, 0, 0, 0, 1, 0, 0], [0x23, 0, 0, 0, 0, 0, 0, 0]],
        start: MADE_ALL_BUT_ONE,
        fuel: 512,
        entry: 0,
        paths: "- running 0;",
    },
    Row {
        name: "input r0, 1; input r1, 1; ret",
        instrs: &[
            [0x0a, 0, 0, 0, 0, 1, 0, 0],
            [0x0a, 1, 0, 0, 0, 1, 0, 0],
            [0x23, 0, 0, 0, 0, 0, 0, 0],
        ],
        start: MADE_ALL_BUT_ONE,
        fuel: 512,
        entry: 0,
        paths: "- fuel@1@0 0;",
    },
    Row {
        name: "bcast r0, 0; ret",
        instrs: &[[0x0e, 0, 0, 0, 0, 0, 0, 0], [0x23, 0, 0, 0, 0, 0, 0, 0]],
        start: SENT_ALL_BUT_TWO,
        fuel: 512,
        entry: 0,
        paths: "- running 0 #65533 to 0@2 if 0: #65534 to 2@1 if 0:;",
    },
    Row {
        name: "send 1, r0, 0; bcast r0, 0; ret",
        instrs: &[
            [0x0d, 0, 0, 0, 0, 1, 0, 0],
            [0x0e, 0, 0, 0, 0, 0, 0, 0],
            [0x23, 0, 0, 0, 0, 0, 0, 0],
        ],
        start: SENT_ALL_BUT_TWO,
        fuel: 512,
        entry: 0,
        paths: "- fuel@1@0 0 #65533 to 2@1 if 0:;",
    },
    Row {
        name: "bcast r0, 0; send 2, r0, 0; send 1, r0, 0; ret",
        instrs: &[
            [0x0e, 0, 0, 0, 0, 0, 0, 0],
            [0x0d, 0, 0, 0, 0, 2, 0, 0],
            [0x0d, 0, 0, 0, 0, 1, 0, 0],
            [0x23, 0, 0, 0, 0, 0, 0, 0],
        ],
        start: SENT_ALL_BUT_TWO,
        fuel: 512,
        entry: 0,
        paths: "- fuel@2@0 0 #65533 to 0@2 if 0: #65534 to 2@1 if 0:;",
    },
    Row {
        name: "halt",
        instrs: &[[0x24, 0, 0, 0, 0, 0, 0, 0]],
        start: BOOT,
        fuel: 512,
        entry: 255,
        paths: "- running 0;",
    },
    Row {
        name: "halt",
        instrs: &[[0x24, 0, 0, 0, 0, 0, 0, 0]],
        start: MAIL,
        fuel: 512,
        entry: 255,
        paths: "- running 0;",
    },
];

/// How many bits an input has, and its greatest word.
pub struct Width {
    pub bits: u8,
    pub most: u16,
}

/// Each width.
pub const WIDTHS: [Width; 16] = [
    Width { bits: 1, most: 1 },
    Width { bits: 2, most: 3 },
    Width { bits: 3, most: 7 },
    Width { bits: 4, most: 15 },
    Width { bits: 5, most: 31 },
    Width { bits: 6, most: 63 },
    Width { bits: 7, most: 127 },
    Width { bits: 8, most: 255 },
    Width { bits: 9, most: 511 },
    Width {
        bits: 10,
        most: 1023,
    },
    Width {
        bits: 11,
        most: 2047,
    },
    Width {
        bits: 12,
        most: 4095,
    },
    Width {
        bits: 13,
        most: 8191,
    },
    Width {
        bits: 14,
        most: 16383,
    },
    Width {
        bits: 15,
        most: 32767,
    },
    Width {
        bits: 16,
        most: 65535,
    },
];

/// A row: whether a first packet's guard says that the square of an input is 40,000 or that it is not, and a second one's;
/// and what is known then: how many literals, and the least input that meets them; or none. The least square root of
/// 40,000 modulo 65,536 is 200.
pub struct Receipt {
    pub name: &'static str,
    pub first: bool,
    pub second: bool,
    pub known: &'static str,
}

/// What a node receives.
pub const RECEIPTS: [Receipt; 4] = [
    Receipt {
        name: "a guard that repeats what is known",
        first: true,
        second: true,
        known: "1 of 200",
    },
    Receipt {
        name: "the same where the square is another",
        first: false,
        second: false,
        known: "1 of 0",
    },
    Receipt {
        name: "a guard that contradicts what is known",
        first: true,
        second: false,
        known: "none",
    },
    Receipt {
        name: "the same the other way round",
        first: false,
        second: true,
        known: "none",
    },
];

/// A failure row: its name, how many inputs the node made before, what timer 3 is set to, how it may fail, and what its
/// paths are, where all handlers read the packet's first word into register 0. Of each path: its bits, its outcome, register
/// 0, the timers that are set, the losses and duplications that are left, how many inputs were made, and whether a packet
/// waits for this tick or for the next.
pub struct Failure {
    pub name: &'static str,
    pub made: u32,
    pub timer: Option<u32>,
    pub failing: Failing,
    pub paths: &'static str,
}

pub const FAILURES: [Failure; 8] = [
    Failure {
        name: "a packet may be lost",
        made: 0,
        timer: None,
        failing: Failing {
            losses: 1,
            duplications: 0,
            reboots: false,
            copy: 0,
        },
        paths: "0 running 7; losses 1 duplications 0 inputs 1|1 running 0; losses 0 duplications 0 inputs 1|",
    },
    Failure {
        name: "a packet may be doubled",
        made: 0,
        timer: None,
        failing: Failing {
            losses: 0,
            duplications: 1,
            reboots: false,
            copy: 0,
        },
        paths: "0 running 7; losses 0 duplications 1 inputs 1|1 running 7; losses 0 duplications 0 inputs 1 next|",
    },
    Failure {
        name: "it is first decided whether it is lost",
        made: 0,
        timer: None,
        failing: Failing {
            losses: 2,
            duplications: 2,
            reboots: false,
            copy: 0,
        },
        paths: "00 running 7; losses 2 duplications 2 inputs 2|01 running 7; losses 2 duplications 1 inputs 2 next|1 running 0; losses 1 duplications 2 inputs 1|",
    },
    Failure {
        name: "a copy may be lost, and is not doubled again",
        made: 0,
        timer: None,
        failing: Failing {
            losses: 1,
            duplications: 1,
            reboots: false,
            copy: 1,
        },
        paths: "0 running 7; losses 1 duplications 1 inputs 1|1 running 0; losses 0 duplications 1 inputs 1|",
    },
    Failure {
        name: "nothing fails where 65,535 inputs were made",
        made: 65535,
        timer: None,
        failing: Failing {
            losses: 1,
            duplications: 1,
            reboots: false,
            copy: 0,
        },
        paths: "- running 7; losses 1 duplications 1 inputs 65535|",
    },
    Failure {
        name: "the last input decides whether a packet is lost, and it is not doubled",
        made: 65534,
        timer: None,
        failing: Failing {
            losses: 1,
            duplications: 1,
            reboots: false,
            copy: 0,
        },
        paths: "0 running 7; losses 1 duplications 1 inputs 65535|1 running 0; losses 0 duplications 1 inputs 65535|",
    },
    Failure {
        name: "a reboot before a packet and a timer: the queue stays, the timers go",
        made: 0,
        timer: Some(1),
        failing: Failing {
            losses: 0,
            duplications: 0,
            reboots: true,
            copy: 0,
        },
        paths: "0 running 0 t3@1; losses 0 duplications 0 inputs 1 now|1 running 0; losses 0 duplications 0 inputs 1 now|",
    },
    Failure {
        name: "no reboot where 65,535 inputs were made",
        made: 65535,
        timer: Some(1),
        failing: Failing {
            losses: 0,
            duplications: 0,
            reboots: true,
            copy: 0,
        },
        paths: "- running 0 t3@1; losses 0 duplications 0 inputs 65535 now|",
    },
];
