//! Worked files, with the status and the text with which a call on each ends.

use kn_report::Status;

/// A worked file.
#[derive(Clone, Copy)]
pub struct Row {
    /// What the row shows.
    pub name: &'static str,
    pub file: &'static str,
    /// A text of the file, and what is written in its place.
    pub change: (&'static str, &'static str),
    pub status: Status,
    /// What the call writes.
    pub text: &'static str,
}

/// Nothing in the file is written anew.
const AS_IT_STANDS: (&str, &str) = ("ticks", "ticks");

/// A packet to a node that may lose one and be given one twice.
const LOST_OR_TWICE: &str = "version = 1
ticks = 3
[[program]]
name = \"five\"
asm = '''
boot: const r0, 5
      send 0, r0, 1
      ret
'''
[[program]]
name = \"idle\"
asm = '''
recv: ret
'''
[[node]]
program = \"five\"
[[node]]
program = \"idle\"
loss = 1
duplicate = 1
[[link]]
from = 0
to = 1
delay = 1
";

/// A node that may reboot in tick 1, before its timer halts it; then the packet of tick 2 finds it running.
const REBOOT: &str = "version = 1
ticks = 3
[[program]]
name = \"ping\"
asm = '''
boot: send 0, r0, 0
      ret
'''
[[program]]
name = \"fragile\"
asm = '''
boot:   timer 0, 1
        ret
recv:   const r0, 0
        assert r0
        ret
timer0: halt
'''
[[node]]
program = \"ping\"
[[node]]
program = \"fragile\"
reboot = [1]
[[link]]
from = 0
to = 1
delay = 2
";

/// A tree of six nodes, each of which may lose a packet: two leaves send to relays, these and the third leaf to the sink, which
/// fails where none of the three readings comes.
pub const TREE: &str = "version = 1
ticks = 12
[[program]]
name = \"sink\"
asm = '''
boot:   timer 0, 10
        ret
recv:   ld r1, 0
        const r2, 1
        add r1, r1, r2
        st 0, r1
        ret
timer0: ld r1, 0
        assert r1
        ret
'''
[[program]]
name = \"relay\"
asm = '''
recv:   recvw r0, 0
        send 0, r0, 1
        ret
'''
[[program]]
name = \"leaf\"
asm = '''
boot:   timer 0, 1
        ret
timer0: input r0, 8
        send 0, r0, 1
        ret
'''
[[node]]
program = \"sink\"
loss = 1
[[node]]
program = \"relay\"
loss = 1
[[node]]
program = \"relay\"
loss = 1
[[node]]
program = \"leaf\"
loss = 1
[[node]]
program = \"leaf\"
loss = 1
[[node]]
program = \"leaf\"
loss = 1
[[link]]
from = 1
to = 0
delay = 1
[[link]]
from = 2
to = 0
delay = 1
[[link]]
from = 3
to = 1
delay = 1
[[link]]
from = 4
to = 2
delay = 1
[[link]]
from = 5
to = 0
delay = 1
";

/// Two branches on two inputs.
const TWO_INPUTS: &str = "version = 1
ticks = 1
[[program]]
name = \"two\"
asm = '''
boot: input r0, 1
      input r1, 1
      brz r0, a
a:    brz r1, b
b:    ret
'''
[[node]]
program = \"two\"
";

/// A loop that counts down a constant.
const COUNT: &str = "version = 1
ticks = 1
[[program]]
name = \"count\"
asm = '''
boot: const r0, 10
      const r1, 1
loop: brz r0, out
      sub r0, r0, r1
      jmp loop
out:  ret
'''
[[node]]
program = \"count\"
";

/// Twelve inputs of one bit, and a failure where each of them is 1, which neither the term so far nor the next input tells
/// alone. All but one of the 4,096 valuations come before the only one that leads to it.
const ALL_OF_TWELVE: &str = "version = 1
ticks = 1
conflicts = 2048
[[program]]
name = \"all\"
asm = '''
boot: input r0, 1
      input r1, 1
      ult r2, r0, r1
      xor r0, r1, r2
      input r1, 1
      ult r2, r0, r1
      xor r0, r1, r2
      input r1, 1
      ult r2, r0, r1
      xor r0, r1, r2
      input r1, 1
      ult r2, r0, r1
      xor r0, r1, r2
      input r1, 1
      ult r2, r0, r1
      xor r0, r1, r2
      input r1, 1
      ult r2, r0, r1
      xor r0, r1, r2
      input r1, 1
      ult r2, r0, r1
      xor r0, r1, r2
      input r1, 1
      ult r2, r0, r1
      xor r0, r1, r2
      input r1, 1
      ult r2, r0, r1
      xor r0, r1, r2
      input r1, 1
      ult r2, r0, r1
      xor r0, r1, r2
      input r1, 1
      ult r2, r0, r1
      xor r0, r1, r2
      brz r0, a
      assert r15
a:    ret
'''
[[node]]
program = \"all\"
";

const ALL_OF_TWELVE_OPEN: &str = "report 1 mapping cob ticks 1 nodes 1
state 0 node 0 trace 01 outcome assert@35@0 open 2048
state 1 node 0 trace 1 outcome running inputs -
dstate 0 columns 0
dstate 1 columns 1
failure 0 open
end states 2 dstates 2 reached 0 open 2
";

const ALL_OF_TWELVE_FOUND: &str = "report 1 mapping cob ticks 1 nodes 1
state 0 node 0 trace 01 outcome assert@35@0 inputs 0.0=1 0.1=1 0.2=1 0.3=1 0.4=1 0.5=1 0.6=1 0.7=1 0.8=1 0.9=1 0.10=1 0.11=1
state 1 node 0 trace 1 outcome running inputs -
dstate 0 columns 0
dstate 1 columns 1
failure 0 reached dstate 0 pick 0 inputs 0.0=1 0.1=1 0.2=1 0.3=1 0.4=1 0.5=1 0.6=1 0.7=1 0.8=1 0.9=1 0.10=1 0.11=1
end states 2 dstates 2 reached 1 open 0
";

/// A division by 0, and an index out of range.
const BOUNDS: &str = "version = 1
ticks = 1
[[program]]
name = \"edge\"
asm = '''
boot: const r0, 3
      const r1, 0
      udiv r2, r0, r1
      st 0, r2
      const r3, 65535
      eq r4, r2, r3
      assert r4
      const r5, 4
      ldx r6, r5, 0, 4
      ret
'''
[[node]]
program = \"edge\"
";

/// A node that asserts what a packet's guard implies.
const IMPOSSIBLE_CHILD: &str = "version = 1
ticks = 2
[[program]]
name = \"small\"
asm = '''
boot: input r0, 8
      const r1, 10
      ult r2, r0, r1
      brz r2, a
      send 0, r0, 1
a:    ret
'''
[[program]]
name = \"below\"
asm = '''
recv: recvw r0, 0
      const r1, 20
      ult r2, r0, r1
      assert r2
      ret
'''
[[node]]
program = \"small\"
[[node]]
program = \"below\"
[[link]]
from = 0
to = 1
delay = 1
";

/// A node that counts packets, of which one or two come.
const NOWHERE: &str = "version = 1
ticks = 3
[[program]]
name = \"again\"
asm = '''
boot: input r0, 1
      send 0, r0, 1
      brz r0, a
      send 0, r0, 1
a:    ret
'''
[[program]]
name = \"once\"
asm = '''
boot:   timer 0, 2
        ret
recv:   ld r1, 0
        const r2, 1
        add r1, r1, r2
        st 0, r1
        recvw r3, 0
        st 1, r3
        ret
timer0: ld r1, 0
        const r2, 1
        eq r1, r1, r2
        brz r1, ok
        ld r3, 1
        const r5, 0
        eq r4, r3, r5
        assert r4
ok:     ret
'''
[[node]]
program = \"again\"
[[node]]
program = \"once\"
[[link]]
from = 0
to = 1
delay = 1
";

/// Two nodes that take an input of one bit and branch on it.
pub const HALVES: &str = "version = 1
ticks = 1
[[program]]
name = \"half\"
code = \"00030000ffffffffffffffffffffffffffffffffffff0a0000000001000009000000000200002300000000000000\"
[[node]]
program = \"half\"
[[node]]
program = \"half\"
";

pub const HALVES_REPORT: &str = "report 1 mapping cob ticks 1 nodes 2
state 0 node 0 trace 0 outcome running inputs 0.0=1
state 1 node 1 trace 0 outcome running inputs 1.0=1
state 2 node 0 trace 0 outcome running inputs 0.0=1
state 3 node 1 trace 1 outcome running inputs -
state 4 node 0 trace 1 outcome running inputs -
state 5 node 1 trace 0 outcome running inputs 1.0=1
state 6 node 0 trace 1 outcome running inputs -
state 7 node 1 trace 1 outcome running inputs -
dstate 0 columns 0 1
dstate 1 columns 2 3
dstate 2 columns 4 5
dstate 3 columns 6 7
end states 8 dstates 4 reached 0 open 0
";

/// The same file with one node.
pub const HALF_REPORT: &str = "report 1 mapping cob ticks 1 nodes 1
state 0 node 0 trace 0 outcome running inputs 0.0=1
state 1 node 0 trace 1 outcome running inputs -
dstate 0 columns 0
dstate 1 columns 1
end states 2 dstates 2 reached 0 open 0
";

/// One node that fails where its input is 0, and else halts.
const CAREFUL: &str = "version = 1
ticks = 1
[[program]]
name = \"careful\"
code = \"00030000ffffffffffffffffffffffffffffffffffff0a0000000001000020000000000000002400000000000000\"
[[node]]
program = \"careful\"
";

const CAREFUL_REPORT: &str = "report 1 mapping cob ticks 1 nodes 1
state 0 node 0 trace 0 outcome halted inputs 0.0=1
state 1 node 0 trace 1 outcome assert@1@0 inputs -
dstate 0 columns 0
dstate 1 columns 1
failure 1 reached dstate 1 pick 1 inputs -
end states 2 dstates 2 reached 1 open 0
";

/// A node that asserts the constant 0, and one that goes on.
const CONSTANT: &str = "version = 1
ticks = 1
[[program]]
name = \"half\"
code = \"00030000ffffffffffffffffffffffffffffffffffff0a0000000001000009000000000200002300000000000000\"
[[program]]
name = \"never\"
code = \"00020000ffffffffffffffffffffffffffffffffffff20000000000000002400000000000000\"
[[node]]
program = \"never\"
[[node]]
program = \"half\"
";

const CONSTANT_REPORT: &str = "report 1 mapping cob ticks 1 nodes 2
state 0 node 0 trace 1 outcome assert@0@0 inputs -
state 1 node 1 trace 0 outcome running inputs 1.0=1
state 2 node 0 trace 1 outcome assert@0@0 inputs -
state 3 node 1 trace 1 outcome running inputs -
dstate 0 columns 0 1
dstate 1 columns 2 3
failure 0 reached dstate 0 pick 0 1 inputs 1.0=1
failure 2 reached dstate 1 pick 2 3 inputs -
end states 4 dstates 2 reached 2 open 0
";

const NO_TICKS_REPORT: &str = "report 1 mapping cob ticks 0 nodes 2
state 0 node 0 trace - outcome running inputs -
state 1 node 1 trace - outcome running inputs -
dstate 0 columns 0 1
end states 2 dstates 1 reached 0 open 0
";

/// A node that sends its input where it is not 0, and two that do nothing on a packet.
/// - ifsend: `boot: input r0, 1`, `brz r0, a`, `send 0, r0, 1`, `a: ret`
/// - idle: `recv: ret`
const ONE_PACKET_OR_NONE: &str = "version = 1
ticks = 2
[[program]]
name = \"ifsend\"
code = \"00040000ffffffffffffffffffffffffffffffffffff0a0000000001000009000000000300000d010000000000002300000000000000\"
[[program]]
name = \"idle\"
code = \"0001ffff0000ffffffffffffffffffffffffffffffff2300000000000000\"
[[node]]
program = \"ifsend\"
[[node]]
program = \"idle\"
[[node]]
program = \"idle\"
[[link]]
from = 0
to = 1
delay = 1
";

const ONE_PACKET_OR_NONE_REPORT: &str = "report 1 mapping cob ticks 2 nodes 3
state 0 node 0 trace 0 outcome running inputs 0.0=1
state 1 node 1 trace - outcome running inputs 0.0=1
state 2 node 2 trace - outcome running inputs -
state 3 node 0 trace 1 outcome running inputs -
state 4 node 1 trace - outcome running inputs -
state 5 node 2 trace - outcome running inputs -
dstate 0 columns 0 1 2
dstate 1 columns 3 4 5
end states 6 dstates 2 reached 0 open 0
";

/// With one tick the packet never arrives; its guard stands all the same.
const ONE_PACKET_OR_NONE_NEVER_ARRIVES: &str = "report 1 mapping cob ticks 1 nodes 3
state 0 node 0 trace 0 outcome running inputs 0.0=1
state 1 node 1 trace - outcome running inputs 0.0=1
state 2 node 2 trace - outcome running inputs -
state 3 node 0 trace 1 outcome running inputs -
state 4 node 1 trace - outcome running inputs -
state 5 node 2 trace - outcome running inputs -
dstate 0 columns 0 1 2
dstate 1 columns 3 4 5
end states 6 dstates 2 reached 0 open 0
";

/// A packet and a timer of one tick: the timer's assertion holds on the word that the packet's event left.
/// - ping: `boot: send 0, r0, 0`, `ret`
/// - late: `boot: timer 0, 1`, `ret`, `recv: const r0, 1`, `ret`, `timer0: assert r0`, `ret`
const PACKET_BEFORE_TIMER: &str = "version = 1
ticks = 2
[[program]]
name = \"ping\"
code = \"00020000ffffffffffffffffffffffffffffffffffff0d000000000000002300000000000000\"
[[program]]
name = \"late\"
code = \"0006000000020004ffffffffffffffffffffffffffff0b0000000001000023000000000000000100000000010000230000000000000020000000000000002300000000000000\"
[[node]]
program = \"ping\"
[[node]]
program = \"late\"
[[link]]
from = 0
to = 1
delay = 1
";

const PACKET_BEFORE_TIMER_REPORT: &str = "report 1 mapping cob ticks 2 nodes 2
state 0 node 0 trace - outcome running inputs -
state 1 node 1 trace 0 outcome running inputs -
dstate 0 columns 0 1
end states 2 dstates 1 reached 0 open 0
";

/// What a node decides after a send is not in the packet's guard.
/// - early: `boot: input r0, 1`, `send 0, r0, 1`, `brz r0, a`, `a: ret`
/// - idle: `recv: ret`
const DECIDED_AFTER_SENDING: &str = "version = 1
ticks = 2
[[program]]
name = \"early\"
code = \"00040000ffffffffffffffffffffffffffffffffffff0a000000000100000d0100000000000009000000000300002300000000000000\"
[[program]]
name = \"idle\"
code = \"0001ffff0000ffffffffffffffffffffffffffffffff2300000000000000\"
[[node]]
program = \"early\"
[[node]]
program = \"idle\"
[[link]]
from = 0
to = 1
delay = 1
";

const DECIDED_AFTER_SENDING_REPORT: &str = "report 1 mapping cob ticks 2 nodes 2
state 0 node 0 trace 0 outcome running inputs 0.0=1
state 1 node 1 trace - outcome running inputs -
state 2 node 0 trace 1 outcome running inputs -
state 3 node 1 trace - outcome running inputs -
dstate 0 columns 0 1
dstate 1 columns 2 3
end states 4 dstates 2 reached 0 open 0
";

/// Both ways send the word 7, each with its own guard.
/// - both: `boot: input r0, 1`, `brz r0, a`, `a: const r1, 7`, `send 0, r1, 1`, `ret`
/// - idle: `recv: ret`
const EQUAL_WORDS_FROM_TWO_WAYS: &str = "version = 1
ticks = 2
[[program]]
name = \"both\"
code = \"00050000ffffffffffffffffffffffffffffffffffff0a00000000010000090000000002000001010000000700000d010100000000002300000000000000\"
[[program]]
name = \"idle\"
code = \"0001ffff0000ffffffffffffffffffffffffffffffff2300000000000000\"
[[node]]
program = \"both\"
[[node]]
program = \"idle\"
[[link]]
from = 0
to = 1
delay = 1
";

const EQUAL_WORDS_FROM_TWO_WAYS_REPORT: &str = "report 1 mapping cob ticks 2 nodes 2
state 0 node 0 trace 0 outcome running inputs 0.0=1
state 1 node 1 trace - outcome running inputs 0.0=1
state 2 node 0 trace 1 outcome running inputs -
state 3 node 1 trace - outcome running inputs -
dstate 0 columns 0 1
dstate 1 columns 2 3
end states 4 dstates 2 reached 0 open 0
";

/// An input sent at tick 1, held for two ticks, sent on over a delay of 2 and passed on, comes to the last node at
/// tick 7.
/// - source: `boot: timer 0, 1`, `ret`, `timer0: input r0, 1`, `send 0, r0, 1`, `ret`
/// - hold: `recv: recvw r0, 0`, `timer 3, 2`, `ret`, `timer3: send 0, r0, 1`, `ret`
/// - relay: `recv: recvw r0, 0`, `send 0, r0, 1`, `ret`
/// - sink: `recv: recvw r0, 0`, `brz r0, off`, `ret`, `off: halt`
const RELAYED_WITH_TIMERS: &str = "version = 1
ticks = 8
[[program]]
name = \"source\"
code = \"00050000ffff0002ffffffffffffffffffffffffffff0b0000000001000023000000000000000a000000000100000d010000000000002300000000000000\"
[[program]]
name = \"hold\"
code = \"0005ffff0000ffffffffffff0003ffffffffffffffff0f000000000000000b0300000002000023000000000000000d010000000000002300000000000000\"
[[program]]
name = \"relay\"
code = \"0003ffff0000ffffffffffffffffffffffffffffffff0f000000000000000d010000000000002300000000000000\"
[[program]]
name = \"sink\"
code = \"0004ffff0000ffffffffffffffffffffffffffffffff0f00000000000000090000000003000023000000000000002400000000000000\"
[[node]]
program = \"sink\"
[[node]]
program = \"relay\"
[[node]]
program = \"hold\"
[[node]]
program = \"source\"
[[link]]
from = 3
to = 2
delay = 1
[[link]]
from = 2
to = 1
delay = 2
[[link]]
from = 1
to = 0
delay = 1
";

const RELAYED_WITH_TIMERS_REPORT: &str = "report 1 mapping cob ticks 8 nodes 4
state 0 node 0 trace 0 outcome running inputs 3.0=1
state 1 node 1 trace - outcome running inputs -
state 2 node 2 trace - outcome running inputs -
state 3 node 3 trace - outcome running inputs -
state 4 node 0 trace 1 outcome halted inputs -
state 5 node 1 trace - outcome running inputs -
state 6 node 2 trace - outcome running inputs -
state 7 node 3 trace - outcome running inputs -
dstate 0 columns 0 1 2 3
dstate 1 columns 4 5 6 7
end states 8 dstates 2 reached 0 open 0
";

/// With seven ticks the last node has decided nothing.
const RELAYED_WITH_TIMERS_A_TICK_BEFORE: &str = "report 1 mapping cob ticks 7 nodes 4
state 0 node 0 trace - outcome running inputs -
state 1 node 1 trace - outcome running inputs -
state 2 node 2 trace - outcome running inputs -
state 3 node 3 trace - outcome running inputs -
dstate 0 columns 0 1 2 3
end states 4 dstates 1 reached 0 open 0
";

/// Links are numbered node by node in the file's order: link 1 of node 0 leads to node 1. A broadcast goes over all
/// three and before the send that follows it; a link that the node does not have sends nothing.
/// - caller: `boot: input r0, 1`, `bcast r0, 1`, `const r1, 1`, `send 1, r1, 1`, `send 3, r1, 1`, `ret`
/// - decides: `recv: recvw r0, 0`, `brz r0, a`, `a: ret`
/// - asserts: `recv: recvw r0, 0`, `assert r0`, `ret`
/// - idle: `recv: ret`
const BROADCAST_AND_LINK_NUMBERS: &str = "version = 1
ticks = 3
[[program]]
name = \"caller\"
code = \"00060000ffffffffffffffffffffffffffffffffffff0a000000000100000e0100000000000001010000000100000d010100000100000d010100000300002300000000000000\"
[[program]]
name = \"decides\"
code = \"0003ffff0000ffffffffffffffffffffffffffffffff0f0000000000000009000000000200002300000000000000\"
[[program]]
name = \"asserts\"
code = \"0003ffff0000ffffffffffffffffffffffffffffffff0f0000000000000020000000000000002300000000000000\"
[[program]]
name = \"idle\"
code = \"0001ffff0000ffffffffffffffffffffffffffffffff2300000000000000\"
[[node]]
program = \"caller\"
[[node]]
program = \"decides\"
[[node]]
program = \"asserts\"
[[node]]
program = \"idle\"
[[link]]
from = 0
to = 3
delay = 1
[[link]]
from = 1
to = 0
delay = 1
[[link]]
from = 0
to = 1
delay = 2
[[link]]
from = 0
to = 2
delay = 1
";

const BROADCAST_AND_LINK_NUMBERS_REPORT: &str = "report 1 mapping cob ticks 3 nodes 4
state 0 node 0 trace - outcome running inputs -
state 1 node 1 trace 00 outcome running inputs 0.0=1
state 2 node 2 trace 0 outcome running inputs 0.0=1
state 3 node 3 trace - outcome running inputs -
state 4 node 0 trace - outcome running inputs -
state 5 node 1 trace 00 outcome running inputs 0.0=1
state 6 node 2 trace 1 outcome assert@1@1 inputs -
state 7 node 3 trace - outcome running inputs -
state 8 node 0 trace - outcome running inputs -
state 9 node 1 trace 10 outcome running inputs -
state 10 node 2 trace 0 outcome running inputs 0.0=1
state 11 node 3 trace - outcome running inputs -
state 12 node 0 trace - outcome running inputs -
state 13 node 1 trace 10 outcome running inputs -
state 14 node 2 trace 1 outcome assert@1@1 inputs -
state 15 node 3 trace - outcome running inputs -
dstate 0 columns 0 1 2 3
dstate 1 columns 4 5 6 7
dstate 2 columns 8 9 10 11
dstate 3 columns 12 13 14 15
failure 6 nowhere
failure 14 reached dstate 3 pick 12 13 14 15 inputs -
end states 16 dstates 4 reached 1 open 0
";

/// A node that sends and then jumps to itself where its input is 0, and one that jumps to itself on a packet. What
/// was sent before the failure stays sent.
/// - sender: `boot: input r0, 1`, `send 0, r0, 1`, `brz r0, spin`, `ret`, `spin: jmp spin`
/// - spins: `recv: jmp again`, `again: jmp again`
const SPINNING_WITHOUT_END: &str = "version = 1
ticks = 2
[[program]]
name = \"sender\"
code = \"00050000ffffffffffffffffffffffffffffffffffff0a000000000100000d01000000000000090000000004000023000000000000000800000000040000\"
[[program]]
name = \"spins\"
code = \"0002ffff0000ffffffffffffffffffffffffffffffff08000000000100000800000000010000\"
[[node]]
program = \"sender\"
[[node]]
program = \"spins\"
[[link]]
from = 0
to = 1
delay = 1
";

const SPINNING_WITHOUT_END_REPORT: &str = "report 1 mapping cob ticks 2 nodes 2
state 0 node 0 trace 0 outcome running inputs 0.0=1
state 1 node 1 trace - outcome fuel@1@1 inputs -
state 2 node 0 trace 1 outcome fuel@4@0 inputs -
state 3 node 1 trace - outcome fuel@1@1 inputs -
dstate 0 columns 0 1
dstate 1 columns 2 3
failure 1 reached dstate 0 pick 0 1 inputs 0.0=1
failure 2 reached dstate 1 pick 2 3 inputs -
failure 3 reached dstate 1 pick 2 3 inputs -
end states 4 dstates 2 reached 3 open 0
";

/// Five instructions a turn: 102 turns are 510 instructions, and the third of the next turn is not executed.
/// - turns: `boot: node r1`, `now r2`, `rlen r3`, `rfrom r4`, `brz r0, boot`, `ret`
const FUEL_BY_THE_COUNT_OF_BITS: &str = "version = 1
ticks = 1
[[program]]
name = \"turns\"
code = \"00060000ffffffffffffffffffffffffffffffffffff210100000000000022020000000000001e030000000000001f0400000000000009000000000000002300000000000000\"
[[node]]
program = \"turns\"
";

const FUEL_BY_THE_COUNT_OF_BITS_REPORT: &str = "report 1 mapping cob ticks 1 nodes 1
state 0 node 0 trace 111111111111111111111111111111111111111111111111111111111111111111111111111111111111111111111111111111 outcome fuel@2@0 inputs -
dstate 0 columns 0
failure 0 reached dstate 0 pick 0 inputs -
end states 1 dstates 1 reached 1 open 0
";

/// An event of 512 instructions: 15 constants, 15 turns of 33 instructions and 2 at the end.
/// - counted: `boot: const r1, 1` to `const r15, 1`, `turn: brz r1, out`, `mov r1, r2` to `mov r14, r15`,
/// `mov r15, r0`, 16 times `const r0, 0`, `jmp turn`, `mov r0, r0`, `out: ret`
const EXACTLY_THE_FUEL: &str = "version = 1
ticks = 1
[[program]]
name = \"counted\"
code = \"00320000ffffffffffffffffffffffffffffffffffff010100000001000001020000000100000103000000010000010400000001000001050000000100000106000000010000010700000001000001080000000100000109000000010000010a000000010000010b000000010000010c000000010000010d000000010000010e000000010000010f00000001000009010000003100000201020000000000020203000000000002030400000000000204050000000000020506000000000002060700000000000207080000000000020809000000000002090a0000000000020a0b0000000000020b0c0000000000020c0d0000000000020d0e0000000000020e0f0000000000020f000000000000010000000000000001000000000000000100000000000000010000000000000001000000000000000100000000000000010000000000000001000000000000000100000000000000010000000000000001000000000000000100000000000000010000000000000001000000000000000100000000000000010000000000000008000000000f000002000000000000002300000000000000\"
[[node]]
program = \"counted\"
";

const EXACTLY_THE_FUEL_REPORT: &str = "report 1 mapping cob ticks 1 nodes 1
state 0 node 0 trace 0000000000000001 outcome running inputs -
dstate 0 columns 0
end states 1 dstates 1 reached 0 open 0
";

/// With one instruction more before `ret`.
const EXACTLY_THE_FUEL_ONE_TOO_MANY: &str = "report 1 mapping cob ticks 1 nodes 1
state 0 node 0 trace 0000000000000001 outcome fuel@49@0 inputs -
dstate 0 columns 0
failure 0 reached dstate 0 pick 0 inputs -
end states 1 dstates 1 reached 1 open 0
";

/// The sender's branch and the receiver's assertion are on one input, and the packet's guard is empty: each node
/// alone is possible, and two of the four scenarios are not.
/// - tell: `boot: input r0, 1`, `send 0, r0, 1`, `brz r0, a`, `a: ret`
/// - asserts: `recv: recvw r0, 0`, `assert r0`, `ret`
const FAILURE_IN_NO_RUN: &str = "version = 1
ticks = 2
[[program]]
name = \"tell\"
code = \"00040000ffffffffffffffffffffffffffffffffffff0a000000000100000d0100000000000009000000000300002300000000000000\"
[[program]]
name = \"asserts\"
code = \"0003ffff0000ffffffffffffffffffffffffffffffff0f0000000000000020000000000000002300000000000000\"
[[node]]
program = \"tell\"
[[node]]
program = \"asserts\"
[[link]]
from = 0
to = 1
delay = 1
";

const FAILURE_IN_NO_RUN_REPORT: &str = "report 1 mapping cob ticks 2 nodes 2
state 0 node 0 trace 0 outcome running inputs 0.0=1
state 1 node 1 trace 0 outcome running inputs 0.0=1
state 2 node 0 trace 0 outcome running inputs 0.0=1
state 3 node 1 trace 1 outcome assert@1@1 inputs -
state 4 node 0 trace 1 outcome running inputs -
state 5 node 1 trace 0 outcome running inputs 0.0=1
state 6 node 0 trace 1 outcome running inputs -
state 7 node 1 trace 1 outcome assert@1@1 inputs -
dstate 0 columns 0 1
dstate 1 columns 2 3
dstate 2 columns 4 5
dstate 3 columns 6 7
failure 3 nowhere
failure 7 reached dstate 3 pick 6 7 inputs -
end states 8 dstates 4 reached 1 open 0
";

/// The packet is sent only where its word is not 0, so the assertion on it cannot fail.
/// - ifsend: `boot: input r0, 1`, `brz r0, a`, `send 0, r0, 1`, `a: ret`
/// - asserts: `recv: recvw r0, 0`, `assert r0`, `ret`
const GUARD_RULES_A_FAILURE_OUT: &str = "version = 1
ticks = 2
[[program]]
name = \"ifsend\"
code = \"00040000ffffffffffffffffffffffffffffffffffff0a0000000001000009000000000300000d010000000000002300000000000000\"
[[program]]
name = \"asserts\"
code = \"0003ffff0000ffffffffffffffffffffffffffffffff0f0000000000000020000000000000002300000000000000\"
[[node]]
program = \"ifsend\"
[[node]]
program = \"asserts\"
[[link]]
from = 0
to = 1
delay = 1
";

const GUARD_RULES_A_FAILURE_OUT_REPORT: &str = "report 1 mapping cob ticks 2 nodes 2
state 0 node 0 trace 0 outcome running inputs 0.0=1
state 1 node 1 trace 0 outcome running inputs 0.0=1
state 2 node 0 trace 1 outcome running inputs -
state 3 node 1 trace - outcome running inputs -
dstate 0 columns 0 1
dstate 1 columns 2 3
end states 4 dstates 2 reached 0 open 0
";

/// A relay that decides nothing sends on under the guard that it was sent.
/// - ifsend: `boot: input r0, 1`, `brz r0, a`, `send 0, r0, 1`, `a: ret`
/// - relay: `recv: recvw r0, 0`, `send 0, r0, 1`, `ret`
/// - asserts: `recv: recvw r0, 0`, `assert r0`, `ret`
const GUARD_GOES_ON_OVER_A_RELAY: &str = "version = 1
ticks = 3
[[program]]
name = \"ifsend\"
code = \"00040000ffffffffffffffffffffffffffffffffffff0a0000000001000009000000000300000d010000000000002300000000000000\"
[[program]]
name = \"relay\"
code = \"0003ffff0000ffffffffffffffffffffffffffffffff0f000000000000000d010000000000002300000000000000\"
[[program]]
name = \"asserts\"
code = \"0003ffff0000ffffffffffffffffffffffffffffffff0f0000000000000020000000000000002300000000000000\"
[[node]]
program = \"ifsend\"
[[node]]
program = \"relay\"
[[node]]
program = \"asserts\"
[[link]]
from = 0
to = 1
delay = 1
[[link]]
from = 1
to = 2
delay = 1
";

const GUARD_GOES_ON_OVER_A_RELAY_REPORT: &str = "report 1 mapping cob ticks 3 nodes 3
state 0 node 0 trace 0 outcome running inputs 0.0=1
state 1 node 1 trace - outcome running inputs 0.0=1
state 2 node 2 trace 0 outcome running inputs 0.0=1
state 3 node 0 trace 1 outcome running inputs -
state 4 node 1 trace - outcome running inputs -
state 5 node 2 trace - outcome running inputs -
dstate 0 columns 0 1 2
dstate 1 columns 3 4 5
end states 6 dstates 2 reached 0 open 0
";

/// Node 1 is sent to and sends in one tick: what it sends does not have the guard of what it was sent. Node 2 has
/// no link for its broadcast.
/// - ifsend: `boot: input r0, 1`, `brz r0, a`, `send 0, r0, 1`, `a: ret`
/// - sends: `boot: send 0, r0, 0`, `ret`
/// - calls: `boot: bcast r0, 1`, `ret`
const GUARDS_JOIN_AT_THE_END_OF_THE_TICK: &str = "version = 1
ticks = 2
[[program]]
name = \"ifsend\"
code = \"00040000ffffffffffffffffffffffffffffffffffff0a0000000001000009000000000300000d010000000000002300000000000000\"
[[program]]
name = \"sends\"
code = \"00020000ffffffffffffffffffffffffffffffffffff0d000000000000002300000000000000\"
[[program]]
name = \"calls\"
code = \"00020000ffffffffffffffffffffffffffffffffffff0e010000000000002300000000000000\"
[[node]]
program = \"ifsend\"
[[node]]
program = \"sends\"
[[node]]
program = \"calls\"
[[link]]
from = 0
to = 1
delay = 1
[[link]]
from = 1
to = 2
delay = 1
";

const GUARDS_JOIN_AT_THE_END_OF_THE_TICK_REPORT: &str = "report 1 mapping cob ticks 2 nodes 3
state 0 node 0 trace 0 outcome running inputs 0.0=1
state 1 node 1 trace - outcome running inputs 0.0=1
state 2 node 2 trace - outcome running inputs -
state 3 node 0 trace 1 outcome running inputs -
state 4 node 1 trace - outcome running inputs -
state 5 node 2 trace - outcome running inputs -
dstate 0 columns 0 1 2
dstate 1 columns 3 4 5
end states 6 dstates 2 reached 0 open 0
";

/// An input of the boot event and one of a timer's; the third decision is on the first input again.
/// - reads: `boot: input r0, 1`, `mov r1, r0`, `timer 0, 1`, `ret`, `timer0: input r0, 1`, `brz r1, a`,
/// `a: brz r0, b`, `b: brz r1, c`, `c: ret`
const INPUTS_OF_TWO_EVENTS: &str = "version = 1
ticks = 2
[[program]]
name = \"reads\"
code = \"00090000ffff0004ffffffffffffffffffffffffffff0a0000000001000002010000000000000b0000000001000023000000000000000a000000000100000901000000060000090000000007000009010000000800002300000000000000\"
[[node]]
program = \"reads\"
";

const INPUTS_OF_TWO_EVENTS_REPORT: &str = "report 1 mapping cob ticks 2 nodes 1
state 0 node 0 trace 000 outcome running inputs 0.0=1 0.1=1
state 1 node 0 trace 010 outcome running inputs 0.0=1
state 2 node 0 trace 101 outcome running inputs 0.1=1
state 3 node 0 trace 111 outcome running inputs -
dstate 0 columns 0
dstate 1 columns 1
dstate 2 columns 2
dstate 3 columns 3
end states 4 dstates 4 reached 0 open 0
";

/// Node 1 decides on the input at tick 1; node 0 sends again at tick 2 where it is not 0. This guard ends the
/// scenario in which node 1 found it 0, although the packet does not arrive any more.
/// - twice: `boot: input r0, 1`, `send 0, r0, 1`, `timer 0, 2`, `ret`, `timer0: brz r0, a`, `send 0, r0, 1`,
/// `a: ret`
/// - decides: `recv: recvw r0, 0`, `brz r0, a`, `a: ret`
const GUARD_AGAINST_AN_EARLIER_DECISION: &str = "version = 1
ticks = 3
[[program]]
name = \"twice\"
code = \"00070000ffff0004ffffffffffffffffffffffffffff0a000000000100000d010000000000000b00000000020000230000000000000009000000000600000d010000000000002300000000000000\"
[[program]]
name = \"decides\"
code = \"0003ffff0000ffffffffffffffffffffffffffffffff0f0000000000000009000000000200002300000000000000\"
[[node]]
program = \"twice\"
[[node]]
program = \"decides\"
[[link]]
from = 0
to = 1
delay = 1
";

const GUARD_AGAINST_AN_EARLIER_DECISION_REPORT: &str = "report 1 mapping cob ticks 3 nodes 2
state 0 node 0 trace 0 outcome running inputs 0.0=1
state 1 node 1 trace 0 outcome running inputs 0.0=1
state 2 node 0 trace 1 outcome running inputs -
state 3 node 1 trace 0 outcome running inputs 0.0=1
state 4 node 0 trace 1 outcome running inputs -
state 5 node 1 trace 1 outcome running inputs -
dstate 0 columns 0 1
dstate 1 columns 2 3
dstate 2 columns 4 5
end states 6 dstates 3 reached 0 open 0
";

/// With a fourth tick the packet arrives.
const GUARD_AGAINST_AN_EARLIER_DECISION_ARRIVES_TOO: &str = "report 1 mapping cob ticks 4 nodes 2
state 0 node 0 trace 0 outcome running inputs 0.0=1
state 1 node 1 trace 00 outcome running inputs 0.0=1
state 2 node 0 trace 1 outcome running inputs -
state 3 node 1 trace 0 outcome running inputs 0.0=1
state 4 node 0 trace 1 outcome running inputs -
state 5 node 1 trace 1 outcome running inputs -
dstate 0 columns 0 1
dstate 1 columns 2 3
dstate 2 columns 4 5
end states 6 dstates 3 reached 0 open 0
";

/// A node that halted and one that failed get the guards of what is sent to them.
/// - caller: `boot: input r0, 1`, `brz r0, a`, `bcast r0, 1`, `a: ret`
/// - halts: `boot: halt`, `recv: assert r0`, `ret`
/// - fails: `boot: assert r0`, `recv: halt`
const ENDED_NODES_ARE_STILL_SENT_TO: &str = "version = 1
ticks = 2
[[program]]
name = \"caller\"
code = \"00040000ffffffffffffffffffffffffffffffffffff0a0000000001000009000000000300000e010000000000002300000000000000\"
[[program]]
name = \"halts\"
code = \"000300000001ffffffffffffffffffffffffffffffff240000000000000020000000000000002300000000000000\"
[[program]]
name = \"fails\"
code = \"000200000001ffffffffffffffffffffffffffffffff20000000000000002400000000000000\"
[[node]]
program = \"caller\"
[[node]]
program = \"halts\"
[[node]]
program = \"fails\"
[[link]]
from = 0
to = 1
delay = 1
[[link]]
from = 0
to = 2
delay = 1
";

const ENDED_NODES_ARE_STILL_SENT_TO_REPORT: &str = "report 1 mapping cob ticks 2 nodes 3
state 0 node 0 trace 0 outcome running inputs 0.0=1
state 1 node 1 trace - outcome halted inputs 0.0=1
state 2 node 2 trace 1 outcome assert@0@0 inputs 0.0=1
state 3 node 0 trace 1 outcome running inputs -
state 4 node 1 trace - outcome halted inputs -
state 5 node 2 trace 1 outcome assert@0@0 inputs -
dstate 0 columns 0 1 2
dstate 1 columns 3 4 5
failure 2 reached dstate 0 pick 0 1 2 inputs 0.0=1
failure 5 reached dstate 1 pick 3 4 5 inputs -
end states 6 dstates 2 reached 2 open 0
";

/// Timer 0 comes before timer 1 of its tick, timer 2 was cancelled, timer 3 was set anew to tick 3, timer 4 comes
/// at tick 2.
/// - timers: `boot: timer 1, 1`, `timer 0, 1`, `timer 2, 1`, `cancel 2`, `timer 3, 1`, `timer 3, 3`, `timer 4, 2`,
/// `ret`, `timer0: const r0, 1`, `ret`, `timer1: brz r0, a`, `a: const r0, 0`, `ret`, `timer2: halt`,
/// `timer3: brz r0, b`, `b: halt`, `timer4: brz r0, c`, `c: ret`
const TIMERS_SET_REPLACED_AND_CANCELLED: &str = "version = 1
ticks = 4
[[program]]
name = \"timers\"
code = \"00120000ffff0008000a000d000e0010ffffffffffff0b010000000100000b000000000100000b020000000100000c020000000000000b030000000100000b030000000300000b0400000002000023000000000000000100000000010000230000000000000009000000000b000001000000000000002300000000000000240000000000000009000000000f0000240000000000000009000000001100002300000000000000\"
[[node]]
program = \"timers\"
";

const TIMERS_SET_REPLACED_AND_CANCELLED_REPORT: &str = "report 1 mapping cob ticks 4 nodes 1
state 0 node 0 trace 011 outcome halted inputs -
dstate 0 columns 0
end states 1 dstates 1 reached 0 open 0
";

/// Both nodes look at length, sender, words, own number and tick at boot, at a packet of two words and at a timer.
/// Node 1 has no link.
/// - looks: `boot: timer 0, 2`, `const r15, 7`, `send 0, r14, 2`, `recv:`, `timer0: rlen r0`, `brz r0, b`,
/// `b: rfrom r1`, `brz r1, c`, `c: recvw r2, 1`, `brz r2, d`, `d: recvw r3, 2`, `brz r3, e`, `e: node r4`,
/// `brz r4, f`, `f: now r5`, `brz r5, g`, `g: ret`
const WHAT_A_NODE_SEES: &str = "version = 1
ticks = 3
[[program]]
name = \"looks\"
code = \"0010000000030003ffffffffffffffffffffffffffff0b00000000020000010f0000000700000d020e00000000001e0000000000000009000000000500001f0100000000000009010000000700000f0200000001000009020000000900000f0300000002000009030000000b0000210400000000000009040000000d0000220500000000000009050000000f00002300000000000000\"
[[node]]
program = \"looks\"
[[node]]
program = \"looks\"
[[link]]
from = 0
to = 1
delay = 1
";

const WHAT_A_NODE_SEES_REPORT: &str = "report 1 mapping cob ticks 3 nodes 2
state 0 node 0 trace 101111101110 outcome running inputs -
state 1 node 1 trace 101101010100101100 outcome running inputs -
dstate 0 columns 0 1
end states 2 dstates 1 reached 0 open 0
";

/// At tick 2 the fourth packet of node 0 comes before the second and third of node 1; the first of node 1 comes at
/// tick 3. Node 1 has no handler for the three packets that it gets.
/// - late: `boot: send 1, r0, 0`, `send 1, r0, 0`, `send 1, r0, 0`, `timer 0, 1`, `ret`, `timer0: const r0, 1`,
/// `send 0, r0, 1`, `ret`
/// - three: `boot: const r0, 1`, `send 0, r0, 1`, `send 1, r1, 1`, `timer 0, 1`, `ret`, `timer0: send 2, r0, 1`,
/// `ret`
/// - decides: `recv: recvw r0, 0`, `brz r0, a`, `a: ret`
const ORDER_OF_PACKETS: &str = "version = 1
ticks = 4
[[program]]
name = \"late\"
code = \"00080000ffff0005ffffffffffffffffffffffffffff0d000000000100000d000000000100000d000000000100000b00000000010000230000000000000001000000000100000d010000000000002300000000000000\"
[[program]]
name = \"three\"
code = \"00070000ffff0005ffffffffffffffffffffffffffff01000000000100000d010000000000000d010100000100000b0000000001000023000000000000000d010000000200002300000000000000\"
[[program]]
name = \"decides\"
code = \"0003ffff0000ffffffffffffffffffffffffffffffff0f0000000000000009000000000200002300000000000000\"
[[node]]
program = \"late\"
[[node]]
program = \"three\"
[[node]]
program = \"decides\"
[[link]]
from = 0
to = 2
delay = 1
[[link]]
from = 0
to = 1
delay = 1
[[link]]
from = 1
to = 2
delay = 3
[[link]]
from = 1
to = 2
delay = 2
[[link]]
from = 1
to = 2
delay = 1
";

const ORDER_OF_PACKETS_REPORT: &str = "report 1 mapping cob ticks 4 nodes 3
state 0 node 0 trace - outcome running inputs -
state 1 node 1 trace - outcome running inputs -
state 2 node 2 trace 0100 outcome running inputs -
dstate 0 columns 0 1 2
end states 3 dstates 1 reached 0 open 0
";

/// A packet of eight words, the last register's last, and one of none.
/// - sender: `boot: const r15, 1`, `send 0, r8, 8`, `send 0, r0, 0`, `ret`
/// - reads: `recv: recvw r0, 7`, `brz r0, a`, `a: rlen r1`, `brz r1, b`, `b: ret`
const EIGHT_WORDS_AND_NONE: &str = "version = 1
ticks = 2
[[program]]
name = \"sender\"
code = \"00040000ffffffffffffffffffffffffffffffffffff010f0000000100000d080800000000000d000000000000002300000000000000\"
[[program]]
name = \"reads\"
code = \"0005ffff0000ffffffffffffffffffffffffffffffff0f0000000007000009000000000200001e0100000000000009010000000400002300000000000000\"
[[node]]
program = \"sender\"
[[node]]
program = \"reads\"
[[link]]
from = 0
to = 1
delay = 1
";

const EIGHT_WORDS_AND_NONE_REPORT: &str = "report 1 mapping cob ticks 2 nodes 2
state 0 node 0 trace - outcome running inputs -
state 1 node 1 trace 0011 outcome running inputs -
dstate 0 columns 0 1
end states 2 dstates 1 reached 0 open 0
";

/// Three nodes in a ring pass on an input of node 0 while it is not 0; the guard goes round with it.
/// - ring: `boot: node r1`, `brz r1, start`, `ret`, `start: timer 0, 1`, `ret`, `timer0: input r0, 1`,
/// `send 0, r0, 1`, `ret`, `recv: recvw r0, 0`, `brz r0, stop`, `send 0, r0, 1`, `stop: ret`
const ROUND_A_RING: &str = "version = 1
ticks = 6
[[program]]
name = \"ring\"
code = \"000c000000080005ffffffffffffffffffffffffffff2101000000000000090100000003000023000000000000000b0000000001000023000000000000000a000000000100000d0100000000000023000000000000000f0000000000000009000000000b00000d010000000000002300000000000000\"
[[node]]
program = \"ring\"
[[node]]
program = \"ring\"
[[node]]
program = \"ring\"
[[link]]
from = 0
to = 1
delay = 1
[[link]]
from = 1
to = 2
delay = 1
[[link]]
from = 2
to = 0
delay = 1
";

const ROUND_A_RING_REPORT: &str = "report 1 mapping cob ticks 6 nodes 3
state 0 node 0 trace 1 outcome running inputs -
state 1 node 1 trace 01 outcome running inputs -
state 2 node 2 trace 0 outcome running inputs -
state 3 node 0 trace 10 outcome running inputs 0.0=1
state 4 node 1 trace 000 outcome running inputs 0.0=1
state 5 node 2 trace 00 outcome running inputs 0.0=1
dstate 0 columns 0 1 2
dstate 1 columns 3 4 5
end states 6 dstates 2 reached 0 open 0
";

/// An input goes over a node that holds it for a tick, and over one that passes it on where it is not 0.
/// - source: `boot: input r0, 1`, `bcast r0, 1`, `ret`
/// - hold: `recv: recvw r0, 0`, `timer 0, 1`, `ret`, `timer0: send 0, r0, 1`, `ret`
/// - filter: `recv: recvw r0, 0`, `brz r0, a`, `send 0, r0, 1`, `a: ret`
/// - asserts: `recv: recvw r0, 0`, `assert r0`, `ret`
const TWO_WAYS_TO_ONE_NODE: &str = "version = 1
ticks = 4
[[program]]
name = \"source\"
code = \"00030000ffffffffffffffffffffffffffffffffffff0a000000000100000e010000000000002300000000000000\"
[[program]]
name = \"hold\"
code = \"0005ffff00000003ffffffffffffffffffffffffffff0f000000000000000b0000000001000023000000000000000d010000000000002300000000000000\"
[[program]]
name = \"filter\"
code = \"0004ffff0000ffffffffffffffffffffffffffffffff0f0000000000000009000000000300000d010000000000002300000000000000\"
[[program]]
name = \"asserts\"
code = \"0003ffff0000ffffffffffffffffffffffffffffffff0f0000000000000020000000000000002300000000000000\"
[[node]]
program = \"source\"
[[node]]
program = \"hold\"
[[node]]
program = \"filter\"
[[node]]
program = \"asserts\"
[[link]]
from = 0
to = 1
delay = 1
[[link]]
from = 0
to = 2
delay = 1
[[link]]
from = 1
to = 3
delay = 1
[[link]]
from = 2
to = 3
delay = 1
";

const TWO_WAYS_TO_ONE_NODE_REPORT: &str = "report 1 mapping cob ticks 4 nodes 4
state 0 node 0 trace - outcome running inputs -
state 1 node 1 trace - outcome running inputs -
state 2 node 2 trace 0 outcome running inputs 0.0=1
state 3 node 3 trace 00 outcome running inputs 0.0=1
state 4 node 0 trace - outcome running inputs -
state 5 node 1 trace - outcome running inputs -
state 6 node 2 trace 1 outcome running inputs -
state 7 node 3 trace 0 outcome running inputs 0.0=1
state 8 node 0 trace - outcome running inputs -
state 9 node 1 trace - outcome running inputs -
state 10 node 2 trace 1 outcome running inputs -
state 11 node 3 trace 1 outcome assert@1@3 inputs -
dstate 0 columns 0 1 2 3
dstate 1 columns 4 5 6 7
dstate 2 columns 8 9 10 11
failure 11 reached dstate 2 pick 8 9 10 11 inputs -
end states 12 dstates 3 reached 1 open 0
";

/// Two nodes each claim where their input is not 0, and fail on the other's claim where they claimed too; a third
/// hears both.
/// - claims: `boot: input r0, 1`, `brz r0, a`, `bcast r0, 1`, `a: ret`, `recv: brz r0, b`, `assert r1`, `b: ret`
/// - hears: `recv: recvw r0, 0`, `assert r0`, `ret`
const TWO_CLAIMS_MEET: &str = "version = 1
ticks = 2
[[program]]
name = \"claims\"
code = \"000700000004ffffffffffffffffffffffffffffffff0a0000000001000009000000000300000e010000000000002300000000000000090000000006000020010000000000002300000000000000\"
[[program]]
name = \"hears\"
code = \"0003ffff0000ffffffffffffffffffffffffffffffff0f0000000000000020000000000000002300000000000000\"
[[node]]
program = \"claims\"
[[node]]
program = \"claims\"
[[node]]
program = \"hears\"
[[link]]
from = 0
to = 1
delay = 1
[[link]]
from = 0
to = 2
delay = 1
[[link]]
from = 1
to = 0
delay = 1
[[link]]
from = 1
to = 2
delay = 1
";

const TWO_CLAIMS_MEET_REPORT: &str = "report 1 mapping cob ticks 2 nodes 3
state 0 node 0 trace 0 outcome running inputs 0.0=1
state 1 node 1 trace 11 outcome running inputs 0.0=1
state 2 node 2 trace 0 outcome running inputs 0.0=1
state 3 node 0 trace 001 outcome assert@5@1 inputs 0.0=1 1.0=1
state 4 node 1 trace 001 outcome assert@5@1 inputs 0.0=1 1.0=1
state 5 node 2 trace 00 outcome running inputs 0.0=1 1.0=1
state 6 node 0 trace 1 outcome running inputs -
state 7 node 1 trace 1 outcome running inputs -
state 8 node 2 trace - outcome running inputs -
state 9 node 0 trace 11 outcome running inputs 1.0=1
state 10 node 1 trace 0 outcome running inputs 1.0=1
state 11 node 2 trace 0 outcome running inputs 1.0=1
dstate 0 columns 0 1 2
dstate 1 columns 3 4 5
dstate 2 columns 6 7 8
dstate 3 columns 9 10 11
failure 3 reached dstate 1 pick 3 4 5 inputs 0.0=1 1.0=1
failure 4 reached dstate 1 pick 3 4 5 inputs 0.0=1 1.0=1
end states 12 dstates 4 reached 2 open 0
";

/// A timer set to tick 4,095, the last of 4,096, and one that is due after them.
/// - waits: `boot: timer 1, 65535`, `timer 0, 4095`, `ret`, `timer0: halt`
const THE_LAST_OF_ALL_TICKS: &str = "version = 1
ticks = 4096
[[program]]
name = \"waits\"
code = \"00040000ffff0003ffffffffffffffffffffffffffff0b010000ffff00000b0000000fff000023000000000000002400000000000000\"
[[node]]
program = \"waits\"
";

const THE_LAST_OF_ALL_TICKS_REPORT: &str = "report 1 mapping cob ticks 4096 nodes 1
state 0 node 0 trace - outcome halted inputs -
dstate 0 columns 0
end states 1 dstates 1 reached 0 open 0
";

/// With one tick less.
const THE_LAST_OF_ALL_TICKS_A_TICK_LESS: &str = "report 1 mapping cob ticks 4095 nodes 1
state 0 node 0 trace - outcome running inputs -
dstate 0 columns 0
end states 1 dstates 1 reached 0 open 0
";

/// 170 branches in one event.
/// - wide: `boot: input r0, 1`, `brz r0, a`, `a: jmp boot`
const MORE_PREFIXES_THAN_THE_LIMIT: &str = "version = 1
ticks = 1
[[program]]
name = \"wide\"
code = \"00030000ffffffffffffffffffffffffffffffffffff0a0000000001000009000000000200000800000000000000\"
[[node]]
program = \"wide\"
";

const MORE_PREFIXES_THAN_THE_LIMIT_REPORT: &str = "netsym: limit states tick 0
";

/// Seven branches of each of two nodes at tick 1 are 16,384 scenarios.
/// - seven: `boot: timer 0, 1`, `ret`, `timer0: input r0, 1`, `brz r0, a`, `a: input r0, 1`, `brz r0, b`,
/// `b: input r0, 1`, `brz r0, c`, `c: input r0, 1`, `brz r0, d`, `d: input r0, 1`, `brz r0, e`, `e: input r0, 1`,
/// `brz r0, f`, `f: input r0, 1`, `brz r0, g`, `g: ret`
const MORE_SCENARIOS_THAN_THE_LIMIT: &str = "version = 1
ticks = 3
[[program]]
name = \"seven\"
code = \"00110000ffff0002ffffffffffffffffffffffffffff0b0000000001000023000000000000000a0000000001000009000000000400000a0000000001000009000000000600000a0000000001000009000000000800000a0000000001000009000000000a00000a0000000001000009000000000c00000a0000000001000009000000000e00000a0000000001000009000000001000002300000000000000\"
[[node]]
program = \"seven\"
[[node]]
program = \"seven\"
";

const MORE_SCENARIOS_THAN_THE_LIMIT_REPORT: &str = "netsym: limit dstates tick 1
";

/// Worked files that decide on single bits, send packets, set timers and meet limits.
pub const ROWS: [Row; 44] = [
    Row {
        name: "a failure that is far for the conflicts stays open",
        file: ALL_OF_TWELVE,
        change: AS_IT_STANDS,
        status: Status::Open,
        text: ALL_OF_TWELVE_OPEN,
    },
    Row {
        name: "as many conflicts as valuations find it",
        file: ALL_OF_TWELVE,
        change: ("2048", "4096"),
        status: Status::Found,
        text: ALL_OF_TWELVE_FOUND,
    },
    Row {
        name: "halves",
        file: HALVES,
        change: AS_IT_STANDS,
        status: Status::Clean,
        text: HALVES_REPORT,
    },
    Row {
        name: "careful",
        file: CAREFUL,
        change: AS_IT_STANDS,
        status: Status::Found,
        text: CAREFUL_REPORT,
    },
    Row {
        name: "constant",
        file: CONSTANT,
        change: AS_IT_STANDS,
        status: Status::Found,
        text: CONSTANT_REPORT,
    },
    Row {
        name: "no ticks",
        file: HALVES,
        change: ("ticks = 1", "ticks = 0"),
        status: Status::Clean,
        text: NO_TICKS_REPORT,
    },
    Row {
        name: "upper case",
        file: HALVES,
        change: ("ffff", "FFFF"),
        status: Status::Clean,
        text: HALVES_REPORT,
    },
    Row {
        name: "one packet or none",
        file: ONE_PACKET_OR_NONE,
        change: AS_IT_STANDS,
        status: Status::Clean,
        text: ONE_PACKET_OR_NONE_REPORT,
    },
    Row {
        name: "one packet or none never arrives",
        file: ONE_PACKET_OR_NONE,
        change: ("ticks = 2", "ticks = 1"),
        status: Status::Clean,
        text: ONE_PACKET_OR_NONE_NEVER_ARRIVES,
    },
    Row {
        name: "packet before timer",
        file: PACKET_BEFORE_TIMER,
        change: AS_IT_STANDS,
        status: Status::Clean,
        text: PACKET_BEFORE_TIMER_REPORT,
    },
    Row {
        name: "decided after sending",
        file: DECIDED_AFTER_SENDING,
        change: AS_IT_STANDS,
        status: Status::Clean,
        text: DECIDED_AFTER_SENDING_REPORT,
    },
    Row {
        name: "equal words from two ways",
        file: EQUAL_WORDS_FROM_TWO_WAYS,
        change: AS_IT_STANDS,
        status: Status::Clean,
        text: EQUAL_WORDS_FROM_TWO_WAYS_REPORT,
    },
    Row {
        name: "relayed with timers",
        file: RELAYED_WITH_TIMERS,
        change: AS_IT_STANDS,
        status: Status::Clean,
        text: RELAYED_WITH_TIMERS_REPORT,
    },
    Row {
        name: "relayed with timers a tick before",
        file: RELAYED_WITH_TIMERS,
        change: ("ticks = 8", "ticks = 7"),
        status: Status::Clean,
        text: RELAYED_WITH_TIMERS_A_TICK_BEFORE,
    },
    Row {
        name: "broadcast and link numbers",
        file: BROADCAST_AND_LINK_NUMBERS,
        change: AS_IT_STANDS,
        status: Status::Found,
        text: BROADCAST_AND_LINK_NUMBERS_REPORT,
    },
    Row {
        name: "spinning without end",
        file: SPINNING_WITHOUT_END,
        change: AS_IT_STANDS,
        status: Status::Found,
        text: SPINNING_WITHOUT_END_REPORT,
    },
    Row {
        name: "fuel by the count of bits",
        file: FUEL_BY_THE_COUNT_OF_BITS,
        change: AS_IT_STANDS,
        status: Status::Found,
        text: FUEL_BY_THE_COUNT_OF_BITS_REPORT,
    },
    Row {
        name: "exactly the fuel",
        file: EXACTLY_THE_FUEL,
        change: AS_IT_STANDS,
        status: Status::Clean,
        text: EXACTLY_THE_FUEL_REPORT,
    },
    Row {
        name: "exactly the fuel one too many",
        file: EXACTLY_THE_FUEL,
        change: ("0901000000310000", "0901000000300000"),
        status: Status::Found,
        text: EXACTLY_THE_FUEL_ONE_TOO_MANY,
    },
    Row {
        name: "failure in no run",
        file: FAILURE_IN_NO_RUN,
        change: AS_IT_STANDS,
        status: Status::Found,
        text: FAILURE_IN_NO_RUN_REPORT,
    },
    Row {
        name: "guard rules a failure out",
        file: GUARD_RULES_A_FAILURE_OUT,
        change: AS_IT_STANDS,
        status: Status::Clean,
        text: GUARD_RULES_A_FAILURE_OUT_REPORT,
    },
    Row {
        name: "guard goes on over a relay",
        file: GUARD_GOES_ON_OVER_A_RELAY,
        change: AS_IT_STANDS,
        status: Status::Clean,
        text: GUARD_GOES_ON_OVER_A_RELAY_REPORT,
    },
    Row {
        name: "guards join at the end of the tick",
        file: GUARDS_JOIN_AT_THE_END_OF_THE_TICK,
        change: AS_IT_STANDS,
        status: Status::Clean,
        text: GUARDS_JOIN_AT_THE_END_OF_THE_TICK_REPORT,
    },
    Row {
        name: "inputs of two events",
        file: INPUTS_OF_TWO_EVENTS,
        change: AS_IT_STANDS,
        status: Status::Clean,
        text: INPUTS_OF_TWO_EVENTS_REPORT,
    },
    Row {
        name: "guard against an earlier decision",
        file: GUARD_AGAINST_AN_EARLIER_DECISION,
        change: AS_IT_STANDS,
        status: Status::Clean,
        text: GUARD_AGAINST_AN_EARLIER_DECISION_REPORT,
    },
    Row {
        name: "guard against an earlier decision arrives too",
        file: GUARD_AGAINST_AN_EARLIER_DECISION,
        change: ("ticks = 3", "ticks = 4"),
        status: Status::Clean,
        text: GUARD_AGAINST_AN_EARLIER_DECISION_ARRIVES_TOO,
    },
    Row {
        name: "ended nodes are still sent to",
        file: ENDED_NODES_ARE_STILL_SENT_TO,
        change: AS_IT_STANDS,
        status: Status::Found,
        text: ENDED_NODES_ARE_STILL_SENT_TO_REPORT,
    },
    Row {
        name: "timers set replaced and cancelled",
        file: TIMERS_SET_REPLACED_AND_CANCELLED,
        change: AS_IT_STANDS,
        status: Status::Clean,
        text: TIMERS_SET_REPLACED_AND_CANCELLED_REPORT,
    },
    Row {
        name: "what a node sees",
        file: WHAT_A_NODE_SEES,
        change: AS_IT_STANDS,
        status: Status::Clean,
        text: WHAT_A_NODE_SEES_REPORT,
    },
    Row {
        name: "order of packets",
        file: ORDER_OF_PACKETS,
        change: AS_IT_STANDS,
        status: Status::Clean,
        text: ORDER_OF_PACKETS_REPORT,
    },
    Row {
        name: "eight words and none",
        file: EIGHT_WORDS_AND_NONE,
        change: AS_IT_STANDS,
        status: Status::Clean,
        text: EIGHT_WORDS_AND_NONE_REPORT,
    },
    Row {
        name: "round a ring",
        file: ROUND_A_RING,
        change: AS_IT_STANDS,
        status: Status::Clean,
        text: ROUND_A_RING_REPORT,
    },
    Row {
        name: "two ways to one node",
        file: TWO_WAYS_TO_ONE_NODE,
        change: AS_IT_STANDS,
        status: Status::Found,
        text: TWO_WAYS_TO_ONE_NODE_REPORT,
    },
    Row {
        name: "two claims meet",
        file: TWO_CLAIMS_MEET,
        change: AS_IT_STANDS,
        status: Status::Found,
        text: TWO_CLAIMS_MEET_REPORT,
    },
    Row {
        name: "the last of all ticks",
        file: THE_LAST_OF_ALL_TICKS,
        change: AS_IT_STANDS,
        status: Status::Clean,
        text: THE_LAST_OF_ALL_TICKS_REPORT,
    },
    Row {
        name: "the last of all ticks a tick less",
        file: THE_LAST_OF_ALL_TICKS,
        change: ("ticks = 4096", "ticks = 4095"),
        status: Status::Clean,
        text: THE_LAST_OF_ALL_TICKS_A_TICK_LESS,
    },
    Row {
        name: "more prefixes than the limit",
        file: MORE_PREFIXES_THAN_THE_LIMIT,
        change: AS_IT_STANDS,
        status: Status::Limit,
        text: MORE_PREFIXES_THAN_THE_LIMIT_REPORT,
    },
    Row {
        name: "more scenarios than the limit",
        file: MORE_SCENARIOS_THAN_THE_LIMIT,
        change: AS_IT_STANDS,
        status: Status::Limit,
        text: MORE_SCENARIOS_THAN_THE_LIMIT_REPORT,
    },
    Row {
        name: "a fuel of the file",
        file: EXACTLY_THE_FUEL,
        change: ("ticks = 1\n", "ticks = 1\nfuel = 511\n"),
        status: Status::Found,
        text: EXACTLY_THE_FUEL_ONE_TOO_MANY,
    },
    Row {
        name: "two paths and two states",
        file: CAREFUL,
        change: ("ticks = 1\n", "ticks = 1\nstates = 2\n"),
        status: Status::Found,
        text: CAREFUL_REPORT,
    },
    Row {
        name: "two paths and one state",
        file: CAREFUL,
        change: ("ticks = 1\n", "ticks = 1\nstates = 1\n"),
        status: Status::Limit,
        text: "netsym: limit states tick 0\n",
    },
    Row {
        name: "two scenarios and two dstates",
        file: ONE_PACKET_OR_NONE,
        change: ("ticks = 2\n", "ticks = 2\ndstates = 2\n"),
        status: Status::Clean,
        text: ONE_PACKET_OR_NONE_REPORT,
    },
    Row {
        name: "two scenarios and one dstate",
        file: ONE_PACKET_OR_NONE,
        change: ("ticks = 2\n", "ticks = 2\ndstates = 1\n"),
        status: Status::Limit,
        text: "netsym: limit dstates tick 0\n",
    },
    Row {
        name: "nothing is lost and nobody reboots",
        file: HALVES,
        change: (
            "program = \"half\"\n",
            "program = \"half\"\nloss = 0\nduplicate = 0\nreboot = []\n",
        ),
        status: Status::Clean,
        text: HALVES_REPORT,
    },
];

/// Words of more bits than one, bounds, failures that no inputs reach, and what is refused.
pub const ROWS_OF_WORDS_AND_REFUSALS: [Row; 16] = [
    Row {
        name: "both sides of two branches",
        file: TWO_INPUTS,
        change: AS_IT_STANDS,
        status: Status::Clean,
        text: "report 1 mapping cob ticks 1 nodes 1
state 0 node 0 trace 00 outcome running inputs 0.0=1 0.1=1
state 1 node 0 trace 01 outcome running inputs 0.0=1
state 2 node 0 trace 10 outcome running inputs 0.1=1
state 3 node 0 trace 11 outcome running inputs -
dstate 0 columns 0
dstate 1 columns 1
dstate 2 columns 2
dstate 3 columns 3
end states 4 dstates 4 reached 0 open 0
",
    },
    Row {
        name: "impossible sides of a loop are dropped",
        file: COUNT,
        change: AS_IT_STANDS,
        status: Status::Clean,
        text: "report 1 mapping cob ticks 1 nodes 1
state 0 node 0 trace 00000000001 outcome running inputs -
dstate 0 columns 0
end states 1 dstates 1 reached 0 open 0
",
    },
    Row {
        name: "an index out of range",
        file: BOUNDS,
        change: AS_IT_STANDS,
        status: Status::Found,
        text: "report 1 mapping cob ticks 1 nodes 1
state 0 node 0 trace 01 outcome bounds@8@0 inputs -
dstate 0 columns 0
failure 0 reached dstate 0 pick 0 inputs -
end states 1 dstates 1 reached 1 open 0
",
    },
    Row {
        name: "a failing child that a guard makes impossible",
        file: IMPOSSIBLE_CHILD,
        change: AS_IT_STANDS,
        status: Status::Clean,
        text: "report 1 mapping cob ticks 2 nodes 2
state 0 node 0 trace 0 outcome running inputs -
state 1 node 1 trace 0 outcome running inputs -
state 2 node 0 trace 1 outcome running inputs 0.0=10
state 3 node 1 trace - outcome running inputs -
dstate 0 columns 0 1
dstate 1 columns 2 3
end states 4 dstates 2 reached 0 open 0
",
    },
    Row {
        name: "a failure that no inputs of the whole scenario meet",
        file: NOWHERE,
        change: AS_IT_STANDS,
        status: Status::Clean,
        text: "report 1 mapping cob ticks 3 nodes 2
state 0 node 0 trace 0 outcome running inputs 0.0=1
state 1 node 1 trace 1 outcome running inputs 0.0=1
state 2 node 0 trace 1 outcome running inputs -
state 3 node 1 trace 00 outcome running inputs -
state 4 node 0 trace 1 outcome running inputs -
state 5 node 1 trace 01 outcome assert@16@2 inputs 0.0=1
dstate 0 columns 0 1
dstate 1 columns 2 3
dstate 2 columns 4 5
failure 5 nowhere
end states 6 dstates 3 reached 0 open 0
",
    },
    Row {
        name: "an input of two bits",
        file: HALVES,
        change: ("0a00000000010000", "0a00000000020000"),
        status: Status::Clean,
        text: HALVES_REPORT,
    },
    Row {
        name: "an operator in the place of the branch",
        file: HALVES,
        change: ("0900000000020000", "1000000000000000"),
        status: Status::Clean,
        text: "report 1 mapping cob ticks 1 nodes 2
state 0 node 0 trace - outcome running inputs -
state 1 node 1 trace - outcome running inputs -
dstate 0 columns 0 1
end states 2 dstates 1 reached 0 open 0
",
    },
    Row {
        name: "a packet may be lost, and none is sent",
        file: HALVES,
        change: ("program = \"half\"\n", "program = \"half\"\nloss = 1\n"),
        status: Status::Clean,
        text: HALVES_REPORT,
    },
    Row {
        name: "a packet may be doubled, and none is sent",
        file: HALVES,
        change: (
            "program = \"half\"\n",
            "program = \"half\"\nduplicate = 1\n",
        ),
        status: Status::Clean,
        text: HALVES_REPORT,
    },
    Row {
        name: "a packet may be lost, or doubled, and then its copy lost",
        file: LOST_OR_TWICE,
        change: AS_IT_STANDS,
        status: Status::Clean,
        text: "report 1 mapping cob ticks 3 nodes 2
state 0 node 0 trace - outcome running inputs -
state 1 node 1 trace 00 outcome running inputs -
state 2 node 0 trace - outcome running inputs -
state 3 node 1 trace 010 outcome running inputs 1.1=1
state 4 node 0 trace - outcome running inputs -
state 5 node 1 trace 011 outcome running inputs 1.1=1 1.2=1
state 6 node 0 trace - outcome running inputs -
state 7 node 1 trace 1 outcome running inputs 1.0=1
dstate 0 columns 0 1
dstate 1 columns 2 3
dstate 2 columns 4 5
dstate 3 columns 6 7
end states 8 dstates 4 reached 0 open 0
",
    },
    Row {
        name: "a reboot before a timer, and a packet that waits",
        file: REBOOT,
        change: AS_IT_STANDS,
        status: Status::Found,
        text: "report 1 mapping cob ticks 3 nodes 2
state 0 node 0 trace - outcome running inputs -
state 1 node 1 trace 0 outcome halted inputs -
state 2 node 0 trace - outcome running inputs -
state 3 node 1 trace 11 outcome assert@3@2 inputs 1.0=1
dstate 0 columns 0 1
dstate 1 columns 2 3
failure 3 reached dstate 1 pick 2 3 inputs 1.0=1
end states 4 dstates 2 reached 1 open 0
",
    },
    Row {
        name: "no reboot of a node that halted",
        file: REBOOT,
        change: ("boot:   timer 0, 1", "boot:   halt"),
        status: Status::Clean,
        text: "report 1 mapping cob ticks 3 nodes 2
state 0 node 0 trace - outcome running inputs -
state 1 node 1 trace - outcome halted inputs -
dstate 0 columns 0 1
end states 2 dstates 1 reached 0 open 0
",
    },
    Row {
        name: "no reboot of a node that failed",
        file: REBOOT,
        change: ("boot:   timer 0, 1", "boot:   assert r0"),
        status: Status::Found,
        text: "report 1 mapping cob ticks 3 nodes 2
state 0 node 0 trace - outcome running inputs -
state 1 node 1 trace 1 outcome assert@0@0 inputs -
dstate 0 columns 0 1
failure 1 reached dstate 0 pick 0 1 inputs -
end states 2 dstates 1 reached 1 open 0
",
    },
    Row {
        name: "too many losses",
        file: HALVES,
        change: ("program = \"half\"\n", "program = \"half\"\nloss = 16\n"),
        status: Status::Refused,
        text: "netsym: refused F11 node[0].loss\n",
    },
    Row {
        name: "a delay of no tick",
        file: ONE_PACKET_OR_NONE,
        change: ("delay = 1", "delay = 0"),
        status: Status::Refused,
        text: "netsym: refused F10 link[0].delay\n",
    },
    Row {
        name: "a key that is not listed",
        file: ONE_PACKET_OR_NONE,
        change: ("ticks = 2\n", "colour = 1\nticks = 2\n"),
        status: Status::Refused,
        text: "netsym: refused F3 top\n",
    },
];

/// Files with inputs, which are replayed.
pub const REPLAYS: [Row; 6] = [
    Row {
        name: "the failure after a reboot",
        file: REBOOT,
        change: (
            "delay = 2\n",
            "delay = 2\n[[input]]\nnode = 1\nindex = 0\nvalue = 1\n",
        ),
        status: Status::Found,
        text: "replay 1 ticks 3 nodes 2
tick 0 node 0 event boot bits -
tick 0 node 1 event boot bits -
tick 1 node 1 event reboot bits 1
tick 2 node 1 event packet 0.0.0 bits 1
node 0 trace - outcome running
node 1 trace 11 outcome assert@3@2
end failed 1
",
    },
    Row {
        name: "no reboot where the input is not given",
        file: REBOOT,
        change: AS_IT_STANDS,
        status: Status::Clean,
        text: "replay 1 ticks 3 nodes 2
tick 0 node 0 event boot bits -
tick 0 node 1 event boot bits -
tick 1 node 1 event reboot bits 0
tick 1 node 1 event timer 0 bits -
node 0 trace - outcome running
node 1 trace 0 outcome halted
end failed 0
",
    },
    Row {
        name: "a packet that is doubled, and its copy lost",
        file: LOST_OR_TWICE,
        change: (
            "delay = 1\n",
            "delay = 1\n[[input]]\nnode = 1\nindex = 1\nvalue = 1\n[[input]]\nnode = 1\nindex = 2\nvalue = 1\n",
        ),
        status: Status::Clean,
        text: "replay 1 ticks 3 nodes 2
tick 0 node 0 event boot bits -
tick 0 node 1 event boot bits -
tick 1 node 1 event packet 0.0.0 bits 01
tick 2 node 1 event packet 0.0.1 bits 1
node 0 trace - outcome running
node 1 trace 011 outcome running
end failed 0
",
    },
    Row {
        name: "three packets of a tree lost",
        file: TREE,
        change: (
            "from = 5\nto = 0\ndelay = 1\n",
            "from = 5\nto = 0\ndelay = 1\n[[input]]\nnode = 0\nindex = 0\nvalue = 1\n[[input]]\nnode = 1\nindex = 0\nvalue = 1\n[[input]]\nnode = 2\nindex = 0\nvalue = 1\n",
        ),
        status: Status::Found,
        text: "replay 1 ticks 12 nodes 6
tick 0 node 0 event boot bits -
tick 0 node 1 event boot bits -
tick 0 node 2 event boot bits -
tick 0 node 3 event boot bits -
tick 0 node 4 event boot bits -
tick 0 node 5 event boot bits -
tick 1 node 3 event timer 0 bits -
tick 1 node 4 event timer 0 bits -
tick 1 node 5 event timer 0 bits -
tick 2 node 0 event packet 5.0.0 bits 1
tick 2 node 1 event packet 3.0.0 bits 1
tick 2 node 2 event packet 4.0.0 bits 1
tick 10 node 0 event timer 0 bits 1
node 0 trace 11 outcome assert@8@10
node 1 trace 1 outcome running
node 2 trace 1 outcome running
node 3 trace - outcome running
node 4 trace - outcome running
node 5 trace - outcome running
end failed 1
",
    },
    Row {
        name: "a loop that counts down",
        file: COUNT,
        change: AS_IT_STANDS,
        status: Status::Clean,
        text: "replay 1 ticks 1 nodes 1
tick 0 node 0 event boot bits 00000000001
node 0 trace 00000000001 outcome running
end failed 0
",
    },
    Row {
        name: "a file that is refused",
        file: REBOOT,
        change: ("delay = 2", "delay = 0"),
        status: Status::Refused,
        text: "netsym: refused F10 link[0].delay\n",
    },
];
