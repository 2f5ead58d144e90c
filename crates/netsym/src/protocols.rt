//! The protocols of examples/ and their stored reports. Written by bench/protocol_rows.

use kn_report::Status;

/// A protocol, and the report on it.
#[derive(Clone, Copy)]
pub struct Protocol {
    /// The name of its file, without `.toml`.
    pub name: &'static str,
    pub file: &'static str,
    pub status: Status,
    pub report: &'static str,
}

const COLLECTION: &str =
    "# A collection tree over lossy links. Node 1 is a relay with two leaves below it, and passes what they send on to the sink,
# node 0. Each of the three sensors (the relay is one too) sends one reading, and the sink counts what comes. At its deadline it
# wants to have counted three. Nobody sends a reading twice, so one that is lost on the way is missing: the failure.
#
#     ./netsym explore --mapping cob < examples/collection.toml
#     ./netsym replay < examples/collection.replay

version = 1
ticks = 5               # the readings are there in tick 2 and 3, the deadline is in tick 4

[[program]]
name = \"sink\"
asm = '''
boot:   timer 0, 4      ; the deadline
        const r1, 1
        const r3, 3     ; how many readings there are in the tree
        ret

recv:   add r2, r2, r1  ; register 2 counts the readings
        recvw r0, 0     ; and register 0 is the last one
        ret

timer0: eq r4, r2, r3
        assert r4       ; instruction 8: a reading is missing
        ret
'''

[[program]]
name = \"relay\"
asm = '''
boot:   timer 0, 1
        ret

recv:   recvw r0, 0     ; a reading from below is passed on
        send 0, r0, 1
        ret

timer0: input r0, 4     ; and the relay has one of its own
        send 0, r0, 1
        ret
'''

[[program]]
name = \"leaf\"
asm = '''
boot:   timer 0, 1
        ret

timer0: input r0, 4     ; a reading of four bits
        send 0, r0, 1   ; to the node above
        ret
'''

[[node]]                # node 0
program = \"sink\"
loss = 1                # of the packets to the sink one may be lost

[[node]]                # node 1
program = \"relay\"
loss = 1                # and of those to the relay

[[node]]                # node 2
program = \"leaf\"

[[node]]                # node 3
program = \"leaf\"

[[link]]
from = 1
to = 0
delay = 1

[[link]]
from = 2
to = 1
delay = 1

[[link]]
from = 3
to = 1
delay = 1
";

const COLLECTION_REPORT: &str = "report 1 mapping cob ticks 5 nodes 4
state 0 node 0 trace 0000 outcome running inputs -
state 1 node 1 trace 00 outcome running inputs -
state 2 node 2 trace - outcome running inputs -
state 3 node 3 trace - outcome running inputs -
state 4 node 0 trace 001 outcome assert@8@4 inputs -
state 5 node 1 trace 01 outcome running inputs 1.2=1
state 6 node 2 trace - outcome running inputs -
state 7 node 3 trace - outcome running inputs -
state 8 node 0 trace 001 outcome assert@8@4 inputs 1.1=1
state 9 node 1 trace 1 outcome running inputs 1.1=1
state 10 node 2 trace - outcome running inputs -
state 11 node 3 trace - outcome running inputs -
state 12 node 0 trace 0011 outcome assert@8@4 inputs 0.2=1
state 13 node 1 trace 00 outcome running inputs -
state 14 node 2 trace - outcome running inputs -
state 15 node 3 trace - outcome running inputs -
state 16 node 0 trace 011 outcome assert@8@4 inputs 0.1=1
state 17 node 1 trace 00 outcome running inputs -
state 18 node 2 trace - outcome running inputs -
state 19 node 3 trace - outcome running inputs -
state 20 node 0 trace 011 outcome assert@8@4 inputs 0.1=1
state 21 node 1 trace 01 outcome running inputs 1.2=1
state 22 node 2 trace - outcome running inputs -
state 23 node 3 trace - outcome running inputs -
state 24 node 0 trace 011 outcome assert@8@4 inputs 0.1=1 1.1=1
state 25 node 1 trace 1 outcome running inputs 1.1=1
state 26 node 2 trace - outcome running inputs -
state 27 node 3 trace - outcome running inputs -
state 28 node 0 trace 11 outcome assert@8@4 inputs 0.0=1
state 29 node 1 trace 00 outcome running inputs -
state 30 node 2 trace - outcome running inputs -
state 31 node 3 trace - outcome running inputs -
state 32 node 0 trace 11 outcome assert@8@4 inputs 0.0=1
state 33 node 1 trace 01 outcome running inputs 1.2=1
state 34 node 2 trace - outcome running inputs -
state 35 node 3 trace - outcome running inputs -
state 36 node 0 trace 11 outcome assert@8@4 inputs 0.0=1 1.1=1
state 37 node 1 trace 1 outcome running inputs 1.1=1
state 38 node 2 trace - outcome running inputs -
state 39 node 3 trace - outcome running inputs -
dstate 0 columns 0 1 2 3
dstate 1 columns 4 5 6 7
dstate 2 columns 8 9 10 11
dstate 3 columns 12 13 14 15
dstate 4 columns 16 17 18 19
dstate 5 columns 20 21 22 23
dstate 6 columns 24 25 26 27
dstate 7 columns 28 29 30 31
dstate 8 columns 32 33 34 35
dstate 9 columns 36 37 38 39
failure 4 reached dstate 1 pick 4 5 6 7 inputs 1.2=1
failure 8 reached dstate 2 pick 8 9 10 11 inputs 1.1=1
failure 12 reached dstate 3 pick 12 13 14 15 inputs 0.2=1
failure 16 reached dstate 4 pick 16 17 18 19 inputs 0.1=1
failure 20 reached dstate 5 pick 20 21 22 23 inputs 0.1=1 1.2=1
failure 24 reached dstate 6 pick 24 25 26 27 inputs 0.1=1 1.1=1
failure 28 reached dstate 7 pick 28 29 30 31 inputs 0.0=1
failure 32 reached dstate 8 pick 32 33 34 35 inputs 0.0=1 1.2=1
failure 36 reached dstate 9 pick 36 37 38 39 inputs 0.0=1 1.1=1
end states 40 dstates 10 reached 9 open 0
";

const FLOODING: &str =
    "# Flooding on a grid of four nodes, 0 1 above 2 3. Node 0 floods a message: each node that gets it for the first time passes it on to
# its neighbours, as long as its time to live lasts, and delivers it to the display that is plugged in, which node 3 alone has.
# A node knows a message that it had by its number, so what comes a second time, from another neighbour or because a link
# doubled it, is suppressed. But that number stands in memory, and a reboot clears memory: the failure is a
# duplicate that is delivered after a reboot.
#
#     ./netsym explore --mapping cob < examples/flooding.toml
#     ./netsym replay < examples/flooding.replay

version = 1
ticks = 5

[[program]]
name = \"origin\"
asm = '''
boot:   const r0, 7     ; the message's number
        const r1, 2     ; its time to live: it may go two hops
        bcast r0, 2     ; to all neighbours
        ret

recv:   ret             ; the origin knows its message, and suppresses what comes back
'''

[[program]]
name = \"router\"
asm = '''
recv:   recvw r0, 0     ; the message's number
        recvw r1, 1     ; how many hops it has left
        ld r2, 0        ; the number of the last message that came
        eq r2, r2, r0
        brz r2, fresh
        ret             ; had it already: suppressed

fresh:  st 0, r0
        send 2, r0, 1   ; to the display, on link 2: where there is no such link, nothing is sent
        const r2, 1
        sub r1, r1, r2  ; one hop less
        brz r1, out     ; its time to live is over
        send 0, r0, 2   ; to the two neighbours
        send 1, r0, 2
out:    ret
'''

[[program]]
name = \"display\"
asm = '''
recv:   recvw r0, 0
        eq r2, r0, r1   ; is it the message that is shown?
        mov r1, r0
        const r3, 1
        xor r2, r2, r3
        assert r2       ; instruction 5: the message is delivered a second time
        ret
'''

[[node]]                # node 0
program = \"origin\"

[[node]]                # node 1
program = \"router\"

[[node]]                # node 2
program = \"router\"

[[node]]                # node 3
program = \"router\"
duplicate = 1           # of the packets to it one may come twice, the second time a tick later
reboot = [3]            # and it may reboot in tick 3

[[node]]                # node 4
program = \"display\"

[[link]]                # the grid, each edge in both directions
from = 0
to = 1
delay = 1

[[link]]
from = 0
to = 2
delay = 1

[[link]]
from = 1
to = 0
delay = 1

[[link]]
from = 1
to = 3
delay = 1

[[link]]
from = 2
to = 0
delay = 1

[[link]]
from = 2
to = 3
delay = 1

[[link]]
from = 3
to = 1
delay = 1

[[link]]
from = 3
to = 2
delay = 1

[[link]]                # link 2 of node 3: its display
from = 3
to = 4
delay = 1
";

const FLOODING_REPORT: &str = "report 1 mapping cob ticks 5 nodes 5
state 0 node 0 trace - outcome running inputs -
state 1 node 1 trace 10 outcome running inputs -
state 2 node 2 trace 10 outcome running inputs -
state 3 node 3 trace 011000 outcome running inputs -
state 4 node 4 trace 0 outcome running inputs -
state 5 node 0 trace - outcome running inputs -
state 6 node 1 trace 10 outcome running inputs -
state 7 node 2 trace 10 outcome running inputs -
state 8 node 3 trace 011001 outcome running inputs 3.2=1
state 9 node 4 trace 0 outcome running inputs -
state 10 node 0 trace - outcome running inputs -
state 11 node 1 trace 10 outcome running inputs -
state 12 node 2 trace 10 outcome running inputs -
state 13 node 3 trace 0111000 outcome running inputs 3.1=1
state 14 node 4 trace 0 outcome running inputs -
state 15 node 0 trace - outcome running inputs -
state 16 node 1 trace 10 outcome running inputs -
state 17 node 2 trace 10 outcome running inputs -
state 18 node 3 trace 01110111 outcome running inputs 3.1=1 3.2=1
state 19 node 4 trace 01 outcome assert@5@4 inputs 3.1=1 3.2=1
state 20 node 0 trace - outcome running inputs -
state 21 node 1 trace 10 outcome running inputs -
state 22 node 2 trace 10 outcome running inputs -
state 23 node 3 trace 111000 outcome running inputs 3.0=1
state 24 node 4 trace 0 outcome running inputs 3.0=1
state 25 node 0 trace - outcome running inputs -
state 26 node 1 trace 10 outcome running inputs -
state 27 node 2 trace 10 outcome running inputs -
state 28 node 3 trace 1110111 outcome running inputs 3.0=1 3.1=1
state 29 node 4 trace 01 outcome assert@5@4 inputs 3.0=1 3.1=1
dstate 0 columns 0 1 2 3 4
dstate 1 columns 5 6 7 8 9
dstate 2 columns 10 11 12 13 14
dstate 3 columns 15 16 17 18 19
dstate 4 columns 20 21 22 23 24
dstate 5 columns 25 26 27 28 29
failure 19 reached dstate 3 pick 15 16 17 18 19 inputs 3.1=1 3.2=1
failure 29 reached dstate 5 pick 25 26 27 28 29 inputs 3.0=1 3.1=1
end states 30 dstates 6 reached 2 open 0
";

const TOKEN_RING: &str =
    "# A token ring of three nodes. Whoever has the token may use the line, and passes it on to the next node. The monitor, node 0, keeps
# the token for a tick, and makes a new one where it does not come back in time: a token that is lost is mended so.
# A token that a link doubled is not: both go round, and the failure is that the monitor is passed one while it has one.
# numbered-tokens.toml is the same ring with the repair.
#
#     ./netsym explore --mapping cob < examples/token-ring.toml
#     ./netsym replay < examples/token-ring.replay

version = 1
ticks = 9               # two rounds: a token that the monitor passes on in tick 0 or 4 is back in tick 3 or 7

[[program]]
name = \"monitor\"
asm = '''
boot:                   ; the first token
timer0: const r1, 0     ; its time is over: register 1 says whether the monitor has a token
        send 0, r0, 0   ; passes it on
        timer 1, 4      ; it is to be back in three ticks
        ret

recv:   cancel 1        ; a token came
        const r2, 1
        sub r2, r2, r1
        assert r2       ; instruction 7: it comes while the monitor has one: two tokens
        const r1, 1
        timer 0, 1      ; keeps it for a tick
        ret

timer1: send 0, r0, 0   ; no token came back: a new one
        timer 1, 4
        ret
'''

[[program]]
name = \"station\"
asm = '''
recv:   send 0, r0, 0   ; uses the line, and passes the token on
        ret
'''

[[node]]                # node 0
program = \"monitor\"

[[node]]                # node 1
program = \"station\"
duplicate = 1           # of the tokens to it one may come twice

[[node]]                # node 2
program = \"station\"
loss = 1                # of the tokens to it one may be lost

[[link]]
from = 0
to = 1
delay = 1

[[link]]
from = 1
to = 2
delay = 1

[[link]]
from = 2
to = 0
delay = 1
";

const TOKEN_RING_REPORT: &str = "report 1 mapping cob ticks 9 nodes 3
state 0 node 0 trace 0 outcome running inputs -
state 1 node 1 trace 00 outcome running inputs -
state 2 node 2 trace 01 outcome running inputs 2.1=1
state 3 node 0 trace 0 outcome running inputs 2.0=1
state 4 node 1 trace 00 outcome running inputs 2.0=1
state 5 node 2 trace 1 outcome running inputs 2.0=1
state 6 node 0 trace 00 outcome running inputs -
state 7 node 1 trace 00 outcome running inputs -
state 8 node 2 trace 00 outcome running inputs -
state 9 node 0 trace 00 outcome running inputs 1.1=1
state 10 node 1 trace 01 outcome running inputs 1.1=1
state 11 node 2 trace 001 outcome running inputs 1.1=1 2.2=1
state 12 node 0 trace 00 outcome running inputs 1.1=1 2.1=1
state 13 node 1 trace 01 outcome running inputs 1.1=1
state 14 node 2 trace 01 outcome running inputs 1.1=1 2.1=1
state 15 node 0 trace 00 outcome running inputs 1.0=1 2.1=1
state 16 node 1 trace 1 outcome running inputs 1.0=1 2.1=1
state 17 node 2 trace 01 outcome running inputs 1.0=1 2.1=1
state 18 node 0 trace 00 outcome running inputs 1.0=1 2.0=1
state 19 node 1 trace 1 outcome running inputs 1.0=1 2.0=1
state 20 node 2 trace 1 outcome running inputs 1.0=1 2.0=1
state 21 node 0 trace 001 outcome assert@7@8 inputs 1.1=1
state 22 node 1 trace 01 outcome running inputs 1.1=1
state 23 node 2 trace 000 outcome running inputs 1.1=1
state 24 node 0 trace 01 outcome assert@7@8 inputs 1.1=1 2.0=1
state 25 node 1 trace 01 outcome running inputs 1.1=1
state 26 node 2 trace 1 outcome running inputs 1.1=1 2.0=1
state 27 node 0 trace 01 outcome assert@7@4 inputs 1.0=1
state 28 node 1 trace 1 outcome running inputs 1.0=1
state 29 node 2 trace 00 outcome running inputs 1.0=1
dstate 0 columns 0 1 2
dstate 1 columns 3 4 5
dstate 2 columns 6 7 8
dstate 3 columns 9 10 11
dstate 4 columns 12 13 14
dstate 5 columns 15 16 17
dstate 6 columns 18 19 20
dstate 7 columns 21 22 23
dstate 8 columns 24 25 26
dstate 9 columns 27 28 29
failure 21 reached dstate 7 pick 21 22 23 inputs 1.1=1
failure 24 reached dstate 8 pick 24 25 26 inputs 1.1=1 2.0=1
failure 27 reached dstate 9 pick 27 28 29 inputs 1.0=1
end states 30 dstates 10 reached 3 open 0
";

const NUMBERED_TOKENS: &str =
    "# The token ring of token-ring.toml with its repair. A token carries a number, the monitor gives each that it passes on or makes
# the next one, and a station passes on none whose number is not above the last one that it passed on. So of a token that a link
# doubled the second goes no further than the station that it comes to. No failure is left.
#
#     ./netsym explore --mapping cob < examples/numbered-tokens.toml

version = 1
ticks = 9

[[program]]
name = \"monitor\"
asm = '''
boot:                   ; the first token
timer0:                 ; the token's time is over
timer1: const r1, 0     ; or no token came back. Register 1 says whether the monitor has a token
        const r2, 1
        add r0, r0, r2  ; the next number
        send 0, r0, 1   ; passes it on
        timer 1, 4      ; it is to be back in three ticks
        ret

recv:   recvw r3, 0
        eq r3, r3, r0
        brz r3, old     ; a token of another number is an old one, and goes no further
        cancel 1        ; the token came
        const r2, 1
        sub r2, r2, r1
        assert r2       ; instruction 12: it comes while the monitor has one: two tokens
        const r1, 1
        timer 0, 1      ; keeps it for a tick
old:    ret
'''

[[program]]
name = \"station\"
asm = '''
recv:   recvw r1, 0
        ult r2, r0, r1  ; is the number above the last one?
        brz r2, old
        mov r0, r1
        send 0, r0, 1   ; uses the line, and passes the token on
old:    ret
'''

[[node]]                # node 0
program = \"monitor\"

[[node]]                # node 1
program = \"station\"
duplicate = 1           # of the tokens to it one may come twice

[[node]]                # node 2
program = \"station\"
loss = 1                # of the tokens to it one may be lost

[[link]]
from = 0
to = 1
delay = 1

[[link]]
from = 1
to = 2
delay = 1

[[link]]
from = 2
to = 0
delay = 1
";

const NUMBERED_TOKENS_REPORT: &str = "report 1 mapping cob ticks 9 nodes 3
state 0 node 0 trace 00 outcome running inputs -
state 1 node 1 trace 0000 outcome running inputs -
state 2 node 2 trace 001 outcome running inputs 2.1=1
state 3 node 0 trace 00 outcome running inputs 2.0=1
state 4 node 1 trace 0000 outcome running inputs 2.0=1
state 5 node 2 trace 10 outcome running inputs 2.0=1
state 6 node 0 trace 00 outcome running inputs -
state 7 node 1 trace 00101 outcome running inputs 1.1=1
state 8 node 2 trace 001 outcome running inputs 1.1=1 2.1=1
state 9 node 0 trace 00 outcome running inputs 1.1=1 2.0=1
state 10 node 1 trace 00101 outcome running inputs 1.1=1 2.0=1
state 11 node 2 trace 10 outcome running inputs 1.1=1 2.0=1
state 12 node 0 trace 00 outcome running inputs 1.0=1
state 13 node 1 trace 1010 outcome running inputs 1.0=1
state 14 node 2 trace 001 outcome running inputs 1.0=1 2.1=1
state 15 node 0 trace 00 outcome running inputs 1.0=1 2.0=1
state 16 node 1 trace 1010 outcome running inputs 1.0=1 2.0=1
state 17 node 2 trace 10 outcome running inputs 1.0=1 2.0=1
state 18 node 0 trace 0000 outcome running inputs -
state 19 node 1 trace 0000 outcome running inputs -
state 20 node 2 trace 0000 outcome running inputs -
state 21 node 0 trace 0000 outcome running inputs 1.1=1
state 22 node 1 trace 00101 outcome running inputs 1.1=1
state 23 node 2 trace 0000 outcome running inputs 1.1=1
state 24 node 0 trace 0000 outcome running inputs 1.0=1
state 25 node 1 trace 1010 outcome running inputs 1.0=1
state 26 node 2 trace 0000 outcome running inputs 1.0=1
dstate 0 columns 0 1 2
dstate 1 columns 3 4 5
dstate 2 columns 6 7 8
dstate 3 columns 9 10 11
dstate 4 columns 12 13 14
dstate 5 columns 15 16 17
dstate 6 columns 18 19 20
dstate 7 columns 21 22 23
dstate 8 columns 24 25 26
end states 27 dstates 9 reached 0 open 0
";

const ELECTION: &str =
    "# Leader election on a ring of three nodes, whose identities are inputs: any of 0 to 15 each. Node 0 begins, and sends its identity
# round. Each node passes on the greater of what comes and its own. A node to which its own identity comes has been
# all round with it, or so it thinks: it takes itself for the leader and sends its identity round once more, as
# elected. Where two identities are equal, that of another node comes for its own, and then a node is told that it is elected that never
# took itself for the leader: there are two, which is the failure.
#
#     ./netsym explore --mapping cob < examples/election.toml
#     ./netsym replay < examples/election.replay

version = 1
ticks = 10              # three to five hops until the leader is found, and three more for the news

[[program]]
name = \"member\"
asm = '''
boot:   input r1, 4     ; this node's identity
        node r0
        brz r0, begin
        ret

begin:  mov r5, r1      ; node 0 sends its own
pass:   send 0, r4, 2   ; register 4: 1 for the news that register 5 is elected, 0 before
        ret

recv:   recvw r4, 0
        recvw r5, 1
        eq r6, r5, r1   ; is it this node's identity?
        brz r4, vote
        brz r6, pass    ; another one is elected
        assert r3       ; instruction 12: this one is, but never took itself for the leader
        ret             ; the news has been all round

vote:   brz r6, other
        const r3, 1     ; this node takes itself for the leader
        const r4, 1
        jmp pass

other:  ult r6, r5, r1
        brz r6, pass    ; a greater identity is passed on
        jmp begin       ; its own is greater
'''

[[node]]                # node 0
program = \"member\"

[[node]]                # node 1
program = \"member\"

[[node]]                # node 2
program = \"member\"

[[link]]
from = 0
to = 1
delay = 1

[[link]]
from = 1
to = 2
delay = 1

[[link]]
from = 2
to = 0
delay = 1
";

const ELECTION_REPORT: &str = "report 1 mapping cob ticks 10 nodes 3
state 0 node 0 trace 1 outcome running inputs -
state 1 node 1 trace 010 outcome running inputs -
state 2 node 2 trace 0001 outcome assert@12@2 inputs -
state 3 node 0 trace 1001 outcome assert@12@3 inputs 2.0=1
state 4 node 1 trace 010 outcome running inputs -
state 5 node 2 trace 001 outcome running inputs 2.0=1
state 6 node 0 trace 1001 outcome assert@12@3 inputs 0.0=1 2.0=1
state 7 node 1 trace 0111 outcome running inputs 0.0=1
state 8 node 2 trace 010 outcome running inputs 0.0=1 2.0=1
state 9 node 0 trace 101 outcome running inputs 1.0=1 2.0=1
state 10 node 1 trace 0110001 outcome assert@12@4 inputs 1.0=1 2.0=1
state 11 node 2 trace 010 outcome running inputs 1.0=1 2.0=1
state 12 node 0 trace 110000 outcome running inputs 0.0=1
state 13 node 1 trace 011101 outcome running inputs 0.0=1
state 14 node 2 trace 011101 outcome running inputs 0.0=1
state 15 node 0 trace 111101 outcome running inputs 1.0=1
state 16 node 1 trace 011010000 outcome running inputs 1.0=1
state 17 node 2 trace 011101 outcome running inputs 1.0=1
state 18 node 0 trace 111101 outcome running inputs 1.0=1 2.0=2
state 19 node 1 trace 011011101 outcome running inputs 1.0=1 2.0=2
state 20 node 2 trace 011010000 outcome running inputs 1.0=1 2.0=2
state 21 node 0 trace 111101 outcome running inputs 0.0=1 2.0=2
state 22 node 1 trace 011111101 outcome running inputs 0.0=1 2.0=2
state 23 node 2 trace 011010000 outcome running inputs 0.0=1 2.0=2
dstate 0 columns 0 1 2
dstate 1 columns 3 4 5
dstate 2 columns 6 7 8
dstate 3 columns 9 10 11
dstate 4 columns 12 13 14
dstate 5 columns 15 16 17
dstate 6 columns 18 19 20
dstate 7 columns 21 22 23
failure 2 reached dstate 0 pick 0 1 2 inputs -
failure 3 reached dstate 1 pick 3 4 5 inputs 2.0=1
failure 6 reached dstate 2 pick 6 7 8 inputs 0.0=1 2.0=1
failure 10 reached dstate 3 pick 9 10 11 inputs 1.0=1 2.0=1
end states 24 dstates 8 reached 4 open 0
";

const ALTERNATING_BIT: &str =
    "# Stop-and-wait with the alternating bit. The sender, node 0, has two values, 1 and 2, and sends the second when the first was
# acknowledged; what is not acknowledged in time it sends again. An acknowledgement may be lost, and a value may come
# twice. Each value goes with a bit that is turned round from one value to the next, and an acknowledgement says the bit. The
# receiver takes a value only where the bit is the one that it waits for, so it takes each once and in order: no failure.
# stop-and-wait.toml is the same with the bit left out.
#
#     ./netsym explore --mapping cob < examples/alternating-bit.toml

version = 1
ticks = 12

[[program]]
name = \"sender\"
asm = '''
boot:   const r1, 1     ; the value
timer0: send 0, r1, 2   ; sends it, with the bit in register 2; where no acknowledgement came in time, again
        timer 0, 3
        ret

recv:   recvw r3, 0     ; the bit that is acknowledged
        eq r3, r3, r2
        brz r3, old     ; an earlier value's
        const r4, 1
        xor r2, r2, r4  ; the bit is turned round
        add r1, r1, r4  ; the next value
        const r4, 3
        eq r4, r1, r4
        brz r4, next
        halt            ; all values are acknowledged
next:   send 0, r1, 2
        timer 0, 3
old:    ret
'''

[[program]]
name = \"receiver\"
asm = '''
recv:   recvw r0, 0     ; the value
        recvw r1, 1     ; its bit
        send 0, r1, 1   ; acknowledged in any case
        eq r3, r1, r2
        brz r3, old     ; not the bit that it waits for
        const r4, 1
        xor r2, r2, r4
        add r5, r5, r4  ; register 5 counts the values that are taken
        eq r3, r0, r5
        assert r3       ; instruction 9: a value is taken twice, or left out
old:    ret
'''

[[node]]                # node 0
program = \"sender\"
loss = 1                # one acknowledgement may be lost

[[node]]                # node 1
program = \"receiver\"
duplicate = 1           # a value may come twice, the second time a tick later

[[link]]
from = 0
to = 1
delay = 1

[[link]]
from = 1
to = 0
delay = 1
";

const ALTERNATING_BIT_REPORT: &str = "report 1 mapping cob ticks 12 nodes 2
state 0 node 0 trace 001000 outcome halted inputs -
state 1 node 1 trace 000000 outcome running inputs -
state 2 node 0 trace 001000 outcome halted inputs 1.1=1
state 3 node 1 trace 0001001 outcome running inputs 1.1=1
state 4 node 0 trace 00101000 outcome halted inputs 1.0=1
state 5 node 1 trace 100100 outcome running inputs 1.0=1
state 6 node 0 trace 00101100 outcome halted inputs 0.2=1 1.0=1
state 7 node 1 trace 1001001 outcome running inputs 0.2=1 1.0=1
state 8 node 0 trace 001100 outcome halted inputs 0.1=1
state 9 node 1 trace 00000001 outcome running inputs 0.1=1
state 10 node 0 trace 001100 outcome halted inputs 0.1=1 1.2=1
state 11 node 1 trace 000000111 outcome running inputs 0.1=1 1.2=1
state 12 node 0 trace 001100 outcome halted inputs 0.1=1 1.1=1
state 13 node 1 trace 0001001 outcome running inputs 1.1=1
state 14 node 0 trace 001100 outcome halted inputs 0.1=1 1.0=1
state 15 node 1 trace 100100 outcome running inputs 1.0=1
state 16 node 0 trace 10100 outcome halted inputs 0.0=1
state 17 node 1 trace 00001000 outcome running inputs 0.0=1
state 18 node 0 trace 10100 outcome halted inputs 0.0=1 1.2=1
state 19 node 1 trace 000011001 outcome running inputs 0.0=1 1.2=1
state 20 node 0 trace 10100 outcome halted inputs 0.0=1 1.0=1
state 21 node 1 trace 100100 outcome running inputs 0.0=1 1.0=1
state 22 node 0 trace 101100 outcome halted inputs 0.0=1 1.1=1
state 23 node 1 trace 00011100 outcome running inputs 0.0=1 1.1=1
dstate 0 columns 0 1
dstate 1 columns 2 3
dstate 2 columns 4 5
dstate 3 columns 6 7
dstate 4 columns 8 9
dstate 5 columns 10 11
dstate 6 columns 12 13
dstate 7 columns 14 15
dstate 8 columns 16 17
dstate 9 columns 18 19
dstate 10 columns 20 21
dstate 11 columns 22 23
end states 24 dstates 12 reached 0 open 0
";

const STOP_AND_WAIT: &str =
    "# Stop-and-wait without the alternating bit. The sender, node 0, has two values, 1 and 2, and sends the second when the first was
# acknowledged; what is not acknowledged in time it sends again. An acknowledgement may be lost, and a value may come
# twice. The receiver can't tell a value that comes again from the next one, and takes it twice: the failure.
# alternating-bit.toml is the repair.
#
#     ./netsym explore --mapping cob < examples/stop-and-wait.toml
#     ./netsym replay < examples/stop-and-wait.replay

version = 1
ticks = 12

[[program]]
name = \"sender\"
asm = '''
boot:   const r1, 1     ; the value
timer0: send 0, r1, 1   ; sends it; where no acknowledgement came in time, again
        timer 0, 3
        ret

recv:   const r4, 1     ; acknowledged
        add r1, r1, r4  ; the next value
        const r4, 3
        eq r4, r1, r4
        brz r4, next
        halt            ; all values are acknowledged
next:   send 0, r1, 1
        timer 0, 3
        ret
'''

[[program]]
name = \"receiver\"
asm = '''
recv:   recvw r0, 0     ; the value
        send 0, r0, 0   ; acknowledged
        const r4, 1
        add r5, r5, r4  ; register 5 counts the values that are taken
        eq r3, r0, r5
        assert r3       ; instruction 5: a value is taken twice, or left out
        ret
'''

[[node]]                # node 0
program = \"sender\"
loss = 1                # one acknowledgement may be lost

[[node]]                # node 1
program = \"receiver\"
duplicate = 1           # a value may come twice, the second time a tick later

[[link]]
from = 0
to = 1
delay = 1

[[link]]
from = 1
to = 0
delay = 1
";

const STOP_AND_WAIT_REPORT: &str = "report 1 mapping cob ticks 12 nodes 2
state 0 node 0 trace 0100 outcome halted inputs -
state 1 node 1 trace 0000 outcome running inputs -
state 2 node 0 trace 0100 outcome halted inputs 1.1=1
state 3 node 1 trace 00101 outcome assert@5@4 inputs 1.1=1
state 4 node 0 trace 0100 outcome halted inputs 1.0=1
state 5 node 1 trace 101 outcome assert@5@2 inputs 1.0=1
state 6 node 0 trace 011 outcome running inputs 0.1=1 1.0=1
state 7 node 1 trace 101 outcome assert@5@2 inputs 0.1=1 1.0=1
state 8 node 0 trace 0110 outcome halted inputs 0.1=1
state 9 node 1 trace 000001 outcome assert@5@6 inputs 0.1=1
state 10 node 0 trace 0110 outcome halted inputs 0.1=1 1.2=1
state 11 node 1 trace 000011 outcome assert@5@6 inputs 0.1=1 1.2=1
state 12 node 0 trace 0110 outcome halted inputs 0.1=1 1.1=1
state 13 node 1 trace 00101 outcome assert@5@4 inputs 1.1=1
state 14 node 0 trace 11 outcome running inputs 0.0=1
state 15 node 1 trace 0001 outcome assert@5@4 inputs 0.0=1
state 16 node 0 trace 11 outcome running inputs 0.0=1 1.1=1
state 17 node 1 trace 0011 outcome assert@5@4 inputs 0.0=1 1.1=1
state 18 node 0 trace 11 outcome running inputs 0.0=1 1.0=1
state 19 node 1 trace 101 outcome assert@5@2 inputs 0.0=1 1.0=1
dstate 0 columns 0 1
dstate 1 columns 2 3
dstate 2 columns 4 5
dstate 3 columns 6 7
dstate 4 columns 8 9
dstate 5 columns 10 11
dstate 6 columns 12 13
dstate 7 columns 14 15
dstate 8 columns 16 17
dstate 9 columns 18 19
failure 3 reached dstate 1 pick 2 3 inputs 1.1=1
failure 5 reached dstate 2 pick 4 5 inputs 1.0=1
failure 7 reached dstate 3 pick 6 7 inputs 0.1=1 1.0=1
failure 9 reached dstate 4 pick 8 9 inputs 0.1=1
failure 11 reached dstate 5 pick 10 11 inputs 0.1=1 1.2=1
failure 13 reached dstate 6 pick 12 13 inputs 0.1=1 1.1=1
failure 15 reached dstate 7 pick 14 15 inputs 0.0=1
failure 17 reached dstate 8 pick 16 17 inputs 0.0=1 1.1=1
failure 19 reached dstate 9 pick 18 19 inputs 0.0=1 1.0=1
end states 20 dstates 10 reached 9 open 0
";

pub const PROTOCOLS: [Protocol; 7] = [
    Protocol {
        name: "collection",
        file: COLLECTION,
        status: Status::Found,
        report: COLLECTION_REPORT,
    },
    Protocol {
        name: "flooding",
        file: FLOODING,
        status: Status::Found,
        report: FLOODING_REPORT,
    },
    Protocol {
        name: "token-ring",
        file: TOKEN_RING,
        status: Status::Found,
        report: TOKEN_RING_REPORT,
    },
    Protocol {
        name: "numbered-tokens",
        file: NUMBERED_TOKENS,
        status: Status::Clean,
        report: NUMBERED_TOKENS_REPORT,
    },
    Protocol {
        name: "election",
        file: ELECTION,
        status: Status::Found,
        report: ELECTION_REPORT,
    },
    Protocol {
        name: "alternating-bit",
        file: ALTERNATING_BIT,
        status: Status::Clean,
        report: ALTERNATING_BIT_REPORT,
    },
    Protocol {
        name: "stop-and-wait",
        file: STOP_AND_WAIT,
        status: Status::Found,
        report: STOP_AND_WAIT_REPORT,
    },
];
