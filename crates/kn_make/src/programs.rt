//! The three programs of a chain, and their names.

ghost use Rattle.std.specs.Prelude.{◌≡◌, ◌≤◌, ◌<◌, ◌^◌, ◌∷◌, [], codes, IfOk};
ghost use Rattle.kn_make.specs.Programs;

use kn_code::{Instr, Program};
use kn_plan::Name;
use std::alloc::{AllocError, Global};

/// Where the program of a chain's first node stands among the programs.
pub const SINK: usize = 0;

/// Where the program of the nodes between stands.
pub const RELAY: usize = 1;

/// Where the program of a chain's last node stands.
pub const SOURCE: usize = 2;

/// Counts the packets that come, and at a tick, which is 1 to 65,535, asserts that there was one. Only want of memory is an
/// error.
pub fn sink(alloc: Global, tick: u16) -> Result<Program, AllocError>
    requires { 1 ≤ tick }
    ensures { IfOk result (λ p. p ≡ Programs.sink tick) }
{
    let instrs = [
        Instr::Timer { k: 0, d: tick },
        Instr::Ret,
        Instr::Const { a: 1, n: 1 },
        Instr::Add { a: 2, b: 2, c: 1 },
        Instr::Recvw { a: 0, k: 0 },
        Instr::Ret,
        Instr::Assert { a: 2 },
        Instr::Const { a: 3, n: 8 },
        Instr::Ult { a: 4, b: 0, c: 3 },
        Instr::Brz { a: 4, to: 10 },
        Instr::Ret,
    ];
    Ok(Program {
        instrs: Vec::from_array(alloc, instrs)?,
        handlers: [
            Some(0),
            Some(2),
            Some(6),
            None,
            None,
            None,
            None,
            None,
            None,
            None,
        ],
    })
}

/// Sends on the first word of each packet. Only want of memory is an error.
pub fn relay(alloc: Global) -> Result<Program, AllocError>
    ensures { IfOk result (λ p. p ≡ Programs.relay) }
{
    let instrs = [
        Instr::Recvw { a: 0, k: 0 },
        Instr::Send { l: 0, b: 0, n: 1 },
        Instr::Ret,
    ];
    Ok(Program {
        instrs: Vec::from_array(alloc, instrs)?,
        handlers: [
            None,
            Some(0),
            None,
            None,
            None,
            None,
            None,
            None,
            None,
            None,
        ],
    })
}

/// Sends so many readings, one a tick from tick 1 on. Only want of memory is an error.
pub fn source(alloc: Global, readings: u16) -> Result<Program, AllocError>
    ensures { IfOk result (λ p. p ≡ Programs.source readings) }
{
    let instrs = [
        Instr::Const { a: 3, n: 1 },
        Instr::Const { a: 4, n: readings },
        Instr::Timer { k: 0, d: 1 },
        Instr::Ret,
        Instr::Input { a: 0, w: 4 },
        Instr::Send { l: 0, b: 0, n: 1 },
        Instr::Sub { a: 4, b: 4, c: 3 },
        Instr::Brz { a: 4, to: 9 },
        Instr::Timer { k: 0, d: 1 },
        Instr::Ret,
    ];
    Ok(Program {
        instrs: Vec::from_array(alloc, instrs)?,
        handlers: [
            Some(0),
            None,
            Some(4),
            None,
            None,
            None,
            None,
            None,
            None,
            None,
        ],
    })
}

/// The names of the programs, in their order. Only want of memory is an error.
pub fn names(alloc: Global) -> Result<Vec<Name>, AllocError>
    ensures { IfOk result (λ v. v.items ≡ codes "sink" ∷ codes "relay" ∷ codes "source" ∷ []) }
{
    let sink = Name {
        bytes: Vec::from_slice(alloc, b"sink")?,
    };
    let relay = Name {
        bytes: Vec::from_slice(alloc, b"relay")?,
    };
    let source = Name {
        bytes: Vec::from_slice(alloc, b"source")?,
    };
    Ok(Vec::from_array(alloc, [sink, relay, source])?)
}
