//! Instructions and programs.

ghost use Rattle.std.specs.Prelude.{◌≡◌, ◌<◌, ◌≤◌, ◌↔◌, ℕ, length, slice_get, slice_index_or, None, IfOk, IfSome, IsTrue, OnSome};
ghost use Rattle.kn_code.specs.Code.{IsInstr, IsValid};

use std::alloc::AllocError;
use std::marker::Model;

/// The most instructions of a program.
pub const INSTRUCTIONS: usize = 4096;

/// How many handlers a program has: boot, recv and timer 0 to timer 7.
pub const HANDLERS: usize = 10;

/// One instruction: one variant for each row of the instruction table in docs/FORMATS.md.
#[derive(Clone, Copy, Debug, PartialEq)]
pub enum Instr {
    Const { a: u8, n: u16 },
    Mov { a: u8, b: u8 },
    Not { a: u8, b: u8 },
    Ld { a: u8, m: u16 },
    St { m: u16, a: u8 },
    Ldx { a: u8, b: u8, m: u16, n: u16 },
    Stx { a: u8, b: u8, m: u16, n: u16 },
    Jmp { to: u16 },
    Brz { a: u8, to: u16 },
    Input { a: u8, w: u16 },
    Timer { k: u8, d: u16 },
    Cancel { k: u8 },
    Send { l: u16, b: u8, n: u8 },
    Bcast { b: u8, n: u8 },
    Recvw { a: u8, k: u16 },
    Add { a: u8, b: u8, c: u8 },
    Sub { a: u8, b: u8, c: u8 },
    Mul { a: u8, b: u8, c: u8 },
    And { a: u8, b: u8, c: u8 },
    Or { a: u8, b: u8, c: u8 },
    Xor { a: u8, b: u8, c: u8 },
    Shl { a: u8, b: u8, c: u8 },
    Shr { a: u8, b: u8, c: u8 },
    Sar { a: u8, b: u8, c: u8 },
    Udiv { a: u8, b: u8, c: u8 },
    Urem { a: u8, b: u8, c: u8 },
    Eq { a: u8, b: u8, c: u8 },
    Ult { a: u8, b: u8, c: u8 },
    Slt { a: u8, b: u8, c: u8 },
    Rlen { a: u8 },
    Rfrom { a: u8 },
    Assert { a: u8 },
    Node { a: u8 },
    Now { a: u8 },
    Ret,
    Halt,
}

/// A valid program.
#[derive(Debug, Drop)]
pub struct Program {
    pub instrs: Vec<Instr>,
    pub handlers: [Option<u16>; 10],
}

impl Model for Program {
    ghost use Rattle.kn_code.specs.Code.{Code, IsValid};

    ghost Value = { Code };

    ghost view = { λ p. record { instrs = p.instrs.items; handlers = p.handlers } };

    ghost invariant = { λ p. IsValid (record { instrs = p.instrs.items; handlers = p.handlers }) };
}

impl Program {
    /// The instruction at an index, or None at an index that is not below the number of instructions. What is there
    /// is in range, and the index is below 4,096.
    pub fn instr(&self, at: u16) -> Option<Instr>
        ensures value { result ≡ slice_get self.now.instrs at }
        ensures fits { OnSome result (at < 4096) }
        ensures valid { IfSome result (λ i. IsInstr (length self.now.instrs) i) }
    {
        instr_among(&self.instrs, at)
    }

    /// Where a handler begins: 0 is boot, 1 recv, 2 to 9 timer 0 to timer 7. None where the program has no such handler,
    /// and for other numbers.
    pub fn handler(&self, index: u8) -> Option<u16>
        ensures value { result ≡ slice_index_or self.now.handlers index None }
        ensures valid { IfSome result (λ e. e < length self.now.instrs) }
    {
        let handlers = &self.handlers;
        if index as usize >= handlers.len() {
            return None;
        }
        handlers[index as usize]
    }

    /// Where boot begins, or None where the program has no boot.
    pub fn boot(&self) -> Option<u16>
        ensures value { result ≡ slice_index_or self.now.handlers 0 None }
        ensures valid { IfSome result (λ e. e < length self.now.instrs) }
    {
        self.handler(0)
    }

    /// That the program is valid, for a caller that needs it in a proof.
    pub fn validity(&self)
        ensures { IsValid self.now }
    {
        let _ = &self.instrs;
    }

    /// An equal program. Only want of memory is an error.
    pub fn copy(&self) -> Result<Program, AllocError>
        ensures { IfOk result (λ p. p ≡ self.now) }
    {
        Ok(Program {
            instrs: Vec::from_slice(*self.instrs.allocator(), self.instrs.as_slice())?,
            handlers: self.handlers,
        })
    }
}

impl PartialEq for Program {
    ghost use Rattle.std.specs.Cmp.Lexicographic.{pointwise};
    ghost use Rattle.std.specs.Cmp.Rules.{comparing};
    ghost use Rattle.std.specs.Ordering.{on, eq_of_both};
    ghost use Rattle.kn_code.specs.contracts.program.InstrPartialEq.TheImpl.Laws.{laws-law as instr_law};

    ghost eq = { eq_of_both (on (λ p. p.instrs) (pointwise ⟦<Instr as PartialEq>⟧.eq)) (on (λ p. p.handlers) (pointwise ⟦<Option<u16> as PartialEq>⟧.eq)) };

    ghost laws = { Prim.search (comparing, instr_law) depth 14 };

    /// Whether two programs have the same instructions and handlers.
    fn eq(&self, other: &Program) -> bool
        ensures eq { result ≡ eq_of_both (on (λ p. p.instrs) (pointwise ⟦<Instr as PartialEq>⟧.eq)) (on (λ p. p.handlers) (pointwise ⟦<Option<u16> as PartialEq>⟧.eq)) self.now other.now }
        ensures same { IsTrue result ↔ (self.now ≡ other.now) }
    {
        self.instrs.as_slice() == other.instrs.as_slice() && self.handlers == other.handlers
    }
}

fn instr_among(instrs: &[Instr], at: u16) -> Option<Instr>
    ensures { result ≡ slice_get instrs.now at }
{
    instrs.get(at as usize).copied()
}
