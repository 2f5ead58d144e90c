//! Gates on two edges, and the addition of three bits.

ghost use Rattle.std.specs.Prelude.{◌≡◌, ◌&&◌, ◌||◌, Bool, List, IfOk};
ghost use Rattle.kn_word.specs.Words.{one_if};
ghost use Rattle.kn_aig.specs.Circuits.{differ, value_of, Stands};
ghost use Rattle.kn_blast.specs.Spelling.{digit, Grows, Has};

use kn_aig::{Aig, Edge};
use std::alloc::AllocError;

/// What a gate makes of two edges.
#[derive(Clone, Copy)]
pub(crate) enum Gate {
    /// Whether both are true.
    And,
    /// Whether one of them is true.
    Or,
    /// Whether exactly one of them is true.
    Xor,
}

/// The edge that is true where one of two edges is.
#[tactic(auto, using(crate::proofs::Growing::growing))]
pub(crate) fn either(aig: &mut Aig, x: Edge, y: Edge) -> Result<Edge, AllocError>
    requires x { Stands aig.old x }
    requires y { Stands aig.old y }
    ensures edge { IfOk result (λ e. Has aig.new e (λ bits. value_of bits aig.old x || value_of bits aig.old y)) }
    ensures grows { Grows aig.old aig.new }
{
    let none = aig.and(x.negated(), y.negated())?;
    Ok(none.negated())
}

/// The edge of a gate.
#[tactic(auto, using(crate::proofs::Growing::growing))]
pub(crate) fn edge_of_gate(aig: &mut Aig, gate: Gate, x: Edge, y: Edge) -> Result<Edge, AllocError>
    requires x { Stands aig.old x }
    requires y { Stands aig.old y }
    ensures stands { IfOk result (λ e. Stands aig.new e) }
    ensures digit { IfOk result (λ e. (bits : List Bool) → one_if (value_of bits aig.new e) ≡ digit gate (one_if (value_of bits aig.old x)) (one_if (value_of bits aig.old y))) }
    ensures grows { Grows aig.old aig.new }
{
    match gate {
        Gate::And => aig.and(x, y),
        Gate::Or => either(aig, x, y),
        Gate::Xor => aig.xor(x, y),
    }
}

/// The sum of three bits, and what is carried.
#[tactic(auto, using(crate::proofs::Growing::growing))]
pub(crate) fn full_sum(aig: &mut Aig, x: Edge, y: Edge, c: Edge) -> Result<(Edge, Edge), AllocError>
    requires x { Stands aig.old x }
    requires y { Stands aig.old y }
    requires c { Stands aig.old c }
    ensures sum { IfOk result (λ p. Has aig.new p.0 (λ bits. differ (differ (value_of bits aig.old x) (value_of bits aig.old y)) (value_of bits aig.old c))) }
    ensures carry { IfOk result (λ p. Has aig.new p.1 (λ bits. value_of bits aig.old x && value_of bits aig.old y || differ (value_of bits aig.old x) (value_of bits aig.old y) && value_of bits aig.old c)) }
    ensures grows { Grows aig.old aig.new }
{
    let one = aig.xor(x, y)?;
    let sum = aig.xor(one, c)?;
    let both = aig.and(x, y)?;
    let passed = aig.and(one, c)?;
    let carry = either(aig, both, passed)?;
    Ok((sum, carry))
}
