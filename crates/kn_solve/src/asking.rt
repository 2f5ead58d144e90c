//! What the search answers to a formula.

ghost use Rattle.std.specs.Prelude.{◌≡◌, ◌≤◌, ◌<◌, length, IfOk};
ghost use Rattle.kn_aig.specs.Circuits.{Stands, inputs_of};
ghost use Rattle.kn_term.specs.Nodes.{term_at};
ghost use Rattle.kn_cond.specs.Conditions.{Query, IsLeast, IsImpossible, IsFar};
ghost use Rattle.kn_blast.specs.Inputs.{bits_of, AreInputBits};
ghost use Rattle.kn_solve.specs.Formulas.{query_of};
ghost use Rattle.kn_solve.specs.Asking.{IsOfTerm, IsCircuitOf};
ghost use Rattle.kn_solve.specs.Verdicts.{OnMet, OnNever, OnUndecided, IsVerdict};

use crate::formula::Formula;
use crate::trying::early;
use crate::whole::whole;
use kn_aig::{Aig, Edge};
use kn_blast::{InputMap, blast, is_not_zero};
use kn_cnf::{Log, of_aig};
use kn_sat::{Found, search};
use kn_term::{Ref, Terms, Valuation, one_list, words_by_inputs};
use kn_unsat::check;
use std::alloc::{AllocError, Global};

/// What is known of the inputs that meet a formula.
#[derive(Debug, Drop)]
pub enum Verdict {
    /// These are the least inputs that meet it, in order of node and index.
    Met(Valuation),
    /// No inputs meet it; the log was checked.
    Never(Log),
    /// It was not decided: at least so many valuations come before each one that meets it.
    Undecided { leaves: u64 },
}

/// Searches the least inputs that meet the condition and some alternative of each column, and gives up as soon as
/// `budget` conflicts, at least 1, were met: then the formula has more valuations than that, and so many of them come
/// before each one that meets it. Err is want of memory.
pub fn ask(f: &Formula, budget: u64) -> Result<Verdict, AllocError>
    requires { 1 ≤ budget }
    // The inputs are the least.
    ensures met { IfOk result (OnMet (IsLeast (query_of f.now))) }
    // No inputs meet the formula.
    ensures never { IfOk result (OnNever (IsImpossible (query_of f.now))) }
    // The formula is far for the budget.
    ensures undecided { IfOk result (OnUndecided (λ leaves. (leaves ≡ budget) × IsFar budget (query_of f.now))) }
{
    one_list();
    let alloc = *f.columns.allocator();
    let mut terms = f.terms.copy()?;
    terms.order();
    let root = whole(&mut terms, &f.condition, &f.columns)?;
    terms.order();
    if let Some(least) = early(alloc, &terms, root)? {
        return Ok(Verdict::Met(least));
    }
    let mut aig = Aig::new(alloc);
    let (inputs, edge) = circuit_of(alloc, &terms, root, &mut aig)?;
    decided(alloc, &aig, edge, &inputs, budget)
}

/// The circuit of a term: its inputs, and the edge that is true where the term is not 0.
fn circuit_of(
    alloc: Global,
    terms: &Terms,
    root: Ref,
    aig: &mut Aig,
) -> Result<(InputMap, Edge), AllocError>
    requires root { root.index < length terms.now }
    requires none { inputs_of aig.old ≡ 0 }
    ensures stands { IfOk result (λ p. Stands aig.new p.1) }
    ensures order { IfOk result (λ p. AreInputBits 0 p.0) }
    ensures bits { IfOk result (λ p. inputs_of aig.new ≡ bits_of p.0) }
    ensures circuit { IfOk result (λ p. (q : Query) → IsOfTerm q (term_at terms.now root.index) → IsCircuitOf q p.0 aig.new p.1) }
{
    terms.order();
    words_by_inputs();
    one_list();
    let inputs = InputMap::open(alloc, terms, &[root], aig)?;
    let word = blast(alloc, terms, root, aig, &inputs)?;
    let edge = is_not_zero(aig, &word)?;
    Ok((inputs, edge))
}

/// What the search answers to a circuit.
fn decided(
    alloc: Global,
    aig: &Aig,
    edge: Edge,
    inputs: &InputMap,
    budget: u64,
) -> Result<Verdict, AllocError>
    requires stands { Stands aig.now edge }
    requires order { AreInputBits 0 inputs.now }
    requires bits { inputs_of aig.now ≡ bits_of inputs.now }
    requires budget { 1 ≤ budget }
    ensures { IfOk result (λ v. (q : Query) → IsCircuitOf q inputs.now aig.now edge → IsVerdict budget q v) }
{
    one_list();
    let cnf = of_aig(alloc, aig, edge)?;
    match search(alloc, &cnf, aig.inputs(), budget)? {
        Found::Model(bits) => {
            let least = inputs.valuation(&bits)?;
            least.order();
            Ok(Verdict::Met(least))
        }
        Found::Closed(log) => {
            let checks = check(&cnf, &log)?;
            prove!(checks);
            Ok(Verdict::Never(log))
        }
        Found::Spent(leaves) => Ok(Verdict::Undecided { leaves }),
    }
}
