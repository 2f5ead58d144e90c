//! The clauses of a circuit, by Tseitin's encoding.

ghost use Rattle.std.specs.Prelude.{◌≡◌, ◌≢◌, ◌<◌, ◌≤◌, ◌+◌, ◌&&◌, ◌↔◌, ◌++◌, [], ◌∷◌, ℕ, Bool, List, Some, IfOk, OnOk, true, false, length, vec_len, slice_get, slice_index_or, map};
ghost use Rattle.kn_aig.specs.Circuits.{Stands, IsCircuit, Fits, inputs_of};
ghost use Rattle.kn_cnf.specs.Formulas.{items_of, AreBelow};
ghost use Rattle.kn_cnf.specs.Units.{IsDecided};
ghost use Rattle.kn_cnf.specs.SoFar.{IsEncoded};
ghost use Rattle.kn_cnf.specs.Encoding.{AreMarked, IsEncoding, IsExtendable, lit_of, gate_clauses, name_of, clauses_of, vars_after, IsWithin};

use crate::clauses::{Clause, Cnf, Lit};
use kn_aig::{Aig, AigNode, Edge};
use std::alloc::{AllocError, Global};

/// The clauses of a circuit and its root. The inputs are the first variables, in order, and each gate below the root has
/// a variable behind them. Values of the variables meet the clauses exactly where each such gate has its value under the
/// values of the inputs and the root is true. Unit propagation completes or refutes each assignment of the inputs. Err is
/// want of memory.
pub fn of_aig(alloc: Global, aig: &Aig, root: Edge) -> Result<Cnf, AllocError>
    requires { Stands aig.now root }
    ensures inputs { IfOk result (λ f. inputs_of aig.now ≤ f.vars) }
    ensures below { IfOk result (λ f. AreBelow f.vars f.clauses) }
    ensures exact { IfOk result (IsEncoding aig.now root) }
    ensures extends { IfOk result (IsExtendable aig.now root) }
    ensures decided { IfOk result (IsDecided (inputs_of aig.now)) }
{
    if root.node == 0 {
        return of_constant(alloc, aig, root);
    }
    let parts = encode(alloc, aig, root.node)?;
    let Parts {
        names,
        vars,
        mut clauses,
    } = parts;
    put_clause(&mut clauses, vec![in alloc; literal_of(&names, root)]?)?;
    Ok(Cnf { vars, clauses })
}

/// The clauses of a constant root.
fn of_constant(alloc: Global, aig: &Aig, root: Edge) -> Result<Cnf, AllocError>
    requires { root.node ≡ 0 }
    ensures inputs { IfOk result (λ f. inputs_of aig.now ≤ f.vars) }
    ensures below { IfOk result (λ f. AreBelow f.vars f.clauses) }
    ensures exact { IfOk result (IsEncoding aig.now root) }
    ensures extends { IfOk result (IsExtendable aig.now root) }
    ensures decided { IfOk result (IsDecided (inputs_of aig.now)) }
{
    let _ = aig.size();
    let mut clauses: Vec<Clause> = Vec::new(alloc);
    if root.inverted {
        return Ok(Cnf {
            vars: aig.inputs(),
            clauses,
        });
    }
    put_clause(&mut clauses, Vec::new(alloc))?;
    Ok(Cnf {
        vars: aig.inputs(),
        clauses,
    })
}

/// The variables of the nodes so far, how many variables there are, and the clauses.
#[derive(Drop)]
struct Parts {
    names: Vec<usize>,
    vars: usize,
    clauses: Vec<Clause>,
}

/// The clauses of all gates that the root stands on.
fn encode(alloc: Global, aig: &Aig, root: usize) -> Result<Parts, AllocError>
    requires { root < length aig.now }
    ensures { IfOk result (λ e. IsEncoded aig.now root e.names.items e.vars (map items_of e.clauses.items)) }
{
    let marks = marks_of(alloc, aig, root)?;
    let mut names: Vec<usize> = Vec::new(alloc);
    let mut clauses: Vec<Clause> = Vec::new(alloc);
    let mut vars = aig.inputs();
    for place in 0..aig.size() {
        vars = put_node(
            &mut names,
            &mut clauses,
            vars,
            aig.gate(place),
            marks[place],
        )?;
    }
    Ok(Parts {
        names,
        vars,
        clauses,
    })
}

/// Marks the nodes that the root stands on.
fn marks_of(alloc: Global, aig: &Aig, root: usize) -> Result<Vec<bool>, AllocError>
    requires { root < length aig.now }
    ensures { IfOk result (λ v. AreMarked aig.now root v.items) }
{
    let mut place = aig.size();
    let mut marks = vec![in alloc; false; place]?;
    marks[root] = true;
    while place > 0 {
        place -= 1;
        if marks[place] {
            match aig.gate(place) {
                AigNode::And(x, y) => {
                    marks[x.node] = true;
                    marks[y.node] = true;
                }
                AigNode::Input(_) => {}
                AigNode::Constant => {}
            }
        }
    }
    Ok(marks)
}

/// Gives the next node its variable, and appends its clauses where it is a marked gate. The answer is how many variables
/// there are then.
fn put_node(
    names: &mut Vec<usize>,
    clauses: &mut Vec<Clause>,
    vars: usize,
    node: AigNode,
    marked: bool,
) -> Result<usize, AllocError>
    requires { IsWithin (length names.old.items) node }
    ensures names { OnOk result (names.new.items ≡ names.old.items ++ name_of vars marked node ∷ []) }
    ensures clauses { OnOk result (map items_of clauses.new.items ≡ map items_of clauses.old.items ++ clauses_of names.old.items vars marked node) }
    ensures vars { IfOk result (λ n. n ≡ vars_after vars marked node) }
{
    match node {
        AigNode::Constant => {
            names.push(0)?;
            Ok(vars)
        }
        AigNode::Input(place) => {
            names.push(place)?;
            Ok(vars)
        }
        AigNode::And(x, y) => {
            if !marked {
                names.push(0)?;
                return Ok(vars);
            }
            if vars == usize::MAX {
                return Err(AllocError);
            }
            let gate = Lit {
                var: vars,
                neg: false,
            };
            put_gate(clauses, gate, literal_of(names, x), literal_of(names, y))?;
            names.push(vars)?;
            Ok(vars + 1)
        }
    }
}

/// Appends the clauses which say that a variable is true exactly where both literals are.
fn put_gate(clauses: &mut Vec<Clause>, gate: Lit, x: Lit, y: Lit) -> Result<(), AllocError>
    ensures { OnOk result (map items_of clauses.new.items ≡ map items_of clauses.old.items ++ gate_clauses gate x y) }
{
    let alloc = *clauses.allocator();
    put_clause(clauses, vec![in alloc; gate.negated(), x]?)?;
    put_clause(clauses, vec![in alloc; gate.negated(), y]?)?;
    put_clause(clauses, vec![in alloc; gate, x.negated(), y.negated()]?)
}

/// Appends a clause.
fn put_clause(clauses: &mut Vec<Clause>, clause: Clause) -> Result<(), AllocError>
    ensures { OnOk result (map items_of clauses.new.items ≡ map items_of clauses.old.items ++ clause.items ∷ []) }
{
    clauses.push(clause)?;
    Ok(())
}

/// The literal of an edge, by the variables of the nodes.
fn literal_of(names: &[usize], e: Edge) -> Lit
    requires { e.node < length names.now }
    ensures { result ≡ lit_of names.now e }
{
    Lit {
        var: names[e.node],
        neg: e.inverted,
    }
}
