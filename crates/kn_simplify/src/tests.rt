//! What terms become.

use super::*;
use kn_term::{Node, Ref, Terms, Valuation};
use kn_word::Op;
use std::alloc::Global;
use std::test::Fail;

/// What the input (0, 0) of 4 bits divided by itself is where the input is a word, once simplified.
#[tactic(auto, using(kn_term::proofs::Kept::kept))]
fn quotient_of_itself(alloc: Global, word: u16) -> Result<u16, Memory> {
    let mut inputs = Valuation::new(alloc);
    inputs.set(0, 0, word)?;
    let mut terms = Terms::new(alloc);
    let x = terms.input(0, 0, 4)?;
    let quotient = terms.apply(Op::Udiv, x, x)?;
    let simple = simplify(alloc, &mut terms, quotient)?;
    terms.value(&inputs, simple)
}

#[test]
fn does_not_take_a_quotient_of_itself_for_one(rt: HostRuntime) -> Result<(), Fail> {
    let at_zero = quotient_of_itself(rt.alloc(), 0)?;
    assert_eq!(rt; at_zero, 65535);
    let at_five = quotient_of_itself(rt.alloc(), 5)?;
    assert_eq!(rt; at_five, 1);
    Ok(())
}

/// The node that an operator on two words becomes.
#[tactic(auto, using(kn_term::proofs::Kept::kept))]
fn node_of_words(alloc: Global, op: Op, x: u16, y: u16) -> Result<Node, Memory> {
    let mut terms = Terms::new(alloc);
    let left = terms.konst(x)?;
    let right = terms.konst(y)?;
    let r = terms.apply(op, left, right)?;
    let simple = simplify_top(&mut terms, r)?;
    Ok(terms.node(simple))
}

#[test]
fn folds_an_operator_on_two_words(rt: HostRuntime) -> Result<(), Fail> {
    for (op, word) in [
        (Op::Add, 0x8005),
        (Op::Sub, 0x8001),
        (Op::Mul, 6),
        (Op::And, 2),
        (Op::Or, 0x8003),
        (Op::Xor, 0x8001),
        (Op::Shl, 12),
        (Op::Shr, 0x2000),
        (Op::Sar, 0xe000),
        (Op::Udiv, 0x4001),
        (Op::Urem, 1),
        (Op::Eq, 0),
        (Op::Ult, 0),
        (Op::Slt, 1),
    ] {
        let node = node_of_words(rt.alloc(), op, 0x8003, 2)?;
        assert!(rt; node == Node::Konst(word), "at {op:?}");
    }
    Ok(())
}

/// What an operator on an input and a word becomes: the node, or None where it becomes the input.
#[tactic(auto, using(kn_term::proofs::Kept::kept))]
fn with_word(alloc: Global, op: Op, word: u16, on_left: bool) -> Result<Option<Node>, Memory> {
    let mut terms = Terms::new(alloc);
    let x = terms.input(1, 2, 16)?;
    let y = terms.konst(word)?;
    let r = if on_left {
        terms.apply(op, y, x)?
    } else {
        terms.apply(op, x, y)?
    };
    let simple = simplify_top(&mut terms, r)?;
    if simple == x {
        return Ok(None);
    }
    Ok(Some(terms.node(simple)))
}

#[test]
fn drops_an_operator_that_gives_its_operand(rt: HostRuntime) -> Result<(), Fail> {
    for (op, word, on_left) in [
        (Op::Add, 0, false),
        (Op::Add, 0, true),
        (Op::Sub, 0, false),
        (Op::Mul, 1, false),
        (Op::Mul, 1, true),
        (Op::And, 65535, false),
        (Op::And, 65535, true),
        (Op::Or, 0, false),
        (Op::Or, 0, true),
        (Op::Xor, 0, false),
        (Op::Xor, 0, true),
        (Op::Shl, 0, false),
        (Op::Shr, 0, false),
        (Op::Sar, 0, false),
        (Op::Udiv, 1, false),
        (Op::Urem, 0, false),
    ] {
        let node = with_word(rt.alloc(), op, word, on_left)?;
        assert!(rt; node.is_none(), "at {op:?} {word} {on_left:?}");
    }
    Ok(())
}

#[test]
fn folds_an_operator_that_gives_one_word(rt: HostRuntime) -> Result<(), Fail> {
    for (op, word, on_left, answer) in [
        (Op::Mul, 0, false, 0),
        (Op::Mul, 0, true, 0),
        (Op::And, 0, false, 0),
        (Op::And, 0, true, 0),
        (Op::Or, 65535, false, 65535),
        (Op::Or, 65535, true, 65535),
        (Op::Shl, 16, false, 0),
        (Op::Shl, 0, true, 0),
        (Op::Shr, 65535, false, 0),
        (Op::Shr, 0, true, 0),
        (Op::Sar, 0, true, 0),
        (Op::Sar, 65535, true, 65535),
        (Op::Udiv, 0, false, 65535),
        (Op::Urem, 1, false, 0),
        (Op::Urem, 0, true, 0),
        (Op::Ult, 0, false, 0),
        (Op::Ult, 65535, true, 0),
        (Op::Slt, 32768, false, 0),
        (Op::Slt, 32767, true, 0),
    ] {
        let node = with_word(rt.alloc(), op, word, on_left)?;
        assert!(rt;
            node == Some(Node::Konst(answer)),
            "at {op:?} {word} {on_left:?}"
        );
    }
    Ok(())
}

/// What an operator on an input twice becomes, over two nodes that are the same: the node, or None where it becomes the
/// input.
#[tactic(auto, using(kn_term::proofs::Kept::kept))]
fn twice(alloc: Global, op: Op) -> Result<Option<Node>, Memory> {
    let mut terms = Terms::new(alloc);
    let x = terms.input(1, 2, 16)?;
    let again = terms.input(1, 2, 16)?;
    let r = terms.apply(op, x, again)?;
    let simple = simplify_top(&mut terms, r)?;
    if simple == x {
        return Ok(None);
    }
    Ok(Some(terms.node(simple)))
}

#[test]
fn folds_an_operator_on_one_operand_twice(rt: HostRuntime) -> Result<(), Fail> {
    for (op, answer) in [
        (Op::Sub, Some(0)),
        (Op::And, None),
        (Op::Or, None),
        (Op::Xor, Some(0)),
        (Op::Urem, Some(0)),
        (Op::Eq, Some(1)),
        (Op::Ult, Some(0)),
        (Op::Slt, Some(0)),
    ] {
        let node = twice(rt.alloc(), op)?;
        assert!(rt; node == answer.map(Node::Konst), "at {op:?}");
    }
    Ok(())
}

/// Whether a choice by a word, of two inputs or one of them twice, becomes the first of them.
#[tactic(auto, using(kn_term::proofs::Kept::kept))]
fn becomes_first(alloc: Global, condition: u16, again: bool) -> Result<bool, Memory> {
    let mut terms = Terms::new(alloc);
    let c = terms.konst(condition)?;
    let x = terms.input(0, 0, 8)?;
    let y = terms.input(0, 1, 8)?;
    let r = if again {
        terms.ite(y, x, x)?
    } else {
        terms.ite(c, x, y)?
    };
    let simple = simplify_top(&mut terms, r)?;
    Ok(simple == x)
}

#[test]
fn takes_a_side_of_a_choice(rt: HostRuntime) -> Result<(), Fail> {
    let first = becomes_first(rt.alloc(), 9, false)?;
    assert!(rt; first);
    let second = becomes_first(rt.alloc(), 0, false)?;
    assert!(rt; !second);
    let same = becomes_first(rt.alloc(), 0, true)?;
    assert!(rt; same);
    Ok(())
}

#[tactic(auto, using(kn_term::proofs::Kept::kept))]
#[test]
fn folds_from_the_operands_up(rt: HostRuntime) -> Result<(), Fail> {
    let mut terms = Terms::new(rt.alloc());
    let x = terms.input(0, 0, 16)?;
    let two = terms.konst(2)?;
    let three = terms.konst(3)?;
    let six = terms.apply(Op::Mul, two, three)?;
    let less = terms.apply(Op::Sub, six, two)?;
    let shared = terms.apply(Op::Add, less, less)?;
    let sum = terms.apply(Op::Add, shared, x)?;
    let simple = simplify(rt.alloc(), &mut terms, shared)?;
    assert!(rt; terms.node(simple) == Node::Konst(8));
    let whole = simplify(rt.alloc(), &mut terms, sum)?;
    let mut inputs = Valuation::new(rt.alloc());
    inputs.set(0, 0, 30)?;
    assert_eq!(rt; terms.value(&inputs, whole)?, 38);
    assert_eq!(rt; terms.value(&inputs, sum)?, 38);
    assert!(rt; matches!(terms.node(whole), Node::Apply(Op::Add, _, y) if y == x));
    Ok(())
}

/// An operator on an input and a word, as made: the node, or None where it is the input.
#[tactic(auto, using(kn_term::proofs::Kept::kept))]
fn applied(alloc: Global, op: Op, word: u16) -> Result<Option<Node>, Memory> {
    let mut terms = Terms::new(alloc);
    let x = terms.input(1, 2, 16)?;
    let y = terms.konst(word)?;
    let r = apply(&mut terms, op, x, y)?;
    if r == x {
        return Ok(None);
    }
    Ok(Some(terms.node(r)))
}

/// A choice between an input and a word, as made, by a word or else by the input: the node.
#[tactic(auto, using(kn_term::proofs::Kept::kept))]
fn chosen(alloc: Global, condition: Option<u16>) -> Result<Node, Memory> {
    let mut terms = Terms::new(alloc);
    let x = terms.input(1, 2, 16)?;
    let y = terms.konst(7)?;
    let c = match condition {
        Some(word) => terms.konst(word)?,
        None => x,
    };
    let r = ite(&mut terms, c, x, y)?;
    Ok(terms.node(r))
}

#[test]
fn makes_terms_that_are_simple(rt: HostRuntime) -> Result<(), Fail> {
    let (x, y) = (Ref { index: 0 }, Ref { index: 1 });
    for (op, word, made) in [
        (Op::Xor, 0, None),
        (Op::Mul, 0, Some(Node::Konst(0))),
        (Op::Sub, 3, Some(Node::Apply(Op::Sub, x, y))),
    ] {
        let node = applied(rt.alloc(), op, word)?;
        assert!(rt; node == made, "at {op:?} {word}");
    }
    for (condition, made) in [
        (Some(0), Node::Konst(7)),
        (
            Some(2),
            Node::Input {
                node: 1,
                index: 2,
                width: 16,
            },
        ),
        (None, Node::Ite(x, x, y)),
    ] {
        let node = chosen(rt.alloc(), condition)?;
        assert!(rt; node == made, "at {condition:?}");
    }
    Ok(())
}

/// The word that is added to an input by what adds or takes one word after another; None where the term is no such sum.
#[tactic(auto, using(kn_term::proofs::Kept::kept))]
fn added_in_all(
    alloc: Global,
    first: (Op, u16),
    second: (Op, u16),
) -> Result<Option<Node>, Memory> {
    let mut terms = Terms::new(alloc);
    let x = terms.input(1, 2, 16)?;
    let y = terms.konst(first.1)?;
    let once = apply(&mut terms, first.0, x, y)?;
    let z = terms.konst(second.1)?;
    let twice = apply(&mut terms, second.0, once, z)?;
    match terms.node(twice) {
        Node::Apply(Op::Add, base, word) if base == x => Ok(Some(terms.node(word))),
        _ => Ok(None),
    }
}

#[test]
fn adds_words_at_once(rt: HostRuntime) -> Result<(), Fail> {
    for (first, second, word) in [
        ((Op::Add, 3), (Op::Add, 4), Some(7)),
        ((Op::Add, 0xffff), (Op::Add, 2), Some(1)),
        ((Op::Sub, 1), (Op::Sub, 1), Some(0xfffe)),
        ((Op::Add, 9), (Op::Sub, 2), Some(7)),
        ((Op::Add, 3), (Op::Sub, 3), None),
        ((Op::Mul, 3), (Op::Add, 4), None),
    ] {
        let node = added_in_all(rt.alloc(), first, second)?;
        assert!(rt; node == word.map(Node::Konst), "at {first:?} {second:?}");
    }
    Ok(())
}
