//! All ways through a handler.

ghost use Rattle.std.specs.Prelude.{◌≡◌, ◌<◌, ◌≤◌, ◌++◌, ◌∷◌, [], map, length, ℕ, List, true, false, Some, IfOk, OnOk};
ghost use Rattle.kn_term.specs.Terms.{Term};
ghost use Rattle.kn_cond.specs.Meanings.{literal_of};
ghost use Rattle.kn_model.specs.Terms.{terms};
ghost use Rattle.kn_model.specs.Paths.{Path as PathOf, decided, path_of, runs};
ghost use Rattle.kn_model.specs.Alikes.{AreGiven};
ghost use Rattle.kn_model.specs.Nets.{Network};
ghost use Rattle.kn_machine.specs.Ways.{way_of, known_of, AreStamped, AlikeWay, IsStill};
ghost use Rattle.kn_machine.specs.Effects.{here_of, side_at, IsIn};
ghost use Rattle.kn_step.specs.Sides.{IsFurther};
ghost use Rattle.kn_machine.specs.Paths.{path_seen};
ghost use Rattle.kn_step.specs.Choices.{CameBehind, paths_by};
ghost use Rattle.kn_step.specs.declared.run.RunStop.TheVariants as stops;
ghost use Rattle.kn_step.specs.Given.{onward, Leads, AreGivenSoFar, AreKept};
ghost use Rattle.kn_step.specs.Turns.{turned, split_paths, IsSound, IsOn, IsAtDecision, IsTurn, IsStretch, TurnSplits, IsSplit, sided, OnTooMany, UnlessMemory};

use crate::deciding::{Sides, decide, negated, sides_of};
use kn_code::Instr;
use kn_cond::Standing;
use kn_machine::{Path, Spot, Step, Way, execute, fail, program_of, take_side};
use kn_node::FailKind;
use kn_plan::Net;
use kn_solve::Judge;
use kn_term::Literal;
use std::alloc::AllocError;

/// A decision both of whose sides go on: the instruction, the literal, and what is known of the inputs that meet all that
/// is known so far where the literal holds, and where it does not.
#[derive(Drop)]
pub struct Split {
    pub instr: Instr,
    pub literal: Literal,
    pub first: Standing,
    pub second: Standing,
}

/// What comes of one instruction of a way.
#[derive(Drop)]
pub enum Turn {
    /// The way goes on.
    Goes,
    /// It has ended.
    Ends,
    /// It goes on in two ways.
    Splits(Split),
}

/// What comes of a way, with so many instructions left: its end, or a decision with fewer left.
#[derive(Drop)]
pub enum Stretch {
    Ends,
    Splits(Split, u32),
}

/// Why not all ways were run.
#[derive(Drop)]
pub enum RunStop {
    /// There are more paths than the network's limit of states.
    TooMany,
    Memory(AllocError),
}

impl From<AllocError> for RunStop {
    ghost from_gives = { λ e s. s ≡ stops.Memory e };

    /// Want of memory.
    fn from(error: AllocError) -> RunStop {
        RunStop::Memory(error)
    }
}

/// One side of a decision, by the literal of the side and its bit. Err is want of memory.
fn go(
    net: &Net,
    spot: &Spot,
    instr: Instr,
    bit: bool,
    literal: Literal,
    further: Option<Standing>,
    way: &mut Way,
) -> Result<(), AllocError>
    requires place { IsIn net.now.network spot.now }
    requires at { IsAtDecision net.now.network spot.now instr literal way.old }
    requires further { IsFurther net.now.network.limits.conflicts (known_of way.old) (literal_of way.old.terms literal) further }
    requires sound { IsSound net.now.network.limits.conflicts way.old }
    ensures way { OnOk result (AlikeWay (way_of way.new) (decided terms bit (literal_of way.old.terms literal) (side_at (here_of net.now.network spot.now) instr bit (way_of way.old)))) }
    ensures on { OnOk result (IsOn net.now.network spot.now way.old way.new) }
{
    take_side(net, spot, instr, bit, way)?;
    decide(way, bit, literal, further)?;
    Ok(())
}

/// Goes on under the side that is live, or tells of both.
fn turn_at<J: Judge>(
    net: &Net,
    spot: &Spot,
    judge: &mut J,
    instr: Instr,
    literal: Literal,
    way: &mut Way,
) -> Result<Turn, AllocError>
    requires place { IsIn net.now.network spot.now }
    requires at { IsAtDecision net.now.network spot.now instr literal way.old }
    requires sound { IsSound net.now.network.limits.conflicts way.old }
    ensures leads { (fuel : ℕ) → IfOk result (λ t. Leads (turned (here_of net.now.network spot.now) fuel t way.new) (split_paths (here_of net.now.network spot.now) fuel instr literal way.old)) }
    ensures on { IfOk result (λ t. IsOn net.now.network spot.now way.old way.new) }
    ensures splits { IfOk result (TurnSplits net.now.network spot.now way.new) }
{
    net.bounds();
    // By its type, what a way knows is what was known before the event, with the event's literals.
    let _ = &way.cond;
    match sides_of(judge, net.limits.conflicts, way, literal)? {
        Sides::First => {
            go(net, spot, instr, false, literal, None, way)?;
            Ok(Turn::Goes)
        }
        Sides::Second => {
            go(net, spot, instr, true, negated(literal), None, way)?;
            Ok(Turn::Goes)
        }
        Sides::Both(first, second) => Ok(Turn::Splits(Split {
            instr,
            literal,
            first,
            second,
        })),
    }
}

/// What comes of the next instruction of a way.
fn take_turn<J: Judge>(
    net: &Net,
    spot: &Spot,
    judge: &mut J,
    way: &mut Way,
) -> Result<Turn, AllocError>
    requires place { IsIn net.now.network spot.now }
    requires sound { IsSound net.now.network.limits.conflicts way.old }
    ensures { IfOk result (IsTurn net.now.network spot.now way.old way.new) }
{
    if !way.is_running() {
        return Ok(Turn::Ends);
    }
    let Some(instr) = program_of(net, spot.node).instr(way.pc) else {
        return Ok(Turn::Ends);
    };
    match execute(net, spot, instr, way)? {
        Step::Goes => Ok(Turn::Goes),
        Step::Stops => Ok(Turn::Ends),
        Step::Decides(literal) => {
            let turn = turn_at(net, spot, judge, instr, literal, way)?;
            Ok(turn)
        }
    }
}

/// What comes of a way, with so many instructions left; one that would execute another one fails.
fn run_stretch<J: Judge>(
    net: &Net,
    spot: &Spot,
    judge: &mut J,
    fuel: u32,
    way: &mut Way,
) -> Result<Stretch, AllocError>
    requires place { IsIn net.now.network spot.now }
    requires sound { IsSound net.now.network.limits.conflicts way.old }
    ensures { IfOk result (IsStretch net.now.network spot.now fuel way.old way.new) }
{
    for done in 0..fuel {
        match take_turn(net, spot, judge, way)? {
            Turn::Goes => {}
            Turn::Ends => return Ok(Stretch::Ends),
            Turn::Splits(split) => return Ok(Stretch::Splits(split, fuel - done - 1)),
        }
    }
    run_out(spot, way);
    Ok(Stretch::Ends)
}

/// A way that would execute another instruction fails.
fn run_out(spot: &Spot, way: &mut Way)
    ensures leads { (net : Network) → Leads (path_of terms (way_of way.new) ∷ []) (onward (here_of net spot.now) 0 (way_of way.old)) }
    ensures still { IsStill way.old way.new }
{
    if way.is_running() {
        fail(spot.tick, FailKind::Fuel, way);
    }
}

/// The path of a way that has ended comes behind the others, unless there are too many.
pub fn give(net: &Net, spot: &Spot, way: Way, out: &mut Vec<Path>) -> Result<(), RunStop>
    requires sound { IsSound net.now.network.limits.conflicts way }
    requires stamps { AreStamped spot.now.node spot.now.history way.sends }
    ensures { CameBehind net.now.network spot.now out.old.items out.new.items (path_of terms (way_of way) ∷ []) result }
{
    let path = match way.finish(spot.node, spot.history) {
        Ok(path) => path,
        Err(error) => return Err(RunStop::Memory(error)),
    };
    if let Err(error) = out.push(path) {
        return Err(RunStop::Memory(error.into()));
    }
    if out.len() > net.limits.states {
        return Err(RunStop::TooMany);
    }
    Ok(())
}

/// The paths of a way, with so many instructions left, come behind the others, bit 0 before bit 1, apart from paths that
/// no inputs meet. Where there are too many in all, it stops.
pub fn run<J: Judge>(
    net: &Net,
    spot: &Spot,
    judge: &mut J,
    fuel: u32,
    way: Way,
    out: &mut Vec<Path>,
) -> Result<(), RunStop>
    requires place { IsIn net.now.network spot.now }
    requires sound { IsSound net.now.network.limits.conflicts way }
    requires stamps { AreStamped spot.now.node spot.now.history way.sends }
    ensures { CameBehind net.now.network spot.now out.old.items out.new.items (onward (here_of net.now.network spot.now) fuel (way_of way)) result }
{
    let mut way = way;
    match run_stretch(net, spot, judge, fuel, &mut way) {
        Ok(Stretch::Ends) => give(net, spot, way, out),
        Ok(Stretch::Splits(split, left)) => match both_sides(net, spot, split, way) {
            Ok((first, second)) => match run(net, spot, judge, left, first, out) {
                Ok(()) => run(net, spot, judge, left, second, out),
                Err(stop) => Err(stop),
            },
            Err(error) => Err(RunStop::Memory(error)),
        },
        Err(error) => Err(RunStop::Memory(error)),
    }
}

/// The paths of a way through the handler of a number, of boot, recv and timer 0 to timer 7, come behind the others; one that
/// is absent runs no instruction.
pub fn run_handler<J: Judge>(
    net: &Net,
    spot: &Spot,
    judge: &mut J,
    handler: u8,
    way: Way,
    out: &mut Vec<Path>,
) -> Result<(), RunStop>
    requires place { IsIn net.now.network spot.now }
    requires sound { IsSound net.now.network.limits.conflicts way }
    requires stamps { AreStamped spot.now.node spot.now.history way.sends }
    ensures { CameBehind net.now.network spot.now out.old.items out.new.items (paths_by (runs terms (here_of net.now.network spot.now) handler) (way_of way)) result }
{
    match program_of(net, spot.node).handler(handler) {
        Some(entry) => {
            let mut way = way;
            way.jump(entry);
            run(net, spot, judge, net.limits.fuel, way, out)
        }
        None => give(net, spot, way, out),
    }
}

/// The ways on under both sides of a decision, which share their terms. Err is want of memory.
fn both_sides(net: &Net, spot: &Spot, split: Split, way: Way) -> Result<(Way, Way), AllocError>
    requires place { IsIn net.now.network spot.now }
    requires sound { IsSound net.now.network.limits.conflicts way }
    requires split { IsSplit net.now.network spot.now way split }
    ensures first { IfOk result (λ p. AlikeWay (way_of p.0) (sided (here_of net.now.network spot.now) split.instr false split.literal way)) }
    ensures first_on { IfOk result (λ p. IsOn net.now.network spot.now way p.0) }
    ensures second { IfOk result (λ p. AlikeWay (way_of p.1) (sided (here_of net.now.network spot.now) split.instr true split.literal way)) }
    ensures second_on { IfOk result (λ p. IsOn net.now.network spot.now way p.1) }
{
    let Split {
        instr,
        literal,
        first,
        second,
    } = split;
    let mut way = way;
    let one = first_side(net, spot, instr, literal, first, &mut way)?;
    let opposite = negated(literal);
    go(net, spot, instr, true, opposite, Some(second), &mut way)?;
    Ok((one, way))
}

/// A way on where the literal of a decision holds, beside the way itself, which shares its terms. Err is want of memory.
fn first_side(
    net: &Net,
    spot: &Spot,
    instr: Instr,
    literal: Literal,
    further: Standing,
    way: &mut Way,
) -> Result<Way, AllocError>
    requires place { IsIn net.now.network spot.now }
    requires at { IsAtDecision net.now.network spot.now instr literal way.old }
    requires further { IsFurther net.now.network.limits.conflicts (known_of way.old) (literal_of way.old.terms literal) (Some further) }
    requires sound { IsSound net.now.network.limits.conflicts way.old }
    ensures same { way.new ≡ way.old }
    ensures way { IfOk result (λ w. AlikeWay (way_of w) (sided (here_of net.now.network spot.now) instr false literal way.old)) }
    ensures on { IfOk result (λ w. IsOn net.now.network spot.now way.old w) }
{
    let mut side = way.fork()?;
    go(net, spot, instr, false, literal, Some(further), &mut side)?;
    Ok(side)
}
