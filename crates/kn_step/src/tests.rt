//! Event runs of one node of a small network, on all ways at once, and what it receives.

ghost use Rattle.std.specs.Prelude.{◌≡◌, ◌<◌, ◌≤◌, ◌∷◌, [], ℕ, length, IfOk};
ghost use Rattle.std.specs.Arc.{arc_value};
ghost use Rattle.std.specs.List.{AllByRecursion};
ghost use Rattle.kn_packet.specs.Packets.{PacketView};
ghost use Rattle.kn_cond.specs.Conditions.{that, StandsFor};
ghost use Rattle.kn_machine.specs.Views.{own_of};
ghost use Rattle.kn_step.specs.Answers.{IsReady};

mod rows;

use super::*;
use kn_code::{Program, decode};
use kn_cond::Standing;
use kn_node::{Config, FailKind, Machine, Outcome, next_event, open_config};
use kn_packet::{Packet, Queue, Stamp};
use kn_plan::{Limits, Link, Name, Net, NodePlan};
use kn_term::{Literal, Ref, Terms, Valuation};
use kn_trace::Trace;
use kn_word::Op;
use rows::{
    BOOT, CASES, Case, FAILURES, Failure, RECEIPTS, ROWS, Receipt, Row, Start, WAYS, WIDTHS, Width,
};
use smallvec::SmallVec;
use std::alloc::{AllocError, Global};
use std::fmt::Write;
use std::marker::Brand;
use std::sync::Arc;
use std::sync::ledger::{Blank, Ledger};
use std::test::Fail;

fn is_shared<T: Send + Sync>() {}

/// The program of these instructions; each is its code, its fields a, b and c, and its fields p and q. Each handler begins
/// at the first one where `entry` is 0, and is absent where it is 255.
fn program(alloc: Global, entry: u8, instrs: &[[u8; 8]]) -> Result<Program, AllocError> {
    let mut bytes = Vec::from_array(alloc, [0, instrs.len().min(200) as u8])?;
    bytes.extend_from_slice(&[entry; 20])?;
    for instr in instrs {
        bytes.extend_from_slice(instr)?;
    }
    match decode(alloc, &bytes) {
        Ok(program) => Ok(program),
        Err(_) => Err(AllocError),
    }
}

fn plan(alloc: Global) -> Result<NodePlan, AllocError>
    ensures { IfOk result (λ p. p ≡ record { program = 0; loss = 0; duplicate = 0; reboot = [] }) }
{
    Ok(NodePlan {
        program: 0,
        loss: 0,
        duplicate: 0,
        reboot: Vec::new(alloc),
    })
}

fn name(alloc: Global) -> Result<Name, AllocError>
    ensures { IfOk result (λ n. n ≡ 97 ∷ []) }
{
    Ok(Name {
        bytes: Vec::from_array(alloc, [b'a'])?,
    })
}

/// A link of node 1.
fn link(to: u32, delay: u32) -> Link
    ensures { result ≡ record { from = 1; to = to; delay = delay } }
{
    Link { from: 1, to, delay }
}

/// Three nodes with a program, for two ticks; node 1 has a link to node 0, of delay 2, and one to node 2, of delay 1.
fn three_nodes(alloc: Global, program: Program, fuel: u32) -> Result<Net, AllocError>
    requires least { 1 ≤ fuel }
    requires most { fuel ≤ 4096 }
    ensures nodes { IfOk result (λ n. length n.network.nodes ≡ 3) }
    ensures ticks { IfOk result (λ n. n.network.limits.ticks ≡ 2) }
{
    Ok(Net {
        programs: Vec::from_array(alloc, [program])?,
        nodes: Vec::from_array(alloc, [plan(alloc)?, plan(alloc)?, plan(alloc)?])?,
        links: Vec::from_array(alloc, [link(0, 2), link(2, 1)])?,
        limits: Limits {
            ticks: 2,
            fuel,
            conflicts: 65536,
            states: 4,
            dstates: 4,
        },
        names: Vec::from_array(alloc, [name(alloc)?])?,
        inputs: Valuation::new(alloc),
    })
}

/// A copy of a packet of node 2 to node 1, which comes in tick 1, with the words 7 and 9.
fn mail(alloc: Global, copy: u8) -> Result<Packet, AllocError>
    ensures { IfOk result (λ p. p.from ≡ 2) }
{
    let mut terms = Terms::new(alloc);
    let seven = terms.konst(7)?;
    let nine = terms.konst(9)?;
    Ok(Packet {
        from: 2,
        seq: 0,
        copy,
        to: 1,
        arrival: 1,
        payload: SmallVec::from_slice(alloc, &[seven, nine])?,
        guard: Vec::new(alloc),
        terms,
        stamp: stamp(alloc),
    })
}

/// The stamp of node 2's first packet.
fn stamp(alloc: Global) -> Stamp {
    Stamp {
        node: 2,
        history: 0,
        bits: Trace::new(alloc),
        seq: 0,
    }
}

/// The queue with that packet, or without packets.
fn queue(alloc: Global, start: &Start) -> Result<Queue, AllocError>
    ensures { IfOk result (λ q. AllByRecursion (λ (p : PacketView). p.from < 3) q) }
{
    let mut queue = Queue::new(alloc);
    if start.mail && queue.post(mail(alloc, start.failing.copy)?).is_err() {
        return Err(AllocError);
    }
    Ok(queue)
}

/// The machine of a node that begins so; all else is as before it.
fn machine_at(alloc: Global, machine: Machine, start: &Start) -> Result<Machine, AllocError>
    ensures registers { IfOk result (λ m. m.registers ≡ machine.registers) }
    ensures memory { IfOk result (λ m. m.memory ≡ machine.memory) }
    ensures queue { IfOk result (λ m. AllByRecursion (λ (p : PacketView). p.from < 3) m.queue) }
{
    let Machine {
        registers,
        memory,
        ..
    } = machine;
    let mut reboots = Vec::new(alloc);
    if start.failing.reboots {
        reboots.push(1)?;
    }
    Ok(Machine {
        registers,
        memory,
        timers: Vec::from_array(
            alloc,
            [None, None, None, start.timer, None, None, None, None],
        )?,
        queue: queue(alloc, start)?,
        inputs: start.made.min(65535),
        sent: start.sent.min(65535),
        losses: start.failing.losses,
        duplications: start.failing.duplications,
        outcome: Outcome::Running,
        booted: start.tick > 0,
        reboots,
    })
}

/// Node 1 of the network as it begins so.
fn started(alloc: Global, net: &Net, start: &Start) -> Result<Arc<Config, Global>, AllocError>
    requires nodes { length net.now.network.nodes ≡ 3 }
    requires ticks { net.now.network.limits.ticks ≡ 2 }
    ensures { (tick : ℕ) → tick < 2 → IfOk result (λ c. IsReady net.now.network tick (arc_value c)) }
{
    let Config {
        node,
        machine,
        terms,
        cond,
        trace,
        history,
        standing,
    } = open_config(net, 1)?;
    let machine = machine_at(alloc, machine, start)?;
    let config = Config {
        node,
        machine,
        terms,
        cond,
        trace,
        history,
        standing,
    };
    let shared = Arc::new(alloc, config)?;
    Ok(shared)
}

/// The event that is due in a tick for a state of node 1; Err where none is due, or memory is wanting.
fn stepped<L: Ledger>(
    net: &Net,
    c: &Arc<Config, Global>,
    tick: u32,
    blank: Blank,
) -> Result<Done, StepStop>
    requires name { blank.name ≡ L.name }
    requires parts { blank.parts ≡ L.parts }
    requires some { 0 < L.parts }
    requires ready { IsReady net.now.network tick (arc_value c.now) }
{
    if next_event(c, tick).is_none() {
        return Err(StepStop::Memory(AllocError));
    }
    let mut steps: Steps<L> = Steps::new(blank);
    run_event(net, c, tick, &mut steps)
}

/// What a program does at a node that begins so.
fn ran<L: Ledger>(
    alloc: Global,
    program: Program,
    fuel: u32,
    start: &Start,
    blank: Blank,
) -> Result<Done, StepStop>
    requires name { blank.name ≡ L.name }
    requires parts { blank.parts ≡ L.parts }
    requires some { 0 < L.parts }
{
    let fuel = fuel.max(1).min(4096);
    let net = three_nodes(alloc, program, fuel)?;
    let config = started(alloc, &net, start)?;
    stepped::<L>(&net, &config, start.tick.min(1), blank)
}

/// Outcome, and the instruction and tick of a failure.
fn add_outcome(text: &mut String, outcome: Outcome) -> Result<(), AllocError> {
    match outcome {
        Outcome::Running => text.push_str("running"),
        Outcome::Halted => text.push_str("halted"),
        Outcome::Failed { kind, pc, tick } => {
            let word = match kind {
                FailKind::Assert => "assert",
                FailKind::Bounds => "bounds",
                FailKind::Fuel => "fuel",
            };
            write!(text, "{word}@{pc}@{tick}")
        }
    }
}

/// A term's word on the least inputs of a path.
fn word_of(standing: &Standing, terms: &Terms, r: Ref) -> Result<u16, AllocError>
    requires { r.index < length terms.now }
{
    match standing {
        Standing::Inputs(inputs) => terms.value(inputs, r),
        Standing::Open { .. } => Ok(0xeeee),
    }
}

/// The word of register 0 on the least inputs of a path.
fn register_0(config: &Config) -> Result<u16, AllocError> {
    config.stands();
    config.machine.sizes();
    let r = config.machine.registers[0];
    word_of(&config.standing, &config.terms, r)
}

/// The timers that are set, each with its tick.
fn add_timers(text: &mut String, machine: &Machine) -> Result<(), AllocError> {
    for (number, timer) in machine.timers.iter().enumerate() {
        if let Some(tick) = timer {
            write!(text, " t{number}@{tick}")?;
        }
    }
    Ok(())
}

/// What is sent: sequence number, receiver, arrival, how many literals the guard has, and the words.
fn add_send(text: &mut String, standing: &Standing, packet: &Packet) -> Result<(), AllocError> {
    let asked = packet.guard.len();
    write!(text, " #{} to {}@{}", packet.seq, packet.to, packet.arrival)?;
    write!(text, " if {asked}:")?;
    for word in packet.payload.as_slice() {
        let word = word_of(standing, &packet.terms, *word)?;
        write!(text, " {word}")?;
    }
    Ok(())
}

/// What a path sends.
fn add_sends(text: &mut String, path: &Path) -> Result<(), AllocError> {
    for packet in &path.sends {
        add_send(text, &path.config.standing, packet)?;
    }
    Ok(())
}

/// Bits and outcome of a path, the word of register 0, the timers that are set, and what is sent.
fn add_path(text: &mut String, path: &Path) -> Result<(), AllocError> {
    text.push_str(&path.bits.text()?)?;
    text.push(' ')?;
    add_outcome(text, path.config.machine.outcome)?;
    write!(text, " {}", register_0(&path.config)?)?;
    add_timers(text, &path.config.machine)?;
    add_sends(text, path)?;
    text.push(';')
}

/// All paths.
fn said(alloc: Global, paths: &[Path]) -> Result<String, AllocError> {
    let mut text = String::new(alloc);
    for path in paths {
        add_path(&mut text, path)?;
    }
    Ok(text)
}

/// The paths of an event, or how many were found where they are too many.
fn told(alloc: Global, ran: Result<Done, StepStop>) -> Result<String, AllocError> {
    match ran {
        Ok(done) => said(alloc, &done.paths),
        Err(StepStop::TooMany(many)) => {
            let mut text = String::new(alloc);
            write!(text, "more than {}", many.prefixes.len().max(1) - 1)?;
            Ok(text)
        }
        Err(StepStop::Memory(error)) => Err(error),
    }
}

/// What a program does at a node that begins so, as text.
fn paths_of(
    alloc: Global,
    program: Program,
    fuel: u32,
    start: &Start,
) -> Result<String, AllocError> {
    let ran = ran::<Brand>(alloc, program, fuel, start, Blank::new(1));
    told(alloc, ran)
}

/// Whether the paths of a row are those that it tells.
fn is_right(alloc: Global, row: &Row) -> Result<bool, AllocError> {
    let program = program(alloc, row.entry, row.instrs)?;
    let text = paths_of(alloc, program, row.fuel, &row.start)?;
    Ok(text.as_str() == row.paths)
}

#[test]
fn each_instruction(rt: HostRuntime) -> Result<(), Fail> {
    for row in &ROWS {
        let right = is_right(rt.alloc(), row)?;
        assert!(rt; right, "{}", row.name);
    }
    is_shared::<Path>();
    Ok(())
}

#[test]
fn all_ways(rt: HostRuntime) -> Result<(), Fail> {
    for row in &WAYS {
        let right = is_right(rt.alloc(), row)?;
        assert!(rt; right, "{}", row.name);
    }
    Ok(())
}

/// A path of a failure row.
fn add_failing(text: &mut String, path: &Path) -> Result<(), AllocError> {
    add_path(text, path)?;
    let machine = &path.config.machine;
    let losses = machine.losses;
    let duplications = machine.duplications;
    let made = machine.inputs;
    write!(text, " losses {losses} duplications {duplications}")?;
    write!(text, " inputs {made}")?;
    if machine.queue.due(1).is_some() {
        text.push_str(" now")?;
    }
    if machine.queue.due(2).is_some() {
        text.push_str(" next")?;
    }
    text.push('|')
}

/// All paths of a failure row.
fn said_failing(alloc: Global, paths: &[Path]) -> Result<String, AllocError> {
    let mut text = String::new(alloc);
    for path in paths {
        add_failing(&mut text, path)?;
    }
    Ok(text)
}

/// Whether the paths of a failure row are those that it tells.
fn is_failing(alloc: Global, row: &Failure) -> Result<bool, AllocError> {
    let program = program(alloc, 0, &[[0x0f, 0, 0, 0, 0, 0, 0, 0], RET])?;
    let start = Start {
        tick: 1,
        mail: true,
        timer: row.timer,
        made: row.made,
        sent: 0,
        failing: row.failing,
    };
    let Ok(done) = ran::<Brand>(alloc, program, 512, &start, Blank::new(1)) else {
        return Ok(false);
    };
    let text = said_failing(alloc, &done.paths)?;
    Ok(text.as_str() == row.paths)
}

#[test]
fn losses_duplications_and_reboots(rt: HostRuntime) -> Result<(), Fail> {
    for row in &FAILURES {
        let right = is_failing(rt.alloc(), row)?;
        assert!(rt; right, "{}", row.name);
    }
    Ok(())
}

/// The instruction by which a register becomes a word.
fn load(register: u8, word: u16) -> [u8; 8] {
    let [high, low] = word.to_be_bytes();
    [0x01, register, 0, 0, high, low, 0, 0]
}

/// The instruction by which a register becomes an input of so many bits.
fn input(register: u8, width: u8) -> [u8; 8] {
    [0x0a, register, 0, 0, 0, width, 0, 0]
}

/// The instruction by which a register becomes what an operator makes of two others.
fn operator(code: u8, to: u8, x: u8, y: u8) -> [u8; 8] {
    [code, to, x, y, 0, 0, 0, 0]
}

const EQ: u8 = 0x1b;

const ULT: u8 = 0x1c;

const ASSERT_4: [u8; 8] = [0x20, 4, 0, 0, 0, 0, 0, 0];

const RET: [u8; 8] = [0x23, 0, 0, 0, 0, 0, 0, 0];

/// Whether register 0 becomes what an operator makes of two words.
fn is_on_words(alloc: Global, case: &Case) -> Result<bool, AllocError> {
    let apply = operator(case.code, 0, 1, 2);
    let program = program(alloc, 0, &[load(1, case.x), load(2, case.y), apply, RET])?;
    let text = paths_of(alloc, program, 512, &BOOT)?;
    let want = format!(in alloc; "- running {};", case.word)?;
    Ok(text.as_str() == want.as_str())
}

/// The program that takes two inputs, asserts that they are two words, and applies an operator to them.
fn on_inputs(alloc: Global, case: &Case) -> Result<Program, AllocError> {
    let instrs = [
        input(1, 16),
        load(3, case.x),
        operator(EQ, 4, 1, 3),
        ASSERT_4,
        input(2, 16),
        load(3, case.y),
        operator(EQ, 4, 2, 3),
        ASSERT_4,
        operator(case.code, 0, 1, 2),
        RET,
    ];
    program(alloc, 0, &instrs)
}

/// Whether register 0 becomes what an operator makes of two inputs, where these are two words.
fn is_on_inputs(alloc: Global, case: &Case) -> Result<bool, AllocError> {
    let program = on_inputs(alloc, case)?;
    let text = paths_of(alloc, program, 512, &BOOT)?;
    let word = case.word;
    let want = format!(in alloc; "00 running {word};01 assert@7@0 0;1 assert@3@0 0;")?;
    Ok(text.as_str() == want.as_str())
}

#[test]
fn each_operator(rt: HostRuntime) -> Result<(), Fail> {
    for case in &CASES {
        let right = is_on_words(rt.alloc(), case)?;
        assert!(rt; right, "{} as words", case.name);
        let right = is_on_inputs(rt.alloc(), case)?;
        assert!(rt; right, "{} as inputs", case.name);
    }
    Ok(())
}

/// The program that takes an input and asks whether it is greater than a word, and then asserts that it is this word.
fn at_most(alloc: Global, width: &Width) -> Result<Program, AllocError> {
    let instrs = [
        input(0, width.bits),
        load(1, width.most),
        operator(ULT, 4, 1, 0),
        [0x09, 4, 0, 0, 0, 5, 0, 0],
        [0x24, 0, 0, 0, 0, 0, 0, 0],
        operator(EQ, 4, 0, 1),
        ASSERT_4,
        RET,
    ];
    program(alloc, 0, &instrs)
}

/// Whether an input of so many bits can be its greatest word, and nothing greater.
fn has_width(alloc: Global, width: &Width) -> Result<bool, AllocError> {
    let program = at_most(alloc, width)?;
    let text = paths_of(alloc, program, 512, &BOOT)?;
    let most = width.most;
    let want = format!(in alloc; "10 running {most};11 assert@6@0 0;")?;
    Ok(text.as_str() == want.as_str())
}

#[test]
fn each_width(rt: HostRuntime) -> Result<(), Fail> {
    for width in &WIDTHS {
        let right = has_width(rt.alloc(), width)?;
        assert!(rt; right, "{} bits", width.bits);
    }
    Ok(())
}

/// A packet of node 0 to node 1, under the guard that the square of node 0's first input is 40,000, or that it is not.
fn guarded(alloc: Global, truth: bool) -> Result<Packet, AllocError> {
    let mut terms = Terms::new(alloc);
    let x = terms.input(0, 0, 16)?;
    let square = terms.apply(Op::Mul, x, x)?;
    let word = terms.konst(40000)?;
    let term = terms.apply(Op::Eq, square, word)?;
    let literal = Literal { term, truth };
    Ok(Packet {
        from: 0,
        seq: 0,
        copy: 0,
        to: 1,
        arrival: 1,
        payload: SmallVec::new(alloc),
        guard: Vec::from_slice(alloc, &[literal])?,
        terms,
        stamp: stamp(alloc),
    })
}

/// An inbox of one such packet.
fn inbox(alloc: Global, truth: bool) -> Result<Vec<Packet>, AllocError> {
    Ok(Vec::from_array(alloc, [guarded(alloc, truth)?])?)
}

/// How many literals are known of a state, and the least input that meets them.
fn known(alloc: Global, config: &Config) -> Result<String, AllocError> {
    let literals = config.cond.literals().len();
    match &config.standing {
        Standing::Inputs(inputs) => format!(in alloc; "{literals} of {}", inputs.get(0, 0)),
        Standing::Open { leaves } => format!(in alloc; "{literals} open {leaves}"),
    }
}

/// What is known of node 1 after an inbox, and after another one.
fn after_both(alloc: Global, net: &Net, c: &Config, receipt: &Receipt) -> Result<String, AllocError>
    requires { StandsFor net.now.network.limits.conflicts (that (own_of c.now)) c.now.standing }
{
    let first = inbox(alloc, receipt.first)?;
    let second = inbox(alloc, receipt.second)?;
    let Some(once) = receive(net, c, &first)? else {
        return format!(in alloc; "none");
    };
    match receive(net, &once, &second)? {
        Some(twice) => known(alloc, &twice),
        None => format!(in alloc; "none"),
    }
}

/// Whether node 1 knows what a row tells.
fn is_known(alloc: Global, receipt: &Receipt) -> Result<bool, AllocError> {
    let net = three_nodes(alloc, program(alloc, 0, &[RET])?, 512)?;
    let opened = open_config(&net, 1)?;
    let text = after_both(alloc, &net, &opened, receipt)?;
    Ok(text.as_str() == receipt.known)
}

#[test]
fn what_is_received(rt: HostRuntime) -> Result<(), Fail> {
    for receipt in &RECEIPTS {
        let right = is_known(rt.alloc(), receipt)?;
        assert!(rt; right, "{}", receipt.name);
    }
    Ok(())
}
