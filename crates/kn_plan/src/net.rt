//! Networks of nodes that run programs and are joined by links.

ghost use Rattle.std.specs.Prelude.{◌≡◌, ◌↔◌, IfOk, IsTrue, slice_get, filter, nat_eq};
ghost use Rattle.kn_plan.specs.Nets.{links_of};
ghost use Rattle.kn_plan.specs.Files.{IsFile};
ghost use Rattle.kn_plan.specs.Equality.{plan_eq, name_eq, network_eq, file_eq};

use kn_code::Program;
use kn_term::Valuation;
use std::alloc::{AllocError, Global};
use std::marker::Model;

/// A node of a network: its program by number, how many packets it may lose and how many may be given to it twice
/// (0 to 15 each), and the ticks at which it may reboot, at most 16, each at most 4,095, rising.
#[derive(Debug, Drop)]
pub struct NodePlan {
    pub program: usize,
    pub loss: u8,
    pub duplicate: u8,
    pub reboot: Vec<u32>,
}

/// A link from one node to another, by number; a packet takes `delay` ticks, 1 to 65,535.
#[derive(Clone, Copy, Debug, PartialEq, Eq)]
pub struct Link {
    pub from: u32,
    pub to: u32,
    pub delay: u32,
}

/// The limits of an exploration: ticks, 0 to 4,096; instructions in one event, 1 to 4,096; valuations to try in a
/// query, 1 to 1,048,576; states, 1 to 16,384 and at least one for each node; dstates, 1 to 16,384.
#[derive(Clone, Copy, Debug, PartialEq, Eq)]
pub struct Limits {
    pub ticks: u32,
    pub fuel: u32,
    pub conflicts: u64,
    pub states: usize,
    pub dstates: usize,
}

/// The name of a program, as its bytes.
#[derive(Debug, Drop)]
pub struct Name {
    pub bytes: Vec<u8>,
}

/// A network as a file gives it: 1 to 64 programs, 1 to 64 nodes that name their programs by number, links between
/// nodes, at most 1,024 and at most 16 from one node, limits, a name for each program, and the inputs of a replay. A name
/// is 1 to 32 ASCII letters, ASCII digits, `_` or `-`, and no two programs have one name. The inputs are at most 65,536,
/// each of a node of the network, with an index of 0 to 65,535. All numbers are in their ranges.
#[derive(Debug, Drop)]
pub struct Net {
    pub programs: Vec<Program>,
    pub nodes: Vec<NodePlan>,
    pub links: Vec<Link>,
    pub limits: Limits,
    pub names: Vec<Name>,
    pub inputs: Valuation,
}

impl Model for NodePlan {
    ghost use Rattle.kn_plan.specs.Nets.{Plan};

    ghost Value = { Plan };

    ghost view = { λ p. record { program = p.program; loss = p.loss; duplicate = p.duplicate; reboot = p.reboot.items } };
}

impl Model for Name {
    ghost use Rattle.std.specs.Prelude.{ℕ, List};

    ghost Value = { List ℕ };

    ghost view = { λ n. n.bytes.items };
}

impl Model for Net {
    ghost use Rattle.kn_plan.specs.Files.{File, IsFile};

    ghost Value = { File };

    ghost view = { λ n. record { network = record { programs = n.programs.items; nodes = n.nodes.items; links = n.links.items; limits = n.limits }; names = n.names.items; inputs = n.inputs } };

    ghost invariant = { λ n. IsFile (record { network = record { programs = n.programs.items; nodes = n.nodes.items; links = n.links.items; limits = n.limits }; names = n.names.items; inputs = n.inputs }) };
}

impl NodePlan {
    /// An equal plan. Err is want of memory.
    pub fn copy(&self) -> Result<NodePlan, AllocError>
        ensures { IfOk result (λ p. p ≡ self.now) }
    {
        Ok(NodePlan {
            program: self.program,
            loss: self.loss,
            duplicate: self.duplicate,
            reboot: Vec::from_slice(*self.reboot.allocator(), self.reboot.as_slice())?,
        })
    }
}

impl Name {
    /// An equal name. Err is want of memory.
    pub fn copy(&self) -> Result<Name, AllocError>
        ensures { IfOk result (λ n. n ≡ self.now) }
    {
        Ok(Name {
            bytes: Vec::from_slice(*self.bytes.allocator(), self.bytes.as_slice())?,
        })
    }
}

impl Net {
    /// An equal network, with equal names and inputs. Err is want of memory.
    pub fn copy(&self) -> Result<Net, AllocError>
        ensures { IfOk result (λ n. n ≡ self.now) }
    {
        let alloc = *self.links.allocator();
        Ok(Net {
            programs: copy_programs(alloc, &self.programs)?,
            nodes: copy_plans(alloc, &self.nodes)?,
            links: Vec::from_slice(alloc, self.links.as_slice())?,
            limits: self.limits,
            names: copy_names(alloc, &self.names)?,
            inputs: self.inputs.copy()?,
        })
    }

    /// A link of a node by its number, counted from 0 among the node's links in the order of `links`. None exactly
    /// where the node has no such link.
    pub fn link_of(&self, node: u32, number: u16) -> Option<Link>
        ensures { result ≡ slice_get (links_of self.now.network node) number }
    {
        link_among(&self.links, node, number)
    }

    /// That all numbers, names and inputs are in their ranges, for a caller that needs it in a proof.
    pub fn bounds(&self)
        ensures { IsFile self.now }
    {
        let _ = &self.links;
    }
}

impl PartialEq for NodePlan {
    ghost use Rattle.kn_plan.specs.Equality.{plan_eq, plan_per};

    ghost eq = { plan_eq };

    ghost laws = { plan_per };

    /// Two plans are equal exactly where all their fields are.
    fn eq(&self, other: &NodePlan) -> bool
        ensures eq { result ≡ plan_eq self.now other.now }
        ensures same { IsTrue result ↔ (self.now ≡ other.now) }
    {
        is_same_plan(self, other)
    }
}

impl PartialEq for Name {
    ghost use Rattle.kn_plan.specs.Equality.{name_eq, name_per};

    ghost eq = { name_eq };

    ghost laws = { name_per };

    /// Two names are equal exactly where their bytes are.
    fn eq(&self, other: &Name) -> bool
        ensures eq { result ≡ name_eq self.now other.now }
        ensures same { IsTrue result ↔ (self.now ≡ other.now) }
    {
        self.bytes == other.bytes
    }
}

impl PartialEq for Net {
    ghost use Rattle.kn_plan.specs.Equality.{file_eq, file_per};

    ghost eq = { file_eq };

    ghost laws = { file_per };

    /// Two networks are equal exactly where their programs, nodes, links, limits, names and inputs are.
    fn eq(&self, other: &Net) -> bool
        ensures eq { result ≡ file_eq self.now other.now }
        ensures same { IsTrue result ↔ (self.now ≡ other.now) }
    {
        is_same_net(self, other)
    }
}

/// Whether all fields of two plans are equal.
fn is_same_plan(p: &NodePlan, q: &NodePlan) -> bool
    ensures { result ≡ plan_eq p.now q.now }
{
    p.program == q.program && p.loss == q.loss && p.duplicate == q.duplicate && p.reboot == q.reboot
}

/// Whether the programs, nodes, links and limits of two networks are equal.
fn is_same_network(m: &Net, n: &Net) -> bool
    ensures { result ≡ network_eq m.now.network n.now.network }
{
    m.programs == n.programs && m.nodes == n.nodes && m.links == n.links && m.limits == n.limits
}

/// Whether two networks are equal, with their names and inputs.
fn is_same_net(m: &Net, n: &Net) -> bool
    ensures { result ≡ file_eq m.now n.now }
{
    is_same_network(m, n) && m.names == n.names && m.inputs == n.inputs
}

/// Equal programs, in the same order.
fn copy_programs(alloc: Global, programs: &[Program]) -> Result<Vec<Program>, AllocError>
    ensures { IfOk result (λ v. v.items ≡ programs.now) }
{
    let mut copies = Vec::new(alloc);
    for program in programs {
        copies.push(program.copy()?)?;
    }
    Ok(copies)
}

/// Equal plans, in the same order.
fn copy_plans(alloc: Global, plans: &[NodePlan]) -> Result<Vec<NodePlan>, AllocError>
    ensures { IfOk result (λ v. v.items ≡ plans.now) }
{
    let mut copies = Vec::new(alloc);
    for plan in plans {
        copies.push(plan.copy()?)?;
    }
    Ok(copies)
}

/// Equal names, in the same order.
fn copy_names(alloc: Global, names: &[Name]) -> Result<Vec<Name>, AllocError>
    ensures { IfOk result (λ v. v.items ≡ names.now) }
{
    let mut copies = Vec::new(alloc);
    for name in names {
        copies.push(name.copy()?)?;
    }
    Ok(copies)
}

/// A link of a node among these links, by its number.
fn link_among(links: &[Link], node: u32, number: u16) -> Option<Link>
    ensures { result ≡ slice_get (filter (λ l. nat_eq l.from node) links.now) number }
{
    let mut left = number;
    for link in links {
        if link.from == node {
            if left == 0 {
                return Some(*link);
            }
            left -= 1;
        }
    }
    None
}
