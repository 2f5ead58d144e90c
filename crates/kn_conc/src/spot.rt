//! Where an event runs.

ghost use Rattle.std.specs.Prelude.{◌≡◌, ◌<◌, length, slice_index_or, IfOk};
ghost use Rattle.kn_code.specs.Code.{IsValid};
ghost use Rattle.kn_model.specs.Terms.{words};
ghost use Rattle.std.specs.Prelude.{[]};
ghost use Rattle.kn_model.specs.Nets.{links_of, code_of};
ghost use Rattle.kn_model.specs.Rows.{payload_of, sender_of, link_at};

use crate::packet::ConcPacket;
use kn_code::Program;
use kn_plan::{Link, Net};
use std::alloc::{AllocError, Global};

/// Where an event runs: the node, the tick, the node's links in the file's order, and the packet, if it is of a packet.
#[derive(Drop)]
pub struct Spot {
    pub node: u32,
    pub tick: u32,
    pub links: Vec<Link>,
    pub mail: Option<ConcPacket>,
}

/// The links of a node, in the file's order.
pub fn links_of(alloc: Global, net: &Net, node: u32) -> Result<Vec<Link>, AllocError>
    ensures { IfOk result (λ v. v.items ≡ links_of net.now.network node) }
{
    let mut links = Vec::new(alloc);
    for link in &net.links {
        if link.from == node {
            links.push(*link)?;
        }
    }
    Ok(links)
}

impl Spot {
    /// A word of the event's packet by its place; 0 where it has none, or where the event is of no packet.
    pub fn word(&self, place: u16) -> u16
        ensures { result ≡ slice_index_or (payload_of self.now.mail) place 0 }
    {
        match &self.mail {
            Some(mail) => mail.payload.get(place as usize).copied().unwrap_or(0),
            None => 0,
        }
    }

    /// How many words the event's packet has, at most 8; 0 where the event is of no packet.
    pub fn length(&self) -> u16
        ensures { result ≡ length (payload_of self.now.mail) }
    {
        match &self.mail {
            Some(mail) => mail.payload.len() as u16,
            None => 0,
        }
    }

    /// Who sent the event's packet; 65,535 where the event is of no packet.
    pub fn sender(&self) -> u16
        ensures { result ≡ sender_of self.now.mail }
    {
        match &self.mail {
            Some(mail) => mail.from as u16,
            None => 65535,
        }
    }

    /// The link of a number, as a list of at most one.
    pub fn link(&self, number: u16) -> &[Link]
        ensures { result.now ≡ link_at (words []) self.now.links.items number }
    {
        let first = (number as usize).min(self.links.len());
        let last = (first + 1).min(self.links.len());
        &self.links[first..last]
    }
}

/// The program of a node of the network.
pub fn program_of(net: &Net, node: u32) -> &Program
    requires { node < length net.now.network.nodes }
    ensures value { result.now ≡ code_of net.now.network node }
    ensures valid { IsValid (code_of net.now.network node) }
{
    let plan = &net.nodes[node as usize];
    let program = &net.programs[plan.program];
    let _instrs = &program.instrs;
    program
}
