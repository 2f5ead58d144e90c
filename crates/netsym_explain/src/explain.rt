//! What is said of a file.

ghost use Rattle.std.specs.Prelude.{◌↔◌, IfOk, IsTrue};
ghost use Rattle.netsym_explain.specs.Saying.{IsRun};

use crate::complaint::complaint;
use crate::contents::contents;
use kn_netfile::{FileFault, read};
use kn_plan::{Name, Net};
use std::alloc::{AllocError, Global};

/// What is said of a file, and whether netsym accepts it.
#[derive(Debug, Drop)]
pub struct Explained {
    pub accepted: bool,
    pub text: String,
}

/// What a network holds.
fn text_of_net(alloc: Global, net: &Net) -> Result<String, AllocError> {
    let mut text = String::new(alloc);
    text.push_str("The file is accepted.\n")?;
    text.push_str(&contents(alloc, net)?)?;
    Ok(text)
}

/// What is said of a fault.
fn text_of_fault(
    alloc: Global,
    bytes: &[u8],
    number: u8,
    place: &Name,
) -> Result<String, AllocError> {
    let place = std::str::from_utf8(&place.bytes).unwrap_or("");
    complaint(alloc, bytes, number, place)
}

/// What is wrong with a file, or what it holds. Err is want of memory.
pub fn explain(alloc: Global, bytes: &[u8]) -> Result<Explained, AllocError>
    // It is said to be accepted exactly where netsym accepts it.
    ensures { IfOk result (λ e. IsTrue e.accepted ↔ IsRun bytes.now) }
{
    match read(alloc, bytes) {
        Ok(net) => {
            let text = text_of_net(alloc, &net)?;
            Ok(Explained {
                accepted: true,
                text,
            })
        }
        Err(FileFault::Refused { number, place }) => {
            let text = text_of_fault(alloc, bytes, number, &place)?;
            Ok(Explained {
                accepted: false,
                text,
            })
        }
        Err(FileFault::Memory(error)) => Err(error),
    }
}
