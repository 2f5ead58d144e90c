//! The fault held so far, and places.

ghost use Rattle.std.specs.Prelude.{◌≡◌, IfOk, string_bytes};
ghost use Rattle.kn_netfile.specs.Faults.{lower, located, item_place, key_place};

use kn_plan::Name;
use std::alloc::{AllocError, Global};
use std::marker::Model;

/// A fault's number, 1 to 12, and where it is.
#[derive(Debug, Drop)]
pub(crate) struct Refusal {
    pub(crate) number: u8,
    pub(crate) place: Name,
}

impl Model for Refusal {
    ghost use Rattle.kn_netfile.specs.Faults.{Fault};

    ghost Value = { Fault };

    ghost view = { λ f. record { number = f.number; place = f.place } };
}

/// The fault of the lower number, and of two of one number the first.
pub(crate) fn lower(held: Option<Refusal>, next: Option<Refusal>) -> Option<Refusal>
    ensures { result ≡ lower held next }
{
    match (held, next) {
        (None, next) => next,
        (Some(held), None) => Some(held),
        (Some(held), Some(next)) => {
            if next.number < held.number {
                Some(next)
            } else {
                Some(held)
            }
        }
    }
}

/// A place, as its bytes.
fn name_of(text: String) -> Name
    ensures { result ≡ string_bytes text }
{
    Name {
        bytes: text.into_bytes(),
    }
}

/// The fault at a key of the outermost table, where there is the number of one.
pub(crate) fn at_top(
    alloc: Global,
    key: &str,
    number: Option<u8>,
) -> Result<Option<Refusal>, AllocError>
    ensures { IfOk result (λ f. f ≡ located key.now number) }
{
    let Some(number) = number else {
        return Ok(None);
    };
    let place = name_of(String::from_str(alloc, key)?);
    Ok(Some(Refusal { number, place }))
}

/// The fault of an element of an array, where there is the number of one.
pub(crate) fn at_item(
    alloc: Global,
    array: &str,
    index: usize,
    number: Option<u8>,
) -> Result<Option<Refusal>, AllocError>
    ensures { IfOk result (λ f. f ≡ located (item_place array.now index) number) }
{
    let Some(number) = number else {
        return Ok(None);
    };
    let place = name_of(format!(in alloc; "{array}[{index}]")?);
    Ok(Some(Refusal { number, place }))
}

/// The fault at a key of such an element, where there is the number of one.
pub(crate) fn at_key(
    alloc: Global,
    array: &str,
    index: usize,
    key: &str,
    number: Option<u8>,
) -> Result<Option<Refusal>, AllocError>
    ensures { IfOk result (λ f. f ≡ located (key_place (item_place array.now index) key.now) number) }
{
    let Some(number) = number else {
        return Ok(None);
    };
    let place = name_of(format!(in alloc; "{array}[{index}].{key}")?);
    Ok(Some(Refusal { number, place }))
}
