//! The names of programs.

ghost use Rattle.std.specs.Prelude.{◌≡◌, ◌++◌, ◌∷◌, [], ℕ, List, OnOk, OnErr};
ghost use Rattle.kn_netfile.specs.Tables.{is_name_byte, is_name, is_new_name, place_of, place_at, first_place};
ghost use Rattle.indexmap.specs.IndexMap.{get_by_text};

use indexmap::IndexMap;
use kn_plan::Name;
use std::alloc::{AllocError, Global};
use std::marker::Model;

/// Names in order, and the place of each text that is one of them.
#[derive(Drop)]
pub(crate) struct Names {
    list: Vec<Name>,
    places: IndexMap<String, usize>,
}

impl Model for Names {
    ghost use Rattle.std.specs.Prelude.{◌≡◌, ℕ, List};
    ghost use Rattle.indexmap.specs.IndexMap.{get_by_text};
    ghost use Rattle.kn_netfile.specs.Tables.{place_of};

    ghost Value = { List (List ℕ) };

    ghost view = { λ n. n.list.items };

    ghost invariant = { λ n. (q : List ℕ) → get_by_text n.places q ≡ place_of n.list.items q };
}

impl Names {
    /// No names.
    pub(crate) fn new(alloc: Global) -> Names
        ensures { result ≡ [] }
    {
        Names {
            list: Vec::new(alloc),
            places: IndexMap::new(alloc),
        }
    }

    /// The first place of a name.
    pub(crate) fn place(&self, name: &str) -> Option<usize>
        ensures { result ≡ place_of self.now name.now }
    {
        self.places.get(name).copied()
    }

    /// One more name at the end.
    pub(crate) fn push(&mut self, alloc: Global, name: &str) -> Result<(), AllocError>
        ensures { OnOk result (self.new ≡ self.old ++ name.now ∷ []) }
    {
        let bytes = Vec::from_slice(alloc, name.as_bytes())?;
        let place = self.list.len();
        self.list.reserve(1)?;
        note(alloc, &mut self.places, name, place)?;
        self.list.push_reserved(Name { bytes });
        Ok(())
    }

    /// The names in order.
    pub(crate) fn into_list(self) -> Vec<Name>
        ensures { result.items ≡ self }
    {
        self.list
    }
}

/// Notes the place of a name, unless it has one.
fn note(
    alloc: Global,
    places: &mut IndexMap<String, usize>,
    name: &str,
    place: usize,
) -> Result<(), AllocError>
    ensures ok { OnOk result ((q : List ℕ) → get_by_text places.new q ≡ first_place (get_by_text places.old q) (place_at name.now q place)) }
    ensures err { OnErr result ((q : List ℕ) → get_by_text places.new q ≡ get_by_text places.old q) }
{
    if places.get(name).is_some() {
        return Ok(());
    }
    let key = String::from_str(alloc, name)?;
    if places.insert(key, place).is_err() {
        return Err(AllocError);
    }
    Ok(())
}

fn is_name_byte(byte: u8) -> bool
    ensures { result ≡ is_name_byte byte }
{
    byte.is_ascii_alphanumeric() || byte == b'_' || byte == b'-'
}

fn is_name(text: &str) -> bool
    ensures { result ≡ is_name text.now }
{
    if text.len() < 1 || 32 < text.len() {
        return false;
    }
    for byte in text.as_bytes() {
        if !is_name_byte(*byte) {
            return false;
        }
    }
    true
}

/// Whether a program after those of some names may have a name.
pub(crate) fn is_new_name(names: &Names, text: &str) -> bool
    ensures { result ≡ is_new_name names.now text.now }
{
    is_name(text) && names.place(text).is_none()
}
