//! Dstates that come and go.

ghost use Rattle.std.specs.Prelude.{◌≡◌, ◌≢◌, ◌<◌, ◌≤◌, ◌+◌, ℕ, List, None, Some, true, length, map, nat_eq, sum_by};
ghost use Rattle.std.specs.List.{AllByRecursion};
ghost use Rattle.slab.specs.Slab.{HasRoomFor, slab_len};
ghost use Rattle.kn_dstate.specs.declared.row.Row.{Row};
ghost use Rattle.kn_dstate.specs.Places.{PlaceView, is_in};
ghost use Rattle.kn_dstate.specs.Graphs.{at, shown, IsPlace, IsGraph};
ghost use Rattle.kn_dstate.specs.Members.{noted_slot, left_slot, is_among, is_of_some, columns_of, emptied, Became, HasRoom, HasLeft};
ghost use Rattle.kn_dstate.specs.Changes.{slots_weigh};

use crate::known::Known;
use crate::members::{leave_place, note_place};
use crate::number::DstateNo;
use crate::place::Place;
use slab::Slab;

/// A dstate comes, under the next free number.
fn put_place(dstates: &mut Slab<Place>, states: &mut Slab<Known>, place: Place)
    requires room { HasRoomFor dstates.old 1 }
    requires ready { (k : ℕ) → is_among k place.columns ≡ true → HasRoom 1 (at states.old.slots k) }
    ensures free { at dstates.old.slots dstates.old.vacant_key ≡ None }
    ensures there { at dstates.new.slots dstates.old.vacant_key ≡ Some place }
    ensures others { (k : ℕ) → k ≢ dstates.old.vacant_key → at dstates.new.slots k ≡ at dstates.old.slots k }
    ensures len { slab_len dstates.new ≡ slab_len dstates.old + 1 }
    ensures capacity { dstates.new.capacity ≡ dstates.old.capacity }
    ensures states { Became (noted_slot dstates.old.vacant_key) (λ k. is_among k place.columns) states.old.slots states.new.slots }
    ensures seen { shown states.new.slots ≡ shown states.old.slots }
{
    let d = dstates.vacant_key();
    note_place(states, &place, d);
    let _key = dstates.insert_reserved(place);
}

/// Dstates come, under free numbers.
pub(crate) fn put_all(dstates: &mut Slab<Place>, states: &mut Slab<Known>, mut places: Vec<Place>)
    requires room { HasRoomFor dstates.old (length places.items) }
    requires ready { (k : ℕ) → is_of_some k places.items ≡ true → HasRoom (length places.items) (at states.old.slots k) }
    ensures weight { (f : PlaceView → ℕ) → slots_weigh f dstates.new.slots ≡ slots_weigh f dstates.old.slots + sum_by f places.items }
    ensures kept { (d : ℕ) (p : PlaceView) → at dstates.old.slots d ≡ Some p → at dstates.new.slots d ≡ Some p }
    ensures seen { shown states.new.slots ≡ shown states.old.slots }
    ensures graph { (nodes : ℕ) (rows : List Row) (packets : List ℕ) → AllByRecursion (IsPlace nodes (shown states.old.slots) packets) places.items → IsGraph nodes dstates.old.slots states.old.slots rows packets → IsGraph nodes dstates.new.slots states.new.slots rows packets }
{
    while let Some(place) = places.pop() {
        put_place(dstates, states, place);
    }
}

/// The dstate of a number, if there is one, goes, and with it the states that this leaves in none and whose numbers are
/// not kept.
pub(crate) fn take_place(dstates: &mut Slab<Place>, states: &mut Slab<Known>, d: usize)
    ensures dstates { Became emptied (λ k. nat_eq d k) dstates.old.slots dstates.new.slots }
    ensures states { Became (left_slot d) (λ k. is_among k (columns_of (at dstates.old.slots d))) states.old.slots states.new.slots }
{
    if let Some(place) = dstates.try_remove(d) {
        leave_place(states, &place, d);
    }
}

/// The dstates of some numbers go, and with them the states that this leaves in none and whose numbers are not kept.
pub(crate) fn take_all(dstates: &mut Slab<Place>, states: &mut Slab<Known>, went: &[DstateNo])
    ensures dstates { Became emptied (λ k. is_in k (map (λ d. d.0) went.now)) dstates.old.slots dstates.new.slots }
    ensures states { (k : ℕ) → HasLeft (at states.old.slots k) (at states.new.slots k) }
    ensures graph { (nodes : ℕ) (rows : List Row) (packets : List ℕ) → IsGraph nodes dstates.old.slots states.old.slots rows packets → IsGraph nodes dstates.new.slots states.new.slots rows packets }
{
    for d in went {
        take_place(dstates, states, d.0);
    }
}
