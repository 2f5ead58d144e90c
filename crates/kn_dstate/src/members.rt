//! How states take note of the dstates that come and go.

ghost use Rattle.std.specs.Prelude.{◌≡◌, ◌≢◌, ◌≤◌, ◌<◌, ◌+◌, ℕ, true, length, map, nat_eq, OnOk};
ghost use Rattle.kn_dstate.specs.Places.{is_in};
ghost use Rattle.kn_dstate.specs.Graphs.{at, shown};
ghost use Rattle.kn_dstate.specs.Members.{noted_slot, left_slot, is_among, is_of_some, Became, HasRoom, IsReadyFor, HasMore, all_bare};

use crate::known::Known;
use crate::number::StateNo;
use crate::place::Place;
use slab::Slab;
use std::alloc::AllocError;

/// The state of a number, if there is one, has room for so many more dstates.
fn reserve_at(states: &mut Slab<Known>, s: usize, more: usize) -> Result<(), AllocError>
    ensures bare { all_bare states.new.slots ≡ all_bare states.old.slots }
    ensures grows { (k : ℕ) → HasMore (at states.old.slots k) (at states.new.slots k) }
    ensures room { OnOk result (HasRoom more (at states.new.slots s)) }
{
    if states.contains(s) {
        states[s].reserve(more)?;
    }
    Ok(())
}

/// The states of a column have room for so many more dstates.
fn reserve_column(
    states: &mut Slab<Known>,
    column: &[StateNo],
    more: usize,
) -> Result<(), AllocError>
    ensures bare { all_bare states.new.slots ≡ all_bare states.old.slots }
    ensures grows { (k : ℕ) → HasMore (at states.old.slots k) (at states.new.slots k) }
    ensures room { OnOk result ((k : ℕ) → is_in k (map (λ x. x.0) column.now) ≡ true → HasRoom more (at states.new.slots k)) }
{
    for s in column {
        reserve_at(states, s.0, more)?;
    }
    Ok(())
}

/// The states of some columns have room for so many more dstates.
fn reserve_columns(
    states: &mut Slab<Known>,
    columns: &[Vec<StateNo>],
    more: usize,
) -> Result<(), AllocError>
    ensures bare { all_bare states.new.slots ≡ all_bare states.old.slots }
    ensures grows { (k : ℕ) → HasMore (at states.old.slots k) (at states.new.slots k) }
    ensures room { OnOk result ((k : ℕ) → is_among k (map (λ c. map (λ x. x.0) c.items) columns.now) ≡ true → HasRoom more (at states.new.slots k)) }
{
    for column in columns {
        reserve_column(states, column, more)?;
    }
    Ok(())
}

/// The state of a number, if there is one, is in dstate d from now on.
fn note_at(states: &mut Slab<Known>, s: usize, d: usize)
    requires { IsReadyFor d (at states.old.slots s) }
    ensures slots { Became (noted_slot d) (λ k. nat_eq s k) states.old.slots states.new.slots }
    ensures seen { shown states.new.slots ≡ shown states.old.slots }
{
    if states.contains(s) {
        states[s].note(d);
    }
}

/// The states of a column are in dstate d from now on.
fn note_column(states: &mut Slab<Known>, column: &[StateNo], d: usize)
    requires { (k : ℕ) → is_in k (map (λ x. x.0) column.now) ≡ true → IsReadyFor d (at states.old.slots k) }
    ensures slots { Became (noted_slot d) (λ k. is_in k (map (λ x. x.0) column.now)) states.old.slots states.new.slots }
    ensures seen { shown states.new.slots ≡ shown states.old.slots }
{
    for s in column {
        note_at(states, s.0, d);
    }
}

/// The states of some columns are in dstate d from now on.
fn note_columns(states: &mut Slab<Known>, columns: &[Vec<StateNo>], d: usize)
    requires { (k : ℕ) → is_among k (map (λ c. map (λ x. x.0) c.items) columns.now) ≡ true → IsReadyFor d (at states.old.slots k) }
    ensures slots { Became (noted_slot d) (λ k. is_among k (map (λ c. map (λ x. x.0) c.items) columns.now)) states.old.slots states.new.slots }
    ensures seen { shown states.new.slots ≡ shown states.old.slots }
{
    for column in columns {
        note_column(states, column, d);
    }
}

/// The state of a number, if there is one, leaves dstate d, and goes if this leaves it in none and its number is not kept.
pub(crate) fn leave_at(states: &mut Slab<Known>, s: usize, d: usize)
    ensures { Became (left_slot d) (λ k. nat_eq s k) states.old.slots states.new.slots }
{
    if !states.contains(s) || !states[s].is_within(d) {
        return;
    }
    states[s].forget(d);
    if states[s].is_idle() {
        drop(states.remove(s));
    }
}

/// The states of a column leave dstate d.
fn leave_column(states: &mut Slab<Known>, column: &[StateNo], d: usize)
    ensures { Became (left_slot d) (λ k. is_in k (map (λ x. x.0) column.now)) states.old.slots states.new.slots }
{
    for s in column {
        leave_at(states, s.0, d);
    }
}

/// The states of some columns leave dstate d.
fn leave_columns(states: &mut Slab<Known>, columns: &[Vec<StateNo>], d: usize)
    ensures { Became (left_slot d) (λ k. is_among k (map (λ c. map (λ x. x.0) c.items) columns.now)) states.old.slots states.new.slots }
{
    for column in columns {
        leave_column(states, column, d);
    }
}

/// The states of some dstates have room for so many more dstates. Err is want of memory.
pub(crate) fn reserve_all(
    states: &mut Slab<Known>,
    places: &[Place],
    more: usize,
) -> Result<(), AllocError>
    ensures bare { all_bare states.new.slots ≡ all_bare states.old.slots }
    ensures grows { (k : ℕ) → HasMore (at states.old.slots k) (at states.new.slots k) }
    ensures room { OnOk result ((k : ℕ) → is_of_some k places.now ≡ true → HasRoom more (at states.new.slots k)) }
{
    for place in places {
        reserve_place(states, place, more)?;
    }
    Ok(())
}

/// The states of a dstate have room for so many more dstates.
fn reserve_place(states: &mut Slab<Known>, place: &Place, more: usize) -> Result<(), AllocError>
    ensures bare { all_bare states.new.slots ≡ all_bare states.old.slots }
    ensures grows { (k : ℕ) → HasMore (at states.old.slots k) (at states.new.slots k) }
    ensures room { OnOk result ((k : ℕ) → is_among k place.now.columns ≡ true → HasRoom more (at states.new.slots k)) }
{
    reserve_columns(states, &place.columns, more)
}

/// The states of a dstate are in it, under number d, from now on.
pub(crate) fn note_place(states: &mut Slab<Known>, place: &Place, d: usize)
    requires { (k : ℕ) → is_among k place.now.columns ≡ true → IsReadyFor d (at states.old.slots k) }
    ensures slots { Became (noted_slot d) (λ k. is_among k place.now.columns) states.old.slots states.new.slots }
    ensures seen { shown states.new.slots ≡ shown states.old.slots }
{
    note_columns(states, &place.columns, d);
}

/// The states of a dstate, which has number d, leave it.
pub(crate) fn leave_place(states: &mut Slab<Known>, place: &Place, d: usize)
    ensures { Became (left_slot d) (λ k. is_among k place.now.columns) states.old.slots states.new.slots }
{
    leave_columns(states, &place.columns, d);
}
