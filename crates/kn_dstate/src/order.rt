//! The order of histories.

ghost use Rattle.std.specs.Prelude.{◌≡◌, ◌<◌, ◌≤◌, length};
ghost use Rattle.std.specs.Ordering.{nat_cmp, ordering_then};
ghost use Rattle.kn_packet.specs.Histories.{History, followed, event_cmp, history_cmp};
ghost use Rattle.kn_dstate.specs.Histories.{history_in, told, IsTable, NamesBelow, entry_cmp, entry_count};

use crate::row::{Entry, Past, Row};
use kn_packet::{Event, Stamp};
use std::cmp::Ordering;

/// The order of events: boots, reboots, packets by sender, sequence number and copy, timers by number.
fn cmp_events(a: &Event, b: &Event) -> Ordering
    ensures { result ≡ event_cmp a.now b.now }
{
    match a {
        Event::Boot => match b {
            Event::Boot => Ordering::Equal,
            _ => Ordering::Less,
        },
        Event::Reboot => match b {
            Event::Boot => Ordering::Greater,
            Event::Reboot => Ordering::Equal,
            _ => Ordering::Less,
        },
        Event::Packet { from, seq, copy } => match b {
            Event::Packet {
                from: other_from,
                seq: other_seq,
                copy: other_copy,
            } => from
                .cmp(other_from)
                .then(seq.cmp(other_seq).then(copy.cmp(other_copy))),
            Event::Timer { number: _ } => Ordering::Less,
            _ => Ordering::Greater,
        },
        Event::Timer { number } => match b {
            Event::Timer {
                number: other_number,
            } => number.cmp(other_number),
            _ => Ordering::Greater,
        },
    }
}

/// The order of two packets that were sent, by sender, sequence number and copy.
fn cmp_sent(a: &Stamp, copy: u8, b: &Stamp, other_copy: u8) -> Ordering
    ensures { result ≡ ordering_then (nat_cmp a.now.node b.now.node) (ordering_then (nat_cmp a.now.seq b.now.seq) (nat_cmp copy other_copy)) }
{
    a.node
        .cmp(&b.node)
        .then(a.seq.cmp(&b.seq).then(copy.cmp(&other_copy)))
}

/// How many entries the history of a row has.
pub(crate) fn count_of(rows: &[Row], place: usize) -> usize
    requires table { IsTable rows.now }
    requires place { place < length rows.now }
    ensures count { result ≡ entry_count (history_in (told rows.now) place) }
    ensures few { result ≤ place }
{
    rows[place].count
}

/// The row of the beginning of a history that has so many entries.
fn beginning(rows: &[Row], whole: usize, count: usize) -> usize
    requires table { IsTable rows.now }
    requires whole { whole < length rows.now }
    requires count { count ≤ entry_count (history_in (told rows.now) whole) }
    ensures within { result ≤ whole }
    ensures begins { (rest : History) × (history_in (told rows.now) whole ≡ followed (history_in (told rows.now) result) rest) }
    ensures count { entry_count (history_in (told rows.now) result) ≡ count }
{
    let mut place = whole;
    'back: while count_of(rows, place) > count {
        match &rows[place].past {
            Past::Nothing => return place,
            Past::After { before, entry: _ } => place = *before,
        }
    }
    place
}

/// The order of the histories of two rows.
#[cycle(histories)]
pub(crate) fn cmp_rows(rows: &[Row], a: usize, b: usize) -> Ordering
    requires table { IsTable rows.now }
    requires a { a < length rows.now }
    requires b { b < length rows.now }
    ensures { result ≡ history_cmp (history_in (told rows.now) a) (history_in (told rows.now) b) }
{
    let first = count_of(rows, a);
    let second = count_of(rows, b);
    let shared = first.min(second);
    let left = beginning(rows, a, shared);
    let right = beginning(rows, b, shared);
    cmp_even(rows, left, right).then(first.cmp(&second))
}

/// The order of two histories with the same number of entries. It looks at no entry that both share.
#[cycle(histories)]
fn cmp_even(rows: &[Row], a: usize, b: usize) -> Ordering
    requires table { IsTable rows.now }
    requires a { a < length rows.now }
    requires b { b < length rows.now }
    requires even { entry_count (history_in (told rows.now) a) ≡ entry_count (history_in (told rows.now) b) }
    ensures { result ≡ history_cmp (history_in (told rows.now) a) (history_in (told rows.now) b) }
{
    let mut left = a;
    let mut right = b;
    let mut order = Ordering::Equal;
    'back: while left != right {
        match &rows[left].past {
            Past::Nothing => return order,
            Past::After { before, entry } => match &rows[right].past {
                Past::Nothing => return order,
                Past::After {
                    before: other_before,
                    entry: other,
                } => {
                    order = cmp_entries(rows, left, entry, other).then(order);
                    left = *before;
                    right = *other_before;
                }
            },
        }
    }
    order
}

/// The order of two entries, the first of the row at a place.
#[cycle(histories)]
fn cmp_entries(rows: &[Row], place: usize, x: &Entry, y: &Entry) -> Ordering
    requires table { IsTable rows.now }
    requires place { place < length rows.now }
    requires x { NamesBelow place x.now }
    requires y { NamesBelow (length rows.now) y.now }
    ensures { result ≡ entry_cmp (told rows.now) x.now y.now }
{
    match x {
        Entry::Ran { event, bits } => match y {
            Entry::Ran {
                event: other,
                bits: other_bits,
            } => cmp_events(event, other).then(bits.cmp(other_bits)),
            Entry::Got { stamp: _, copy: _ } => Ordering::Less,
        },
        Entry::Got { stamp, copy } => match y {
            Entry::Ran { event: _, bits: _ } => Ordering::Greater,
            Entry::Got {
                stamp: other,
                copy: other_copy,
            } => {
                let sent = cmp_rows(rows, stamp.history, other.history);
                cmp_sent(stamp, *copy, other, *other_copy)
                    .then(sent)
                    .then(stamp.bits.cmp(&other.bits))
            }
        },
    }
}
