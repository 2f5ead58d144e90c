//! What stands at a key of a table, and the number of its fault.

ghost use Rattle.std.specs.Prelude.{◌≡◌, ◌≤◌, ℕ, List, max, option_map, Some, map};
ghost use Rattle.toml.specs.Data.{as_str, get_member};
ghost use Rattle.toml.specs.View.{view, table_view};
ghost use Rattle.kn_netfile.specs.Faults.{located, fault_if};
ghost use Rattle.kn_netfile.specs.Keys.{number_at, number_within, number_fault, number_or, text_at, text_or_none, is_listed, all_listed, unknown_fault};

use toml::{Table, Value};

/// A table has a key that is not listed.
pub(crate) const UNKNOWN_KEY: u8 = 3;

/// A table lacks a key.
pub(crate) const MISSING_KEY: u8 = 4;

/// What stands at a key is of another kind.
pub(crate) const WRONG_KIND: u8 = 5;

/// The version is not 1.
pub(crate) const WRONG_VERSION: u8 = 6;

/// A limit or a count is out of its range.
pub(crate) const OUT_OF_RANGE: u8 = 7;

/// A program's name, code or text is refused.
pub(crate) const WRONG_PROGRAM: u8 = 8;

/// No program has the name.
pub(crate) const NO_PROGRAM: u8 = 9;

/// A link is refused.
pub(crate) const WRONG_LINK: u8 = 10;

/// What a node loses, is given twice, or when it reboots is refused.
pub(crate) const WRONG_PLAN: u8 = 11;

/// An input is refused.
pub(crate) const WRONG_INPUT: u8 = 12;

/// What stands at a key that wants a number.
#[derive(Debug, Clone, Copy)]
pub enum NumberAt {
    /// There is no such key.
    NoNumber,
    /// It is no number.
    OtherKind,
    /// It is a number out of the range.
    Outside,
    /// It is this number.
    Number(u64),
}

/// The value at a key.
pub(crate) fn look<'a>(table: &'a Table, key: &str) -> Option<&'a Value>
    ensures { option_map (λ v. view v.now) result ≡ get_member key.now (table_view table.now) }
{
    table.get(key)
}

/// What stands at a key that wants a number from `low` to `high`.
pub(crate) fn number_at(table: &Table, key: &str, low: u64, high: u64) -> NumberAt
    ensures { result ≡ number_at low high (get_member key.now (table_view table.now)) }
{
    match look(table, key) {
        None => NumberAt::NoNumber,
        Some(value) => match value.as_integer() {
            None => NumberAt::OtherKind,
            Some(number) => number_within(number, low, high),
        },
    }
}

fn number_within(number: i64, low: u64, high: u64) -> NumberAt
    ensures { result ≡ number_within low high (Some number) }
{
    if number < 0 {
        return NumberAt::Outside;
    }
    let number = number as u64;
    if low <= number && number <= high {
        NumberAt::Number(number)
    } else {
        NumberAt::Outside
    }
}

/// The number of a fault where something is wrong.
pub(crate) fn fault_if(is_wrong: bool, number: u8) -> Option<u8>
    ensures { (place : List ℕ) → located place result ≡ fault_if is_wrong number place }
{
    if is_wrong { Some(number) } else { None }
}

/// The number of the fault of what stands where a number is wanted; `number` is that of one out of its range.
pub(crate) fn number_fault(needed: bool, number: u8, at: NumberAt) -> Option<u8>
    ensures { (place : List ℕ) → located place result ≡ number_fault needed number place at }
{
    match at {
        NumberAt::NoNumber if needed => Some(MISSING_KEY),
        NumberAt::NoNumber => None,
        NumberAt::OtherKind => Some(WRONG_KIND),
        NumberAt::Outside => Some(number),
        NumberAt::Number(_) => None,
    }
}

/// The number at a key, or its default where none from `low` to `high` stands there.
pub(crate) fn number_of(table: &Table, key: &str, low: u64, high: u64, default: u64) -> u64
    requires { default ≤ high }
    ensures value { result ≡ number_or default (number_at low high (get_member key.now (table_view table.now))) }
    ensures most { result ≤ high }
{
    match number_at(table, key, low, high) {
        NumberAt::Number(number) => number,
        _ => default,
    }
}

/// The text that a value is, empty where it is none.
pub(crate) fn text_or_none(value: &Value) -> &str
    ensures { result.now ≡ text_or_none (as_str (view value.now)) }
{
    match value.as_str() {
        None => "",
        Some(text) => text,
    }
}

/// The text at a key, empty where there is none.
pub(crate) fn text_at<'a>(table: &'a Table, key: &str) -> &'a str
    ensures { result.now ≡ text_at (get_member key.now (table_view table.now)) }
{
    match look(table, key) {
        None => "",
        Some(value) => text_or_none(value),
    }
}

fn is_listed(keys: &[&str], key: &str) -> bool
    ensures { result ≡ is_listed (map (λ k. k.now) keys.now) key.now }
{
    for listed in keys {
        if *listed == key {
            return true;
        }
    }
    false
}

fn all_listed(keys: &[&str], table: &Table) -> bool
    ensures { result ≡ all_listed (map (λ k. k.now) keys.now) (table_view table.now) }
{
    'keys: for (key, _value) in table.iter() {
        if !is_listed(keys, key.as_str()) {
            return false;
        }
    }
    true
}

/// The number of the fault of a table that has a key that is not listed.
pub(crate) fn unknown_fault(keys: &[&str], table: &Table) -> Option<u8>
    ensures { (place : List ℕ) → located place result ≡ unknown_fault (map (λ k. k.now) keys.now) place (table_view table.now) }
{
    fault_if(!all_listed(keys, table), UNKNOWN_KEY)
}
