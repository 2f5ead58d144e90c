//! Blanks, words, names and numbers.

ghost use Rattle.std.specs.Prelude.{◌≡◌, ◌≤◌, length, IfOk, string_bytes, true};
ghost use Rattle.std.specs.List.{prefix_len, list_all};
ghost use Rattle.std.specs.Char.{is_digit};
ghost use Rattle.kn_asm.specs.Words.{is_word, is_blank, is_code, skip, word, after_word, uncommented, is_name, numeral_of_lem, decimal_of_lem, number_of_lem};

use std::alloc::{AllocError, Global};

/// The most bytes of a name.
const NAME_BYTES: usize = 32;

fn is_word(byte: u8) -> bool
    ensures { result ≡ is_word byte }
{
    byte.is_ascii_alphanumeric() || byte == b'_'
}

/// Whether a byte is a space or a tab.
pub fn is_blank(byte: u8) -> bool
    ensures { result ≡ is_blank byte }
{
    byte == b' ' || byte == b'\t'
}

fn blanks(bytes: &[u8]) -> usize
    ensures count { result ≡ prefix_len is_blank bytes.now }
    ensures within { result ≤ length bytes.now }
{
    for (index, byte) in bytes.iter().enumerate() {
        if !is_blank(*byte) {
            return index;
        }
    }
    bytes.len()
}

fn word_len(bytes: &[u8]) -> usize
    ensures count { result ≡ prefix_len is_word bytes.now }
    ensures within { result ≤ length bytes.now }
{
    for (index, byte) in bytes.iter().enumerate() {
        if !is_word(*byte) {
            return index;
        }
    }
    bytes.len()
}

fn code_len(bytes: &[u8]) -> usize
    ensures count { result ≡ prefix_len is_code bytes.now }
    ensures within { result ≤ length bytes.now }
{
    for (index, byte) in bytes.iter().enumerate() {
        if *byte == b';' {
            return index;
        }
    }
    bytes.len()
}

/// What follows the blanks at the front.
#[tactic(auto, unfolding(crate::specs::Words::skip))]
pub fn skip(bytes: &[u8]) -> &[u8]
    ensures { result.now ≡ skip bytes.now }
{
    bytes.split_at(blanks(bytes)).1
}

/// The word at the front, and what follows it.
#[tactic(auto, using(crate::proofs::Numbers::word_all), unfolding(crate::specs::Words::word, crate::specs::Words::after_word))]
pub fn split_word(bytes: &[u8]) -> (&[u8], &[u8])
    ensures first { result.0.now ≡ word bytes.now }
    ensures whole { list_all is_word result.0.now ≡ true }
    ensures rest { result.1.now ≡ after_word bytes.now }
{
    bytes.split_at(word_len(bytes))
}

/// The part of a line before its comment.
#[tactic(auto, unfolding(crate::specs::Words::uncommented))]
pub fn uncommented(bytes: &[u8]) -> &[u8]
    ensures { result.now ≡ uncommented bytes.now }
{
    bytes.split_at(code_len(bytes)).0
}

fn is_digit(byte: u8, radix: u32) -> bool
    requires low { 2 ≤ radix }
    requires high { radix ≤ 36 }
    ensures { result ≡ is_digit byte radix }
{
    char::from(byte).is_digit(radix)
}

/// Whether a word is a name.
pub fn is_name(word: &[u8]) -> bool
    ensures { result ≡ is_name word.now }
{
    match word.first() {
        None => false,
        Some(first) => word.len() <= NAME_BYTES && !is_digit(*first, 10),
    }
}

fn are_digits(word: &[u8], radix: u32) -> bool
    requires low { 2 ≤ radix }
    requires high { radix ≤ 36 }
    ensures { result ≡ list_all (λ c. is_digit c radix) word.now }
{
    for byte in word {
        if !is_digit(*byte, radix) {
            return false;
        }
    }
    true
}

/// The value of one digit or more, where it is at most 65,535.
fn numeral_of(word: &[u8], radix: u32) -> Option<u16>
    requires low { 2 ≤ radix }
    requires high { radix ≤ 36 }
    ensures { result ≡ numeral_of_lem radix word.now }
{
    if word.is_empty() || !are_digits(word, radix) {
        return None;
    }
    let Ok(text) = str::from_utf8(word) else {
        return None;
    };
    match u16::from_str_radix(text, radix) {
        Ok(value) => Some(value),
        Err(_) => None,
    }
}

/// The number that `0` is, or digits that do not begin with 0.
pub fn decimal_of(word: &[u8]) -> Option<u16>
    ensures { result ≡ decimal_of_lem word.now }
{
    match word.first() {
        Some(b'0') if word.len() != 1 => None,
        _ => numeral_of(word, 10),
    }
}

/// The number that a word is: one to four hexadecimal digits behind `0x`, or a decimal number.
pub fn number_of(word: &[u8]) -> Option<u16>
    ensures { result ≡ number_of_lem word.now }
{
    if word.len() < 2 || word[0] != b'0' || word[1] != b'x' {
        return decimal_of(word);
    }
    if word.len() > 6 {
        return None;
    }
    numeral_of(word.split_at(2).1, 16)
}

/// A word as text.
pub fn text_of(word: &[u8]) -> &str
    requires { list_all is_word word.now ≡ true }
    ensures { result.now ≡ word.now }
{
    match str::from_utf8(word) {
        Ok(text) => text,
        Err(_) => unreachable!(),
    }
}

/// A word as a text of its own. Only want of memory is an error.
pub fn string_of(alloc: Global, word: &[u8]) -> Result<String, AllocError>
    requires { list_all is_word word.now ≡ true }
    ensures { IfOk result (λ s. string_bytes s ≡ word.now) }
{
    String::from_str(alloc, text_of(word))
}
