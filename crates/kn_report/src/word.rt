//! Words and numbers at the front of a text.

ghost use Rattle.std.specs.Prelude.{◌≡◌, ◌≢◌, ◌<◌, ◌^◌, ◌∷◌, ◌++◌, ℕ, List, length, Some, MatchOption};
ghost use Rattle.std.specs.Fmt.{decimal};
ghost use Rattle.kn_report.specs.Words.{Without, BeginsWith, IsWordBehind};

/// What stands before the first such byte, and the rest from there on.
pub(crate) fn until(text: &[u8], byte: u8) -> (&[u8], &[u8])
    ensures whole { text.now ≡ result.0.now ++ result.1.now }
    ensures without { Without byte result.0.now }
    ensures begins { BeginsWith byte result.1.now }
{
    for (place, b) in text.iter().enumerate() {
        if *b == byte {
            return text.split_at(place);
        }
    }
    text.split_at(text.len())
}

/// What stands behind so many bytes, or nothing where there are fewer.
pub(crate) fn behind(text: &[u8], skip: usize) -> &[u8]
    ensures { (front rest : List ℕ) → length front ≡ skip → text.now ≡ front ++ rest → result.now ≡ rest }
{
    text.split_at(skip.min(text.len())).1
}

/// The word behind so many bytes, up to the next blank or the end, and what follows it.
pub(crate) fn word_behind(text: &[u8], skip: usize) -> (&[u8], &[u8])
    ensures { (word rest : List ℕ) → IsWordBehind text.now skip word rest → (result.0.now ≡ word) × (result.1.now ≡ rest) }
{
    until(behind(text, skip), b' ')
}

/// The word behind such a byte at the front, and what follows it. None where no such byte is in front.
pub(crate) fn next_word(text: &[u8], byte: u8) -> Option<(&[u8], &[u8])>
    ensures { MatchOption result ((w : List ℕ) → text.now ≢ byte ∷ w) (λ p. (text.now ≡ byte ∷ (p.0.now ++ p.1.now)) × Without byte p.0.now × BeginsWith byte p.1.now) }
{
    if text.is_empty() || text[0] != byte {
        return None;
    }
    Some(until(&text[1..], byte))
}

/// The number that digits spell. Where they spell none, the answer is any number or None.
pub(crate) fn number_of(digits: &[u8]) -> Option<u64>
    ensures { (n : ℕ) → n < 2 ^ 64 → digits.now ≡ decimal n → result ≡ Some n }
{
    let Ok(text) = str::from_utf8(digits) else {
        return None;
    };
    match u64::from_str_radix(text, 10) {
        Ok(number) => Some(number),
        Err(_) => None,
    }
}

/// The same, of a place or a count.
pub(crate) fn usize_of(digits: &[u8]) -> Option<usize>
    ensures { (n : ℕ) → n < 2 ^ 64 → digits.now ≡ decimal n → result ≡ Some n }
{
    match number_of(digits) {
        None => None,
        Some(number) => Some(number as usize),
    }
}

/// The same, of a number of 32 bits.
pub(crate) fn u32_of(digits: &[u8]) -> Option<u32>
    ensures { (n : ℕ) → n < 2 ^ 32 → digits.now ≡ decimal n → result ≡ Some n }
{
    match number_of(digits) {
        None => None,
        Some(number) => {
            if number > u32::MAX as u64 {
                return None;
            }
            Some(number as u32)
        }
    }
}

/// The same, of a number of 16 bits.
pub(crate) fn u16_of(digits: &[u8]) -> Option<u16>
    ensures { (n : ℕ) → n < 2 ^ 16 → digits.now ≡ decimal n → result ≡ Some n }
{
    match number_of(digits) {
        None => None,
        Some(number) => {
            if number > u16::MAX as u64 {
                return None;
            }
            Some(number as u16)
        }
    }
}
