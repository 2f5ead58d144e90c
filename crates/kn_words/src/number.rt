//! Numbers of which the generator makes a network.

ghost use Rattle.std.specs.Prelude.{◌≡◌};
ghost use Rattle.kn_words.specs.Reading as reading;

/// The greatest number of which the generator makes a network.
const MOST_MADE: u8 = 35;

/// Whether digits stand in their one form: without a sign, and without a zero in front.
fn is_plain(text: &[u8]) -> bool
    ensures { result ≡ reading.is_plain text.now }
{
    match text {
        [b'+', ..] | [b'0', _, ..] => false,
        _ => true,
    }
}

/// Whether the text is a number from 0 to 35: `0`, or digits that do not begin with 0.
pub fn is_number(text: &str) -> bool
    ensures { result ≡ reading.is_number text.now }
{
    match text.parse::<u8>() {
        Ok(number) => number <= MOST_MADE && is_plain(text.as_bytes()),
        Err(_) => false,
    }
}
