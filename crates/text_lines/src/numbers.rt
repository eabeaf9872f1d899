//! The numbers that words spell.

ghost use Rattle.std.specs.Prelude.{◌≡◌, ◌<◌, ◌≤◌, ◌^◌, pos, neg_ℤ, ◌≤ℤ◌, nat_lt, if◌then◌else◌, IfSome, Some, None, IsTrue};
ghost use Rattle.std.specs.List.{list_all};
ghost use Rattle.std.specs.Str.Parse.{digits_value};
ghost use Rattle.text_lines.specs.Numbers.{is_digit, is_number, number_within, integer_within, byte_of, begins_with};

// Whether a word is a decimal number, without a leading zero but 0 itself.
fn is_number(word: &[u8]) -> bool
    ensures { result ≡ is_number word.now }
{
    if word.is_empty() || !are_digits(word) {
        return false;
    }
    word.len() == 1 || word[0] != b'0'
}

fn are_digits(word: &[u8]) -> bool
    ensures { result ≡ list_all is_digit word.now }
{
    word.iter().all(|byte| is_digit(*byte))
}

fn is_digit(byte: u8) -> bool
    ensures { result ≡ is_digit byte }
{
    b'0' <= byte && byte <= b'9'
}

// The number that the digits spell, where it has at most 64 bits.
fn spelled(word: &[u8]) -> Option<u64>
    requires { IsTrue (is_number word.now) }
    ensures { result ≡ (if nat_lt (digits_value 10 word.now) (2 ^ 64) then Some (digits_value 10 word.now) else None) }
{
    match str::from_utf8(word) {
        Ok(text) => text.parse().ok(),
        Err(_) => None,
    }
}

/// The number from `low` to `high` that a word is, in decimal without a leading zero.
#[tactic(auto, unfolding(crate::specs::Numbers::number_within))]
pub fn number_within(low: u64, high: u64, word: &[u8]) -> Option<u64>
    ensures number { result ≡ number_within low high word.now }
    ensures within { IfSome result (λ number. (low ≤ number) × (number ≤ high)) }
{
    if !is_number(word) {
        return None;
    }
    match spelled(word) {
        Some(number) if low <= number && number <= high => Some(number),
        _ => None,
    }
}

/// Whether a word begins with a byte.
pub fn begins_with(byte: u8, word: &[u8]) -> bool
    ensures { result ≡ begins_with byte word.now }
{
    !word.is_empty() && word[0] == byte
}

/// A number from `-below` to `high`.
#[tactic(auto, unfolding(crate::specs::Numbers::integer_within))]
pub fn integer_within(below: u64, high: u64, word: &[u8]) -> Option<i64>
    requires below { below < 2 ^ 63 }
    requires high { high < 2 ^ 63 }
    ensures number { result ≡ integer_within below high word.now }
    ensures within { IfSome result (λ number. (neg_ℤ (pos below) ≤ℤ number) × (number ≤ℤ pos high)) }
{
    if begins_with(b'-', word) {
        let number = number_within(0, below, &word[1..])?;
        return Some(-(number as i64));
    }
    let number = number_within(0, high, word)?;
    Some(number as i64)
}

/// Two hexadecimal digits.
#[tactic(auto, unfolding(crate::specs::Numbers::byte_of))]
pub fn byte_of(word: &[u8]) -> Option<u8>
    ensures { result ≡ byte_of word.now }
{
    let mut byte = [0u8; 1];
    match hex::decode_to_slice(word, &mut byte) {
        Ok(()) => Some(byte[0]),
        Err(_) => None,
    }
}
