//! Numbers in words.

ghost use Rattle.std.specs.Prelude.{◌≡◌, Some, None, IsTrue, if◌then◌else◌};
ghost use Rattle.tal_words.specs.Digits.{is_digit, are_digits, number_of_digits, is_byte_number, is_short_number, is_address_number};

/// Whether a byte is a lowercase hexadecimal digit.
fn is_digit(byte: u8) -> bool
    ensures { result ≡ is_digit byte }
{
    matches!(byte, b'0'..=b'9' | b'a'..=b'f')
}

/// Whether each byte is a digit.
fn are_digits(text: &[u8]) -> bool
    ensures { result ≡ are_digits text.now }
{
    text.iter().all(|byte| is_digit(*byte))
}

/// Whether a text is two digits.
pub fn is_byte_number(text: &[u8]) -> bool
    ensures { result ≡ is_byte_number text.now }
{
    text.len() == 2 && are_digits(text)
}

/// Whether a text is four digits.
pub fn is_short_number(text: &[u8]) -> bool
    ensures { result ≡ is_short_number text.now }
{
    text.len() == 4 && are_digits(text)
}

/// The value of two digits.
pub fn byte_value(text: &[u8]) -> u8
    requires { IsTrue (is_byte_number text.now) }
    ensures { result ≡ number_of_digits text.now }
{
    let mut value = [0; 1];
    hex::decode_to_slice(text, &mut value).unwrap();
    value[0]
}

/// The value of four digits.
pub fn short_value(text: &[u8]) -> u16
    requires { IsTrue (is_short_number text.now) }
    ensures { result ≡ number_of_digits text.now }
{
    let mut value = [0; 2];
    hex::decode_to_slice(text, &mut value).unwrap();
    u16::from_be_bytes(value)
}

/// The value of four digits, if the text is that.
pub fn short_number(text: &[u8]) -> Option<u16>
    ensures { result ≡ (if is_short_number text.now then Some (number_of_digits text.now) else None) }
{
    if is_short_number(text) {
        Some(short_value(text))
    } else {
        None
    }
}

/// The value of one to four digits, if the text is that.
pub fn address_value(text: &[u8]) -> Option<u16>
    ensures { result ≡ (if is_address_number text.now then Some (number_of_digits text.now) else None) }
{
    if text.is_empty() || text.len() > 4 || !are_digits(text) {
        return None;
    }
    let mut digits = [b'0'; 4];
    digits[4 - text.len()..].copy_from_slice(text);
    Some(short_value(&digits))
}
