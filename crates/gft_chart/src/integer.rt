//! Words that are literals of `Int`.

/// The value of a canonical decimal below 2^128.
pub fn integer(word: &str) -> Option<u128> {
    let bytes = word.as_bytes();
    if bytes.len() > 1 && bytes.first() == Some(&48u8) {
        return None;
    }
    if bytes.is_empty() {
        return None;
    }
    let mut value = 0u128;
    for byte in bytes {
        value = with_digit(value, *byte)?;
    }
    Some(value)
}

fn with_digit(value: u128, byte: u8) -> Option<u128> {
    if byte < 48 || byte > 57 {
        return None;
    }
    let digit = u128::from(byte - 48);
    value.checked_mul(10)?.checked_add(digit)
}
