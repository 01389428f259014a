//! Bytes as texts, each in two hexadecimal digits.

ghost use Rattle.std.specs.Prelude.{◌≡◌, ◌<◌, option_map, IfSome, IfOk};
ghost use Rattle.example_headers.specs.Digits.{digit_of, bytes_of};

use std::alloc::{AllocError, Global};

/// The bytes of a text, or `None` if it does not have two digits for each byte.
pub fn decode(alloc: Global, text: &str) -> Result<Option<Vec<u8>>, AllocError>
    ensures { IfOk result (λ read. option_map (λ bytes. bytes.items) read ≡ bytes_of text.now) }
{
    let mut bytes = Vec::new(alloc);
    for pair in text.as_bytes().chunks(2) {
        let [high, low] = pair else {
            return Ok(None);
        };
        let (Some(high), Some(low)) = (digit(*high), digit(*low)) else {
            return Ok(None);
        };
        bytes.push(high * 16 + low)?;
    }
    Ok(Some(bytes))
}

/// The value of a digit.
fn digit(letter: u8) -> Option<u8>
    ensures value { result ≡ digit_of letter }
    ensures small { IfSome result (λ value. value < 16) }
{
    match letter {
        b'0'..=b'9' => Some(letter - b'0'),
        b'a'..=b'f' => Some(letter - b'a' + 10),
        b'A'..=b'F' => Some(letter - b'A' + 10),
        _ => None,
    }
}
