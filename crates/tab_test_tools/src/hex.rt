//! Bytes as hexadecimal digits.

use std::alloc::{AllocError, Global};

/// The bytes of a text such as `83 63*6801 61 00`, where `63*` stands for 63 times.
pub fn bytes(alloc: Global, text: &str) -> Result<Vec<u8>, AllocError> {
    let mut out = Vec::new(alloc);
    for word in text.split_whitespace() {
        let (count, digits) = match word.split_once('*') {
            Some((count, digits)) => (count.parse::<u32>().unwrap_or(0), digits),
            None => (1, word),
        };
        for _ in 0..count {
            push_hex(&mut out, digits)?;
        }
    }
    Ok(out)
}

fn push_hex(out: &mut Vec<u8>, digits: &str) -> Result<(), AllocError> {
    for pair in digits.as_bytes().chunks(2) {
        let byte = pair
            .iter()
            .fold(0u8, |sum, digit| (sum << 4) | value(*digit));
        out.push(byte)?;
    }
    Ok(())
}

fn value(digit: u8) -> u8 {
    match digit {
        b'0'..=b'9' => digit - b'0',
        _ => (digit & 15).wrapping_add(9),
    }
}
