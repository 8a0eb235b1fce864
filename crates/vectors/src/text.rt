// The bytes of a line: its fields, the numbers and the hexadecimal that stand in them.
ghost use Rattle.std.specs.Prelude.{◌≡◌, ◌/◌, ◌<◌, min, length};

use std::fmt;
use std::fmt::{Display, Formatter, Write};

// The text from field k on; empty where there are fewer.
pub fn fields_from(text: &[u8], k: usize) -> &[u8] {
    text.splitn(k.saturating_add(1), |b| *b == b' ')
        .nth(k)
        .unwrap_or(&[])
}

// Field k, counted from 0; empty where there are fewer.
pub fn field(text: &[u8], k: usize) -> &[u8] {
    text.split(|b| *b == b' ').nth(k).unwrap_or(&[])
}

// What stands in front of the first `;`, or the whole.
pub fn head_of(line: &[u8]) -> &[u8] {
    line.split(|b| *b == b';').next().unwrap_or(&[])
}

// The value of a hexadecimal digit; 0 for any other byte.
fn digit(b: u8) -> u8
    ensures { result < 16 }
{
    match b {
        b'0'..=b'9' => b - b'0',
        b'a'..=b'f' => b - b'a' + 10,
        _ => 0,
    }
}

// The byte that the first two digits name; 0 where there are fewer.
pub fn byte_of(digits: &[u8]) -> u8 {
    match digits {
        [high, low, ..] => 16 * digit(*high) + digit(*low),
        _ => 0,
    }
}

// The bytes that pairs of digits name, as many as there is room for.
pub fn unhex<'a>(digits: &[u8], space: &'a mut [u8]) -> &'a [u8]
    ensures { length result.now ≡ min (length space.old) (length digits.now / 2) }
{
    let (pairs, _) = digits.as_chunks::<2>();
    let n = space.len().min(pairs.len());
    let bytes = &mut space[..n];
    for (byte, pair) in bytes.iter_mut().zip(pairs) {
        *byte = byte_of(pair);
    }
    bytes
}

// The same in an array; behind them it is zero.
pub fn unhex_array<const N: usize>(digits: &[u8]) -> [u8; N] {
    let mut bytes = [0; N];
    let (pairs, _) = digits.as_chunks::<2>();
    for (byte, pair) in bytes.iter_mut().zip(pairs) {
        *byte = byte_of(pair);
    }
    bytes
}

// Whether the bytes are all that the hexadecimal names: no odd digit, no other character, no more than there was room for.
pub fn is_unhexed(hex: &[u8], bytes: &[u8]) -> bool {
    let (pairs, odd) = hex.as_chunks::<2>();
    odd.is_empty()
        && pairs.len() == bytes.len()
        && hex.iter().all(|b| matches!(*b, b'0'..=b'9' | b'a'..=b'f'))
}

// A number with one more decimal digit behind it; one that is too large stays as it is.
fn with_digit(n: usize, b: u8) -> usize {
    match n.checked_mul(10) {
        Some(tens) => tens.wrapping_add(digit(b) as usize),
        None => n,
    }
}

// The number that decimal digits name.
pub fn number_of(digits: &[u8]) -> usize {
    digits.iter().copied().fold(0, with_digit)
}

// Bytes in hexadecimal.
#[derive(Clone, Copy)]
pub struct Hex<'a>(pub &'a [u8]);

impl<'a> Display for Hex<'a> {
    fn fmt<W: fmt::Write>(&self, f: &mut Formatter<W>) -> fmt::Result {
        for b in self.0 {
            write!(f, "{b:02x}")?;
        }
        Ok(())
    }
}

// What is still to be met of a text.
#[derive(Drop)]
struct Rest<'a>(&'a [u8]);

impl<'a> fmt::Write for Rest<'a> {
    fn write_str(&mut self, s: &str) -> fmt::Result {
        match self.0.strip_prefix(s.as_bytes()) {
            Some(rest) => {
                self.0 = rest;
                Ok(())
            }
            None => Err(fmt::Error),
        }
    }
}

// Whether a text is just what a value is printed as.
pub fn is_text<D: Display + Drop>(text: &[u8], value: D) -> bool {
    let mut rest = Rest(text);
    rest.write(value).is_ok() && rest.0.is_empty()
}

pub fn yes_or_no(b: bool) -> &'static str {
    if b { "yes" } else { "no" }
}
