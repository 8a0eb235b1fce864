// Framing: how many bytes the value of a tag has at the front of a part; and admission (RULES.md, "Admission and one step"; src/raw.rs,
// src/raw/iter.rs and src/raw/document.rs of the Rust).
#![tactic(auto, unfolding(bson::specs::Framing::length_field, bson::specs::Framing::fits, bson::specs::Framing::zero_ended, bson::specs::Framing::string_size, bson::specs::Framing::pointer_size, bson::specs::Framing::document_size, bson::specs::Framing::binary_size, bson::specs::Framing::scope_size, bson::specs::Framing::pattern_options_under, bson::specs::Framing::regex_size_under, bson::specs::Framing::value_size_under, bson::specs::Framing::framed_under, bson::specs::Step::admitted))]

ghost use Rattle.std.specs.Prelude.{◌≡◌, ◌≤◌, ◌<◌};
ghost use Rattle.bson.specs.Framing.{length_field, fits, zero_ended, string_size, pointer_size, document_size, binary_size, scope_size};
ghost use Rattle.bson.specs.Framing.{pattern_options_under, regex_size_under, value_size_under};
ghost use Rattle.bson.specs.Step.{admitted};
ghost use Rattle.cstr.specs.Said.{limit_of};
ghost use Rattle.refusal.specs.Said.{said, said_by};
ghost use Rattle.raw.specs.Said.{said_pattern_options};

use refusal::Refusal;
use tags::Kind;

// How many bytes a pattern and options have, each without its zero.
#[derive(Clone, Copy)]
pub struct PatternOptions {
    pub pattern: usize,
    pub options: usize,
}

// The length field in front: 8 where so many bytes are not present, or it is negative or below its least.
fn length_field(v: &[u8], present: usize, least: u32) -> Result<usize, Refusal>
    requires { 4 ≤ present }
    ensures { said result ≡ length_field present least v.now }
{
    let n = num::u32_from_slice(v).map_err(|_| Refusal::BadLength)?;
    if (v.len() < present) | (n < least) | (bounds::NEGATIVE <= n) {
        return Err(Refusal::BadLength);
    }
    Ok(n as usize)
}

// A value of so many bytes: 9 where it runs past the part.
fn fixed_len(v: &[u8], size: usize) -> Result<usize, Refusal>
    ensures { said result ≡ fits size v.now }
{
    if size <= v.len() {
        Ok(size)
    } else {
        Err(Refusal::PastTheSlice)
    }
}

// The same, with a zero at its end: 10 where there is another byte.
fn zero_ended_len(v: &[u8], size: usize) -> Result<usize, Refusal>
    requires { 0 < size }
    ensures { said result ≡ zero_ended size v.now }
{
    let n = fixed_len(v, size)?;
    if v[n - 1] == 0 {
        Ok(n)
    } else {
        Err(Refusal::NotEnded)
    }
}

// A string, code or symbol, with its length field: 8, 9, 10.
pub fn read_len(v: &[u8]) -> Result<usize, Refusal>
    ensures { said result ≡ string_size v.now }
{
    let n = length_field(v, 4, 1)?;
    zero_ended_len(v, 4 + n)
}

// A DBPointer, a string and twelve bytes: 8, 9, 10, and 9 for the twelve.
fn pointer_len(v: &[u8]) -> Result<usize, Refusal>
    ensures { said result ≡ pointer_size v.now }
{
    let n = read_len(v)?;
    fixed_len(v, n + 12)
}

// A document or an array: 8, 9, 10.
fn document_len(v: &[u8]) -> Result<usize, Refusal>
    ensures { said result ≡ document_size v.now }
{
    let n = length_field(v, 5, 5)?;
    zero_ended_len(v, n)
}

// Binary data, with its length field and subtype: 8, 9.
fn binary_len(v: &[u8]) -> Result<usize, Refusal>
    ensures { said result ≡ binary_size v.now }
{
    let n = length_field(v, 4, 0)?;
    fixed_len(v, 5 + n)
}

// Code with scope, whose length field counts itself: 8, 9.
fn scope_len(v: &[u8]) -> Result<usize, Refusal>
    ensures { said result ≡ scope_size v.now }
{
    let n = length_field(v, 4, 0)?;
    fixed_len(v, n)
}

// A pattern up to its zero, then options up to theirs: 5, under a limit 22, and 6.
pub fn pattern_options(v: &[u8], limit: Option<usize>) -> Result<PatternOptions, Refusal>
    ensures { said_by said_pattern_options result ≡ pattern_options_under (limit_of limit) v.now }
{
    let pattern = cstr::read_cstring_with_max_len(v, limit)?;
    let o = pattern + 1;
    let options = cstr::read_cstring_with_max_len(&v[o..], limit)?;
    Ok(PatternOptions { pattern, options })
}

// A pattern and options, each with its zero: the same refusals.
fn regex_len(v: &[u8], limit: Option<usize>) -> Result<usize, Refusal>
    ensures { said result ≡ regex_size_under (limit_of limit) v.now }
{
    let both = pattern_options(v, limit)?;
    Ok(both.pattern + 1 + (both.options + 1))
}

// The value of an element with this tag: 7 where the tag is in no row, else the refusals of its class.
pub fn value_len(tag: u8, v: &[u8], limit: Option<usize>) -> Result<usize, Refusal>
    ensures { said result ≡ value_size_under (limit_of limit) tag v.now }
{
    match tags::kind_of(tag)? {
        Kind::Fixed(n) => fixed_len(v, n),
        Kind::String => read_len(v),
        Kind::Pointer => pointer_len(v),
        Kind::Document => document_len(v),
        Kind::Binary => binary_len(v),
        Kind::Regex => regex_len(v, limit),
        Kind::Scope => scope_len(v),
    }
}

// The length of a document that the slice is: 1 below five bytes, 2 where its length differs, 3 where its last byte is not zero.
pub fn admit(s: &[u8]) -> Result<usize, Refusal>
    ensures { said result ≡ admitted s.now }
{
    let n = num::u32_from_slice(s).map_err(|_| Refusal::TooShort)?;
    if s.len() < 5 {
        return Err(Refusal::TooShort);
    }
    if bounds::NEGATIVE <= n {
        return Err(Refusal::LengthDiffers);
    }
    if (n as usize) != s.len() {
        return Err(Refusal::LengthDiffers);
    }
    if s[s.len() - 1] == 0 {
        Ok(s.len())
    } else {
        Err(Refusal::NoTerminator)
    }
}
