// What the bytes of a framed value are tested for: text, the second length of old binary data, code and its scope (RULES.md,
// "Values"; src/raw/value.rs of the Rust).
ghost use Rattle.std.specs.Prelude.{◌+◌, ◌≡◌, length, drop, leb, ltb};
ghost use Rattle.bson.specs.Answer.{unless};
ghost use Rattle.bson.specs.Framing.{string_size};
ghost use Rattle.bson.specs.Step.{admitted};
ghost use Rattle.bson.specs.Value.{declares_data, text};
ghost use Rattle.part.specs.Said.{said_part};
ghost use Rattle.refusal.specs.Said.{said, said_by};

use part::Part;
use refusal::Refusal;

// Three lengths, the zero of an empty code and that of an empty document.
const MIN_CODE_WITH_SCOPE_SIZE: usize = 14;

// Whether a part lies in the slice.
pub fn is_within(s: &[u8], part: Part) -> bool
    ensures { result ≡ leb (part.offset + part.size) (length s.now) }
{
    part.size <= s.len() && part.offset <= s.len() - part.size
}

// A part that must be UTF-8 (6).
#[tactic(auto, unfolding(bson::specs::Value::text))]
pub fn text(s: &[u8], part: Part) -> Result<Part, Refusal>
    ensures { said_by said_part result ≡ text s.now (said_part part) }
{
    if utf8::is_utf8(part::bytes_of(s, part)) {
        Ok(part)
    } else {
        Err(Refusal::NotUtf8)
    }
}

// Whether data of subtype 2 begins with a length, not negative, equal to the bytes behind it.
#[tactic(auto, unfolding(bson::specs::Framing::fits))]
pub fn is_old_binary(v: &[u8]) -> bool
    ensures { result ≡ declares_data v.now }
{
    if v.len() < 9 {
        return false;
    }
    match num::u32_from_slice(&v[5..]) {
        Ok(n) => n < bounds::NEGATIVE && n as usize == v.len() - 9,
        Err(_) => false,
    }
}

// The code of a value of both, with its length field: 12, 8, 9, 10, in this order.
pub fn code_len(v: &[u8]) -> Result<usize, Refusal>
    ensures { said result ≡ unless (leb 14 (length v.now)) 12 (string_size (drop 4 v.now)) }
{
    if v.len() < MIN_CODE_WITH_SCOPE_SIZE {
        return Err(Refusal::BadShape);
    }
    raw::read_len(&v[4..])
}

// The document behind the code, from a start on to the end of the value: 12, 1, 2, 3, in this order.
pub fn scope_len(v: &[u8], start: usize) -> Result<usize, Refusal>
    ensures { said result ≡ unless (ltb start (length v.now)) 12 (admitted (drop start v.now)) }
{
    if v.len() <= start {
        return Err(Refusal::BadShape);
    }
    raw::admit(&v[start..])
}
