// A part of a slice, as an offset and a size, and a byte of it (RULES.md, "What must change shape").
#![tactic(auto)]

ghost use Rattle.std.specs.Prelude.{◌≡◌, get_or};
ghost use Rattle.bson.specs.Bytes.{bytes};
ghost use Rattle.part.specs.Said.{said_part};

#[derive(Clone, Copy)]
pub struct Part {
    pub offset: usize,
    pub size: usize,
}

// The bytes of a part; of one that runs past the slice, those that are there.
pub fn bytes_of<'a>(s: &'a [u8], part: Part) -> &'a [u8]
    ensures { result.now ≡ bytes s.now (said_part part) }
{
    let offset = part.offset;
    if s.len() < offset {
        return &s[..0];
    }
    let rest = &s[offset..];
    let size = part.size;
    if rest.len() < size {
        return rest;
    }
    &rest[..size]
}

// Byte k, or 0 where there is none.
pub fn byte_or_zero(s: &[u8], k: usize) -> u8
    ensures { result ≡ get_or s.now k 0 }
{
    if k < s.len() {
        return s[k];
    }
    0
}
