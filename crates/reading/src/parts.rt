// The parts of a value at a place, each as a part of the lent slice (RULES.md, "Values" and "What must change shape"). The twin
// of each is `read_with` with its tag; where that refuses, the part is empty.
ghost use Rattle.std.specs.Prelude.{◌≡◌};
ghost use Rattle.bson.specs.Value.{first, second, part_at};

use crate::{Which, part_at};

// Without its length and final zero.
pub fn string<'a>(s: &'a [u8], place: usize) -> &'a [u8]
    ensures { result.now ≡ part_at s.now place 0x02 first }
{
    part_at(s, place, tags::STRING, Which::First, None)
}

// Code without a scope.
pub fn code<'a>(s: &'a [u8], place: usize) -> &'a [u8]
    ensures { result.now ≡ part_at s.now place 0x0D first }
{
    part_at(s, place, tags::CODE, Which::First, None)
}

pub fn symbol<'a>(s: &'a [u8], place: usize) -> &'a [u8]
    ensures { result.now ≡ part_at s.now place 0x0E first }
{
    part_at(s, place, tags::SYMBOL, Which::First, None)
}

// Whole.
pub fn document<'a>(s: &'a [u8], place: usize) -> &'a [u8]
    ensures { result.now ≡ part_at s.now place 0x03 first }
{
    part_at(s, place, tags::DOCUMENT, Which::First, None)
}

// Whole.
pub fn array<'a>(s: &'a [u8], place: usize) -> &'a [u8]
    ensures { result.now ≡ part_at s.now place 0x04 first }
{
    part_at(s, place, tags::ARRAY, Which::First, None)
}

// The data; under subtype 2 the bytes behind the inner length.
pub fn binary<'a>(s: &'a [u8], place: usize) -> &'a [u8]
    ensures { result.now ≡ part_at s.now place 0x05 first }
{
    part_at(s, place, tags::BINARY, Which::First, None)
}

// Of a regex.
pub fn pattern<'a>(s: &'a [u8], place: usize) -> &'a [u8]
    ensures { result.now ≡ part_at s.now place 0x0B first }
{
    part_at(s, place, tags::REGULAR_EXPRESSION, Which::First, None)
}

// Of a regex.
pub fn options<'a>(s: &'a [u8], place: usize) -> &'a [u8]
    ensures { result.now ≡ part_at s.now place 0x0B second }
{
    part_at(s, place, tags::REGULAR_EXPRESSION, Which::Second, None)
}

// Of a DBPointer.
pub fn namespace<'a>(s: &'a [u8], place: usize) -> &'a [u8]
    ensures { result.now ≡ part_at s.now place 0x0C first }
{
    part_at(s, place, tags::DB_POINTER, Which::First, None)
}

// The code of a code with scope.
pub fn scope_code<'a>(s: &'a [u8], place: usize) -> &'a [u8]
    ensures { result.now ≡ part_at s.now place 0x0F first }
{
    part_at(s, place, tags::CODE_WITH_SCOPE, Which::First, None)
}

// The document of a code with scope, whole.
pub fn scope<'a>(s: &'a [u8], place: usize) -> &'a [u8]
    ensures { result.now ≡ part_at s.now place 0x0F second }
{
    part_at(s, place, tags::CODE_WITH_SCOPE, Which::Second, None)
}
