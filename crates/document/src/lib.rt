// A document: admission, whether it is empty, lookup (RULES.md, module 5 and "Values"; src/raw/document.rs of the Rust).
#![tactic(auto, unfolding(bson::specs::Lookup::found, bson::specs::Lookup::get_under, bson::specs::Lookup::get_with_under, bson::specs::Lookup::get_at_under, bson::specs::Lookup::get_bytes_under, bson::specs::Lookup::get_part_under, bson::specs::Lookup::is_empty))]

ghost use Rattle.std.specs.Prelude.{◌≡◌};
ghost use Rattle.bson.specs.Answer.{then};
ghost use Rattle.bson.specs.Step.{admitted};
ghost use Rattle.bson.specs.Lookup.{found as foundIn, find_under, get_under, get_bytes_under, get_with_under, get_part_under};
ghost use Rattle.bson.specs.Lookup.{get_at_under, is_empty};
ghost use Rattle.bson.specs.Value.{of_tag};
ghost use Rattle.cstr.specs.Said.{limit_of};
ghost use Rattle.iter.specs.Said.{said_element};
ghost use Rattle.reading.specs.Said.{said_which};
ghost use Rattle.refusal.specs.Said.{placed, placed_by};
ghost use Rattle.document.specs.Said.{said_found};

use iter::Element;
use reading::Which;
use refusal::{Refusal, Refused};
use value::Value;

// The first element of a key and its value.
#[derive(Clone, Copy)]
pub struct Found {
    pub element: Element,
    pub value: Value,
}

// Admission: the length of the document that the slice is, else 1, 2, 3 at 0.
pub fn from_bytes(s: &[u8]) -> Result<usize, Refused>
    ensures { placed result ≡ admitted s.now }
{
    raw::admit(s).map_err(|why| why.at(0))
}

// Whether an admitted document has no element, else 1, 2, 3 at 0.
pub fn is_empty(s: &[u8]) -> Result<bool, Refused>
    ensures { placed result ≡ is_empty s.now }
{
    Ok(from_bytes(s)? == 5)
}

// The element whose key matched, with its value or the value's refusal.
pub fn read_element(s: &[u8], element: Element) -> Result<Found, Refused>
    ensures { placed_by said_found result ≡ foundIn s.now (said_element element) }
{
    let value = reading::value_of(s, element)?;
    Ok(Found { element, value })
}

// The same, of a value that must have this tag: 17 behind its own refusals.
pub fn read_element_with(s: &[u8], element: Element, tag: u8) -> Result<Found, Refused>
    ensures { placed_by said_found result ≡ then (foundIn s.now (said_element element)) (λ f. of_tag f.element tag f) }
{
    let found = read_element(s, element)?;
    if element.tag == tag {
        return Ok(found);
    }
    Err(Refusal::OtherType.at(element.place))
}

// The first element whose key has these bytes, not read yet: the refusals of the steps before it, or 16 at the terminator.
pub fn find(s: &[u8], key: &[u8], limit: Option<usize>) -> Result<Element, Refused>
    ensures { placed_by said_element result ≡ find_under (limit_of limit) s.now key.now }
{
    // a part made here is handed on as two words, and not copied as one from the caller's two
    let whole = &s[0..];
    let mut place: usize = 4;
    while let Some(sizes) = iter::sizes_at(whole, place, limit)? {
        let element = iter::element_of(place, sizes.tag, sizes.key, sizes.value);
        let name = element.key;
        let start = name.offset;
        let zero = start + name.size;
        if cstr::equal(key, &whole[start..zero]) {
            return Ok(element);
        }
        let value = element.value;
        place = value.offset + value.size;
    }
    Err(Refusal::Absent.at(place))
}

// The first element whose key has these bytes, and its value: the refusals of the steps before it, then the value's,
// or 16 at the terminator. Damage behind the element is not seen.
pub fn get_element(s: &[u8], key: &[u8], limit: Option<usize>) -> Result<Found, Refused>
    ensures { placed_by said_found result ≡ get_under (limit_of limit) s.now key.now }
{
    read_element(s, find(s, key, limit)?)
}

// The element at a place and its value: the step's refusals, 16 at the terminator, then the value's.
pub fn element_at(s: &[u8], place: usize, limit: Option<usize>) -> Result<Found, Refused>
    ensures { placed_by said_found result ≡ get_at_under (limit_of limit) s.now place }
{
    read_element(s, reading::locate(s, place, limit)?)
}

// The value's framed bytes, as a part of the document; empty where `get_element`, its twin, refuses.
pub fn get<'a, 'b>(s: &'a [u8], key: &'b [u8], limit: Option<usize>) -> &'a [u8]
    ensures { result.now ≡ get_bytes_under (limit_of limit) s.now key.now }
{
    match get_element(s, key, limit) {
        Ok(found) => part::bytes_of(s, found.element.value),
        Err(_) => &s[..0],
    }
}

// Typed lookup: the first element of the key, whose value must have this tag: 16, the value's refusal, then 17.
pub fn get_with(s: &[u8], key: &[u8], tag: u8, limit: Option<usize>) -> Result<Found, Refused>
    ensures { placed_by said_found result ≡ get_with_under (limit_of limit) s.now key.now tag }
{
    read_element_with(s, find(s, key, limit)?, tag)
}

// A part of the value, as a part of the document; empty where `get_with`, its twin, refuses.
pub fn get_part<'a, 'b>(
    s: &'a [u8],
    key: &'b [u8],
    tag: u8,
    which: Which,
    limit: Option<usize>,
) -> &'a [u8]
    ensures { result.now ≡ get_part_under (limit_of limit) s.now key.now tag (said_which which) }
{
    match get_with(s, key, tag, limit) {
        Ok(found) => part::bytes_of(s, reading::part_of(found.value, which)),
        Err(_) => &s[..0],
    }
}
