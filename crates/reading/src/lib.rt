// Reading a value at a place, and the parts of a value (RULES.md, "Values"; `RawElement::value` in src/raw/iter.rs of the Rust).
#![tactic(auto, unfolding(bson::specs::Value::value_of, bson::specs::Value::element_at_under, bson::specs::Value::read_at_under, bson::specs::Value::read_with_under, bson::specs::Value::parts_of, bson::specs::Value::part_at_under))]

pub mod parts;

ghost use Rattle.std.specs.Prelude.{◌≡◌};
ghost use Rattle.bson.specs.Value.{value_of, element_at_under, read_at_under, read_with_under, of_tag, parts_of, part_of};
ghost use Rattle.bson.specs.Value.{part_at_under};
ghost use Rattle.bson.specs.Answer.{then};
ghost use Rattle.cstr.specs.Said.{limit_of};
ghost use Rattle.iter.specs.Said.{said_element};
ghost use Rattle.part.specs.Said.{said_part};
ghost use Rattle.refusal.specs.Said.{placed_by};
ghost use Rattle.value.specs.Said.{said_value};
ghost use Rattle.reading.specs.Said.{said_parts, said_which};

use iter::{Cursor, Element};
use part::Part;
use refusal::{Refusal, Refused};
use value::Value;

// The parts of a value in the order in which they lie; empty parts for those that it has not.
#[derive(Clone, Copy)]
pub struct TwoParts(pub Part, pub Part);

// Which part of a value: the first is the text, the data, the document, the ObjectId, the decimal128, the pattern, the
// namespace, the code; the second the options, the DBPointer's ObjectId, the scope.
#[derive(Clone, Copy, PartialEq, Eq)]
pub enum Which {
    First,
    Second,
}

// The value of an element: 9 where it runs past the slice, then 7 and the refusals of its type.
pub fn value_of(s: &[u8], element: Element) -> Result<Value, Refused>
    ensures { placed_by said_value result ≡ value_of s.now (said_element element) }
{
    value::parse(s, element.tag, element.value).map_err(|why| why.at(element.place))
}

// The same, of a value that must have this tag: 17 behind its own refusals.
fn value_with(s: &[u8], element: Element, tag: u8) -> Result<Value, Refused>
    ensures { placed_by said_value result ≡ then (value_of s.now (said_element element)) (of_tag (said_element element) tag) }
{
    let value = value_of(s, element)?;
    if element.tag == tag {
        return Ok(value);
    }
    Err(Refusal::OtherType.at(element.place))
}

// Steps to a place: the step's refusals, and 16 at the terminator.
pub fn locate(s: &[u8], place: usize, limit: Option<usize>) -> Result<Element, Refused>
    ensures { placed_by said_element result ≡ element_at_under (limit_of limit) s.now place }
{
    let cursor = Cursor {
        offset: place,
        ended: false,
    };
    iter::next(s, cursor, limit)
        .answer?
        .ok_or(Refusal::Absent.at(place))
}

// Steps to a place and reads there: the step's refusals, 16 at the terminator, then the value's.
pub fn read_at(s: &[u8], place: usize, limit: Option<usize>) -> Result<Value, Refused>
    ensures { placed_by said_value result ≡ read_at_under (limit_of limit) s.now place }
{
    value_of(s, locate(s, place, limit)?)
}

// Steps to a place and reads there a value that must have this tag: 17 behind its own refusals.
pub fn read_with(s: &[u8], place: usize, tag: u8, limit: Option<usize>) -> Result<Value, Refused>
    ensures { placed_by said_value result ≡ read_with_under (limit_of limit) s.now place tag }
{
    value_with(s, locate(s, place, limit)?, tag)
}

pub fn parts_of(value: Value) -> TwoParts
    ensures { said_parts result ≡ parts_of (said_value value) }
{
    let none = Part { offset: 0, size: 0 };
    match value {
        Value::String(text) => TwoParts(text, none),
        Value::Document(document) => TwoParts(document, none),
        Value::Array(array) => TwoParts(array, none),
        Value::Binary { subtype: _, data } => TwoParts(data, none),
        Value::ObjectId(id) => TwoParts(id, none),
        Value::RegularExpression { pattern, options } => TwoParts(pattern, options),
        Value::DbPointer { namespace, id } => TwoParts(namespace, id),
        Value::JavaScriptCode(code) => TwoParts(code, none),
        Value::Symbol(symbol) => TwoParts(symbol, none),
        Value::JavaScriptCodeWithScope { code, scope } => TwoParts(code, scope),
        Value::Decimal128(decimal) => TwoParts(decimal, none),
        _ => TwoParts(none, none),
    }
}

pub fn part_of(value: Value, which: Which) -> Part
    ensures { said_part result ≡ part_of (said_which which) (said_value value) }
{
    let parts = parts_of(value);
    match which {
        Which::First => parts.0,
        Which::Second => parts.1,
    }
}

// A part of the value of this tag at a place, as a part of the slice; empty where `read_with`, its twin, refuses.
pub fn part_at<'a>(
    s: &'a [u8],
    place: usize,
    tag: u8,
    which: Which,
    limit: Option<usize>,
) -> &'a [u8]
    ensures { result.now ≡ part_at_under (limit_of limit) s.now place tag (said_which which) }
{
    match read_with(s, place, tag, limit) {
        Ok(value) => part::bytes_of(s, part_of(value, which)),
        Err(_) => &s[..0],
    }
}
