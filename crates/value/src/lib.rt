// What a framed value holds (RULES.md, "Values"; src/raw/value.rs of the Rust).
#![tactic(auto)]

mod inside;
pub mod texts;

ghost use Rattle.std.specs.Prelude.{◌+◌, ◌-◌, ◌<◌, ◌≤◌, ◌≡◌, length};
ghost use Rattle.bson.specs.Bytes.{trim as trimmed};
ghost use Rattle.bson.specs.Tags.{DbPointer, RegularExpression};
ghost use Rattle.bson.specs.Value as paper;
ghost use Rattle.part.specs.Said.{said_part};
ghost use Rattle.refusal.specs.Said.{said_by};
ghost use Rattle.value.specs.Said.{said_value};

use part::Part;
use refusal::Refusal;

// A value of each type: numbers as numbers, a double by its bits, bytes as parts of the slice.
#[derive(Clone, Copy)]
pub enum Value {
    Double(u64),
    String(Part),
    Document(Part),
    Array(Part),
    Binary { subtype: u8, data: Part },
    Undefined,
    ObjectId(Part),
    Boolean(bool),
    DateTime(i64),
    Null,
    RegularExpression { pattern: Part, options: Part },
    DbPointer { namespace: Part, id: Part },
    JavaScriptCode(Part),
    Symbol(Part),
    // The scope stands first, so that what a value opens lies at one offset in the three that open something: none is copied out.
    JavaScriptCodeWithScope { scope: Part, code: Part },
    Int32(i32),
    Timestamp { increment: u32, seconds: u32 },
    Int64(i64),
    Decimal128(Part),
    MinKey,
    MaxKey,
}

// A part without its first and its last bytes, of which no more are taken than it has.
fn trim(part: Part, front: usize, back: usize) -> Part
    requires { (part.offset + front < 18446744073709551616) × (front + back < 18446744073709551616) }
    ensures { said_part result ≡ trimmed front back (said_part part) }
{
    Part {
        offset: part.offset + front,
        size: part.size.saturating_sub(front + back),
    }
}

// The last twelve bytes of a part, or all of fewer: a DBPointer's id.
fn last_twelve(part: Part) -> Part
    requires { part.offset + part.size < 18446744073709551616 }
    ensures { said_part result ≡ trimmed (part.size - 12) 0 (said_part part) }
{
    trim(part, part.size.saturating_sub(12), 0)
}

// The text of a string, code or symbol, without its length and final zero: 6 where it is not UTF-8.
fn text(s: &[u8], framed: Part) -> Result<Part, Refusal>
    requires { framed.offset + framed.size ≤ length s.now }
    ensures { said_by said_part result ≡ paper.text s.now (trimmed 4 1 (said_part framed)) }
{
    inside::text(s, trim(framed, 4, 1))
}

fn timestamp(v: &[u8]) -> Result<Value, Refusal>
    ensures { said_by said_value result ≡ paper.as_leaf (λ t. paper.timestamp t.0 t.1) (paper.timestamp_of v.now) }
{
    let num::Timestamp { increment, seconds } = num::timestamp_from_slice(v)?;
    Ok(Value::Timestamp { increment, seconds })
}

// A namespace, which must be UTF-8 (6), and twelve bytes.
#[tactic(auto, unfolding(bson::specs::Value::content))]
fn db_pointer(s: &[u8], framed: Part) -> Result<Value, Refusal>
    requires { framed.offset + framed.size ≤ length s.now }
    ensures { said_by said_value result ≡ paper.content s.now (said_part framed) DbPointer }
{
    let namespace = inside::text(s, trim(framed, 4, 13))?;
    let id = last_twelve(framed);
    Ok(Value::DbPointer { namespace, id })
}

// Binary data, behind its length and subtype; under subtype 2 behind a second length, else 12.
#[tactic(auto, unfolding(bson::specs::Value::binary_value))]
fn binary(v: &[u8], framed: Part) -> Result<Value, Refusal>
    requires { framed.offset < 9223372036854775808 }
    ensures { said_by said_value result ≡ paper.binary_value v.now (said_part framed) }
{
    let subtype = part::byte_or_zero(v, 4);
    if subtype != 2 {
        let data = trim(framed, 5, 0);
        return Ok(Value::Binary { subtype, data });
    }
    if !inside::is_old_binary(v) {
        return Err(Refusal::BadShape);
    }
    let data = trim(framed, 9, 0);
    Ok(Value::Binary { subtype, data })
}

#[tactic(auto, using(laws::proofs::BytesLaws::bytes_length, crate::proofs::Sizes::regex_is), unfolding(bson::specs::Value::content))]
fn regular_expression(s: &[u8], framed: Part) -> Result<Value, Refusal>
    requires { framed.offset + framed.size ≤ length s.now }
    ensures { said_by said_value result ≡ paper.content s.now (said_part framed) RegularExpression }
{
    let both = raw::pattern_options(part::bytes_of(s, framed), None)?;
    let pattern = Part {
        offset: framed.offset,
        size: both.pattern,
    };
    let options = Part {
        offset: framed.offset + both.pattern + 1,
        size: both.options,
    };
    Ok(Value::RegularExpression { pattern, options })
}

// Code, then a scope that is admitted: 12, 8, 9, 10, 6, 12, 1, 2, 3, in this order.
#[tactic(auto, using(crate::proofs::Sizes::code_is), unfolding(bson::specs::Value::text, bson::specs::Value::scope_value))]
fn code_with_scope(v: &[u8], framed: Part) -> Result<Value, Refusal>
    requires { framed.offset + length v.now < 9223372036854775808 }
    ensures { said_by said_value result ≡ paper.scope_value v.now (said_part framed) }
{
    let n = inside::code_len(v)?;
    let size = n - 5;
    inside::text(v, Part { offset: 8, size })?;
    inside::scope_len(v, 4 + n)?;
    let code = Part {
        offset: framed.offset + 8,
        size,
    };
    let scope = trim(framed, 4 + n, 0);
    Ok(Value::JavaScriptCodeWithScope { scope, code })
}

// The value of this tag in a part of the slice: 9 where the part runs past the slice, then 7 where the tag is in no row of the table, and
// the refusals of its type.
#[tactic(auto, using(laws::proofs::BytesLaws::bytes_length), unfolding(bson::specs::Value::value_in, bson::specs::Value::content, bson::specs::Tags::row_of, bson::specs::Tags::tags))]
pub fn parse(s: &[u8], tag: u8, framed: Part) -> Result<Value, Refusal>
    ensures { said_by said_value result ≡ paper.value_in s.now tag (said_part framed) }
{
    if !inside::is_within(s, framed) {
        return Err(Refusal::PastTheSlice);
    }
    let v = part::bytes_of(s, framed);
    match tag {
        tags::DOUBLE => Ok(Value::Double(num::f64_from_slice(v)?)),
        tags::STRING => Ok(Value::String(text(s, framed)?)),
        tags::DOCUMENT => Ok(Value::Document(framed)),
        tags::ARRAY => Ok(Value::Array(framed)),
        tags::BINARY => binary(v, framed),
        tags::UNDEFINED => Ok(Value::Undefined),
        tags::OBJECT_ID => Ok(Value::ObjectId(framed)),
        tags::BOOLEAN => Ok(Value::Boolean(num::bool_from_slice(v)?)),
        tags::DATE_TIME => Ok(Value::DateTime(num::i64_from_slice(v)?)),
        tags::NULL => Ok(Value::Null),
        tags::REGULAR_EXPRESSION => regular_expression(s, framed),
        tags::DB_POINTER => db_pointer(s, framed),
        tags::CODE => Ok(Value::JavaScriptCode(text(s, framed)?)),
        tags::SYMBOL => Ok(Value::Symbol(text(s, framed)?)),
        tags::CODE_WITH_SCOPE => code_with_scope(v, framed),
        tags::INT32 => Ok(Value::Int32(num::i32_from_slice(v)?)),
        tags::TIMESTAMP => timestamp(v),
        tags::INT64 => Ok(Value::Int64(num::i64_from_slice(v)?)),
        tags::DECIMAL128 => Ok(Value::Decimal128(framed)),
        tags::MAX_KEY => Ok(Value::MaxKey),
        tags::MIN_KEY => Ok(Value::MinKey),
        _ => Err(Refusal::UnknownTag),
    }
}
