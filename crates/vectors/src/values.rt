// What a line of the list says of an answer: a value in words, a refusal, and whether the answer is the one that stands there.
use crate::text::{fields_from, is_text};
use part::Part;
use reading::{TwoParts, Which};
use refusal::Refused;
use std::fmt;
use std::fmt::{Display, Formatter};
use value::Value;

const NO_PART: Part = Part { offset: 0, size: 0 };

// The parts of a value that is refused.
pub const NO_PARTS: TwoParts = TwoParts(NO_PART, NO_PART);

// A part by its offset and its size.
#[derive(Clone, Copy)]
pub struct Span(pub Part);

impl Display for Span {
    fn fmt<W: fmt::Write>(&self, f: &mut Formatter<W>) -> fmt::Result {
        let part = self.0;
        write!(f, "{} {}", part.offset, part.size)
    }
}

fn name_of(value: Value) -> &'static str {
    match value {
        Value::Double(_) => "double",
        Value::String(_) => "string",
        Value::Document(_) => "document",
        Value::Array(_) => "array",
        Value::Binary { .. } => "binary",
        Value::Undefined => "undefined",
        Value::ObjectId(_) => "objectid",
        Value::Boolean(_) => "boolean",
        Value::DateTime(_) => "datetime",
        Value::Null => "null",
        Value::RegularExpression { .. } => "regex",
        Value::DbPointer { .. } => "dbpointer",
        Value::JavaScriptCode(_) => "code",
        Value::Symbol(_) => "symbol",
        Value::JavaScriptCodeWithScope { .. } => "codewithscope",
        Value::Int32(_) => "int32",
        Value::Timestamp { .. } => "timestamp",
        Value::Int64(_) => "int64",
        Value::Decimal128(_) => "decimal128",
        Value::MinKey => "minkey",
        Value::MaxKey => "maxkey",
    }
}

// A value in the words of the list: its type's name, and what it holds. The parts are those of `parts_of`, so that the list holds it too.
#[derive(Clone, Copy)]
pub struct Words(pub Value);

impl Display for Words {
    fn fmt<W: fmt::Write>(&self, f: &mut Formatter<W>) -> fmt::Result {
        let value = self.0;
        let TwoParts(first, second) = reading::parts_of(value);
        write!(f, "{}", name_of(value))?;
        match value {
            Value::Undefined | Value::Null | Value::MinKey | Value::MaxKey => Ok(()),
            Value::Double(bits) => write!(f, " {bits}"),
            Value::Boolean(b) => write!(f, " {}", u8::from(b)),
            Value::DateTime(n) => write!(f, " {n}"),
            Value::Int32(n) => write!(f, " {n}"),
            Value::Int64(n) => write!(f, " {n}"),
            Value::Timestamp { increment, seconds } => write!(f, " {increment} {seconds}"),
            Value::Binary { subtype, .. } => write!(f, " {subtype} {}", Span(first)),
            Value::RegularExpression { .. }
            | Value::DbPointer { .. }
            | Value::JavaScriptCodeWithScope { .. } => {
                write!(f, " {} {}", Span(first), Span(second))
            }
            _ => write!(f, " {}", Span(first)),
        }
    }
}

// Whether a refusal stands there, `refused KIND PLACE NUMBER`, by its place and number; its kind is not ours.
pub fn is_refusal(said: &[u8], refused: Refused) -> bool {
    let place = refused.place;
    let number = refused.why.number();
    said.starts_with(b"refused ") && is_text(fields_from(said, 2), format_args!("{place} {number}"))
}

// Whether just this answer stands there, or the refusal.
pub fn is_answer<D: Display + Drop>(said: &[u8], answer: Result<D, Refused>) -> bool {
    match answer {
        Ok(value) => is_text(said, value),
        Err(refused) => is_refusal(said, refused),
    }
}

// Whether what is handed back for each part of a value are the bytes of the part.
pub fn are_parts<'a, F: Fn(Which) -> &'a [u8]>(document: &[u8], parts: TwoParts, get: F) -> bool
    requires { F.IsAlwaysCallable get }
{
    get(Which::First) == part::bytes_of(document, parts.0)
        && get(Which::Second) == part::bytes_of(document, parts.1)
}
