// The twelve typed getters, beside the typed lookup of their tag.
use crate::text::{fields_from, is_text};
use crate::values::{Words, are_parts, is_refusal};
use num::Timestamp;
use reading::TwoParts;
use refusal::Refused;
use value::Value;

fn timestamp(t: Timestamp) -> Value {
    Value::Timestamp {
        increment: t.increment,
        seconds: t.seconds,
    }
}

// The number behind the place, or the refusal.
fn is_number(said: &[u8], answer: Result<Value, Refused>) -> bool {
    match answer {
        Ok(value) => is_text(fields_from(said, 1), Words(value)),
        Err(refused) => is_refusal(said, refused),
    }
}

// Whether the getter of the tag, where there is one, hands back the parts found.
fn is_part_getter(document: &[u8], key: &[u8], tag: u8, parts: TwoParts) -> bool {
    let first = part::bytes_of(document, parts.0);
    match tag {
        0x02 => typed::get_str(document, key) == first,
        0x03 => typed::get_document(document, key) == first,
        0x04 => typed::get_array(document, key) == first,
        0x05 => typed::get_binary(document, key) == first,
        0x07 => typed::get_object_id(document, key) == first,
        0x0B => are_parts(document, parts, |which| {
            typed::get_regex(document, key, which)
        }),
        _ => true,
    }
}

// Whether the getter of the tag, where there is one, answers what the list has; of a part, what the lookup found.
pub fn is_getter(said: &[u8], document: &[u8], key: &[u8], tag: u8, parts: TwoParts) -> bool {
    let number = match tag {
        0x01 => typed::get_f64(document, key).map(Value::Double),
        0x08 => typed::get_bool(document, key).map(Value::Boolean),
        0x09 => typed::get_datetime(document, key).map(Value::DateTime),
        0x10 => typed::get_i32(document, key).map(Value::Int32),
        0x11 => typed::get_timestamp(document, key).map(timestamp),
        0x12 => typed::get_i64(document, key).map(Value::Int64),
        _ => return is_part_getter(document, key, tag, parts),
    };
    is_number(said, number)
}
