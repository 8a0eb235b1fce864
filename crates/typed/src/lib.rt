// Typed lookup: `get_f64`, `get_str` and their like (RULES.md, "Values"; src/raw/document.rs of the Rust). Each refuses with 16, the
// value's refusal, then 17.
#![tactic(auto)]

ghost use Rattle.std.specs.Prelude.{◌≡◌};
ghost use Rattle.bson.specs.Bytes.{le64, i32, i64};
ghost use Rattle.bson.specs.Framing.{in_front};
ghost use Rattle.bson.specs.Value.{bool, timestamp_of, first};
ghost use Rattle.bson.specs.Lookup.{typed, get_part};
ghost use Rattle.num.specs.Said.{said_timestamp};
ghost use Rattle.reading.specs.Said.{said_which};
ghost use Rattle.refusal.specs.Said.{placed, placed_by};

use num::Timestamp;
use reading::Which;
use refusal::Refused;

// A double by its bits.
pub fn get_f64(s: &[u8], key: &[u8]) -> Result<u64, Refused>
    ensures { placed result ≡ typed (in_front 8 le64) s.now key.now 0x01 }
{
    let element = document::get_with(s, key, tags::DOUBLE, None)?.element;
    num::f64_from_slice(part::bytes_of(s, element.value)).map_err(|why| why.at(element.place))
}

pub fn get_bool(s: &[u8], key: &[u8]) -> Result<bool, Refused>
    ensures { placed result ≡ typed bool s.now key.now 0x08 }
{
    let element = document::get_with(s, key, tags::BOOLEAN, None)?.element;
    num::bool_from_slice(part::bytes_of(s, element.value)).map_err(|why| why.at(element.place))
}

pub fn get_timestamp(s: &[u8], key: &[u8]) -> Result<Timestamp, Refused>
    ensures { placed_by said_timestamp result ≡ typed timestamp_of s.now key.now 0x11 }
{
    let element = document::get_with(s, key, tags::TIMESTAMP, None)?.element;
    num::timestamp_from_slice(part::bytes_of(s, element.value)).map_err(|why| why.at(element.place))
}

pub fn get_i32(s: &[u8], key: &[u8]) -> Result<i32, Refused>
    ensures { placed result ≡ typed (in_front 4 i32) s.now key.now 0x10 }
{
    let element = document::get_with(s, key, tags::INT32, None)?.element;
    num::i32_from_slice(part::bytes_of(s, element.value)).map_err(|why| why.at(element.place))
}

// An int64, or a datetime's milliseconds, by its tag.
fn int64(s: &[u8], key: &[u8], tag: u8) -> Result<i64, Refused>
    ensures { placed result ≡ typed (in_front 8 i64) s.now key.now tag }
{
    let element = document::get_with(s, key, tag, None)?.element;
    num::i64_from_slice(part::bytes_of(s, element.value)).map_err(|why| why.at(element.place))
}

pub fn get_i64(s: &[u8], key: &[u8]) -> Result<i64, Refused>
    ensures { placed result ≡ typed (in_front 8 i64) s.now key.now 0x12 }
{
    int64(s, key, tags::INT64)
}

pub fn get_datetime(s: &[u8], key: &[u8]) -> Result<i64, Refused>
    ensures { placed result ≡ typed (in_front 8 i64) s.now key.now 0x09 }
{
    int64(s, key, tags::DATE_TIME)
}

// Those that follow hand back a part of the document. The twin of each is `document::get_with` with the same tag; where that refuses, the
// part is empty.

// A string without its length and final zero.
pub fn get_str<'a, 'b>(s: &'a [u8], key: &'b [u8]) -> &'a [u8]
    ensures { result.now ≡ get_part s.now key.now 0x02 first }
{
    document::get_part(s, key, tags::STRING, Which::First, None)
}

// A document, whole.
pub fn get_document<'a, 'b>(s: &'a [u8], key: &'b [u8]) -> &'a [u8]
    ensures { result.now ≡ get_part s.now key.now 0x03 first }
{
    document::get_part(s, key, tags::DOCUMENT, Which::First, None)
}

// An array, whole.
pub fn get_array<'a, 'b>(s: &'a [u8], key: &'b [u8]) -> &'a [u8]
    ensures { result.now ≡ get_part s.now key.now 0x04 first }
{
    document::get_part(s, key, tags::ARRAY, Which::First, None)
}

// Binary data; the twin says the subtype.
pub fn get_binary<'a, 'b>(s: &'a [u8], key: &'b [u8]) -> &'a [u8]
    ensures { result.now ≡ get_part s.now key.now 0x05 first }
{
    document::get_part(s, key, tags::BINARY, Which::First, None)
}

// Twelve bytes.
pub fn get_object_id<'a, 'b>(s: &'a [u8], key: &'b [u8]) -> &'a [u8]
    ensures { result.now ≡ get_part s.now key.now 0x07 first }
{
    document::get_part(s, key, tags::OBJECT_ID, Which::First, None)
}

// The pattern, or the options, which are the second part.
pub fn get_regex<'a, 'b>(s: &'a [u8], key: &'b [u8], which: Which) -> &'a [u8]
    ensures { result.now ≡ get_part s.now key.now 0x0B (said_which which) }
{
    document::get_part(s, key, tags::REGULAR_EXPRESSION, which, None)
}
