// The tag table: how the value of each tag is sized, in twenty-one rows (src/spec.rs of the Rust).
#![tactic(auto)]

ghost use Rattle.std.specs.Prelude.{◌≡◌};
ghost use Rattle.bson.specs.Tags.{sized_of};
ghost use Rattle.refusal.specs.Said.{said_by};
ghost use Rattle.tags.specs.Said.{said_kind};

use refusal::Refusal;

// The tags, by the names that the Rust gives its element types.
pub const DOUBLE: u8 = 0x01;

pub const STRING: u8 = 0x02;

pub const DOCUMENT: u8 = 0x03;

pub const ARRAY: u8 = 0x04;

pub const BINARY: u8 = 0x05;

pub const UNDEFINED: u8 = 0x06;

pub const OBJECT_ID: u8 = 0x07;

pub const BOOLEAN: u8 = 0x08;

pub const DATE_TIME: u8 = 0x09;

pub const NULL: u8 = 0x0A;

pub const REGULAR_EXPRESSION: u8 = 0x0B;

pub const DB_POINTER: u8 = 0x0C;

pub const CODE: u8 = 0x0D;

pub const SYMBOL: u8 = 0x0E;

pub const CODE_WITH_SCOPE: u8 = 0x0F;

pub const INT32: u8 = 0x10;

pub const TIMESTAMP: u8 = 0x11;

pub const INT64: u8 = 0x12;

pub const DECIMAL128: u8 = 0x13;

pub const MIN_KEY: u8 = 0xFF;

pub const MAX_KEY: u8 = 0x7F;

// How a value is sized: its framing class, with its size where that is fixed.
#[derive(Clone, Copy)]
pub enum Kind {
    Fixed(usize),
    String,
    Pointer,
    Document,
    Binary,
    Regex,
    Scope,
}

// A row of the tag table: the tag, and the framing class and fixed size of its values.
#[derive(Clone, Copy)]
struct Row {
    tag: u8,
    kind: Kind,
}

// The tag table, row by row as in RULES.md, "Admission and one step".
#[rattlefmt::skip]
static ROWS: [Row; 21] = [
    Row { tag: BOOLEAN, kind: Kind::Fixed(1) },
    Row { tag: INT32, kind: Kind::Fixed(4) },
    Row { tag: DOUBLE, kind: Kind::Fixed(8) },
    Row { tag: INT64, kind: Kind::Fixed(8) },
    Row { tag: DATE_TIME, kind: Kind::Fixed(8) },
    Row { tag: TIMESTAMP, kind: Kind::Fixed(8) },
    Row { tag: OBJECT_ID, kind: Kind::Fixed(12) },
    Row { tag: DECIMAL128, kind: Kind::Fixed(16) },
    Row { tag: NULL, kind: Kind::Fixed(0) },
    Row { tag: UNDEFINED, kind: Kind::Fixed(0) },
    Row { tag: MIN_KEY, kind: Kind::Fixed(0) },
    Row { tag: MAX_KEY, kind: Kind::Fixed(0) },
    Row { tag: STRING, kind: Kind::String },
    Row { tag: CODE, kind: Kind::String },
    Row { tag: SYMBOL, kind: Kind::String },
    Row { tag: DB_POINTER, kind: Kind::Pointer },
    Row { tag: DOCUMENT, kind: Kind::Document },
    Row { tag: ARRAY, kind: Kind::Document },
    Row { tag: BINARY, kind: Kind::Binary },
    Row { tag: REGULAR_EXPRESSION, kind: Kind::Regex },
    Row { tag: CODE_WITH_SCOPE, kind: Kind::Scope },
];

// How the value of a tag is sized, by its row: 7 where no row that is asked has the tag.
// Above 13 the rows of min key and max key alone are asked, so that the compiler makes the search for the others one jump by the tag.
pub fn kind_of(tag: u8) -> Result<Kind, Refusal>
    ensures { said_by said_kind result ≡ sized_of tag }
{
    if DECIMAL128 < tag {
        let min_key = ROWS[10];
        if min_key.tag == tag {
            return Ok(min_key.kind);
        }
        let max_key = ROWS[11];
        if max_key.tag == tag {
            return Ok(max_key.kind);
        }
        return Err(Refusal::UnknownTag);
    }
    for row in &ROWS {
        if row.tag == tag {
            return Ok(row.kind);
        }
    }
    Err(Refusal::UnknownTag)
}
