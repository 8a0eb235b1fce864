// One value of the whole check: its reading, its depth and what it opens (RULES.md, "The whole check").
#![tactic(auto, unfolding(bson::specs::Check::visit, bson::specs::Level::opening, bson::specs::Value::value_of, crate::specs::Said::said_visited))]

ghost use Rattle.std.specs.Prelude.{◌+◌, ◌≡◌, false};
ghost use Rattle.bson.specs.Check.{visit as visitOf};
ghost use Rattle.iter.specs.Said.{said_element};
ghost use Rattle.bson.specs.Level.{opening};
ghost use Rattle.value.specs.Said.{said_value};
ghost use Rattle.visit.specs.Said.{said_opening, said_level, said_visited};

use iter::Element;
use part::Part;
use refusal::Refusal;
use value::Value;

// Where a document lies: whether it is an array, its offset in the outermost slice, the depth of its values.
#[derive(Clone, Copy)]
pub struct Level {
    pub array: bool,
    pub base: usize,
    pub depth: usize,
}

// A document in a part of the slice: whether it is an array, how many levels deeper its values lie.
#[derive(Clone, Copy)]
pub struct Opened {
    pub array: bool,
    pub levels: usize,
    pub inner: Part,
}

// What a value opens, if anything: one level for documents and arrays, two for a scope.
fn opening_of(value: Value) -> Option<Opened>
    ensures { said_opening result ≡ opening (said_value value) }
{
    match value {
        Value::Document(inner) => Some(Opened {
            array: false,
            levels: 1,
            inner,
        }),
        Value::Array(inner) => Some(Opened {
            array: true,
            levels: 1,
            inner,
        }),
        Value::JavaScriptCodeWithScope { code: _, scope } => Some(Opened {
            array: false,
            levels: 2,
            inner: scope,
        }),
        _ => None,
    }
}

// The reading, the depth (13), in this order; what a value that passed opens. No key is asked for, so it is at no position.
pub fn visit(s: &[u8], level: Level, element: Element) -> Result<Option<Opened>, Refusal>
    ensures { said_visited (level.base + element.place) result
        ≡ visitOf false s.now (said_level level) 0 (said_element element) }
{
    let value = value::parse(s, element.tag, element.value)?;
    if level.depth <= bounds::MAX_DEPTH {
        return Ok(opening_of(value));
    }
    Err(Refusal::TooDeep)
}
