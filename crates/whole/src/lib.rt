// The whole check, plain and strict (RULES.md, module 6 and "The whole check").
#![tactic(auto, unfolding(bson::specs::Check::check_under, visit::specs::Said::said_visited))]

ghost use Rattle.std.specs.Prelude.{◌+◌, ◌≤◌, ◌<◌, ◌^◌, ◌≡◌, true, false, length};
ghost use Rattle.bson.specs.ArrayKey.{good_array_key};
ghost use Rattle.bson.specs.Bytes.{bytes};
ghost use Rattle.bson.specs.Step.{cursor};
ghost use Rattle.bson.specs.Check.{visit as visitOf, opened, walk_under, check_under};
ghost use Rattle.laws.specs.FramedAt.{FramedAt};
ghost use Rattle.cstr.specs.Said.{limit_of};
ghost use Rattle.part.specs.Said.{said_part};
ghost use Rattle.iter.specs.Said.{said_element};
ghost use Rattle.visit.specs.Said.{said_level, said_visited};
ghost use Rattle.refusal.specs.Said.{placed};
ghost use Rattle.whole.specs.Framed.{FramedSays};

use iter::{Cursor, Element};
use part::Part;
use refusal::{Refusal, Refused};
use tags::Kind;
use visit::{Level, Opened};

// A refusal at a place in a document, at its place in the outermost slice.
fn refused(level: Level, why: Refusal, place: usize) -> Refused
    requires { level.base + place < 2 ^ 64 }
    ensures { result ≡ record { why = why; place = level.base + place } }
{
    why.at(level.base + place)
}

// Whether the key of an element is good at its position in an array.
fn key_passes(s: &[u8], key: Part, position: usize) -> bool
    requires { key.offset + key.size ≤ length s.now }
    ensures { result ≡ good_array_key position (bytes s.now (said_part key)) }
{
    let start = key.offset;
    let end = start + key.size;
    array_key::is_good(&s[start..end], position)
}

// Walks a document: its values in order, each opened; of an array the strict check asks for the key first (19).
#[cycle(open_value_walk_document)]
fn walk_document(
    s: &[u8],
    strict: bool,
    level: Level,
    limit: Option<usize>,
) -> Result<usize, Refused>
    requires { level.base + length s.now < 2 ^ 63 }
    ensures { placed result ≡ walk_under (limit_of limit) strict s.now (said_level level) }
{
    // a part made here is handed on as two words, and not copied as one from the caller's two
    let whole = &s[0..];
    let keyed = strict & level.array;
    let mut offset: usize = 4;
    let mut count: usize = 0;
    let mut position: usize = 0;
    loop {
        let cursor = Cursor {
            offset,
            ended: false,
        };
        let step = iter::next(whole, cursor, limit);
        match step.answer {
            Err(inside) => {
                return Err(refused(level, inside.why, inside.place));
            }
            Ok(None) => {
                return Ok(count);
            }
            Ok(Some(element)) => {
                if keyed {
                    if key_passes(whole, element.key, position) {
                        position += 1;
                    } else {
                        return Err(refused(level, Refusal::BadArrayKey, element.place));
                    }
                }
                let values = open_value(whole, strict, level, element, limit)?;
                count += values;
                offset = step.next.offset;
            }
        }
    }
}

// What framing has told of a value: that it can be read and opens nothing, or a document or an array, or nothing yet.
#[derive(Clone, Copy)]
enum Framed {
    Closed,
    Opens { array: bool },
    Unread,
}

// Of a fixed size all bytes are values, but for a boolean's one byte; framing asks of documents all that reading asks.
fn tell(level: Level, tag: u8) -> Framed
    ensures { FramedSays result (said_level level) tag }
{
    if bounds::MAX_DEPTH < level.depth {
        return Framed::Unread;
    }
    if tag == tags::DOCUMENT {
        return Framed::Opens { array: false };
    }
    match tags::kind_of(tag) {
        Ok(Kind::Fixed(n)) => {
            if n == 1 {
                return Framed::Unread;
            }
            Framed::Closed
        }
        _ => {
            if tag == tags::ARRAY {
                return Framed::Opens { array: true };
            }
            Framed::Unread
        }
    }
}

// Visits a value that a step yielded, and reads it only where framing has not told enough.
fn visit_framed(s: &[u8], level: Level, element: Element) -> Result<Option<Opened>, Refusal>
    requires { FramedAt s.now (cursor element.place false) (said_element element) }
    ensures { said_visited (level.base + element.place) result
        ≡ visitOf false s.now (said_level level) 0 (said_element element) }
{
    let inner = element.value;
    match tell(level, element.tag) {
        Framed::Closed => Ok(None),
        Framed::Opens { array } => Ok(Some(Opened {
            array,
            levels: 1,
            inner,
        })),
        Framed::Unread => visit::visit(s, level, element),
    }
}

// Opens a value that a step yielded, whose key passed: visits it, and walks the document inside it, if there is one.
#[cycle(open_value_walk_document)]
fn open_value(
    s: &[u8],
    strict: bool,
    level: Level,
    element: Element,
    limit: Option<usize>,
) -> Result<usize, Refused>
    requires { (level.base + length s.now < 2 ^ 63) × FramedAt s.now (cursor element.place false) (said_element element) }
    ensures { placed result ≡ opened false (walk_under (limit_of limit) strict) s.now (said_level level) 0 (said_element element) }
{
    match visit_framed(s, level, element) {
        Err(why) => Err(refused(level, why, element.place)),
        Ok(visited) => match visited {
            None => Ok(1),
            Some(opened) => {
                let array = opened.array;
                let inner = opened.inner;
                let base = level.base + inner.offset;
                let depth = level.depth + opened.levels;
                let deeper = Level { array, base, depth };
                let start = inner.offset;
                let end = start + inner.size;
                let values = walk_document(&s[start..end], strict, deeper, limit)?;
                let all = 1 + values;
                Ok(all)
            }
        },
    }
}

// Walks the slice itself; top values have depth 0.
fn check_either(s: &[u8], strict: bool, limit: Option<usize>) -> Result<usize, Refused>
    ensures { placed result ≡ check_under (limit_of limit) strict s.now }
{
    let outermost = Level {
        array: false,
        base: 0,
        depth: 0,
    };
    walk_document(s, strict, outermost, limit)
}

// The plain check of a slice: admission, then every value that can be reached, each read and none deeper than 200. How many values there
// are, those inside values included, or the first refusal.
pub fn check(s: &[u8], limit: Option<usize>) -> Result<usize, Refused>
    ensures { placed result ≡ check_under (limit_of limit) false s.now }
{
    check_either(s, false, limit)
}

// The strict check: the plain one, and 19 for a key of an array that is not its position in decimal.
pub fn check_strict(s: &[u8], limit: Option<usize>) -> Result<usize, Refused>
    ensures { placed result ≡ check_under (limit_of limit) true s.now }
{
    check_either(s, true, limit)
}
