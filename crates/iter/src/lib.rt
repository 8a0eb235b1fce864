// The cursor and the step (RULES.md, "Admission and one step"; src/raw/iter.rs of the Rust).
#![tactic(auto, unfolding(bson::specs::Step::element_under, bson::specs::Step::step_under, bson::specs::Step::key_at_under))]

ghost use Rattle.std.specs.Prelude.{◌≡◌, true, false, ◌<◌, length};
ghost use Rattle.bson.specs.Step.{cursor, element_under, step, step_under, key_at_under};
ghost use Rattle.cstr.specs.Said.{limit_of};
ghost use Rattle.refusal.specs.Said.{said_by};
ghost use Rattle.iter.specs.Said.{said_cursor, said_element, element_sized, said_sizes, sized_wrapping, Answers};

use part::Part;
use refusal::{Refusal, Refused};

// Where a step begins, and whether the iteration has ended. Any pair gets an answer.
#[derive(Clone, Copy)]
pub struct Cursor {
    pub offset: usize,
    pub ended: bool,
}

// An element: the offset of its tag byte, its tag, its key without the zero, its framed value.
#[derive(Clone, Copy)]
pub struct Element {
    pub place: usize,
    pub tag: u8,
    pub key: Part,
    pub value: Part,
}

// What a step answers, an element or none at the end, and the cursor behind it.
#[derive(Clone, Copy)]
pub struct Step {
    pub answer: Result<Option<Element>, Refused>,
    pub next: Cursor,
}

// An element's tag, and how long its key and its value are.
#[derive(Clone, Copy)]
pub struct Sizes {
    pub tag: u8,
    pub key: usize,
    pub value: usize,
}

// The element at a place whose key and value are so long. Any numbers get an answer, so the sums wrap; those of a step do not.
pub fn element_of(place: usize, tag: u8, key: usize, value: usize) -> Element
    ensures { said_element result ≡ sized_wrapping place tag key value }
{
    let start = place.wrapping_add(1);
    let behind = start.wrapping_add(key).wrapping_add(1);
    Element {
        place,
        tag,
        key: Part {
            offset: start,
            size: key,
        },
        value: Part {
            offset: behind,
            size: value,
        },
    }
}

// Key, tag, framing, in this order: under a limit 22; 6, 7, then the refusals of the value's class.
fn element_at(s: &[u8], place: usize, limit: Option<usize>) -> Result<Sizes, Refusal>
    requires { place < length s.now }
    ensures { said_by (element_sized place) result ≡ element_under (limit_of limit) s.now place }
{
    let start = place + 1;
    let key = cstr::read_cstring_with_max_len(&s[start..], limit)?;
    let tag = s[place];
    let offset = start + key + 1;
    let value = raw::value_len(tag, &s[offset..], limit)?;
    Ok(Sizes { tag, key, value })
}

// The step at an open cursor, which all steps go through: admission 1, 2, 3; 4; the end at the terminator; then the element.
pub fn sizes_at(s: &[u8], offset: usize, limit: Option<usize>) -> Result<Option<Sizes>, Refused>
    ensures { said_sizes offset result ≡ step_under (limit_of limit) s.now (cursor offset false) }
{
    raw::admit(s).map_err(|why| why.at(0))?;
    let terminator = s.len() - 1;
    if (offset < 4) | (terminator < offset) {
        return Err(Refusal::StepOutside.at(offset));
    }
    if offset == terminator {
        return Ok(None);
    }
    let sizes = element_at(s, offset, limit).map_err(|why| why.at(offset))?;
    Ok(Some(sizes))
}

// The step at an ended cursor: admission, then the end.
fn stay(s: &[u8], offset: usize) -> Step
    ensures { Answers result (cursor offset true) (step s.now (cursor offset true)) }
{
    Step {
        answer: raw::admit(s).map(|_| None).map_err(|why| why.at(0)),
        next: Cursor {
            offset,
            ended: true,
        },
    }
}

// The step at an open cursor: the next one begins where the element's value ends.
fn advance(s: &[u8], offset: usize, limit: Option<usize>) -> Step
    ensures { Answers result (cursor offset false) (step_under (limit_of limit) s.now (cursor offset false)) }
{
    let ended = Cursor {
        offset,
        ended: true,
    };
    match sizes_at(s, offset, limit) {
        Err(refused) => Step {
            answer: Err(refused),
            next: ended,
        },
        Ok(None) => Step {
            answer: Ok(None),
            next: ended,
        },
        Ok(Some(sizes)) => {
            let element = element_of(offset, sizes.tag, sizes.key, sizes.value);
            let framed = element.value;
            Step {
                answer: Ok(Some(element)),
                next: Cursor {
                    offset: framed.offset + framed.size,
                    ended: false,
                },
            }
        }
    }
}

// The step at a cursor: admission 1, 2, 3; an ended cursor ends; 4; the end at the terminator; then the element.
pub fn next(s: &[u8], cursor: Cursor, limit: Option<usize>) -> Step
    ensures { Answers result (said_cursor cursor) (step_under (limit_of limit) s.now (said_cursor cursor)) }
{
    if cursor.ended {
        return stay(s, cursor.offset);
    }
    advance(s, cursor.offset, limit)
}

// The key of the element that the step yields, as a part of the slice; empty where the step, its twin, yields none.
pub fn key_at<'a>(s: &'a [u8], cursor: Cursor, limit: Option<usize>) -> &'a [u8]
    ensures { result.now ≡ key_at_under (limit_of limit) s.now (said_cursor cursor) }
{
    match next(s, cursor, limit).answer {
        Ok(Some(element)) => part::bytes_of(s, element.key),
        _ => &s[..0],
    }
}
