// Questions about a document: at a place a step from any cursor, a value, a part of a value; the whole check.
use crate::text::{Hex, field, number_of};
use crate::values::{Span, Words};
use iter::{Cursor, Element, Step};
use reading::parts;
use refusal::Refused;
use std::io;

fn say_refusal(rt: &impl Print, refused: Refused) -> io::Result<()> {
    print!(rt; "refuses {} at {}", refused.why.number(), refused.place)
}

fn say_element(rt: &impl Print, element: Element) -> io::Result<()> {
    let place = element.place;
    let tag = element.tag;
    print!(rt;
        "yields {place} tag {tag:02x} key {} value {}",
        Span(element.key),
        Span(element.value)
    )
}

fn say_step(rt: &impl Print, step: Step) -> io::Result<()> {
    match step.answer {
        Ok(Some(element)) => say_element(rt, element)?,
        Ok(None) => print!(rt; "ends")?,
        Err(refused) => say_refusal(rt, refused)?,
    }
    let next = step.next;
    let state = if next.ended { "ended" } else { "open" };
    print!(rt; ", next {} {state}", next.offset)
}

// `step BYTES OFFSET open`, or `ended`.
pub fn ask_step(rt: &impl Print, line: &[u8], document: &[u8]) -> io::Result<()> {
    let cursor = Cursor {
        offset: number_of(field(line, 2)),
        ended: cstr::equal(field(line, 3), b"ended"),
    };
    say_step(rt, iter::next(document, cursor, None))
}

// `read BYTES PLACE`.
pub fn ask_value(rt: &impl Print, line: &[u8], document: &[u8]) -> io::Result<()> {
    match reading::read_at(document, number_of(field(line, 2)), None) {
        Ok(value) => print!(rt; "gives {}", Words(value)),
        Err(refused) => say_refusal(rt, refused),
    }
}

// What `check BYTES` or `strict BYTES` answers.
pub fn say_verdict(rt: &impl Print, verdict: Result<usize, Refused>) -> io::Result<()> {
    match verdict {
        Ok(n) => print!(rt; "accepts {n}"),
        Err(refused) => say_refusal(rt, refused),
    }
}

// `part BYTES PLACE NAME`.
pub fn ask_part(rt: &impl Print, line: &[u8], document: &[u8]) -> io::Result<()> {
    let place = number_of(field(line, 2));
    let part = match field(line, 3) {
        b"string" => parts::string(document, place),
        b"code" => parts::code(document, place),
        b"symbol" => parts::symbol(document, place),
        b"document" => parts::document(document, place),
        b"array" => parts::array(document, place),
        b"binary" => parts::binary(document, place),
        b"pattern" => parts::pattern(document, place),
        b"options" => parts::options(document, place),
        b"namespace" => parts::namespace(document, place),
        b"scope_code" => parts::scope_code(document, place),
        b"scope" => parts::scope(document, place),
        _ => return print!(rt; "is no question"),
    };
    if part.is_empty() {
        return print!(rt; "is empty");
    }
    print!(rt; "gives {}", Hex(part))
}
