// Replays a step: an element with its value, the end, or a refusal, from the cursor that the last step left.
use crate::progress::Progress;
use crate::text::{Hex, field, fields_from, is_text};
use crate::values::{NO_PARTS, Words, are_parts, is_answer, is_refusal};
use iter::{Cursor, Element};

// Where the first step begins: there is none where the document is not admitted.
pub fn first_step(document: &[u8]) -> Cursor {
    Cursor {
        offset: 4,
        ended: document::from_bytes(document).is_err(),
    }
}

// Whether the key lies behind the tag, the value behind the key's zero, and the next step behind the value.
fn is_laid(element: Element, next: Cursor) -> bool {
    let key = element.key;
    let value = element.value;
    let key_end = key.offset.wrapping_add(key.size);
    !next.ended
        && key.offset == element.place.wrapping_add(1)
        && value.offset == key_end.wrapping_add(1)
        && next.offset == value.offset.wrapping_add(value.size)
}

// `OFFSET TAG KEYSIZE SIZE`, and the key that the step's twin hands back.
fn is_element(
    said: &[u8],
    document: &[u8],
    cursor: Cursor,
    limit: Option<usize>,
    element: Element,
) -> bool {
    let key = element.key;
    let value = element.value;
    element.place == cursor.offset
        && is_text(field(said, 0), cursor.offset)
        && is_text(field(said, 1), Hex(&[element.tag]))
        && is_text(field(said, 2), key.size)
        && is_text(field(said, 3), value.size)
        && iter::key_at(document, cursor, limit) == part::bytes_of(document, key)
}

// The value of an element; the parts of a refused one are empty.
fn is_value(said: &[u8], document: &[u8], limit: Option<usize>, element: Element) -> bool {
    let place = element.place;
    let tag = element.tag;
    let answer = reading::read_at(document, place, limit);
    let parts = answer.map_or(NO_PARTS, reading::parts_of);
    is_answer(said, answer.map(Words))
        && are_parts(document, parts, |which| {
            reading::part_at(document, place, tag, which, limit)
        })
}

// Whether the cursor has ended where it was, and a step from it ends there again.
fn is_ended(document: &[u8], cursor: Cursor, limit: Option<usize>, next: Cursor) -> bool {
    let step = iter::next(document, next, limit);
    let after = step.next;
    next.ended
        && next.offset == cursor.offset
        && matches!(step.answer, Ok(None))
        && after.ended
        && after.offset == cursor.offset
}

// `OFFSET ..`: an element, whose value is another answer; the end; or a refusal. No step follows the last two.
pub fn answer_step(said: &[u8], document: &[u8], limit: Option<usize>, progress: &mut Progress) {
    let cursor = progress.cursor;
    if cursor.ended {
        progress.count_answer(false);
        return;
    }
    let step = iter::next(document, cursor, limit);
    let next = step.next;
    let is_offset = is_text(field(said, 0), cursor.offset);
    let rest = fields_from(said, 1);
    progress.cursor = next;
    match step.answer {
        Ok(Some(element)) => {
            let is_there = is_element(said, document, cursor, limit, element);
            progress.count_answer(is_there && is_laid(element, next));
            progress.count_answer(is_value(fields_from(said, 4), document, limit, element));
        }
        Ok(None) => progress.count_answer(
            is_offset && is_text(rest, "end") && is_ended(document, cursor, limit, next),
        ),
        Err(refused) => progress.count_answer(
            is_offset && is_refusal(rest, refused) && is_ended(document, cursor, limit, next),
        ),
    }
}
