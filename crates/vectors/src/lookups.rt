// Replays lookups: `get KEY ..` and `typed KEY TAG ..`.
use crate::getters::is_getter;
use crate::text::{Hex, byte_of, field, fields_from, is_text, is_unhexed, unhex};
use crate::values::{NO_PARTS, Words, are_parts, is_refusal};
use document::Found;
use refusal::Refused;

// `PLACE VALUE`, or a refusal.
pub fn is_found(said: &[u8], found: Result<Found, Refused>) -> bool {
    match found {
        Ok(found) => {
            let place = found.element.place;
            is_text(said, format_args!("{place} {}", Words(found.value)))
        }
        Err(refused) => is_refusal(said, refused),
    }
}

// The framed bytes of the element found; none where the lookup refuses.
pub fn framed<'a>(document: &'a [u8], found: Result<Found, Refused>) -> &'a [u8] {
    match found {
        Ok(found) => part::bytes_of(document, found.element.value),
        Err(_) => &[],
    }
}

// A key that has no room here differs: it is not all that the hexadecimal names.
pub fn answer_get(said: &[u8], document: &[u8], limit: Option<usize>) -> bool {
    let hex = field(said, 0);
    let mut space = [0; 64];
    let key = unhex(hex, &mut space);
    let found = document::get_element(document, key, limit);
    is_unhexed(hex, key)
        && is_found(fields_from(said, 1), found)
        && document::get(document, key, limit) == framed(document, found)
}

// The getters, which take no limit, are asked where there is none.
pub fn answer_typed(said: &[u8], document: &[u8], limit: Option<usize>) -> bool {
    let hex = field(said, 0);
    let mut space = [0; 64];
    let key = unhex(hex, &mut space);
    let tag = byte_of(field(said, 1));
    let found = document::get_with(document, key, tag, limit);
    let parts = found.map_or(NO_PARTS, |found| reading::parts_of(found.value));
    let answer = fields_from(said, 2);
    is_unhexed(hex, key)
        && is_text(field(said, 1), Hex(&[tag]))
        && is_found(answer, found)
        && are_parts(document, parts, |which| {
            document::get_part(document, key, tag, which, limit)
        })
        && (limit.is_some() || is_getter(answer, document, key, tag, parts))
}
