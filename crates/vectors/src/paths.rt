// Replays lookups by a path: `path PATH ..` and `path-typed PATH TAG ..`.
use crate::lookups::{framed, is_found};
use crate::text::{Hex, byte_of, field, fields_from, is_text, is_unhexed, unhex};

// A path that has no room here differs, as a key does.
pub fn answer_path(said: &[u8], document: &[u8], limit: Option<usize>) -> bool {
    let hex = field(said, 0);
    let mut space = [0; 512];
    let keys = unhex(hex, &mut space);
    let found = path::get_element(document, keys, limit);
    is_unhexed(hex, keys)
        && is_found(fields_from(said, 1), found)
        && path::get(document, keys, limit) == framed(document, found)
}

pub fn answer_path_typed(said: &[u8], document: &[u8], limit: Option<usize>) -> bool {
    let hex = field(said, 0);
    let mut space = [0; 512];
    let keys = unhex(hex, &mut space);
    let tag = byte_of(field(said, 1));
    let found = path::get_with(document, keys, tag, limit);
    is_unhexed(hex, keys)
        && is_text(field(said, 1), Hex(&[tag]))
        && is_found(fields_from(said, 2), found)
}
