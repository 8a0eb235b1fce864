// Replays a document of the list: each part of its line is an answer, which is asked for under the line's limit and
// compared.
use crate::lookups::{answer_get, answer_typed};
use crate::paths::{answer_path, answer_path_typed};
use crate::progress::Progress;
use crate::steps::{answer_step, first_step};
use crate::text::{field, fields_from, head_of, is_unhexed, number_of, unhex, yes_or_no};
use crate::values::is_answer;
use std::io;

// Answers a part and compares, by its word. A part of any other word differs.
fn answer_part(part: &[u8], document: &[u8], limit: Option<usize>, progress: &mut Progress) {
    let said = fields_from(part, 1);
    let alike = match field(part, 0) {
        b"at" => return answer_step(said, document, limit, progress),
        b"admission" => is_answer(said, document::from_bytes(document)),
        b"check" => is_answer(said, whole::check(document, limit)),
        b"strict" => is_answer(said, whole::check_strict(document, limit)),
        b"empty" => is_answer(said, document::is_empty(document).map(yes_or_no)),
        b"get" => answer_get(said, document, limit),
        b"typed" => answer_typed(said, document, limit),
        b"path" => answer_path(said, document, limit),
        b"path-typed" => answer_path_typed(said, document, limit),
        _ => false,
    };
    progress.count_answer(alike);
}

// Says which part differs, by what stands behind its `;`.
fn say_differs(rt: &impl Print, behind: &[u8], head: &[u8]) -> io::Result<()> {
    let begun: &[u8] = if behind.starts_with(b" ") {
        b"differs:"
    } else {
        b"differs: ;"
    };
    rt.write_all(begun)?;
    rt.write_all(behind)?;
    rt.write_all(b" of ")?;
    rt.write_all(head)?;
    rt.write_all(b"\n")
}

// A part of the line, by what stands behind its `;`: where that is no space, it has no word. A last field `*` says only who gave the
// answer.
fn replay_part(
    rt: &impl Print,
    behind: &[u8],
    document: &[u8],
    limit: Option<usize>,
    head: &[u8],
    progress: &mut Progress,
) -> io::Result<()> {
    let differ = progress.differ;
    let part = behind.strip_prefix(b" ").unwrap_or(b";");
    let answer = part.strip_suffix(b" *").unwrap_or(part);
    answer_part(answer, document, limit, progress);
    if differ < progress.differ {
        say_differs(rt, behind, head)?;
    }
    Ok(())
}

// The parts are replayed where the document is all that the hexadecimal names; else the head differs.
fn replay_document(
    rt: &impl Print,
    line: &[u8],
    hex: &[u8],
    limit: Option<usize>,
    progress: &mut Progress,
) -> io::Result<()> {
    let head = head_of(line);
    let mut space = [0; 4096];
    let document = unhex(hex, &mut space);
    progress.begin_document(first_step(document));
    if !is_unhexed(hex, document) {
        progress.count_answer(false);
        return say_differs(rt, b" hexadecimal", head);
    }
    for behind in line.split(|b| *b == b';').skip(1) {
        replay_part(rt, behind, document, limit, head, progress)?;
    }
    Ok(())
}

// A line `document HEX; ..`.
pub fn replay_plain(rt: &impl Print, line: &[u8], progress: &mut Progress) -> io::Result<()> {
    replay_document(rt, line, fields_from(head_of(line), 1), None, progress)
}

// A line `limited LIMIT document HEX; ..`.
pub fn replay_limited(rt: &impl Print, line: &[u8], progress: &mut Progress) -> io::Result<()> {
    let limit = Some(number_of(field(line, 1)));
    replay_document(rt, line, fields_from(head_of(line), 3), limit, progress)
}
