// Damaged text still shown: the text of a value, with EF BF BD for each maximal bad part, put into a lent buffer (RULES.md, request 4;
// `RawElement::value_utf8_lossy` in src/raw/iter.rs of the Rust).
#![tactic(auto, unfolding(bson::specs::Lossy::value_lossy, bson::specs::Lossy::read_lossy_under))]

ghost use Rattle.std.specs.Prelude.{◌+◌, ◌-◌, ◌≤◌, ◌≡◌, leb, length};
ghost use Rattle.bson.specs.Answer.{gives, unless};
ghost use Rattle.bson.specs.Lossy as paper;
ghost use Rattle.output.specs.Puts.{Puts};
ghost use Rattle.cstr.specs.Said.{limit_of};
ghost use Rattle.iter.specs.Said.{said_element};
ghost use Rattle.refusal.specs.Said.{said, placed_by};
ghost use Rattle.lossy.specs.Said.{said_shown};
ghost use Rattle.lossy.specs.Marks.{mark, size_shown};

use iter::Element;
use output::Output;
use part::Part;
use refusal::{Refusal, Refused};
use utf8::chunks::Chunk;
use value::texts;

// What stands for a maximal bad part: U+FFFD.
static REPLACEMENT: [u8; 3] = [0xEF, 0xBF, 0xBD];

// The element, how many bytes of its text were written, and the part behind the text: a DBPointer's id, a code's scope, else an empty one.
#[derive(Clone, Copy)]
pub struct Shown {
    pub element: Element,
    pub size: usize,
    pub second: Part,
}

// What is left of the room behind a chunk as it is shown, or 14.
fn room_behind(room: usize, chunk: Chunk) -> Result<usize, Refusal>
    ensures { said result ≡ unless (leb (size_shown chunk) room) 14 (gives (room - size_shown chunk)) }
{
    let left = room.checked_sub(chunk.valid).ok_or(Refusal::NoRoom)?;
    if chunk.invalid == 0 {
        return Ok(left);
    }
    left.checked_sub(REPLACEMENT.len()).ok_or(Refusal::NoRoom)
}

// Whether a text as it is shown has at most so many bytes. It has at most three times its own, so a large room is not measured.
#[tactic(auto, using(crate::proofs::ShownLaws::chunk_in, crate::proofs::ShownLaws::large_room, crate::proofs::ShownLaws::nothing_fits, crate::proofs::ShownLaws::chunk_too_long, crate::proofs::ShownLaws::chunk_fits))]
fn fits(text: &[u8], room: usize) -> bool
    ensures { result ≡ leb (length (paper.lossy text.now)) room }
{
    if text.len() <= room / 3 {
        return true;
    }
    let mut left = room;
    let mut rest = text;
    while !rest.is_empty() {
        let chunk = utf8::chunks::next_chunk(rest);
        let Ok(behind) = room_behind(left, chunk) else {
            return false;
        };
        left = behind;
        rest = &rest[chunk.valid + chunk.invalid..];
    }
    true
}

// Puts what is shown for a bad part of so many bytes, where there is one.
#[tactic(auto, using(laws::proofs::OutputLaws::nothing_put, crate::proofs::ShownLaws::mark_none))]
fn put_mark(output: &mut Output, invalid: usize)
    ensures { Puts output.old output.new (mark invalid) }
{
    if invalid != 0 {
        output.put_text(&REPLACEMENT);
    }
}

// Puts a text that fits as it is shown, chunk by chunk.
#[tactic(auto, using(crate::proofs::ShownLaws::chunk_in, crate::proofs::ShownLaws::nothing_left, std::proofs::lemmas::Grind::common_steps))]
fn put(output: &mut Output, text: &[u8])
    requires { output.old.used + length (paper.lossy text.now) ≤ length output.old.buffer.now }
    ensures { Puts output.old output.new (paper.lossy text.now) }
{
    let mut rest = text;
    while !rest.is_empty() {
        let chunk = utf8::chunks::next_chunk(rest);
        output.put_text(&rest[..chunk.valid]);
        put_mark(output, chunk.invalid);
        rest = &rest[chunk.valid + chunk.invalid..];
    }
}

// Puts a text as it is shown at the front of the buffer; its size, or 14 where it does not fit and nothing is written.
#[tactic(auto, using(laws::proofs::OutputLaws::text_fits), unfolding(bson::specs::Lossy::put_lossy))]
pub fn put_lossy(out: &mut [u8], text: &[u8]) -> Result<usize, Refusal>
    ensures { paper.leaves (said result) out.new ≡ paper.put_lossy text.now out.old }
{
    if fits(text, out.len()) {
        let mut output = Output {
            buffer: out,
            used: 0,
        };
        put(&mut output, text);
        return Ok(output.used);
    }
    Err(Refusal::NoRoom)
}

// The text of an element, at the front of the buffer: 9 where it runs past the slice, then 7, 17 where its type has no such text, the
// refusals of its shape, and 14. A refusal writes nothing, and the bytes behind the text stay.
pub fn value_utf8_lossy(out: &mut [u8], s: &[u8], element: Element) -> Result<Shown, Refused>
    ensures { paper.leaves (placed_by said_shown result) out.new
        ≡ paper.value_lossy s.now (said_element element) out.old }
{
    let found = texts::text_of(s, element.tag, element.value).map_err(|why| why.at(element.place))?;
    let size = put_lossy(out, part::bytes_of(s, found.text)).map_err(|why| why.at(0))?;
    Ok(Shown {
        element,
        size,
        second: found.second,
    })
}

// Steps to a place and shows the text there: the step's refusals, 16 at the terminator, then the element's.
pub fn read_utf8_lossy(
    out: &mut [u8],
    s: &[u8],
    place: usize,
    limit: Option<usize>,
) -> Result<Shown, Refused>
    ensures { paper.leaves (placed_by said_shown result) out.new
        ≡ paper.read_lossy_under (limit_of limit) s.now place out.old }
{
    let element = reading::locate(s, place, limit)?;
    value_utf8_lossy(out, s, element)
}
