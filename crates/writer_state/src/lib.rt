// The writer's state, lent as words: which states can be (18), and what they say (RULES.md, "Writer and joining").
#![tactic(auto)]

ghost use Rattle.std.specs.Prelude.{◌≡◌, ◌≤◌, ◌<◌, ◌^◌};
ghost use Rattle.bson.specs.Writer as paper;
ghost use Rattle.refusal.specs.Said.{said_by};
ghost use Rattle.writer_state.specs.Said.{said_kind, mark_told};

use refusal::Refusal;

// How many documents can be open: one around values of each depth, and one around none.
pub const MAX_OPEN: usize = bounds::MAX_DEPTH + 2;

// A state: how many bytes are used, how many documents are open, and two words for each.
pub const WORDS: usize = 2 + 2 * MAX_OPEN;

pub type Words = [u32; WORDS];

// The mark of an open document that is no array; that of an array is the number of its elements.
const DOCUMENT_MARK: u32 = 0xFFFF_FFFF;

// What an open document is; an array has so many elements.
#[derive(Clone, Copy)]
pub enum Kind {
    Document,
    Array(u32),
}

impl Kind {
    // The mark that tells it: the one place that makes it.
    pub fn mark(self) -> u32
        ensures { result ≡ mark_told (said_kind self) }
    {
        match self {
            Kind::Document => DOCUMENT_MARK,
            Kind::Array(count) => count,
        }
    }
}

// The kind that a mark tells, or 18: the one place that reads it.
fn kind_of(mark: u32) -> Result<Kind, Refusal>
    ensures { said_by said_kind result ≡ paper.kind_of mark }
{
    if mark < bounds::NEGATIVE {
        return Ok(Kind::Array(mark));
    }
    if mark == DOCUMENT_MARK {
        return Ok(Kind::Document);
    }
    Err(Refusal::OutOfTurn)
}

// Whether a kind can be where so many bytes are used.
fn holds(kind: Kind, used: u32) -> bool
    ensures { result ≡ paper.kind_holds used (said_kind kind) }
{
    match kind {
        Kind::Document => true,
        Kind::Array(count) => count <= used,
    }
}

// Whether the open document at an index can be, whose bytes end here.
fn stands(words: &Words, i: usize, end: u32) -> bool
    requires { i < 202 }
    ensures { result ≡ paper.stands words.now i end }
{
    if end < 4 || end - 4 < words[2 + 2 * i] {
        return false;
    }
    kind_of(words[3 + 2 * i]).is_ok_and(|kind| holds(kind, words[0]))
}

// Whether so many open documents can be, from the innermost out.
fn stand(words: &Words, depth: usize) -> bool
    requires { depth ≤ 202 }
    ensures { result ≡ paper.stand words.now depth (paper.used words.now) }
{
    let mut end = words[0];
    for i in (0..depth).rev() {
        if !stands(words, i, end) {
            return false;
        }
        end = words[2 + 2 * i];
    }
    end == 0
}

// The smaller of a buffer's length and 2,147,483,647.
pub fn room_of(len: usize) -> usize
    ensures { result ≡ paper.room len }
{
    len.min(bounds::MAX_LEN)
}

// A word as a size.
pub fn wide(word: u32) -> usize
    ensures { (result ≡ word) × (result < 2 ^ 32) }
{
    word as usize
}

// How many bytes are used.
pub fn used(words: &Words) -> usize
    ensures { (result ≡ paper.used words.now) × (result < 2 ^ 32) }
{
    wide(words[0])
}

// How many documents are open.
pub fn depth(words: &Words) -> usize
    ensures { (result ≡ paper.depth words.now) × (result < 2 ^ 32) }
{
    wide(words[1])
}

// Whether a state can be, in so much room.
pub fn possible(words: &Words, room: usize) -> bool
    ensures { result ≡ paper.possible words.now room }
{
    let depth = depth(words);
    depth <= MAX_OPEN && used(words) + depth <= room && stand(words, depth)
}

// The kind of the innermost, or 18.
pub fn innermost(words: &Words, room: usize) -> Result<Kind, Refusal>
    ensures { said_by said_kind result ≡ paper.innermost words.now room }
{
    if possible(words, room) {
        let depth = depth(words);
        if 0 < depth {
            return kind_of(words[3 + 2 * (depth - 1)]);
        }
    }
    Err(Refusal::OutOfTurn)
}
