// A reader that carries the document and its cursor together (RULES.md, "Values"; `RawIter` in src/raw/iter.rs of the Rust).
#![tactic(auto)]

ghost use Rattle.std.specs.Prelude.{◌≡◌};
ghost use Rattle.bson.specs.Step.{step};
ghost use Rattle.iter.specs.Said.{said_cursor, Answers};
ghost use Rattle.reader.specs.Held.{started, Steps};

use iter::{Cursor, Element, Step};
use refusal::Refused;

// The document, and the offset and the ended mark of the cursor.
#[derive(Clone, Copy)]
pub struct Reader<'a> {
    pub src: &'a [u8],
    pub offset: usize,
    pub ended: bool,
}

impl<'a> Reader<'a> {
    // A reader at the first element.
    pub fn new(src: &'a [u8]) -> Reader<'a>
        ensures { result ≡ started src.entry }
    {
        Reader {
            src,
            offset: 4,
            ended: false,
        }
    }

    // The step at its cursor; then the reader is behind it.
    pub fn next(&mut self) -> Result<Option<Element>, Refused>
        ensures { Steps result self.old self.new }
    {
        let cursor = Cursor {
            offset: self.offset,
            ended: self.ended,
        };
        let step = iter::next(self.src, cursor, None);
        self.offset = step.next.offset;
        self.ended = step.next.ended;
        step.answer
    }

    // Its offset.
    pub fn offset(&self) -> usize
        ensures { result ≡ self.now.offset }
    {
        self.offset
    }
}

// The step of a reader at a cursor.
pub fn step_at(s: &[u8], cursor: Cursor) -> Step
    ensures { Answers result (said_cursor cursor) (step s.now (said_cursor cursor)) }
{
    let mut reader = Reader {
        src: s,
        offset: cursor.offset,
        ended: cursor.ended,
    };
    let answer = reader.next();
    let next = Cursor {
        offset: reader.offset,
        ended: reader.ended,
    };
    Step { answer, next }
}
