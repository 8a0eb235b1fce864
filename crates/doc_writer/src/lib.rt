// The writer as a value: fresh, opened and closed; what it appends stands in `scalars` and `bytes` (RULES.md, "Writer and joining";
// src/raw/doc_writer.rs of the Rust).
#![tactic(auto)]

mod bytes;
mod scalars;

ghost use Rattle.std.specs.Prelude.{◌≡◌};
ghost use Rattle.bson.specs.Grammar as grammar;
ghost use Rattle.bson.specs.Writer as writer;
ghost use Rattle.refusal.specs.Said.{number_in};

use refusal::Refusal;
use writer_state::Words;

// The state: how many bytes are used, how many documents are open, and two words for each.
#[derive(Clone, Copy)]
pub struct DocWriter {
    pub words: Words,
}

impl DocWriter {
    // A fresh state: nothing used, nothing open.
    #[tactic(auto, unfolding(bson::specs::Writer::fresh))]
    pub fn new() -> DocWriter
        ensures { result.words ≡ writer.fresh }
    {
        DocWriter {
            words: [0; writer_state::WORDS],
        }
    }

    // Opens the top.
    pub fn open(&mut self, out: &mut [u8]) -> Result<(), Refusal>
        ensures { writer.written (number_in result) self.new.words out.new
            ≡ writer.performed writer.open_top self.old.words out.old }
    {
        nesting::open_top(out, &mut self.words)
    }

    // Opens a document in the innermost.
    pub fn open_document(&mut self, out: &mut [u8], key: &[u8]) -> Result<(), Refusal>
        ensures { writer.written (number_in result) self.new.words out.new
            ≡ writer.performed (writer.open_nest grammar.document key.now) self.old.words out.old }
    {
        nesting::open_document(out, &mut self.words, key)
    }

    // Opens an array in the innermost.
    pub fn open_array(&mut self, out: &mut [u8], key: &[u8]) -> Result<(), Refusal>
        ensures { writer.written (number_in result) self.new.words out.new
            ≡ writer.performed (writer.open_nest grammar.array key.now) self.old.words out.old }
    {
        nesting::open_array(out, &mut self.words, key)
    }

    // Closes the innermost.
    pub fn close(&mut self, out: &mut [u8]) -> Result<(), Refusal>
        ensures { writer.written (number_in result) self.new.words out.new
            ≡ writer.performed writer.close self.old.words out.old }
    {
        nesting::close(out, &mut self.words)
    }
}
