// How far the replay of documents has come: the answers so far, by what became of them, and the next step.
use iter::Cursor;
use std::io;

// The cursor is what the last step left; it has ended where no step follows.
#[derive(Clone, Copy)]
pub struct Progress {
    documents: u64,
    alike: u64,
    pub differ: u64,
    pub cursor: Cursor,
}

impl Progress {
    pub fn new() -> Self {
        let cursor = Cursor {
            offset: 0,
            ended: true,
        };
        Self {
            documents: 0,
            alike: 0,
            differ: 0,
            cursor,
        }
    }

    pub fn begin_document(&mut self, cursor: Cursor) {
        self.documents = self.documents.saturating_add(1);
        self.cursor = cursor;
    }

    pub fn count_answer(&mut self, alike: bool) {
        if alike {
            self.alike = self.alike.saturating_add(1);
        } else {
            self.differ = self.differ.saturating_add(1);
        }
    }

    // Says the totals where there was a document.
    pub fn say(self, rt: &impl Print) -> io::Result<()> {
        let Self {
            documents,
            alike,
            differ,
            ..
        } = self;
        if documents == 0 {
            return Ok(());
        }
        println!(rt; "{documents} documents, {alike} answers alike, {differ} differ")
    }
}
