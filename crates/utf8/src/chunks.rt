// A text that may be damaged, chunk by chunk (RULES.md, request 4; `Utf8Chunks` of the Rust's library).
ghost use Rattle.std.specs.Prelude.{◌≡◌};
ghost use Rattle.utf8.specs.Ascii.{Behind};
ghost use Rattle.utf8.specs.Chunks.{chunk_of};

use crate::{ascii, table};

// Bytes of whole characters, and behind them those of a maximal bad part, none at the end of the text.
#[derive(Clone, Copy)]
pub struct Chunk {
    pub valid: usize,
    pub invalid: usize,
}

// What is left behind the blocks of ASCII in front, which are those of the check.
fn behind_ascii(v: &[u8]) -> &[u8]
    ensures { Behind v.now result.now }
{
    let mut rest = v;
    while let Some((block, behind)) = rest.split_at_checked(32) {
        if !ascii(block) {
            return rest;
        }
        rest = behind;
    }
    rest
}

// The first chunk of a text: blocks of ASCII are passed over, and what is not ASCII is judged by table, some bytes at a time.
pub fn next_chunk(v: &[u8]) -> Chunk
    ensures { result ≡ chunk_of v.now }
{
    let mut valid = 0;
    while valid < v.len() {
        let rest = behind_ascii(&v[valid..]);
        let chunk = table::some_characters(rest);
        valid = v.len() - rest.len() + chunk.valid;
        if 0 < chunk.invalid {
            return Chunk {
                valid,
                invalid: chunk.invalid,
            };
        }
    }
    Chunk { valid, invalid: 0 }
}
