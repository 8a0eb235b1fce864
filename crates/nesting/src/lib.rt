// Opening and closing documents and arrays in a lent state (RULES.md, "Writer and joining").
#![tactic(auto)]

ghost use Rattle.std.specs.Prelude.{◌≡◌, [], ◌∷◌, ◌+◌, ◌-◌, ◌≤◌, ◌<◌, length};
ghost use Rattle.bson.specs.Grammar as grammar;
ghost use Rattle.bson.specs.Output.{put};
ghost use Rattle.bson.specs.Writer as writer;
ghost use Rattle.refusal.specs.Said.{number_in};
ghost use Rattle.writer_state.specs.Said.{said_kind, mark_told};
ghost use Rattle.nesting.specs.Opened.{opened_as, pushed_at};

use output::Output;
use refusal::Refusal;
use writer_state::{Kind, Words};

// One document more is open, of this kind, that starts here.
fn push(words: &mut Words, start: u32, kind: Kind)
    requires { writer.depth words.old < 202 }
    ensures { words.new ≡ pushed_at words.old start (mark_told (said_kind kind)) }
{
    let depth = writer_state::depth(words);
    words[2 + 2 * depth] = start;
    words[3 + 2 * depth] = kind.mark();
    words[1] = (depth + 1) as u32;
}

// Opens an element of this tag in the innermost, that is of this kind.
fn open_in(
    out: &mut [u8],
    words: &mut Words,
    tag: u8,
    kind: Kind,
    key: &[u8],
) -> Result<(), Refusal>
    ensures { writer.written (number_in result) words.new out.new
        ≡ opened_as words.old out.old tag (mark_told (said_kind kind)) key.now }
{
    appending::head(out, words, 1, tag, key, true, 4)?;
    let start = words[0] - 4;
    let used = writer_state::wide(start);
    encode::put_bytes32(&mut Output { buffer: out, used }, 5);
    push(words, start, kind);
    Ok(())
}

// Opens a document in the innermost.
pub fn open_document(out: &mut [u8], words: &mut Words, key: &[u8]) -> Result<(), Refusal>
    ensures { writer.written (number_in result) words.new out.new
        ≡ writer.performed (writer.open_nest grammar.document key.now) words.old out.old }
{
    open_in(out, words, tags::DOCUMENT, Kind::Document, key)
}

// Opens an array in the innermost.
pub fn open_array(out: &mut [u8], words: &mut Words, key: &[u8]) -> Result<(), Refusal>
    ensures { writer.written (number_in result) words.new out.new
        ≡ writer.performed (writer.open_nest grammar.array key.now) words.old out.old }
{
    open_in(out, words, tags::ARRAY, Kind::Array(0), key)
}

// Opens the top.
pub fn open_top(out: &mut [u8], words: &mut Words) -> Result<(), Refusal>
    ensures { writer.written (number_in result) words.new out.new
        ≡ writer.performed writer.open_top words.old out.old }
{
    let room = writer_state::room_of(out.len());
    if !writer_state::possible(words, room) || writer_state::depth(words) != 0 {
        return Err(Refusal::OutOfTurn);
    }
    if room < 5 {
        return Err(Refusal::NoRoom);
    }
    let mut output = Output {
        buffer: out,
        used: 0,
    };
    output.put_text(b"\x05\0\0\0");
    words[0] = 4;
    push(words, 0, Kind::Document);
    Ok(())
}

// Puts a length at an offset, in four bytes.
fn put_length(out: &mut [u8], at: usize, n: usize)
    requires { at + 4 ≤ length out.old }
    ensures { out.new ≡ put out.old at (grammar.bytes32 n) }
{
    let mut length = Output {
        buffer: out,
        used: at,
    };
    encode::put_bytes32(&mut length, n);
}

// One document fewer is open, and its zero is used.
fn pop(words: &mut Words)
    requires { (0 < writer.depth words.old) × (writer.used words.old < 2147483647) }
    ensures { words.new ≡ writer.popped words.old }
{
    let depth = words[1];
    words[0] += 1;
    words[1] = depth - 1;
}

// Where the innermost starts.
fn start_of(words: &Words) -> usize
    requires { (0 < writer.depth words.now) × (writer.depth words.now ≤ 202) }
    ensures { result ≡ writer.start words.now (writer.depth words.now - 1) }
{
    let depth = writer_state::depth(words);
    writer_state::wide(words[2 + 2 * (depth - 1)])
}

// Ends the document that starts here behind the used bytes: its zero, and its true length.
fn seal(out: &mut [u8], used: usize, start: usize)
    requires { (start + 4 ≤ used) × (used < length out.old) }
    ensures { out.new ≡ put (put out.old used (0 ∷ [])) start (grammar.bytes32 (used + 1 - start)) }
{
    Output { buffer: out, used }.put_text(b"\0");
    put_length(out, start, used + 1 - start);
}

// Closes the innermost.
pub fn close(out: &mut [u8], words: &mut Words) -> Result<(), Refusal>
    ensures { writer.written (number_in result) words.new out.new
        ≡ writer.performed writer.close words.old out.old }
{
    let room = writer_state::room_of(out.len());
    writer_state::innermost(words, room)?;
    let used = writer_state::used(words);
    let start = start_of(words);
    seal(out, used, start);
    pop(words);
    Ok(())
}
