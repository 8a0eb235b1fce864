// An element behind the used bytes: its head, then its value; tested in the order 18, 13, 15, 14 (RULES.md, "Writer and joining").
#![tactic(auto)]

ghost use Rattle.std.specs.Prelude.{◌≡◌, true, [], ◌∷◌, ◌++◌, ◌+◌, ◌≤◌, ◌<◌, ◌^◌, length};
ghost use Rattle.bson.specs.Output as paper;
ghost use Rattle.output.specs.Puts.{held, Holds, Puts};
ghost use Rattle.bson.specs.Writer as writer;
ghost use Rattle.refusal.specs.Said.{said_by, number_in};
ghost use Rattle.writer_state.specs.Said.{said_kind};
ghost use Rattle.appending.specs.Element.{appending, heading, texts_of, bounded};

use output::Output;
use refusal::Refusal;
use writer_state::{Kind, Words};

// How many bytes the key has that is written.
fn key_size(kind: Kind, key: &[u8]) -> usize
    ensures { (result ≡ length (writer.key_in (said_kind kind) key.now)) × (result < 2 ^ 63) }
{
    match kind {
        Kind::Document => key.len(),
        Kind::Array(count) => decimal::width_of(count as usize),
    }
}

// Whether a key may be given.
fn key_passes(kind: Kind, key: &[u8]) -> bool
    ensures { result ≡ writer.key_passes (said_kind kind) key.now }
{
    match kind {
        Kind::Document => cstr::is_valid_cstr(key),
        Kind::Array(_) => true,
    }
}

// Puts the key that is written.
fn put_key(output: &mut Output, kind: Kind, key: &[u8])
    ensures { Puts output.old output.new (writer.key_in (said_kind kind) key.now) }
{
    match kind {
        Kind::Document => output.put_text(key),
        Kind::Array(count) => decimal::put_decimal(output, count as usize),
    }
}

// Puts the head of an element: its tag, its key and a zero.
fn put_head(output: &mut Output, tag: u8, kind: Kind, key: &[u8])
    ensures { Holds output.old output.new (paper.put_texts (held output.old)
        ((tag ∷ []) ∷ writer.key_in (said_kind kind) key.now ∷ (0 ∷ []) ∷ [])) }
{
    output.put_text(&[tag]);
    put_key(output, kind, key);
    output.put_text(b"\0");
}

// One element more, of so many bytes.
fn grow(words: &mut Words, kind: Kind, size: usize)
    requires size_bound { (writer.used words.old + size < 2 ^ 32) × (0 < writer.depth words.old) × (writer.depth words.old ≤ 202) }
    requires kind_value { writer.kind_holds 2147483647 (said_kind kind) ≡ true }
    ensures { words.new ≡ writer.grown (said_kind kind) words.old size }
{
    let last = writer_state::depth(words) - 1;
    words[0] += size as u32;
    if let Kind::Array(count) = kind {
        words[3 + 2 * last] = count + 1;
    }
}

// How deep the next value lies.
fn next_depth(words: &Words) -> usize
    requires { 0 < writer.depth words.now }
    ensures { result ≡ writer.next_depth words.now }
{
    writer_state::depth(words) - 1
}

// Whether an element with a value of so many bytes may be appended: the kind of the innermost, or 18, 13, 15 or 14.
fn room_for(
    words: &Words,
    room: usize,
    more: u8,
    key: &[u8],
    good: bool,
    size: usize,
) -> Result<Kind, Refusal>
    ensures { said_by said_kind result ≡ writer.room_for words.now room more key.now good size }
{
    let kind = writer_state::innermost(words, room)?;
    if bounds::MAX_DEPTH < next_depth(words) {
        return Err(Refusal::TooDeep);
    }
    if !(key_passes(kind, key) & good) {
        return Err(Refusal::BadText);
    }
    let left = room - (writer_state::used(words) + writer_state::depth(words));
    if !output::fits(left, 2 + key_size(kind, key) + more as usize, size) {
        return Err(Refusal::NoRoom);
    }
    Ok(kind)
}

// Puts the head of an element, whose value of so many bytes is then to be put behind it, up to the used bytes' end; `more` documents
// are then open besides.
pub fn head(
    out: &mut [u8],
    words: &mut Words,
    more: u8,
    tag: u8,
    key: &[u8],
    good: bool,
    size: usize,
) -> Result<(), Refusal>
    ensures { writer.written (number_in result) words.new out.new
        ≡ heading words.old out.old more tag key.now good size }
{
    let room = writer_state::room_of(out.len());
    let kind = room_for(words, room, more, key, good, size)?;
    let used = writer_state::used(words);
    let mut output = Output { buffer: out, used };
    put_head(&mut output, tag, kind, key);
    grow(words, kind, output.used - used + size);
    Ok(())
}

// One byte more than can ever fit.
const TOO_LONG: usize = bounds::MAX_LEN + 1;

// How many bytes some runs have, or one more than can ever fit.
fn total(runs: &[&[u8]]) -> usize
    ensures { result ≡ bounded (length (paper.joined (texts_of runs.now))) }
{
    let mut size: usize = 0;
    for run in runs {
        size = size.saturating_add(run.len());
    }
    size.min(TOO_LONG)
}

// Puts a value in some runs.
fn put_runs(output: &mut Output, runs: &[&[u8]])
    ensures { Holds output.old output.new (paper.put_texts (held output.old) (texts_of runs.now)) }
{
    for text in runs {
        output.put_text(text);
    }
}

// Appends an element, its value in some runs; `more` documents are then open besides.
pub fn append(
    out: &mut [u8],
    words: &mut Words,
    more: u8,
    tag: u8,
    key: &[u8],
    good: bool,
    runs: &[&[u8]],
) -> Result<(), Refusal>
    ensures { writer.written (number_in result) words.new out.new
        ≡ appending words.old out.old more tag key.now good (paper.joined (texts_of runs.now)) }
{
    let size = total(runs);
    head(out, words, more, tag, key, good, size)?;
    let used = writer_state::used(words) - size;
    put_runs(&mut Output { buffer: out, used }, runs);
    Ok(())
}
