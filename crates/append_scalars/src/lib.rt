// Numbers, booleans and the types without a value, appended to lent state (RULES.md, "Writer and joining").
#![tactic(auto, unfolding(bson::specs::Writer::performed, bson::specs::Writer::answer, bson::specs::Grammar::row, appending::specs::Element::appending))]

ghost use Rattle.std.specs.Prelude.{◌≡◌, true, [], ◌++◌};
ghost use Rattle.bson.specs.Grammar as grammar;
ghost use Rattle.bson.specs.Value as value;
ghost use Rattle.bson.specs.Writer as writer;
ghost use Rattle.refusal.specs.Said.{number_in};
ghost use Rattle.appending.specs.Element.{appending};

use output::Output;
use refusal::Refusal;
use writer_state::Words;

// Appends two numbers of four bytes.
fn append_words(
    out: &mut [u8],
    words: &mut Words,
    tag: u8,
    key: &[u8],
    first: usize,
    second: usize,
) -> Result<(), Refusal>
    ensures { writer.written (number_in result) words.new out.new
        ≡ appending words.old out.old 0 tag key.now true
        (grammar.bytes32 first ++ grammar.bytes32 second) }
{
    appending::head(out, words, 0, tag, key, true, 8)?;
    let used = writer_state::used(words) - 8;
    let p = encode::bytes32(first);
    let q = encode::bytes32(second);
    let v = [p[0], p[1], p[2], p[3], q[0], q[1], q[2], q[3]];
    Output { buffer: out, used }.put_text(&v);
    Ok(())
}

// Appends a number of eight bytes.
fn append_eight(
    out: &mut [u8],
    words: &mut Words,
    tag: u8,
    key: &[u8],
    n: u64,
) -> Result<(), Refusal>
    ensures { writer.written (number_in result) words.new out.new
        ≡ appending words.old out.old 0 tag key.now true (grammar.bytes64 n) }
{
    append_words(out, words, tag, key, n as usize, (n / 4294967296) as usize)
}

// Appends what has no bytes.
fn append_nothing(out: &mut [u8], words: &mut Words, tag: u8, key: &[u8]) -> Result<(), Refusal>
    ensures { writer.written (number_in result) words.new out.new
        ≡ appending words.old out.old 0 tag key.now true [] }
{
    appending::head(out, words, 0, tag, key, true, 0)
}

// Appends a double by its bits.
pub fn append_double(
    out: &mut [u8],
    words: &mut Words,
    key: &[u8],
    bits: u64,
) -> Result<(), Refusal>
    ensures { writer.written (number_in result) words.new out.new
        ≡ writer.performed (writer.append key.now (value.double bits)) words.old out.old }
{
    append_eight(out, words, tags::DOUBLE, key, bits)
}

// Appends a boolean.
pub fn append_bool(out: &mut [u8], words: &mut Words, key: &[u8], b: bool) -> Result<(), Refusal>
    ensures { writer.written (number_in result) words.new out.new
        ≡ writer.performed (writer.append key.now (value.boolean b)) words.old out.old }
{
    appending::head(out, words, 0, tags::BOOLEAN, key, true, 1)?;
    let used = writer_state::used(words) - 1;
    Output { buffer: out, used }.put_text(&[u8::from(b)]);
    Ok(())
}

// Appends an int32.
pub fn append_int32(out: &mut [u8], words: &mut Words, key: &[u8], n: i32) -> Result<(), Refusal>
    ensures { writer.written (number_in result) words.new out.new
        ≡ writer.performed (writer.append key.now (value.int32 n)) words.old out.old }
{
    appending::head(out, words, 0, tags::INT32, key, true, 4)?;
    let used = writer_state::used(words) - 4;
    let mut output = Output { buffer: out, used };
    encode::put_bytes32(&mut output, encode::bits32(n) as usize);
    Ok(())
}

// Appends an int64.
pub fn append_int64(out: &mut [u8], words: &mut Words, key: &[u8], n: i64) -> Result<(), Refusal>
    ensures { writer.written (number_in result) words.new out.new
        ≡ writer.performed (writer.append key.now (value.int64 n)) words.old out.old }
{
    append_eight(out, words, tags::INT64, key, encode::bits64(n))
}

// Appends a datetime, in milliseconds since 1970.
pub fn append_datetime(out: &mut [u8], words: &mut Words, key: &[u8], n: i64) -> Result<(), Refusal>
    ensures { writer.written (number_in result) words.new out.new
        ≡ writer.performed (writer.append key.now (value.date_time n)) words.old out.old }
{
    append_eight(out, words, tags::DATE_TIME, key, encode::bits64(n))
}

// Appends a timestamp: the increment, then the seconds.
pub fn append_timestamp(
    out: &mut [u8],
    words: &mut Words,
    key: &[u8],
    increment: u32,
    seconds: u32,
) -> Result<(), Refusal>
    ensures { writer.written (number_in result) words.new out.new
        ≡ writer.performed (writer.append key.now (value.timestamp increment seconds)) words.old
        out.old }
{
    append_words(
        out,
        words,
        tags::TIMESTAMP,
        key,
        increment as usize,
        seconds as usize,
    )
}

// Appends a null.
pub fn append_null(out: &mut [u8], words: &mut Words, key: &[u8]) -> Result<(), Refusal>
    ensures { writer.written (number_in result) words.new out.new
        ≡ writer.performed (writer.append key.now value.null) words.old out.old }
{
    append_nothing(out, words, tags::NULL, key)
}

// Appends an undefined.
pub fn append_undefined(out: &mut [u8], words: &mut Words, key: &[u8]) -> Result<(), Refusal>
    ensures { writer.written (number_in result) words.new out.new
        ≡ writer.performed (writer.append key.now value.undefined) words.old out.old }
{
    append_nothing(out, words, tags::UNDEFINED, key)
}

// Appends a min key.
pub fn append_min_key(out: &mut [u8], words: &mut Words, key: &[u8]) -> Result<(), Refusal>
    ensures { writer.written (number_in result) words.new out.new
        ≡ writer.performed (writer.append key.now value.min_key) words.old out.old }
{
    append_nothing(out, words, tags::MIN_KEY, key)
}

// Appends a max key.
pub fn append_max_key(out: &mut [u8], words: &mut Words, key: &[u8]) -> Result<(), Refusal>
    ensures { writer.written (number_in result) words.new out.new
        ≡ writer.performed (writer.append key.now value.max_key) words.old out.old }
{
    append_nothing(out, words, tags::MAX_KEY, key)
}
