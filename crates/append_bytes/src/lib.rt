// Texts, binary data and ids, appended to lent state (RULES.md, "Writer and joining").
#![tactic(auto, unfolding(bson::specs::Writer::performed, bson::specs::Writer::answer, bson::specs::Grammar::row, appending::specs::Element::appending))]

ghost use Rattle.std.specs.Prelude.{◌≡◌};
ghost use Rattle.bson.specs.Grammar as grammar;
ghost use Rattle.bson.specs.Utf8.{utf8};
ghost use Rattle.bson.specs.Value as value;
ghost use Rattle.bson.specs.Writer as writer;
ghost use Rattle.refusal.specs.Said.{number_in};
ghost use Rattle.appending.specs.Element.{appending};

use output::Output;
use refusal::Refusal;
use writer_state::Words;

// Appends a text, with its length and its zero.
fn append_text(
    out: &mut [u8],
    words: &mut Words,
    tag: u8,
    key: &[u8],
    text: &[u8],
) -> Result<(), Refusal>
    ensures { writer.written (number_in result) words.new out.new
        ≡ appending words.old out.old 0 tag key.now (utf8 text.now)
        (grammar.string_bytes text.now) }
{
    let good = utf8::is_utf8(text);
    let size = text.len() + 5;
    // the key anew: a slice handed on as it came is copied in one piece, right after it was stored in two
    appending::head(out, words, 0, tag, &key[0..], good, size)?;
    let used = writer_state::used(words) - size;
    let mut output = Output { buffer: out, used };
    encode::put_bytes32(&mut output, text.len() + 1);
    output.put_text(text);
    output.put_text(b"\0");
    Ok(())
}

// Appends a string.
pub fn append_string(
    out: &mut [u8],
    words: &mut Words,
    key: &[u8],
    text: &[u8],
) -> Result<(), Refusal>
    ensures { writer.written (number_in result) words.new out.new
        ≡ writer.performed (writer.append key.now (value.string text.now)) words.old out.old }
{
    append_text(out, words, tags::STRING, key, text)
}

// Appends JavaScript code.
pub fn append_code(
    out: &mut [u8],
    words: &mut Words,
    key: &[u8],
    text: &[u8],
) -> Result<(), Refusal>
    ensures { writer.written (number_in result) words.new out.new
        ≡ writer.performed (writer.append key.now (value.code text.now)) words.old out.old }
{
    append_text(out, words, tags::CODE, key, text)
}

// Appends a symbol.
pub fn append_symbol(
    out: &mut [u8],
    words: &mut Words,
    key: &[u8],
    text: &[u8],
) -> Result<(), Refusal>
    ensures { writer.written (number_in result) words.new out.new
        ≡ writer.performed (writer.append key.now (value.symbol text.now)) words.old out.old }
{
    append_text(out, words, tags::SYMBOL, key, text)
}

// Appends a DBPointer: a namespace and an id.
pub fn append_dbpointer(
    out: &mut [u8],
    words: &mut Words,
    key: &[u8],
    namespace: &[u8],
    id: &[u8; 12],
) -> Result<(), Refusal>
    ensures { writer.written (number_in result) words.new out.new
        ≡ writer.performed (writer.append key.now (value.db_pointer namespace.now id.now))
        words.old out.old }
{
    let good = utf8::is_utf8(namespace);
    let size = encode::bytes32(namespace.len() + 1);
    let runs: [&[u8]; 4] = [&size, namespace, b"\0", id];
    appending::append(out, words, 0, tags::DB_POINTER, key, good, &runs)
}

// Appends binary data; under subtype 2 with its inner length.
pub fn append_binary(
    out: &mut [u8],
    words: &mut Words,
    key: &[u8],
    subtype: u8,
    contents: &[u8],
) -> Result<(), Refusal>
    ensures { writer.written (number_in result) words.new out.new
        ≡ writer.performed (writer.append key.now (value.binary subtype contents.now))
        words.old out.old }
{
    let size = encode::bytes32(contents.len());
    if subtype == 2 {
        let outer = encode::bytes32(contents.len() + 4);
        let runs: [&[u8]; 4] = [&outer, b"\x02", &size, contents];
        return appending::append(out, words, 0, tags::BINARY, key, true, &runs);
    }
    let runs: [&[u8]; 3] = [&size, &[subtype], contents];
    appending::append(out, words, 0, tags::BINARY, key, true, &runs)
}

// Appends a regular expression: a pattern and options.
pub fn append_regex(
    out: &mut [u8],
    words: &mut Words,
    key: &[u8],
    pattern: &[u8],
    options: &[u8],
) -> Result<(), Refusal>
    ensures { writer.written (number_in result) words.new out.new
        ≡ writer.performed (writer.append key.now (value.regex pattern.now options.now))
        words.old out.old }
{
    let good = cstr::is_valid_cstr(pattern) & cstr::is_valid_cstr(options);
    let runs: [&[u8]; 4] = [pattern, b"\0", options, b"\0"];
    appending::append(out, words, 0, tags::REGULAR_EXPRESSION, key, good, &runs)
}

// Appends an ObjectId.
pub fn append_object_id(
    out: &mut [u8],
    words: &mut Words,
    key: &[u8],
    id: &[u8; 12],
) -> Result<(), Refusal>
    ensures { writer.written (number_in result) words.new out.new
        ≡ writer.performed (writer.append key.now (value.object_id id.now)) words.old out.old }
{
    appending::append(out, words, 0, tags::OBJECT_ID, key, true, &[id])
}

// Appends a decimal128 by its bits.
pub fn append_decimal128(
    out: &mut [u8],
    words: &mut Words,
    key: &[u8],
    bits: &[u8; 16],
) -> Result<(), Refusal>
    ensures { writer.written (number_in result) words.new out.new
        ≡ writer.performed (writer.append key.now (value.decimal128 bits.now)) words.old
        out.old }
{
    appending::append(out, words, 0, tags::DECIMAL128, key, true, &[bits])
}
