// The functions that the C service calls: byte slices and numbers in, structs of numbers out (RULES.md, module 8). Each is one call of
// what it is named for; what it answers in numbers is in `c_answers`. `fringewell_c` hands each to C, by the same name.
#![tactic(auto, unfolding(crate::specs::Left::performs, bson::specs::Writer::fresh))]

ghost use Rattle.std.specs.Prelude.{◌≡◌, true, false};
ghost use Rattle.bson.specs.Check.{check_under, check};
ghost use Rattle.bson.specs.Cstring.{most};
ghost use Rattle.bson.specs.Grammar as grammar;
ghost use Rattle.bson.specs.Lookup.{get_under, get_with_under, get_at_under, get, get_with, get_at, is_empty};
ghost use Rattle.bson.specs.Path.{get_path_under, get_path_with_under, get_path, get_path_with};
ghost use Rattle.bson.specs.Step.{cursor};
ghost use Rattle.bson.specs.Value as value;
ghost use Rattle.bson.specs.Writer as writer;
ghost use Rattle.c_answers.specs.Numbers.{verdict, emptiness, found};
ghost use Rattle.fringewell.specs.Left.{steps_under, steps, reads_under, reads, left, shows_under, shows, joins, leaves, performs};

use c_answers::{
    ElementNumbers, JoinedNumbers, ShownNumbers, StepNumbers, ValueNumbers, VerdictNumbers,
    WrittenNumbers,
};
use iter::Cursor;
use writer_state::Words;

// The plain check.
pub fn fringewell_check(document: &[u8]) -> VerdictNumbers
    ensures { result ≡ verdict (check false document.now) }
{
    c_answers::of_verdict(whole::check(document, None))
}

// The plain check, under a limit on keys, patterns and options.
pub fn fringewell_check_under(document: &[u8], limit: usize) -> VerdictNumbers
    ensures { result ≡ verdict (check_under (most limit) false document.now) }
{
    c_answers::of_verdict(whole::check(document, Some(limit)))
}

// The strict check.
pub fn fringewell_check_strict(document: &[u8]) -> VerdictNumbers
    ensures { result ≡ verdict (check true document.now) }
{
    c_answers::of_verdict(whole::check_strict(document, None))
}

// The strict check, under a limit.
pub fn fringewell_check_strict_under(document: &[u8], limit: usize) -> VerdictNumbers
    ensures { result ≡ verdict (check_under (most limit) true document.now) }
{
    c_answers::of_verdict(whole::check_strict(document, Some(limit)))
}

// Admission, and whether the document has no element.
pub fn fringewell_is_empty(document: &[u8]) -> VerdictNumbers
    ensures { result ≡ emptiness (is_empty document.now) }
{
    c_answers::of_empty(document::is_empty(document))
}

// The first element of a key.
pub fn fringewell_lookup(document: &[u8], key: &[u8]) -> ValueNumbers
    ensures { result ≡ found (get document.now key.now) }
{
    c_answers::of_found(document::get_element(document, key, None))
}

// The first element of a key, under a limit.
pub fn fringewell_lookup_under(document: &[u8], key: &[u8], limit: usize) -> ValueNumbers
    ensures { result ≡ found (get_under (most limit) document.now key.now) }
{
    c_answers::of_found(document::get_element(document, key, Some(limit)))
}

// The first element of a key, whose value must have this tag.
pub fn fringewell_lookup_typed(document: &[u8], key: &[u8], tag: u8) -> ValueNumbers
    ensures { result ≡ found (get_with document.now key.now tag) }
{
    c_answers::of_found(document::get_with(document, key, tag, None))
}

// The first element of a key, whose value must have this tag, under a limit.
pub fn fringewell_lookup_typed_under(
    document: &[u8],
    key: &[u8],
    tag: u8,
    limit: usize,
) -> ValueNumbers
    ensures { result ≡ found (get_with_under (most limit) document.now key.now tag) }
{
    c_answers::of_found(document::get_with(document, key, tag, Some(limit)))
}

// What a path leads to.
pub fn fringewell_path(document: &[u8], path: &[u8]) -> ValueNumbers
    ensures { result ≡ found (get_path document.now path.now) }
{
    c_answers::of_found(path::get_element(document, path, None))
}

// What a path leads to, under a limit.
pub fn fringewell_path_under(document: &[u8], path: &[u8], limit: usize) -> ValueNumbers
    ensures { result ≡ found (get_path_under (most limit) document.now path.now) }
{
    c_answers::of_found(path::get_element(document, path, Some(limit)))
}

// What a path leads to, whose value must have this tag.
pub fn fringewell_path_typed(document: &[u8], path: &[u8], tag: u8) -> ValueNumbers
    ensures { result ≡ found (get_path_with document.now path.now tag) }
{
    c_answers::of_found(path::get_with(document, path, tag, None))
}

// What a path leads to, whose value must have this tag, under a limit.
pub fn fringewell_path_typed_under(
    document: &[u8],
    path: &[u8],
    tag: u8,
    limit: usize,
) -> ValueNumbers
    ensures { result ≡ found (get_path_with_under (most limit) document.now path.now tag) }
{
    c_answers::of_found(path::get_with(document, path, tag, Some(limit)))
}

// The step at a cursor, and the cursor behind it.
pub fn fringewell_step(document: &[u8], offset: usize, ended: bool) -> StepNumbers
    ensures { result ≡ steps document.now (cursor offset ended) }
{
    c_answers::of_step(iter::next(document, Cursor { offset, ended }, None))
}

// The step at a cursor, under a limit.
pub fn fringewell_step_under(
    document: &[u8],
    offset: usize,
    ended: bool,
    limit: usize,
) -> StepNumbers
    ensures { result ≡ steps_under (most limit) document.now (cursor offset ended) }
{
    c_answers::of_step(iter::next(document, Cursor { offset, ended }, Some(limit)))
}

// The element at a cursor, its value, and the cursor behind it: a step, and the reading of what it yields. That it is written out here and
// below, and shared by no function, is for speed: the answer is then not copied.
pub fn fringewell_next(document: &[u8], offset: usize, ended: bool) -> ElementNumbers
    ensures { result ≡ reads document.now (cursor offset ended) }
{
    let step = iter::next(document, Cursor { offset, ended }, None);
    match step.answer {
        Ok(Some(element)) => {
            c_answers::of_element(element, reading::value_of(document, element), step.next)
        }
        Ok(None) => c_answers::no_element(None, step.next),
        Err(refused) => c_answers::no_element(Some(refused), step.next),
    }
}

// The same, under a limit.
pub fn fringewell_next_under(
    document: &[u8],
    offset: usize,
    ended: bool,
    limit: usize,
) -> ElementNumbers
    ensures { result ≡ reads_under (most limit) document.now (cursor offset ended) }
{
    let step = iter::next(document, Cursor { offset, ended }, Some(limit));
    match step.answer {
        Ok(Some(element)) => {
            c_answers::of_element(element, reading::value_of(document, element), step.next)
        }
        Ok(None) => c_answers::no_element(None, step.next),
        Err(refused) => c_answers::no_element(Some(refused), step.next),
    }
}

// The element at a place, and its value.
pub fn fringewell_read(document: &[u8], place: usize) -> ValueNumbers
    ensures { result ≡ found (get_at document.now place) }
{
    c_answers::of_found(document::element_at(document, place, None))
}

// The same, under a limit.
pub fn fringewell_read_under(document: &[u8], place: usize, limit: usize) -> ValueNumbers
    ensures { result ≡ found (get_at_under (most limit) document.now place) }
{
    c_answers::of_found(document::element_at(document, place, Some(limit)))
}

// The text of the element at a place, with EF BF BD for each maximal bad part, at the front of a lent buffer.
pub fn fringewell_read_lossy(document: &[u8], place: usize, out: &mut [u8]) -> ShownNumbers
    ensures { left result out.new ≡ shows document.now place out.old }
{
    c_answers::of_shown(lossy::read_utf8_lossy(out, document, place, None))
}

// The same, under a limit.
pub fn fringewell_read_lossy_under(
    document: &[u8],
    place: usize,
    out: &mut [u8],
    limit: usize,
) -> ShownNumbers
    ensures { left result out.new ≡ shows_under (most limit) document.now place out.old }
{
    c_answers::of_shown(lossy::read_utf8_lossy(out, document, place, Some(limit)))
}

// Both documents as one, at the front of a lent buffer.
pub fn fringewell_join(first: &[u8], second: &[u8], out: &mut [u8]) -> JoinedNumbers
    ensures { left result out.new ≡ joins first.now second.now out.old }
{
    c_answers::of_joined(join::join(out, first, second))
}

// The version of this library: a million times the major number, a thousand times the minor one, and the patch.
pub fn fringewell_version() -> u32
    ensures { result ≡ 10000 }
{
    10000
}

// The writer's state, which C lends: 406 words.
#[repr(C)]
#[derive(Clone, Copy)]
pub struct State {
    pub words: Words,
}

// A fresh state: nothing used, nothing open.
pub fn fringewell_state_new() -> State
    ensures { result.words ≡ writer.fresh }
{
    State {
        words: [0; writer_state::WORDS],
    }
}

// Opens the top.
pub fn fringewell_state_open(words: &mut Words, out: &mut [u8]) -> WrittenNumbers
    ensures { leaves result words.new out.new
        ≡ performs (writer.open_top) words.old out.old }
{
    let done = nesting::open_top(out, words);
    c_answers::of_written(done, words)
}

// Opens a document in the innermost.
pub fn fringewell_state_open_document(
    words: &mut Words,
    out: &mut [u8],
    key: &[u8],
) -> WrittenNumbers
    ensures { leaves result words.new out.new
        ≡ performs (writer.open_nest grammar.document key.now) words.old out.old }
{
    let done = nesting::open_document(out, words, key);
    c_answers::of_written(done, words)
}

// Opens an array in the innermost.
pub fn fringewell_state_open_array(words: &mut Words, out: &mut [u8], key: &[u8]) -> WrittenNumbers
    ensures { leaves result words.new out.new
        ≡ performs (writer.open_nest grammar.array key.now) words.old out.old }
{
    let done = nesting::open_array(out, words, key);
    c_answers::of_written(done, words)
}

// Closes the innermost.
pub fn fringewell_state_close(words: &mut Words, out: &mut [u8]) -> WrittenNumbers
    ensures { leaves result words.new out.new
        ≡ performs (writer.close) words.old out.old }
{
    let done = nesting::close(out, words);
    c_answers::of_written(done, words)
}

// Appends a double by its bits.
pub fn fringewell_state_append_double(
    words: &mut Words,
    out: &mut [u8],
    key: &[u8],
    bits: u64,
) -> WrittenNumbers
    ensures { leaves result words.new out.new
        ≡ performs (writer.append key.now (value.double bits)) words.old out.old }
{
    let done = append_scalars::append_double(out, words, key, bits);
    c_answers::of_written(done, words)
}

// Appends a boolean.
pub fn fringewell_state_append_bool(
    words: &mut Words,
    out: &mut [u8],
    key: &[u8],
    b: bool,
) -> WrittenNumbers
    ensures { leaves result words.new out.new
        ≡ performs (writer.append key.now (value.boolean b)) words.old out.old }
{
    let done = append_scalars::append_bool(out, words, key, b);
    c_answers::of_written(done, words)
}

// Appends an int32.
pub fn fringewell_state_append_int32(
    words: &mut Words,
    out: &mut [u8],
    key: &[u8],
    n: i32,
) -> WrittenNumbers
    ensures { leaves result words.new out.new
        ≡ performs (writer.append key.now (value.int32 n)) words.old out.old }
{
    let done = append_scalars::append_int32(out, words, key, n);
    c_answers::of_written(done, words)
}

// Appends an int64.
pub fn fringewell_state_append_int64(
    words: &mut Words,
    out: &mut [u8],
    key: &[u8],
    n: i64,
) -> WrittenNumbers
    ensures { leaves result words.new out.new
        ≡ performs (writer.append key.now (value.int64 n)) words.old out.old }
{
    let done = append_scalars::append_int64(out, words, key, n);
    c_answers::of_written(done, words)
}

// Appends a datetime, in milliseconds since 1970.
pub fn fringewell_state_append_datetime(
    words: &mut Words,
    out: &mut [u8],
    key: &[u8],
    n: i64,
) -> WrittenNumbers
    ensures { leaves result words.new out.new
        ≡ performs (writer.append key.now (value.date_time n)) words.old out.old }
{
    let done = append_scalars::append_datetime(out, words, key, n);
    c_answers::of_written(done, words)
}

// Appends a timestamp.
pub fn fringewell_state_append_timestamp(
    words: &mut Words,
    out: &mut [u8],
    key: &[u8],
    increment: u32,
    seconds: u32,
) -> WrittenNumbers
    ensures { leaves result words.new out.new
        ≡ performs (writer.append key.now (value.timestamp increment seconds)) words.old out.old }
{
    let done = append_scalars::append_timestamp(out, words, key, increment, seconds);
    c_answers::of_written(done, words)
}

// Appends a null.
pub fn fringewell_state_append_null(words: &mut Words, out: &mut [u8], key: &[u8]) -> WrittenNumbers
    ensures { leaves result words.new out.new
        ≡ performs (writer.append key.now value.null) words.old out.old }
{
    let done = append_scalars::append_null(out, words, key);
    c_answers::of_written(done, words)
}

// Appends an undefined.
pub fn fringewell_state_append_undefined(
    words: &mut Words,
    out: &mut [u8],
    key: &[u8],
) -> WrittenNumbers
    ensures { leaves result words.new out.new
        ≡ performs (writer.append key.now value.undefined) words.old out.old }
{
    let done = append_scalars::append_undefined(out, words, key);
    c_answers::of_written(done, words)
}

// Appends a min key.
pub fn fringewell_state_append_min_key(
    words: &mut Words,
    out: &mut [u8],
    key: &[u8],
) -> WrittenNumbers
    ensures { leaves result words.new out.new
        ≡ performs (writer.append key.now value.min_key) words.old out.old }
{
    let done = append_scalars::append_min_key(out, words, key);
    c_answers::of_written(done, words)
}

// Appends a max key.
pub fn fringewell_state_append_max_key(
    words: &mut Words,
    out: &mut [u8],
    key: &[u8],
) -> WrittenNumbers
    ensures { leaves result words.new out.new
        ≡ performs (writer.append key.now value.max_key) words.old out.old }
{
    let done = append_scalars::append_max_key(out, words, key);
    c_answers::of_written(done, words)
}

// Appends a string.
pub fn fringewell_state_append_string(
    words: &mut Words,
    out: &mut [u8],
    key: &[u8],
    text: &[u8],
) -> WrittenNumbers
    ensures { leaves result words.new out.new
        ≡ performs (writer.append key.now (value.string text.now)) words.old out.old }
{
    let done = append_bytes::append_string(out, words, key, text);
    c_answers::of_written(done, words)
}

// Appends JavaScript code.
pub fn fringewell_state_append_code(
    words: &mut Words,
    out: &mut [u8],
    key: &[u8],
    text: &[u8],
) -> WrittenNumbers
    ensures { leaves result words.new out.new
        ≡ performs (writer.append key.now (value.code text.now)) words.old out.old }
{
    let done = append_bytes::append_code(out, words, key, text);
    c_answers::of_written(done, words)
}

// Appends a symbol.
pub fn fringewell_state_append_symbol(
    words: &mut Words,
    out: &mut [u8],
    key: &[u8],
    text: &[u8],
) -> WrittenNumbers
    ensures { leaves result words.new out.new
        ≡ performs (writer.append key.now (value.symbol text.now)) words.old out.old }
{
    let done = append_bytes::append_symbol(out, words, key, text);
    c_answers::of_written(done, words)
}

// Appends binary data.
pub fn fringewell_state_append_binary(
    words: &mut Words,
    out: &mut [u8],
    key: &[u8],
    subtype: u8,
    contents: &[u8],
) -> WrittenNumbers
    ensures { leaves result words.new out.new
        ≡ performs (writer.append key.now (value.binary subtype contents.now)) words.old
        out.old }
{
    let done = append_bytes::append_binary(out, words, key, subtype, contents);
    c_answers::of_written(done, words)
}

// Appends a regular expression.
pub fn fringewell_state_append_regex(
    words: &mut Words,
    out: &mut [u8],
    key: &[u8],
    pattern: &[u8],
    options: &[u8],
) -> WrittenNumbers
    ensures { leaves result words.new out.new
        ≡ performs (writer.append key.now (value.regex pattern.now options.now)) words.old
        out.old }
{
    let done = append_bytes::append_regex(out, words, key, pattern, options);
    c_answers::of_written(done, words)
}

// Appends a DBPointer.
pub fn fringewell_state_append_dbpointer(
    words: &mut Words,
    out: &mut [u8],
    key: &[u8],
    namespace: &[u8],
    id: &[u8; 12],
) -> WrittenNumbers
    ensures { leaves result words.new out.new
        ≡ performs (writer.append key.now (value.db_pointer namespace.now id.now)) words.old
        out.old }
{
    let done = append_bytes::append_dbpointer(out, words, key, namespace, id);
    c_answers::of_written(done, words)
}

// Appends an ObjectId.
pub fn fringewell_state_append_object_id(
    words: &mut Words,
    out: &mut [u8],
    key: &[u8],
    id: &[u8; 12],
) -> WrittenNumbers
    ensures { leaves result words.new out.new
        ≡ performs (writer.append key.now (value.object_id id.now)) words.old out.old }
{
    let done = append_bytes::append_object_id(out, words, key, id);
    c_answers::of_written(done, words)
}

// Appends a decimal128 by its bits.
pub fn fringewell_state_append_decimal128(
    words: &mut Words,
    out: &mut [u8],
    key: &[u8],
    bits: &[u8; 16],
) -> WrittenNumbers
    ensures { leaves result words.new out.new
        ≡ performs (writer.append key.now (value.decimal128 bits.now)) words.old out.old }
{
    let done = append_bytes::append_decimal128(out, words, key, bits);
    c_answers::of_written(done, words)
}
