// The functions that the C service calls, by their names in C: each is one call of the function of `fringewell` that has its name, and
// promises the same. include/fringewell.h says them to C, and `c_answers` has the layouts of what they answer.
#![tactic(auto)]

ghost use Rattle.std.specs.Prelude.{◌≡◌, true, false};
ghost use Rattle.bson.specs.Check.{check_under, check};
ghost use Rattle.bson.specs.Cstring.{most};
ghost use Rattle.bson.specs.Grammar as grammar;
ghost use Rattle.bson.specs.Lookup.{get_under, get_with_under, get_at_under, get, get_with, get_at, is_empty};
ghost use Rattle.bson.specs.Path.{get_path_under, get_path_with_under, get_path, get_path_with};
ghost use Rattle.bson.specs.Step.{cursor};
ghost use Rattle.bson.specs.Value as value;
ghost use Rattle.bson.specs.Writer as writer;
ghost use Rattle.c_answers.specs.Numbers.{verdict, emptiness, found};
ghost use Rattle.fringewell.specs.Left.{steps_under, steps, reads_under, reads, left, shows_under, shows, joins, leaves, performs};

use c_answers::{
    ElementNumbers, JoinedNumbers, ShownNumbers, StepNumbers, ValueNumbers, VerdictNumbers,
    WrittenNumbers,
};
use fringewell::State;
use writer_state::Words;

// The plain check.
#[unsafe(no_mangle)]
pub extern "C" fn fringewell_check(document: &[u8]) -> VerdictNumbers
    ensures { result ≡ verdict (check false document.now) }
{
    fringewell::fringewell_check(document)
}

// The plain check, under a limit on keys, patterns and options.
#[unsafe(no_mangle)]
pub extern "C" fn fringewell_check_under(document: &[u8], limit: usize) -> VerdictNumbers
    ensures { result ≡ verdict (check_under (most limit) false document.now) }
{
    fringewell::fringewell_check_under(document, limit)
}

// The strict check.
#[unsafe(no_mangle)]
pub extern "C" fn fringewell_check_strict(document: &[u8]) -> VerdictNumbers
    ensures { result ≡ verdict (check true document.now) }
{
    fringewell::fringewell_check_strict(document)
}

// The strict check, under a limit.
#[unsafe(no_mangle)]
pub extern "C" fn fringewell_check_strict_under(document: &[u8], limit: usize) -> VerdictNumbers
    ensures { result ≡ verdict (check_under (most limit) true document.now) }
{
    fringewell::fringewell_check_strict_under(document, limit)
}

// Admission, and whether the document has no element.
#[unsafe(no_mangle)]
pub extern "C" fn fringewell_is_empty(document: &[u8]) -> VerdictNumbers
    ensures { result ≡ emptiness (is_empty document.now) }
{
    fringewell::fringewell_is_empty(document)
}

// The first element of a key.
#[unsafe(no_mangle)]
pub extern "C" fn fringewell_lookup(document: &[u8], key: &[u8]) -> ValueNumbers
    ensures { result ≡ found (get document.now key.now) }
{
    fringewell::fringewell_lookup(document, key)
}

// The first element of a key, under a limit.
#[unsafe(no_mangle)]
pub extern "C" fn fringewell_lookup_under(document: &[u8], key: &[u8], limit: usize) -> ValueNumbers
    ensures { result ≡ found (get_under (most limit) document.now key.now) }
{
    fringewell::fringewell_lookup_under(document, key, limit)
}

// The first element of a key, whose value must have this tag.
#[unsafe(no_mangle)]
pub extern "C" fn fringewell_lookup_typed(document: &[u8], key: &[u8], tag: u8) -> ValueNumbers
    ensures { result ≡ found (get_with document.now key.now tag) }
{
    fringewell::fringewell_lookup_typed(document, key, tag)
}

// The first element of a key, whose value must have this tag, under a limit.
#[unsafe(no_mangle)]
pub extern "C" fn fringewell_lookup_typed_under(
    document: &[u8],
    key: &[u8],
    tag: u8,
    limit: usize,
) -> ValueNumbers
    ensures { result ≡ found (get_with_under (most limit) document.now key.now tag) }
{
    fringewell::fringewell_lookup_typed_under(document, key, tag, limit)
}

// What a path leads to.
#[unsafe(no_mangle)]
pub extern "C" fn fringewell_path(document: &[u8], path: &[u8]) -> ValueNumbers
    ensures { result ≡ found (get_path document.now path.now) }
{
    fringewell::fringewell_path(document, path)
}

// What a path leads to, under a limit.
#[unsafe(no_mangle)]
pub extern "C" fn fringewell_path_under(document: &[u8], path: &[u8], limit: usize) -> ValueNumbers
    ensures { result ≡ found (get_path_under (most limit) document.now path.now) }
{
    fringewell::fringewell_path_under(document, path, limit)
}

// What a path leads to, whose value must have this tag.
#[unsafe(no_mangle)]
pub extern "C" fn fringewell_path_typed(document: &[u8], path: &[u8], tag: u8) -> ValueNumbers
    ensures { result ≡ found (get_path_with document.now path.now tag) }
{
    fringewell::fringewell_path_typed(document, path, tag)
}

// What a path leads to, whose value must have this tag, under a limit.
#[unsafe(no_mangle)]
pub extern "C" fn fringewell_path_typed_under(
    document: &[u8],
    path: &[u8],
    tag: u8,
    limit: usize,
) -> ValueNumbers
    ensures { result ≡ found (get_path_with_under (most limit) document.now path.now tag) }
{
    fringewell::fringewell_path_typed_under(document, path, tag, limit)
}

// The step at a cursor, and the cursor behind it.
#[unsafe(no_mangle)]
pub extern "C" fn fringewell_step(document: &[u8], offset: usize, ended: bool) -> StepNumbers
    ensures { result ≡ steps document.now (cursor offset ended) }
{
    fringewell::fringewell_step(document, offset, ended)
}

// The step at a cursor, under a limit.
#[unsafe(no_mangle)]
pub extern "C" fn fringewell_step_under(
    document: &[u8],
    offset: usize,
    ended: bool,
    limit: usize,
) -> StepNumbers
    ensures { result ≡ steps_under (most limit) document.now (cursor offset ended) }
{
    fringewell::fringewell_step_under(document, offset, ended, limit)
}

// The element at a cursor, its value, and the cursor behind it.
#[unsafe(no_mangle)]
pub extern "C" fn fringewell_next(document: &[u8], offset: usize, ended: bool) -> ElementNumbers
    ensures { result ≡ reads document.now (cursor offset ended) }
{
    fringewell::fringewell_next(document, offset, ended)
}

// The same, under a limit.
#[unsafe(no_mangle)]
pub extern "C" fn fringewell_next_under(
    document: &[u8],
    offset: usize,
    ended: bool,
    limit: usize,
) -> ElementNumbers
    ensures { result ≡ reads_under (most limit) document.now (cursor offset ended) }
{
    fringewell::fringewell_next_under(document, offset, ended, limit)
}

// The element at a place, and its value.
#[unsafe(no_mangle)]
pub extern "C" fn fringewell_read(document: &[u8], place: usize) -> ValueNumbers
    ensures { result ≡ found (get_at document.now place) }
{
    fringewell::fringewell_read(document, place)
}

// The same, under a limit.
#[unsafe(no_mangle)]
pub extern "C" fn fringewell_read_under(document: &[u8], place: usize, limit: usize) -> ValueNumbers
    ensures { result ≡ found (get_at_under (most limit) document.now place) }
{
    fringewell::fringewell_read_under(document, place, limit)
}

// The text of the element at a place, with EF BF BD for each maximal bad part, at the front of a lent buffer.
#[unsafe(no_mangle)]
pub extern "C" fn fringewell_read_lossy(
    document: &[u8],
    place: usize,
    out: &mut [u8],
) -> ShownNumbers
    ensures { left result out.new ≡ shows document.now place out.old }
{
    fringewell::fringewell_read_lossy(document, place, out)
}

// The same, under a limit.
#[unsafe(no_mangle)]
pub extern "C" fn fringewell_read_lossy_under(
    document: &[u8],
    place: usize,
    out: &mut [u8],
    limit: usize,
) -> ShownNumbers
    ensures { left result out.new ≡ shows_under (most limit) document.now place out.old }
{
    fringewell::fringewell_read_lossy_under(document, place, out, limit)
}

// Both documents as one, at the front of a lent buffer.
#[unsafe(no_mangle)]
pub extern "C" fn fringewell_join(first: &[u8], second: &[u8], out: &mut [u8]) -> JoinedNumbers
    ensures { left result out.new ≡ joins first.now second.now out.old }
{
    fringewell::fringewell_join(first, second, out)
}

// The version of this library: a million times the major number, a thousand times the minor one, and the patch.
#[unsafe(no_mangle)]
pub extern "C" fn fringewell_version() -> u32
    ensures { result ≡ 10000 }
{
    fringewell::fringewell_version()
}

// A fresh state: nothing used, nothing open.
#[unsafe(no_mangle)]
pub extern "C" fn fringewell_state_new() -> State
    ensures { result.words ≡ writer.fresh }
{
    fringewell::fringewell_state_new()
}

// Opens the top.
#[unsafe(no_mangle)]
pub extern "C" fn fringewell_state_open(words: &mut Words, out: &mut [u8]) -> WrittenNumbers
    ensures { leaves result words.new out.new
        ≡ performs (writer.open_top) words.old out.old }
{
    fringewell::fringewell_state_open(words, out)
}

// Opens a document in the innermost.
#[unsafe(no_mangle)]
pub extern "C" fn fringewell_state_open_document(
    words: &mut Words,
    out: &mut [u8],
    key: &[u8],
) -> WrittenNumbers
    ensures { leaves result words.new out.new
        ≡ performs (writer.open_nest grammar.document key.now) words.old out.old }
{
    fringewell::fringewell_state_open_document(words, out, key)
}

// Opens an array in the innermost.
#[unsafe(no_mangle)]
pub extern "C" fn fringewell_state_open_array(
    words: &mut Words,
    out: &mut [u8],
    key: &[u8],
) -> WrittenNumbers
    ensures { leaves result words.new out.new
        ≡ performs (writer.open_nest grammar.array key.now) words.old out.old }
{
    fringewell::fringewell_state_open_array(words, out, key)
}

// Closes the innermost.
#[unsafe(no_mangle)]
pub extern "C" fn fringewell_state_close(words: &mut Words, out: &mut [u8]) -> WrittenNumbers
    ensures { leaves result words.new out.new
        ≡ performs (writer.close) words.old out.old }
{
    fringewell::fringewell_state_close(words, out)
}

// Appends a double by its bits.
#[unsafe(no_mangle)]
pub extern "C" fn fringewell_state_append_double(
    words: &mut Words,
    out: &mut [u8],
    key: &[u8],
    bits: u64,
) -> WrittenNumbers
    ensures { leaves result words.new out.new
        ≡ performs (writer.append key.now (value.double bits)) words.old out.old }
{
    fringewell::fringewell_state_append_double(words, out, key, bits)
}

// Appends a boolean.
#[unsafe(no_mangle)]
pub extern "C" fn fringewell_state_append_bool(
    words: &mut Words,
    out: &mut [u8],
    key: &[u8],
    b: bool,
) -> WrittenNumbers
    ensures { leaves result words.new out.new
        ≡ performs (writer.append key.now (value.boolean b)) words.old out.old }
{
    fringewell::fringewell_state_append_bool(words, out, key, b)
}

// Appends an int32.
#[unsafe(no_mangle)]
pub extern "C" fn fringewell_state_append_int32(
    words: &mut Words,
    out: &mut [u8],
    key: &[u8],
    n: i32,
) -> WrittenNumbers
    ensures { leaves result words.new out.new
        ≡ performs (writer.append key.now (value.int32 n)) words.old out.old }
{
    fringewell::fringewell_state_append_int32(words, out, key, n)
}

// Appends an int64.
#[unsafe(no_mangle)]
pub extern "C" fn fringewell_state_append_int64(
    words: &mut Words,
    out: &mut [u8],
    key: &[u8],
    n: i64,
) -> WrittenNumbers
    ensures { leaves result words.new out.new
        ≡ performs (writer.append key.now (value.int64 n)) words.old out.old }
{
    fringewell::fringewell_state_append_int64(words, out, key, n)
}

// Appends a datetime, in milliseconds since 1970.
#[unsafe(no_mangle)]
pub extern "C" fn fringewell_state_append_datetime(
    words: &mut Words,
    out: &mut [u8],
    key: &[u8],
    n: i64,
) -> WrittenNumbers
    ensures { leaves result words.new out.new
        ≡ performs (writer.append key.now (value.date_time n)) words.old out.old }
{
    fringewell::fringewell_state_append_datetime(words, out, key, n)
}

// Appends a timestamp.
#[unsafe(no_mangle)]
pub extern "C" fn fringewell_state_append_timestamp(
    words: &mut Words,
    out: &mut [u8],
    key: &[u8],
    increment: u32,
    seconds: u32,
) -> WrittenNumbers
    ensures { leaves result words.new out.new
        ≡ performs (writer.append key.now (value.timestamp increment seconds)) words.old out.old }
{
    fringewell::fringewell_state_append_timestamp(words, out, key, increment, seconds)
}

// Appends a null.
#[unsafe(no_mangle)]
pub extern "C" fn fringewell_state_append_null(
    words: &mut Words,
    out: &mut [u8],
    key: &[u8],
) -> WrittenNumbers
    ensures { leaves result words.new out.new
        ≡ performs (writer.append key.now value.null) words.old out.old }
{
    fringewell::fringewell_state_append_null(words, out, key)
}

// Appends an undefined.
#[unsafe(no_mangle)]
pub extern "C" fn fringewell_state_append_undefined(
    words: &mut Words,
    out: &mut [u8],
    key: &[u8],
) -> WrittenNumbers
    ensures { leaves result words.new out.new
        ≡ performs (writer.append key.now value.undefined) words.old out.old }
{
    fringewell::fringewell_state_append_undefined(words, out, key)
}

// Appends a min key.
#[unsafe(no_mangle)]
pub extern "C" fn fringewell_state_append_min_key(
    words: &mut Words,
    out: &mut [u8],
    key: &[u8],
) -> WrittenNumbers
    ensures { leaves result words.new out.new
        ≡ performs (writer.append key.now value.min_key) words.old out.old }
{
    fringewell::fringewell_state_append_min_key(words, out, key)
}

// Appends a max key.
#[unsafe(no_mangle)]
pub extern "C" fn fringewell_state_append_max_key(
    words: &mut Words,
    out: &mut [u8],
    key: &[u8],
) -> WrittenNumbers
    ensures { leaves result words.new out.new
        ≡ performs (writer.append key.now value.max_key) words.old out.old }
{
    fringewell::fringewell_state_append_max_key(words, out, key)
}

// Appends a string.
#[unsafe(no_mangle)]
pub extern "C" fn fringewell_state_append_string(
    words: &mut Words,
    out: &mut [u8],
    key: &[u8],
    text: &[u8],
) -> WrittenNumbers
    ensures { leaves result words.new out.new
        ≡ performs (writer.append key.now (value.string text.now)) words.old out.old }
{
    fringewell::fringewell_state_append_string(words, out, key, text)
}

// Appends JavaScript code.
#[unsafe(no_mangle)]
pub extern "C" fn fringewell_state_append_code(
    words: &mut Words,
    out: &mut [u8],
    key: &[u8],
    text: &[u8],
) -> WrittenNumbers
    ensures { leaves result words.new out.new
        ≡ performs (writer.append key.now (value.code text.now)) words.old out.old }
{
    fringewell::fringewell_state_append_code(words, out, key, text)
}

// Appends a symbol.
#[unsafe(no_mangle)]
pub extern "C" fn fringewell_state_append_symbol(
    words: &mut Words,
    out: &mut [u8],
    key: &[u8],
    text: &[u8],
) -> WrittenNumbers
    ensures { leaves result words.new out.new
        ≡ performs (writer.append key.now (value.symbol text.now)) words.old out.old }
{
    fringewell::fringewell_state_append_symbol(words, out, key, text)
}

// Appends binary data.
#[unsafe(no_mangle)]
pub extern "C" fn fringewell_state_append_binary(
    words: &mut Words,
    out: &mut [u8],
    key: &[u8],
    subtype: u8,
    contents: &[u8],
) -> WrittenNumbers
    ensures { leaves result words.new out.new
        ≡ performs (writer.append key.now (value.binary subtype contents.now)) words.old
        out.old }
{
    fringewell::fringewell_state_append_binary(words, out, key, subtype, contents)
}

// Appends a regular expression.
#[unsafe(no_mangle)]
pub extern "C" fn fringewell_state_append_regex(
    words: &mut Words,
    out: &mut [u8],
    key: &[u8],
    pattern: &[u8],
    options: &[u8],
) -> WrittenNumbers
    ensures { leaves result words.new out.new
        ≡ performs (writer.append key.now (value.regex pattern.now options.now)) words.old
        out.old }
{
    fringewell::fringewell_state_append_regex(words, out, key, pattern, options)
}

// Appends a DBPointer.
#[unsafe(no_mangle)]
pub extern "C" fn fringewell_state_append_dbpointer(
    words: &mut Words,
    out: &mut [u8],
    key: &[u8],
    namespace: &[u8],
    id: &[u8; 12],
) -> WrittenNumbers
    ensures { leaves result words.new out.new
        ≡ performs (writer.append key.now (value.db_pointer namespace.now id.now)) words.old
        out.old }
{
    fringewell::fringewell_state_append_dbpointer(words, out, key, namespace, id)
}

// Appends an ObjectId.
#[unsafe(no_mangle)]
pub extern "C" fn fringewell_state_append_object_id(
    words: &mut Words,
    out: &mut [u8],
    key: &[u8],
    id: &[u8; 12],
) -> WrittenNumbers
    ensures { leaves result words.new out.new
        ≡ performs (writer.append key.now (value.object_id id.now)) words.old out.old }
{
    fringewell::fringewell_state_append_object_id(words, out, key, id)
}

// Appends a decimal128 by its bits.
#[unsafe(no_mangle)]
pub extern "C" fn fringewell_state_append_decimal128(
    words: &mut Words,
    out: &mut [u8],
    key: &[u8],
    bits: &[u8; 16],
) -> WrittenNumbers
    ensures { leaves result words.new out.new
        ≡ performs (writer.append key.now (value.decimal128 bits.now)) words.old out.old }
{
    fringewell::fringewell_state_append_decimal128(words, out, key, bits)
}
