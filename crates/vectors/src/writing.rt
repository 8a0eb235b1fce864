// Replays a session of the writer, `write ROOM; CALL; CALL; ..`: a buffer of bytes that are all EE, a fresh state, and the calls in order.
// The line is printed again with what each call returned, the used bytes, the whole buffer, and where the top
// is closed the whole check of it.
//
// A call is a word and its fields; bytes are hexadecimal, a `-` names none, and all other numbers but a subtype are decimal:
//     open, close
//     document, array, null, undefined, minkey, maxkey KEY
//     boolean, int32, int64, datetime KEY N; double KEY BITS; timestamp KEY INCREMENT SECONDS
//     string, code, symbol KEY TEXT; binary KEY SUBTYPE DATA; regex KEY PATTERN OPTIONS
//     dbpointer KEY NAMESPACE ID; objectid KEY ID; decimal128 KEY BYTES
// `word I N` is no call: it stores a word of the state. A room has at most 2,048 bytes, a key 256, any other field 1,024.
use crate::places::say_verdict;
use crate::text::{Hex, byte_of, field, head_of, number_of, unhex, unhex_array};
use doc_writer::DocWriter;
use refusal::Refusal;
use std::io;

// The number that decimal digits name, below 0 behind a minus, which names no digit; one that is too far is the least.
fn int64_of(digits: &[u8]) -> i64 {
    match i64::try_from(number_of(digits)) {
        Ok(n) if digits.starts_with(b"-") => -n,
        Ok(n) => n,
        Err(_) => i64::MIN,
    }
}

fn int32_of(digits: &[u8]) -> i32 {
    i32::try_from(int64_of(digits)).unwrap_or(i32::MIN)
}

// The word that decimal digits name; 0 where it is none.
fn word_of(digits: &[u8]) -> u32 {
    u32::try_from(number_of(digits)).unwrap_or(0)
}

// What a call answers by its word; none where it is no call.
fn perform(
    call: &[u8],
    out: &mut [u8],
    w: &mut DocWriter,
    key: &[u8],
    first: &[u8],
    second: &[u8],
) -> Option<Result<(), Refusal>> {
    let a = field(call, 2);
    let b = field(call, 3);
    Some(match field(call, 0) {
        b"open" => w.open(out),
        b"close" => w.close(out),
        b"document" => w.open_document(out, key),
        b"array" => w.open_array(out, key),
        b"null" => w.append_null(out, key),
        b"undefined" => w.append_undefined(out, key),
        b"minkey" => w.append_min_key(out, key),
        b"maxkey" => w.append_max_key(out, key),
        b"boolean" => w.append_bool(out, key, number_of(a) == 1),
        b"int32" => w.append_int32(out, key, int32_of(a)),
        b"int64" => w.append_int64(out, key, int64_of(a)),
        b"datetime" => w.append_datetime(out, key, int64_of(a)),
        b"double" => w.append_double(out, key, number_of(a) as u64),
        b"timestamp" => w.append_timestamp(out, key, word_of(a), word_of(b)),
        b"string" => w.append_string(out, key, first),
        b"code" => w.append_code(out, key, first),
        b"symbol" => w.append_symbol(out, key, first),
        b"binary" => w.append_binary(out, key, byte_of(a), second),
        b"regex" => w.append_regex(out, key, first, second),
        b"dbpointer" => w.append_dbpointer(out, key, first, &unhex_array(b)),
        b"objectid" => w.append_object_id(out, key, &unhex_array(a)),
        b"decimal128" => w.append_decimal128(out, key, &unhex_array(a)),
        _ => return None,
    })
}

// The number that a call answers; 255, which no call answers, where it is none.
fn number_answered(call: &[u8], out: &mut [u8], w: &mut DocWriter) -> u8 {
    let mut key_space = [0; 256];
    let mut first_space = [0; 1024];
    let mut second_space = [0; 1024];
    let key = unhex(field(call, 1), &mut key_space);
    let first = unhex(field(call, 2), &mut first_space);
    let second = unhex(field(call, 3), &mut second_space);
    match perform(call, out, w, key, first, second) {
        Some(Ok(())) => 0,
        Some(Err(why)) => why.number(),
        None => 255,
    }
}

fn replay_call(rt: &impl Print, call: &[u8], out: &mut [u8], w: &mut DocWriter) -> io::Result<()> {
    if cstr::equal(field(call, 0), b"word") {
        if let Some(word) = w.words.get_mut(number_of(field(call, 1))) {
            *word = word_of(field(call, 2));
        }
        return Ok(());
    }
    let number = number_answered(call, out, w);
    print!(rt; " {number}")
}

// What the session leaves: the used bytes, the buffer, and the whole check of a top that is closed.
fn say_left(rt: &impl Print, out: &[u8], w: &DocWriter) -> io::Result<()> {
    let used = w.words[0] as usize;
    let depth = w.words[1];
    print!(rt; ", used {used} of {}", Hex(out))?;
    if depth == 0 && 0 < used && used <= out.len() {
        print!(rt; ", ")?;
        say_verdict(rt, whole::check(&out[..used], None))?;
    }
    println!(rt; "")
}

pub fn replay_session(rt: &impl Print, line: &[u8]) -> io::Result<()> {
    let room = number_of(field(head_of(line), 1));
    if 2048 < room {
        return println!(rt; "too much room");
    }
    let mut space = [0xEE; 2048];
    let out = &mut space[..room];
    let mut w = DocWriter::new();
    rt.write_all(line)?;
    rt.write_all(b" gives")?;
    for behind in line.split(|b| *b == b';').skip(1) {
        // where no space follows the `;`, it is no call
        let call = behind.strip_prefix(b" ").unwrap_or(b";");
        replay_call(rt, call, out, &mut w)?;
    }
    say_left(rt, out, &w)
}
