// Zero-ended texts at the front of a part, and keys (src/raw.rs and src/raw/cstr.rs of the Rust).
#![tactic(auto, unfolding(bson::specs::Cstring::zero_text, bson::specs::Cstring::cstring_under, bson::specs::Cstring::valid_cstr))]

ghost use Rattle.std.specs.Prelude.{◌≡◌, ◌+◌, ◌≤◌, eqb, ltb, length, drop};
ghost use Rattle.bson.specs.Bytes.{same};
ghost use Rattle.bson.specs.Cstring.{first_zero, seen, missing, zero_text, cstring_under, cstring, valid_cstr};
ghost use Rattle.refusal.specs.Said.{number, said};
ghost use Rattle.cstr.specs.Said.{limit_of};
ghost use Rattle.cstr.specs.Scan.{stops_at, plain, PlainOf};

use refusal::Refusal;

// A zero byte, or one that is not ASCII.
fn stops(b: u8) -> bool
    ensures { result ≡ stops_at b }
{
    (b == 0) | (127 < b)
}

// The offset of the first byte that stops, from an offset on; the length where there is none.
fn plain_rest(v: &[u8], from: usize) -> usize
    requires { from ≤ length v.now }
    ensures { result ≡ from + plain (drop from v.now) }
{
    for i in from..v.len() {
        if stops(v[i]) {
            return i;
        }
    }
    v.len()
}

// How many of two bytes stand before the first that stops.
fn plain_of_two(v: &[u8], offset: usize) -> usize
    requires { offset + 2 ≤ length v.now }
    ensures { PlainOf 2 v.now offset result }
{
    if stops(v[offset]) {
        return 0;
    }
    if stops(v[offset + 1]) {
        return 1;
    }
    2
}

// How many of four.
fn plain_of_four(v: &[u8], offset: usize) -> usize
    requires { offset + 4 ≤ length v.now }
    ensures { PlainOf 4 v.now offset result }
{
    let n = plain_of_two(v, offset);
    if n < 2 {
        return n;
    }
    2 + plain_of_two(v, offset + 2)
}

// How many bytes stand before the first that stops, four a turn.
fn plain_end(v: &[u8]) -> usize
    ensures { result ≡ plain v.now }
{
    let mut i = 0;
    while 4 <= v.len() - i {
        let n = plain_of_four(v, i);
        if n < 4 {
            return i + n;
        }
        i += 4;
    }
    plain_rest(v, i)
}

// The offset of the first zero byte, or the length where there is none.
pub fn first_zero(text: &[u8]) -> usize
    ensures { result ≡ first_zero text.now }
{
    for i in 0..text.len() {
        if text[i] == 0 {
            return i;
        }
    }
    text.len()
}

// What a limit lets be looked at.
fn cut<'a>(v: &'a [u8], limit: Option<usize>) -> &'a [u8]
    ensures { result.now ≡ seen (limit_of limit) v.now }
{
    match limit {
        Some(most) if most < v.len() => {
            let end = most + 1;
            &v[..end]
        }
        _ => v,
    }
}

// Why a text without a zero byte is refused: 5, under a limit 22.
fn missing(limit: Option<usize>) -> Refusal
    ensures { number result ≡ missing (limit_of limit) }
{
    match limit {
        None => Refusal::NoZero,
        Some(_) => Refusal::TooLong,
    }
}

// Two passes: the zero byte, then UTF-8.
fn read_mixed(v: &[u8], missing: Refusal) -> Result<usize, Refusal>
    ensures { said result ≡ zero_text (number missing) v.now }
{
    let n = first_zero(v);
    if n < v.len() {
        if utf8::is_utf8(&v[..n]) {
            return Ok(n);
        }
        return Err(Refusal::NotUtf8);
    }
    Err(missing)
}

// The size of the text in front of the first zero byte: 5 where there is none, 6 where the text is not UTF-8. Under a limit so many bytes
// and one more are looked at: 22 where no zero is among them.
pub fn read_cstring_with_max_len(buf: &[u8], limit: Option<usize>) -> Result<usize, Refusal>
    ensures { said result ≡ cstring_under (limit_of limit) buf.now }
{
    let v = cut(buf, limit);
    let i = plain_end(v);
    if i < v.len() {
        if v[i] == 0 {
            return Ok(i);
        }
        return read_mixed(v, missing(limit));
    }
    Err(missing(limit))
}

// The same without a limit: 5, 6.
pub fn read_cstring(v: &[u8]) -> Result<usize, Refusal>
    ensures { said result ≡ cstring v.now }
{
    read_cstring_with_max_len(v, None)
}

// Whether one of four bytes stops. With `|` all tests lead to one branch.
fn stops_in_four(v: &[u8], offset: usize) -> bool
    requires { offset + 4 ≤ length v.now }
    ensures { result ≡ ltb (plain (drop offset v.now)) 4 }
{
    (stops(v[offset]) | stops(v[offset + 1])) | (stops(v[offset + 2]) | stops(v[offset + 3]))
}

// Whether no byte stops, four a turn.
fn is_plain(k: &[u8]) -> bool
    ensures { result ≡ eqb (plain k.now) (length k.now) }
{
    let mut i = 0;
    while 4 <= k.len() - i {
        if stops_in_four(k, i) {
            return false;
        }
        i += 4;
    }
    plain_rest(k, i) == k.len()
}

// Two passes: a zero byte, then UTF-8.
fn is_valid_mixed(k: &[u8]) -> bool
    ensures { result ≡ valid_cstr k.now }
{
    if first_zero(k) == k.len() {
        return utf8::is_utf8(k);
    }
    false
}

// Whether the bytes can be a key, a pattern or options: UTF-8 and no zero byte.
pub fn is_valid_cstr(k: &[u8]) -> bool
    ensures { result ≡ valid_cstr k.now }
{
    if is_plain(k) {
        return true;
    }
    is_valid_mixed(k)
}

// Whether two keys have equal bytes.
#[tactic(auto, using(laws::proofs::BytesLaws::same_length, crate::proofs::Prefix::same_prefix))]
pub fn equal(a: &[u8], b: &[u8]) -> bool
    ensures { result ≡ same a.now b.now }
{
    a == b
}
