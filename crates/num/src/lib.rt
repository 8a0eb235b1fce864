// Little-endian numbers at the front of a slice (src/raw.rs of the Rust).
#![tactic(auto, unfolding(bson::specs::Bytes::le32, bson::specs::Bytes::le64, bson::specs::Bytes::i32, bson::specs::Bytes::i64, bson::specs::Framing::fits, bson::specs::Value::bool, bson::specs::Value::timestamp_of))]

ghost use Rattle.std.specs.Prelude.{◌≡◌, ◌≤◌, ◌<◌, length};
ghost use Rattle.bson.specs.Bytes.{le32, le64, signed, i32, i64};
ghost use Rattle.bson.specs.Framing.{in_front};
ghost use Rattle.bson.specs.Value.{bool, timestamp_of};
ghost use Rattle.refusal.specs.Said.{said, said_by};
ghost use Rattle.num.specs.Said.{said_timestamp};

use refusal::Refusal;

// Two numbers of four bytes each.
#[derive(Clone, Copy)]
pub struct Timestamp {
    pub increment: u32,
    pub seconds: u32,
}

fn word(v: &[u8]) -> u32
    requires { 4 ≤ length v.now }
    ensures { result ≡ le32 v.now }
{
    u32::from_le_bytes([v[0], v[1], v[2], v[3]])
}

fn double_word(v: &[u8]) -> u64
    requires { 8 ≤ length v.now }
    ensures { result ≡ le64 v.now }
{
    u64::from_le_bytes([v[0], v[1], v[2], v[3], v[4], v[5], v[6], v[7]])
}

#[tactic(auto, using(crate::proofs::Signed::cast_signed_law), unfolding(bson::specs::Bytes::signed))]
fn signed32(x: u32) -> i32
    ensures { result ≡ signed 0x8000_0000 x }
{
    u32::cast_signed(x)
}

#[tactic(auto, using(crate::proofs::Signed::cast_signed_law), unfolding(bson::specs::Bytes::signed))]
fn signed64(x: u64) -> i64
    ensures { result ≡ signed 0x8000_0000_0000_0000 x }
{
    u64::cast_signed(x)
}

// The unsigned number of the four bytes in front; refuses a shorter slice with 9.
pub fn u32_from_slice(v: &[u8]) -> Result<u32, Refusal>
    ensures { said result ≡ in_front 4 le32 v.now }
{
    if 4 <= v.len() {
        Ok(word(v))
    } else {
        Err(Refusal::PastTheSlice)
    }
}

// The signed number of the four bytes in front; refuses a shorter slice with 9.
pub fn i32_from_slice(v: &[u8]) -> Result<i32, Refusal>
    ensures { said result ≡ in_front 4 i32 v.now }
{
    if 4 <= v.len() {
        Ok(signed32(word(v)))
    } else {
        Err(Refusal::PastTheSlice)
    }
}

// The signed number of the eight bytes in front; refuses a shorter slice with 9.
pub fn i64_from_slice(v: &[u8]) -> Result<i64, Refusal>
    ensures { said result ≡ in_front 8 i64 v.now }
{
    if 8 <= v.len() {
        Ok(signed64(double_word(v)))
    } else {
        Err(Refusal::PastTheSlice)
    }
}

// The bits of the double in front, eight bytes; refuses a shorter slice with 9.
pub fn f64_from_slice(v: &[u8]) -> Result<u64, Refusal>
    ensures { said result ≡ in_front 8 le64 v.now }
{
    if 8 <= v.len() {
        Ok(double_word(v))
    } else {
        Err(Refusal::PastTheSlice)
    }
}

// Whether the byte in front is 1; refuses an empty slice with 9 and a byte above 1 with 11.
pub fn bool_from_slice(v: &[u8]) -> Result<bool, Refusal>
    ensures { said result ≡ bool v.now }
{
    if v.len() < 1 {
        return Err(Refusal::PastTheSlice);
    }
    if 1 < v[0] {
        return Err(Refusal::BadBoolean);
    }
    Ok(v[0] == 1)
}

// The increment, then the seconds, four bytes each; refuses a slice under eight bytes with 9.
pub fn timestamp_from_slice(v: &[u8]) -> Result<Timestamp, Refusal>
    ensures { said_by said_timestamp result ≡ timestamp_of v.now }
{
    if v.len() < 8 {
        return Err(Refusal::PastTheSlice);
    }
    let increment = word(v);
    let seconds = word(&v[4..]);
    Ok(Timestamp { increment, seconds })
}
