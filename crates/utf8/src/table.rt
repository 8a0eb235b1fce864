// Whether bytes are UTF-8 (RFC 3629), by a class for each byte and a move for each class and state (RULES.md, request 8).
ghost use Rattle.std.specs.Prelude.{◌-◌, ◌%◌, ◌≤◌, ◌≡◌};
ghost use Rattle.bson.specs.Utf8.{utf8};
ghost use Rattle.utf8.specs.Chunks.{chunk, at_least_one, Begins};
ghost use Rattle.utf8.specs.Moves.{move_of};

use crate::chunks::Chunk;

// The class of each byte: those of one class are alike behind whatever comes before them.
#[rattlefmt::skip]
static CLASSES: [u8; 256] = [
    0, 0, 0, 0, 0, 0, 0, 0, 0, 0, 0, 0, 0, 0, 0, 0, // 00 to 0F
    0, 0, 0, 0, 0, 0, 0, 0, 0, 0, 0, 0, 0, 0, 0, 0, // 10 to 1F
    0, 0, 0, 0, 0, 0, 0, 0, 0, 0, 0, 0, 0, 0, 0, 0, // 20 to 2F
    0, 0, 0, 0, 0, 0, 0, 0, 0, 0, 0, 0, 0, 0, 0, 0, // 30 to 3F
    0, 0, 0, 0, 0, 0, 0, 0, 0, 0, 0, 0, 0, 0, 0, 0, // 40 to 4F
    0, 0, 0, 0, 0, 0, 0, 0, 0, 0, 0, 0, 0, 0, 0, 0, // 50 to 5F
    0, 0, 0, 0, 0, 0, 0, 0, 0, 0, 0, 0, 0, 0, 0, 0, // 60 to 6F
    0, 0, 0, 0, 0, 0, 0, 0, 0, 0, 0, 0, 0, 0, 0, 0, // 70 to 7F
    1, 1, 1, 1, 1, 1, 1, 1, 1, 1, 1, 1, 1, 1, 1, 1, // 80 to 8F
    2, 2, 2, 2, 2, 2, 2, 2, 2, 2, 2, 2, 2, 2, 2, 2, // 90 to 9F
    3, 3, 3, 3, 3, 3, 3, 3, 3, 3, 3, 3, 3, 3, 3, 3, // A0 to AF
    3, 3, 3, 3, 3, 3, 3, 3, 3, 3, 3, 3, 3, 3, 3, 3, // B0 to BF
    4, 4, 5, 5, 5, 5, 5, 5, 5, 5, 5, 5, 5, 5, 5, 5, // C0 to CF
    5, 5, 5, 5, 5, 5, 5, 5, 5, 5, 5, 5, 5, 5, 5, 5, // D0 to DF
    6, 7, 7, 7, 7, 7, 7, 7, 7, 7, 7, 7, 7, 8, 7, 7, // E0 to EF
    9, 10, 10, 10, 11, 4, 4, 4, 4, 4, 4, 4, 4, 4, 4, 4, // F0 to FF
];

// The state behind a byte, for its class and each state before it. A state says how far the class's number is shifted to the right: the two
// octal digits that are then the last are the state behind. 00: no character is begun. 06, 14, 22: one, two, three tails are to come; 30,
// 36, 44, 52: those behind E0, ED, F0, F4. 60: no character fits.
#[rattlefmt::skip]
static MOVES: [u64; 12] = [
    //60 52 44 36 30 22 14 06 00 before
    0o60_60_60_60_60_60_60_60_00, // 0: 00 to 7F
    0o60_14_60_06_60_14_06_00_60, // 1: 80 to 8F
    0o60_60_14_06_60_14_06_00_60, // 2: 90 to 9F
    0o60_60_14_60_06_14_06_00_60, // 3: A0 to BF
    0o60_60_60_60_60_60_60_60_60, // 4: C0, C1, F5 to FF
    0o60_60_60_60_60_60_60_60_06, // 5: C2 to DF
    0o60_60_60_60_60_60_60_60_30, // 6: E0
    0o60_60_60_60_60_60_60_60_14, // 7: E1 to EC, EE, EF
    0o60_60_60_60_60_60_60_60_36, // 8: ED
    0o60_60_60_60_60_60_60_60_44, // 9: F0
    0o60_60_60_60_60_60_60_60_22, // 10: F1 to F3
    0o60_60_60_60_60_60_60_60_52, // 11: F4
];

// The state behind b, in the six lowest bits.
fn after(state: u64, b: u8) -> u64
    ensures { result ≡ move_of CLASSES MOVES (state % 64) b }
{
    let class = CLASSES[b as usize] as usize;
    MOVES[class] >> (state % 64)
}

// Whether s is UTF-8.
pub fn by_table(s: &[u8]) -> bool
    ensures { result ≡ utf8 s.now }
{
    let mut state = 0;
    for b in s {
        state = after(state, *b);
    }
    state % 64 == 0
}

// The state in which no character fits.
const NO_CHARACTER: u64 = 0o60;

// How many bytes are judged before one looks for blocks of ASCII again.
const STRETCH: usize = 32;

// A chunk whose bad part is ended by the byte at i, which is looked at anew: it may begin a character, unless it is the part itself.
fn broken(valid: usize, i: usize) -> Chunk
    requires { valid ≤ i }
    ensures { result ≡ chunk valid (at_least_one (i - valid)) }
{
    if i == valid {
        return Chunk { valid, invalid: 1 };
    }
    Chunk {
        valid,
        invalid: i - valid,
    }
}

// Characters in front of a text, to the first bad part, the end of the text or that of a stretch; and the bytes of the bad part, if it is
// there.
pub fn some_characters(v: &[u8]) -> Chunk
    ensures { Begins v.now result.valid result.invalid }
{
    let mut valid = 0;
    let mut left = 0;
    for i in 0..v.len() {
        if STRETCH <= valid {
            return Chunk { valid, invalid: 0 };
        }
        left = after(left, v[i]);
        if left % 64 == NO_CHARACTER {
            return broken(valid, i);
        }
        if left % 64 == 0 {
            valid = i + 1;
        }
    }
    Chunk {
        valid,
        invalid: v.len() - valid,
    }
}
