// How long a document may be, how deep a value may lie, and how many keys a path may have (RULES.md, "The whole check", "Writer and
// joining", request 1).
#![tactic(auto)]

// The largest length that a length field, an int32, can say.
pub const MAX_LEN: usize = 2147483647;

// The least number that is negative as an int32.
pub const NEGATIVE: u32 = 0x8000_0000;

// The depth of the deepest values; top values have depth 0.
pub const MAX_DEPTH: usize = 200;

// The keys of the longest path, which leads to one of these.
pub const MAX_KEYS: usize = 201;
