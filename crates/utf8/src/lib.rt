// Whether bytes are UTF-8 (RFC 3629): blocks of ASCII are passed over, then a long rest is judged by window, a short one by table.
#![tactic(auto)]

pub mod chunks;
mod table;
mod window;

ghost use Rattle.std.specs.Prelude.{◌-◌, ◌≡◌, length, drop};
ghost use Rattle.bson.specs.Utf8.{utf8};
ghost use Rattle.utf8.specs.Ascii.{ascii_of};

// Whether every byte is below 128. The loop has no way out, so that it is done sixteen bytes at a time.
fn ascii(v: &[u8]) -> bool
    ensures { result ≡ ascii_of v.now }
{
    let mut all = 0;
    for b in v {
        all |= *b;
    }
    all < 128
}

// Whether v is UTF-8, where not all of it is ASCII: a long one by window, a short one by table.
fn mixed(v: &[u8]) -> bool
    ensures { result ≡ utf8 v.now }
{
    if v.len() < 64 {
        return table::by_table(v);
    }
    window::by_window(v)
}

// Whether the last eight bytes are below 128, or all of fewer. Eight are tested at once, as what is left behind the blocks could not be.
fn ends_in_ascii(s: &[u8]) -> bool
    ensures { result ≡ ascii_of (drop (length s.now - 8) s.now) }
{
    if s.len() < 8 {
        return ascii(s);
    }
    let k = s.len() - 8;
    ascii(&s[k..])
}

// Whether s is UTF-8: blocks of eight ASCII bytes are passed over. For short texts.
fn by_eights(s: &[u8]) -> bool
    ensures { result ≡ utf8 s.now }
{
    let mut left = s;
    while let Some((block, behind)) = left.split_at_checked(8) {
        if !ascii(block) {
            return mixed(left);
        }
        left = behind;
    }
    if ends_in_ascii(s) {
        return true;
    }
    mixed(left)
}

// Whether s is UTF-8: blocks of ASCII are passed over. Most keys are shorter than a block, and are not to pay for the loops. `by_eights` has a
// loop of its own and does not share this one: a text of 8 to 31 bytes would take half as many instructions again.
pub fn is_utf8(s: &[u8]) -> bool
    ensures { result ≡ utf8 s.now }
{
    if s.len() < 8 {
        return ascii(s) || table::by_table(s);
    }
    let mut rest = s;
    while let Some((block, behind)) = rest.split_at_checked(32) {
        if !ascii(block) {
            return mixed(rest);
        }
        rest = behind;
    }
    by_eights(rest)
}
