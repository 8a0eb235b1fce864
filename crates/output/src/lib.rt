// A text put into a lent buffer, all of it or nothing (RULES.md, "What every answer is bound to").
#![tactic(auto)]

ghost use Rattle.std.specs.Prelude.{◌≡◌, ◌+◌, ◌≤◌, ◌<◌, leb, length, take, drop};
ghost use Rattle.bson.specs.Output.{put};
ghost use Rattle.output.specs.Puts.{Puts};

// Whether so many bytes from an offset on lie in a buffer of this length.
pub fn fits(len: usize, at: usize, size: usize) -> bool
    ensures { result ≡ leb (at + size) len }
{
    if at <= len {
        return size <= len - at;
    }
    false
}

// Copies two bytes, both read before either is stored: one load and one store. By `copy_from_slice` on parts of two and four bytes a text of
// 63 bytes would take twice the instructions.
fn copy_two(out: &mut [u8], at: usize, text: &[u8], from: usize)
    requires { (at + 2 ≤ length out.old) × (from + 2 ≤ length text.now) }
    ensures { out.new ≡ put out.old at (take 2 (drop from text.now)) }
{
    let a = text[from];
    let b = text[from + 1];
    out[at] = a;
    out[at + 1] = b;
}

// Copies four bytes in the same way.
fn copy_four(out: &mut [u8], at: usize, text: &[u8], from: usize)
    requires { (at + 4 ≤ length out.old) × (from + 4 ≤ length text.now) }
    ensures { out.new ≡ put out.old at (take 4 (drop from text.now)) }
{
    let a = text[from];
    let b = text[from + 1];
    let c = text[from + 2];
    let d = text[from + 3];
    out[at] = a;
    out[at + 1] = b;
    out[at + 2] = c;
    out[at + 3] = d;
}

// Copies the last byte of a text, if any is left.
fn copy_last(out: &mut [u8], at: usize, text: &[u8], from: usize)
    requires { (from ≤ length text.now) × (length text.now ≤ from + 1) × (at + length text.now ≤ length out.old) }
    ensures { out.new ≡ put out.old (at + from) (drop from text.now) }
{
    if from < text.len() {
        out[at + from] = text[from];
    }
}

// Copies the last bytes of a text, fewer than four.
fn copy_rest(out: &mut [u8], at: usize, text: &[u8], from: usize)
    requires { (from ≤ length text.now) × (length text.now < from + 4) × (at + length text.now ≤ length out.old) }
    ensures { out.new ≡ put out.old (at + from) (drop from text.now) }
{
    if 2 <= text.len() - from {
        copy_two(out, at + from, text, from);
        copy_last(out, at, text, from + 2);
    } else {
        copy_last(out, at, text, from);
    }
}

// Copies a short text that fits, four bytes a turn. A `for` over the fours would take three or four instructions more for each text.
fn copy_short(out: &mut [u8], at: usize, text: &[u8])
    requires { at + length text.now ≤ length out.old }
    ensures { out.new ≡ put out.old at text.now }
{
    let mut i = 0;
    while 4 <= text.len() - i {
        copy_four(out, at + i, text, i);
        i += 4;
    }
    copy_rest(out, at, text, i);
}

// Copies a long text that fits. The compiler makes this loop take many bytes a turn, behind tests that a short text does not repay. It is not
// `copy_from_slice`, which calls memmove, and the archive calls nothing of C's library but memset.
fn copy_long(out: &mut [u8], at: usize, text: &[u8])
    requires { at + length text.now ≤ length out.old }
    ensures { out.new ≡ put out.old at text.now }
{
    for i in 0..text.len() {
        out[at + i] = text[i];
    }
}

// Copies a text that fits.
fn copy(out: &mut [u8], at: usize, text: &[u8])
    requires { at + length text.now ≤ length out.old }
    ensures { out.new ≡ put out.old at text.now }
{
    if text.len() < 64 {
        copy_short(out, at, text);
    } else {
        copy_long(out, at, text);
    }
}

// A lent buffer, and how many of its bytes are used.
#[derive(Drop)]
pub struct Output<'a> {
    pub buffer: &'a mut [u8],
    pub used: usize,
}

impl<'a> Output<'a> {
    // Puts a text behind the used bytes, or nothing where it does not fit.
    pub fn put_text(&mut self, text: &[u8])
        ensures { Puts self.old self.new text.now }
    {
        if fits(self.buffer.len(), self.used, text.len()) {
            copy(self.buffer, self.used, text);
            self.used += text.len();
        }
    }
}
