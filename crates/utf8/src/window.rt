// Whether bytes are UTF-8 (RFC 3629), by comparisons: each byte is judged by the three before it, so that sixteen are judged at a time.
ghost use Rattle.std.specs.Prelude.{◌≡◌};
ghost use Rattle.bson.specs.Utf8.{utf8};
ghost use Rattle.utf8.specs.Window.{stray};

// Whether b may not stand behind p, q and o, p the nearest. With `&` and `|` on every test there is no branch.
fn is_stray(b: u8, p: u8, q: u8, o: u8) -> bool
    ensures { result ≡ stray b p q o }
{
    let tail = (0x7F < b) & (b < 0xC0);
    let asked = (0xBF < p) | ((0xDF < q) | (0xEF < o));
    let low = b < 0xA0;
    let lowest = b < 0x90;
    let after_e = ((p == 0xE0) & low) | ((p == 0xED) & !low);
    let after_f = ((p == 0xF0) & lowest) | ((p == 0xF4) & !lowest);
    let never = (b == 0xC0) | ((b == 0xC1) | (0xF4 < b));
    (tail != asked) | (after_e | (after_f | never))
}

// Whether s is UTF-8. The loop has no way out, so that it is vectorised; a zero behind s is stray exactly where a character is not whole.
pub fn by_window(s: &[u8]) -> bool
    ensures { result ≡ utf8 s.now }
{
    let a = part::byte_or_zero(s, 0);
    let b = part::byte_or_zero(s, 1);
    let c = part::byte_or_zero(s, 2);
    let mut any = is_stray(a, 0, 0, 0) | is_stray(b, a, 0, 0) | is_stray(c, b, a, 0);
    let end = s.len().max(3);
    for j in 3..end {
        any |= is_stray(s[j], s[j - 1], s[j - 2], s[j - 3]);
    }
    let x = part::byte_or_zero(s, end - 1);
    let y = part::byte_or_zero(s, end - 2);
    let z = part::byte_or_zero(s, end - 3);
    !(any | is_stray(0, x, y, z))
}
