// The keys of arrays, as the strict check asks for them (RULES.md, "The whole check").
#![tactic(auto)]

ghost use Rattle.std.specs.Prelude.{◌≡◌};
ghost use Rattle.bson.specs.ArrayKey.{good_array_key};

// Whether a key is the position in decimal: its last byte is the last digit, and the rest are the others.
// A call for each further digit, since the compiler would take a loop into the walk and the plain check would pay for its registers.
pub fn is_good(key: &[u8], position: usize) -> bool
    ensures { result ≡ good_array_key position key.now }
{
    if key.len() == 0 {
        return false;
    }
    let last = key.len() - 1;
    if position < 10 {
        return (last == 0) & (key[last] == b'0' + (position as u8));
    }
    if key[last] != b'0' + ((position % 10) as u8) {
        return false;
    }
    is_good(&key[..last], position / 10)
}
