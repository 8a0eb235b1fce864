// Numbers as bytes and bits: four bytes, least first, of lengths and the halves of longer numbers; the bits of signed
// ones (BSON 1.1, "Basic Types").
#![tactic(auto)]

ghost use Rattle.std.specs.Prelude.{◌≡◌};
ghost use Rattle.bson.specs.Grammar as grammar;
ghost use Rattle.output.specs.Puts.{Puts};

use output::Output;

// The four bytes of a number.
pub fn bytes32(n: usize) -> [u8; 4]
    ensures { result ≡ grammar.bytes32 n }
{
    ((n % 0x1_0000_0000) as u32).to_le_bytes()
}

// Puts the four bytes of a number behind the used bytes, or nothing where they do not fit.
pub fn put_bytes32(output: &mut Output, n: usize)
    ensures { Puts output.old output.new (grammar.bytes32 n) }
{
    output.put_text(&bytes32(n));
}

// The bits of a signed number, by two's complement.
#[tactic(auto, using(crate::proofs::Unsigned::bits_unsigned), unfolding(bson::specs::Grammar::unsigned))]
pub fn bits32(n: i32) -> u32
    ensures { result ≡ grammar.unsigned 0x8000_0000 n }
{
    i32::cast_unsigned(n)
}

#[tactic(auto, using(crate::proofs::Unsigned::bits_unsigned), unfolding(bson::specs::Grammar::unsigned))]
pub fn bits64(n: i64) -> u64
    ensures { result ≡ grammar.unsigned 0x8000_0000_0000_0000 n }
{
    i64::cast_unsigned(n)
}
