// Where the text of a framed value lies, which need not be UTF-8 (RULES.md, request 4; `parse_utf8_lossy` in src/raw/value.rs of the Rust).
ghost use Rattle.std.specs.Prelude.{◌+◌, ◌<◌, ◌≡◌, length};
ghost use Rattle.bson.specs.Lossy.{scope_text, text_in};
ghost use Rattle.part.specs.Said.{said_part};
ghost use Rattle.refusal.specs.Said.{said_by};
ghost use Rattle.value.specs.Texts.{said_text};

use crate::{inside, last_twelve, trim};
use part::Part;
use refusal::Refusal;
use tags::Kind;

// The text, and the part behind it: a DBPointer's id, a scope, or an empty one.
#[derive(Clone, Copy)]
pub struct Text {
    pub text: Part,
    pub second: Part,
}

// Code, and behind its raw bytes a scope that is admitted: 12, 8, 9, 10, 12, 1, 2, 3, in this order.
#[tactic(auto, using(crate::proofs::Sizes::code_is), unfolding(bson::specs::Lossy::scope_text))]
fn scope_text(v: &[u8], framed: Part) -> Result<Text, Refusal>
    requires { framed.offset + length v.now < 9223372036854775808 }
    ensures { said_by said_text result ≡ scope_text v.now (said_part framed) }
{
    let n = inside::code_len(v)?;
    inside::scope_len(v, 4 + n)?;
    let text = Part {
        offset: framed.offset + 8,
        size: n - 5,
    };
    let second = trim(framed, 4 + n, 0);
    Ok(Text { text, second })
}

// The text of a value of this tag in a part of the slice: 9 where the part runs past the slice, then 7 where the tag is in no row of the
// table, 17 where its type has no such text, and the refusals of its shape.
#[tactic(auto, using(laws::proofs::BytesLaws::bytes_length), unfolding(bson::specs::Lossy::text_in, bson::specs::Lossy::text_by))]
pub fn text_of(s: &[u8], tag: u8, framed: Part) -> Result<Text, Refusal>
    ensures { said_by said_text result ≡ text_in s.now tag (said_part framed) }
{
    if !inside::is_within(s, framed) {
        return Err(Refusal::PastTheSlice);
    }
    match tags::kind_of(tag)? {
        Kind::String => {
            let text = trim(framed, 4, 1);
            let second = Part { offset: 0, size: 0 };
            Ok(Text { text, second })
        }
        Kind::Pointer => {
            let text = trim(framed, 4, 13);
            let second = last_twelve(framed);
            Ok(Text { text, second })
        }
        Kind::Scope => scope_text(part::bytes_of(s, framed), framed),
        _ => Err(Refusal::OtherType),
    }
}
