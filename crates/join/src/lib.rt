// Joining two documents into one in a lent buffer (RULES.md, "Writer and joining").
#![tactic(auto, unfolding(bson::specs::Join::size_of_both, bson::specs::Join::both_put))]

ghost use Rattle.std.specs.Prelude.{◌≡◌, ◌≤◌, length};
ghost use Rattle.bson.specs.Join as paper;
ghost use Rattle.join.specs.Said.{said};

use output::Output;
use refusal::{Refusal, Refused};

// Which document a refusal is of: the first, the second, or neither, but the room for both.
#[derive(Clone, Copy, PartialEq, Eq)]
pub enum Which {
    Neither = 0,
    First = 1,
    Second = 2,
}

// Why two documents were not joined.
#[derive(Clone, Copy)]
pub struct NotJoined {
    pub refused: Refused,
    pub which: Which,
}

// Both bodies as one document, at the front of the buffer; 14 where it has no room.
fn put_both(out: &mut [u8], first: &[u8], second: &[u8]) -> Result<usize, NotJoined>
    requires { (5 ≤ length first.now) × (5 ≤ length second.now) }
    ensures { paper.joined (said result) out.new
        ≡ paper.both_put first.now second.now out.old }
{
    let size = first.len() + second.len() - 5;
    if writer_state::room_of(out.len()) < size {
        return Err(NotJoined {
            refused: Refusal::NoRoom.at(0),
            which: Which::Neither,
        });
    }
    let mut output = Output {
        buffer: out,
        used: 0,
    };
    encode::put_bytes32(&mut output, size);
    output.put_text(&first[4..first.len() - 1]);
    output.put_text(&second[4..second.len() - 1]);
    output.put_text(b"\0");
    Ok(size)
}

// One document of both bodies, first before second: the refusals of the whole check of the first, of the second, then 14.
// How many bytes were written. A refusal writes nothing, and the bytes behind the document stay.
#[tactic(auto, using(laws::proofs::JoinLaws::check_admits), unfolding(bson::specs::Join::join))]
pub fn join(out: &mut [u8], first: &[u8], second: &[u8]) -> Result<usize, NotJoined>
    ensures { paper.joined (said result) out.new
        ≡ paper.join first.now second.now out.old }
{
    whole::check(first, None).map_err(|refused| NotJoined {
        refused,
        which: Which::First,
    })?;
    whole::check(second, None).map_err(|refused| NotJoined {
        refused,
        which: Which::Second,
    })?;
    put_both(out, first, second)
}
