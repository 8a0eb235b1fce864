// Checks one document from standard input many times, by RULES.md, "The whole check"; bench/linear times it from outside.
#![tactic(auto)]

ghost use Rattle.std.specs.Prelude.{◌≤◌, length};

use std::io;
use std::io::Read;

const TURNS: u64 = 2000;

// How many values the check counts; none where it refuses. It hangs on the count of the turn before, which is never above the
// number of bytes, so that the compiler can't check once for all turns.
fn values_of(document: &[u8], before: usize) -> usize {
    if document.len() < before {
        return 0;
    }
    whole::check(document, None).unwrap_or(0)
}

// The sum of the counts of all turns.
fn check_often(document: &[u8]) -> usize {
    let mut sum = 0usize;
    let mut values = 0;
    for _ in 0..TURNS {
        values = values_of(document, values);
        sum = sum.wrapping_add(values);
    }
    sum
}

// Reads to the end of the input, to a failed read or until full; how many bytes there are then.
fn read_full(input: &mut impl Read, space: &mut [u8]) -> usize
    ensures { result ≤ length space.old }
{
    let mut n = 0;
    while n < space.len() {
        match input.read(&mut space[n..]) {
            Ok(0) | Err(_) => break,
            Ok(got) => n += got,
        }
    }
    n
}

fn main(rt: HostRuntime) -> io::Result<()> {
    let mut space = [0; 65536];
    let n = read_full(&mut rt.reader(), &mut space);
    let sum = check_often(&space[..n]);
    println!(rt; "{TURNS} turns, {sum} values")
}
