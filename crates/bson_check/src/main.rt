// The check program: reads one document from standard input and prints its elements and the verdict (RULES.md, "Bytes to try").
#![tactic(auto)]

ghost use Rattle.std.specs.Prelude.{◌≡◌, ◌≤◌, length, IfOk};

use std::io;
use std::io::Read;

// Reads until the input ends or the buffer is full, and says how many bytes there are: of what a full one leaves unread nothing is to be
// known.
fn read_input(input: &mut impl Read, space: &mut [u8]) -> io::Result<usize>
    ensures { IfOk result (λ size. size ≤ length space.old) }
{
    let mut size = 0;
    while size < space.len() {
        let n = input.read(&mut space[size..])?;
        if n == 0 {
            break;
        }
        size += n;
    }
    Ok(size)
}

// A write that fails is not reported: one judges by the last line.
fn say(rt: &impl Print, text: &[u8]) {
    let _ = rt.write_all(text);
}

// In a function of its own, so that what stands beside so large an array is told its length alone.
fn room_for_report() -> [u8; 524288]
    ensures { 524288 ≡ length result }
{
    [0; 524288]
}

// The buffer holds every report, by the promise of `put_report`.
fn print_report(rt: &impl Print, s: &[u8]) {
    let mut out = room_for_report();
    let n = report::put_report(&mut out, s);
    say(rt, &out[..n]);
}

// Nothing is printed before reading is over.
fn main(rt: HostRuntime) {
    let mut space = [0; 65536];
    match read_input(&mut rt.reader(), &mut space) {
        Ok(size) => print_report(&rt, &space[..size]),
        Err(_) => say(&rt, b"unread\n"),
    }
}
