// Replays a list from standard input. A line that begins with `document ` is a document with its answers, which are
// compared; one that begins with `limited ` is one under a limit; one that begins with `write ` is a session of the
// writer, any other a question: these two are printed again with the answer behind them.
#![tactic(auto)]

mod documents;
mod getters;
mod lookups;
mod paths;
mod places;
mod progress;
mod questions;
mod quiet;
mod steps;
mod text;
mod values;
mod writing;

ghost use Rattle.std.specs.Prelude.{◌≤◌, length};

use documents::{replay_limited, replay_plain};
use progress::Progress;
use questions::replay_question;
use quiet::Quiet;
use std::io;
use std::io::Read;
use text::field;
use writing::replay_session;

// How many bytes a line may have, with its newline.
const LONGEST: usize = 65536;

fn replay_line(rt: &impl Print, line: &[u8], progress: &mut Progress) -> io::Result<()> {
    match field(line, 0) {
        b"document" => replay_plain(rt, line, progress),
        b"limited" => replay_limited(rt, line, progress),
        b"write" => replay_session(rt, line),
        _ => replay_question(rt, line),
    }
}

// The last of the lines may be without its newline.
fn replay_all(rt: &impl Print, lines: &[u8], progress: &mut Progress) -> io::Result<()> {
    for line in lines.split_inclusive(|b| *b == b'\n') {
        let whole = line.strip_suffix(b"\n").unwrap_or(line);
        replay_line(rt, whole, progress)?;
    }
    Ok(())
}

// Reads behind what is held, until the input ends, a read fails or the buffer is full; how many bytes there are then.
fn fill(input: &mut impl Read, space: &mut [u8], held: usize) -> usize
    requires { held ≤ length space.old }
    ensures { result ≤ length space.old }
{
    let mut n = held;
    while n < space.len() {
        match input.read(&mut space[n..]) {
            Ok(0) | Err(_) => break,
            Ok(got) => n += got,
        }
    }
    n
}

// Replays the whole lines of a full buffer and moves the unfinished one to the front, until the input has ended.
fn replay(rt: &impl Print, input: &mut impl Read, space: &mut [u8]) -> io::Result<()> {
    let mut progress = Progress::new();
    let mut held = 0;
    // no input has so many blocks
    for _ in 0..u64::MAX {
        let filled = fill(input, space, held);
        if filled < space.len() {
            replay_all(rt, &space[..filled], &mut progress)?;
            return progress.say(rt);
        }
        let Some(last) = space.iter().rposition(|b| *b == b'\n') else {
            return println!(rt; "line too long");
        };
        let rest = last + 1;
        replay_all(rt, &space[..rest], &mut progress)?;
        space.copy_within(rest.., 0);
        held = space.len() - rest;
    }
    Ok(())
}

fn main(rt: HostRuntime) {
    let mut space = [0; LONGEST];
    let _ = replay(&Quiet(&rt), &mut rt.reader(), &mut space);
}
