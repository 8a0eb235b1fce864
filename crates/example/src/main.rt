// Checks a frame, says whether its battery is low, and joins the receiver's field behind it.
#![tactic(auto)]

ghost use Rattle.std.specs.Prelude.{◌≤◌, length};

use doc_writer::DocWriter;
use part::Part;
use refusal::Refusal;
use std::io;
use std::io::Read;

fn passes(rt: &impl Print, frame: &[u8]) -> io::Result<bool> {
    match whole::check(frame, None) {
        Ok(values) => {
            println!(rt; "accepted, values: {values}")?;
            Ok(true)
        }
        Err(refused) => {
            let number = refused.why.number();
            println!(rt; "refused by {number}")?;
            Ok(false)
        }
    }
}

// Of a frame that passed the number is 16, absent, or 17, of another type.
fn look_up(rt: &impl Print, frame: &[u8]) -> io::Result<()> {
    match typed::get_i32(frame, b"battery") {
        Ok(millivolts) => {
            let low = u8::from(millivolts < 6600);
            println!(rt; "battery low: {low}")
        }
        Err(refused) => {
            let number = refused.why.number();
            println!(rt; "no battery: {number}")
        }
    }
}

// Writes { "rssi": -97 }; how many bytes it has.
fn write_field(out: &mut [u8]) -> Result<usize, Refusal> {
    let mut w = DocWriter::new();
    w.open(out)?;
    w.append_int32(out, b"rssi", -97)?;
    w.close(out)?;
    Ok(w.words[0] as usize)
}

// Joins the field behind the frame's elements; how many bytes both have.
fn add_field(out: &mut [u8], frame: &[u8]) -> Result<usize, Refusal> {
    let mut field = [0; 64];
    let size = write_field(&mut field)?;
    let written = part::bytes_of(&field, Part { offset: 0, size });
    join::join(out, frame, written).map_err(|not_joined| not_joined.refused.why)
}

// Reads to the end of the input, to a failed read or until full; how many bytes there are then.
fn read_full(input: &mut impl Read, space: &mut [u8]) -> usize
    ensures { result ≤ length space.old }
{
    let mut n = 0;
    while n < space.len() {
        match input.read(&mut space[n..]) {
            Ok(0) | Err(_) => break,
            Ok(got) => n += got,
        }
    }
    n
}

fn main(rt: HostRuntime) -> io::Result<()> {
    let mut space = [0; 65536];
    let n = read_full(&mut rt.reader(), &mut space);
    // a full buffer may hold the front of something longer
    if n == 65536 {
        return println!(rt; "too long, bytes: {n}");
    }
    let frame = &space[..n];
    if passes(&rt, frame)? {
        look_up(&rt, frame)?;
        let mut out = [0; 65600];
        match add_field(&mut out, frame) {
            Ok(length) => println!(rt; "joined, bytes: {length}")?,
            Err(why) => println!(rt; "not joined: {}", why.number())?,
        }
    }
    Ok(())
}
