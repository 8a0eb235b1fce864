// Replays a question: a line is a word that names the leaf or the call, its bytes in hexadecimal, and what else it takes;
// it is printed again with the answer behind it.
use crate::places::{ask_part, ask_step, ask_value, say_verdict};
use crate::text::{field, fields_from, number_of, unhex, yes_or_no};
use num::Timestamp;
use refusal::Refusal;
use std::fmt::Display;
use std::io;

fn say_yes(rt: &impl Print, b: bool) -> io::Result<()> {
    rt.print(yes_or_no(b))
}

fn say_refusal(rt: &impl Print, why: Refusal) -> io::Result<()> {
    print!(rt; "refuses {}", why.number())
}

fn say_given<D: Display + Drop>(rt: &impl Print, answer: Result<D, Refusal>) -> io::Result<()> {
    match answer {
        Ok(given) => print!(rt; "gives {given}"),
        Err(why) => say_refusal(rt, why),
    }
}

fn say_boolean(rt: &impl Print, answer: Result<bool, Refusal>) -> io::Result<()> {
    match answer {
        Ok(b) => say_yes(rt, b),
        Err(why) => say_refusal(rt, why),
    }
}

fn say_timestamp(rt: &impl Print, answer: Result<Timestamp, Refusal>) -> io::Result<()> {
    match answer {
        Ok(Timestamp { increment, seconds }) => print!(rt; "gives {increment} {seconds}"),
        Err(why) => say_refusal(rt, why),
    }
}

// Framing by a tag, the first byte of the first bytes.
fn ask_framing(rt: &impl Print, first: &[u8], rest: &[u8]) -> io::Result<()> {
    match first.first() {
        Some(tag) => say_given(rt, raw::value_len(*tag, rest, None)),
        None => print!(rt; "is no question"),
    }
}

// What the call answers that the line's word names.
fn ask(rt: &impl Print, line: &[u8], first: &[u8], second: &[u8]) -> io::Result<()> {
    match field(line, 0) {
        b"step" => ask_step(rt, line, first),
        b"read" => ask_value(rt, line, first),
        b"part" => ask_part(rt, line, first),
        b"check" => say_verdict(rt, whole::check(first, None)),
        b"strict" => say_verdict(rt, whole::check_strict(first, None)),
        b"u32" => say_given(rt, num::u32_from_slice(first)),
        b"i32" => say_given(rt, num::i32_from_slice(first)),
        b"i64" => say_given(rt, num::i64_from_slice(first)),
        b"f64" => say_given(rt, num::f64_from_slice(first)),
        b"bool" => say_boolean(rt, num::bool_from_slice(first)),
        b"timestamp" => say_timestamp(rt, num::timestamp_from_slice(first)),
        b"utf8" => say_yes(rt, utf8::is_utf8(first)),
        b"cstring" => say_given(rt, cstr::read_cstring(first)),
        b"valid" => say_yes(rt, cstr::is_valid_cstr(first)),
        b"equal" => say_yes(rt, cstr::equal(first, second)),
        b"admit" => say_given(rt, raw::admit(first)),
        b"value" => ask_framing(rt, first, second),
        b"cstring-under" => {
            let most = number_of(field(line, 2));
            say_given(rt, cstr::read_cstring_with_max_len(first, Some(most)))
        }
        _ => print!(rt; "is no question"),
    }
}

pub fn replay_question(rt: &impl Print, line: &[u8]) -> io::Result<()> {
    let mut first_space = [0; 4096];
    let mut second_space = [0; 4096];
    let first = unhex(field(line, 1), &mut first_space);
    let second = unhex(fields_from(line, 2), &mut second_space);
    rt.write_all(line)?;
    rt.write_all(b" ")?;
    ask(rt, line, first, second)?;
    rt.write_all(b"\n")
}
