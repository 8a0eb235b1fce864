// Each answer in numbers, for callers in C: 0 is no refusal, and what a refusal does not give is 0 (RULES.md, "Numbers returned").
#![tactic(auto, unfolding(bson::specs::Value::parts_of))]

ghost use Rattle.std.specs.Prelude.{◌+◌, ◌*◌, ◌≡◌};
ghost use Rattle.bson.specs.Answer.{refuses};
ghost use Rattle.document.specs.Said as document;
ghost use Rattle.iter.specs.Said as iter;
ghost use Rattle.iter.specs.Said.{said_element};
ghost use Rattle.join.specs.Said as join;
ghost use Rattle.lossy.specs.Said as lossy;
ghost use Rattle.part.specs.Said.{said_part};
ghost use Rattle.refusal.specs.Said.{number, number_in, placed, placed_by};
ghost use Rattle.value.specs.Said.{said_value};
ghost use Rattle.c_answers.specs.Numbers.{truth, verdict, emptiness, joined, signed_bits, bits_of, valued, unvalued, found, stepped};
ghost use Rattle.c_answers.specs.Numbers.{no_step, read_of, yielded, no_element, shown, written_by, number_or_0, place_or_0};

use document::Found;
use iter::{Cursor, Element, Step};
use join::NotJoined;
use lossy::Shown;
use part::Part;
use refusal::{Refusal, Refused};
use value::Value;
use writer_state::Words;

#[repr(C)]
#[derive(Clone, Copy)]
pub struct VerdictNumbers {
    pub number: u32,
    pub place: usize,
    pub count: usize,
}

// A value: its element's tag, place and framed bytes; what it has as a number; its parts.
#[repr(C)]
#[derive(Clone, Copy)]
pub struct ValueNumbers {
    pub number: u32,
    pub tag: u8,
    pub place: usize,
    pub framed_offset: usize,
    pub framed_size: usize,
    pub bits: u64,
    pub offset: usize,
    pub size: usize,
    pub offset2: usize,
    pub size2: usize,
}

// `ended` and `next`: the cursor behind the step.
#[repr(C)]
#[derive(Clone, Copy)]
pub struct StepNumbers {
    pub number: u32,
    pub tag: u8,
    pub ended: bool,
    pub place: usize,
    pub next: usize,
    pub key_offset: usize,
    pub key_size: usize,
    pub framed_offset: usize,
    pub framed_size: usize,
}

// An element with its value; `ended` and `next`: the cursor behind the step.
#[repr(C)]
#[derive(Clone, Copy)]
pub struct ElementNumbers {
    pub value: ValueNumbers,
    pub key_offset: usize,
    pub key_size: usize,
    pub next: usize,
    pub ended: bool,
}

#[repr(C)]
#[derive(Clone, Copy)]
pub struct JoinedNumbers {
    pub number: u32,
    pub which: u32,
    pub place: usize,
    pub length: usize,
}

// A text that was shown: its element's tag and place, how many bytes were written, and the part behind the text.
#[repr(C)]
#[derive(Clone, Copy)]
pub struct ShownNumbers {
    pub number: u32,
    pub tag: u8,
    pub place: usize,
    pub length: usize,
    pub offset2: usize,
    pub size2: usize,
}

// `used`: the bytes used afterwards.
#[repr(C)]
#[derive(Clone, Copy)]
pub struct WrittenNumbers {
    pub number: u32,
    pub used: usize,
}

// A refusal of what counts.
fn no_count(refused: Refused) -> VerdictNumbers
    ensures { result ≡ verdict (refuses (number refused.why) refused.place) }
{
    VerdictNumbers {
        number: refused.why.number() as u32,
        place: refused.place,
        count: 0,
    }
}

pub fn of_verdict(v: Result<usize, Refused>) -> VerdictNumbers
    ensures { result ≡ verdict (placed v) }
{
    match v {
        Ok(count) => VerdictNumbers {
            number: 0,
            place: 0,
            count,
        },
        Err(refused) => no_count(refused),
    }
}

// The count is 1 where the document is empty.
pub fn of_empty(e: Result<bool, Refused>) -> VerdictNumbers
    ensures { result ≡ emptiness (placed e) }
{
    match e {
        Ok(empty) => VerdictNumbers {
            number: 0,
            place: 0,
            count: empty as usize,
        },
        Err(refused) => no_count(refused),
    }
}

pub fn of_joined(j: Result<usize, NotJoined>) -> JoinedNumbers
    ensures { result ≡ joined (join.said j) }
{
    match j {
        Ok(length) => JoinedNumbers {
            number: 0,
            which: 0,
            place: 0,
            length,
        },
        Err(n) => JoinedNumbers {
            number: n.refused.why.number() as u32,
            which: n.which as u32,
            place: n.refused.place,
            length: 0,
        },
    }
}

// Seconds in the upper half, the increment in the lower.
fn of_halves(increment: u32, seconds: u32) -> u64
    ensures { result ≡ increment + 4294967296 * seconds }
{
    increment as u64 + 4294967296 * (seconds as u64)
}

fn of_bool(b: bool) -> u64
    ensures { result ≡ truth b }
{
    b as u64
}

fn of_int32(n: i32) -> u64
    ensures { result ≡ signed_bits n }
{
    encode::bits64(n as i64)
}

// What a value has as a number.
fn bits_of(value: Value) -> u64
    ensures { result ≡ bits_of (said_value value) }
{
    match value {
        Value::Double(bits) => bits,
        Value::Binary { subtype, data: _ } => subtype as u64,
        Value::Boolean(b) => of_bool(b),
        Value::DateTime(n) => encode::bits64(n),
        Value::Int32(n) => of_int32(n),
        Value::Timestamp { increment, seconds } => of_halves(increment, seconds),
        Value::Int64(n) => encode::bits64(n),
        _ => 0,
    }
}

// The value of an element, as it was read.
fn of_value(element: Element, value: Value) -> ValueNumbers
    ensures { result ≡ valued (said_element element) (said_value value) }
{
    let framed = element.value;
    let bits = bits_of(value);
    let parts = reading::parts_of(value);
    let first = parts.0;
    let second = parts.1;
    ValueNumbers {
        number: 0,
        tag: element.tag,
        place: element.place,
        framed_offset: framed.offset,
        framed_size: framed.size,
        bits,
        offset: first.offset,
        size: first.size,
        offset2: second.offset,
        size2: second.size,
    }
}

// A refusal, and what is known all the same: a tag and framed bytes.
fn unread(refused: Option<Refused>, tag: u8, framed: Part) -> ValueNumbers
    ensures { result ≡ unvalued (number_or_0 refused) (place_or_0 refused) tag (said_part framed) }
{
    let (number, place) = number_and_place(refused);
    ValueNumbers {
        number,
        tag,
        place,
        framed_offset: framed.offset,
        framed_size: framed.size,
        bits: 0,
        offset: 0,
        size: 0,
        offset2: 0,
        size2: 0,
    }
}

pub fn of_found(f: Result<Found, Refused>) -> ValueNumbers
    ensures { result ≡ found (placed_by document.said_found f) }
{
    match f {
        Err(refused) => unread(Some(refused), 0, Part { offset: 0, size: 0 }),
        Ok(found) => of_value(found.element, found.value),
    }
}

// The number and the place of a refusal, 0 where there is none.
fn number_and_place(refused: Option<Refused>) -> (u32, usize)
    ensures { (result.0 ≡ number_or_0 refused) × (result.1 ≡ place_or_0 refused) }
{
    match refused {
        None => (0, 0),
        Some(refused) => (refused.why.number() as u32, refused.place),
    }
}

// A step that yields no element, at its end or by its refusal, and the cursor behind it.
fn no_step(refused: Option<Refused>, next: Cursor) -> StepNumbers
    ensures { result ≡ no_step (number_or_0 refused) (place_or_0 refused) (iter.said_cursor next) }
{
    let (number, place) = number_and_place(refused);
    StepNumbers {
        number,
        tag: 0,
        ended: next.ended,
        place,
        next: next.offset,
        key_offset: 0,
        key_size: 0,
        framed_offset: 0,
        framed_size: 0,
    }
}

pub fn of_step(s: Step) -> StepNumbers
    ensures { result ≡ stepped (iter.said s) (iter.cursor_behind s) }
{
    let next = s.next;
    match s.answer {
        Ok(Some(element)) => StepNumbers {
            number: 0,
            tag: element.tag,
            ended: next.ended,
            place: element.place,
            next: next.offset,
            key_offset: element.key.offset,
            key_size: element.key.size,
            framed_offset: element.value.offset,
            framed_size: element.value.size,
        },
        Ok(None) => no_step(None, next),
        Err(refused) => no_step(Some(refused), next),
    }
}

// The value of an element, or the refusal of its reading.
fn of_reading(element: Element, read: Result<Value, Refused>) -> ValueNumbers
    ensures { result ≡ read_of (said_element element) (placed_by said_value read) }
{
    match read {
        Err(refused) => unread(Some(refused), element.tag, element.value),
        Ok(value) => of_value(element, value),
    }
}

// An element that a step yields, with its value or why that could not be read, and the cursor behind the step.
pub fn of_element(element: Element, read: Result<Value, Refused>, next: Cursor) -> ElementNumbers
    ensures { result ≡ yielded (said_element element) (placed_by said_value read) (iter.said_cursor next) }
{
    let key = element.key;
    ElementNumbers {
        value: of_reading(element, read),
        key_offset: key.offset,
        key_size: key.size,
        next: next.offset,
        ended: next.ended,
    }
}

// A step that yields no element, likewise.
pub fn no_element(refused: Option<Refused>, next: Cursor) -> ElementNumbers
    ensures { result ≡ no_element (number_or_0 refused) (place_or_0 refused) (iter.said_cursor next) }
{
    let nowhere = Part { offset: 0, size: 0 };
    ElementNumbers {
        value: unread(refused, 0, nowhere),
        key_offset: 0,
        key_size: 0,
        next: next.offset,
        ended: next.ended,
    }
}

pub fn of_shown(s: Result<Shown, Refused>) -> ShownNumbers
    ensures { result ≡ shown (placed_by lossy.said_shown s) }
{
    match s {
        Ok(shown) => ShownNumbers {
            number: 0,
            tag: shown.element.tag,
            place: shown.element.place,
            length: shown.size,
            offset2: shown.second.offset,
            size2: shown.second.size,
        },
        Err(refused) => ShownNumbers {
            number: refused.why.number() as u32,
            tag: 0,
            place: refused.place,
            length: 0,
            offset2: 0,
            size2: 0,
        },
    }
}

// What a writer's call returned, and the bytes used in the state that it left.
pub fn of_written(done: Result<(), Refusal>, words: &Words) -> WrittenNumbers
    ensures { result ≡ written_by (number_in done) words.now }
{
    match done {
        Ok(()) => WrittenNumbers {
            number: 0,
            used: writer_state::used(words),
        },
        Err(why) => WrittenNumbers {
            number: why.number() as u32,
            used: 0,
        },
    }
}
