// Paths into nested documents: one lookup after another (RULES.md, request 1).
#![tactic(auto, unfolding(bson::specs::Path::get_path_bytes_under, bson::specs::Path::get_path_with_under))]

ghost use Rattle.std.specs.Prelude.{◌+◌, ◌≤◌, ◌<◌, ◌^◌, ◌≡◌, leb, length};
ghost use Rattle.bson.specs.Answer.{refuses};
ghost use Rattle.bson.specs.Path.{keys_of, get_path_under, get_path_bytes_under, get_path_with_under};
ghost use Rattle.bson.specs.Value.{value_in};
ghost use Rattle.cstr.specs.Said.{limit_of};
ghost use Rattle.document.specs.Said.{said_found};
ghost use Rattle.part.specs.Said.{said_part};
ghost use Rattle.refusal.specs.Said.{number, placed_by};
ghost use Rattle.path.specs.Said.{stops, reads, Reaches};

use document::Found;
use iter::Element;
use refusal::{Refusal, Refused};

// Whether a path has at most 201 keys, one more than zero bytes.
fn is_short(path: &[u8]) -> bool
    ensures { result ≡ leb (length (keys_of path.now).1) 200 }
{
    if path.len() < bounds::MAX_KEYS {
        return true;
    }
    let mut keys = 1;
    for i in 0..path.len() {
        if path[i] == 0 {
            keys += 1;
        }
    }
    keys <= bounds::MAX_KEYS
}

// Why a value on the way stops a path that can't enter it: its own refusal, else 17.
fn stopped(s: &[u8], element: Element) -> Refusal
    ensures { stops (value_in s.now element.tag (said_part element.value)) ≡ refuses (number result) 0 }
{
    match value::parse(s, element.tag, element.value) {
        Ok(_) => Refusal::OtherType,
        Err(why) => why,
    }
}

// Looks a path up in a document that lies at an offset of the outermost slice: one key is used up at each level, and the rest of the path
// is looked up in the part inside. Documents and arrays are entered unread, since framing asks of them all that reading asks. The answer
// is lent: handed back, it would lie in each level's frame and be copied behind the call inside, and the stack would grow with the depth.
fn along(
    s: &[u8],
    path: &[u8],
    base: usize,
    limit: Option<usize>,
    answer: &mut Result<Element, Refused>,
)
    requires { (base + length s.now < 2 ^ 63) × (length (keys_of path.now).1 ≤ 200) }
    ensures { Reaches s.now base answer.new (get_path_under (limit_of limit) s.now path.now) }
{
    let zero = cstr::first_zero(path);
    let key = &path[..zero];
    match document::find(s, key, limit) {
        Err(r) => *answer = Err(r.why.at(base + r.place)),
        Ok(element) => {
            let value = element.value;
            let place = base + element.place;
            if zero == path.len() {
                *answer = Ok(iter::element_of(place, element.tag, element.key.size, value.size));
                return;
            }
            if (element.tag != tags::DOCUMENT) & (element.tag != tags::ARRAY) {
                *answer = Err(stopped(s, element).at(place));
                return;
            }
            let inside = &s[value.offset..value.offset + value.size];
            let rest = &path[zero + 1..];
            along(inside, rest, base + value.offset, limit, answer);
        }
    }
}

// The element that a path leads to, not read yet.
fn find(s: &[u8], path: &[u8], limit: Option<usize>) -> Result<Element, Refused>
    ensures { reads s.now result ≡ get_path_under (limit_of limit) s.now path.now }
{
    let mut answer = Err(Refusal::PathTooLong.at(0));
    if is_short(path) {
        along(s, path, 0, limit, &mut answer);
    }
    answer
}

// The element that a path leads to, and its value: 21; what is refused on the way, 17 where a value there can't be entered, 16 at the
// terminator of the document searched; then the value's refusals.
pub fn get_element(s: &[u8], path: &[u8], limit: Option<usize>) -> Result<Found, Refused>
    ensures { placed_by said_found result ≡ get_path_under (limit_of limit) s.now path.now }
{
    document::read_element(s, find(s, path, limit)?)
}

// The value's framed bytes, as a part of the document; empty where `get_element`, its twin, refuses.
pub fn get<'a, 'b>(s: &'a [u8], path: &'b [u8], limit: Option<usize>) -> &'a [u8]
    ensures { result.now ≡ get_path_bytes_under (limit_of limit) s.now path.now }
{
    match get_element(s, path, limit) {
        Ok(found) => part::bytes_of(s, found.element.value),
        Err(_) => &s[..0],
    }
}

// The typed path: the value that a path leads to must have this tag, else 17 behind its own refusals.
pub fn get_with(s: &[u8], path: &[u8], tag: u8, limit: Option<usize>) -> Result<Found, Refused>
    ensures { placed_by said_found result ≡ get_path_with_under (limit_of limit) s.now path.now tag }
{
    document::read_element_with(s, find(s, path, limit)?, tag)
}
