// What the check program prints, put into a lent buffer line by line (RULES.md, "Bytes to try").
#![tactic(auto)]

ghost use Rattle.std.specs.Prelude.{◌≡◌, ◌<◌, ◌≤◌, length, take};
ghost use Rattle.bson.specs.Answer.{gives, refuses};
ghost use Rattle.bson.specs.Output.{output, put_texts};
ghost use Rattle.bson.specs.Step.{iterate};
ghost use Rattle.bson.specs.Report.{hex_digit, element_line, verdict_line, element_lines, report_lines, report};
ghost use Rattle.iter.specs.Said.{said_element};
ghost use Rattle.output.specs.Puts.{held, Holds, Puts};
ghost use Rattle.refusal.specs.Said.{number, placed};

use iter::{Cursor, Element};
use output::Output;
use refusal::{Refusal, Refused};

// A hexadecimal digit in ASCII.
fn hex_digit(d: u8) -> u8
    requires { d < 16 }
    ensures { result ≡ hex_digit d }
{
    if d < 10 { 48 + d } else { 87 + d }
}

// Puts the line of an element, or nothing where it does not fit.
fn put_element(output: &mut Output, element: Element)
    ensures { Puts output.old output.new (element_line (said_element element)) }
{
    let size = element.value.size;
    let line = decimal::width_of(element.place) + decimal::width_of(size) + 5;
    if output::fits(output.buffer.len(), output.used, line) {
        let tag = element.tag;
        decimal::put_decimal(output, element.place);
        output.put_text(&[b' ', hex_digit(tag / 16), hex_digit(tag % 16), b' ']);
        decimal::put_decimal(output, size);
        output.put_text(b"\n");
    }
}

// Puts the line of a verdict that accepts, or nothing where it does not fit.
fn put_accepted(output: &mut Output, count: usize)
    ensures { Puts output.old output.new (verdict_line (gives count)) }
{
    let line = decimal::width_of(count) + 10;
    if output::fits(output.buffer.len(), output.used, line) {
        output.put_text(b"accepted ");
        decimal::put_decimal(output, count);
        output.put_text(b"\n");
    }
}

// The same for one that refuses.
fn put_refused(output: &mut Output, refused: Refused)
    ensures { Puts output.old output.new (verdict_line (refuses (number refused.why) refused.place)) }
{
    let n = refused.why.number() as usize;
    let place = refused.place;
    let line = decimal::width_of(n) + decimal::width_of(place) + 10;
    if output::fits(output.buffer.len(), output.used, line) {
        output.put_text(b"refused ");
        decimal::put_decimal(output, n);
        output.put_text(b" ");
        decimal::put_decimal(output, place);
        output.put_text(b"\n");
    }
}

// Puts the line of a verdict, or nothing where it does not fit. The line is short, since the verdict's numbers are the machine's.
fn put_verdict(output: &mut Output, verdict: Result<usize, Refused>)
    ensures output_after { Puts output.old output.new (verdict_line (placed verdict)) }
    ensures verdict_len_bound { length (verdict_line (placed verdict)) ≤ 50 }
{
    match verdict {
        Ok(count) => put_accepted(output, count),
        Err(refused) => put_refused(output, refused),
    }
}

// Puts the lines of the elements that steps yield, each where it fits.
fn put_elements(output: &mut Output, s: &[u8])
    ensures { Holds output.old output.new (put_texts (held output.old) (element_lines (iterate s.now 4))) }
{
    let mut offset: usize = 4;
    loop {
        let cursor = Cursor {
            offset,
            ended: false,
        };
        let step = iter::next(s, cursor, None);
        match step.answer {
            Ok(Some(element)) => {
                put_element(output, element);
                offset = step.next.offset;
            }
            Ok(None) => {
                return;
            }
            Err(_) => {
                return;
            }
        }
    }
}

// Puts the report of a document, each line where it fits; how many bytes it has. In 524,288 bytes every report fits whole.
pub fn put_report(out: &mut [u8], s: &[u8]) -> usize
    ensures result_after { output out.new result ≡ put_texts (output out.old 0) (report_lines s.now) }
    ensures upper_bound { result ≤ length out.new }
    ensures out_after { 524288 ≤ length out.old → take result out.new ≡ report s.now }
{
    let mut output = Output {
        buffer: out,
        used: 0,
    };
    output.put_text(b"offset tag size\n");
    if s.len() <= 65535 {
        put_elements(&mut output, s);
        put_verdict(&mut output, whole::check(s, None));
        return output.used;
    }
    put_refused(&mut output, Refusal::InputTooLong.at(0));
    output.used
}
