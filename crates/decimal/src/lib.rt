// A number in decimal, into a lent buffer: the one place where digits are made (RULES.md, "Writer and joining"), by a table of the
// powers of ten and subtraction (RULES.md, request 5).
#![tactic(auto)]

ghost use Rattle.std.specs.Prelude.{◌≡◌, ◌+◌, ◌*◌, ◌^◌, ◌≤◌, ◌<◌, length};
ghost use Rattle.bson.specs.Decimal.{digits, width, decimal};
ghost use Rattle.bson.specs.Output.{put};
ghost use Rattle.output.specs.Puts.{Puts};

use output::Output;

// The powers of ten below 2^64.
static POWERS: [usize; 20] = [
    1,
    10,
    100,
    1_000,
    10_000,
    100_000,
    1_000_000,
    10_000_000,
    100_000_000,
    1_000_000_000,
    10_000_000_000,
    100_000_000_000,
    1_000_000_000_000,
    10_000_000_000_000,
    100_000_000_000_000,
    1_000_000_000_000_000,
    10_000_000_000_000_000,
    100_000_000_000_000_000,
    1_000_000_000_000_000_000,
    10_000_000_000_000_000_000,
];

// How many digits a number has: one more than the zeros of the greatest power that is not above it, and of zero one.
pub fn width_of(n: usize) -> usize
    ensures { (result ≡ width n) × (result ≤ 20) }
{
    for k in 1..20 {
        if n < POWERS[k] {
            return k;
        }
    }
    20
}

// How often a power goes into a number, and what is left.
#[derive(Clone, Copy)]
struct Split {
    digit: u8,
    rest: usize,
}

// The first digit of a number that has no more digits than the power.
fn lead(n: usize, power: usize) -> Split
    requires { n < 10 * power }
    ensures { (result.digit < 10) × (n ≡ result.digit * power + result.rest) × (result.rest < power) }
{
    let mut rest = n;
    let mut digit: u8 = 0;
    while power <= rest {
        rest -= power;
        digit += 1;
    }
    Split { digit, rest }
}

// Writes the k digits of a number that has no more, where they fit: one is the number, which most keys of arrays have, and is not to pay for
// the loop. Else each is how often its power goes into what the ones before it have left, and the last is what is left of all. By a `for`,
// which counts one of the two, each digit takes two instructions more.
fn put_digits(out: &mut [u8], at: usize, n: usize, k: usize)
    requires { (at + k ≤ length out.old) × (0 < k) × (k ≤ 20) × (n < 10 ^ k) }
    ensures { out.new ≡ put out.old at (digits k n) }
{
    if k == 1 {
        out[at] = 48 + n as u8;
        return;
    }
    let mut rest = n;
    let mut place = at;
    let mut zeros = k - 1;
    while 0 < zeros {
        let first = lead(rest, POWERS[zeros]);
        out[place] = 48 + first.digit;
        rest = first.rest;
        place += 1;
        zeros -= 1;
    }
    out[place] = 48 + rest as u8;
}

// Puts a number behind the used bytes, or nothing where it does not fit.
pub fn put_decimal(output: &mut Output, n: usize)
    ensures { Puts output.old output.new (decimal n) }
{
    let k = width_of(n);
    if output::fits(output.buffer.len(), output.used, k) {
        put_digits(output.buffer, output.used, n, k);
        output.used += k;
    }
}
