// Numbers, literals, clauses and the header as bytes in a lent buffer (document 01, "Made formula"). Each `put_` writes from a place on and
// answers the place after what it wrote; each `_length` says beforehand how many bytes that is.
#![tactic(auto)]

ghost use Rattle.std.specs.Prelude.{◌≡◌, [], ◌∷◌, ◌++◌, ◌+◌, ◌≤◌, ◌<◌, length, map};
ghost use Rattle.store.specs.Stores.{max_literals};
ghost use Rattle.render.specs.Text.{decimal, literal_text, clause_line, two_numbers, header_line, refusal_line, written_at};
ghost use Rattle.render.specs.Digits.{run_digits, digits_below};

use store::literal;
use store::literal::Coded;

// The header.
pub fn header_length(variables: u64, clauses: u64) -> usize
    ensures { result ≡ length (header_line variables clauses) }
{
    digit_count(variables) + digit_count(clauses) + 8
}

pub fn put_header(out: &mut [u8], at: usize, variables: u64, clauses: u64) -> usize
    requires { at + length (header_line variables clauses) ≤ length out.old }
    ensures next { result ≡ at + length (header_line variables clauses) }
    ensures bytes { out.new ≡ written_at at (header_line variables clauses) out.old }
{
    let number = put_bytes(out, at, b"p cnf ");
    put_numbers(out, number, variables, clauses)
}

// The program's line for a refusal.
pub fn put_refusal(out: &mut [u8], at: usize, number: u64, place: u64) -> usize
    requires { at + length (refusal_line number place) ≤ length out.old }
    ensures next { result ≡ at + length (refusal_line number place) }
    ensures bytes { out.new ≡ written_at at (refusal_line number place) out.old }
{
    let first = put_bytes(out, at, b"refused ");
    put_numbers(out, first, number, place)
}

// Two numbers and the line's end.
fn put_numbers(out: &mut [u8], at: usize, a: u64, b: u64) -> usize
    requires { at + length (two_numbers a b) ≤ length out.old }
    ensures next { result ≡ at + length (two_numbers a b) }
    ensures bytes { out.new ≡ written_at at (two_numbers a b) out.old }
{
    let space = put_number(out, at, a);
    out[space] = b' ';
    let end = put_number(out, space + 1, b);
    out[end] = b'\n';
    end + 1
}

// A clause, of stored or of made codes.
pub fn clause_length<C: Coded>(clause: &[C]) -> usize
    requires { length clause.now ≤ max_literals }
    ensures { result ≡ length (clause_line (map C.code clause.now)) }
{
    let mut length = 2;
    for code in clause {
        length += literal_length(code.wide()) + 1;
    }
    length
}

pub fn put_clause<C: Coded>(out: &mut [u8], at: usize, clause: &[C]) -> usize
    requires { at + length (clause_line (map C.code clause.now)) ≤ length out.old }
    ensures next { result ≡ at + length (clause_line (map C.code clause.now)) }
    ensures bytes { out.new ≡ written_at at (clause_line (map C.code clause.now)) out.old }
{
    let mut next = at;
    for code in clause {
        next = put_word(out, next, code.wide());
    }
    put_end(out, next)
}

// Bytes as they are.
fn put_bytes(out: &mut [u8], at: usize, bytes: &[u8]) -> usize
    requires { at + length bytes.now ≤ length out.old }
    ensures next { result ≡ at + length bytes.now }
    ensures bytes { out.new ≡ written_at at bytes.now out.old }
{
    let end = at + bytes.len();
    out[at..end].copy_from_slice(bytes);
    end
}

// The end of a clause's line, which is the empty clause's line.
fn put_end(out: &mut [u8], at: usize) -> usize
    requires { at + length (clause_line []) ≤ length out.old }
    ensures next { result ≡ at + length (clause_line []) }
    ensures bytes { out.new ≡ written_at at (clause_line []) out.old }
{
    let feed = at + 1;
    out[at] = b'0';
    out[feed] = b'\n';
    feed + 1
}

// A literal and the space after it.
fn put_word(out: &mut [u8], at: usize, code: u32) -> usize
    requires { at + length (literal_text code ++ 32 ∷ []) ≤ length out.old }
    ensures next { result ≡ at + length (literal_text code ++ 32 ∷ []) }
    ensures bytes { out.new ≡ written_at at (literal_text code ++ 32 ∷ []) out.old }
{
    let space = put_literal(out, at, code);
    out[space] = b' ';
    space + 1
}

// A literal; its sign is counted without a branch, which could not be foretold.
fn literal_length(code: u32) -> usize
    ensures { result ≡ length (literal_text code) }
{
    digit_count(literal::variable(code) as u64) + literal::is_negative(code) as usize
}

fn put_literal(out: &mut [u8], at: usize, code: u32) -> usize
    requires { at + length (literal_text code) ≤ length out.old }
    ensures next { result ≡ at + length (literal_text code) }
    ensures bytes { out.new ≡ written_at at (literal_text code) out.old }
{
    // in every case: a literal that is not negative has its first digit written over the sign
    out[at] = b'-';
    let number = at + literal::is_negative(code) as usize;
    put_number(out, number, literal::variable(code) as u64)
}

// A number: its digits are counted, and then written from the last one on. Below 100,000, as every number of a made formula but the clause
// count is, they are counted by adding up tests: a branch for each digit could not be foretold.
pub fn digit_count(x: u64) -> usize
    ensures { result ≡ length (decimal x) }
{
    if 100000 <= x {
        return long_count(x);
    }
    1 + (10 <= x) as usize + (100 <= x) as usize + (1000 <= x) as usize + (10000 <= x) as usize
}

// The same for a number of any size.
fn long_count(x: u64) -> usize
    ensures { result ≡ length (decimal x) }
{
    let mut n = 1;
    let mut rest = x;
    // By tenths, as in `decimal`.
    while 10 <= rest {
        rest /= 10;
        n += 1;
    }
    n
}

// The same for a number below 1,000, as the plain formula's variables are, in 16 bits: a loop over a slice of these counts several at once.
pub fn short_count(x: u16) -> u16
    requires { x < 1000 }
    ensures { result ≡ length (decimal x) }
{
    1 + (10 <= x) as u16 + (100 <= x) as u16
}

// The digits of numbers that follow one another, without looking at each.
pub fn run_digits(from: usize, count: usize) -> usize
    requires { from + count ≤ 100000 }
    ensures { result ≡ run_digits from count }
{
    digits_below(from + count) - digits_below(from)
}

fn digits_below(v: usize) -> usize
    requires { v ≤ 100000 }
    ensures { result ≡ digits_below v }
{
    v + v.saturating_sub(10)
        + v.saturating_sub(100)
        + v.saturating_sub(1000)
        + v.saturating_sub(10000)
}

fn put_number(out: &mut [u8], at: usize, x: u64) -> usize
    requires { at + length (decimal x) ≤ length out.old }
    ensures next { result ≡ at + length (decimal x) }
    ensures bytes { out.new ≡ written_at at (decimal x) out.old }
{
    let end = at + digit_count(x);
    let mut k = end;
    let mut y = x;
    // By tenths, from the last digit on.
    while 10 <= y {
        k -= 1;
        out[k] = (y % 10) as u8 + b'0';
        y /= 10;
    }
    out[at] = y as u8 + b'0';
    end
}
