// Opening: a text into the store (document 01, "Plain formula", refusals 1 to 6 and 23; CR 1, CR 5). The text is judged whole before anything is
// written, so that a refused opening changes nothing. What carries the proofs: a text is a list of lines up to the problem line and a list
// of words after it, and each pass is a walk through such a list.
#![tactic(auto)]

ghost use Rattle.std.specs.Prelude.{◌≡◌, true, ◌&&◌, leb, [], ◌∷◌, ℕ, ◌≤◌, length};
ghost use Rattle.lists.specs.Writing.{overwritten};
ghost use Rattle.dimacs.specs.Words.{Piece, words_at};
ghost use Rattle.dimacs.specs.Numbers.{Numeral, word_at};
ghost use Rattle.comments.specs.Comments.{words_past, Between};
ghost use Rattle.store.specs.Stores.{max_variables, max_clauses};
ghost use Rattle.keys.specs.Keys.{keys_of};
ghost use Rattle.opening.specs.Problem.{same_bytes, sizes_if, four_words, sizes_of, problem_of};
ghost use Rattle.opening.specs.Clauses.{scan_from, literals_in, ends_from};
ghost use Rattle.opening.specs.Opening.{body_of, formula_of, opened_by, written};

use dimacs::Number;
use store::clauses::Clauses;
use store::literal;
use store::record::Record;
use store::refusal::Refusal;

// What a problem line says, and what opening answers: n and m.
#[derive(Clone, Copy)]
pub struct Sizes {
    pub variables: usize,
    pub clauses: usize,
}

// The problem line: what it says, and its end.
#[derive(Clone, Copy)]
pub struct Problem {
    pub sizes: Sizes,
    pub end: usize,
}

// Opens a text: literals, ends and keys are written over from their start, and not at all where the text is refused.
pub fn open(
    text: &[u8],
    literals: &mut [u16],
    ends: &mut [u16],
    keys: &mut [u64],
) -> Result<Sizes, Refusal>
    ensures answer { let room = length keys.old in
        result ≡ opened_by text.now (length literals.old) (length ends.old) room }
    ensures literals { literals.new ≡ written result (literals_in (body_of text.now)) literals.old }
    ensures ends { ends.new ≡ written result (ends_from 0 (body_of text.now)) ends.old }
    ensures keys { keys.new ≡ written result (keys_of (formula_of text.now)) keys.old }
{
    let problem = problem_of(text)?;
    let n = problem.sizes.variables;
    let m = problem.sizes.clauses;
    let count = scan(text, problem.end, n, m)?;
    if literals.len() < count {
        return Err(Refusal::TooShort(count));
    }
    if ends.len() < m {
        return Err(Refusal::TooShort(m));
    }
    if keys.len() < m {
        return Err(Refusal::TooShort(m));
    }
    fill(text, problem.end, literals, ends);
    let clauses = Clauses {
        literals,
        ends,
        count: m,
    };
    keys::write(clauses, keys);
    Ok(problem.sizes)
}

// The problem line is the first line that is no comment; its n and m must be within their limits.
fn problem_of(text: &[u8]) -> Result<Problem, Refusal>
    ensures { result ≡ problem_of text.now }
{
    let start = comments::first_line(text);
    if text.len() <= start {
        return Err(Refusal::NoProblemLine(text.len()));
    }
    let end = dimacs::line_end(text, start);
    let Some(sizes) = sizes_of(&text[start..end]) else {
        return Err(Refusal::NoProblemLine(start));
    };
    if !fits(sizes) {
        return Err(Refusal::SizeOverLimit(start));
    }
    Ok(Problem { sizes, end })
}

// Whether n and m are within their limits.
fn fits(sizes: Sizes) -> bool
    ensures { result ≡ (leb sizes.variables max_variables && leb sizes.clauses max_clauses) }
{
    sizes.variables <= Record::MAX_VARIABLES && sizes.clauses <= Record::MAX_CLAUSES
}

// What a line says: the word `p` at its start, the word `cnf`, and two numbers.
fn sizes_of(line: &[u8]) -> Option<Sizes>
    ensures { result ≡ sizes_of line.now }
{
    if !is_word(line, 0, b"p") {
        return None;
    }
    let cnf = dimacs::next_word(line, 1);
    if !is_word(line, cnf, b"cnf") {
        return None;
    }
    two_numbers(line, cnf + 3)
}

// Two numbers that are not negative, and no word after them: what the four words say where the first two are as they should be.
fn two_numbers(line: &[u8], at: usize) -> Option<Sizes>
    ensures { (p cnf : Piece) → same_bytes p.bytes (112 ∷ []) ≡ true
        → same_bytes cnf.bytes (99 ∷ 110 ∷ 102 ∷ []) ≡ true
        → result ≡ four_words (p ∷ cnf ∷ words_at line.now at) }
{
    let first = dimacs::next_word(line, at);
    let Ok((n, past_n)) = dimacs::read(line, first) else {
        return None;
    };
    let second = dimacs::next_word(line, past_n.at);
    let Ok((m, past_m)) = dimacs::read(line, second) else {
        return None;
    };
    if dimacs::next_word(line, past_m.at) < line.len() {
        return None;
    }
    sizes_if(n, m)
}

// n and m, where neither is negative.
fn sizes_if(n: Number, m: Number) -> Option<Sizes>
    ensures { result ≡ sizes_if (Numeral.Is n) (Numeral.Is m) }
{
    if n.negative || m.negative {
        return None;
    }
    Some(Sizes {
        variables: n.size as usize,
        clauses: m.size as usize,
    })
}

// Whether the word at a place has these bytes.
fn is_word(line: &[u8], at: usize, bytes: &[u8]) -> bool
    requires { at ≤ length line.now }
    ensures { result ≡ same_bytes (word_at line.now at) bytes.now }
{
    let end = dimacs::word_end(line, at);
    &line[at..end] == bytes
}

// Judges the words past the end of the problem line and counts the literals. After m clauses every word is refusal 6, so it is not even read.
fn scan(text: &[u8], start: usize, n: usize, m: usize) -> Result<usize, Refusal>
    requires { Between text.now start }
    ensures { result ≡ scan_from (length text.now) n m 0 0 (words_past text.now start) }
{
    let mut at = start;
    let mut closed = 0;
    let mut count = 0;
    // From word to word: where the next one starts is known once this one is read.
    loop {
        let place = comments::next_word(text, at);
        if closed == m {
            if place < text.len() {
                return Err(Refusal::ClauseCount(place));
            }
            return Ok(count);
        }
        if text.len() <= place {
            return Err(Refusal::ClauseCount(text.len()));
        }
        let Ok((number, next)) = dimacs::read(text, place) else {
            return Err(Refusal::NotNumber(place));
        };
        let variable = number.size as usize;
        if variable == 0 {
            closed += 1;
        } else {
            if n < variable {
                return Err(Refusal::LiteralBeyond(place));
            }
            if count == Record::MAX_LITERALS {
                return Err(Refusal::TooManyLiterals(place));
            }
            count += 1;
        }
        at = next.at;
    }
}

// Writes the codes of the literals and the ends of the clauses, of words that make m clauses of `count` literals where there is room for all.
fn fill(text: &[u8], start: usize, literals: &mut [u16], ends: &mut [u16])
    requires { let words = words_past text.now start in
        (Between text.now start)
        × ((n : ℕ) × (m : ℕ) × (count : ℕ) × (n ≤ max_variables)
        × (scan_from (length text.now) n m 0 0 words ≡ Ok count)
        × (count ≤ length literals.old)
        × (m ≤ length ends.old)) }
    ensures literals { let words = words_past text.now start in
        literals.new ≡ overwritten (literals_in words) literals.old }
    ensures ends { let words = words_past text.now start in
        ends.new ≡ overwritten (ends_from 0 words) ends.old }
{
    let mut at = start;
    let mut closed = 0;
    let mut used = 0;
    // From word to word: where the next one starts is known once this one is read.
    loop {
        let word = comments::next_word(text, at);
        let Ok((number, next)) = dimacs::read(text, word) else {
            return;
        };
        if number.size == 0 {
            ends[closed] = used as u16;
            closed += 1;
        } else {
            literals[used] = literal::code(number.size as u16, number.negative);
            used += 1;
        }
        at = next.at;
    }
}
