// The permutation that the two lines of an offer state (document 01, "Permutations", and refusals 7 to 10). Each rule is tried over its
// whole line before the next. A word that is no number is no name and no value either, so that a line in which 8 or 10 finds no fault has
// none of 7 or 9: each line is walked once, and a second time only to be refused. The idea of the proofs: a line is the list of its words,
// and a rule is a search through that list.
#![tactic(auto)]

ghost use Rattle.std.specs.Prelude.{◌≡◌, false, cond, [], ◌++◌, ◌≤◌, length, take, drop, replicate};
ghost use Rattle.lists.specs.Tests.{has};
ghost use Rattle.dimacs.specs.Words.{words_at};
ghost use Rattle.store.specs.Literals.{code_of, is_literal};
ghost use Rattle.store.specs.Stores.{max_variables};
ghost use Rattle.store.specs.Identity.{identity};
ghost use Rattle.permutation.specs.Lines.{is_name, not_number, bad_value_after, values_on};
ghost use Rattle.permutation.specs.Stated.{stated_by, row_stated, row_of};
ghost use Rattle.permutation.specs.Names.{Named, Marks, Walked};

use dimacs::Number;
use store::record::Record;
use store::refusal::Refusal;

// A mark for each variable, by its number; that of 0 is not used.
const MARKS: usize = Record::MAX_VARIABLES + 1;

// Whether the two lines state a permutation, by the rules 7, 8, 9 and 10 in that order, and its row over the first n entries. The row is the
// caller's scratch memory: after a refusal it may hold anything.
pub fn state(names: &[u8], values: &[u8], n: usize, row: &mut [u16]) -> Result<(), Refusal>
    requires { (n ≤ max_variables) × (n ≤ length row.old) }
    ensures answer { result ≡ stated_by n names.now values.now }
    ensures row { result ≡ Ok tt
        → row.new ≡ row_stated n names.now values.now ++ drop n row.old }
{
    let mut marks = [false; MARKS];
    let mut order = [0u16; Record::MAX_VARIABLES];
    match list_names(names, n, &mut marks, &mut order) {
        Err(place) => Err(not_number(names).map_or(
            Refusal::BadName(place),
            Refusal::NameNotNumber,
        )),
        Ok(count) => {
            identity(n, row);
            match place_values(&order[..count], &mut marks, values, n, row) {
                Some(place) => Err(not_number(values).map_or(
                    Refusal::BadValue(place),
                    Refusal::ValueNotNumber,
                )),
                None => Ok(()),
            }
        }
    }
}

// 8: lists the names in their order and marks them, up to the first outside 1..n or repeated; the line's end is bad where there is no name.
fn list_names(
    names: &[u8],
    n: usize,
    marks: &mut [bool; MARKS],
    order: &mut [u16; Record::MAX_VARIABLES],
) -> Result<usize, usize>
    requires { (n ≤ max_variables) × (marks.old ≡ replicate 513 false) × (n ≤ length order.old) }
    ensures { Walked n names.now marks.new order.new result }
{
    let mut count = 0;
    let mut at = 0;
    // From word to word: where the next one starts is known once this one is read.
    loop {
        let place = dimacs::next_word(names, at);
        if names.len() <= place {
            if count == 0 {
                return Err(names.len());
            }
            return Ok(count);
        }
        let Ok((number, next)) = dimacs::read(names, place) else {
            return Err(place);
        };
        let Some(name) = name_of(number, n) else {
            return Err(place);
        };
        if marks[name] {
            return Err(place);
        }
        marks[name] = true;
        order[count] = name as u16;
        count += 1;
        at = next.at;
    }
}

// The variable of 1..n that a number names: no name is signed.
fn name_of(number: Number, n: usize) -> Option<usize>
    ensures { result ≡ cond (is_name n (code_of number.size number.negative)) (Some number.size) None }
{
    if number.negative {
        return None;
    }
    size_of(number, n)
}

// The variable of 1..n that a number is or negates.
fn size_of(number: Number, n: usize) -> Option<usize>
    ensures { result ≡ cond (is_literal n (code_of number.size number.negative)) (Some number.size) None }
{
    let size = number.size as usize;
    if size == 0 {
        return None;
    }
    if n < size {
        return None;
    }
    Some(size)
}

// 7 and 9: the first word that is no number.
fn not_number(line: &[u8]) -> Option<usize>
    ensures { result ≡ not_number (words_at line.now 0) }
{
    let mut at = 0;
    // From word to word: where the next one starts is known once this one is read.
    loop {
        let place = dimacs::next_word(line, at);
        if line.len() <= place {
            return None;
        }
        let Ok((_, next)) = dimacs::read(line, place) else {
            return Some(place);
        };
        at = next.at;
    }
}

// Every variable stays.
fn identity(n: usize, row: &mut [u16])
    requires { (n ≤ max_variables) × (n ≤ length row.old) }
    ensures { row.new ≡ identity n ++ drop n row.old }
{
    for i in 0..n {
        row[i] = store::literal::code((i + 1) as u16, false);
    }
}

// 10: the first value whose size is no name or repeated, or the line's end where there are too few. Each value before it is put in the row,
// with its sign, in the place of the name that stands where it does in its line. A name is free until a value uses it.
fn place_values(
    order: &[u16],
    free: &mut [bool; MARKS],
    values: &[u8],
    n: usize,
    row: &mut [u16],
) -> Option<usize>
    requires { (n ≤ max_variables)
        × Named n order.now
        × Marks (has order.now) free.old
        × (n ≤ length row.old)
        × (take n row.old ≡ identity n) }
    ensures answer { let line = values.now in
        result ≡ bad_value_after order.now (length line) [] (words_at line 0) }
    ensures row { result ≡ None
        → row.new ≡ row_of n order.now (values_on values.now) ++ drop n row.old }
{
    let mut used = 0;
    let mut at = 0;
    // From word to word: where the next one starts is known once this one is read.
    loop {
        let place = dimacs::next_word(values, at);
        if values.len() <= place {
            if used < order.len() {
                return Some(values.len());
            }
            return None;
        }
        let Ok((number, next)) = dimacs::read(values, place) else {
            return Some(place);
        };
        let Some(size) = size_of(number, n) else {
            return Some(place);
        };
        if !free[size] {
            return Some(place);
        }
        free[size] = false;
        let name = order[used] as usize;
        used += 1;
        row[name - 1] = store::literal::code(size as u16, number.negative);
        at = next.at;
    }
}
