// Descent (document 01, "Assignments, filling in and descent"): "Descent takes the first row by which A moved is < A, puts that in A,
// and goes on, at most as often as a lent 64-bit limit says." It is settled when no row lowers A, and that is tried before the limit, so
// a limit reached at the last useful move is no spent descent.
//
// A row is tried far more often than it moves: up to 64 rows at each of the moves, and most are told apart from A at one of the first
// variables that they move. So the values of all literals are put into a table by code once (`valuation::tabulate`), and where each row's
// moved variables are is noted once (`spans::note`). A row is then tried by reading the table at what it moves (`trial::try_row`), and the
// row that is taken changes the table there alone (`move_by`), by way of a second table, as what a variable had may still be asked for
// when it is moved. The words are written once, at the end.
//
// What makes the proof go: a table is that of one assignment, `bits_in` of it, and every contract speaks of that; words occur in `descend`
// alone. The invariant of `settle` (`Reached`) is that the descent from the table as it was lent comes to what the descent from the table
// as it is now comes to with the moves that are left; a turn is one unfolding of `descend_from`.
#![tactic(auto)]

mod spans;

ghost use Rattle.std.specs.Prelude.{◌≡◌, true, ◌<◌, ◌≤◌, length, MatchOption};
ghost use Rattle.packed.specs.Words.{bits_of, word_count, words_of, is_assignment};
ghost use Rattle.store.specs.Held.{held_by};
ghost use Rattle.store.specs.Stores.{max_variables, row_at};
ghost use Rattle.lexleader.specs.Rows.{moved, lowers};
ghost use Rattle.lexleader.specs.Descent.{rest, to, step_by, descend};
ghost use Rattle.valuation.specs.Tables.{bits_in, Table};
ghost use Rattle.trial.specs.Spans.{Covers};
ghost use Rattle.descent.specs.Words.{answer_of, reached_by, outcome_of, descended};
ghost use Rattle.descent.specs.Noted.{Noted};
ghost use Rattle.descent.specs.Moving.{MovedSpan};

use store::record::Record;
use store::row::Row;
use store::rows::Rows;
use trial::Span;

// How a descent ends, with the count of its moves.
#[derive(Clone, Copy)]
pub enum Descended {
    Settled(u64),
    Spent(u64),
}

// Descends from an assignment of 1..n, by the rows of a well-formed store.
pub fn descend(rows: Rows, a: &mut [u64], limit: u64) -> Descended
    requires { is_assignment rows.counts.variables a.old ≡ true }
    ensures answer { outcome_of result ≡ answer_of (descend limit (held_by rows.entry) (bits_of rows.entry.counts.variables a.old)) }
    ensures reached { a.new ≡ descended rows.entry.counts.variables limit (held_by rows.entry) a.old }
{
    let mut values = [false; valuation::TABLE];
    valuation::tabulate(a, rows.counts.variables, &mut values);
    let mut next = values;
    let mut spans = [Span { first: 0, end: 0 }; Record::MAX_ROWS];
    spans::note(rows, &mut spans);
    let ended = settle(rows, &spans, &mut next, &mut values, limit);
    write_back(&values, rows.counts.variables, a);
    ended
}

// Descends from the assignment of a table. A second one, the same before and after, is lent to write moves into.
fn settle(
    rows: Rows,
    spans: &[Span],
    next: &mut [bool],
    values: &mut [bool],
    limit: u64,
) -> Descended
    requires { Noted rows.counts.variables rows.counts.rows rows.images.now spans.now × Table rows.counts.variables values.old × (next.old ≡ values.old) }
    ensures answer { let n = rows.entry.counts.variables in
        outcome_of result ≡ answer_of (descend limit (held_by rows.entry) (bits_in n values.old)) }
    ensures table { Table rows.entry.counts.variables values.new }
    ensures reached { let n = rows.entry.counts.variables in
        bits_in n values.new ≡ reached_by (descend limit (held_by rows.entry) (bits_in n values.old)) }
    ensures same { next.new ≡ values.new }
{
    let mut moves: u64 = 0;
    while let Some(r) = first_lowering(rows, spans, values) {
        if moves == limit {
            return Descended::Spent(moves);
        }
        move_by(rows.row(r), spans[r], next, values);
        moves += 1;
    }
    Descended::Settled(moves)
}

// The first row, from 0, that makes the assignment of a table smaller.
fn first_lowering(rows: Rows, spans: &[Span], values: &[bool]) -> Option<usize>
    requires { Noted rows.counts.variables rows.counts.rows rows.images.now spans.now × Table rows.counts.variables values.now }
    ensures { let n = rows.entry.counts.variables in let bits = bits_in n values.now in
        MatchOption result (step_by (held_by rows.entry) bits ≡ rest)
        (λ r. (r < rows.entry.counts.rows) × (step_by (held_by rows.entry) bits ≡ to (moved (row_at n r rows.entry.images.now) bits))) }
{
    for r in 0..rows.counts.rows {
        if makes_smaller(rows.row(r), spans[r], values) {
            return Some(r);
        }
    }
    None
}

// Whether a row, of which no variable outside of a span is moved, makes the assignment of a table smaller.
fn makes_smaller(row: Row, span: Span, values: &[bool]) -> bool
    requires { let row = row.images.now in Covers row span.first span.end × Table (length row) values.now }
    ensures { let row = row.entry.images.now in result ≡ lowers row (bits_in (length row) values.now) }
{
    trial::try_row(row.images, span, values).is_some_and(|found| found.lowers)
}

// Moves the assignment of two tables that are the same by a row, of which no variable outside of a span is moved.
fn move_by(row: Row, span: Span, next: &mut [bool], values: &mut [bool])
    requires { let row = row.images.now in
        Covers row span.first span.end × Table (length row) values.old × (next.old ≡ values.old) }
    ensures table { Table (length row.entry.images.now) values.new }
    ensures bits { let row = row.entry.images.now in let n = length row in
        bits_in n values.new ≡ moved row (bits_in n values.old) }
    ensures same { next.new ≡ values.new }
{
    let from = 2 * (span.first + 1);
    let to = 2 * (span.end + 1);
    move_span(row, span, values, next);
    values[from..to].copy_from_slice(&next[from..to]);
}

// Writes into the second table what the variables of a span have once they are moved: the values of their images.
#[tactic(auto, using(crate::proofs::MoveLaws::image_within))]
fn move_span(row: Row, span: Span, values: &[bool], next: &mut [bool])
    requires { let row = row.images.now in
        Covers row span.first span.end × Table (length row) values.now × (next.old ≡ values.now) }
    ensures { MovedSpan row.entry.images.now span.first span.end values.now next.new }
{
    let images = row.images;
    for i in span.first..span.end {
        let own = 2 * (i + 1);
        let image = images[i] as usize;
        let value = values[image];
        next[own] = value;
        next[own + 1] = !value;
    }
}

// Writes the words of the assignment of 1..n in a table over those it began as.
fn write_back(values: &[bool], n: usize, a: &mut [u64])
    requires { (n ≤ max_variables) × Table n values.now × (length a.old ≡ word_count n) }
    ensures { a.new ≡ words_of (bits_in n values.now) }
{
    let w = valuation::write(values, n, a);
    packed::writer::finish(a, w);
}
