// A trial of a row (document 02, CR 2): whether the row makes an assignment A smaller, found by looking "at the row's moved variables
// alone", in rising order, up to the first that decides; and which that was.
//
// A moved has at a moved variable x the value that A has at its image y, and everywhere else what A has. So the two first differ at the
// first x that has another value than its y, and there A's own value is the answer: A moved is smaller where that is true.
//
// The values come by code, as a table has them (`valuation`), but of that table only the places of moved variables and their images are
// asked for, as far as the first that decides: others may hold anything, or not be there. So no contract here speaks of a whole
// assignment. What a trial says of one is a theorem for every assignment that has the values lent at these places (`trial-answers`,
// proofs/Theorem.antt).
//
// A row may be tried many times and moves the same variables each time. Whoever does so notes its span first, from the first moved
// variable to the last, and a trial then walks that alone.
#![tactic(auto)]

ghost use Rattle.std.specs.Prelude.{◌≡◌, true, ◌+◌, ◌*◌, ◌≤◌, ◌<◌, length, [], MatchOption, IfSome};
ghost use Rattle.store.specs.Stores.{max_variables};
ghost use Rattle.lexleader.specs.Rows.{moved_pairs};
ghost use Rattle.lexleader.specs.Deciding.{deciding, lowers_along};
ghost use Rattle.valuation.specs.Tables.{by_code};
ghost use Rattle.trial.specs.Found.{variable_of, lowers_of};
ghost use Rattle.trial.specs.Spans.{moved_at, FirstMoved, placed, Decides, Covers, IsSpan};

// Whether the row makes the assignment smaller, and the variable that decided.
#[derive(Clone, Copy)]
pub struct Trial {
    pub lowers: bool,
    pub variable: usize,
}

// A part of a row, by indices: from `first` up to `end`, which is past its last.
#[derive(Clone, Copy)]
pub struct Span {
    pub first: usize,
    pub end: usize,
}

// Tries a row on the values of literals by code, where no variable outside of a span is moved; nothing is found where no variable decides.
pub fn try_row(row: &[u16], span: Span, values: &[bool]) -> Option<Trial>
    requires { Covers row.now span.first span.end × (placed values.now (moved_pairs row.now) ≡ true) }
    ensures variable { variable_of result ≡ deciding (by_code values.now) (moved_pairs row.now) }
    ensures lowers { lowers_of result ≡ lowers_along (by_code values.now) (moved_pairs row.now) }
    ensures decided { IfSome result (λ t. 1 ≤ t.variable) }
{
    let end = span.end;
    let mut i = span.first;
    // Counted by hand, for speed: two variables to a turn is a step and a test of the end less for every other one.
    while i + 1 < end {
        if decides(row, i, values) {
            return Some(decided(i, values));
        }
        if decides(row, i + 1, values) {
            return Some(decided(i + 1, values));
        }
        i += 2;
    }
    if i < end {
        if decides(row, i, values) {
            return Some(decided(i, values));
        }
    }
    None
}

// Whether the variable at an index decides: it is moved, and has another value than its image.
fn decides(row: &[u16], i: usize, values: &[bool]) -> bool
    requires { (i < length row.now) × (placed values.now (moved_at i row.now) ≡ true) }
    ensures { Decides row.now values.now i result }
{
    let own = 2 * (i + 1);
    let image = row[i] as usize;
    if image == own {
        return false;
    }
    values[own] != values[image]
}

// What the variable at an index decides: A moved is smaller where its value is true.
fn decided(i: usize, values: &[bool]) -> Trial
    requires { 2 * (i + 1) < length values.now }
    ensures variable { result.variable ≡ i + 1 }
    ensures lowers { result.lowers ≡ by_code values.now (2 * (i + 1)) }
{
    Trial {
        lowers: values[2 * (i + 1)],
        variable: i + 1,
    }
}

// The span of a row's moved variables: from the first to the last; an empty one at the row's end where nothing is moved, and no Option, as
// to walk it is then no case of its own (`IsSpan`).
pub fn span_of(row: &[u16]) -> Span
    requires { length row.now ≤ max_variables }
    ensures { IsSpan row.now result.first result.end }
{
    let first = first_moved(row).unwrap_or(row.len());
    for i in (first..row.len()).rev() {
        if row[i] as usize != 2 * (i + 1) {
            return Span { first, end: i + 1 };
        }
    }
    Span { first, end: first }
}

// The index of a row's first moved variable.
fn first_moved(row: &[u16]) -> Option<usize>
    requires { length row.now ≤ max_variables }
    ensures { MatchOption result (moved_pairs row.now ≡ []) (λ i. (i < length row.now) × FirstMoved row.now i) }
{
    for (i, image) in row.iter().enumerate() {
        if *image as usize != 2 * (i + 1) {
            return Some(i);
        }
    }
    None
}
