// The one test of a store's form, the opposite of refusal 21 but for the keys: every call that needs an open store makes it first. A store
// that passes it is a `Formed`, whose form is in its type: the functions below the public calls take that, or a part of it, and don't ask
// again. The test looks only at the entries in use.
ghost use Rattle.std.specs.Prelude.{◌≡◌, ◌*◌, ◌≤◌, ◌<◌, true, false, length, MatchOption};
ghost use Rattle.lists.specs.Tests.{all_of};
ghost use Rattle.store.specs.Literals.{is_literal};
ghost use Rattle.store.specs.Stores.{stored, is_formed, rising, is_row, rows_of, clause_at, clauses_in, max_variables};

use crate::clauses::Clauses;
use crate::record::Record;
use crate::rows::Rows;
use crate::{clauses, literal, rows};

// A well-formed store: its record and its images are its rows, for what reads no more of it.
#[derive(Clone, Copy)]
pub struct Formed<'a> {
    pub rows: Rows<'a>,
    pub literals: &'a [u16],
    pub ends: &'a [u16],
    pub ghost formed: { is_formed (stored rows.counts literals ends rows.images) ≡ true },
}

impl<'a> Formed<'a> {
    // What is lent, where it has its form.
    pub fn new(
        counts: Record,
        literals: &'a [u16],
        ends: &'a [u16],
        images: &'a [u16],
    ) -> Option<Formed<'a>>
        ensures { let s = stored counts literals.entry ends.entry images.entry in
            MatchOption result (is_formed s ≡ false) (λ f. stored f.rows.counts f.literals f.ends f.rows.images ≡ s) }
    {
        if !is_formed(counts, literals, ends, images) {
            return None;
        }
        Some(Formed {
            rows: Rows { counts, images },
            literals,
            ends,
        })
    }

    // Its clauses alone.
    pub fn clauses(self) -> Clauses<'a>
        ensures { clauses_in result.count result.literals.now result.ends.now
            ≡ clauses_in self.entry.rows.counts.clauses self.entry.literals.now self.entry.ends.now }
    {
        Clauses {
            literals: self.literals,
            ends: self.ends,
            count: self.rows.counts.clauses,
        }
    }

    // Clause c, from 0.
    pub fn clause(self, c: usize) -> &'a [u16]
        requires { c < self.rows.counts.clauses }
        ensures { result.now ≡ clause_at self.entry.literals.now self.entry.ends.now c }
    {
        clauses::clause(self.literals, self.ends, self.rows.counts.clauses, c)
    }
}

pub fn is_formed(counts: Record, literals: &[u16], ends: &[u16], images: &[u16]) -> bool
    ensures { result ≡ is_formed (stored counts literals.entry ends.entry images.entry) }
{
    let n = counts.variables;
    let m = counts.clauses;
    let k = counts.rows;
    if Record::MAX_VARIABLES < n {
        return false;
    }
    if Record::MAX_CLAUSES < m {
        return false;
    }
    if Record::MAX_ROWS < k {
        return false;
    }
    if ends.len() < m {
        return false;
    }
    if !ends_rise(&ends[..m]) {
        return false;
    }
    let used = clauses::literal_count(ends, m);
    if Record::MAX_LITERALS < used {
        return false;
    }
    if literals.len() < used {
        return false;
    }
    if !literals_within(&literals[..used], n) {
        return false;
    }
    if images.len() < k * n {
        return false;
    }
    rows_formed(images, n, k)
}

// Whether a row sends the variables 1..n to literals of which no two have one variable.
pub fn is_row(row: &[u16], n: usize) -> bool
    requires { n ≤ max_variables }
    ensures { result ≡ is_row n row.now }
{
    if row.len() != n {
        return false;
    }
    let mut seen = [false; Record::MAX_VARIABLES + 1];
    for code in row {
        if !is_literal(*code, n) {
            return false;
        }
        let v = literal::variable(u32::from(*code));
        if seen[v] {
            return false;
        }
        seen[v] = true;
    }
    true
}

// Whether each of the first k rows of n images is one.
fn rows_formed(images: &[u16], n: usize, k: usize) -> bool
    requires { (n ≤ max_variables) × (k * n ≤ length images.now) }
    ensures { result ≡ all_of (is_row n) (rows_of n k images.now) }
{
    for r in 0..k {
        if !is_row(rows::row(images, n, r), n) {
            return false;
        }
    }
    true
}

// Neither this loop nor the next one is left at a fault: with no way out before its end, the compiled loop looks at eight entries at once.
fn ends_rise(ends: &[u16]) -> bool
    ensures { result ≡ rising 0 ends.now }
{
    let mut rise = true;
    for i in 1..ends.len() {
        rise &= ends[i - 1] <= ends[i];
    }
    rise
}

fn literals_within(literals: &[u16], n: usize) -> bool
    requires { n ≤ max_variables }
    ensures { result ≡ all_of (is_literal n) literals.now }
{
    let mut all = true;
    for code in literals {
        all &= is_literal(*code, n);
    }
    all
}

// Whether a code is that of a literal of 1..n. One test serves for both ends: less 2, the codes 0 and 1 wrap to numbers that are not below 2 n.
// It compares 16 bits: so the loop above has eight codes to a step.
fn is_literal(code: u16, n: usize) -> bool
    requires { n ≤ max_variables }
    ensures { result ≡ is_literal n code }
{
    code.wrapping_sub(2) < (2 * n) as u16
}
