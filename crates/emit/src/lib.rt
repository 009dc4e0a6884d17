// The made formula as text (document 01, "Made formula"): the header, and clause q of a well-formed store, each as one line at the start of a lent buffer. A line is
// measured before it is written, so that a refusal has written nothing.
#![tactic(auto)]

ghost use Rattle.std.specs.Prelude.{◌≡◌, ◌+◌, ◌≤◌, [], length, get_or, map};
ghost use Rattle.store.specs.Refusals.{said, buffer_left};
ghost use Rattle.store.specs.Held.{store_of, held_by};
ghost use Rattle.store.specs.Stores.{max_literals};
ghost use Rattle.lexleader.specs.Made.{rows_clauses};
ghost use Rattle.render.specs.Text.{clause_line, header_line};
ghost use Rattle.emit.specs.Emit.{line_of, clause_by, added_by, written_if};

use lexleader::counting::Totals;
use store::form::Formed;
use store::literal::Coded;
use store::record::Record;
use store::refusal::Refusal;
use store::rows::Rows;

// Writes the header line of N variables and M clauses.
pub fn header(total: Totals, out: &mut [u8]) -> Result<u64, Refusal>
    ensures answer { said result ≡ written_if (header_line total.variables total.clauses) (length out.old) }
    ensures buffer { out.new ≡ buffer_left (said result) (header_line total.variables total.clauses) out.old }
{
    let variables = total.variables as u64;
    let clauses = total.clauses as u64;
    let needed = render::header_length(variables, clauses);
    if out.len() < needed {
        return Err(Refusal::TooShort(needed));
    }
    render::put_header(out, 0, variables, clauses);
    Ok(needed as u64)
}

// Writes the line of clause q, from 1.
pub fn clause(s: Formed, q: usize, out: &mut [u8]) -> Result<u64, Refusal>
    ensures answer { said result ≡ clause_by (store_of s.entry) q (length out.old) }
    ensures buffer { out.new ≡ buffer_left (said result) (line_of (store_of s.entry) q) out.old }
{
    // Document 01 counts clauses from 1, and 0 is no clause (`clause_by`).
    if q == 0 {
        return Err(Refusal::NoSuchClause);
    }
    let c = q - 1;
    let rows = s.rows;
    let counts = rows.counts;
    if c < counts.clauses {
        return write_clause(s.clause(c), out);
    }
    let mut marks = [false; Record::MAX_VARIABLES];
    let n = counts.variables;
    added(rows, c - counts.clauses, &mut marks[..n], out)
}

// A clause that the rows add, by its number among those, from 0, with room for the marks of a row.
fn added(rows: Rows, c: usize, marks: &mut [bool], out: &mut [u8]) -> Result<u64, Refusal>
    requires { length marks.old ≡ rows.counts.variables }
    ensures answer { let clauses = rows_clauses (rows.entry.counts.variables + 1) (held_by rows.entry) in
        said result ≡ added_by clauses c (length out.old) }
    ensures buffer { let clauses = rows_clauses (rows.entry.counts.variables + 1) (held_by rows.entry) in
        out.new ≡ buffer_left (said result) (clause_line (get_or clauses c [])) out.old }
{
    match lexleader::numbered::find(rows, c, marks) {
        Some(spot) => {
            let row = rows.row(spot.row).images;
            let clause = lexleader::numbered::row_clause(row, marks, spot.auxiliary, spot.number);
            write_clause(&clause.literals[..clause.count], out)
        }
        None => Err(Refusal::NoSuchClause),
    }
}

// A clause, of stored or of made codes.
fn write_clause<C: Coded>(clause: &[C], out: &mut [u8]) -> Result<u64, Refusal>
    requires { length clause.now ≤ max_literals }
    ensures answer { said result ≡ written_if (clause_line (map C.code clause.now)) (length out.old) }
    ensures buffer { out.new ≡ buffer_left (said result) (clause_line (map C.code clause.now)) out.old }
{
    let needed = render::clause_length(clause);
    if out.len() < needed {
        return Err(Refusal::TooShort(needed));
    }
    render::put_clause(out, 0, clause);
    Ok(needed as u64)
}
