// Filling in (document 01, "Assignments, filling in and descent"): "Filling in writes an assignment of 1..N: A itself, and ej true
// exactly when A agrees with A moved by p on x1 .. xj. Words after it stay."
//
// The auxiliaries of a row stand for its x but the last, in their order, and agreement as far as xj is agreement as far as x(j-1) and at
// xj. So along a row the auxiliaries are a run of true, as long as the x agree with their images, and then a run of false: once two values
// differ, nothing behind them is looked at. The first moved variable that does not agree with its image is one of the x, since one that is
// left out agrees where all before it do. Hence a row costs a walk of its cycles that marks what is left out and, mostly short, a trial
// (`trial::try_row`) for the first variable that does not agree and a count of the x before it (`agreeing`); and then two runs, which a
// writer takes up to 32 values at a time (`packed::writer`). Values are read from a table by code (`valuation::tabulate`), not from the
// words.
//
// What makes the proof go: `settings-runs` (proofs/Runs.antt) says that the definition, which carries agreement along the pairs, is these
// two runs; each function's contract is that it appends its values to whatever the writer holds (`Appends`), so the loop over the rows
// needs only that the rows passed and the rows left make up all of them.
#![tactic(auto)]

ghost use Rattle.std.specs.Prelude.{◌≡◌, true, ◌++◌, ◌≤◌, length, drop};
ghost use Rattle.packed.specs.Words.{word_count, is_assignment};
ghost use Rattle.packed.specs.Order.{value_of};
ghost use Rattle.packed.specs.Writing.{WriterRoom, Appends};
ghost use Rattle.store.specs.Held.{held_by};
ghost use Rattle.cycles.specs.Marks.{marks_of};
ghost use Rattle.lexleader.specs.Rows.{pairs_of};
ghost use Rattle.lexleader.specs.Made.{auxiliaries, all_auxiliaries, made_variables, row_settings, settings};
ghost use Rattle.valuation.specs.Tables.{bits_in, Table};
ghost use Rattle.filling.specs.Written.{agreeing, filled_words};

use packed::writer;
use packed::writer::Writer;
use store::record::Record;
use store::row::Row;
use store::rows::Rows;
use trial::Span;

// Writes the assignment of 1..N that an assignment of 1..n fills in as, by the rows of a well-formed store, and answers how many words it has.
pub fn fill(rows: Rows, a: &[u64], out: &mut [u64]) -> usize
    requires { let n = rows.counts.variables in
        (is_assignment n a.now ≡ true) × (word_count (made_variables n (held_by rows)) ≤ length out.old) }
    ensures words { result ≡ word_count (made_variables rows.entry.counts.variables (held_by rows.entry)) }
    ensures buffer { let n = rows.entry.counts.variables in let held = held_by rows.entry in
        out.new ≡ filled_words n held a.now ++ drop (word_count (made_variables n held)) out.old }
{
    let n = rows.counts.variables;
    let mut values = [false; valuation::TABLE];
    valuation::tabulate(a, n, &mut values);
    let plain = valuation::write(&values, n, out);
    let mut marks = [false; Record::MAX_VARIABLES];
    let all = fill_rows(rows, &values, &mut marks[..n], out, plain);
    writer::finish(out, all)
}

// The values of the auxiliaries of all rows, for the assignment of a table, with room for the marks of a row.
fn fill_rows(rows: Rows, values: &[bool], marks: &mut [bool], out: &mut [u64], w: Writer) -> Writer
    requires { let n = rows.counts.variables in
        Table n values.now × (length marks.old ≡ n) × WriterRoom w (all_auxiliaries (held_by rows)) out.old }
    ensures { let bits = bits_in rows.entry.counts.variables values.now in
        Appends w (settings (held_by rows.entry) bits) out.old result out.new }
{
    let mut taken = w;
    for r in 0..rows.counts.rows {
        taken = fill_row(rows.row(r), values, marks, out, taken);
    }
    taken
}

// The values of a row's auxiliaries, one for each x but the last: true as far as the x agree with their images, false from there on.
fn fill_row(row: Row, values: &[bool], marks: &mut [bool], out: &mut [u64], w: Writer) -> Writer
    requires { let row = row.images.now in let n = length row in
        Table n values.now × (length marks.old ≡ n) × WriterRoom w (auxiliaries row) out.old }
    ensures { let row = row.entry.images.now in
        Appends w (row_settings row (bits_in (length row) values.now)) out.old result out.new }
{
    let added = lexleader::counting::added_by(row, marks);
    let all = added.auxiliaries;
    let agreed = agreeing(row, values, marks).min(all);
    let begun = writer::push_run(out, w, true, agreed);
    writer::push_run(out, begun, false, all - agreed)
}

// How many x agree with their images before the first that does not, by the marks of what is left out of the row.
fn agreeing(row: Row, values: &[bool], marks: &[bool]) -> usize
    requires { let row = row.images.now in Table (length row) values.now × (marks.now ≡ marks_of row) }
    ensures { let row = row.entry.images.now in
        result ≡ agreeing (value_of (bits_in (length row) values.now)) (pairs_of row) }
{
    let span = Span {
        first: 0,
        end: row.images.len(),
    };
    match trial::try_row(row.images, span, values) {
        Some(tried) => lexleader::counting::pair_count(&marks[..tried.variable - 1]),
        None => lexleader::counting::pair_count(marks),
    }
}
