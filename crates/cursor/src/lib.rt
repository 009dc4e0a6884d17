// A walk through the made formula's clauses (document 01, "Made formula"), one after another, by a cursor and never by a number.
//
// To find clause q one has to count what the rows before its own add, and in its row to pass the x before it: up to 64 rows of 512 images
// are read for one clause, and as many again for the next. A cursor keeps what that count found: how many plain clauses are passed, the row
// whose clause comes next, and the place in it. From there the next clause costs a few reads. What is left out of the cursor's row is kept
// beside it, in marks that the caller lends and that are made anew when the cursor comes to another row, so the cycles of every row are
// walked once for all of its clauses. A cursor itself is a value: a caller may keep one from page to page and go on from it, with the marks
// made again (`mark`), and two walks never disturb each other. Only the clause call looks a clause up by its number (`lexleader::numbered`).
//
// The proofs gain as much. There is no arithmetic on numbers of clauses: what a cursor means is the list of the clauses that are left from
// it on (specs/Cursors.antt), each step takes clauses off the front of that list, and whoever walks has his invariant over it. The plain
// clauses are the store's own and a cursor only counts them, so what is left is said for any plain clauses, as many as the record counts,
// and no function here reads a literal.
#![tactic(auto)]

ghost use Rattle.std.specs.Prelude.{◌≡◌, true, List, [], ◌∷◌, ℕ, ◌+◌, ◌≤◌, length, get_or};
ghost use Rattle.store.specs.Held.{held_by};
ghost use Rattle.store.specs.Stores.{rows_from};
ghost use Rattle.lexleader.specs.Made.{made, rows_clauses};
ghost use Rattle.lexleader.specs.Bounds.{max_before};
ghost use Rattle.lexleader.specs.Places.{clauses_at, six_at, auxiliary_after, PlaceStands, PlaceAfter};
ghost use Rattle.cursor.specs.Cursors.{added_from, remaining, row_of, CursorStands, RowMarked, ClauseRemains, AtAdded, AtAuxiliary, CursorAfter};

use lexleader::places::Place;
use store::record::Record;
use store::rows::Rows;

// How many plain clauses are passed, the row whose clauses come next, and the place among them. Past all rows the row is their count
// (`CursorStands`).
#[derive(Clone, Copy)]
pub struct Cursor {
    pub plain: usize,
    pub row: usize,
    pub place: Place,
}

// The cursor before the first clause.
pub fn start(rows: Rows, marks: &mut [bool]) -> Cursor
    requires { length marks.old ≡ rows.counts.variables }
    ensures stands { CursorStands rows.entry.counts rows.entry.images.now result }
    ensures remaining { let counts = rows.entry.counts in let held = held_by rows.entry in
        ((plain : List (List ℕ)) → remaining plain counts rows.entry.images.now result ≡ made counts.variables plain held) }
    ensures marks { RowMarked rows.entry.counts rows.entry.images.now result marks.new }
{
    row_from(rows, 0, 0, rows.counts.variables as u32 + 1, marks)
}

// Marks what is left out of the row that a cursor is in.
pub fn mark(rows: Rows, cursor: Cursor, marks: &mut [bool])
    requires { CursorStands rows.counts rows.images.now cursor × (length marks.old ≡ rows.counts.variables) }
    ensures { RowMarked rows.entry.counts rows.entry.images.now cursor marks.new }
{
    if cursor.row < rows.counts.rows {
        cycles::leave_out(rows.row(cursor.row), marks);
    }
}

// The cursor after the clause at one.
pub fn next(rows: Rows, cursor: Cursor, marks: &mut [bool]) -> Cursor
    requires { CursorStands rows.counts rows.images.now cursor × ClauseRemains rows.counts cursor × RowMarked rows.counts rows.images.now cursor marks.old }
    ensures stands { CursorStands rows.entry.counts rows.entry.images.now result }
    ensures remaining { let counts = rows.entry.counts in let images = rows.entry.images.now in
        ((plain : List (List ℕ)) → length plain ≡ counts.clauses
        → remaining plain counts images cursor ≡ get_or (remaining plain counts images cursor) 0 [] ∷ remaining plain counts images result) }
    ensures marks { RowMarked rows.entry.counts rows.entry.images.now result marks.new }
{
    if cursor.plain < rows.counts.clauses {
        return Cursor {
            plain: cursor.plain + 1,
            ..cursor
        };
    }
    next_added(rows, cursor, marks)
}

// The cursor after a clause that a row adds, in the same row or a later one.
pub fn next_added(rows: Rows, cursor: Cursor, marks: &mut [bool]) -> Cursor
    requires { CursorStands rows.counts rows.images.now cursor × AtAdded rows.counts cursor × RowMarked rows.counts rows.images.now cursor marks.old }
    ensures after { let counts = rows.entry.counts in let images = rows.entry.images.now in
        let clause = get_or (clauses_at (row_of counts images cursor) cursor.place) 0 [] in
        CursorAfter counts images cursor (clause ∷ []) result }
    ensures marks { RowMarked rows.entry.counts rows.entry.images.now result marks.new }
{
    let row = rows.row(cursor.row).images;
    let place = lexleader::places::next_place(row, marks, cursor.place);
    at_place(rows, cursor, place, marks)
}

// Whether a cursor stands at the first of an auxiliary's six clauses.
pub fn at_auxiliary(counts: Record, cursor: Cursor) -> bool
    ensures { result ≡ true → AtAuxiliary counts cursor }
{
    counts.clauses <= cursor.plain
        && cursor.row < counts.rows
        && cursor.place.r == 1
        && cursor.place.next < counts.variables
}

// The cursor after the six clauses of an auxiliary, from one at the first of them.
pub fn next_auxiliary(rows: Rows, cursor: Cursor, marks: &mut [bool]) -> Cursor
    requires { CursorStands rows.counts rows.images.now cursor × AtAuxiliary rows.counts cursor × RowMarked rows.counts rows.images.now cursor marks.old }
    ensures after { let counts = rows.entry.counts in let images = rows.entry.images.now in
        CursorAfter counts images cursor (six_at (row_of counts images cursor) cursor.place) result }
    ensures marks { RowMarked rows.entry.counts rows.entry.images.now result marks.new }
{
    let row = rows.row(cursor.row).images;
    let place = lexleader::places::next_auxiliary(row, marks, cursor.place);
    at_place(rows, cursor, place, marks)
}

// The cursor at a later place of its row, or past the row's last clause at the first one of a later row.
fn at_place(rows: Rows, cursor: Cursor, place: Place, marks: &mut [bool]) -> Cursor
    requires { let counts = rows.counts in let images = rows.images.now in
        let row = row_of counts images cursor in
        CursorStands counts images cursor × AtAdded counts cursor
        × PlaceStands row place × (auxiliary_after row place ≡ auxiliary_after row cursor.place) × RowMarked counts images cursor marks.old }
    ensures after { let counts = rows.entry.counts in let images = rows.entry.images.now in
        ((clauses : List (List ℕ)) → PlaceAfter (row_of counts images cursor) cursor.place clauses place
        → CursorAfter counts images cursor clauses result) }
    ensures marks { RowMarked rows.entry.counts rows.entry.images.now result marks.new }
{
    if place.index < rows.counts.variables {
        return Cursor { place, ..cursor };
    }
    row_from(rows, cursor.plain, cursor.row + 1, place.auxiliary, marks)
}

// The cursor at the first clause that a row or a later one adds, where e is the row's first auxiliary.
fn row_from(rows: Rows, plain: usize, row: usize, e: u32, marks: &mut [bool]) -> Cursor
    requires { let counts = rows.counts in
        (length marks.old ≡ counts.variables) × (plain ≤ counts.clauses) × (row ≤ counts.rows) × (e ≤ max_before row + 1) }
    ensures stands { CursorStands rows.entry.counts rows.entry.images.now result × (result.plain ≡ plain) }
    ensures remaining { let counts = rows.entry.counts in let images = rows.entry.images.now in
        let left = rows_from counts.variables counts.rows images row in
        added_from counts images result.row result.place ≡ rows_clauses e left }
    ensures marks { RowMarked rows.entry.counts rows.entry.images.now result marks.new }
{
    let n = rows.counts.variables;
    let mut first = e;
    for r in row..rows.counts.rows {
        let held = rows.row(r);
        cycles::leave_out(held, marks);
        let place = lexleader::places::first_place(held.images, marks, first);
        if place.index < n {
            return Cursor {
                plain,
                row: r,
                place,
            };
        }
        first = place.auxiliary;
    }
    Cursor {
        plain,
        row: rows.counts.rows,
        place: nowhere(),
    }
}

// The place of a cursor past all rows, of which `CursorStands` says nothing and which nothing reads.
fn nowhere() -> Place {
    Place {
        index: 0,
        next: 0,
        auxiliary: 0,
        j: 1,
        r: 1,
    }
}
