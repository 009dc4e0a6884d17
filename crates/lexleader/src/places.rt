// The clauses that a row adds, one after another: a place says where among them, and what the table needs to know there.
//
// A row compares an assignment with what the row makes of it, A with A moved by p, by the first variable at which they differ. A variable
// that p leaves where it is has the same value in both, and so has the largest of a cycle where all smaller variables do and going round the
// cycle turns the sign an even number of times: the value comes back round the cycle as it was (`left-agrees`, proofs/Agree.antt). So A and
// A moved first differ at a variable that is not left out (`cycles`), and the table is asked about the pairs x1, y1 .. xk, yk of these alone
// (`along-pairs`, proofs/Remaining.antt). A row is therefore walked from x to x, by the marks of what is left out, which are made once a
// row; and a place has the index of the pair's variable, that of the next one, the auxiliary's number, and which clause of the six comes
// next. From it the next place is found without looking back: the marks are read once for all clauses of a row, however many.
ghost use Rattle.std.specs.Prelude.{◌≡◌, List, ◌∷◌, [], ℕ, ◌+◌, ◌-◌, ◌*◌, ◌≤◌, ◌<◌, length, get_or, drop};
ghost use Rattle.store.specs.Stores.{max_variables};
ghost use Rattle.cycles.specs.Marks.{marks_of};
ghost use Rattle.lexleader.specs.Made.{row_clauses, auxiliaries};
ghost use Rattle.lexleader.specs.Bounds.{max_made_variables};
ghost use Rattle.lexleader.specs.Clause.{ClauseIs, NextPair};
ghost use Rattle.lexleader.specs.Places.{clauses_at, six_at, past_last, ClauseStands, PlaceLeaves, PlaceAfter};

use crate::table;
use crate::table::Clause;

// A place among the clauses that a row adds: clause r of auxiliary j, that auxiliary's number, and the indices of its pair's variable and
// of the next one. Past the last clause the index is the row's length and the number that of the next row's first auxiliary, which the walk
// goes on from: so there is a place too where no clause is (`past_last`), and it is no Option. j and r are document 01's numbers, by which
// its table is matched on.
#[derive(Clone, Copy)]
pub struct Place {
    pub index: usize,
    pub next: usize,
    pub auxiliary: u32,
    pub j: usize,
    pub r: usize,
}

// The place of a row's first clause, its first auxiliary being e.
pub fn first_place(row: &[u16], marks: &[bool], e: u32) -> Place
    requires { (length row.now ≤ max_variables) × (marks.now ≡ marks_of row.now) × (e + auxiliaries row.now ≤ max_made_variables + 1) }
    ensures { let row = row.entry.now in PlaceLeaves row result (row_clauses e row) (e + auxiliaries row) }
{
    let index = next_pair(marks, 0);
    if index == row.len() {
        return no_place(row, e);
    }
    let next = next_pair(marks, index + 1);
    Place {
        index,
        next,
        auxiliary: e,
        j: 1,
        r: 1,
    }
}

// The clause at a place. A row with one x only has the table's first clause and no auxiliary.
pub fn clause_at(row: &[u16], place: Place) -> Clause
    requires { ClauseStands row.now place }
    ensures { ClauseIs result (get_or (clauses_at row.now place) 0 []) }
{
    let i = place.index;
    let next = place.next;
    let x = own_code(i);
    let y = store::literal::wide(row[i]);
    if next == row.len() {
        return table::table_clause(1, 1, place.auxiliary, x, y, x, y);
    }
    let x2 = own_code(next);
    let y2 = store::literal::wide(row[next]);
    table::table_clause(place.r, place.j, place.auxiliary, x, y, x2, y2)
}

// The place after one at which a clause stands.
pub fn next_place(row: &[u16], marks: &[bool], place: Place) -> Place
    requires { ClauseStands row.now place × (marks.now ≡ marks_of row.now) }
    ensures { let row = row.entry.now in PlaceAfter row place (get_or (clauses_at row place) 0 [] ∷ []) result }
{
    if place.next == row.len() {
        return no_place(row, place.auxiliary);
    }
    if place.r < 6 {
        return Place {
            r: place.r + 1,
            ..place
        };
    }
    next_auxiliary(row, marks, place)
}

// The place after the clauses of the auxiliary at one, whose pair is not the row's last.
pub fn next_auxiliary(row: &[u16], marks: &[bool], place: Place) -> Place
    requires { ClauseStands row.now place × (marks.now ≡ marks_of row.now) × (place.next < length row.now) }
    ensures { let row = row.entry.now in PlaceAfter row place (drop (place.r - 1) (six_at row place)) result }
{
    let e = place.auxiliary + 1;
    let next = next_pair(marks, place.next + 1);
    if next == row.len() {
        return no_place(row, e);
    }
    Place {
        index: place.next,
        next,
        auxiliary: e,
        j: place.j + 1,
        r: 1,
    }
}

// The place past a row's clauses, where e is the next row's first auxiliary.
fn no_place(row: &[u16], e: u32) -> Place
    ensures { result ≡ past_last row.now e }
{
    Place {
        index: row.len(),
        next: row.len(),
        auxiliary: e,
        j: 1,
        r: 1,
    }
}

// The index of a row's first x at or after an index, by the marks of what is left out; the row's length where there is none, as `NextBut`
// says and a place's `next` needs it.
pub fn next_pair(marks: &[bool], from: usize) -> usize
    requires { from ≤ length marks.now }
    ensures { (row : List ℕ) → marks.now ≡ marks_of row → NextPair row from result }
{
    for i in from..marks.len() {
        if !marks[i] {
            return i;
        }
    }
    marks.len()
}

// The code of the variable at an index of a row.
pub fn own_code(i: usize) -> u32
    requires { i ≤ max_variables }
    ensures { result ≡ 2 * (i + 1) }
{
    2 * (i as u32 + 1)
}
