// The cycles of a row (document 02, CR 9): which variables are left out of the comparison that its clauses make, the largest of each cycle
// unless going once round the cycle turns the sign an odd number of times.
//
// A variable is the largest of its cycle where no larger one has it in its cycle. So the variables are visited from the largest down, all
// marked at first: one that still has its mark is the largest of its cycle, which is then gone round once, and the marks of the others are
// taken away. Each variable is met on one such round and visited once, so a row costs as many steps as it has variables, whatever its
// cycles; to look for each variable's own cycle afresh would cost n² / 2 steps where a row sends each variable to the one before it. The
// marks that are left at the end are those of the variables left out.
#![tactic(auto)]

ghost use Rattle.std.specs.Prelude.{◌≡◌, true, ◌≤◌, length, replicate};
ghost use Rattle.cycles.specs.Cycles.{sent_to, turns};
ghost use Rattle.cycles.specs.Marks.{marks_of, Visited};

use store::row::Row;

// Marks the variables of a row that are left out.
pub fn leave_out(row: Row, marks: &mut [bool])
    requires { length marks.old ≡ length row.images.now }
    ensures { marks.new ≡ marks_of row.entry.images.now }
{
    marks.fill(true);
    for v in (1..=row.images.len()).rev() {
        visit(row, v, marks);
    }
}

// Goes once round the cycle of a variable that still has its mark. One that is its own image is alone in its cycle, and keeps its mark.
fn visit(row: Row, z: usize, marks: &mut [bool])
    requires { let n = length row.images.now in (1 ≤ z) × (z ≤ n) × (n ≤ length marks.old) }
    ensures { Visited row.entry.images.now z marks.old marks.new }
{
    let images = row.images;
    if images[z - 1] as usize == 2 * z {
        return;
    }
    if !marks[z - 1] {
        return;
    }
    let mut odd = turned(images, z);
    let mut v = sent_to(images, z);
    // Along the cycle: the next variable is the image of this one.
    while v != z {
        marks[v - 1] = false;
        odd = odd != turned(images, v);
        v = sent_to(images, v);
    }
    marks[z - 1] = !odd;
}

// The variable to which a row sends one.
fn sent_to(row: &[u16], v: usize) -> usize
    requires { (1 ≤ v) × (v ≤ length row.now) }
    ensures { result ≡ sent_to row.now v }
{
    store::literal::variable(store::literal::wide(row[v - 1]))
}

// Whether a row turns the sign of a variable.
fn turned(row: &[u16], v: usize) -> bool
    requires { (1 ≤ v) × (v ≤ length row.now) }
    ensures { result ≡ turns row.now v }
{
    store::literal::is_negative(store::literal::wide(row[v - 1]))
}
