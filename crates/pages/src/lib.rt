// The made formula's clauses written page after page (document 01, "Quality figure and program"): a buffer is filled with as many lines as
// fit, and a cursor says where the next page begins, so that no row is walked again for each clause. What carries the proofs: the clauses
// that are left decide what a page holds (specs/Pages.antt), and each line that is added leaves that as it was.
#![tactic(auto)]

ghost use Rattle.std.specs.Prelude.{◌≡◌, List, [], ℕ, ◌≤◌, ◌<◌, length, get_or, map, IfSome};
ghost use Rattle.store.specs.Held.{store_of};
ghost use Rattle.store.specs.Stores.{max_literals, clause_at, plain_of};
ghost use Rattle.render.specs.Text.{clause_line};
ghost use Rattle.cursor.specs.Cursors.{remaining_of, CursorStands, RowMarked, AtAdded};
ghost use Rattle.pages.specs.Pages.{FilledPage, fill_from, longest, PageStep, LinePut};

use cursor::Cursor;
use store::form::Formed;
use store::literal::Coded;
use store::rows::Rows;

// How many bytes of the buffer a page has, and where the next one begins.
#[derive(Clone, Copy)]
pub struct Page {
    pub bytes: usize,
    pub cursor: Cursor,
}

// Fills a buffer with the lines of as many clauses as fit, from a cursor on, with room for the marks of a row.
pub fn fill(s: Formed, cursor: Cursor, marks: &mut [bool], out: &mut [u8]) -> Page
    requires { CursorStands s.rows.counts s.rows.images.now cursor × (length marks.old ≡ s.rows.counts.variables) }
    ensures filled { let s = store_of s.entry in
        ◌≡◌ {A = FilledPage} (record { buffer = out.new; end = result.bytes; rest = remaining_of s result.cursor })
        (fill_from 0 (remaining_of s cursor) out.old) }
    ensures stands { CursorStands s.entry.rows.counts s.entry.rows.images.now result.cursor }
    ensures moves { let s = store_of s.entry in
        (longest ≤ length out.old → result.bytes ≡ 0 → remaining_of s cursor ≡ []) }
{
    cursor::mark(s.rows, cursor, marks);
    let mut page = Page { bytes: 0, cursor };
    while let Some(longer) = add_line(s, page, marks, out) {
        page = longer;
    }
    page
}

// The page with the line of the clause at its cursor, if there is one and it fits.
fn add_line(s: Formed, page: Page, marks: &mut [bool], out: &mut [u8]) -> Option<Page>
    requires { let counts = s.rows.counts in let images = s.rows.images.now in
        CursorStands counts images page.cursor × RowMarked counts images page.cursor marks.old × (page.bytes ≤ length out.old) }
    ensures step { PageStep (plain_of (store_of s.entry)) s.entry.rows.counts s.entry.rows.images.now page out.old result out.new }
    ensures marks { IfSome result (λ longer. RowMarked s.entry.rows.counts s.entry.rows.images.now longer.cursor marks.new) }
{
    let counts = s.rows.counts;
    if page.cursor.plain < counts.clauses {
        return add_plain(s, page, out);
    }
    if page.cursor.row < counts.rows {
        return add_added(s.rows, page, marks, out);
    }
    None
}

// The page with the line of a plain clause.
fn add_plain(s: Formed, page: Page, out: &mut [u8]) -> Option<Page>
    requires { (page.cursor.plain < s.rows.counts.clauses) × (page.bytes ≤ length out.old)
        × (length (clause_line (clause_at s.literals.now s.ends.now page.cursor.plain)) ≤ longest) }
    ensures step { let counts = s.entry.rows.counts in
        let clause = clause_at s.entry.literals.now s.entry.ends.now page.cursor.plain in
        ((plain : List (List ℕ)) → length plain ≡ counts.clauses → get_or plain page.cursor.plain [] ≡ clause
        → (images : List ℕ) → CursorStands counts images page.cursor
        → PageStep plain counts images page out.old result out.new) }
    ensures row { IfSome result (λ longer. longer.cursor.row ≡ page.cursor.row) }
{
    let cursor = page.cursor;
    let clause = s.clause(cursor.plain);
    let bytes = put_line(clause, page.bytes, out)?;
    Some(Page {
        bytes,
        cursor: Cursor {
            plain: cursor.plain + 1,
            ..cursor
        },
    })
}

// The page with the line of a clause that the cursor's row adds.
fn add_added(rows: Rows, page: Page, marks: &mut [bool], out: &mut [u8]) -> Option<Page>
    requires { let counts = rows.counts in let images = rows.images.now in
        CursorStands counts images page.cursor × AtAdded counts page.cursor
        × RowMarked counts images page.cursor marks.old × (page.bytes ≤ length out.old) }
    ensures step { let counts = rows.entry.counts in
        ((plain : List (List ℕ)) → length plain ≡ counts.clauses
        → PageStep plain counts rows.entry.images.now page out.old result out.new) }
    ensures marks { IfSome result (λ longer. RowMarked rows.entry.counts rows.entry.images.now longer.cursor marks.new) }
{
    let cursor = page.cursor;
    let row = rows.row(cursor.row).images;
    let clause = lexleader::places::clause_at(row, cursor.place);
    let bytes = put_line(&clause.literals[..clause.count], page.bytes, out)?;
    let cursor = cursor::next_added(rows, cursor, marks);
    Some(Page { bytes, cursor })
}

// Writes a clause's line from a place of the buffer on, if it fits, and answers the place after it.
fn put_line<C: Coded>(clause: &[C], at: usize, out: &mut [u8]) -> Option<usize>
    requires { (length clause.now ≤ max_literals) × (at ≤ length out.old) }
    ensures { LinePut (clause_line (map C.code clause.now)) at out.old result out.new }
{
    let size = render::clause_length(clause);
    if out.len() - at < size {
        return None;
    }
    Some(render::put_clause(out, at, clause))
}
