// All that the program decides (document 01, "Quality figure and program"), on slices: `begin` opens and offers what an input states, and `page` puts the
// next part of the output into a buffer. The program itself only reads, calls these and writes.
#![tactic(auto)]

ghost use Rattle.std.specs.Prelude.{◌≡◌, true, ◌≤◌, length};
ghost use Rattle.store.specs.Held.{store_of};
ghost use Rattle.store.specs.Stores.{Store, stored, is_formed, closed_record, lent};
ghost use Rattle.standing.specs.Keyed.{keyed, with_keys};
ghost use Rattle.emit.specs.Emit.{max_line};
ghost use Rattle.session.specs.Session.{session_of};
ghost use Rattle.program.specs.Program.{output_of, left_to_print, StageStands, PageStep};

use cursor::Cursor;
use store::form::Formed;
use store::record::Record;
use store::refusal::Refusal;
use store::rows::Rows;

// What comes next: the line of a refusal, the header, the clauses from a cursor on, or nothing.
#[derive(Clone, Copy)]
pub enum Stage {
    Refused(Refusal),
    Header,
    Clauses(Cursor),
    Over,
}

// The first stage, with the record of the store beside it.
#[derive(Clone, Copy)]
pub struct Begun {
    pub stage: Stage,
    pub counts: Record,
}

// How many bytes of the buffer a page has, and the stage after it.
#[derive(Clone, Copy)]
pub struct Printed {
    pub bytes: usize,
    pub stage: Stage,
}

// Opens and offers what an input states, in lent slices of any contents.
pub fn begin(
    input: &[u8],
    literals: &mut [u16],
    ends: &mut [u16],
    keys: &mut [u64],
    images: &mut [u16],
) -> Begun
    ensures output { let s = with_keys (lent closed_record literals.old ends.old images.old) keys.old in
        left_to_print result.stage (lent result.counts literals.new ends.new images.new) ≡ output_of s input.now }
    ensures store { let s = with_keys (lent closed_record literals.old ends.old images.old) keys.old in
        with_keys (lent result.counts literals.new ends.new images.new) keys.new ≡ (session_of s input.now).store }
    ensures stands { StageStands result.stage (lent result.counts literals.new ends.new images.new) }
{
    let ended = session::run(input, literals, ends, keys, images);
    let stage = match ended.answer {
        Ok(()) => Stage::Header,
        Err(refusal) => Stage::Refused(refusal),
    };
    Begun {
        stage,
        counts: ended.counts,
    }
}

// Puts the next page of the output into a buffer that any line fits into. A page without bytes is the last.
pub fn page(
    stage: Stage,
    counts: Record,
    literals: &[u16],
    ends: &[u16],
    images: &[u16],
    out: &mut [u8],
) -> Printed
    requires { StageStands stage (stored counts literals ends images) × (max_line ≤ length out.old) }
    ensures { let s = stored counts literals.entry ends.entry images.entry in
        PageStep s stage out.old result.stage result.bytes out.new }
{
    match stage {
        Stage::Refused(refusal) => refused(refusal, out),
        Stage::Header => header(formed(counts, literals, ends, images), out),
        Stage::Clauses(cursor) => clauses(formed(counts, literals, ends, images), cursor, out),
        Stage::Over => Printed {
            bytes: 0,
            stage: Stage::Over,
        },
    }
}

// A store that is known to have its form.
fn formed<'a>(counts: Record, literals: &'a [u16], ends: &'a [u16], images: &'a [u16]) -> Formed<'a>
    requires { is_formed (stored counts literals ends images) ≡ true }
    ensures { store_of result ≡ stored counts literals.entry ends.entry images.entry }
{
    Formed {
        rows: Rows { counts, images },
        literals,
        ends,
    }
}

// The page of a refusal.
fn refused(refusal: Refusal, out: &mut [u8]) -> Printed
    requires { max_line ≤ length out.old }
    ensures { (s : Store) → PageStep s (Stage.Refused refusal) out.old result.stage result.bytes out.new }
{
    let number = refusal.number() as u64;
    let place = refusal.place() as u64;
    Printed {
        bytes: render::put_refusal(out, 0, number, place),
        stage: Stage::Over,
    }
}

// The header's page.
fn header(s: Formed, out: &mut [u8]) -> Printed
    requires { max_line ≤ length out.old }
    ensures { PageStep (store_of s.entry) Stage.Header out.old result.stage result.bytes out.new }
{
    let total = lexleader::counting::totals_of(s.rows);
    let bytes = render::put_header(out, 0, total.variables as u64, total.clauses as u64);
    let mut marks = [false; Record::MAX_VARIABLES];
    let n = s.rows.counts.variables;
    let first = cursor::start(s.rows, &mut marks[..n]);
    Printed {
        bytes,
        stage: Stage::Clauses(first),
    }
}

// A page of clauses.
fn clauses(s: Formed, cursor: Cursor, out: &mut [u8]) -> Printed
    requires { StageStands (Stage.Clauses cursor) (store_of s) × (max_line ≤ length out.old) }
    ensures { PageStep (store_of s.entry) (Stage.Clauses cursor) out.old result.stage result.bytes out.new }
{
    let mut marks = [false; Record::MAX_VARIABLES];
    let n = s.rows.counts.variables;
    let filled = pages::fill(s, cursor, &mut marks[..n], out);
    Printed {
        bytes: filled.bytes,
        stage: Stage::Clauses(filled.cursor),
    }
}
