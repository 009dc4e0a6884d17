// Document 01's unstarred cases ("Tried on both edges"), CR 8's idle line and CR 1's comments, run: each line is a case, its refusal (0 for none) and its place. Then CR 4's outside
// vectors, tables 2 and 3 of source document 000: each line is a row, the efficiency printed there, and ours.
#![tactic(auto)]

use std::io;
use store::record::Record;
use store::refusal::Refusal;

fn main(rt: HostRuntime) -> io::Result<()> {
    opened(&rt, "512 variables", b"p cnf 512 0")?;
    opened(&rt, "513 variables", b"p cnf 513 0")?;
    opened(&rt, "nothing at all", b"p cnf 0 0")?;
    opened(&rt, "minus zero", b"p cnf 1 1\n-0 0\n")?;
    rows(&rt)?;
    comments(&rt)?;
    no_comments(&rt)?;
    digraphs(&rt)?;
    relations(&rt)
}

fn opened(rt: &HostRuntime, name: &str, text: &[u8]) -> io::Result<()> {
    let mut literals = [0u16; 8];
    let mut ends = [0u16; 8];
    let mut keys = [0u64; 8];
    let r = calls::open(
        calls::new_record(),
        text,
        &mut literals,
        &mut ends,
        &mut keys,
    );
    show(rt, name, r.answer)
}

// An idle line is turned back, and 64 rows are held.
fn rows(rt: &HostRuntime) -> io::Result<()> {
    let mut literals = [0u16; 8];
    let mut ends = [0u16; 8];
    let mut keys = [0u64; 8];
    let mut images = [0u16; 130];
    let r = calls::open(
        calls::new_record(),
        b"p cnf 2 1\n1 2 0\n",
        &mut literals,
        &mut ends,
        &mut keys,
    );
    let none = offered(
        rt,
        "an idle line",
        r.counts,
        &literals,
        &ends,
        &keys,
        &mut images,
        b"1 2",
    )?;
    last_rows(
        rt,
        offers(none, 63, &literals, &ends, &keys, &mut images),
        &literals,
        &ends,
        &keys,
        &mut images,
    )
}

// Row 64 is held, the next is 22.
fn last_rows(
    rt: &HostRuntime,
    counts: Record,
    literals: &[u16],
    ends: &[u16],
    keys: &[u64],
    images: &mut [u16],
) -> io::Result<()> {
    let full = offered(rt, "row 64", counts, literals, ends, keys, images, b"2 1")?;
    let over = offered(rt, "row 65", full, literals, ends, keys, images, b"2 1")?;
    held(rt, over)
}

// The record after some offers of the same exchange.
fn offers(
    counts: Record,
    some: usize,
    literals: &[u16],
    ends: &[u16],
    keys: &[u64],
    images: &mut [u16],
) -> Record {
    let mut after = counts;
    for _ in 0..some {
        let r = calls::offer(after, literals, ends, keys, images, b"1 2", b"2 1");
        after = r.counts;
    }
    after
}

fn offered(
    rt: &HostRuntime,
    name: &str,
    counts: Record,
    literals: &[u16],
    ends: &[u16],
    keys: &[u64],
    images: &mut [u16],
    values: &[u8],
) -> io::Result<Record> {
    let r = calls::offer(counts, literals, ends, keys, images, b"1 2", values);
    show(rt, name, r.answer)?;
    Ok(r.counts)
}

fn held(rt: &HostRuntime, counts: Record) -> io::Result<()> {
    let rows = counts.rows;
    println!(rt; "rows: {rows}")
}

// The refusal's number and place, or 0 and 0, as `stdout` has it.
fn show<T: Copy>(rt: &HostRuntime, name: &str, answer: Result<T, Refusal>) -> io::Result<()> {
    let (number, place) = match answer {
        Ok(_) => (0, 0),
        Err(refusal) => (refusal.number(), refusal.place()),
    };
    println!(rt; "{name}: {number} {place}")
}

// Comment lines after the problem line are skipped, wherever they stand.
fn comments(rt: &HostRuntime) -> io::Result<()> {
    opened(rt, "inside a clause", b"p cnf 2 1\n1\nc 0\n2 0\n")?;
    opened(rt, "between clauses", b"p cnf 2 2\n1 0\nc x\n2 0\n")?;
    opened(rt, "after the problem line", b"p cnf 1 1\nc x\n1 0\n")?;
    opened(rt, "as the last line", b"p cnf 1 1\n1 0\nc x\n")?;
    opened(rt, "without a line feed", b"p cnf 1 1\n1 0\nc")?;
    opened(rt, "after no clauses", b"p cnf 0 0\ncnf 3 2\n")
}

// What is no comment is refused at its place, comments before it counted.
fn no_comments(rt: &HostRuntime) -> io::Result<()> {
    opened(rt, "a blank first", b"p cnf 1 1\n c x\n1 0\n")?;
    opened(rt, "a blank first, last", b"p cnf 1 1\n1 0\n c x\n")?;
    opened(rt, "inside a line", b"p cnf 1 1\n1 c\n0\n")?;
    opened(rt, "comments alone", b"p cnf 1 1\nc x\nc\n")?;
    opened(rt, "after a comment", b"p cnf 1 1\nc x\n2 0\n")
}

// Table 2, acyclic digraphs. n = 6 is left out: its labelled lacks a digit.
fn digraphs(rt: &HostRuntime) -> io::Result<()> {
    figured(rt, "digraphs, n = 3, 89.47%", 25, 6, 8)?;
    figured(rt, "digraphs, n = 4, 93.55%", 543, 31, 64)?;
    figured(rt, "digraphs, n = 5, 97.51%", 29281, 302, 1024)?;
    figured(rt, "digraphs, n = 7, 99.84%", 1138779265, 243668, 2097152)
}

// Table 3. n = 11 and n = 12 are left out: their counts give other figures than are printed.
fn relations(rt: &HostRuntime) -> io::Result<()> {
    figured(rt, "relations, n = 8, 99.26%", 102528, 303, 1057)?;
    figured(rt, "relations, n = 9, 99.80%", 1327360, 1119, 3828)?;
    figured(rt, "relations, n = 10, 99.94%", 52494848, 5479, 38160)
}

fn figured(
    rt: &HostRuntime,
    name: &str,
    labelled: u64,
    unlabelled: u64,
    allowed: u64,
) -> io::Result<()> {
    let Ok(figure) = calls::efficiency(labelled, unlabelled, allowed) else {
        return Ok(());
    };
    println!(rt; "{name}: {figure}")
}
