// The program's output for an input, handed to standard output page after page, up to the first write that fails. What the pages hold is decided in
// `program`. The loop carries how many bytes it has handed over, and a page is handed over only where it is the part of the output that starts at that
// count: none is left out, repeated or out of order, and what arrived is always a beginning of the output.
#![tactic(auto)]

ghost use Rattle.std.specs.Prelude.{◌≡◌, ◌+◌, ◌≤◌, length, IfOk};
ghost use Rattle.store.specs.Stores.{stored};
ghost use Rattle.emit.specs.Emit.{max_line};
ghost use Rattle.program.specs.Program.{output_of, fresh_store, max_output, left_to_print, StageStands, PartAt};
ghost use Rattle.printing.specs.Handed.{handed_after};

use program::Stage;
use std::io;
use std::io::Stdout;
use store::record::Record;

// The bytes of a page: any line fits.
pub const PAGE: usize = 131072;

// Hands over what the program prints for an input, and answers how many bytes: all of it, or a write failed.
pub fn print(stdout: Stdout, input: &[u8]) -> io::Result<usize>
    ensures { IfOk result (λ bytes. bytes ≡ length (output_of fresh_store input.now)) }
{
    let mut literals = [0u16; Record::MAX_LITERALS];
    let mut ends = [0u16; Record::MAX_CLAUSES];
    let mut keys = [0u64; Record::MAX_CLAUSES];
    let mut images = [0u16; Record::MAX_ROWS * Record::MAX_VARIABLES];
    let mut out = [0u8; PAGE];
    let begun = program::begin(input, &mut literals, &mut ends, &mut keys, &mut images);
    let stage = begun.stage;
    let counts = begun.counts;
    print_from(
        stdout, input, stage, counts, &literals, &ends, &images, &mut out,
    )
}

// Hands over page after page from the first stage on, until a page has no bytes or a write fails.
fn print_from(
    stdout: Stdout,
    input: &[u8],
    first: Stage,
    counts: Record,
    literals: &[u16],
    ends: &[u16],
    images: &[u16],
    out: &mut [u8],
) -> io::Result<usize>
    requires { let s = stored counts literals ends images in
        StageStands first s × (left_to_print first s ≡ output_of fresh_store input.now) × (max_line ≤ length out.old) }
    ensures { IfOk result (λ bytes. bytes ≡ length (output_of fresh_store input.now)) }
{
    let mut stage = first;
    let mut handed = 0;
    // From page to page: what comes next is known once a page is made.
    loop {
        let printed = program::page(stage, counts, literals, ends, images, out);
        let bytes = printed.bytes;
        let next = printed.stage;
        // a page without bytes is the last: `PageStep` of `program::page` says so
        if bytes == 0 {
            return Ok(handed);
        }
        handed = hand_over(stdout, input, handed, &out[..bytes])?;
        stage = next;
    }
}

// Hands over a page, which is the part of the input's output that starts where the pages before it end, and answers where it ends.
fn hand_over(stdout: Stdout, input: &[u8], handed: usize, page: &[u8]) -> io::Result<usize>
    requires { PartAt (output_of fresh_store input.now) handed page.now }
    ensures { IfOk result (λ bytes. bytes ≡ handed + length page.now) }
{
    counted(handed, stdio::write(stdout, page))
}

fn counted(handed: usize, answer: io::Result<usize>) -> io::Result<usize>
    requires { IfOk answer (λ count. handed + count ≤ max_output) }
    ensures { result ≡ handed_after handed answer }
{
    Ok(handed + answer?)
}
