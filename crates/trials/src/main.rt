// Trials, run (document 02, CR 2): some rows of six variables, each on all 64 assignments. A line has the assignment as a number from 0 to 63 (variable 1 is its
// highest bit), 1 where the row makes it smaller, else 0, and the variable that decided. The script `make_expected.py` makes, by the reference, what is expected.
#![tactic(auto)]

ghost use Rattle.std.specs.Prelude.{◌<◌};

use std::io;
use trial::Trial;

fn main(rt: HostRuntime) -> io::Result<()> {
    tried(&rt, "nothing moved", &[2, 4, 6, 8, 10, 12])?;
    tried(&rt, "1 and 2 exchanged", &[4, 2, 6, 8, 10, 12])?;
    tried(&rt, "2 and 5 exchanged", &[2, 10, 6, 8, 4, 12])?;
    tried(&rt, "5 and 6 exchanged", &[2, 4, 6, 8, 12, 10])?;
    tried(&rt, "1 to 3, 3 to 6, 6 to 1", &[6, 4, 12, 8, 10, 2])?;
    tried(&rt, "1 to 6, 6 to 3, 3 to 1", &[12, 4, 2, 8, 10, 6])?;
    tried(&rt, "turned round", &[12, 10, 8, 6, 4, 2])?;
    tried(&rt, "all to the next", &[4, 6, 8, 10, 12, 2])?;
    tried(&rt, "3 to -3", &[2, 4, 7, 8, 10, 12])?;
    tried(&rt, "1 to 4, 4 to -1", &[8, 4, 6, 3, 10, 12])?;
    tried(&rt, "2 to -6, 6 to -2", &[2, 13, 6, 8, 10, 5])?;
    tried(
        &rt,
        "1 to -2, 2 to -3, 3 to -1, 5 to -5",
        &[5, 7, 3, 8, 11, 12],
    )?;
    tried(&rt, "all negated", &[3, 5, 7, 9, 11, 13])
}

fn tried(rt: &HostRuntime, name: &str, row: &[u16]) -> io::Result<()> {
    println!(rt; "{name}")?;
    for a in 0..64 {
        show(rt, row, a)?;
    }
    Ok(())
}

fn show(rt: &HostRuntime, row: &[u16], a: u64) -> io::Result<()>
    requires { a < 64 }
{
    if !store::form::is_row(row, 6) {
        return Ok(());
    }
    let word = [a << 58];
    let mut values = [false; valuation::TABLE];
    valuation::tabulate(&word, 6, &mut values);
    line(rt, a, trial::try_row(row, trial::span_of(row), &values))
}

fn line(rt: &HostRuntime, a: u64, found: Option<Trial>) -> io::Result<()> {
    match found {
        Some(Trial { lowers, variable }) => println!(rt; "{a} {} {variable}", lowers as u8),
        None => println!(rt; "{a} 0 0"),
    }
}
