// The value of a literal under an assignment lent as words (document 01, "Assignments, filling in and descent"), which checking reads of
// auxiliaries; and the values of all literals in a table by code, which checking, descent and filling in read many times before the
// assignment changes.
#![tactic(auto)]

ghost use Rattle.std.specs.Prelude.{◌≡◌, ℕ, ◌+◌, ◌*◌, ◌≤◌, length};
ghost use Rattle.packed.specs.Words.{bits_of, word_count};
ghost use Rattle.packed.specs.Order.{value_of};
ghost use Rattle.packed.specs.Writing.{WriterHolds};
ghost use Rattle.store.specs.Literals.{variable_of};
ghost use Rattle.store.specs.Stores.{max_variables};
ghost use Rattle.lexleader.specs.Models.{literal_value};
ghost use Rattle.valuation.specs.Tables.{bits_in, Table};

use packed::writer;
use packed::writer::Writer;

// The places of a table of the literals of as many variables as a store can have, by code from 0.
pub const TABLE: usize = 1026;

// The value of a variable, one of those that the words hold, which is that of its positive literal.
pub fn variable_value(a: &[u64], variable: usize) -> bool
    requires { (1 ≤ variable) × (variable ≤ 64 * length a.now) }
    ensures { (n : ℕ) → variable ≤ n → result ≡ literal_value (value_of (bits_of n a.now)) (2 * variable) }
{
    packed::value(a, variable)
}

// The value of a literal whose variable is one of those that the words hold.
pub fn literal_value(a: &[u64], code: u32) -> bool
    requires { (1 ≤ variable_of code) × (variable_of code ≤ 64 * length a.now) }
    ensures { (n : ℕ) → variable_of code ≤ n → result ≡ literal_value (value_of (bits_of n a.now)) code }
{
    let value = packed::value(a, store::literal::variable(code));
    if store::literal::is_negative(code) {
        !value
    } else {
        value
    }
}

// Makes the table of the assignment of 1..n that the words hold.
pub fn tabulate(a: &[u64], n: usize, values: &mut [bool])
    requires { (n ≤ 64 * length a.now) × (2 * n + 2 ≤ length values.old) }
    ensures table { Table n values.new }
    ensures bits { bits_in n values.new ≡ bits_of n a.now }
{
    for i in 1..=n {
        let value = packed::value(a, i);
        values[2 * i] = value;
        values[2 * i + 1] = !value;
    }
}

// Writes the assignment of 1..n in a table as words, the begun one left to the writer.
pub fn write(values: &[bool], n: usize, out: &mut [u64]) -> Writer
    requires { (n ≤ max_variables) × Table n values.now × (word_count n ≤ length out.old) }
    ensures { WriterHolds (bits_in n values.now) result out.old out.new }
{
    let mut w = writer::begin();
    for i in 0..n {
        w = writer::push(out, w, values[2 * i + 2], 1);
    }
    w
}
