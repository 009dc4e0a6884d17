// The keys of a store's clauses (document 02, CR 5): the sum of a clause, all of them written, all of them tested. A sum is linear in the clause's literals, repeated ones
// included: what was counted in a clause is marked with the clause's number, from 1, so that no search is needed and the marks need not be cleared. It goes through the
// clause from its end, as its definition does: a literal counts where it does not come again. The table of the numbers is in the memory of whoever goes through all clauses,
// or of its caller. It is no type of its own: that it is `numbers` is one equation, which its maker gives, and `key_at` takes any table.
#![tactic(auto)]

ghost use Rattle.std.specs.Prelude.{◌≡◌, ◌+◌, ◌-◌, ◌<◌, ◌≤◌, true, length};
ghost use Rattle.lists.specs.Tests.{all_of};
ghost use Rattle.lists.specs.Writing.{overwritten};
ghost use Rattle.store.specs.Literals.{is_literal};
ghost use Rattle.store.specs.Held.{formula_of};
ghost use Rattle.store.specs.Stores.{clause_at, max_variables};
ghost use Rattle.numbers.specs.Numbers.{numbers, number_count};
ghost use Rattle.keys.specs.Keys.{key_by, keys_of, right_keys};
ghost use Rattle.keys.specs.Marks.{Below, Marked, Places, OwnPlaces, sent_to, sent_clause};

use store::clauses::Clauses;

// Writes the keys of the clauses at the start of a slice.
pub fn write(clauses: Clauses, keys: &mut [u64])
    requires { clauses.count ≤ length keys.old }
    ensures { keys.new ≡ overwritten (keys_of (formula_of clauses.entry)) keys.old }
{
    let table = numbers::numbers();
    let own = own_places();
    let mut marks = [0u16; numbers::COUNT];
    for c in 0..clauses.count {
        keys[c] = key_at(clauses, c, &own, &table, &mut marks);
    }
}

// Whether the keys of the clauses are right, by the table of the numbers: no slice too short, and no key that isn't its clause's.
pub fn are_right(clauses: Clauses, keys: &[u64], table: &[u64; numbers::COUNT]) -> bool
    requires { table.now ≡ numbers }
    ensures { result ≡ right_keys (formula_of clauses.entry) keys.now }
{
    if keys.len() < clauses.count {
        return false;
    }
    let own = own_places();
    let mut marks = [0u16; numbers::COUNT];
    for (c, key) in keys[..clauses.count].iter().enumerate() {
        if *key != key_at(clauses, c, &own, table, &mut marks) {
            return false;
        }
    }
    true
}

// Each literal sent to itself.
fn own_places() -> [u16; numbers::COUNT]
    ensures { OwnPlaces result }
{
    let mut own = [0u16; numbers::COUNT];
    for (i, place) in own.iter_mut().enumerate() {
        *place = i as u16;
    }
    own
}

// The key, by a table of numbers, of what clause c, from 0, is sent to, whose literals are then marked with the clause's number. The clauses come in rising order.
pub fn key_at(
    clauses: Clauses,
    c: usize,
    places: &[u16; numbers::COUNT],
    table: &[u64; numbers::COUNT],
    marks: &mut [u16],
) -> u64
    requires { (c < clauses.count) × Places places.now × Below (c + 1) marks.old }
    ensures key { let clauses = clauses.entry in let sent = sent_clause places.now (clause_at clauses.literals.now clauses.ends.now c) in
        result ≡ key_by table.now sent }
    ensures marked { let clauses = clauses.entry in let sent = sent_clause places.now (clause_at clauses.literals.now clauses.ends.now c) in
        Marked (c + 1) sent marks.new }
    ensures below { Below (c + 2) marks.new }
{
    key(clauses.clause(c), places, table, marks, (c + 1) as u16)
}

// The key of what a clause is sent to, by a table of numbers. What it is sent to is marked with a mark above all others.
fn key(
    clause: &[u16],
    places: &[u16; numbers::COUNT],
    table: &[u64; numbers::COUNT],
    marks: &mut [u16],
    mark: u16,
) -> u64
    requires { (all_of (is_literal max_variables) clause.now ≡ true) × Places places.now × Below mark marks.old }
    ensures key { result ≡ key_by table.now (sent_clause places.now clause.now) }
    ensures marked { Marked mark (sent_clause places.now clause.now) marks.new }
    ensures below { Below (mark + 1) marks.new }
{
    let mut sum: u64 = 0;
    for code in clause.iter().rev() {
        let place = sent(places, u32::from(*code));
        if marks[place] != mark {
            marks[place] = mark;
            sum = sum.wrapping_add(table[place]);
        }
    }
    sum
}

// The place of what a table sends a literal to.
pub fn sent(places: &[u16; numbers::COUNT], code: u32) -> usize
    requires { (is_literal max_variables code ≡ true) × Places places.now }
    ensures { (result + 2 ≡ sent_to places.now code) × (result < number_count) }
{
    places[place(code)] as usize
}

// Where a literal stands in a table of numbers.
pub fn place(code: u32) -> usize
    requires { is_literal max_variables code ≡ true }
    ensures { (result ≡ code - 2) × (result < number_count) }
{
    code as usize - 2
}
