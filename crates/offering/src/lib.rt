// An offer: two lines are read as a permutation, which is checked to move something and to be a symmetry of the plain formula, and then
// held as a row (document 01, "Permutations"; document 02, CR 8). The row is made in scratch memory, so that a refused offer writes nothing.
#![tactic(auto)]

ghost use Rattle.std.specs.Prelude.{◌≡◌, true, ◌<◌};
ghost use Rattle.store.specs.Stores.{stored, plain_of, is_formed, max_rows, lent};
ghost use Rattle.numbers.specs.Numbers.{numbers};
ghost use Rattle.keys.specs.Keys.{right_keys};
ghost use Rattle.offering.specs.Offering.{offered_by, images_after, row_for};

use store::clauses::Clauses;
use store::record::Record;
use store::refusal::Refusal;
use store::row::Row;
use symmetry::keyed::KeyedClauses;

// Tries an offer on a well-formed store that is not full, and appends its row to the images if it is accepted. The table is that of the literals' numbers.
// The slices come one by one: images is lent to be written, so that no `Formed` can hold it.
pub fn offer<'a>(
    counts: Record,
    literals: &'a [u16],
    ends: &'a [u16],
    keys: &'a [u64],
    images: &mut [u16],
    names: &[u8],
    values: &[u8],
    table: &[u64; numbers::COUNT],
) -> Result<(), Refusal>
    requires { let s = lent counts literals.now ends.now images.old in
        (is_formed s ≡ true) × (right_keys (plain_of s) keys.now ≡ true) × (counts.rows < max_rows) × (table.now ≡ numbers) }
    ensures answer { let s = lent counts literals.now ends.now images.old in
        result ≡ offered_by s names.now values.now }
    ensures images { let s = lent counts literals.now ends.now images.old in
        images.new ≡ images_after result s (row_for s names.now values.now) }
{
    let n = counts.variables;
    let rows = counts.rows;
    let mut row = [0u16; Record::MAX_VARIABLES];
    permutation::state(names, values, n, &mut row)?;
    let row = Row { images: &row[..n] };
    if store::rows::moves_nothing(row.images) {
        return Err(Refusal::MovesNothing);
    }
    let clauses = Clauses {
        literals,
        ends,
        count: counts.clauses,
    };
    let keyed = KeyedClauses { clauses, keys };
    if let Some(missing) = symmetry::first_missing(keyed, row, table) {
        return Err(Refusal::NoSymmetry(missing));
    }
    let needed = (rows + 1) * n;
    if images.len() < needed {
        return Err(Refusal::TooShort(needed));
    }
    store::rows::append(images, n, rows, row.images);
    Ok(())
}
