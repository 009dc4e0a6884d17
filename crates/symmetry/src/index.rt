// An index of the clauses by their keys.
ghost use Rattle.std.specs.Prelude.{◌≡◌, ◌≤◌, List, ℕ, cond, eqb, length, replicate};
ghost use Rattle.lists.specs.Tests.{any_of};
ghost use Rattle.store.specs.Held.{formula_of};
ghost use Rattle.symmetry.specs.Sets.{same_set};
ghost use Rattle.symmetry.specs.Sought.{Sought};
ghost use Rattle.symmetry.specs.Index.{bucket_count, bucket_of, Indexed};

use crate::keyed::KeyedClauses;
use crate::sought::Image;

// How many buckets there are.
pub const BUCKETS: usize = 4096;

// The clauses, and an index of them.
#[derive(Clone, Copy)]
pub struct Index<'a> {
    pub keyed: KeyedClauses<'a>,
    pub heads: &'a [u16],
    pub nexts: &'a [u16],
    pub ghost indexed: { Indexed keyed.clauses.count keyed.keys.now heads.now nexts.now },
}

impl<'a> Index<'a> {
    // Whether an image is, as a set, one of the clauses: one of those in the bucket of its key, then.
    pub fn has(self, sought: Image) -> bool
        ensures { let formula = formula_of self.entry.keyed.clauses in
            ((image : List ℕ) → Sought sought.entry.mark sought.entry.marks.now image → result ≡ any_of (same_set image) formula) }
    {
        let keyed = self.keyed;
        let keys = keyed.keys;
        let nexts = self.nexts;
        let key = sought.key;
        let head = buckets::head(self.heads, bucket(key));
        if head == 0 {
            return false;
        }
        let mut number = nearer(keys[head - 1], key, head, buckets::next(nexts, head - 1));
        while number != 0 {
            let other = number - 1;
            if keyed.is_image_at(other, sought) {
                return true;
            }
            number = buckets::next(nexts, other);
        }
        false
    }
}

// Puts the clauses in an empty index, each by its key.
pub fn of_keys(keyed: KeyedClauses, heads: &mut [u16], nexts: &mut [u16])
    requires { (heads.old ≡ replicate bucket_count 0) × (keyed.clauses.count ≤ length nexts.old) }
    ensures { Indexed keyed.entry.clauses.count keyed.entry.keys.now heads.new nexts.new }
{
    let keys = keyed.keys;
    for c in 0..keyed.clauses.count {
        buckets::put(heads, nexts, bucket(keys[c]), c);
    }
}

// The first in a bucket where it has the key that is looked for, and the next one else. Which of the two it is can't be foreseen, and a branch that is not foreseen costs
// more than the rest of the search; so both are at hand, for one to be taken without a branch.
fn nearer(stored: u64, key: u64, first: usize, next: usize) -> usize
    ensures { result ≡ cond (eqb stored key) first next }
{
    if stored == key { first } else { next }
}

// The bucket of a key, by its last bits but for those that are a count.
fn bucket(key: u64) -> usize
    ensures { result ≡ bucket_of key }
{
    (key / numbers::COUNT_RANGE % BUCKETS as u64) as usize
}
