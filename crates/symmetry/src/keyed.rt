// The clauses that a row is judged by, with their keys.
ghost use Rattle.std.specs.Prelude.{◌≡◌, ◌<◌, true, List, ℕ};
ghost use Rattle.store.specs.Held.{formula_of};
ghost use Rattle.store.specs.Stores.{clause_at};
ghost use Rattle.keys.specs.Keys.{right_keys};
ghost use Rattle.symmetry.specs.Sets.{same_set};
ghost use Rattle.symmetry.specs.Sought.{Sought};

use crate::sought::Image;
use store::clauses::Clauses;

// Clauses, each with its key.
#[derive(Clone, Copy)]
pub struct KeyedClauses<'a> {
    pub clauses: Clauses<'a>,
    pub keys: &'a [u64],
    pub ghost right: { right_keys (formula_of clauses) keys.now ≡ true },
}

impl<'a> KeyedClauses<'a> {
    // Whether an image is another of the clauses as a set: they are compared in full only where the keys agree.
    pub fn is_image_at(self, other: usize, sought: Image) -> bool
        requires { other < self.clauses.count }
        ensures { let clauses = self.entry.clauses in
            ((image : List ℕ) → Sought sought.entry.mark sought.entry.marks.now image
            → result ≡ same_set image (clause_at clauses.literals.now clauses.ends.now other)) }
    {
        if self.keys[other] != sought.key {
            return false;
        }
        crate::is_image(self.clauses.clause(other), sought)
    }
}
