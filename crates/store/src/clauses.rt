// The clauses of a store: ranges of the literals slice, each up to its end.
ghost use Rattle.std.specs.Prelude.{◌≡◌, ◌≤◌, ◌<◌, length};
ghost use Rattle.store.specs.Stores.{literal_count, clause_at, FormedClauses, FormedFormula, max_variables};

// The clauses of a well-formed store, as many as `count`.
#[derive(Clone, Copy)]
pub struct Clauses<'a> {
    pub literals: &'a [u16],
    pub ends: &'a [u16],
    pub count: usize,
    pub ghost formed: { FormedFormula max_variables count literals.now ends.now },
}

impl<'a> Clauses<'a> {
    // Clause c, from 0.
    pub fn clause(self, c: usize) -> &'a [u16]
        requires { c < self.count }
        ensures { result.now ≡ clause_at self.entry.literals.now self.entry.ends.now c }
    {
        clause(self.literals, self.ends, self.count, c)
    }
}

// The count of literals in use by m clauses.
pub fn literal_count(ends: &[u16], m: usize) -> usize
    requires { m ≤ length ends.now }
    ensures { result ≡ literal_count m ends.now }
{
    if m == 0 {
        return 0;
    }
    ends[m - 1] as usize
}

// Clause c, from 0, of the first m.
pub fn clause<'a>(literals: &'a [u16], ends: &[u16], m: usize, c: usize) -> &'a [u16]
    requires { FormedClauses m literals.now ends.now × (c < m) }
    ensures { result.now ≡ clause_at literals.now ends.now c }
{
    let start = literal_count(ends, c);
    let end = ends[c] as usize;
    &literals[start..end]
}
