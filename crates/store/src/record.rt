// The small record that a caller lends at every call, with the limits by name. Whether it is open stands beside the counts, and is no Option of
// them: document 01's record has these four parts, and C lends four numbers.
ghost use Rattle.std.specs.Prelude.{◌≡◌};
ghost use Rattle.store.specs.Stores.{closed_record};

#[derive(Clone, Copy, Debug, PartialEq, Eq)]
pub struct Record {
    pub variables: usize,
    pub clauses: usize,
    pub rows: usize,
    pub is_open: bool,
}

impl Record {
    pub const MAX_VARIABLES: usize = 512;

    pub const MAX_CLAUSES: usize = 4096;

    pub const MAX_LITERALS: usize = 12288;

    pub const MAX_ROWS: usize = 64;

    // A new store starts closed.
    pub fn closed() -> Record
        ensures { result ≡ closed_record }
    {
        Record {
            variables: 0,
            clauses: 0,
            rows: 0,
            is_open: false,
        }
    }
}
