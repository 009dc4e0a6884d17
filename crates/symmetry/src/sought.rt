// What is looked for among the clauses.
ghost use Rattle.symmetry.specs.Sought.{SoughtKey};

// The image of a clause: the literals that have a mark, and their key.
#[derive(Clone, Copy)]
pub struct Image<'a> {
    pub key: u64,
    pub mark: u16,
    pub marks: &'a [u16; numbers::COUNT],
    pub ghost known: { SoughtKey key mark marks.now },
}
