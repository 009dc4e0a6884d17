// What is turned back, each case with its number in documents 01 and 02 beside it and, where it is not always 0, its place.
ghost use Rattle.std.specs.Prelude.{◌≡◌};
ghost use Rattle.store.specs.Refusals.{number_of, place_of};

#[derive(Clone, Copy, Debug, PartialEq, Eq)]
pub enum Refusal {
    NoProblemLine(usize), // 1
    SizeOverLimit(usize), // 2
    NotNumber(usize), // 3
    LiteralBeyond(usize), // 4
    TooManyLiterals(usize), // 5
    ClauseCount(usize), // 6
    NameNotNumber(usize), // 7
    BadName(usize), // 8
    ValueNotNumber(usize), // 9
    BadValue(usize), // 10
    NoSymmetry(usize), // 11
    BadAssignment, // 12
    NoSuchClause, // 13
    NoFigure, // 14
    BadInput, // 15
    NotOpen, // 20
    BadlyFormed, // 21
    RowsFull, // 22
    TooShort(usize), // 23
    NoRow, // 30
    MovesNothing, // 31
}

impl Refusal {
    pub fn number(self) -> u32
        ensures { result ≡ number_of self }
    {
        match self {
            Refusal::NoProblemLine(_) => 1,
            Refusal::SizeOverLimit(_) => 2,
            Refusal::NotNumber(_) => 3,
            Refusal::LiteralBeyond(_) => 4,
            Refusal::TooManyLiterals(_) => 5,
            Refusal::ClauseCount(_) => 6,
            Refusal::NameNotNumber(_) => 7,
            Refusal::BadName(_) => 8,
            Refusal::ValueNotNumber(_) => 9,
            Refusal::BadValue(_) => 10,
            Refusal::NoSymmetry(_) => 11,
            Refusal::BadAssignment => 12,
            Refusal::NoSuchClause => 13,
            Refusal::NoFigure => 14,
            Refusal::BadInput => 15,
            Refusal::NotOpen => 20,
            Refusal::BadlyFormed => 21,
            Refusal::RowsFull => 22,
            Refusal::TooShort(_) => 23,
            Refusal::NoRow => 30,
            Refusal::MovesNothing => 31,
        }
    }

    pub fn place(self) -> usize
        ensures { result ≡ place_of self }
    {
        match self {
            Refusal::NoProblemLine(at)
            | Refusal::SizeOverLimit(at)
            | Refusal::NotNumber(at)
            | Refusal::LiteralBeyond(at)
            | Refusal::TooManyLiterals(at)
            | Refusal::ClauseCount(at)
            | Refusal::NameNotNumber(at)
            | Refusal::BadName(at)
            | Refusal::ValueNotNumber(at)
            | Refusal::BadValue(at) => at,
            Refusal::NoSymmetry(clause) => clause,
            Refusal::TooShort(needed) => needed,
            _ => 0,
        }
    }
}
