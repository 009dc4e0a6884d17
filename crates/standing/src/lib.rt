// What a call that needs an open store finds first: whether all that is lent is as it should be. Every such call asks this once. One that only
// reads goes on with a store whose form is in its type; an offer, whose images are lent to be written, with its slices.
#![tactic(auto)]

ghost use Rattle.std.specs.Prelude.{◌≡◌};
ghost use Rattle.numbers.specs.Numbers.{numbers};
ghost use Rattle.standing.specs.Keyed.{Keyed, keyed, standing_of};
ghost use Rattle.standing.specs.Admitted.{admitted};

use std::marker::Model;
use store::form::Formed;
use store::record::Record;
use store::refusal::Refusal;

// All that a caller lends at a call that changes nothing of it: the store, and the keys of its clauses. It may hold anything.
#[derive(Drop)]
pub struct Lent<'a> {
    pub counts: Record,
    pub literals: &'a [u16],
    pub ends: &'a [u16],
    pub keys: &'a [u64],
    pub images: &'a [u16],
}

impl<'a> Model for Lent<'a> {
    ghost Value = { Keyed };

    ghost view = { λ s. keyed s.counts s.literals s.ends s.keys s.images };
}

// The store, if it is open and well formed: 20, then 21.
pub fn admit<'a>(s: &Lent<'a>) -> Result<Formed<'a>, Refusal>
    ensures { admitted result ≡ standing_of s.now }
{
    admit_by(s, &numbers::numbers())
}

// The same for a caller that has the table of the numbers. The form of the store first: only then are its clauses there to be summed.
pub fn admit_by<'a>(s: &Lent<'a>, table: &[u64; numbers::COUNT]) -> Result<Formed<'a>, Refusal>
    requires { table.now ≡ numbers }
    ensures { admitted result ≡ standing_of s.now }
{
    if !s.counts.is_open {
        return Err(Refusal::NotOpen);
    }
    let Some(store) = Formed::new(s.counts, s.literals, s.ends, s.images) else {
        return Err(Refusal::BadlyFormed);
    };
    if !keys::are_right(store.clauses(), s.keys, table) {
        return Err(Refusal::BadlyFormed);
    }
    Ok(store)
}
