// Clauses with a contradictory pair of literals, without which offers are judged (document 02, CR 7).
ghost use Rattle.std.specs.Prelude.{◌≡◌, true};
ghost use Rattle.lists.specs.Tests.{all_of};
ghost use Rattle.store.specs.Literals.{is_literal};
ghost use Rattle.store.specs.Stores.{max_variables};
ghost use Rattle.keys.specs.Marks.{Marked, Places, sent_clause};
ghost use Rattle.symmetry.specs.Judged.{has_opposites};

use crate::sought::Image;
use store::literal;

// Whether what a clause is sent to has a literal together with its opposite. It is what is sought: it has that mark and nothing else has, so one pass is enough.
pub fn has_opposites(clause: &[u16], places: &[u16; numbers::COUNT], sought: Image) -> bool
    requires { (all_of (is_literal max_variables) clause.now ≡ true)
        × Places places.now
        × Marked sought.mark (sent_clause places.now clause.now) sought.marks.now }
    ensures { result ≡ has_opposites (sent_clause places.now clause.now) }
{
    let mark = sought.mark;
    let marks = sought.marks;
    for code in clause {
        let image = keys::sent(places, u32::from(*code)) as u32 + 2;
        if marks[keys::place(literal::opposite(image))] == mark {
            return true;
        }
    }
    false
}
