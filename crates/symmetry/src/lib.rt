// Whether a row is a symmetry of the plain formula (document 01, "Permutations", and refusal 11; document 02, CR 7).
//
// A clause comes as the part of the literals that it is, and clauses are compared as sets: `is_image` alone decides whether one is the
// image of another. Offers are judged by the clauses without a contradictory pair: a row is a symmetry when the set of their images is the
// set of these clauses, which asks for two things: that each image is one of them, and that each of them is an image. Only the first is
// looked for. A row permutes the literals, so clauses that differ as sets have images that differ as sets; and a map of finitely many
// clauses into themselves that keeps different ones different reaches them all: follow the images from a clause on until two of them are
// the same, take the steps back from both, and the clause is itself an image (proofs/Onto.antt). So the first missing image is the whole
// answer, and it is refusal 11's place (proofs/Theorem.antt).
//
// The image of a clause without a pair has none either (`opposites-image`, proofs/JudgedLaws.antt), so it may be looked for among all clauses.
// And a clause with a pair may be looked at like the others as long as its image is found: only where one is missing is a pair looked for.
//
// To compare each image with each clause would be the square of m. Clauses with the same literals have the same key (document 02, CR 5), so an image is compared in full
// with the clauses that have its key and no others, and those are found by an index of the keys. Keys decide nothing: where two clauses share one, the full comparison
// tells them apart. It takes time in proportion to the clause that the image is compared with: while the key of an image is summed its literals are marked, and it is enough
// that each literal of the clause has the mark, since the last bits of a key are the count of different literals (docs/KEYS.md; `keys/proofs/Counts.antt`).
#![tactic(auto)]

mod index;
mod judged;
pub mod keyed;
mod sought;

ghost use Rattle.std.specs.Prelude.{◌≡◌, true, List, ℕ, length};
ghost use Rattle.lists.specs.Tests.{all_of};
ghost use Rattle.store.specs.Held.{formula_of};
ghost use Rattle.store.specs.Literals.{is_literal};
ghost use Rattle.store.specs.Stores.{max_variables};
ghost use Rattle.numbers.specs.Numbers.{numbers, number_count};
ghost use Rattle.keys.specs.Keys.{key_of};
ghost use Rattle.keys.specs.Marks.{Places};
ghost use Rattle.symmetry.specs.Sets.{same_set};
ghost use Rattle.symmetry.specs.Symmetry.{image_of, missing_from, first_missing, number_or_none};
ghost use Rattle.symmetry.specs.Fitting.{FitsRow, ImagePlaces};
ghost use Rattle.symmetry.specs.Sought.{Sought};

use crate::index::Index;
use crate::keyed::KeyedClauses;
use crate::sought::Image;
use store::literal;
use store::record::Record;
use store::row::Row;

// The number, from 1, of the first clause that has no contradictory pair and whose image under a row is missing among the clauses, if one is. The table is that of the
// numbers.
pub fn first_missing(keyed: KeyedClauses, row: Row, table: &[u64; numbers::COUNT]) -> Option<usize>
    requires { FitsRow row.images.now (formula_of keyed.clauses) × (table.now ≡ numbers) }
    ensures { result ≡ number_or_none (first_missing row.entry.images.now (formula_of keyed.entry.clauses)) }
{
    let mut places = [0u16; numbers::COUNT];
    image_places(row, &mut places);
    let mut heads = [0u16; index::BUCKETS];
    let mut nexts = [0u16; Record::MAX_CLAUSES];
    index::of_keys(keyed, &mut heads, &mut nexts);
    let index = Index {
        keyed,
        heads: &heads,
        nexts: &nexts,
    };
    first_missing_by(index, &places, table)
}

// Fills a table with the places of the images of the row's literals.
fn image_places(row: Row, places: &mut [u16])
    requires { Places places.old × (length places.old ≡ number_count) }
    ensures { ImagePlaces row.entry.images.now places.new }
{
    let images = row.images;
    for code in 2..2 * (images.len() as u32 + 1) {
        places[keys::place(code)] = keys::place(image(images, code)) as u16;
    }
}

// The number of the first clause without a contradictory pair whose image is missing, by the places of the images: by those of any row.
fn first_missing_by(
    index: Index,
    places: &[u16; numbers::COUNT],
    table: &[u64; numbers::COUNT],
) -> Option<usize>
    requires { Places places.now × (table.now ≡ numbers) }
    ensures { let formula = formula_of index.entry.keyed.clauses in
        ((row : List ℕ) → ImagePlaces row places.now → FitsRow row formula
        → result ≡ number_or_none (missing_from row formula 1 formula)) }
{
    let clauses = index.keyed.clauses;
    let mut marks = [0u16; numbers::COUNT];
    for c in 0..clauses.count {
        let key = keys::key_at(clauses, c, places, table, &mut marks);
        let sought = Image {
            key,
            mark: (c + 1) as u16,
            marks: &marks,
        };
        if !index.has(sought) && !judged::has_opposites(clauses.clause(c), places, sought) {
            return Some(c + 1);
        }
    }
    None
}

// Whether an image is, as a set, a clause that has its key. No other function compares clauses in full. The keys say that there are as many different literals in the one as
// in the other, so it is enough that each of the clause's has the mark.
fn is_image(clause: &[u16], sought: Image) -> bool
    requires { (key_of clause.now ≡ sought.key) × (all_of (is_literal max_variables) clause.now ≡ true) }
    ensures { (image : List ℕ) → Sought sought.entry.mark sought.entry.marks.now image → result ≡ same_set image clause.now }
{
    let mark = sought.mark;
    let marks = sought.marks;
    for code in clause {
        if marks[keys::place(u32::from(*code))] != mark {
            return false;
        }
    }
    true
}

// The image of a literal of the row's variables.
fn image(row: &[u16], code: u32) -> u32
    requires { is_literal (length row.now) code ≡ true }
    ensures { result ≡ image_of row.now code }
{
    let image = u32::from(row[literal::variable(code) - 1]);
    if literal::is_negative(code) {
        literal::opposite(image)
    } else {
        image
    }
}
