// The rows of a store: n images each, one row after another in the images slice.
ghost use Rattle.std.specs.Prelude.{◌≡◌, ◌+◌, ◌*◌, ◌≤◌, ◌<◌, length};
ghost use Rattle.store.specs.Stores.{max_variables, row_at, appended, FormedRows};
ghost use Rattle.store.specs.Identity.{moves_nothing};

use crate::record::Record;
use crate::row::Row;

// The rows of a well-formed store, by its record and its images.
#[derive(Clone, Copy)]
pub struct Rows<'a> {
    pub counts: Record,
    pub images: &'a [u16],
    pub ghost formed: { FormedRows counts.variables counts.rows images.now },
}

impl<'a> Rows<'a> {
    // Row r, from 0.
    pub fn row(self, r: usize) -> Row<'a>
        requires { r < self.counts.rows }
        ensures { result.images.now ≡ row_at self.entry.counts.variables r self.entry.images.now }
    {
        Row {
            images: row(self.images, self.counts.variables, r),
        }
    }
}

// Row r, from 0.
pub fn row(images: &[u16], n: usize, r: usize) -> &[u16]
    requires { r * n + n ≤ length images.now }
    ensures { result.now ≡ row_at n r images.now }
{
    let from = r * n;
    let to = from + n;
    &images[from..to]
}

// Writes a row of n images behind the first k.
pub fn append(images: &mut [u16], n: usize, k: usize, row: &[u16])
    requires { (length row.now ≡ n) × (k * n + n ≤ length images.old) }
    ensures { images.new ≡ appended n k row.now images.old }
{
    let at = k * n;
    images[at..at + n].copy_from_slice(row);
}

// Whether every variable is its own image.
pub fn moves_nothing(row: &[u16]) -> bool
    requires { length row.now ≤ max_variables }
    ensures { result ≡ moves_nothing row.now }
{
    for (i, image) in row.iter().enumerate() {
        if *image as usize != 2 * (i + 1) {
            return false;
        }
    }
    true
}
