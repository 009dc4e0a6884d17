// Where the moved variables of each row are, noted once a descent: a kilobyte.
ghost use Rattle.std.specs.Prelude.{◌≤◌, length};
ghost use Rattle.descent.specs.Noted.{Noted};

use store::rows::Rows;
use trial::Span;

// Notes the span of each row.
pub fn note(rows: Rows, spans: &mut [Span])
    requires { rows.counts.rows ≤ length spans.old }
    ensures { Noted rows.entry.counts.variables rows.entry.counts.rows rows.entry.images.now spans.new }
{
    for r in 0..rows.counts.rows {
        spans[r] = trial::span_of(rows.row(r).images);
    }
}
