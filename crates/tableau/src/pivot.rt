//! A pivot of the whole table, in place.
ghost use Rattle.std.specs.Prelude.{◌≡◌, ℕ, ◌<◌, ◌≤◌, true, map, drop, pos, ◌<ℤ◌, slice_index_or};
ghost use Rattle.base.specs.Numbers.{at};
ghost use Rattle.tableau.specs.Rows.{pivoted};
ghost use Rattle.tableau.specs.Tables.{PivotAt, Ready, all_fit, in_use, no_row};

use crate::row::{fits, pivoted};
use crate::table::Table;

/// Whether all rows in use are in range.
fn all_fit(t: &Table) -> bool
    requires { t.now.count ≤ 64 }
    ensures { result ≡ all_fit (in_use t.now) }
{
    t.rows[..t.count].iter().all(fits)
}

// A bool, not a `Result`: what the table holds is one equation for both answers.
/// Inner: the pivot at the place (row, column), whose number is above 0. It answers whether all rows
/// are still in range; if not, the table holds the rows that are out of range, and is of no more use.
pub fn pivot(t: &mut Table, place: (usize, usize)) -> bool
    requires ready { Ready t.old }
    requires there { PivotAt t.old place }
    ensures rows { in_use t.new ≡ map (pivoted (slice_index_or t.old.rows place.0 no_row) place.1) (in_use t.old) }
    ensures rest { drop t.old.count t.new.rows ≡ drop t.old.count t.old.rows }
    ensures counts { (t.new.count ≡ t.old.count) × (t.new.unknowns ≡ t.old.unknowns) }
    ensures answer { result ≡ all_fit (in_use t.new) }
    ensures ready { result ≡ true → Ready t.new }
{
    let (i, j) = place;
    let by = t.rows[i];
    let count = t.count;
    for row in &mut t.rows[..count] {
        *row = pivoted(*row, &by, j);
    }
    all_fit(t)
}
