//! The entering column.
ghost use Rattle.std.specs.Prelude.{◌≡◌, ◌<◌, IfSome};
ghost use Rattle.tableau.specs.Columns.{Enters, beats, better, entering, pivot_place};
ghost use Rattle.tableau.specs.Rows.{Sound};
ghost use Rattle.tableau.specs.Tables.{PivotAt, Ready, top};

use crate::row::times;
use crate::table::{Row, Table};

// A table, a row (of the table, or one that is to join it) and columns: named at each call, as in the rule.
/// Inner: whether column j beats column l as the entering column of row i.
pub fn beats(t: &Table, i: &Row, j: usize, l: usize) -> bool
    requires ready { Ready t.now }
    requires row { Sound i.now }
    requires columns { (j < 9) × (l < 9) }
    ensures { result ≡ beats (top t.now) i.now j l }
{
    for h in &t.rows[..t.unknowns] {
        let x = times(h.coefs[j], i.coefs[l]);
        let y = times(h.coefs[l], i.coefs[j]);
        if x != y {
            return x < y;
        }
    }
    false
}

/// The better one of column j and the best so far.
fn better(t: &Table, i: &Row, j: usize, best: Option<usize>) -> Option<usize>
    requires ready { Ready t.now }
    requires row { Sound i.now }
    requires column { j < 9 }
    requires before { IfSome best (λ l. l < 9) }
    ensures value { result ≡ better (top t.now) i.now j best }
    ensures inside { IfSome result (λ l. l < 9) }
{
    match best {
        Some(l) => if beats(t, i, j, l) { Some(j) } else { Some(l) },
        None => Some(j),
    }
}

/// Inner: the column in which row i enters the basis; none if no number of the row is above 0.
pub fn entering(t: &Table, i: &Row) -> Option<usize>
    requires ready { Ready t.now }
    requires row { Sound i.now }
    ensures value { result ≡ entering (top t.now) i.now }
    ensures best { Enters (top t.now) i.now result }
{
    let mut best = None;
    for (j, x) in i.coefs.iter().enumerate() {
        if *x > 0 {
            best = better(t, i, j, best);
        }
    }
    best
}

/// Inner: the pivot place of row i, as a row and a column.
pub fn pivot_place(t: &Table, i: usize) -> Option<(usize, usize)>
    requires ready { Ready t.now }
    requires row { i < t.now.count }
    ensures value { result ≡ pivot_place t.now i }
    ensures inside { IfSome result (PivotAt t.now) }
{
    entering(t, &t.rows[i]).map(|j| (i, j))
}
