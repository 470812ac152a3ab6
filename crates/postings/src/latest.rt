//! A nest solved on a sheet, and the question for its latest posting.
ghost use Rattle.std.specs.Prelude.{◌≡◌, OnOk};
ghost use Rattle.tree.specs.Finds.{said_of};
ghost use Rattle.nest.specs.Acts.{nest_of};
ghost use Rattle.nest.specs.Backs.{turned_back};
ghost use Rattle.nest.specs.Tables.{system_of};
ghost use Rattle.sheet.specs.Arrangements.{Reached};
ghost use Rattle.sheet.specs.Events.{find_of};
ghost use Rattle.sheet.specs.Sheets.{solve_says, store_after, table_after};
ghost use Rattle.postings.specs.Latest.{latest_in, left_of, turned};
ghost use Rattle.postings.specs.Laws.{NextLatest, Stands};

use base::refusal::Refusal;
use nest::nest::Nest;
use sheet::sheet::Sheet;
use solver::run::Solved;
use store::store::Store;
use tree::node::Node;
use tree::walk::Found;

/// Solves the nest on the sheet, as `Sheet::solve`. Accepted, the nest stands there: `latest` answers for it.
pub fn solve<T: Store>(
    sheet: &mut Sheet<T>,
    nest: &Nest,
    work: &mut [Node],
    fuel: i64,
) -> Result<Solved, Refusal>
    ensures answer { result ≡ solve_says sheet.old (system_of (nest_of nest.now)) fuel work.old }
    ensures work { work.new ≡ table_after sheet.old (system_of (nest_of nest.now)) fuel work.old }
    ensures left { sheet.new ≡ store_after sheet.old (system_of (nest_of nest.now)) fuel work.old }
    ensures stands { OnOk result (Stands (nest_of nest.now) sheet.new) }
{
    sheet.solve(nest, work, fuel)
}

/// Turns a found point back into counters.
fn turn_back(
    nest: &Nest,
    point: &[i64],
    least: &[i64; 6],
    counters: &mut [i64; 6],
) -> Result<Found, Refusal>
    ensures answer { result ≡ said_of (turned (turned_back (nest_of nest.now) point.now least.now)) }
    ensures left { counters.new ≡ left_of (turned (turned_back (nest_of nest.now) point.now least.now)) }
{
    nest.back(point, least, counters)?;
    Ok(Found::Point)
}

/// Finds on the sheet, and turns the point back.
fn ask<T: Store>(
    sheet: &Sheet<T>,
    nest: &Nest,
    point: &[i64],
    counters: &mut [i64; 6],
) -> Result<Found, Refusal>
    ensures answer { result ≡ said_of (latest_in sheet.now.nodes (nest_of nest.now) point.now) }
    ensures left { counters.new ≡ left_of (latest_in sheet.now.nodes (nest_of nest.now) point.now) }
    ensures reached { ∥ Reached sheet.now ∥₁ }
{
    *counters = [0; 6];
    let mut least = [0; 6];
    match sheet.find(point, &mut least)? {
        Found::Point => turn_back(nest, point, &least, counters),
        Found::None => Ok(Found::None),
    }
}

/// The latest posting of a nest that stands on the sheet, at a parameter point: its counters are left in the place, zeros
/// after them. None says that its cell is never posted to there.
///
/// Refused are, in this order: a sheet without a tree (41), a parameter point not of p numbers (42), one with a number not
/// from 0 to 1,000,000 (43), one outside a context row (44). Refused, and where there is none, the place holds zeros. Where
/// another system stands on the sheet, the answer is that system's point turned back by this nest, or why that is refused
/// (42, 45).
pub fn latest<T: Store>(
    sheet: &Sheet<T>,
    nest: &Nest,
    point: &[i64],
    counters: &mut [i64; 6],
) -> Result<Found, Refusal>
    ensures answer { result ≡ said_of (latest_in sheet.now.nodes (nest_of nest.now) point.now) }
    ensures left { counters.new ≡ left_of (latest_in sheet.now.nodes (nest_of nest.now) point.now) }
    ensures reached { ∥ Reached sheet.now ∥₁ }
    ensures law { NextLatest sheet.now (nest_of nest.now) (find_of point.now result counters.new) }
{
    ask(sheet, nest, point, counters)
}
