//! Lists of calls, run on a sheet.
ghost use Rattle.std.specs.Prelude.{◌≡◌, IfOk, OnErr};
ghost use Rattle.sheet.specs.Arrangements.{Reached};
ghost use Rattle.sheet.specs.Logs.{MadeOne, Ran};

use crate::call::{Answer, Call};
use crate::sheet::Sheet;
use source::source::Source;
use std::alloc::{AllocError, Global};
use store::store::Store;
use tree::node::Node;

/// Makes one call.
fn make<T: Store, S: Source>(sheet: &mut Sheet<T>, work: &mut [Node], call: &Call<S>) -> Answer
    ensures made { MadeOne S.meaning call.now result sheet.old sheet.new work.old work.new }
    ensures reached { ∥ Reached sheet.new ∥₁ }
{
    match call {
        Call::Solve { source, fuel } => Answer::Solved(sheet.solve(source, work, *fuel)),
        Call::Find { point } => {
            let mut place = [0; 6];
            let said = sheet.find(point, &mut place);
            Answer::Found { said, place }
        }
        Call::Wipe => Answer::Wiped(sheet.wipe()),
    }
}

/// Makes the calls on the sheet one after another, each solve with this work table, and gives their answers. Where there
/// is no memory for the answers, no call is made.
pub fn run<T: Store, S: Source>(
    sheet: &mut Sheet<T>,
    alloc: Global,
    work: &mut [Node],
    calls: &[Call<S>],
) -> Result<Vec<Answer>, AllocError>
    ensures ran { IfOk result (λ answers. Ran S.meaning calls.now answers.items sheet.old sheet.new work.old work.new) }
    ensures reached { ∥ Reached sheet.new ∥₁ }
    ensures untouched { OnErr result ((sheet.new ≡ sheet.old) × (work.new ≡ work.old)) }
{
    // some arrangement leads to the sheet as it is handed in: clause `reached`, where no call is made
    sheet.was_reached();
    let mut answers = Vec::with_capacity(alloc, calls.len())?;
    for call in calls {
        answers.push_reserved(make(sheet, work, call));
    }
    Ok(answers)
}
