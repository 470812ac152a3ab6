//! The system of a source, read once and put into a table and a context.
ghost use Rattle.std.specs.Prelude.{◌≡◌, ◌+◌, ◌-◌, ◌^◌, ◌<◌, ◌≤◌, [], ◌++◌, drop, length, take, pos, Ok, Err, IfOk, slice_index_or};
ghost use Rattle.base.specs.Numbers.{AllWithin, zeros};
ghost use Rattle.source.specs.Counted.{counted};
ghost use Rattle.source.specs.Limits.{numbers_answer};
ghost use Rattle.tableau.specs.Rows.{Sound};
ghost use Rattle.tableau.specs.Tables.{Ready};
ghost use Rattle.solver.specs.Bounds.{StateReady};
ghost use Rattle.solver.specs.Solves.{fitted, form_of, row_of};
ghost use Rattle.solver.specs.Ties.{ContextRead, Started, TableRead, counts_read, form_read, row_read};

use crate::context::Context;
use crate::node::DEPTH;
use crate::start::{push_row, unit_table};
use crate::state::State;
use base::form::{CONSTANT, Form};
use base::refusal::Refusal;
use source::counts::Counts;
use source::limits::{MAX_ROW_LENGTH, check_numbers};
use source::source::Source;
use std::array;
use tableau::table::{Row, Table};

/// The counts of a source, if they are within the limits of a system.
fn counts_of<S: Source>(source: &S) -> Result<Counts, Refusal>
    ensures answer { counted result ≡ counts_read (S.meaning source.now) }
{
    Counts::new(
        source.unknowns(),
        source.parameters(),
        source.rows(),
        source.context_rows(),
    )
}

/// The numbers at the first `width` columns, each asked for once, and zeros after them.
fn numbers_of<F: Fn(usize) -> i64>(width: usize, ask: F) -> [i64; MAX_ROW_LENGTH]
    requires { F.IsAlwaysCallable ask }
    ensures asked { (j : _) → j < 11 → j < width → F.post ask j (slice_index_or result j (pos 0)) }
{
    array::from_fn(|j| if j < width { ask(j) } else { 0 })
}

/// Numbers of a row, each within the limits.
#[derive(Clone, Copy)]
struct Numbers<'a> {
    items: &'a [i64],
    ghost small: { AllWithin 1000000 items.now },
}

impl<'a> Numbers<'a> {
    /// The numbers of row i, unless one is out of limits.
    fn of(i: usize, items: &'a [i64]) -> Result<Numbers<'a>, Refusal>
        ensures answer { elim result [ Ok x ↦ (numbers_answer i items.now ≡ Ok tt) × (x.items.now ≡ items.now) | Err e ↦ numbers_answer i items.now ≡ Err e ] }
    {
        check_numbers(i, items)?;
        Ok(Numbers { items })
    }

    /// All but the first n.
    fn after(&self, n: usize) -> Numbers<'a>
        requires { n ≤ length self.now.items.now }
        ensures value { result.items.now ≡ drop n self.now.items.now }
    {
        let (_, items) = self.items.split_at(n);
        Numbers { items }
    }

    /// The form of p coefficients and a constant after them.
    fn form(&self, p: usize) -> Form
        requires few { p ≤ 4 }
        requires wide { p < length self.now.items.now }
        ensures value { result ≡ form_of p self.now.items.now }
        ensures small { AllWithin (2 ^ 30) result }
    {
        let mut form = [0; 10];
        form[..p].copy_from_slice(&self.items[..p]);
        form[CONSTANT] = self.items[p];
        form
    }

    /// The coefficients of the n unknowns.
    fn coefficients(&self, n: usize) -> [i64; 9]
        requires few { n ≤ 6 }
        requires wide { n ≤ length self.now.items.now }
        ensures value { result ≡ take n self.now.items.now ++ zeros (9 - n) }
        ensures small { AllWithin (2 ^ 30) result }
    {
        let mut coefs = [0; 9];
        coefs[..n].copy_from_slice(&self.items[..n]);
        coefs
    }

    /// A system row as a row of the table.
    fn row(&self, c: Counts) -> Row
        requires { c.n + c.p < length self.now.items.now }
        ensures value { result ≡ row_of c.n c.p self.now.items.now }
        ensures sound { Sound result }
    {
        Row {
            coefs: self.coefficients(c.n),
            form: self.after(c.n).form(c.p),
            div: 1,
        }
    }
}

// The source and its counts stay two arguments: a struct of both would need the trait's bound and its meaning in its fields.
// `read_row` and `read_form` share their two steps, and differ in what they ask and answer.
/// Row i of the system.
fn read_row<S: Source>(source: &S, c: Counts, i: usize) -> Result<Row, Refusal>
    ensures answer { result ≡ row_read c.n c.p i (fitted (c.n + c.p + 1) (slice_index_or (S.meaning source.now).rows i [])) }
    ensures sound { IfOk result Sound }
{
    let width = c.row_length();
    let numbers = numbers_of(width, |j| source.number(i, j));
    let row = Numbers::of(i, &numbers[..width])?;
    Ok(row.row(c))
}

/// Context row i of the system. A number out of limits is refused with a row that counts on after the
/// rows.
fn read_form<S: Source>(source: &S, c: Counts, i: usize) -> Result<Form, Refusal>
    requires { i < c.k }
    ensures answer { result ≡ form_read c.p (c.m + i) (fitted (c.p + 1) (slice_index_or (S.meaning source.now).context i [])) }
    ensures small { IfOk result (AllWithin (2 ^ 30)) }
{
    let width = c.context_row_length();
    let numbers = numbers_of(width, |j| source.context_number(i, j));
    let row = Numbers::of(c.m + i, &numbers[..width])?;
    Ok(row.form(c.p))
}

/// The table of a system: the unknowns, then its rows.
fn read_table<S: Source>(source: &S, c: Counts) -> Result<Table, Refusal>
    requires { c.m ≡ length (S.meaning source.now).rows }
    ensures answer { TableRead c.n c.p (S.meaning source.now).rows result }
    ensures ready { IfOk result Ready }
    ensures counts { IfOk result (λ t. (t.count ≡ c.n + c.m) × (t.unknowns ≡ c.n)) }
{
    let mut table = unit_table(c.n);
    // a source has no rows to go over: it is asked by their places
    for i in 0..c.m {
        push_row(&mut table, read_row(source, c, i)?);
    }
    Ok(table)
}

/// The context of a system.
fn read_context<S: Source>(source: &S, c: Counts) -> Result<Context, Refusal>
    requires { c.k ≡ length (S.meaning source.now).context }
    ensures answer { ContextRead c.m c.p (S.meaning source.now).context result }
    ensures counts { IfOk result (λ x. (x.count ≤ c.k) × (x.made ≡ 0)) }
{
    let mut ctx = Context::open(c.p);
    // and for its context rows too
    for i in 0..c.k {
        let form = read_form(source, c, i)?;
        // numbers within the limits of a system are in range
        let _ = ctx.join(&form);
    }
    Ok(ctx)
}

/// Inner: the state that a solve starts from, if the system is within the limits.
pub fn read_state<S: Source>(source: &S) -> Result<State, Refusal>
    ensures answer { Started (S.meaning source.now) result }
    ensures ready { IfOk result StateReady }
{
    let c = counts_of(source)?;
    let table = read_table(source, c)?;
    let context = read_context(source, c)?;
    Ok(State {
        table,
        context,
        cuts: 0,
        left: DEPTH,
    })
}
