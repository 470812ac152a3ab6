//! The context: what is known of the parameters.
ghost use Rattle.std.specs.Prelude.{◌≡◌, ℕ, ◌^◌, ◌<◌, ◌≤◌, [], slice_index_or};
ghost use Rattle.base.specs.Numbers.{AllWithin};

use base::form::Form;
use base::number::in_range;

/// The rows that a context has room for: 8 at the start, 12 of splits, 10 of new parameters, and one
/// that a test adds.
pub const FORMS: usize = 31;

// Plain arrays by value, with their count: the solver uses no heap, and a branch works on a copy. Room for one row more is
// there at some moments only: clauses ask for it.
/// Each of the first `count` forms is at least 0; their numbers are in range. The first `parameters`
/// places of a form are in use, and `made` of the places of new parameters.
#[derive(Clone, Copy)]
pub struct Context {
    pub forms: [Form; FORMS],
    pub count: usize,
    pub parameters: usize,
    pub made: usize,
    pub ghost room: { count ≤ 31 },
    pub ghost few: { parameters ≤ 4 },
    pub ghost few_made: { made ≤ 5 },
    pub ghost small: { (k : ℕ) → k < count → AllWithin (2 ^ 30) (slice_index_or forms k []) },
}

impl Context {
    ghost use Rattle.std.specs.Prelude.{◌≡◌, ◌+◌, ◌<◌, ◌≤◌, [], ◌∷◌, ◌++◌, take, if◌then◌else◌};
    ghost use Rattle.base.specs.Numbers.{within};
    ghost use Rattle.solver.specs.Bounds.{in_force};

    /// Inner: a context that says nothing.
    pub fn open(parameters: usize) -> Context
        requires { parameters ≤ 4 }
        ensures { (result.count ≡ 0) × (result.parameters ≡ parameters) × (result.made ≡ 0) }
    {
        Context {
            forms: [[0; 10]; FORMS],
            count: 0,
            parameters,
            made: 0,
        }
    }

    // a bool: step and place of the refusal are known to the caller alone
    /// Inner: makes a context row of the form and adds it; false, and nothing added, where it is out of
    /// range. Every row of a context is made here.
    pub fn join(&mut self, form: &Form) -> bool
        requires { self.old.count < 31 }
        ensures answer { result ≡ within form.now }
        ensures rows { in_force self.new ≡ (if result then in_force self.old ++ form.now ∷ [] else in_force self.old) }
        ensures kept { take self.old.count self.new.forms ≡ in_force self.old }
        ensures counts { (self.new.count ≡ (if result then self.old.count + 1 else self.old.count)) × (self.new.parameters ≡ self.old.parameters) × (self.new.made ≡ self.old.made) }
    {
        if !in_range(form) {
            return false;
        }
        let count = self.count;
        self.forms[count] = *form;
        self.count = count + 1;
        true
    }
}

// A count that is put back, and no buffer of that length.
/// While it stands the context may have further rows; then its row count is as it was.
pub struct Added<'a> {
    pub ctx: &'a mut Context,
    pub count: usize,
    ghost fewer: { count ≤ ctx.now.count },
}

impl Drop for Added<'_> {
    fn drop(self)
        ensures rows { self.exit.0.now.forms ≡ self.entry.ctx.now.forms }
        ensures counts { (self.exit.0.now.count ≡ self.entry.count) × (self.exit.0.now.parameters ≡ self.entry.ctx.now.parameters) × (self.exit.0.now.made ≡ self.entry.ctx.now.made) }
    {
        let Added { ctx, count } = self;
        ctx.count = count;
    }
}
