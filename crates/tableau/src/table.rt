//! Rows and tables, by value.
use base::form::Form;

/// The columns of a row.
pub const COLUMNS: usize = 9;

/// The rows that a table has room for.
pub const ROWS: usize = 64;

// A pivot leaves rows in the table that are out of range, and says so: `Sound` and `Ready` cannot stand in the types.
/// A row says that `div` times its value is `coefs` times the basic unknowns, plus `form`.
#[derive(Clone, Copy)]
pub struct Row {
    pub coefs: [i64; COLUMNS],
    pub form: Form,
    pub div: i64,
}

// Plain arrays by value, with their count: the solver uses no heap, and a branch of a split works on a copy.
/// The rows in use are the first `count`; the first `unknowns` of them stand for the unknowns.
#[derive(Clone, Copy)]
pub struct Table {
    pub rows: [Row; ROWS],
    pub count: usize,
    pub unknowns: usize,
}
