//! What a source is: it answers for a system's counts and numbers.
ghost use Rattle.std.specs.Prelude.{◌≡◌, length};
ghost use Rattle.source.specs.Systems.{System, number, context_number};

/// Where a system comes from. Its meaning is the table of the system's numbers, and each question
/// is answered from that table. Any counts and any numbers may be meant: whoever solves the system
/// holds it to the limits.
pub trait Source {
    ghost meaning: { Self → System };

    /// How many unknowns the system has.
    fn unknowns(&self) -> usize
        ensures value { result ≡ (meaning self.now).n };

    /// How many parameters it has.
    fn parameters(&self) -> usize
        ensures value { result ≡ (meaning self.now).p };

    /// How many rows it has.
    fn rows(&self) -> usize
        ensures value { result ≡ length (meaning self.now).rows };

    /// How many context rows it has.
    fn context_rows(&self) -> usize
        ensures value { result ≡ length (meaning self.now).context };

    // two numbers as the caller counts them: a type for the pair would be taken apart at once
    /// The number of a row at a column, both from 0; 0 where there is none.
    fn number(&self, row: usize, column: usize) -> i64
        ensures value { result ≡ number (meaning self.now) row column };

    /// The number of a context row at a column, both from 0; 0 where there is none.
    fn context_number(&self, row: usize, column: usize) -> i64
        ensures value { result ≡ context_number (meaning self.now) row column };
}
