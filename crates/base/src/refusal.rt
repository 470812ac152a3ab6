//! Why there is no answer: one case for each number, with the values that go with it.
ghost use Rattle.std.specs.Prelude.{◌≡◌};
ghost use Rattle.base.specs.Refusals.{met, report_of};

/// Where a step was made or a number formed: at a node of the tree, or in a test of the context.
#[derive(Clone, Copy, PartialEq, Eq, Debug)]
pub enum Place {
    Node,
    Test,
}

/// How far a run had come when it was refused.
#[derive(Clone, Copy, PartialEq, Eq, Debug)]
pub struct Met {
    pub steps: u32,
    pub place: Place,
}

/// A refusal. Number and values of each case are in `specs/Refusals.antt`.
#[derive(Clone, Copy, PartialEq, Eq, Debug)]
pub enum Refusal {
    /// 11: n, p, m or k is out of limits.
    Counts,
    /// 12: a number of a row is out of limits; context rows count on after the rows.
    Number { row: usize, column: usize },
    /// 13: no parameter point meets the context rows.
    NoParameterPoint,
    /// 14: a row of the wrong length, or one row too many.
    RowShape,
    /// 15: a bound or a cell condition of a nest of the wrong length, for no loop, beyond the count, or with a number out of limits.
    NestShape,
    /// 16: the listing's text is not of the format.
    Listing,
    /// 21: fuel is not from 0 to 100,000.
    Fuel,
    /// 22: the work table is full.
    WorkFull(Met),
    /// 23: the store is too small.
    StoreFull,
    /// 24: the fuel is spent.
    FuelSpent(Met),
    /// 25: the store is closed.
    StoreClosed,
    /// 31: a number left the range.
    Range(Met),
    /// 32: a 25th cut.
    Cuts(Met),
    /// 33: a sixth new parameter.
    NewParameters(Met),
    /// 34: a split below twelve others.
    Depth(Met),
    /// 41: there is no tree to ask.
    NoTree,
    /// 42: the point does not have as many numbers as the tree, or in `back` the nest, has parameters.
    PointLength,
    /// 43: a number of the point is not from 0 to 1,000,000.
    PointNumber,
    /// 44: the point lies outside a keep.
    OutsideKeep,
    /// 45: a number is not from 0 to its loop's bound.
    BeyondBound,
    /// 51: bytes are missing from the record at this offset of the page, or are left over from there on.
    PageLength { offset: usize },
    /// 52: the kind of the record at this offset is none that may stand there.
    PageKind { offset: usize },
    /// 53: a number of the record at this offset is out of limits, or is unused and not 0.
    PageNumber { offset: usize },
    /// 54: the record at this offset is a split too deep, or one new parameter too many.
    PageDepth { offset: usize },
}

/// The values that go with a refusal's number.
#[derive(Clone, Copy, PartialEq, Eq, Debug)]
pub enum Values {
    None,
    /// An offset.
    One(usize),
    /// A row and a column, or steps and flag.
    Two(usize, usize),
}

/// A refusal as users know it: by its number and the values that go with it.
#[derive(Clone, Copy, PartialEq, Eq, Debug)]
pub struct Report {
    pub number: u8,
    pub values: Values,
}

impl Met {
    /// The steps made, and the flag: 1 where it was met in a test.
    fn values(self) -> Values
        ensures { result ≡ met self }
    {
        let flag = match self.place {
            Place::Node => 0,
            Place::Test => 1,
        };
        Values::Two(self.steps as usize, flag)
    }
}

impl Refusal {
    /// The number by which this refusal is known, and its values.
    pub fn report(&self) -> Report
        ensures answer { result ≡ report_of self.now }
    {
        let (number, values) = match *self {
            Refusal::Counts => (11, Values::None),
            Refusal::Number { row, column } => (12, Values::Two(row, column)),
            Refusal::NoParameterPoint => (13, Values::None),
            Refusal::RowShape => (14, Values::None),
            Refusal::NestShape => (15, Values::None),
            Refusal::Listing => (16, Values::None),
            Refusal::Fuel => (21, Values::None),
            Refusal::WorkFull(met) => (22, met.values()),
            Refusal::StoreFull => (23, Values::None),
            Refusal::FuelSpent(met) => (24, met.values()),
            Refusal::StoreClosed => (25, Values::None),
            Refusal::Range(met) => (31, met.values()),
            Refusal::Cuts(met) => (32, met.values()),
            Refusal::NewParameters(met) => (33, met.values()),
            Refusal::Depth(met) => (34, met.values()),
            Refusal::NoTree => (41, Values::None),
            Refusal::PointLength => (42, Values::None),
            Refusal::PointNumber => (43, Values::None),
            Refusal::OutsideKeep => (44, Values::None),
            Refusal::BeyondBound => (45, Values::None),
            Refusal::PageLength { offset } => (51, Values::One(offset)),
            Refusal::PageKind { offset } => (52, Values::One(offset)),
            Refusal::PageNumber { offset } => (53, Values::One(offset)),
            Refusal::PageDepth { offset } => (54, Values::One(offset)),
        };
        Report { number, values }
    }
}
