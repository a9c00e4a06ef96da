// The limits of a query: how long it and its tokens may be, how deep it may nest, and how many of
// each part it may have.

ghost use Rattle.std.specs.Prelude.{◌≡◌, ◌≤◌, ◌<◌};
ghost use Rattle.star_query.specs.{Maxima.limit, Private.Machine.count_of_part, Private.Machine.bump, Private.Machine.nothing_counted};

/// The most bytes of a query text.
pub const MAX_TEXT: usize = 65_536;

// The most bytes of a name.
pub(crate) const MAX_NAME: usize = 64;

// The most digits of a number.
pub(crate) const MAX_DIGITS: usize = 18;

// How many `not`s and parentheses may lie in one another.
pub(crate) const MAX_DEPTH: u32 = 32;

/// What is counted, each at its first token. An aggregate is an item too.
#[derive(Clone, Copy, PartialEq, Eq)]
pub(crate) enum Part {
    Item,
    Aggregate,
    GroupColumn,
    SortKey,
    /// A comparison or a `not`.
    Comparison,
    /// A name or a number inside an aggregate.
    Operand,
}

/// How many of each were met.
#[derive(Clone, Copy)]
pub(crate) struct Counts {
    pub(crate) items: u16,
    pub(crate) aggregates: u16,
    pub(crate) columns: u16,
    pub(crate) keys: u16,
    pub(crate) comparisons: u16,
    pub(crate) operands: u16,
}

impl Part {
    // The most of it that a query may have.
    pub(crate) fn limit(self) -> u16
        ensures limit { result ≡ limit self }
        ensures small { result ≤ 512 }
    {
        match self {
            Part::Item | Part::SortKey => 16,
            Part::Aggregate => 8,
            Part::GroupColumn => 6,
            Part::Comparison => 256,
            Part::Operand => 512,
        }
    }
}

impl Counts {
    // Nothing was met yet.
    pub(crate) fn new() -> Counts
        ensures { result ≡ nothing_counted }
    {
        Counts {
            items: 0,
            aggregates: 0,
            columns: 0,
            keys: 0,
            comparisons: 0,
            operands: 0,
        }
    }

    pub(crate) fn number(&self, part: Part) -> u16
        ensures { result ≡ count_of_part self.now part }
    {
        match part {
            Part::Item => self.items,
            Part::Aggregate => self.aggregates,
            Part::GroupColumn => self.columns,
            Part::SortKey => self.keys,
            Part::Comparison => self.comparisons,
            Part::Operand => self.operands,
        }
    }

    // One more of a part.
    pub(crate) fn bump(&mut self, part: Part)
        requires { count_of_part self.old part < 1000 }
        ensures { self.new ≡ bump part self.old }
    {
        match part {
            Part::Item => self.items += 1,
            Part::Aggregate => self.aggregates += 1,
            Part::GroupColumn => self.columns += 1,
            Part::SortKey => self.keys += 1,
            Part::Comparison => self.comparisons += 1,
            Part::Operand => self.operands += 1,
        }
    }
}
