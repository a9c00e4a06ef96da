// Why an instruction is refused, and the printed form of the reason.

ghost use Rattle.std.specs.{Prelude.◌≡◌, Prelude.Some, Fmt.DisplaysOnOk};
ghost use Rattle.star_safety.specs.ReasonTexts.{bounds_text, columns_text, fault_number, others_text, reached_text, reason_text};

use star_common::Items;
use star_program::Fault;
use star_schema::ColumnId;
use std::fmt;

/// A column that a number is computed from, with its least and its greatest number.
#[derive(Clone, Copy, Debug, PartialEq, Eq)]
pub struct Reached {
    pub column: ColumnId,
    pub low: i64,
    pub high: i64,
}

/// The columns that a number is computed from, each once, in the order of all columns.
pub type ReachedColumns = Items<Reached>;

// The bounds of an overflow are two plain numbers: an `Interval` would need a proof that its low
// end is at most its high end.
/// Why an instruction is refused.
pub enum Reason {
    /// A fault by its position, its registers or their kinds.
    Faulty(Fault),
    /// A find by a number that was not loaded from a foreign key to its table.
    NotAForeignKey,
    /// A read of a group that is put to by a later instruction, or by one in an enclosing scan.
    OpenGroup,
    /// A result of arithmetic or of a read that may leave 64 bits.
    Overflow {
        /// The least possible result.
        low: i128,
        /// The greatest possible result.
        high: i128,
        /// The columns that it is computed from.
        columns: ReachedColumns,
    },
}

impl Drop for Reason {
    fn drop(self) {
        match self {
            Self::Faulty(_held) => {}
            Self::NotAForeignKey => {}
            Self::OpenGroup => {}
            Self::Overflow {
                low: _low,
                high: _high,
                columns: _columns,
            } => {}
        }
    }
}

impl fmt::Display for Reached {
    ghost output = { λ reached. Some (reached_text reached) };

    fn fmt<W: fmt::Write>(&self, f: &mut fmt::Formatter<W>) -> fmt::Result {
        let Reached { column, low, high } = *self;
        write!(f, "{column} {low}..{high}")
    }
}

// Writes columns after a first one.
fn write_others<W: fmt::Write>(others: &[Reached], f: &mut fmt::Formatter<W>) -> fmt::Result
    ensures { DisplaysOnOk W.write_str_gives f.old result (Some (others_text others.now)) f.new }
{
    for reached in others {
        write!(f, ", {reached}")?;
    }
    Ok(())
}

// Writes the columns that numbers are computed from, if there are any.
fn write_columns<W: fmt::Write>(columns: &[Reached], f: &mut fmt::Formatter<W>) -> fmt::Result
    ensures { DisplaysOnOk W.write_str_gives f.old result (Some (columns_text columns.now)) f.new }
{
    match columns {
        [] => Ok(()),
        [first, others @ ..] => {
            write!(f, " from {first}")?;
            write_others(others, f)
        }
    }
}

fn number_of(fault: Fault) -> u8
    ensures { result ≡ fault_number fault }
{
    match fault {
        Fault::BadRegister => 60,
        Fault::WrittenTwice => 61,
        Fault::Unset => 62,
        Fault::WrongKind => 63,
        Fault::BadColumn => 64,
        Fault::BadGroup => 66,
        Fault::Misplaced => 68,
    }
}

/// Writes its number and its name.
impl fmt::Display for Reason {
    ghost output = { λ reason. Some (reason_text reason) };

    #[tactic(auto, unfolding(crate::specs::ReasonTexts::reason_text))]
    fn fmt<W: fmt::Write>(&self, f: &mut fmt::Formatter<W>) -> fmt::Result {
        match self {
            Reason::Faulty(fault) => {
                let number = number_of(*fault);
                write!(f, "{number} {fault}")
            }
            Reason::NotAForeignKey => write!(f, "65 NotAForeignKey"),
            Reason::OpenGroup => write!(f, "67 OpenGroup"),
            Reason::Overflow { .. } => write!(f, "69 Overflow"),
        }
    }
}

impl Reason {
    /// Writes the text after the instruction's number: the least and the greatest possible result
    /// and the columns that it is computed from, if the reason has them.
    pub fn write_bounds<W: fmt::Write>(&self, f: &mut fmt::Formatter<W>) -> fmt::Result
        ensures { DisplaysOnOk W.write_str_gives f.old result (Some (bounds_text self.now)) f.new }
    {
        match self {
            Reason::Overflow { low, high, columns } => {
                write!(f, ": {low}..{high}")?;
                write_columns(columns.as_slice(), f)
            }
            _ => Ok(()),
        }
    }
}
