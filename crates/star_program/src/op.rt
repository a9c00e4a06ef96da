// The instructions of a program other than scans.

use star_common::Items;
use star_schema::{ColumnId, TableId};

/// Register numbers in order.
pub type RegisterList = Items<u16>;

/// A text as its bytes.
pub type Text = Items<u8>;

/// One of the two edges of the texts that equal a text.
#[derive(Clone, Copy)]
pub enum Edge {
    /// The start of the texts that are not less.
    Low,

    /// The start of the texts that are greater.
    High,
}

/// An operator on two registers.
#[derive(Clone, Copy)]
pub enum Operator {
    /// The sum of two numbers.
    Add,

    /// The difference of two numbers.
    Sub,

    /// The product of two numbers.
    Mul,

    /// Whether the left operand is less than the right one.
    Less,

    /// Whether the left operand is less than or equal to the right one.
    LessOrEqual,

    /// Whether the operands are equal.
    Equal,

    /// Whether both flags hold.
    And,

    /// Whether one of the flags holds.
    Or,
}

/// An operation with its operands. Its result is written to a register.
#[derive(Drop)]
pub enum Operation {
    /// A number.
    Const {
        number: i64,
    },

    /// The position of an edge of a text among the texts of a column.
    Edge {
        edge: Edge,
        column: ColumnId,
        text: Text,
    },

    /// A column's value in a row.
    Load {
        column: ColumnId,
        row: u16,
    },

    /// The row of a table with a key.
    Find {
        table: TableId,
        key: u16,
    },

    /// The result of an operator on two registers.
    Binary {
        operator: Operator,
        left: u16,
        right: u16,
    },

    /// Whether `value` is at least `from` and less than `below`.
    Within {
        value: u16,
        from: u16,
        below: u16,
    },

    /// Whether the flag does not hold.
    Not {
        flag: u16,
    },

    /// The total of an aggregate over all updates so far, or `default` if it is NULL.
    Read {
        group: u16,
        aggregate: u16,
        default: i64,
    },
}

/// An instruction. Registers, groups and aggregates are given by number, from 0.
#[derive(Drop)]
pub enum Op {
    /// Writes the result of an operation to the register `target`.
    Assign {
        target: u16,
        operation: Operation,
    },

    /// Filters: ends the body of the innermost scan for this row unless the flag holds.
    Keep {
        flag: u16,
    },

    /// Makes one update of a group: its keys as declared, and a number for each aggregate that is
    /// not a count.
    Put {
        group: u16,
        keys: RegisterList,
        values: RegisterList,
    },
}
