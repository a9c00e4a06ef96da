// The meaning of a query's text. Parentheses leave no trace. Expressions, conditions and measures
// are those of plans too, which have columns in place of names.

use crate::token::{Fold, Relation};
use star_schema::{Direction, Shape};

/// A name in lower case, and its position.
#[derive(Drop)]
pub struct Name {
    pub text: Vec<u8>,
    pub offset: usize,
}

/// What a column is compared with.
#[derive(Drop)]
pub enum Literal {
    /// At most 18 digits.
    Number(i64),
    Text(Vec<u8>),
}

/// What an aggregate folds, of columns or of their names. Operators of one level group to the left.
#[derive(Drop)]
pub enum Expression<C> {
    Column(C),
    /// At most 18 digits.
    Number(i64),
    Add(Box<Expression<C>>, Box<Expression<C>>),
    Sub(Box<Expression<C>>, Box<Expression<C>>),
    Mul(Box<Expression<C>>, Box<Expression<C>>),
}

/// A column, or one by its name, is compared with literals.
#[derive(Drop)]
pub enum Comparison<C> {
    Compare(C, Relation, Literal),
    /// From the first literal to the second, with both.
    Between(C, Literal, Literal),
}

/// What a condition of a query tests.
#[derive(Drop)]
pub enum Test {
    /// Two columns are equal.
    Pair(Name, Name),
    Comparison(Comparison<Name>),
}

/// Which rows are selected, by tests of them. Operators of one level group to the left.
#[derive(Drop)]
pub enum Condition<T> {
    Or(Box<Condition<T>>, Box<Condition<T>>),
    And(Box<Condition<T>>, Box<Condition<T>>),
    Not(Box<Condition<T>>),
    Test(T),
}

/// A measure of each group, over columns or over their names.
#[derive(Drop)]
pub enum Measure<C> {
    Fold(Fold, Expression<C>),
    /// The number of rows.
    Count,
}

/// An aggregate, with the position of its function's word and its name, if it is given one.
pub struct Aggregate {
    pub measure: Measure<Name>,
    pub offset: usize,
    pub name: Option<Name>,
}

impl Drop for Aggregate {
    fn drop(self) {
        let Self {
            measure,
            offset,
            name,
        } = self;
    }
}

/// One item of SELECT.
#[derive(Drop)]
pub enum Item {
    Column(Name),
    Aggregate(Aggregate),
}

/// How rows are grouped; by no column if there is no GROUP BY.
#[derive(Drop)]
pub struct Grouping {
    pub shape: Shape,
    pub columns: Vec<Name>,
}

/// One key of ORDER BY.
#[derive(Drop)]
pub struct SortKey {
    pub name: Name,
    pub direction: Direction,
}

/// A query.
pub struct Tree {
    pub items: Vec<Item>,
    pub tables: Vec<Name>,
    pub condition: Option<Condition<Test>>,
    pub grouping: Grouping,
    pub keys: Vec<SortKey>,
}

impl Drop for Tree {
    fn drop(self) {
        let Self {
            items,
            tables,
            condition,
            grouping,
            keys,
        } = self;
    }
}
