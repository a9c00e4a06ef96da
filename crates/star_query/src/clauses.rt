// The clauses of a query, from its tokens.

ghost use Rattle.std.specs.Prelude.{◌≡◌, ◌≤◌, Some, length, IfSome, IfNone};
ghost use Rattle.star_query.specs.Private.{Reads.{spot_of, head_of}, Clauses.{function_symbol, NoFunction, ReadsFunction, ReadsFolded, ReadsCounted, ReadsMeasure, ReadsAlias, ReadsAggregate, ReadsItem, NoComma, ReadsFilter, ReadsHidden, ReadsGroups, ReadsGrouping, ReadsKey, ReadsKeys, ReadsEnd, ReadsQuery}};

use crate::counts::Part;
use crate::fault::{Fault, ParseError};
use crate::lists::{Columns, Items, Keys, Tables};
use crate::parser::Parser;
use crate::token::{Fold, Keyword, Kind, Sign};
use crate::tree::{Aggregate, Condition, Grouping, Item, Measure, Name, SortKey, Test, Tree};
use star_schema::{Direction, Shape};

// A function whose word was read: what it folds by, if it isn't `count`, and the position of its word.
#[derive(Clone, Copy)]
pub(crate) struct Function {
    pub(crate) fold: Option<Fold>,
    pub(crate) offset: usize,
}

impl<'a> Parser<'a> {
    // The word of a function, if one is next: an item and an aggregate begin.
    fn take_function(&mut self) -> Result<Option<Function>, ParseError>
        ensures reads { ReadsFunction (spot_of self.old) (spot_of self.new) result }
        ensures shorter { length self.new.rest.now ≤ length self.old.rest.now }
    {
        let Some(function) = self.next_function() else {
            return Ok(None);
        };
        self.count(Part::Item)?;
        self.count(Part::Aggregate)?;
        self.rest = &self.rest[1..];
        Ok(Some(function))
    }

    fn next_function(&self) -> Option<Function>
        ensures found { IfSome result (λ f. head_of (spot_of self.now).rest
            ≡ Some (function_symbol f)) }
        ensures other { IfNone result (NoFunction (spot_of self.now).rest) }
    {
        let token = self.rest.first()?;
        let offset = token.offset;
        match token.kind {
            Kind::Fold(fold) => Some(Function {
                fold: Some(fold),
                offset,
            }),
            Kind::Count => Some(Function { fold: None, offset }),
            _ => None,
        }
    }

    // ( expr ), after the word of a function
    fn folded(&mut self, fold: Fold) -> Result<Measure<Name>, ParseError>
        ensures reads { ReadsFolded fold (spot_of self.old) (spot_of self.new) result }
        ensures shorter { length self.new.rest.now ≤ length self.old.rest.now }
    {
        self.expect(Sign::Open)?;
        let expression = self.expression(0)?;
        self.expect(Sign::Close)?;
        Ok(Measure::Fold(fold, expression))
    }

    // ( * ), after `count`
    fn counted(&mut self) -> Result<Measure<Name>, ParseError>
        ensures reads { ReadsCounted (spot_of self.old) (spot_of self.new) result }
        ensures shorter { length self.new.rest.now ≤ length self.old.rest.now }
    {
        self.expect(Sign::Open)?;
        self.expect(Sign::Star)?;
        self.expect(Sign::Close)?;
        Ok(Measure::Count)
    }

    // agg, after the word of the function
    fn measure(&mut self, function: Function) -> Result<Measure<Name>, ParseError>
        ensures reads { ReadsMeasure function (spot_of self.old) (spot_of self.new) result }
        ensures shorter { length self.new.rest.now ≤ length self.old.rest.now }
    {
        match function.fold {
            Some(fold) => self.folded(fold),
            None => self.counted(),
        }
    }

    // [as name]
    fn alias(&mut self) -> Result<Option<Name>, ParseError>
        ensures reads { ReadsAlias (spot_of self.old) (spot_of self.new) result }
        ensures shorter { length self.new.rest.now ≤ length self.old.rest.now }
    {
        if self.take(Keyword::As) {
            let name = self.name()?;
            return Ok(Some(name));
        }
        Ok(None)
    }

    // agg [as name], after the word of the function
    fn aggregate(&mut self, function: Function) -> Result<Aggregate, ParseError>
        ensures reads { ReadsAggregate function (spot_of self.old) (spot_of self.new) result }
        ensures shorter { length self.new.rest.now ≤ length self.old.rest.now }
    {
        let measure = self.measure(function)?;
        let name = self.alias()?;
        Ok(Aggregate {
            measure,
            offset: function.offset,
            name,
        })
    }

    // name | agg [as name]
    pub(crate) fn item(&mut self) -> Result<Item, ParseError>
        ensures reads { ReadsItem (spot_of self.old) (spot_of self.new) result }
        ensures shorter { length self.new.rest.now ≤ length self.old.rest.now }
    {
        let function = self.take_function()?;
        match function {
            Some(function) => {
                let aggregate = self.aggregate(function)?;
                Ok(Item::Aggregate(aggregate))
            }
            None => {
                let name = self.counted_name(Part::Item)?;
                Ok(Item::Column(name))
            }
        }
    }

    // [where cond]
    fn filter(&mut self) -> Result<Option<Condition<Test>>, ParseError>
        requires { NoComma (spot_of self.old) }
        ensures { ReadsFilter (spot_of self.old) (spot_of self.new) result }
    {
        if self.take(Keyword::Where) {
            let condition = self.condition(0)?;
            return Ok(Some(condition));
        }
        Ok(None)
    }

    // ( names ), after the word of this shape
    fn hidden(&mut self, shape: Shape) -> Result<Grouping, ParseError>
        ensures { ReadsHidden shape (spot_of self.old) (spot_of self.new) result }
    {
        self.expect(Sign::Open)?;
        let columns = self.several::<Columns>()?;
        self.expect(Sign::Close)?;
        Ok(Grouping { shape, columns })
    }

    // names | cube ( names ) | rollup ( names ), after `group by`
    fn groups(&mut self) -> Result<Grouping, ParseError>
        ensures { ReadsGroups (spot_of self.old) (spot_of self.new) result }
    {
        if self.take(Keyword::Cube) {
            return self.hidden(Shape::Cube);
        }
        if self.take(Keyword::Rollup) {
            return self.hidden(Shape::Rollup);
        }
        let columns = self.several::<Columns>()?;
        Ok(Grouping {
            shape: Shape::Plain,
            columns,
        })
    }

    // [group by ..]
    fn grouping(&mut self) -> Result<Grouping, ParseError>
        ensures { ReadsGrouping (spot_of self.old) (spot_of self.new) result }
    {
        if self.take(Keyword::Group) {
            self.expect(Keyword::By)?;
            return self.groups();
        }
        Ok(Grouping {
            shape: Shape::Plain,
            columns: Vec::new(self.alloc),
        })
    }

    // name [asc | desc]
    pub(crate) fn key(&mut self) -> Result<SortKey, ParseError>
        ensures reads { ReadsKey (spot_of self.old) (spot_of self.new) result }
        ensures shorter { length self.new.rest.now ≤ length self.old.rest.now }
    {
        let name = self.counted_name(Part::SortKey)?;
        if self.take(Keyword::Desc) {
            return Ok(SortKey {
                name,
                direction: Direction::Descending,
            });
        }
        if self.take(Keyword::Asc) {
            return Ok(SortKey {
                name,
                direction: Direction::Ascending,
            });
        }
        Ok(SortKey {
            name,
            direction: Direction::Ascending,
        })
    }

    // [order by key {, key}]
    fn keys(&mut self) -> Result<Vec<SortKey>, ParseError>
        ensures { ReadsKeys (spot_of self.old) (spot_of self.new) result }
    {
        if self.take(Keyword::Order) {
            self.expect(Keyword::By)?;
            return self.several::<Keys>();
        }
        Ok(Vec::new(self.alloc))
    }

    // [;], and nothing after it
    fn end(&mut self) -> Result<(), ParseError>
        ensures { ReadsEnd (spot_of self.old) (spot_of self.new) result }
    {
        let _semicolon = self.take(Sign::Semicolon);
        if !self.rest.is_empty() {
            return Err(ParseError::Fault(Fault::Unexpected));
        }
        Ok(())
    }

    // A query, and nothing after it.
    pub(crate) fn query(&mut self) -> Result<Tree, ParseError>
        ensures { ReadsQuery (spot_of self.old) (spot_of self.new) result }
    {
        self.expect(Keyword::Select)?;
        let items = self.several::<Items>()?;
        self.expect(Keyword::From)?;
        let tables = self.several::<Tables>()?;
        let condition = self.filter()?;
        let grouping = self.grouping()?;
        let keys = self.keys()?;
        self.end()?;
        Ok(Tree {
            items,
            tables,
            condition,
            grouping,
            keys,
        })
    }
}
