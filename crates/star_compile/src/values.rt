// Compiles the keys and numbers of a put.

ghost use Rattle.std.specs.Prelude.{IfOk};
ghost use Rattle.star_plan.specs.Views.{column_measure_view, measures_view};
ghost use Rattle.star_compile_laws.specs.Compiled.{keys_code, values_code};
ghost use Rattle.star_compile.specs.Private.Emitted.{HasRegisterRoom, Writes, value_after};

use crate::emitter::Emitter;
use star_plan::{Aggregate, Join};
use star_query::Measure;
use star_schema::ColumnId;
use std::alloc::{AllocError, Global};

impl Emitter {
    /// Compiles columns and returns their registers in order.
    pub(crate) fn keys(
        &mut self,
        alloc: Global,
        joins: &[Join],
        columns: &[ColumnId],
    ) -> Result<Vec<u16>, AllocError>
        requires room { HasRegisterRoom self.old (keys_code joins.now columns.now) }
        ensures written { IfOk result (λ registers.
            Writes self.old self.new (keys_code joins.now columns.now) registers.items) }
    {
        let mut registers = Vec::new(alloc);
        for column in columns {
            let key = self.column(joins, *column)?;
            registers.push(key)?;
        }
        Ok(registers)
    }

    // Compiles an aggregate's number and appends its register; a count has none.
    fn value(
        &mut self,
        joins: &[Join],
        measure: &Measure<ColumnId>,
        registers: &mut Vec<u16>,
    ) -> Result<(), AllocError>
        requires room { HasRegisterRoom self.old
            (value_after joins.now (column_measure_view measure.now) registers.old.items) }
        ensures written { IfOk result (λ _. Writes self.old self.new
            (value_after joins.now (column_measure_view measure.now) registers.old.items)
            registers.new.items) }
    {
        if let Measure::Fold(_, expression) = measure {
            let number = self.expression(joins, expression)?;
            registers.push(number)?;
        }
        Ok(())
    }

    /// Compiles the aggregates' numbers and returns their registers in order; a count has none.
    pub(crate) fn values(
        &mut self,
        alloc: Global,
        joins: &[Join],
        aggregates: &[Aggregate],
    ) -> Result<Vec<u16>, AllocError>
        requires room { HasRegisterRoom self.old (values_code joins.now (measures_view aggregates.now)) }
        ensures written { IfOk result (λ registers. Writes self.old self.new
            (values_code joins.now (measures_view aggregates.now)) registers.items) }
    {
        let mut registers = Vec::new(alloc);
        for aggregate in aggregates {
            self.value(joins, &aggregate.measure, &mut registers)?;
        }
        Ok(registers)
    }
}
