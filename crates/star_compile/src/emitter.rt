// Emits the instructions of a scan's body, in order.

ghost use Rattle.std.specs.Prelude.{◌≡◌, ◌+◌, ◌<◌, ◌++◌, ◌∷◌, [], IfOk};
ghost use Rattle.star_program.specs.{declared.body.Step.TheVariants.Act, declared.op.Op.TheVariants.Assign, declared.op.Op.TheVariants.Keep, declared.op.Op.TheVariants.Put};
ghost use Rattle.star_compile.specs.Private.Emitted.{HasRegisterRoom, Writes};
ghost use Rattle.star_compile_laws.specs.Compiled as spec;

use star_program::{Items, Op, Operation, Step};
use star_schema::{ColumnId, TableId};
use std::alloc::{AllocError, Global};

/// The instructions so far, and the state at the next one: the register that it writes, and the
/// registers of the loaded columns and of the found rows.
#[derive(Drop)]
pub(crate) struct Emitter {
    pub(crate) steps: Vec<Step>,
    pub(crate) next: u16,
    pub(crate) loaded: Vec<(ColumnId, u16)>,
    pub(crate) found: Vec<(TableId, u16)>,
}

impl Emitter {
    /// Starts a scan's body: register 0 has the row of lineorder.
    pub(crate) fn new(alloc: Global) -> Emitter
        ensures steps { result.steps.items ≡ [] }
        ensures next { result.next ≡ 1 }
        ensures loaded { result.loaded.items ≡ [] }
        ensures found { result.found.items ≡ [] }
    {
        Emitter {
            steps: Vec::new(alloc),
            next: 1,
            loaded: Vec::new(alloc),
            found: Vec::new(alloc),
        }
    }

    // Emits an operation whose result is written to the next register.
    pub(crate) fn assign(&mut self, operation: Operation) -> Result<u16, AllocError>
        requires room { self.old.next < 4096 }
        ensures register { IfOk result (λ r. r ≡ self.old.next) }
        ensures pushed { IfOk result (λ _. self.new.steps.items
            ≡ self.old.steps.items ++ Act (Assign self.old.next operation) ∷ []) }
        ensures next { IfOk result (λ _. self.new.next ≡ self.old.next + 1) }
        ensures loaded { self.new.loaded ≡ self.old.loaded }
        ensures found { self.new.found ≡ self.old.found }
    {
        let target = self.next;
        self.steps
            .push(Step::Act(Op::Assign { target, operation }))?;
        self.next = target + 1;
        Ok(target)
    }

    /// Emits an operation and returns the register of its result.
    pub(crate) fn write(&mut self, operation: Operation) -> Result<u16, AllocError>
        requires room { HasRegisterRoom self.old (spec.write operation) }
        ensures written { IfOk result (Writes self.old self.new (spec.write operation)) }
    {
        self.assign(operation)
    }

    /// Emits a filter: the rest of the body is skipped unless the flag holds.
    pub(crate) fn keep(&mut self, flag: u16) -> Result<(), AllocError>
        ensures pushed { IfOk result (λ _.
            self.new.steps.items ≡ self.old.steps.items ++ Act (Keep flag) ∷ []) }
        ensures next { self.new.next ≡ self.old.next }
        ensures loaded { self.new.loaded ≡ self.old.loaded }
        ensures found { self.new.found ≡ self.old.found }
    {
        self.steps.push(Step::Act(Op::Keep { flag }))?;
        Ok(())
    }

    /// Emits one update of the group.
    pub(crate) fn put(&mut self, keys: Vec<u16>, values: Vec<u16>) -> Result<(), AllocError>
        ensures pushed { IfOk result (λ _. self.new.steps.items
            ≡ self.old.steps.items ++ Act (Put 0 keys.items values.items) ∷ []) }
        ensures next { self.new.next ≡ self.old.next }
    {
        self.steps.push(Step::Act(Op::Put {
            group: 0,
            keys: Items::from_vec(keys),
            values: Items::from_vec(values),
        }))?;
        Ok(())
    }
}
