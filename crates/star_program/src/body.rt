// The body of a program: steps in order, some of them scans with a body of their own.

ghost use Rattle.std.specs.Prelude.{◌≡◌, ◌≤◌, ◌<◌, ◌+◌, ◌↔◌, IsTrue, IfSome, IfNone, OnOk};
ghost use Rattle.star_program.specs.{Code.code_size, Code.scan_depth, CodeOfSteps.code_of_steps, Private.Followed.code_of_step, Private.Followed.followed};

use crate::op::Op;
use star_schema::TableId;
use std::alloc::AllocError;
use std::marker::Model;

/// Steps in order.
#[cycle(body)]
#[derive(Drop)]
pub struct Body {
    steps: Vec<Step>,
}

/// An instruction, or a scan: for each row of a table, in order, its body is executed with the row
/// in the register `target`.
#[cycle(body)]
#[derive(Drop)]
pub enum Step {
    Act(Op),
    Scan {
        table: TableId,
        target: u16,
        body: Body,
    },
}

impl Model for Body {
    ghost use Rattle.star_program.specs.{Code.Code, Private.StoredCode.code_coded};

    ghost Value = { Code };

    ghost coded = { code_coded };

    ghost use Rattle.star_program.specs.{CodeOfSteps.code_of_steps, Code.code_size};
    ghost use Rattle.std.proofs.Common.{arith};

    ghost view = { λ body. code_of_steps body.steps.items };

    ghost size = { code_size };

    ghost use Rattle.star_program.specs.Private.Smaller.{most_le-code_size};

    ghost size_decreases = { λ a h. omega (arith, most_le-code_size a.steps.items) };
}

impl Body {
    // A caller that makes bodies must nest them no deeper than the stack allows: `Program::new`
    // refuses deep bodies, but dropping them recurses as deep as they are.
    /// Makes a body of these steps.
    pub fn from_vec(steps: Vec<Step>) -> Body
        ensures { result ≡ code_of_steps steps.items }
    {
        Body { steps }
    }

    /// Returns the steps.
    pub fn into_vec(self) -> Vec<Step>
        ensures { code_of_steps result.items ≡ self }
    {
        let Body { steps } = self;
        steps
    }

    // Appends a step.
    pub(crate) fn push(&mut self, step: Step) -> Result<(), AllocError>
        ensures { OnOk result (self.new ≡ followed self.old (code_of_step step)) }
    {
        self.steps.push(step)?;
        Ok(())
    }

    /// Returns the steps in order.
    pub fn as_slice(&self) -> &[Step]
        ensures { code_of_steps result.now ≡ self.now }
    {
        &self.steps
    }

    // Returns the remaining room after the body's instructions, if there is enough.
    #[cycle(room)]
    pub(crate) fn room_left(&self, room: u16) -> Option<u16>
        ensures enough { IfSome result (λ left. left + code_size self.now ≡ room) }
        ensures short { IfNone result (room < code_size self.now) }
    {
        let mut left = room;
        for step in &self.steps {
            left = step.room_left(left)?;
        }
        Some(left)
    }

    // Tests whether scans nest at most `scans` deep.
    #[cycle(nesting)]
    pub(crate) fn is_nested_within(&self, scans: u8) -> bool
        ensures { IsTrue result ↔ (scan_depth self.now ≤ scans) }
    {
        for step in &self.steps {
            if !step.is_nested_within(scans) {
                return false;
            }
        }
        true
    }
}

impl Step {
    #[cycle(room)]
    fn room_left(&self, room: u16) -> Option<u16>
        ensures enough { IfSome result (λ left. left + code_size (code_of_step self.now) ≡ room) }
        ensures short { IfNone result (room < code_size (code_of_step self.now)) }
    {
        let left = room.checked_sub(1)?;
        match self {
            Step::Act(_) => Some(left),
            Step::Scan { body, .. } => body.room_left(left),
        }
    }

    #[cycle(nesting)]
    fn is_nested_within(&self, scans: u8) -> bool
        ensures { IsTrue result ↔ (scan_depth (code_of_step self.now) ≤ scans) }
    {
        match self {
            Step::Act(_) => true,
            Step::Scan { body, .. } => match scans.checked_sub(1) {
                Some(inner) => body.is_nested_within(inner),
                None => false,
            },
        }
    }
}
