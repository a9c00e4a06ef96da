//! Laws about the meaning of programs: functions with empty bodies, whose clauses are the laws.

ghost use Rattle.std.specs.Prelude.{◌↔◌, IsTrue, List};
ghost use Rattle.star_program.specs.{declared.group.GroupDecl.GroupDecl, Overflow.LeavesSomewhere, Puts.Update, Puts.overflows};

/// States that an update overflows exactly if with it a SUM over one of its groups, or over all
/// updates, leaves 128 bits, or a COUNT leaves 64 bits.
pub fn updates_overflow_in_their_groups()
    ensures { (d : GroupDecl) (others : List Update) (update : Update)
        → IsTrue (overflows d.shape d.aggregates others update) ↔ LeavesSomewhere d others update }
{}
