// The statement of one line of a program's text.

use crate::group::GroupDecl;
use crate::op::Op;
use crate::program::Show;
use star_schema::{SortKey, TableId};

/// The statement of one line. A scan's body is between its line and its `End`.
#[derive(Drop)]
pub enum Statement {
    Header,
    Registers(u16),
    Group { index: u16, group: GroupDecl },
    Act(Op),
    Scan { table: TableId, target: u16 },
    End,
    Report(u16),
    Show(Show),
    Sort(SortKey),
}
