// Why groups were not merged.

ghost use Rattle.std.specs.Prelude.{◌≡◌, ◌++◌, ◌∷◌, [], OnOk};
ghost use Rattle.star_common.specs.Memory.{TellsMemory};
ghost use Rattle.star_merge.specs.declared.fault.MergeFault.TheVariants.{OutOfMemory};

use std::alloc::AllocError;

/// Why groups were not merged.
#[derive(Clone, Copy, Debug, PartialEq, Eq)]
pub enum MergeFault {
    /// An allocation failed.
    OutOfMemory,
    /// A total left 128 bits.
    Overflow,
}

impl From<AllocError> for MergeFault {
    ghost from_gives = { TellsMemory OutOfMemory };

    fn from(_error: AllocError) -> MergeFault {
        MergeFault::OutOfMemory
    }
}

// Adds an item after the others.
pub(crate) fn push<T: Drop>(items: &mut Vec<T>, item: T) -> Result<(), AllocError>
    ensures { OnOk result (items.new.items ≡ items.old.items ++ item ∷ []) }
{
    items.push(item)?;
    Ok(())
}
