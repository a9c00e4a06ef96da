// Quoted texts.

ghost use Rattle.std.specs.{Prelude.◌≡◌, Prelude.◌++◌, Prelude.OnOk, List.flat_map};
ghost use Rattle.star_common.specs.Quotes.{doubled, quoted};

use std::alloc::AllocError;

// Appends a byte of a quoted text, a quote twice.
fn push_doubled(out: &mut Vec<u8>, byte: u8) -> Result<(), AllocError>
    ensures { OnOk result (out.new.items ≡ out.old.items ++ doubled byte) }
{
    if byte == b'\'' {
        out.extend_from_slice(b"''")
    } else {
        out.push(byte)?;
        Ok(())
    }
}

fn push_all_doubled(out: &mut Vec<u8>, text: &[u8]) -> Result<(), AllocError>
    ensures { OnOk result (out.new.items ≡ out.old.items ++ flat_map doubled text.now) }
{
    for byte in text {
        push_doubled(out, *byte)?;
    }
    Ok(())
}

/// Appends a text in single quotes, with each quote inside doubled. If memory is refused, a part of
/// it may have been appended.
#[tactic(auto, unfolding(crate::specs::Quotes::quoted))]
pub fn push_quoted(out: &mut Vec<u8>, text: &[u8]) -> Result<(), AllocError>
    ensures { OnOk result (out.new.items ≡ out.old.items ++ quoted text.now) }
{
    out.push(b'\'')?;
    push_all_doubled(out, text)?;
    out.push(b'\'')?;
    Ok(())
}
