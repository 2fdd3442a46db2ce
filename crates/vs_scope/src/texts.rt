//! The names of blocks as text (IEEE 1364-2005, 12.4.1 and 12.4.3).

ghost use Rattle.std.specs.Prelude.{◌≡◌, ◌++◌, [], IfOk, OnOk};
ghost use Rattle.vs_elaborated.specs.Generate.{digits_before};
ghost use Rattle.vs_elaborated.specs.Loops as spec;
ghost use Rattle.vs_scope.specs.Made.{block_name};

use crate::made::BlockName;
use std::alloc::{AllocError, Global};

/// The last digits of a number, at most `left`.
fn push_digits(text: &mut Vec<u8>, left: u32, n: u32) -> Result<(), AllocError>
    ensures { OnOk result (text.new.items ≡ text.old.items ++ digits_before left n []) }
{
    if left == 0 {
        return Ok(());
    }
    if n >= 10 {
        push_digits(text, left - 1, n / 10)?;
    }
    text.push(48 + (n % 10) as u8)?;
    Ok(())
}

/// The name of a block.
pub(crate) fn name_text(alloc: Global, name: BlockName<'_>) -> Result<Vec<u8>, AllocError>
    ensures { IfOk result (λ t. t.items ≡ (block_name name.entry).name) }
{
    let mut text = Vec::new(alloc);
    match name {
        BlockName::Written(n) => text.extend_from_slice(n.text.as_slice())?,
        BlockName::Numbered { number, .. } => {
            text.extend_from_slice(b"genblk")?;
            push_digits(&mut text, 10, number)?;
        }
    }
    Ok(text)
}

/// `name[v]`.
pub(crate) fn indexed(alloc: Global, name: &[u8], v: u32) -> Result<Vec<u8>, AllocError>
    ensures { IfOk result (λ t. t.items ≡ spec.indexed name.now v) }
{
    let mut text = Vec::new(alloc);
    text.extend_from_slice(name)?;
    text.extend_from_slice(b"[")?;
    push_digits(&mut text, 10, v)?;
    text.extend_from_slice(b"]")?;
    Ok(text)
}
