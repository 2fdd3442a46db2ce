//! The top of a text (IEEE 1364-2005, 12.1.1).

ghost use Rattle.std.specs.Prelude.{◌≡◌, IfOk, option_map};
ghost use Rattle.vs_ast.specs.Views as view;
ghost use Rattle.vs_tops.specs.Tops.{own_top, top_name};

use crate::named::instantiated;
use std::alloc::{AllocError, Global};
use vs_ast::Source;

/// The name of the only module of a text that no instance names, if there is exactly one.
fn own_top(alloc: Global, source: &Source) -> Result<Option<&[u8]>, AllocError>
    ensures { IfOk result (λ top. option_map (λ t. t.now) top ≡ own_top (view.source source.now)) }
{
    let names = instantiated(alloc, source)?;
    let mut top = None;
    for of in &source.modules {
        let name = of.name.text.as_slice();
        if !names.contains(name) {
            if top.is_some() {
                return Ok(None);
            }
            top = Some(name);
        }
    }
    Ok(top)
}

/// The name of the top of a text: the one that is given or, where none is, that of the one module of the text that no instance of any module names, in generate blocks too, whether
/// or not these are taken (IEEE 1364-2005, 12.1.1). None where there is none or several. The only error is that memory ran out.
pub fn top_name<'a>(
    alloc: Global,
    source: &'a Source,
    given: Option<&'a [u8]>,
) -> Result<Option<&'a [u8]>, AllocError>
    ensures { IfOk result (λ top. option_map (λ t. t.now) top ≡ top_name (view.source source.now) (option_map (λ t. t.now) given.entry)) }
{
    match given {
        Some(top) => Ok(Some(top)),
        None => own_top(alloc, source),
    }
}
