//! The flat design of a text from its top.

ghost use Rattle.std.specs.Prelude.{◌≡◌, Ok, Err, None, IfOk, IfErr, option_map};
ghost use Rattle.vs_grammar.specs.Shapes.{IsShaped};
ghost use Rattle.vs_ast.specs.Views as view;
ghost use Rattle.vs_flat.specs.DesignOf.{design_of};
ghost use Rattle.vs_flat.specs.Lawful.{IsLawful};
ghost use Rattle.vs_elab.specs.Reading.{Tells};
ghost use Rattle.vs_tops.specs.Designs.{elaborated_by};

use std::alloc::{AllocError, Global};
use vs_ast::Source;
use vs_const::{Fault, Rule};
use vs_elab::{ElabError, flatten};
use vs_flat::Flat;
use vs_items::{Modules, modules_of};

/// The fault of a text without a top: a module that is declared twice, and else that there is no top.
fn no_top(alloc: Global, source: &Source) -> Result<Fault, AllocError>
    ensures { IfOk result (λ f. elaborated_by (view.source source.now) None ≡ Err f) }
{
    let Modules { repeated, .. } = modules_of(alloc, source)?;
    match repeated {
        Some(fault) => Ok(fault),
        None => Ok(Fault {
            rule: Rule::NoTop,
            place: 0,
        }),
    }
}

/// The design that the tree of a text has from the module of this name on, flat, as `vs_elab::flatten` gives it; None where the text has no top, as `top_name` tells.
///
/// An error is the first rule that is broken: `DuplicateModule` before all others, then `NoTop`, where there is no name or no module of it, and then those that `flatten` names.
/// Or it is want of memory.
pub fn flatten_by(alloc: Global, source: &Source, name: Option<&[u8]>) -> Result<Flat, ElabError>
    requires { IsShaped (view.source source.now) }
    ensures design { IfOk result (λ f. elaborated_by (view.source source.now) (option_map (λ n. n.now) name.entry) ≡ Ok (design_of f)) }
    ensures lawful { IfOk result IsLawful }
    ensures broken { IfErr result (λ e. Tells e (λ f. elaborated_by (view.source source.now) (option_map (λ n. n.now) name.entry) ≡ Err f)) }
{
    match name {
        Some(top) => flatten(alloc, source, top),
        None => Err(ElabError::Broken(no_top(alloc, source)?)),
    }
}
