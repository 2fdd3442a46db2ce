//! The functions of a scope, one after the other again, once what they say is known (IEEE 1364-2005, 10.4).

ghost use Rattle.std.specs.Prelude.{◌≡◌, [], ◌∷◌, List, OnOk, IfOk, map};
ghost use Rattle.vs_elaborated.specs.Declarations as declarations;
ghost use Rattle.vs_elaborated.specs.Environments.{Env};
ghost use Rattle.vs_maps.specs.Maps.{AreDistinct, value_at};
ghost use Rattle.vs_maps.specs.MapViews.{pairs};
ghost use Rattle.vs_scope.specs.Again.{IsPart, is_awaited, is_function, shape_at};
ghost use Rattle.vs_scope.specs.Complete.{KeepsShapes, function_declaration, reads_at};

use crate::functions::is_incomplete;
use crate::names::{Declared, Entry, Names};
use std::alloc::{AllocError, Global};
use vs_ast::Function;
use vs_const::{FunctionShape, SignalShape};
use vs_maps::NameMap;

/// Whether it is a function.
fn is_function(d: &Declared<'_>) -> bool
    ensures { result ≡ is_function d.now }
{
    match d {
        Declared::Function(_) => true,
        _ => false,
    }
}

impl<'a> Names<'a> {
    /// Each name stands once.
    fn are_distinct(&self)
        ensures { AreDistinct (pairs self.now.map) }
    {
        self.map.get(&[]);
    }

    /// The names that the functions of the scope see, none of them complete: all but those of blocks.
    pub fn without_functions(&self, alloc: Global) -> Result<Names<'a>, AllocError>
        ensures { (outer : Env) → IfOk result (λ r. IsPart outer r self.now (map function_declaration self.now.functions.items)) }
    {
        let mut map = NameMap::new(alloc);
        let plain = self.plain.min(self.map.len());
        for i in 0..plain {
            let (name, _) = self.map.pair_at(i);
            if let Some(
                Entry {
                    first,
                    second,
                    declared,
                },
            ) = self.map.get(name).copied()
            {
                let declared = if is_function(&declared) {
                    Declared::Function(None)
                } else {
                    declared
                };
                let entry = Entry {
                    first,
                    second,
                    declared,
                };
                map.put(name, entry)?;
            }
        }
        Ok(Names {
            map,
            reads: NameMap::new(alloc),
            scope: self.scope,
            counts: self.counts,
            functions: Vec::new(alloc),
            plain,
        })
    }

    /// Whether the name of this function is one of a function that isn't complete.
    fn awaits(&self, f: &Function) -> bool
        ensures { result ≡ is_awaited (value_at f.now.name.text (pairs self.now.map)) }
    {
        match self.map.get(f.name.text.as_slice()) {
            Some(e) => is_incomplete(&e.declared),
            None => false,
        }
    }

    /// What is kept of the function of this name, if it is one of a function that is complete.
    fn shape_of(&self, f: &Function) -> Option<FunctionShape>
        ensures { result ≡ shape_at (value_at f.now.name.text (pairs self.now.map)) }
    {
        match self.map.get(f.name.text.as_slice()).copied() {
            Some(
                Entry {
                    declared: Declared::Function(shape),
                    ..
                },
            ) => shape,
            _ => None,
        }
    }

    /// The signals of its module that the function of this name reads, if it is one of a function that is complete.
    fn reads_of(&self, alloc: Global, f: &Function) -> Result<Vec<SignalShape>, AllocError>
        ensures { IfOk result (λ r. r.items ≡ reads_at (pairs self.now.reads) f.now.name.text) }
    {
        match self.reads.get(f.name.text.as_slice()) {
            None => Ok(Vec::new(alloc)),
            Some(list) => list.as_slice().to_vec(alloc),
        }
    }

    /// The next function of a scope is complete, as in `whole`, where all are.
    pub fn with_function(
        &mut self,
        alloc: Global,
        whole: &Names<'a>,
        f: &'a Function,
    ) -> Result<(), AllocError>
        ensures { (outer : Env) (rest : List declarations.Declaration) → KeepsShapes outer whole.now → IsPart outer self.old whole.now (function_declaration f.entry ∷ rest)
            → OnOk result (IsPart outer self.new whole.now rest) }
    {
        self.are_distinct();
        if self.awaits(f) {
            if let Some(shape) = whole.shape_of(f) {
                let reads = whole.reads_of(alloc, f)?;
                self.put_function(f, shape, reads)?;
            }
        } else {
            self.functions.push(f)?;
        }
        Ok(())
    }
}
