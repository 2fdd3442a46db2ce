//! The names that declarations make, and which of them are declared too often (IEEE 1364-2005, 12.3.3 and 12.7).

ghost use Rattle.std.specs.Prelude.{◌≡◌, [], ◌&&◌, ◌||◌, not, OnOk, IfOk, map, is_some, None};
ghost use Rattle.vs_ast.specs.Views as view;
ghost use Rattle.vs_const.specs.Faults.{least, fault_if};
ghost use Rattle.vs_const.specs.declared.rules.Rule.TheVariants.{DuplicateName};
ghost use Rattle.vs_elaborated.specs.Declarations as spec;
ghost use Rattle.vs_elaborated.specs.Parameters.{first_entries, first_declared};
ghost use Rattle.vs_maps.specs.Maps.{value_at};
ghost use Rattle.vs_maps.specs.MapViews.{pairs};
ghost use Rattle.vs_scope.specs.Views as scope;
ghost use Rattle.vs_scope.specs.Complete.{IsIncomplete, IsStill, shape_kept};
ghost use Rattle.vs_scope.specs.Declares.{both_kinds, named_list, open_kind, AreFirst, IsOpenAt, with_named, is_one_too_many};

use crate::counts::Counts;
use crate::names::{Declaration, Declared, Entry, Names, Sort};
use std::alloc::{AllocError, Global};
use vs_ast::{Range, SignalKind};
use vs_const::{Fault, Rule, fault_at, first_of};
use vs_maps::NameMap;

/// The names of a scope, and the first declaration that is one too many.
#[derive(Drop)]
pub(crate) struct DeclaredNames<'a> {
    pub(crate) names: Names<'a>,
    pub(crate) fault: Option<Fault>,
}

/// Whether a port's direction and its net or variable are declared apart (12.3.3).
fn are_kinds_of_one(a: SignalKind, b: SignalKind) -> bool
    ensures { result ≡ spec.are_kinds_of_one (view.signal_kind a) (view.signal_kind b) }
{
    match (a, b) {
        (SignalKind::Output, SignalKind::Reg | SignalKind::Wire) => true,
        (SignalKind::Input, SignalKind::Wire) => true,
        (SignalKind::Reg, SignalKind::Output) => true,
        (SignalKind::Wire, SignalKind::Output | SignalKind::Input) => true,
        _ => false,
    }
}

/// Whether a declaration of signals may be one of two of a signal: what a header declares with its direction is complete, and a port is no memory.
fn may_be_one(header: bool, addresses: &Option<Range>) -> bool
    ensures { result ≡ (not header && not (is_some (view.option view.range addresses.now))) }
{
    match addresses {
        None => !header,
        Some(_) => false,
    }
}

/// The kind of a declaration that may be one of two of a signal.
fn open_kind(sort: Sort<'_>) -> Option<SignalKind>
    ensures { view.option view.signal_kind result ≡ open_kind (scope.sort sort.entry) }
{
    match sort {
        Sort::Signal {
            signals,
            addresses,
            header,
        } => {
            if may_be_one(header, addresses) {
                Some(signals.kind)
            } else {
                None
            }
        }
        Sort::Variable => Some(SignalKind::Reg),
        _ => None,
    }
}

/// Whether declarations of these kinds, if they may be, are those of one signal.
fn are_of_one(a: Option<SignalKind>, b: Option<SignalKind>) -> bool
    ensures { result ≡ both_kinds (view.option view.signal_kind a) (view.option view.signal_kind b) }
{
    match a {
        None => false,
        Some(a) => match b {
            None => false,
            Some(b) => are_kinds_of_one(a, b),
        },
    }
}

/// Whether two declarations are those of one signal.
fn are_sorts_of_one(a: Sort<'_>, b: Sort<'_>) -> bool
    ensures { result ≡ spec.are_sorts_of_one (scope.sort a.entry) (scope.sort b.entry) }
{
    are_of_one(open_kind(a), open_kind(b))
}

/// Whether a declaration may be the second one of a signal, by the first one and the second one that there is.
fn is_open(first: Sort<'_>, second: Option<Declaration<'_>>, sort: Sort<'_>) -> bool
    ensures { result ≡ not (not (spec.are_sorts_of_one (scope.sort first.entry) (scope.sort sort.entry)) || is_some second.entry) }
{
    match second {
        None => are_sorts_of_one(first, sort),
        Some(_) => false,
    }
}

/// What is known of a name before values and ranges are.
fn first_declared<'a>(number: u32, sort: Sort<'a>) -> Declared<'a>
    ensures declared { scope.declared result ≡ first_declared number (scope.sort sort.entry) }
    ensures incomplete { shape_kept [] result ≡ None }
{
    match sort {
        Sort::Signal { .. } | Sort::Variable => Declared::Announced,
        Sort::Parameter { .. } => Declared::Later,
        Sort::Function(_) => Declared::Function(None),
        Sort::Genvar => Declared::Genvar,
        Sort::Integer => Declared::Integer { scope: number },
        Sort::Scope => Declared::Scope,
    }
}

impl<'a> Names<'a> {
    /// The first declaration of its name.
    fn declare_first(&mut self, d: Declaration<'a>) -> Result<(), AllocError>
        requires first { AreFirst self.old }
        requires new { value_at d.name.now.text (pairs self.old.map) ≡ None }
        ensures named { OnOk result (named_list self.new ≡ with_named (scope.declaration d.entry) (named_list self.old)) }
        ensures first { OnOk result (AreFirst self.new) }
        ensures still { OnOk result (IsStill self.old self.new) }
    {
        let declared = first_declared(self.scope, d.sort);
        self.map.put(
            d.name.text.as_slice(),
            Entry {
                first: d,
                second: None,
                declared,
            },
        )?;
        Ok(())
    }

    /// The second declaration of a signal, behind its first one.
    fn declare_second(
        &mut self,
        first: Declaration<'a>,
        d: Declaration<'a>,
    ) -> Result<(), AllocError>
        requires first { AreFirst self.old }
        requires open { IsOpenAt first d (value_at d.name.now.text (pairs self.old.map)) }
        ensures named { OnOk result (named_list self.new ≡ with_named (scope.declaration d.entry) (named_list self.old)) }
        ensures first { OnOk result (AreFirst self.new) }
        ensures still { OnOk result (IsStill self.old self.new) }
    {
        let declared = first_declared(self.scope, first.sort);
        self.map.put(
            d.name.text.as_slice(),
            Entry {
                first,
                second: Some(d),
                declared,
            },
        )?;
        Ok(())
    }

    /// One more declaration, and its fault if it is one too many: another one has its name, and they aren't those of one signal.
    fn declare(&mut self, d: Declaration<'a>) -> Result<Option<Fault>, AllocError>
        requires first { AreFirst self.old }
        ensures named { OnOk result (named_list self.new ≡ with_named (scope.declaration d.entry) (named_list self.old)) }
        ensures first { OnOk result (AreFirst self.new) }
        ensures still { OnOk result (IsStill self.old self.new) }
        ensures fault { IfOk result (λ f. f ≡ least (fault_if (is_one_too_many (named_list self.old) (scope.declaration d.entry)) DuplicateName d.entry.name.now.place)) }
    {
        match self.map.get(d.name.text.as_slice()).copied() {
            None => {
                self.declare_first(d)?;
                Ok(None)
            }
            Some(Entry { first, second, .. }) => {
                if is_open(first.sort, second, d.sort) {
                    self.declare_second(first, d)?;
                    Ok(None)
                } else {
                    Ok(fault_at(Rule::DuplicateName, d.name.place))
                }
            }
        }
    }
}

/// The names of the scope of this number, with what is known before values, ranges and functions are; `counts` are those
/// before it.
pub(crate) fn declared_names<'a>(
    alloc: Global,
    number: u32,
    counts: Counts,
    declarations: &[Declaration<'a>],
) -> Result<DeclaredNames<'a>, AllocError>
    ensures named { IfOk result (λ r. named_list r.names ≡ spec.names_of (map scope.declaration declarations.now)) }
    ensures entries { IfOk result (λ r. scope.entries r.names ≡ first_entries number (spec.names_of (map scope.declaration declarations.now))) }
    ensures incomplete { IfOk result (λ r. IsIncomplete r.names) }
    ensures scope { IfOk result (λ r. r.names.scope ≡ number) }
    ensures counts { IfOk result (λ r. r.names.counts ≡ counts) }
    ensures fault { IfOk result (λ r. r.fault ≡ least (spec.repeated_names [] (map scope.declaration declarations.now))) }
{
    let mut names = Names {
        map: NameMap::new(alloc),
        reads: NameMap::new(alloc),
        scope: number,
        counts,
        functions: Vec::new(alloc),
        plain: 0,
    };
    let mut fault = None;
    for d in declarations {
        let repeated = names.declare(*d)?;
        fault = first_of(fault, repeated);
    }
    Ok(DeclaredNames { names, fault })
}
