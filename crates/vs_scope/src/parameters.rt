//! The values of a scope's parameters (IEEE 1364-2005, 4.10 and 12.2).

ghost use Rattle.std.specs.Prelude.{◌≡◌, ◌≤◌, ◌∷◌, [], true, IfOk, OnOk, IfSome, length, map, None, Some};
ghost use Rattle.vs_scope.specs.declared.names.Evaluated.TheVariants.{Value};
ghost use Rattle.vs_four.specs.declared.Bit4.TheVariants.{X};
ghost use Rattle.vs_four.specs.Selects.{range_length};
ghost use Rattle.vs_design.specs.Expressions as E;
ghost use Rattle.vs_design.specs.Values as V;
ghost use Rattle.vs_grammar.specs.Shapes.{IsExpr, IsValueType};
ghost use Rattle.vs_ast.specs.Views as view;
ghost use Rattle.vs_const.specs.Faults.{least};
ghost use Rattle.vs_const.specs.Forms.{expression, IsValued};
ghost use Rattle.vs_const.specs.Found.{IsOf, AreValued, Says};
ghost use Rattle.vs_const.specs.Typed as typed;
ghost use Rattle.vs_elaborated.specs.Declarations.{ParameterSort};
ghost use Rattle.vs_elaborated.specs.Parameters as spec;
ghost use Rattle.vs_scope.specs.Complete.{IsIncomplete, IsStill};
ghost use Rattle.vs_scope.specs.Declares.{named_list};
ghost use Rattle.vs_scope.specs.Frames.{KeepShapes, around_env, view_env};
ghost use Rattle.vs_scope.specs.Numbers.{IsSaidRange};
ghost use Rattle.vs_scope.specs.Shaped.{AreShaped, IsShaped};
ghost use Rattle.vs_scope.specs.Overrides.{AreOverrides, IsSaidParameter, overrides_of, parameter_sort};
ghost use Rattle.vs_scope.specs.Views as scope;

use crate::frames::Frame;
use crate::names::{Declaration, Evaluated, Names, Parameter, Sort};
use crate::numbers::{SaidRange, constant, is_signed, said_type};
use crate::places::{Around, View};
use std::alloc::{AllocError, Global};
use vs_ast::{Expr, Name, Parameters};
use vs_const::{Constant, Fault, Form, Found, first_of, own, shape, value};
use vs_four::{Bits, Range, cut};
use vs_maps::NameMap;

/// What a parameter is overridden with: an expression, and the number of the scope in which its instance stands (12.2.2).
#[derive(Clone, Copy)]
pub struct Override<'a> {
    pub value: &'a Expr,
    pub frame: usize,
}

/// What a parameter is, and the first fault of its range and its default.
#[derive(Clone, Copy)]
pub(crate) struct SaidParameter {
    pub(crate) value: Evaluated,
    pub(crate) fault: Option<Fault>,
}

/// The value in a length: in the larger of both lengths and its own sign, and then cut (5.5.3, 5.6).
pub(crate) fn assigned(f: &Form, width: u32) -> Bits
    requires valued { IsValued f.now }
    requires some { 1 ≤ width }
    requires most { width ≤ 64 }
    ensures value { result ≡ V.assigned_value (expression f.now) width (λ b. X) }
    ensures length { length result ≡ width }
{
    let s = shape(f);
    cut(value(f, s.width.max(width), s.signed), width)
}

/// A value converted to a declared range and sign.
fn in_range(signed: bool, range: Range, f: &Form) -> Parameter
    requires valued { IsValued f.now }
    requires short { range_length range ≤ 64 }
    ensures { (t : typed.Typed) → IsOf f.now t → scope.evaluated (Value result) ≡ spec.converted signed (Some range) t }
{
    let width = range.length() as u32;
    Parameter {
        value: Constant {
            bits: assigned(f, width),
            signed,
        },
        range,
    }
}

/// A value with its own length, and its own sign unless one is declared (12.2.2.1).
fn by_itself(signed: bool, f: &Form) -> Parameter
    requires { IsValued f.now }
    ensures { (t : typed.Typed) → IsOf f.now t → scope.evaluated (Value result) ≡ spec.converted signed None t }
{
    let bits = own(f);
    let width = bits.len();
    Parameter {
        value: Constant {
            bits,
            signed: signed || shape(f).signed,
        },
        range: Range {
            left: width - 1,
            right: 0,
        },
    }
}

/// A parameter of this range and value.
fn evaluated(signed: bool, range: SaidRange, c: &Found) -> Evaluated
    requires valued { AreValued c.now.form }
    requires short { IfSome range.range (λ r. range_length r ≤ 64) }
    ensures { (t : typed.Typed) (r : spec.SaidRange) → Says true c.now t → IsSaidRange range r → scope.evaluated result ≡ spec.parameter_declared signed r t }
{
    if range.known {
        match &c.form {
            None => Evaluated::Undefined(range.range),
            Some(f) => match range.range {
                Some(r) => Evaluated::Value(in_range(signed, r, f)),
                None => Evaluated::Value(by_itself(signed, f)),
            },
        }
    } else {
        Evaluated::Undefined(None)
    }
}

/// The default, or what overrides it: a local parameter isn't overridden (4.10.2).
fn chosen<'a>(
    alloc: Global,
    is_local: bool,
    overrides: &NameMap<'a, Override<'a>>,
    frames: &[Frame<'a>],
    name: &[u8],
    default: Found,
) -> Result<Found, AllocError>
    requires overrides { AreOverrides frames.now overrides.now }
    requires kept { KeepShapes frames.now }
    ensures { (p : ParameterSort) (t : typed.Typed) → p.is_local ≡ is_local → Says true default t
        → IfOk result (λ c. Says true c (spec.chosen p (overrides_of frames.now overrides.now) name.now t)) }
{
    if is_local {
        return Ok(default);
    }
    match overrides.get(name) {
        None => Ok(default),
        Some(o) => constant(alloc, o.value, &View::of(frames, o.frame)),
    }
}

/// What a parameter is; the default is looked at also where it is overridden.
fn said_parameter<'a>(
    alloc: Global,
    here: &View<'_, 'a>,
    overrides: &NameMap<'a, Override<'a>>,
    name: &Name,
    parameters: &Parameters,
    default: &Expr,
) -> Result<SaidParameter, AllocError>
    requires overrides { AreOverrides here.now.around.frames.now overrides.now }
    requires value_type { IsValueType (view.value_type parameters.now.value_type) }
    requires value { IsExpr (view.expr default.now) }
    ensures { IfOk result (λ s. IsSaidParameter s (spec.said_parameter (view_env here.now) (overrides_of here.now.around.frames.now overrides.now) (view.name name.now) (parameter_sort parameters.now default.now))) }
{
    let range = said_type(alloc, &parameters.value_type, here)?;
    let c = constant(alloc, default, here)?;
    let fault = first_of(range.fault, c.said.flaws.first);
    let c = chosen(
        alloc,
        parameters.is_local,
        overrides,
        here.around.frames,
        name.text.as_slice(),
        c,
    )?;
    Ok(SaidParameter {
        value: evaluated(is_signed(&parameters.value_type), range, &c),
        fault,
    })
}

/// One declaration's parameter, by the names as they are before it.
fn evaluate_one<'a>(
    alloc: Global,
    around: Around<'_, 'a>,
    overrides: &NameMap<'a, Override<'a>>,
    d: &Declaration<'a>,
    names: &mut Names<'a>,
) -> Result<Option<Fault>, AllocError>
    requires overrides { AreOverrides around.frames.now overrides.now }
    requires shaped { IsShaped (scope.declaration d.now) }
    requires incomplete { IsIncomplete names.old }
    ensures entries { OnOk result (scope.entries names.new ≡ (spec.said_parameters (around_env around.entry) (overrides_of around.entry.frames.now overrides.now) (scope.declaration d.now ∷ []) (scope.entries names.old)).entries) }
    ensures named { OnOk result (named_list names.new ≡ named_list names.old) }
    ensures still { OnOk result (IsStill names.old names.new) }
    ensures fault { IfOk result (λ f. f ≡ least (spec.said_parameters (around_env around.entry) (overrides_of around.entry.frames.now overrides.now) (scope.declaration d.now ∷ []) (scope.entries names.old)).faults) }
{
    match d.sort {
        Sort::Parameter { parameters, value } => {
            let here = View {
                around,
                names: &*names,
                inside: None,
                before: Some(d.name.place),
                in_function: false,
            };
            let s = said_parameter(alloc, &here, overrides, d.name, parameters, value)?;
            names.put_value(d.name.text.as_slice(), s.value)?;
            Ok(s.fault)
        }
        _ => Ok(None),
    }
}

/// The parameters in text order, each one by those before it, and the first of their faults.
pub(crate) fn evaluate<'a>(
    alloc: Global,
    around: Around<'_, 'a>,
    overrides: &NameMap<'a, Override<'a>>,
    declarations: &[Declaration<'a>],
    names: &mut Names<'a>,
) -> Result<Option<Fault>, AllocError>
    requires overrides { AreOverrides around.frames.now overrides.now }
    requires shaped { AreShaped (map scope.declaration declarations.now) }
    requires incomplete { IsIncomplete names.old }
    ensures entries { OnOk result (scope.entries names.new ≡ (spec.said_parameters (around_env around.entry) (overrides_of around.entry.frames.now overrides.now) (map scope.declaration declarations.now) (scope.entries names.old)).entries) }
    ensures named { OnOk result (named_list names.new ≡ named_list names.old) }
    ensures still { OnOk result (IsStill names.old names.new) }
    ensures fault { IfOk result (λ f. f ≡ least (spec.said_parameters (around_env around.entry) (overrides_of around.entry.frames.now overrides.now) (map scope.declaration declarations.now) (scope.entries names.old)).faults) }
{
    let mut fault = None;
    for d in declarations {
        let found = evaluate_one(alloc, around, overrides, d, names)?;
        fault = first_of(fault, found);
    }
    Ok(fault)
}
