//! What is found of an expression, by what is found of its parts.

ghost use Rattle.std.specs.Prelude.{◌≡◌, ◌≤◌, ℕ, Bool, true, false, not, ◌&&◌, ◌||◌, List, ◌++◌, [], IfOk, IfSome, Option, None, min, Some};
ghost use Rattle.vs_four.specs.Numbers as numbers;
ghost use Rattle.vs_four.specs.Selects.{range_length};
ghost use Rattle.vs_design.specs.Expressions as E;
ghost use Rattle.vs_grammar.specs.Trees as tree;
ghost use Rattle.vs_grammar.specs.Shapes.{IsLiteral};
ghost use Rattle.vs_ast.specs.Views as view;
ghost use Rattle.vs_const.specs.Faults.{flaws_of};
ghost use Rattle.vs_const.specs.Meanings.{Meaning, Means, SignalMeaning, IsFairMeaning};
ghost use Rattle.vs_const.specs.Typed as typed;
ghost use Rattle.vs_const.specs.Selects as spec;
ghost use Rattle.vs_const.specs.Expressions as expr;
ghost use Rattle.vs_const.specs.Checks.{Checks, ChecksNumber, ChecksNatural, ChecksTaken, ChecksAddress, IsUnsizedAt};
ghost use Rattle.vs_const.specs.Forms.{expression, IsForm};
ghost use Rattle.vs_const.specs.Found.{IsOf, Keeps, Finds, Says, AreValued};

use crate::faults::{Fault, Flaws, both, flaw};
use crate::forms::{Form, own, shape};
use crate::names::{Named, SignalShape};
use crate::operators::{
    binary, choice, clog2_broken, clog2_of, copies, join, literal, noted, part, replicated, unary,
};
use crate::ranges::{Numbered, natural_of, range_of_bounds};
use crate::rules::Rule;
use crate::selects::{
    Addressed, Taken, base_of, between, bits_from, in_array, in_memory, moving, name_alone,
    taken_of, word, word_part,
};
use std::alloc::{AllocError, Global};
use vs_ast::Literal;
use vs_base::{BinaryOp, Context, UnaryOp};
use vs_four::{Bits, Range, clog2, integer, is_known, of_number};

/// What an expression says, but for its value. Lengths over 64 bits are told as 65.
#[derive(Clone, Copy, Debug)]
pub struct Checked {
    /// What is wrong with it.
    pub flaws: Flaws,
    /// Its length by itself, unless a fault leaves it undefined.
    pub length: Option<u32>,
    /// Whether no fault leaves its value undefined.
    pub good: bool,
    pub signed: bool,
    /// How deep calls of functions nest in it (10.4).
    pub depth: u32,
}

/// What an expression says, and itself where a constant is needed whose value no fault leaves undefined.
#[derive(Drop)]
pub struct Found {
    pub said: Checked,
    pub form: Option<Form>,
}

// ---- the expression

/// The form where it is needed and good, with the place where it begins.
fn kept(
    alloc: Global,
    needed: bool,
    good: bool,
    place: u32,
    o: Option<Form>,
) -> Result<Option<Form>, AllocError>
    ensures { (t : typed.Typed) → Keeps needed o t → good ≡ (typed.noted needed place t).good
        → IfOk result (λ r. Keeps needed r (typed.noted needed place t)) }
{
    match o {
        None => Ok(None),
        Some(f) => {
            if needed && good {
                let f = f.begun(alloc, place)?;
                Ok(Some(f))
            } else {
                Ok(None)
            }
        }
    }
}

/// An operator of one operand, or a cast.
fn unary_form(alloc: Global, op: UnaryOp, a: Option<Form>) -> Result<Option<Form>, AllocError>
    ensures { (needed : Bool) (t : typed.Typed) → Keeps needed a t → AreValued a
        → IfOk result (λ r. Keeps needed r (typed.unary_typed op t)) }
{
    match a {
        None => Ok(None),
        Some(a) => {
            let operand = Box::new(alloc, a)?;
            Ok(Some(Form::Unary { op, operand }))
        }
    }
}

/// An operator of two operands.
fn binary_form(
    alloc: Global,
    op: BinaryOp,
    a: Option<Form>,
    b: Option<Form>,
) -> Result<Option<Form>, AllocError>
    ensures { (needed : Bool) (t u : typed.Typed) → Keeps needed a t → AreValued a → Keeps needed b u → AreValued b
        → IfOk result (λ r. Keeps needed r (typed.binary_typed op t u)) }
{
    match a {
        None => Ok(None),
        Some(a) => match b {
            None => Ok(None),
            Some(b) => {
                let left = Box::new(alloc, a)?;
                let right = Box::new(alloc, b)?;
                Ok(Some(Form::Binary { op, left, right }))
            }
        },
    }
}

/// `c ? p : q`.
fn choice_form(
    alloc: Global,
    c: Option<Form>,
    p: Option<Form>,
    q: Option<Form>,
) -> Result<Option<Form>, AllocError>
    ensures { (needed : Bool) (t u v : typed.Typed) → Keeps needed c t → AreValued c → Keeps needed p u → AreValued p → Keeps needed q v
        → AreValued q → IfOk result (λ r. Keeps needed r (typed.choice_typed t u v)) }
{
    match c {
        None => Ok(None),
        Some(c) => match p {
            None => Ok(None),
            Some(p) => match q {
                None => Ok(None),
                Some(q) => {
                    let condition = Box::new(alloc, c)?;
                    let yes = Box::new(alloc, p)?;
                    let no = Box::new(alloc, q)?;
                    Ok(Some(Form::Choice { condition, yes, no }))
                }
            },
        },
    }
}

/// `{high, low}`.
fn join_form(alloc: Global, a: Option<Form>, b: Option<Form>) -> Result<Option<Form>, AllocError>
    ensures { (needed : Bool) (t u : typed.Typed) → Keeps needed a t → Keeps needed b u
        → IfOk result (λ r. Keeps needed r (typed.join_typed t u)) }
{
    match a {
        None => Ok(None),
        Some(a) => match b {
            None => Ok(None),
            Some(b) => {
                let high = Box::new(alloc, a)?;
                let low = Box::new(alloc, b)?;
                Ok(Some(Form::Join { high, low }))
            }
        },
    }
}

/// `{count{..}}`.
fn copies_form(alloc: Global, count: u32, a: Option<Form>) -> Result<Option<Form>, AllocError>
    requires { 1 ≤ count }
    ensures { (needed : Bool) (t : typed.Typed) → Keeps needed a t → IfOk result (λ r. Keeps needed r (typed.copies_typed count t)) }
{
    match a {
        None => Ok(None),
        Some(a) => {
            let inner = Box::new(alloc, a)?;
            Ok(Some(Form::Repeat { count, inner }))
        }
    }
}

/// So many copies, unless a fault leaves the count undefined.
fn replicated_form(
    alloc: Global,
    n: Option<u32>,
    a: Option<Form>,
) -> Result<Option<Form>, AllocError>
    requires { IfSome n (λ k. (1 ≤ k) × (k ≤ 64)) }
    ensures { (needed : Bool) (fs : List Fault) (t : typed.Typed) → Keeps needed a t
        → IfOk result (λ r. Keeps needed r (expr.replicated n fs t)) }
{
    match n {
        None => Ok(None),
        Some(count) => match a {
            None => Ok(None),
            Some(a) => {
                let inner = Box::new(alloc, a)?;
                Ok(Some(Form::Repeat { count, inner }))
            }
        },
    }
}

/// A part of a concatenation, unless it is a literal without a size.
fn part_form(unsized_at: Option<u32>, a: Option<Form>) -> Option<Form>
    ensures { (needed : Bool) (e : tree.Expr) (t : typed.Typed) → IsUnsizedAt unsized_at (expr.unsized_faults e) → Keeps needed a t
        → Keeps needed result (expr.part_typed e t) }
{
    match unsized_at {
        None => a,
        Some(_) => None,
    }
}

/// A name that is a value.
fn name_form(named: &Named) -> Option<Form>
    ensures { (needed : Bool) (place : ℕ) (m : Meaning) → Means named.now m → Keeps needed result (spec.name_typed needed place m) }
{
    match named {
        Named::Value { value, .. } => Some(Form::Literal {
            bits: value.bits,
            signed: value.signed,
            sized: true,
        }),
        _ => None,
    }
}

/// A literal.
fn literal_form(n: &Literal) -> Option<Form>
    requires { IsLiteral (view.literal n.now) }
    ensures { (needed : Bool) → Keeps needed result (typed.fine (E.Literal (view.literal n.now).bits n.now.signed n.now.sized) []) }
{
    Some(Form::Literal {
        bits: n.bits(),
        signed: n.signed,
        sized: n.sized,
    })
}

/// `$clog2` of a value.
fn clog2_form(n: Option<u32>) -> Option<Form>
    ensures { (needed : Bool) (place : ℕ) (fs : List Fault) → Keeps needed result (expr.clog2_of n place fs) }
{
    match n {
        None => None,
        Some(n) => Some(Form::Literal {
            bits: of_number(32, n as u64),
            signed: true,
            sized: true,
        }),
    }
}

/// `width` bits of a named value from an index on.
fn select_form(
    alloc: Global,
    good: bool,
    named: &Named,
    up: bool,
    width: u32,
    index: Option<Form>,
) -> Result<Option<Form>, AllocError>
    requires { 1 ≤ width }
    ensures { (needed : Bool) (place : ℕ) (m : Meaning) (t : typed.Typed) (fs : List Fault) → IsFairMeaning m → Means named.now m
        → Keeps needed index t → AreValued index
        → good ≡ (spec.select_typed (spec.base_of needed place m) (spec.taken (spec.base_of needed place m).range up width t fs)).good
        → IfOk result (λ r. Keeps needed r (spec.select_typed (spec.base_of needed place m) (spec.taken (spec.base_of needed place m).range up width t fs))) }
{
    match index {
        None => Ok(None),
        Some(f) => match named {
            Named::Value { value, range, .. } => {
                if good {
                    let index = Box::new(alloc, f)?;
                    Ok(Some(Form::Select {
                        bits: value.bits,
                        range: *range,
                        up,
                        width,
                        index,
                    }))
                } else {
                    Ok(None)
                }
            }
            _ => Ok(None),
        },
    }
}

/// As many bits from an index on as a number says.
fn moving_form(
    alloc: Global,
    good: bool,
    named: &Named,
    up: bool,
    n: Option<u32>,
    index: Option<Form>,
) -> Result<Option<Form>, AllocError>
    requires { IfSome n (λ k. (1 ≤ k) × (k ≤ 64)) }
    ensures { (needed : Bool) (place : ℕ) (m : Meaning) (t : typed.Typed) (fs : List Fault) → IsFairMeaning m → Means named.now m
        → Keeps needed index t → AreValued index
        → good ≡ (spec.select_typed (spec.base_of needed place m) (spec.if_width (spec.base_of needed place m).range up n t fs)).good
        → IfOk result (λ r. Keeps needed r (spec.select_typed (spec.base_of needed place m) (spec.if_width (spec.base_of needed place m).range up n t fs))) }
{
    match n {
        None => Ok(None),
        Some(width) => select_form(alloc, good, named, up, width, index),
    }
}

/// The bits of a range, by its lesser bound.
fn between_form(
    alloc: Global,
    good: bool,
    named: &Named,
    left_place: u32,
    range: Option<Range>,
) -> Result<Option<Form>, AllocError>
    requires { IfSome range (λ r. range_length r ≤ 64) }
    ensures { (needed : Bool) (place bracket : ℕ) (m : Meaning) (fs : List Fault) → IsFairMeaning m → Means named.now m
        → good ≡ (spec.select_typed (spec.base_of needed place m) (spec.between (spec.base_of needed place m).range bracket left_place range fs)).good
        → IfOk result (λ r. Keeps needed r (spec.select_typed (spec.base_of needed place m) (spec.between (spec.base_of needed place m).range bracket left_place range fs))) }
{
    match range {
        None => Ok(None),
        Some(r) => match named {
            Named::Value { value, range, .. } => {
                if good {
                    let inner = Form::Literal {
                        bits: of_number(32, r.left.min(r.right) as u64),
                        signed: true,
                        sized: true,
                    };
                    let inner = Box::new(alloc, inner)?;
                    let index = Box::new(
                        alloc,
                        Form::At {
                            place: left_place,
                            shape: Context {
                                width: 32,
                                signed: true,
                            },
                            inner,
                        },
                    )?;
                    Ok(Some(Form::Select {
                        bits: value.bits,
                        range: *range,
                        up: true,
                        width: r.length() as u32,
                        index,
                    }))
                } else {
                    Ok(None)
                }
            }
            _ => Ok(None),
        },
    }
}

// ---- all of it

/// An expression that begins at this place, where it is kept only if it is needed and good.
fn begun_at(
    alloc: Global,
    needed: bool,
    place: u32,
    said: Checked,
    form: Option<Form>,
) -> Result<Found, AllocError>
    ensures { (t : typed.Typed) → Checks said t → Keeps needed form t → IfOk result (λ r. Finds needed r (typed.noted needed place t)) }
{
    let said = noted(needed, place, said);
    let form = kept(alloc, needed, said.good, place, form)?;
    Ok(Found { said, form })
}

/// A literal.
pub(crate) fn find_literal(alloc: Global, needed: bool, n: &Literal) -> Result<Found, AllocError>
    requires { IsLiteral (view.literal n.now) }
    ensures { IfOk result (λ r. Finds needed r (typed.noted needed n.now.place (typed.fine (E.Literal (view.literal n.now).bits n.now.signed n.now.sized) []))) }
{
    begun_at(alloc, needed, n.place, literal(n), literal_form(n))
}

/// An operator of one operand, or a cast.
pub(crate) fn find_unary(alloc: Global, op: UnaryOp, a: Found) -> Result<Found, AllocError>
    ensures { (needed : Bool) (t : typed.Typed) → Says needed a t
        → IfOk result (λ r. Finds needed r (typed.unary_typed op t)) }
{
    let form = unary_form(alloc, op, a.form)?;
    Ok(Found {
        said: unary(op, a.said),
        form,
    })
}

/// `$clog2` of a constant.
pub(crate) fn find_clog2(place: u32, a: Found) -> Found
    requires { AreValued a.form }
    ensures { (needed : Bool) (t : typed.Typed) → Says true a t → Finds needed result (expr.clog2_typed t.good place t) }
{
    let Found { said, form } = a;
    match form {
        None => Found {
            said: clog2_broken(said.flaws),
            form: None,
        },
        Some(f) => {
            let n = clog2(own(&f));
            Found {
                said: clog2_of(place, said.flaws, n),
                form: clog2_form(n),
            }
        }
    }
}

/// The number of a constant.
#[tactic(auto, using(crate::proofs::Least::flaws_append))]
pub(crate) fn find_number(place: u32, a: Found) -> Numbered
    requires { AreValued a.form }
    ensures { (t : typed.Typed) → Says true a t → ChecksNumber result (typed.number_of place t) }
{
    let Found { said, form } = a;
    match form {
        None => Numbered {
            number: None,
            flaws: said.flaws,
        },
        Some(f) => known_number(place, said.flaws, own(&f), shape(&f).signed),
    }
}

/// The number of a value.
#[tactic(auto, using(crate::proofs::Least::flaws_append))]
fn known_number(place: u32, flaws: Flaws, bits: Bits, signed: bool) -> Numbered
    ensures number { result.number ≡ (typed.known_number bits signed place).number }
    ensures flaws { (fs : List Fault) → flaws ≡ flaws_of fs
        → result.flaws ≡ flaws_of (fs ++ (typed.known_number bits signed place).faults) }
{
    if is_known(bits) {
        Numbered {
            number: Some(integer(bits, signed)),
            flaws,
        }
    } else {
        Numbered {
            number: None,
            flaws: both(flaws, flaw(Rule::UnknownConstant, place)),
        }
    }
}

/// A name alone.
pub(crate) fn find_name(needed: bool, place: u32, named: &Named) -> Found
    ensures { (m : Meaning) → IsFairMeaning m → Means named.now m → Finds needed result (spec.name_typed needed place m) }
{
    Found {
        said: name_alone(needed, place, named),
        form: name_form(named),
    }
}

/// One bit of a name.
fn find_one_bit(
    alloc: Global,
    needed: bool,
    place: u32,
    named: &Named,
    i: Found,
) -> Result<Found, AllocError>
    ensures { (m : Meaning) (t : typed.Typed) → IsFairMeaning m → Means named.now m → Says needed i t
        → IfOk result (λ r. Finds needed r (spec.select_typed (spec.base_of needed place m) (spec.taken (spec.base_of needed place m).range true 1 t t.faults))) }
{
    let base = base_of(needed, place, named);
    let said = taken_of(
        base,
        bits_from(base.range, 1, i.said.good, i.said.depth, i.said.flaws),
    );
    let form = select_form(alloc, said.good, named, true, 1, i.form)?;
    Ok(Found { said, form })
}

/// The address of a word, at the place `at`; that of an array of nets is a constant.
pub(crate) fn find_address(s: SignalShape, at: u32, i: Found) -> Addressed
    requires { AreValued i.form }
    ensures { (m : SignalMeaning) (needed : Bool) (t : typed.Typed) → s.net ≡ m.signal.net → s.words ≡ m.signal.words → Says (m.signal.net || needed) i t → ChecksAddress result (spec.addressed m at t) }
{
    let index = i.said;
    if s.net {
        in_array(s, at, index, find_number(at, i))
    } else {
        in_memory(index)
    }
}

/// `name[i]`, where i stands at the place `at`: a word of a memory, which is no constant and so is never kept, or one bit of any other
/// name.
pub(crate) fn find_bit(
    alloc: Global,
    needed: bool,
    place: u32,
    named: &Named,
    at: u32,
    i: Found,
) -> Result<Found, AllocError>
    requires { AreValued i.form }
    ensures { (m : Meaning) (t : typed.Typed) → IsFairMeaning m → Means named.now m → Says (spec.is_array m || needed) i t
        → IfOk result (λ r. Finds needed r (spec.bit_typed needed place m at t)) }
{
    match named {
        Named::Memory(s) => Ok(Found {
            said: word(needed, place, *s, find_address(*s, at, i)),
            form: None,
        }),
        _ => find_one_bit(alloc, needed, place, named, i),
    }
}

/// Bits of a word of a memory, whose address stands at the place `at`. They are no constant and so are never kept.
pub(crate) fn find_word_part(place: u32, s: SignalShape, at: u32, address: Found, t: Taken) -> Found
    requires { AreValued address.form }
    ensures { (m : SignalMeaning) (a : typed.Typed) (bits : spec.Taken) → s.range ≡ m.signal.range → s.known ≡ m.known → s.net ≡ m.signal.net → s.words ≡ m.signal.words → Says (m.signal.net || false) address a
        → ChecksTaken t bits → Finds false result (spec.word_part_typed place m (spec.addressed m at a) bits) }
{
    Found {
        said: word_part(place, s, find_address(s, at, address), t),
        form: None,
    }
}

/// `[a:b]` of a name.
pub(crate) fn find_between(
    alloc: Global,
    needed: bool,
    place: u32,
    named: &Named,
    bracket: u32,
    left_place: u32,
    left: Numbered,
    right_place: u32,
    right: Numbered,
) -> Result<Found, AllocError>
    ensures { (m : Meaning) (t u : typed.Typed) → IsFairMeaning m → Means named.now m → ChecksNumber left (typed.number_of left_place t)
        → ChecksNumber right (typed.number_of right_place u)
        → IfOk result (λ r. Finds needed r (spec.select_typed (spec.base_of needed place m) (spec.slice_taken (spec.base_of needed place m).range bracket tree.Between left_place t right_place u))) }
{
    let base = base_of(needed, place, named);
    let bounds = range_of_bounds(64, bracket, left_place, left, right_place, right);
    let said = taken_of(base, between(base.range, bracket, bounds));
    let form = between_form(alloc, said.good, named, left_place, bounds.range)?;
    Ok(Found { said, form })
}

/// `[a +: w]` and `[a -: w]` of a name.
pub(crate) fn find_moving(
    alloc: Global,
    needed: bool,
    place: u32,
    named: &Named,
    up: bool,
    a: Found,
    width_place: u32,
    width: Numbered,
) -> Result<Found, AllocError>
    ensures { (m : Meaning) (t u : typed.Typed) → IsFairMeaning m → Means named.now m → Says needed a t
        → ChecksNumber width (typed.number_of width_place u)
        → IfOk result (λ r. Finds needed r (spec.select_typed (spec.base_of needed place m) (spec.moving (spec.base_of needed place m).range up t width_place u))) }
{
    let base = base_of(needed, place, named);
    let said = taken_of(base, moving(base.range, a.said, width_place, width));
    let n = natural_of(1, 64, width_place, width);
    let form = moving_form(alloc, said.good, named, up, n.number, a.form)?;
    Ok(Found { said, form })
}

/// An operator of two operands.
pub(crate) fn find_binary(
    alloc: Global,
    needed: bool,
    place: u32,
    op: BinaryOp,
    a: Found,
    b: Found,
) -> Result<Found, AllocError>
    ensures { (t u : typed.Typed) → Says needed a t → Says needed b u
        → IfOk result (λ r. Finds needed r (typed.noted needed place (typed.binary_typed op t u))) }
{
    let form = binary_form(alloc, op, a.form, b.form)?;
    begun_at(alloc, needed, place, binary(op, a.said, b.said), form)
}

/// `c ? p : q`.
pub(crate) fn find_choice(
    alloc: Global,
    needed: bool,
    place: u32,
    c: Found,
    p: Found,
    q: Found,
) -> Result<Found, AllocError>
    ensures { (t u v : typed.Typed) → Says needed c t → Says needed p u → Says needed q v
        → IfOk result (λ r. Finds needed r (typed.noted needed place (typed.choice_typed t u v))) }
{
    let form = choice_form(alloc, c.form, p.form, q.form)?;
    begun_at(alloc, needed, place, choice(c.said, p.said, q.said), form)
}

/// `{..}`.
pub(crate) fn find_concatenation(
    alloc: Global,
    needed: bool,
    place: u32,
    c: Found,
) -> Result<Found, AllocError>
    ensures { (t : typed.Typed) → Finds needed c t → IfOk result (λ r. Finds needed r (typed.noted needed place (typed.copies_typed 1 t))) }
{
    let form = copies_form(alloc, 1, c.form)?;
    begun_at(alloc, needed, place, copies(1, c.said), form)
}

/// `{count{..}}`.
pub(crate) fn find_replication(
    alloc: Global,
    needed: bool,
    place: u32,
    count_place: u32,
    count: Numbered,
    c: Found,
) -> Result<Found, AllocError>
    ensures { (n t : typed.Typed) → ChecksNumber count (typed.number_of count_place n) → Finds needed c t
        → IfOk result (λ r. Finds needed r (typed.noted needed place (expr.replication_typed count_place n t))) }
{
    let n = natural_of(1, 64, count_place, count);
    let form = replicated_form(alloc, n.number, c.form)?;
    begun_at(alloc, needed, place, replicated(n, c.said), form)
}

/// `(e)`.
pub(crate) fn find_brackets(
    alloc: Global,
    needed: bool,
    place: u32,
    c: Found,
) -> Result<Found, AllocError>
    ensures { (t : typed.Typed) → Finds needed c t → IfOk result (λ r. Finds needed r (typed.noted needed place t)) }
{
    begun_at(alloc, needed, place, c.said, c.form)
}

/// A part of a concatenation, which comes last.
pub(crate) fn find_last(unsized_at: Option<u32>, c: Found) -> Found
    ensures { (needed : Bool) (e : tree.Expr) (t : typed.Typed) → IsUnsizedAt unsized_at (expr.unsized_faults e) → Finds needed c t
        → Finds needed result (expr.part_typed e t) }
{
    Found {
        said: part(c.said, unsized_at),
        form: part_form(unsized_at, c.form),
    }
}

/// A part of a concatenation, with those that follow it.
pub(crate) fn find_more(
    alloc: Global,
    unsized_at: Option<u32>,
    c: Found,
    rest: Found,
) -> Result<Found, AllocError>
    ensures { (needed : Bool) (e : tree.Expr) (t u : typed.Typed) → IsUnsizedAt unsized_at (expr.unsized_faults e) → Finds needed c t
        → Finds needed rest u → IfOk result (λ r. Finds needed r (typed.join_typed (expr.part_typed e t) u)) }
{
    let last = find_last(unsized_at, c);
    let form = join_form(alloc, last.form, rest.form)?;
    Ok(Found {
        said: join(last.said, rest.said),
        form,
    })
}
