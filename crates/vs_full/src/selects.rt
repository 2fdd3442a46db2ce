//! The select inputs: those at the root of the selectors of full cases, in blocks that are accepted as completed ones alone.

ghost use Rattle.std.specs.Prelude.{◌≡◌, ◌≤◌, ◌<◌, ◌++◌, ◌&&◌, ℕ, List, [], ◌∷◌, filter, length, map, true, false, if◌then◌else◌, slice_get, slice_index_or, IfOk, OnOk, Some};
ghost use Rattle.std.specs.List.{list_all};
ghost use Rattle.vs_design.specs.Designs as D;
ghost use Rattle.vs_design.specs.Elaborated.{is_formed, is_formed_statement};
ghost use Rattle.vs_design.specs.Expressions as E;
ghost use Rattle.vs_design.specs.Fits.{fits_process, fits_statement};
ghost use Rattle.vs_design.specs.Footprints.{contains, read_signals, source_signals};
ghost use Rattle.vs_design.specs.Selects.{arms_selector_signals, block_selector_signals, is_selector, select_firsts, selector_signals};
ghost use Rattle.vs_flat.specs.DesignOf.{arena_signals, design_of};
ghost use Rattle.vs_flat.specs.Lawful.{IsLawful};
ghost use Rattle.vs_flat.specs.Targets.{source_of};
ghost use Rattle.vs_flat.specs.Trees.{branch, joined, sequence, signal_at};
ghost use Rattle.vs_sets.specs.Nodes.{EachBelow, tree_of};
ghost use Rattle.vs_sets.specs.StatementParts.{arms_of, statement_of};
ghost use Rattle.vs_full.specs.Found.{AreAllNoted, AreArmsNoted, AreNoted, AreNotedIn, ArePartsNoted, ArePicked, AreReady, AreReadyArms, AreSound, IsReadyIn, IsRootBelow, with_mark};
ghost use Rattle.vs_full.specs.Selectors.{is_source};

use crate::Cases;
use crate::roots::{named_number, number_at};
use std::alloc::{AllocError, Global};
use vs_flat::{Arm, Flat, Kind, Node, Statement, names_law, trees_law};
use vs_sets::statement_node;
use vs_shape::{Shapes, first_copy};

impl Cases {
    /// Marks the root of this signal.
    fn pick(&self, shapes: &Shapes, signal: u32, picked: &mut [bool])
        requires sound { AreSound shapes.now self.now }
        requires there { signal < length shapes.now.signals }
        requires count { length picked.old ≡ length shapes.now.signals }
        ensures { (s : E.Signal) → slice_get (design_of shapes.now).signals signal ≡ Some s → ArePicked (design_of shapes.now) (s ∷ []) picked.old picked.new }
    {
        trees_law();
        let _ = shapes.flat();
        let root = number_at(self.roots(), signal);
        mark_root(picked, root);
    }

    /// Marks the roots of the signals that these parts of a selector name, which are below e.
    #[cycle(naming)]
    fn pick_parts(&self, shapes: &Shapes, e: u32, parts: &[u32], picked: &mut [bool])
        requires sound { AreSound shapes.now self.now }
        requires count { length picked.old ≡ length shapes.now.signals }
        requires there { e < length shapes.now.nodes }
        requires below { EachBelow e parts.now }
        requires formed { is_formed (design_of shapes.now) (joined (map (tree_of shapes.now) parts.now)) ≡ true }
        requires selector { is_selector (design_of shapes.now) (joined (map (tree_of shapes.now) parts.now)) ≡ true }
        ensures { ArePicked (design_of shapes.now) (read_signals (joined (map (tree_of shapes.now) parts.now))) picked.old picked.new }
    {
        for part in parts {
            self.pick_named(shapes, *part, picked);
        }
    }

    /// Marks the roots of the signals that a selector names.
    #[cycle(naming)]
    fn pick_named(&self, shapes: &Shapes, e: u32, picked: &mut [bool])
        requires sound { AreSound shapes.now self.now }
        requires count { length picked.old ≡ length shapes.now.signals }
        requires there { e < length shapes.now.nodes }
        requires formed { is_formed (design_of shapes.now) (tree_of shapes.now e) ≡ true }
        requires selector { is_selector (design_of shapes.now) (tree_of shapes.now e) ≡ true }
        ensures { ArePicked (design_of shapes.now) (read_signals (tree_of shapes.now e)) picked.old picked.new }
    {
        let _ = shapes.flat();
        match shapes.node(e) {
            Node::Literal { .. } => {}
            Node::Name { .. } => self.pick_source(shapes, e, picked),
            Node::Local { .. } => self.pick_source(shapes, e, picked),
            Node::Bit { of, .. } => self.pick_source(shapes, *of, picked),
            Node::Part { of, .. } => self.pick_source(shapes, *of, picked),
            Node::Join { parts } => {
                self.pick_parts(shapes, e, first_copy(parts.as_slice()), picked);
            }
            Node::Word { .. } => {}
            Node::WordPart { .. } => {}
            Node::Unary { .. } => {}
            Node::Binary { .. } => {}
            Node::Choice { .. } => {}
            Node::Call { .. } => {}
        }
    }

    /// Marks the root of the signal that this expression is the name of.
    fn pick_source(&self, shapes: &Shapes, e: u32, picked: &mut [bool])
        requires sound { AreSound shapes.now self.now }
        requires count { length picked.old ≡ length shapes.now.signals }
        requires there { e < length shapes.now.nodes }
        requires formed { is_source (design_of shapes.now) (source_of (tree_of shapes.now e)) ≡ true }
        ensures { ArePicked (design_of shapes.now) (source_signals (source_of (tree_of shapes.now e))) picked.old picked.new }
    {
        match named_number(shapes.flat(), e) {
            Some(signal) => self.pick(shapes, signal, picked),
            None => {}
        }
    }

    /// Marks the roots of the signals that the selector of case s names, where the case is full.
    fn pick_subject(&self, shapes: &Shapes, s: u32, of: u32, picked: &mut [bool])
        requires sound { AreSound shapes.now self.now }
        requires count { length picked.old ≡ length shapes.now.signals }
        requires there { of < length shapes.now.nodes }
        requires formed { is_formed (design_of shapes.now) (tree_of shapes.now of) ≡ true }
        requires selector { slice_index_or self.now.full s false ≡ true → is_selector (design_of shapes.now) (tree_of shapes.now of) ≡ true }
        ensures { ArePicked (design_of shapes.now) (if slice_index_or self.now.full s false then read_signals (tree_of shapes.now of) else []) picked.old picked.new }
    {
        if !self.is_full(s) {
            return;
        }
        self.pick_named(shapes, of, picked);
    }

    /// Marks the roots of what the selectors of full cases in a branch before s name.
    #[cycle(picking)]
    fn pick_branch(&self, shapes: &Shapes, s: u32, part: Option<u32>, picked: &mut [bool])
        requires sound { AreSound shapes.now self.now }
        requires count { length picked.old ≡ length shapes.now.signals }
        requires there { s ≤ length shapes.now.statements }
        requires ready { IsReadyIn shapes.now s part }
        requires noted { AreNotedIn shapes.now self.now part }
        ensures { ArePicked (design_of shapes.now) (selector_signals (design_of shapes.now) (branch (statement_of shapes.now) part)) picked.old picked.new }
    {
        match part {
            Some(n) => self.pick_in(shapes, n, picked),
            None => {}
        }
    }

    /// The same of arms, whose statements are before s.
    #[cycle(picking)]
    fn pick_arms(
        &self,
        shapes: &Shapes,
        s: u32,
        arms: &[Arm],
        other: Option<u32>,
        picked: &mut [bool],
    )
        requires sound { AreSound shapes.now self.now }
        requires count { length picked.old ≡ length shapes.now.signals }
        requires there { s ≤ length shapes.now.statements }
        requires ready { AreReadyArms shapes.now s arms.now }
        requires other_ready { IsReadyIn shapes.now s other }
        requires noted { AreArmsNoted shapes.now self.now arms.now }
        requires other_noted { AreNotedIn shapes.now self.now other }
        ensures { ArePicked (design_of shapes.now) (arms_selector_signals (design_of shapes.now) (arms_of shapes.now other arms.now)) picked.old picked.new }
    {
        for arm in arms {
            self.pick_in(shapes, arm.statement, picked);
        }
        self.pick_branch(shapes, s, other, picked);
    }

    /// The same of statements before s.
    #[cycle(picking)]
    fn pick_all(&self, shapes: &Shapes, s: u32, parts: &[u32], picked: &mut [bool])
        requires sound { AreSound shapes.now self.now }
        requires count { length picked.old ≡ length shapes.now.signals }
        requires there { s ≤ length shapes.now.statements }
        requires ready { AreReady shapes.now s parts.now }
        requires noted { ArePartsNoted shapes.now self.now parts.now }
        ensures { ArePicked (design_of shapes.now) (selector_signals (design_of shapes.now) (sequence (map (statement_of shapes.now) parts.now))) picked.old picked.new }
    {
        for part in parts {
            self.pick_in(shapes, *part, picked);
        }
    }

    /// The same of statement s, whose cases were looked at.
    #[cycle(picking)]
    fn pick_in(&self, shapes: &Shapes, s: u32, picked: &mut [bool])
        requires sound { AreSound shapes.now self.now }
        requires count { length picked.old ≡ length shapes.now.signals }
        requires there { s < length shapes.now.statements }
        requires fit { fits_statement (statement_of shapes.now s) ≡ true }
        requires formed { is_formed_statement (design_of shapes.now) (statement_of shapes.now s) ≡ true }
        requires noted { AreNoted shapes.now self.now s }
        ensures { ArePicked (design_of shapes.now) (selector_signals (design_of shapes.now) (statement_of shapes.now s)) picked.old picked.new }
    {
        match statement_node(shapes, s) {
            Statement::Empty => {}
            Statement::Assign { .. } => {}
            Statement::If { yes, no, .. } => {
                self.pick_in(shapes, *yes, picked);
                self.pick_branch(shapes, s, *no, picked);
            }
            Statement::Case {
                kind: _,
                of,
                arms,
                other,
            } => {
                self.pick_subject(shapes, s, *of, picked);
                self.pick_arms(shapes, s, arms.as_slice(), *other, picked);
            }
            Statement::Seq { parts } => self.pick_all(shapes, s, parts.as_slice(), picked),
        }
    }

    /// The same of process p, where its block is accepted as a completed one alone.
    fn pick_process(&self, shapes: &Shapes, p: u32, picked: &mut [bool])
        requires noted { AreAllNoted shapes.now self.now }
        requires fits { list_all fits_process (design_of shapes.now).processes ≡ true }
        requires count { length picked.old ≡ length shapes.now.signals }
        requires there { p < length shapes.now.processes }
        ensures { (x : D.Process) → slice_get (design_of shapes.now).processes p ≡ Some x → ArePicked (design_of shapes.now) (block_selector_signals (design_of shapes.now) x) picked.old picked.new }
    {
        trees_law();
        names_law();
        let flat = shapes.flat();
        if !self.is_lenient(p) {
            return;
        }
        match &flat.process(p).kind {
            Kind::Assign { .. } => {}
            Kind::Block { statement, .. } => self.pick_in(shapes, *statement, picked),
        }
    }

    /// The first bits of the select inputs, in order of declaration.
    pub fn select_firsts(&self, alloc: Global, shapes: &Shapes) -> Result<Vec<u32>, AllocError>
        requires noted { AreAllNoted shapes.now self.now }
        requires fits { list_all fits_process (design_of shapes.now).processes ≡ true }
        ensures { IfOk result (λ v. v.items ≡ select_firsts (design_of shapes.now)) }
    {
        trees_law();
        let flat = shapes.flat();
        let mut picked = vec![in alloc; false; flat.signal_count() as usize]?;
        for p in 0..flat.process_count() {
            self.pick_process(shapes, p, picked.as_mut_slice());
        }
        firsts_of(alloc, flat, picked.as_slice())
    }
}

/// Marks this number, if there is one.
fn mark_root(picked: &mut [bool], root: Option<u32>)
    requires { IsRootBelow (length picked.old) root }
    ensures { picked.new ≡ with_mark picked.old root }
{
    match root {
        Some(root) => {
            picked[root as usize] = true;
        }
        None => {}
    }
}

/// Whether signal n is an input that is marked.
fn is_select(flat: &Flat, picked: &[bool], n: u32) -> bool
    requires lawful { IsLawful flat.now }
    requires there { n < length flat.now.signals }
    requires count { length picked.now ≡ length flat.now.signals }
    ensures { result ≡ ((signal_at (arena_signals flat.now) n).input && slice_index_or picked.now n false) }
{
    trees_law();
    flat.signal(n).input && picked[n as usize]
}

/// Adds the first bit of signal n, where it is chosen.
fn push_first(flat: &Flat, n: u32, chosen: bool, firsts: &mut Vec<u32>) -> Result<(), AllocError>
    requires { n < length flat.now.signals }
    ensures { OnOk result (firsts.new.items ≡ firsts.old.items ++ (if chosen then ((signal_at (arena_signals flat.now) n).first ∷ []) else [])) }
{
    trees_law();
    if !chosen {
        return Ok(());
    }
    firsts.push(flat.signal(n).first_bit)?;
    Ok(())
}

/// The first bits of the inputs that are marked.
fn firsts_of(alloc: Global, flat: &Flat, picked: &[bool]) -> Result<Vec<u32>, AllocError>
    requires lawful { IsLawful flat.now }
    requires count { length picked.now ≡ length flat.now.signals }
    ensures { (numbers : List ℕ) → ((n : ℕ) → n < length flat.now.signals → slice_index_or picked.now n false ≡ contains numbers n) → IfOk result (λ v. v.items ≡ map (λ s. s.first) (filter (λ s. contains numbers s.number) (D.top_inputs (design_of flat.now)))) }
{
    trees_law();
    let mut firsts = Vec::new(alloc);
    for n in 0..flat.signal_count() {
        let chosen = is_select(flat, picked, n);
        push_first(flat, n, chosen, &mut firsts)?;
    }
    Ok(firsts)
}
