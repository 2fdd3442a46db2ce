//! What is found of the cases of a design.

ghost use Rattle.std.specs.Prelude.{◌≡◌, ◌≤◌, ◌<◌, replicate, set, length, true, false, slice_index_or, Some, IfOk, OnOk};
ghost use Rattle.vs_design.specs.Elaborated.{is_formed_statement};
ghost use Rattle.vs_design.specs.Fits.{fits_arms, fits_statement, is_fit};
ghost use Rattle.vs_design.specs.Statements as T;
ghost use Rattle.vs_flat.specs.Arena.{Arena, statement_at};
ghost use Rattle.vs_flat.specs.DesignOf.{design_of};
ghost use Rattle.vs_flat.specs.declared.statements.Statement.TheVariants.{Case};
ghost use Rattle.vs_design.specs.Selects.{is_full};
ghost use Rattle.vs_sets.specs.Completing.{other_of};
ghost use Rattle.vs_sets.specs.Nodes.{tree_of};
ghost use Rattle.vs_sets.specs.StatementParts.{ArmsBelow, BranchBelow, arms_of, statement_of};
ghost use Rattle.vs_full.specs.Found.{AreArmsNoted, AreNoted, AreNotedIn, ArePartsNoted, AreReady, AreReadyArms, AreSound, HasRoom, IsCaseNoted, IsGrown, IsReadyIn, grown, put_case};

use crate::full::is_full;
use crate::roots::roots_of;
use std::alloc::{AllocError, Global};
use std::marker::Model;
use vs_base::CaseKind;
use vs_design::within_law;
use vs_flat::{Arm, Statement, count_bits, trees_law};
use vs_sets::{Defaults, Set4, last_arm, statement_node};
use vs_shape::Shapes;

/// What is found of the cases of a design: for each signal the input that it is or copies through ports, for each case that was looked at whether it is full, and the default that it has where its statement is completed, and for each process whether its block is accepted as a completed one alone.
#[derive(Drop)]
pub struct Cases {
    roots: Vec<Option<u32>>,
    known: Vec<Set4>,
    full: Vec<bool>,
    others: Vec<Option<u32>>,
    lenient: Vec<bool>,
}

impl Model for Cases {
    ghost use Rattle.vs_full.specs.Found.{Found};

    ghost Value = { Found };

    ghost view = { λ c. record { roots = c.roots.items; known = c.known.items; full = c.full.items; others = c.others.items; lenient = c.lenient.items } };
}

impl Cases {
    /// Of no case of the design anything is found.
    pub fn new(alloc: Global, shapes: &Shapes) -> Result<Cases, AllocError>
        ensures sound { IfOk result (AreSound shapes.now) }
        ensures none { IfOk result (λ c. c.lenient ≡ replicate (length shapes.now.processes) false) }
    {
        trees_law();
        let flat = shapes.flat();
        let roots = roots_of(alloc, flat)?;
        let known = vec![in alloc; Set4::known(); count_bits(flat) as usize]?;
        let lenient = vec![in alloc; false; flat.process_count() as usize]?;
        let full = Vec::new(alloc);
        let others = Vec::new(alloc);
        Ok(Cases {
            roots,
            known,
            full,
            others,
            lenient,
        })
    }

    /// The defaults of the cases that were looked at, as they stand or as completed ones.
    pub fn defaults(&self, complete: bool) -> Defaults<'_>
        ensures complete { result.complete ≡ complete }
        ensures others { result.others.now ≡ self.now.others }
    {
        Defaults {
            complete,
            others: self.others.as_slice(),
        }
    }

    /// Whether process p is a block that is accepted as a completed one alone.
    pub fn is_lenient(&self, p: u32) -> bool
        requires { p < length self.now.lenient }
        ensures { result ≡ slice_index_or self.now.lenient p false }
    {
        self.lenient[p as usize]
    }

    /// For each signal the input that it is or copies, where it is a select net.
    pub(crate) fn roots(&self) -> &[Option<u32>]
        ensures { result.now ≡ self.now.roots }
    {
        self.roots.as_slice()
    }

    /// Whether case s is noted as full.
    pub(crate) fn is_full(&self, s: u32) -> bool
        ensures { result ≡ slice_index_or self.now.full s false }
    {
        match self.full.get(s as usize) {
            Some(full) => *full,
            None => false,
        }
    }

    /// Notes whether the block of process p is accepted as a completed one alone.
    pub fn mark(&mut self, p: u32, lenient: bool)
        requires { p < length self.old.lenient }
        ensures { self.new ≡ (let c = self.old in record c { lenient = set c.lenient p lenient }) }
    {
        self.lenient[p as usize] = lenient;
    }

    /// For how many statements there is room.
    fn room(&self) -> usize
        ensures { result ≡ length self.now.others }
    {
        self.others.len()
    }

    /// A table of bits that are all known.
    fn known(&self) -> &[Set4]
        ensures { result.now ≡ self.now.known }
    {
        self.known.as_slice()
    }

    /// Makes room for one statement more.
    fn grow(&mut self) -> Result<(), AllocError>
        ensures { OnOk result (self.new ≡ grown self.old) }
    {
        self.others.push(None)?;
        self.full.push(false)?;
        Ok(())
    }

    /// Makes room for statement s and all before it.
    fn reach(&mut self, shapes: &Shapes, s: u32) -> Result<(), AllocError>
        requires sound { AreSound shapes.now self.old }
        ensures { OnOk result (IsGrown shapes.now self.old self.new (λ c. HasRoom c s)) }
    {
        for _n in self.room()..s as usize + 1 {
            self.grow()?;
        }
        Ok(())
    }

    /// Notes whether case s is full, and its default.
    fn put(&mut self, s: u32, full: bool, default: Option<u32>)
        requires room { HasRoom self.old s }
        requires both { length self.old.full ≡ length self.old.others }
        ensures { self.new ≡ put_case self.old s full default }
    {
        self.full[s as usize] = full;
        self.others[s as usize] = default;
    }

    /// The default of a case that is completed: what its last possible arm does, where it is full.
    fn default_then(
        &self,
        alloc: Global,
        shapes: &Shapes,
        full: bool,
        kind: CaseKind,
        of: u32,
        arms: &[Arm],
        other: Option<u32>,
    ) -> Result<Option<u32>, AllocError>
        requires sound { AreSound shapes.now self.now }
        requires full { full ≡ is_full (design_of shapes.now) kind (tree_of shapes.now of) (arms_of shapes.now other arms.now) }
        requires of_there { of < length shapes.now.nodes }
        requires there { ArmsBelow (length shapes.now.nodes) (length shapes.now.statements) arms.now }
        requires of_fit { is_fit (tree_of shapes.now of) ≡ true }
        requires fit { fits_arms (arms_of shapes.now other arms.now) ≡ true }
        requires formed { is_formed_statement (design_of shapes.now) (T.Case kind (tree_of shapes.now of) (arms_of shapes.now other arms.now)) ≡ true }
        ensures { IfOk result (λ o. o ≡ other_of shapes.now kind of arms.now other) }
    {
        within_law();
        let _ = shapes.flat();
        if !full {
            return Ok(other);
        }
        let last = last_arm(alloc, shapes, self.known(), kind, of, arms, other)?;
        Ok(last)
    }

    /// Looks at case s.
    fn note_case(
        &mut self,
        alloc: Global,
        shapes: &Shapes,
        s: u32,
        kind: CaseKind,
        of: u32,
        arms: &[Arm],
        other: Option<u32>,
    ) -> Result<(), AllocError>
        requires sound { AreSound shapes.now self.old }
        requires room { HasRoom self.old s }
        requires is { statement_at shapes.now s ≡ Some (Case kind of arms.now other) }
        requires of_there { of < length shapes.now.nodes }
        requires there { ArmsBelow (length shapes.now.nodes) (length shapes.now.statements) arms.now }
        requires other_there { BranchBelow (length shapes.now.statements) other }
        requires of_fit { is_fit (tree_of shapes.now of) ≡ true }
        requires fit { fits_arms (arms_of shapes.now other arms.now) ≡ true }
        requires formed { is_formed_statement (design_of shapes.now) (T.Case kind (tree_of shapes.now of) (arms_of shapes.now other arms.now)) ≡ true }
        ensures { OnOk result (IsGrown shapes.now self.old self.new (λ c. IsCaseNoted shapes.now c s)) }
    {
        let full = is_full(alloc, shapes, self.roots(), kind, of, arms, other)?;
        let default = self.default_then(alloc, shapes, full, kind, of, arms, other)?;
        self.put(s, full, default);
        Ok(())
    }

    /// Looks at the cases in a branch before s.
    #[cycle(noting)]
    fn note_branch(
        &mut self,
        alloc: Global,
        shapes: &Shapes,
        s: u32,
        part: Option<u32>,
    ) -> Result<(), AllocError>
        requires sound { AreSound shapes.now self.old }
        requires room { s ≤ length self.old.others }
        requires there { s ≤ length shapes.now.statements }
        requires ready { IsReadyIn shapes.now s part }
        ensures { OnOk result (IsGrown shapes.now self.old self.new (λ c. AreNotedIn shapes.now c part)) }
    {
        match part {
            Some(n) => {
                self.note_in(alloc, shapes, n)?;
                Ok(())
            }
            None => Ok(()),
        }
    }

    /// Looks at the cases in arms, whose statements are before s.
    #[cycle(noting)]
    fn note_arms(
        &mut self,
        alloc: Global,
        shapes: &Shapes,
        s: u32,
        arms: &[Arm],
    ) -> Result<(), AllocError>
        requires sound { AreSound shapes.now self.old }
        requires room { s ≤ length self.old.others }
        requires there { s ≤ length shapes.now.statements }
        requires ready { AreReadyArms shapes.now s arms.now }
        ensures { OnOk result (IsGrown shapes.now self.old self.new (λ c. AreArmsNoted shapes.now c arms.now)) }
    {
        for arm in arms {
            self.note_in(alloc, shapes, arm.statement)?;
        }
        Ok(())
    }

    /// Looks at the cases in statements before s.
    #[cycle(noting)]
    fn note_parts(
        &mut self,
        alloc: Global,
        shapes: &Shapes,
        s: u32,
        parts: &[u32],
    ) -> Result<(), AllocError>
        requires sound { AreSound shapes.now self.old }
        requires room { s ≤ length self.old.others }
        requires there { s ≤ length shapes.now.statements }
        requires ready { AreReady shapes.now s parts.now }
        ensures { OnOk result (IsGrown shapes.now self.old self.new (λ c. ArePartsNoted shapes.now c parts.now)) }
    {
        for part in parts {
            self.note_in(alloc, shapes, *part)?;
        }
        Ok(())
    }

    /// Looks at the cases in statement s, for which there is room.
    #[cycle(noting)]
    fn note_in(&mut self, alloc: Global, shapes: &Shapes, s: u32) -> Result<(), AllocError>
        requires sound { AreSound shapes.now self.old }
        requires room { HasRoom self.old s }
        requires there { s < length shapes.now.statements }
        requires fit { fits_statement (statement_of shapes.now s) ≡ true }
        requires formed { is_formed_statement (design_of shapes.now) (statement_of shapes.now s) ≡ true }
        ensures { OnOk result (IsGrown shapes.now self.old self.new (λ c. AreNoted shapes.now c s)) }
    {
        match statement_node(shapes, s) {
            Statement::Empty => Ok(()),
            Statement::Assign { .. } => Ok(()),
            Statement::If { yes, no, .. } => {
                self.note_in(alloc, shapes, *yes)?;
                self.note_branch(alloc, shapes, s, *no)?;
                Ok(())
            }
            Statement::Case {
                kind,
                of,
                arms,
                other,
            } => {
                self.note_case(alloc, shapes, s, *kind, *of, arms.as_slice(), *other)?;
                self.note_arms(alloc, shapes, s, arms.as_slice())?;
                self.note_branch(alloc, shapes, s, *other)?;
                Ok(())
            }
            Statement::Seq { parts } => {
                self.note_parts(alloc, shapes, s, parts.as_slice())?;
                Ok(())
            }
        }
    }

    /// Looks at the cases in statement s.
    pub fn note(&mut self, alloc: Global, shapes: &Shapes, s: u32) -> Result<(), AllocError>
        requires sound { AreSound shapes.now self.old }
        requires there { s < length shapes.now.statements }
        requires fit { fits_statement (statement_of shapes.now s) ≡ true }
        requires formed { is_formed_statement (design_of shapes.now) (statement_of shapes.now s) ≡ true }
        ensures { OnOk result (IsGrown shapes.now self.old self.new (λ c. AreNoted shapes.now c s)) }
    {
        self.reach(shapes, s)?;
        self.note_in(alloc, shapes, s)?;
        Ok(())
    }
}
