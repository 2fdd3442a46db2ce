//! The sets of bits after a statement (IEEE 1364-2005, clause 9).

ghost use Rattle.std.specs.Prelude.{◌≡◌, ◌≤◌, ◌<◌, ◌+◌, ℕ, Bool, suc, length, map, true, Some, IfOk, OnOk, All, if◌then◌else◌, slice_index};
ghost use Rattle.vs_design.specs.Expressions as E;
ghost use Rattle.vs_design.specs.Statements as T;
ghost use Rattle.vs_design.specs.Fits.{fits_arms, fits_statement};
ghost use Rattle.vs_design.specs.Lifted as L;
ghost use Rattle.vs_design.specs.LiftedBodies.{lifted_body};
ghost use Rattle.vs_design.specs.Sets.{Set4 as SetOf, set_or};
ghost use Rattle.vs_design.specs.Sleepers.{at_once};
ghost use Rattle.vs_design.specs.Within.{arms_within, statement_within};
ghost use Rattle.vs_flat.specs.Arena.{Arena, statement_at};
ghost use Rattle.vs_flat.specs.Trees.{branch, sequence};
ghost use Rattle.vs_flat.specs.declared.statements.Statement.TheVariants.{Case};
ghost use Rattle.vs_sets.specs.Branches.{branch_sets, taken_branches};
ghost use Rattle.vs_sets.specs.Calls.{NamesBelow};
ghost use Rattle.vs_sets.specs.Completing.{AreDefaults, HasDefaults, IsNext, done, node_done, other_of};
ghost use Rattle.vs_sets.specs.Matches.{IsEither, branches_of};
ghost use Rattle.vs_sets.specs.StatementParts.{ArmsBelow, FitStatement, HasStatementNames, BranchBelow, BranchFacts, Covers, EachRuns, HasTargets, WithinStatement, arms_of, place_of_statement, statement_of, statement_of_node, tree_with};
ghost use Rattle.vs_sets.specs.Tables.{family_of};

use crate::Set4;
use crate::branches::{put_back, sets_of, unite};
use crate::cases::case_branches;
use crate::contexts::own_context;
use crate::defaults::Defaults;
use crate::folds::set_or;
use crate::lifter::Lifter;
use crate::targets::assign;
use std::alloc::{AllocError, Global};
use vs_base::CaseKind;
use vs_flat::{Arm, Statement, lawful_law, names_law, trees_law};
use vs_four::Bit4;
use vs_shape::Shapes;

/// Statement s of a lawful design, of which nothing is over 64 bits: what it names is there, and holds too.
pub fn statement_node(shapes: &Shapes, s: u32) -> &Statement
    requires there { s < length shapes.now.statements }
    requires fit { fits_statement (statement_of shapes.now s) ≡ true }
    ensures is { statement_at shapes.now s ≡ Some result.now }
    ensures names { HasStatementNames (length shapes.now.nodes) s result.now }
    ensures tree { statement_of shapes.now s ≡ statement_of_node shapes.now (place_of_statement shapes.now s) result.now }
    ensures parts { FitStatement (statement_of_node shapes.now (place_of_statement shapes.now s) result.now) }
    ensures targets { HasTargets shapes.now result.now }
{
    names_law();
    trees_law();
    lawful_law();
    shapes.flat().statement(s)
}

/// The branches of an `if` (IEEE 1364-2005, 9.4) that a condition with this truth set may take.
fn if_branches(
    alloc: Global,
    condition: Set4,
    taken: u32,
    other: Option<u32>,
) -> Result<Vec<Option<u32>>, AllocError>
    ensures from { IfOk result (λ v. All (IsEither taken other) v.items) }
    ensures some { IfOk result (λ v. 1 ≤ length v.items) }
    ensures taken { (st : ℕ → T.Statement) → IfOk result (λ v. branches_of st v.items ≡ taken_branches condition (at_once (st taken)) (at_once (branch st other))) }
{
    let mut branches = Vec::new(alloc);
    if condition.has(Bit4::One) {
        branches.push(Some(taken))?;
        if !condition.is_only_one() {
            branches.push(other)?;
        }
    } else {
        branches.push(other)?;
    }
    Ok(branches)
}

/// What statements of a design run with: memory, a number of expressions that have all that they name among them, and the bits that they write, or more. They run as they stand, or as completed ones: then there is for each case among them the default that it has.
#[derive(Drop)]
pub(crate) struct Runner<'a> {
    pub(crate) alloc: Global,
    pub(crate) shapes: &'a Shapes,
    pub(crate) nodes: u32,
    pub(crate) bits: &'a [u32],
    pub(crate) defaults: &'a Defaults<'a>,
    ghost few: { nodes ≤ length shapes.now.nodes },
}

impl Runner<'_> {
    /// Statement s, which names bits among the first of a table alone.
    fn statement(&self, s: u32) -> &Statement
        requires there { s < length self.now.shapes.now.statements }
        requires fit { fits_statement (statement_of self.now.shapes.now s) ≡ true }
        requires below { NamesBelow self.now.shapes.now self.now.nodes (suc s) }
        ensures is { statement_at self.now.shapes.now s ≡ Some result.now }
        ensures names { HasStatementNames self.now.nodes s result.now }
        ensures tree { statement_of self.now.shapes.now s ≡ statement_of_node self.now.shapes.now (place_of_statement self.now.shapes.now s) result.now }
        ensures done { (complete : Bool) → done complete self.now.shapes.now s ≡ tree_with self.now.shapes.now (done complete self.now.shapes.now) (place_of_statement self.now.shapes.now s) (node_done complete self.now.shapes.now result.now) }
        ensures parts { FitStatement (statement_of_node self.now.shapes.now (place_of_statement self.now.shapes.now s) result.now) }
        ensures targets { HasTargets self.now.shapes.now result.now }
        ensures within { (n : ℕ) → statement_within n (statement_of self.now.shapes.now s) ≡ true → WithinStatement n (statement_of_node self.now.shapes.now (place_of_statement self.now.shapes.now s) result.now) }
    {
        statement_node(self.shapes, s)
    }

    /// The default of case s, which as it stands has this one. It is that one, or what an arm does, or nothing.
    fn default_of(
        &self,
        s: u32,
        kind: CaseKind,
        of: u32,
        arms: &[Arm],
        other: Option<u32>,
    ) -> Option<u32>
        requires is { statement_at self.now.shapes.now s ≡ Some (Case kind of arms.now other) }
        requires defaults { AreDefaults self.now.shapes.now self.now.defaults.now.complete self.now.defaults.now.others.now s }
        ensures is { result ≡ (if self.now.defaults.now.complete then other_of self.now.shapes.now kind of arms.now other else other) }
        ensures one { IsNext arms.now other result }
        ensures fit { fits_arms (arms_of self.now.shapes.now other arms.now) ≡ true → fits_arms (arms_of self.now.shapes.now result arms.now) ≡ true }
        ensures within { (n : ℕ) → arms_within n (arms_of self.now.shapes.now other arms.now) ≡ true → arms_within n (arms_of self.now.shapes.now result arms.now) ≡ true }
        ensures below { (n : ℕ) → ArmsBelow n s arms.now → BranchBelow s other → BranchBelow s result }
    {
        self.defaults.default_of(s, other)
    }

    /// Lets a statement run on a table of sets, of which the bits alone change; each `<=` is taken as a `=`. Where memory is wanting the table is left between.
    #[cycle(lifting)]
    pub(crate) fn run(&self, s: u32, table: &mut [Set4]) -> Result<(), AllocError>
        requires there { s < length self.now.shapes.now.statements }
        requires fit { fits_statement (statement_of self.now.shapes.now s) ≡ true }
        requires below { NamesBelow self.now.shapes.now self.now.nodes (suc s) }
        requires names { statement_within (length table.old) (statement_of self.now.shapes.now s) ≡ true }
        requires within { All (λ b. b < length table.old) self.now.bits.now }
        requires covers { Covers self.now.bits.now (statement_of self.now.shapes.now s) }
        requires defaults { AreDefaults self.now.shapes.now self.now.defaults.now.complete self.now.defaults.now.others.now s }
        ensures { OnOk result (family_of table.new ≡ lifted_body (at_once (done self.now.defaults.now.complete self.now.shapes.now s)) (family_of table.old)) }
    {
        match self.statement(s) {
            Statement::Empty => Ok(()),
            Statement::Assign { target, expr, .. } => {
                assign(self.alloc, self.shapes, *target, *expr, table)
            }
            Statement::If { c, yes, no } => {
                let lifter = Lifter {
                    alloc: self.alloc,
                    shapes: self.shapes,
                    table,
                };
                let condition = lifter.lifted(*c, own_context(self.shapes, *c))?;
                let truth = set_or(condition.as_slice());
                let branches = if_branches(self.alloc, truth, *yes, *no)?;
                self.join(s, branches.as_slice(), table)
            }
            Statement::Case {
                kind,
                of,
                arms,
                other,
            } => {
                let lifter = Lifter {
                    alloc: self.alloc,
                    shapes: self.shapes,
                    table,
                };
                let default = self.default_of(s, *kind, *of, arms.as_slice(), *other);
                let branches = case_branches(
                    &lifter,
                    self.nodes,
                    *kind,
                    *of,
                    arms.as_slice(),
                    default,
                )?;
                self.join(s, branches.as_slice(), table)
            }
            Statement::Seq { parts } => self.run_all(s, parts.as_slice(), table),
        }
    }

    /// Lets statements before s run one after the other.
    #[cycle(lifting)]
    fn run_all(&self, s: u32, parts: &[u32], table: &mut [Set4]) -> Result<(), AllocError>
        requires there { s ≤ length self.now.shapes.now.statements }
        requires below { NamesBelow self.now.shapes.now self.now.nodes s }
        requires each { EachRuns self.now.shapes.now (length table.old) s self.now.bits.now parts.now }
        requires defaults { (k : ℕ) → k < length parts.now → AreDefaults self.now.shapes.now self.now.defaults.now.complete self.now.defaults.now.others.now (slice_index parts.now k) }
        requires within { All (λ b. b < length table.old) self.now.bits.now }
        ensures { OnOk result (family_of table.new ≡ lifted_body (at_once (sequence (map (done self.now.defaults.now.complete self.now.shapes.now) parts.now))) (family_of table.old)) }
    {
        for part in parts {
            self.run(*part, table)?;
        }
        Ok(())
    }

    /// Lets a branch before s run. One that isn't there does nothing.
    #[cycle(lifting)]
    fn run_branch(&self, s: u32, part: Option<u32>, table: &mut [Set4]) -> Result<(), AllocError>
        requires there { s ≤ length self.now.shapes.now.statements }
        requires below { NamesBelow self.now.shapes.now self.now.nodes s }
        requires runs { BranchFacts self.now.shapes.now (length table.old) s self.now.bits.now part }
        requires defaults { HasDefaults self.now.shapes.now self.now.defaults.now.complete self.now.defaults.now.others.now part }
        requires within { All (λ b. b < length table.old) self.now.bits.now }
        ensures { OnOk result (family_of table.new ≡ lifted_body (at_once (branch (done self.now.defaults.now.complete self.now.shapes.now) part)) (family_of table.old)) }
    {
        match part {
            Some(n) => self.run(n, table),
            None => Ok(()),
        }
    }

    /// Lets branches before s run that start from the same sets, and joins what they leave bit by bit.
    #[cycle(lifting)]
    fn join(&self, s: u32, branches: &[Option<u32>], table: &mut [Set4]) -> Result<(), AllocError>
        requires there { s ≤ length self.now.shapes.now.statements }
        requires below { NamesBelow self.now.shapes.now self.now.nodes s }
        requires some { 1 ≤ length branches.now }
        requires runs { All (BranchFacts self.now.shapes.now (length table.old) s self.now.bits.now) branches.now }
        requires defaults { All (HasDefaults self.now.shapes.now self.now.defaults.now.complete self.now.defaults.now.others.now) branches.now }
        requires within { All (λ b. b < length table.old) self.now.bits.now }
        ensures { OnOk result (family_of table.new ≡ branch_sets (branches_of (done self.now.defaults.now.complete self.now.shapes.now) branches.now) (family_of table.old)) }
    {
        if branches.len() == 1 {
            return self.run_branch(s, branches[0], table);
        }
        let (left, right) = branches.split_at(branches.len() / 2);
        let start = sets_of(self.alloc, table, self.bits)?;
        self.join(s, left, table)?;
        let first = sets_of(self.alloc, table, self.bits)?;
        put_back(table, self.bits, start.as_slice());
        self.join(s, right, table)?;
        unite(table, self.bits, first.as_slice());
        Ok(())
    }
}

/// Lets a statement run on a table of sets, which has a set for each bit that it names; of them these bits alone change. It runs as it stands, or as completed, with these defaults of its cases. Each `<=` is taken as a `=`. Where memory is wanting the table is left between.
pub fn run(
    alloc: Global,
    shapes: &Shapes,
    defaults: &Defaults<'_>,
    s: u32,
    bits: &[u32],
    table: &mut [Set4],
) -> Result<(), AllocError>
    requires there { s < length shapes.now.statements }
    requires fit { fits_statement (statement_of shapes.now s) ≡ true }
    requires names { statement_within (length table.old) (statement_of shapes.now s) ≡ true }
    requires within { All (λ b. b < length table.old) bits.now }
    requires covers { Covers bits.now (statement_of shapes.now s) }
    requires defaults { AreDefaults shapes.now defaults.now.complete defaults.now.others.now s }
    ensures { OnOk result (family_of table.new ≡ lifted_body (at_once (done defaults.now.complete shapes.now s)) (family_of table.old)) }
{
    names_law();
    let nodes = shapes.flat().expr_count();
    let runner = Runner {
        alloc,
        shapes,
        nodes,
        bits,
        defaults,
    };
    runner.run(s, table)
}
