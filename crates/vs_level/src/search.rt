//! The search for an order of the nodes of a graph.

ghost use Rattle.std.specs.Prelude.{◌≡◌, ◌<◌, [], true, length, reverse, IfOk, IfErr, OnOk, Some};
ghost use Rattle.vs_design.specs.Footprints.{contains};
ghost use Rattle.vs_level.specs.declared.search.Mark.TheVariants.{Fresh, Open};
ghost use Rattle.vs_level.specs.SortError.{IsSortError};
ghost use Rattle.vs_level.specs.Graph.{is_node, IsClosed, IsSorted};

use crate::graph::Graph;
use crate::turn::least_first;
use std::alloc::{AllocError, AllocFailed, Global};
use std::marker::Model;

/// How far the search has come with a process.
#[derive(Clone, Copy, PartialEq, Eq, Debug)]
enum Mark {
    /// It wasn't met yet.
    Fresh,
    /// It was met, and not all that feed it are placed.
    Open,
    /// It is placed.
    Placed,
}

/// Why the nodes of a graph have no order.
#[derive(Drop)]
pub(crate) enum SortError {
    /// These feed one another in a circle.
    Circle(Vec<u32>),
    /// There was not enough memory.
    Memory,
}

impl From<AllocError> for SortError {
    ghost use Rattle.vs_level.specs.declared.search.SortError.TheVariants.{Memory};

    ghost from_gives = { λ _ e. e ≡ Memory };

    fn from(_error: AllocError) -> SortError {
        SortError::Memory
    }
}

impl<T: Drop> From<AllocFailed<T>> for SortError {
    ghost use Rattle.vs_level.specs.declared.search.SortError.TheVariants.{Memory};

    ghost from_gives = { λ _ e. e ≡ Memory };

    fn from(_error: AllocFailed<T>) -> SortError {
        SortError::Memory
    }
}

/// A walk from nodes back to those that feed them, in which each is placed as soon as all that feed it are.
#[derive(Drop)]
struct Search {
    marks: Vec<Mark>,
    /// Of each process how many of its feeders may not be placed yet; these are the first ones.
    left: Vec<usize>,
    /// The open processes; each but the first feeds the one before.
    path: Vec<u32>,
    order: Vec<u32>,
}

impl Model for Search {
    ghost use Rattle.vs_level.specs.Search.{Progress, progress_of};

    ghost Value = { Progress };

    ghost view = { progress_of };
}

impl Search {
    ghost use Rattle.vs_level.specs.Search.{IsSearch, IsUpTo, KeepsMet, effort, first_of, left_at, looked, mark_at, opened, with_placed};

    /// A search that hasn't met any process.
    fn begin(alloc: Global, graph: &Graph) -> Result<Search, AllocError>
        ensures search { IfOk result (λ s. IsSearch graph.now s) }
        ensures path { IfOk result (λ s. s.path ≡ []) }
    {
        let marks = vec![in alloc; Mark::Fresh; graph.all_feeders().len()]?;
        let mut left = Vec::new(alloc);
        for feeders in graph.all_feeders() {
            left.push(feeders.len())?;
        }
        Ok(Search {
            marks,
            left,
            path: Vec::new(alloc),
            order: Vec::new(alloc),
        })
    }

    /// The process that was opened last, of those that are open.
    fn last(&self) -> Option<u32>
        ensures { result ≡ first_of self.now.path }
    {
        self.path.last().copied()
    }

    /// How far the search has come with process p.
    fn mark(&self, p: u32) -> Mark
        requires { p < length self.now.marks }
        ensures { result ≡ mark_at self.now p }
    {
        self.marks[p as usize]
    }

    /// How many of the feeders of process p may not be placed yet.
    fn left(&self, p: u32) -> usize
        requires { p < length self.now.left }
        ensures { result ≡ left_at self.now p }
    {
        self.left[p as usize]
    }

    /// So many of the feeders of process p may not be placed yet.
    fn skip(&mut self, p: u32, left: usize)
        requires { p < length self.old.left }
        ensures { self.new ≡ looked self.old p left }
    {
        self.left[p as usize] = left;
    }

    /// Opens a process.
    fn enter(&mut self, p: u32) -> Result<(), AllocError>
        requires { p < length self.old.marks }
        ensures { OnOk result (self.new ≡ opened self.old p) }
    {
        self.path.push(p)?;
        self.marks[p as usize] = Mark::Open;
        Ok(())
    }

    /// Places the process that was opened last.
    fn place(&mut self, p: u32) -> Result<(), AllocError>
        requires { p < length self.old.marks }
        ensures { OnOk result (self.new ≡ with_placed self.old p) }
    {
        self.order.push(p)?;
        let _ = self.path.pop();
        self.marks[p as usize] = Mark::Placed;
        Ok(())
    }

    /// The open processes up to this one, the last one first.
    fn path_to(&mut self, alloc: Global, q: u32) -> Result<Vec<u32>, AllocError>
        requires { contains self.old.path q ≡ true }
        ensures { IfOk result (λ v. IsUpTo self.old.path q v.items) }
    {
        let mut part = Vec::new(alloc);
        while let Some(p) = self.path.pop() {
            part.push(p)?;
            if p == q {
                break;
            }
        }
        Ok(part)
    }

    /// Looks at the last feeder of the last open process that may not be placed: it is opened, or it is placed already. Circle: it is open.
    fn look(&mut self, alloc: Global, graph: &Graph, p: u32) -> Result<(), SortError>
        requires closed { IsClosed graph.now }
        requires search { IsSearch graph.now self.old }
        requires last { first_of self.old.path ≡ Some p }
        requires some { 0 < left_at self.old p }
        ensures search { OnOk result (IsSearch graph.now self.new) }
        ensures nearer { OnOk result (effort self.new < effort self.old) }
        ensures met { OnOk result (KeepsMet self.old self.new) }
        ensures refused { IfErr result (IsSortError graph.now) }
    {
        let left = self.left(p) - 1;
        let q = graph.feeders(p)[left];
        match self.mark(q) {
            Mark::Fresh => self.enter(q)?,
            Mark::Open => return Err(SortError::Circle(least_first(self.path_to(alloc, q)?))),
            Mark::Placed => self.skip(p, left),
        }
        Ok(())
    }

    /// One step of the search, at the last open process: it is placed where all its feeders are.
    fn step(&mut self, alloc: Global, graph: &Graph, p: u32) -> Result<(), SortError>
        requires closed { IsClosed graph.now }
        requires search { IsSearch graph.now self.old }
        requires last { first_of self.old.path ≡ Some p }
        ensures search { OnOk result (IsSearch graph.now self.new) }
        ensures nearer { OnOk result (effort self.new < effort self.old) }
        ensures met { OnOk result (KeepsMet self.old self.new) }
        ensures refused { IfErr result (IsSortError graph.now) }
    {
        if self.left(p) == 0 {
            self.place(p)?;
            Ok(())
        } else {
            self.look(alloc, graph, p)
        }
    }

    /// Places a node that wasn't met yet, after all that feed it.
    fn visit(&mut self, alloc: Global, graph: &Graph, root: u32) -> Result<(), SortError>
        requires closed { IsClosed graph.now }
        requires search { IsSearch graph.now self.old }
        requires none { self.old.path ≡ [] }
        requires node { is_node graph.now root ≡ true }
        requires fresh { mark_at self.old root ≡ Fresh }
        ensures search { OnOk result (IsSearch graph.now self.new) }
        ensures none { OnOk result (self.new.path ≡ []) }
        ensures placed { OnOk result (contains self.new.placed root ≡ true) }
        ensures met { OnOk result (KeepsMet self.old self.new) }
        ensures refused { IfErr result (IsSortError graph.now) }
    {
        self.enter(root)?;
        while let Some(p) = self.last() {
            self.step(alloc, graph, p)?;
        }
        Ok(())
    }

    /// The placed processes in order.
    fn into_order(self) -> Vec<u32>
        ensures { reverse result.items ≡ self.placed }
    {
        let Search {
            marks: _,
            left: _,
            path: _,
            order,
        } = self;
        order
    }
}

/// The nodes in an order in which each stands after all that feed it. Circle: there is none, since some feed one another in a circle; the least of them comes first. The time is linear in the number of feeders.
pub(crate) fn sort(alloc: Global, graph: &Graph) -> Result<Vec<u32>, SortError>
    requires { IsClosed graph.now }
    ensures sorted { IfOk result (λ v. IsSorted graph.now v.items) }
    ensures refused { IfErr result (IsSortError graph.now) }
{
    let mut search = Search::begin(alloc, graph)?;
    for root in graph.nodes() {
        if let Mark::Fresh = search.mark(*root) {
            search.visit(alloc, graph, *root)?;
        }
    }
    Ok(search.into_order())
}
