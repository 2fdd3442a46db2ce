//! A graph of processes.

use std::alloc::{AllocError, Global};
use std::marker::Model;
use vs_base::List;

/// Which processes are to be put in order, and for each process the list of those that feed it.
#[derive(Drop)]
pub(crate) struct Graph {
    nodes: Vec<u32>,
    feeders: Vec<List<u32>>,
}

impl Model for Graph {
    ghost use Rattle.vs_level.specs.Graph.{Feeding};
    ghost use Rattle.vs_level.specs.Kept.{feeding_of};

    ghost Value = { Feeding };

    ghost view = { feeding_of };
}

impl Graph {
    ghost use Rattle.std.specs.Prelude.{◌≡◌, ◌<◌, [], length, OnOk};
    ghost use Rattle.vs_level.specs.Feeders.{with_node, with_other};
    ghost use Rattle.vs_level.specs.Graph.{feeders_at};

    /// A graph without processes.
    pub(crate) fn new(alloc: Global) -> Graph
        ensures { result ≡ record { nodes = []; feeders = [] } }
    {
        Graph {
            nodes: Vec::new(alloc),
            feeders: Vec::new(alloc),
        }
    }

    /// Adds the next process, p, which is a node, with what feeds it.
    pub(crate) fn add_node(&mut self, p: u32, feeders: List<u32>) -> Result<(), AllocError>
        ensures { OnOk result (self.new ≡ with_node self.old p feeders) }
    {
        self.nodes.push(p)?;
        self.feeders.push(feeders)?;
        Ok(())
    }

    /// Adds the next process, which is no node.
    pub(crate) fn add_other(&mut self, alloc: Global) -> Result<(), AllocError>
        ensures { OnOk result (self.new ≡ with_other self.old) }
    {
        self.feeders.push(List::of(Vec::new(alloc)))?;
        Ok(())
    }

    /// The processes that are to be put in order.
    pub(crate) fn nodes(&self) -> &[u32]
        ensures { result.now ≡ self.now.nodes }
    {
        self.nodes.as_slice()
    }

    /// For each process what feeds it.
    pub(crate) fn all_feeders(&self) -> &[List<u32>]
        ensures { result.now ≡ self.now.feeders }
    {
        self.feeders.as_slice()
    }

    /// What feeds process p.
    pub(crate) fn feeders(&self, p: u32) -> &[u32]
        requires { p < length self.now.feeders }
        ensures { result.now ≡ feeders_at self.now p }
    {
        self.feeders[p as usize].as_slice()
    }
}
