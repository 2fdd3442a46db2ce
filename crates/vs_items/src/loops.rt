//! What loops did so far, in the order in which scopes are read (IEEE 1364-2005, 9.6).

ghost use Rattle.std.specs.Prelude.{◌≡◌, ◌+◌, ◌++◌, ◌∷◌, [], OnOk, map};
ghost use Rattle.std.specs.List.{list_any};
ghost use Rattle.vs_const.specs.Faults.{fault_if, least};
ghost use Rattle.vs_const.specs.declared.rules.Rule.TheVariants.{LoopVariable};
ghost use Rattle.vs_elaborated.specs.Heads as spec;
ghost use Rattle.vs_elaborated.specs.Surveys as survey;
ghost use Rattle.vs_items.specs.Loops.{and_head, and_heads, head, integer_of};

use indexmap::IndexSet;
use std::alloc::{AllocError, Global};
use std::marker::Model;
use vs_const::{Fault, Rule, fault_if, first_of};

/// An integer of a scope of the design, by the place of its name.
#[derive(Clone, Copy, PartialEq, Eq, Hash, Debug)]
pub(crate) struct Integer {
    pub(crate) scope: u32,
    pub(crate) place: u32,
}

/// An integer that heads a loop, and where the loop names it.
#[derive(Clone, Copy, Debug)]
pub(crate) struct Head {
    pub(crate) integer: Integer,
    pub(crate) at: u32,
}

/// What loops did so far: how many statements those of blocks and of functions copied, and the integers that head those of blocks, one after the other,
/// and which they are.
#[derive(Drop)]
pub struct Loops {
    copies: u32,
    headed: Vec<Integer>,
    known: IndexSet<Integer>,
}

impl Model for Loops {
    ghost use Rattle.std.specs.Prelude.{map};
    ghost use Rattle.vs_elaborated.specs.Surveys as survey;
    ghost use Rattle.vs_items.specs.Loops.{AreKnown, integer_of};

    ghost Value = { survey.Loops };

    ghost view = { λ l. record { copies = l.copies; headed = map integer_of l.headed.items } };

    ghost invariant = { λ l. AreKnown l.known.keys l.headed.items };
}

impl Loops {
    /// Before any. It takes no memory.
    pub fn new(alloc: Global) -> Loops
        ensures { result ≡ survey.no_loops }
    {
        Loops {
            copies: 0,
            headed: Vec::new(alloc),
            known: IndexSet::new(alloc),
        }
    }

    /// How many statements they copied.
    pub fn copies(&self) -> u32
        ensures { result ≡ self.now.copies }
    {
        self.copies
    }

    /// So many copies with those of functions.
    pub fn set_copies(&mut self, copies: u32)
        ensures { self.new ≡ record { copies = copies; headed = self.old.headed } }
    {
        self.copies = copies;
    }

    /// So many statements more that loops copy. An error is more than 32 bits count, which are too many.
    pub(crate) fn add_copies(&mut self, copies: u32) -> Result<(), AllocError>
        ensures { OnOk result (self.new ≡ record { copies = self.old.copies + copies; headed = self.old.headed }) }
    {
        match self.copies().checked_add(copies) {
            None => Err(AllocError),
            Some(sum) => {
                self.set_copies(sum);
                Ok(())
            }
        }
    }

    /// Whether an integer heads a loop of a block before.
    fn is_headed(&self, i: Integer) -> bool
        ensures { result ≡ list_any (spec.same_integer (integer_of i)) self.now.headed }
    {
        self.known.contains(&i)
    }

    /// The fault of a loop whose integer heads a loop of a block before.
    fn head_fault(&self, h: &Head) -> Option<Fault>
        ensures { result ≡ least (fault_if (list_any (spec.same_integer (integer_of h.now.integer)) self.now.headed) LoopVariable h.now.at) }
    {
        let is_shared = self.is_headed(h.integer);
        fault_if(is_shared, Rule::LoopVariable, h.at)
    }

    /// The first fault of loops whose integers head loops of blocks before.
    pub(crate) fn shared_fault(&self, heads: &[Head]) -> Option<Fault>
        ensures { result ≡ least (spec.shared_heads self.now.headed (map head heads.now)) }
    {
        let mut fault = None;
        for h in heads {
            let found = self.head_fault(h);
            fault = first_of(fault, found);
        }
        fault
    }

    /// One more integer.
    fn add_head(&mut self, i: Integer) -> Result<(), AllocError>
        ensures { OnOk result (self.new ≡ and_head self.old i) }
    {
        self.headed.push(i)?;
        match self.known.insert(i) {
            Ok(_) => Ok(()),
            Err(_) => {
                self.headed.pop();
                Err(AllocError)
            }
        }
    }

    /// The integer of one head more.
    fn add_one(&mut self, h: &Head) -> Result<(), AllocError>
        ensures { OnOk result (self.new ≡ and_head self.old h.now.integer) }
    {
        self.add_head(h.integer)
    }

    /// The integers of these, too.
    fn add_heads(&mut self, heads: &[Head]) -> Result<(), AllocError>
        ensures { OnOk result (self.new ≡ and_heads self.old (map head heads.now)) }
    {
        for h in heads {
            self.add_one(h)?;
        }
        Ok(())
    }

    /// A block more, whose loops copy so many statements and have these heads. An error is want of memory; more copies than 32 bits count are too many,
    /// too.
    pub(crate) fn add(&mut self, copies: u32, heads: &[Head]) -> Result<(), AllocError>
        ensures { OnOk result (self.new ≡ record { copies = self.old.copies + copies; headed = self.old.headed ++ map (λ (h : spec.Head). h.integer) (map head heads.now) }) }
    {
        match self.copies().checked_add(copies) {
            None => Err(AllocError),
            Some(sum) => {
                self.add_heads(heads)?;
                self.set_copies(sum);
                Ok(())
            }
        }
    }
}
