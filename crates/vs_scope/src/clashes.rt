//! The names of blocks among the names of their scope (IEEE 1364-2005, 12.4.3 and 12.7).

ghost use Rattle.std.specs.Prelude.{◌≡◌, ◌++◌, ◌∷◌, [], None, IfOk, OnOk, List, ℕ, false, map, flat_map};
ghost use Rattle.vs_ast.specs.Views as view;
ghost use Rattle.vs_const.specs.Faults.{least, fault_if};
ghost use Rattle.vs_elaborated.specs.Environments.{find_entry};
ghost use Rattle.vs_elaborated.specs.Surveys as spec;
ghost use Rattle.vs_scope.specs.Clashes.{AreNew, IsBehind, block_of, blocks_of, clash_faults, label_entry, text_of};
ghost use Rattle.vs_scope.specs.Made as code;
ghost use Rattle.vs_maps.specs.Sets.{has};
ghost use Rattle.vs_scope.specs.Surveys.{MeanTheSame};
ghost use Rattle.vs_scope.specs.Views.{entries};

use crate::made::{BlockName, Made};
use crate::names::{Declaration, Declared, Entry, Names, Sort};
use crate::texts::name_text;
use std::alloc::{AllocError, Global};
use vs_ast::Name;
use vs_const::{Fault, Rule, fault_at, fault_if, first_of};
use vs_maps::NameSet;

/// A block's name as text, and where it stands.
#[derive(Drop)]
pub(crate) struct NamedBlock {
    pub(crate) text: Vec<u8>,
    pub(crate) place: u32,
}

/// Where a block's name stands.
fn block_place(name: BlockName<'_>) -> u32
    ensures { result ≡ (code.block_name name.entry).place }
{
    match name {
        BlockName::Written(n) => n.place,
        BlockName::Numbered { place, .. } => place,
    }
}

/// One name more.
fn push_name(
    blocks: &mut Vec<NamedBlock>,
    alloc: Global,
    name: BlockName<'_>,
) -> Result<(), AllocError>
    ensures { OnOk result (map block_of blocks.new.items ≡ map block_of blocks.old.items ++ text_of name.entry ∷ []) }
{
    let text = name_text(alloc, name)?;
    let place = block_place(name);
    blocks.push(NamedBlock { text, place })?;
    Ok(())
}

/// These names as text.
fn named_blocks(alloc: Global, names: &[BlockName<'_>]) -> Result<Vec<NamedBlock>, AllocError>
    ensures { IfOk result (λ bs. map block_of bs.items ≡ map text_of names.now) }
{
    let mut blocks = Vec::new(alloc);
    for name in names {
        push_name(&mut blocks, alloc, *name)?;
    }
    Ok(blocks)
}

/// The names that all items declare.
fn all_names<'a>(alloc: Global, made: &[Made<'a>]) -> Result<Vec<BlockName<'a>>, AllocError>
    ensures { IfOk result (λ names. map code.block_name names.items ≡ blocks_of made.now) }
{
    let mut names = Vec::new(alloc);
    for m in made {
        names.extend_from_slice(m.names.as_slice())?;
    }
    Ok(names)
}

/// The fault of a block's name that is declared, too: the later one has it.
fn declared_fault(names: &Names<'_>, b: &NamedBlock) -> Option<Fault>
    ensures { result ≡ least (spec.clash_with b.now.place (find_entry (entries names.now) b.now.text.items)) }
{
    match names.find(b.text.as_slice()) {
        None => None,
        Some(e) => fault_at(Rule::DuplicateName, b.place.max(e.first.name.place)),
    }
}

/// The first block whose name is that of a declaration, or of a block before it.
fn clash_fault(
    alloc: Global,
    names: &Names<'_>,
    blocks: &[NamedBlock],
) -> Result<Option<Fault>, AllocError>
    ensures { IfOk result (λ f. f ≡ least (clash_faults (entries names.now) [] (map block_of blocks.now))) }
{
    let mut seen = NameSet::new(alloc);
    let mut fault = None;
    for b in blocks {
        let text = b.text.as_slice();
        let declared = declared_fault(names, b);
        let again = fault_if(seen.contains(text), Rule::DuplicateName, b.place);
        let both = first_of(declared, again);
        fault = first_of(fault, both);
        seen.add(text)?;
    }
    Ok(fault)
}

impl<'a> Names<'a> {
    /// The name of a block, unless it is declared already.
    fn declare_block(&mut self, label: &'a Name) -> Result<(), AllocError>
        ensures same { OnOk result (MeanTheSame (entries self.new) (entries self.old ++ label_entry (view.name label.now) ∷ [])) }
        ensures new { OnOk result (find_entry (entries self.old) (view.name label.now).bytes ≡ None → entries self.new ≡ entries self.old ++ label_entry (view.name label.now) ∷ []) }
        ensures behind { OnOk result (IsBehind self.old self.new) }
    {
        let name = label.text.as_slice();
        if self.map.get(name).is_some() {
            return Ok(());
        }
        let first = Declaration {
            name: label,
            sort: Sort::Scope,
        };
        let entry = Entry {
            first,
            second: None,
            declared: Declared::Scope,
        };
        self.map.put(name, entry)?;
        Ok(())
    }

    /// The name of blocks, if it is written.
    fn declare_name(&mut self, name: BlockName<'a>) -> Result<(), AllocError>
        ensures same { OnOk result (MeanTheSame (entries self.new) (entries self.old ++ spec.block_entries (code.block_name name.entry ∷ []))) }
        ensures new { OnOk result (AreNew (entries self.old) (spec.block_entries (code.block_name name.entry ∷ [])) → entries self.new ≡ entries self.old ++ spec.block_entries (code.block_name name.entry ∷ [])) }
        ensures behind { OnOk result (IsBehind self.old self.new) }
    {
        match name {
            BlockName::Numbered { .. } => Ok(()),
            BlockName::Written(label) => self.declare_block(label),
        }
    }

    /// The names of blocks that are written, where they aren't declared already.
    fn declare_blocks(&mut self, names: &[BlockName<'a>]) -> Result<(), AllocError>
        ensures same { OnOk result (MeanTheSame (entries self.new) (entries self.old ++ spec.block_entries (map code.block_name names.now))) }
        ensures new { OnOk result (AreNew (entries self.old) (spec.block_entries (map code.block_name names.now)) → entries self.new ≡ entries self.old ++ spec.block_entries (map code.block_name names.now)) }
        ensures behind { OnOk result (IsBehind self.old self.new) }
    {
        for name in names {
            self.declare_name(*name)?;
        }
        Ok(())
    }

    /// The names of blocks are known now; of two things of one name the later one has the fault.
    pub(crate) fn add_blocks(
        &mut self,
        alloc: Global,
        made: &[Made<'a>],
    ) -> Result<Option<Fault>, AllocError>
        ensures fault { IfOk result (λ f. f ≡ least (spec.block_faults (entries self.old) [] (blocks_of made.now))) }
        ensures same { OnOk result (MeanTheSame (entries self.new) (entries self.old ++ spec.block_entries (blocks_of made.now))) }
        ensures new { IfOk result (λ f. f ≡ None → entries self.new ≡ entries self.old ++ spec.block_entries (blocks_of made.now)) }
        ensures behind { OnOk result (IsBehind self.old self.new) }
    {
        let names = all_names(alloc, made)?;
        let blocks = named_blocks(alloc, names.as_slice())?;
        let fault = clash_fault(alloc, self, blocks.as_slice())?;
        self.declare_blocks(names.as_slice())?;
        Ok(fault)
    }
}
