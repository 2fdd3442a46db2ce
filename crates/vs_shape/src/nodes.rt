//! Nodes of a lawful design, with what they name.

ghost use Rattle.std.specs.Prelude.{◌≡◌, ◌<◌, ◌≤◌, ◌+◌, ℕ, length, slice_index, take, take_while, not, ◌==◌};
ghost use Rattle.vs_design.specs.Expressions.{At};
ghost use Rattle.vs_flat.specs.Arena.{node_at, statement_at, signal_length, declared_at};
ghost use Rattle.vs_flat.specs.Named.{locals_in};
ghost use Rattle.vs_flat.specs.DesignOf.{local_of};
ghost use Rattle.vs_flat.specs.Lawful.{IsLawful};
ghost use Rattle.vs_flat.specs.Trees.{first_copy, copy_count, signal_of};
ghost use Rattle.vs_shape.specs.Bodies.{HasBodyNames, HasTarget, body_of, body_of_statement, body_place};
ghost use Rattle.vs_shape.specs.Nodes.{HasNames, HasCalls, tree_of, place_of, tree_of_node};

use crate::shapes::Shapes;
use vs_flat::{Flat, Node, Signal, Statement, lawful_law, names_law, trees_law};

/// Expression e of a lawful design: it names earlier ones, and its tree is made of theirs.
pub fn node_of(flat: &Flat, e: u32) -> &Node
    requires lawful { IsLawful flat.now }
    requires there { e < length flat.now.nodes }
    ensures is { node_at flat.now e ≡ Some result.now }
    ensures names { HasNames (length flat.now.signals) e result.now }
    ensures calls { HasCalls flat.now result.now }
    ensures tree { tree_of flat.now e ≡ At (place_of flat.now e) (tree_of_node flat.now result.now) }
{
    names_law();
    trees_law();
    flat.expr(e)
}

/// A function's local signal, by its number in it.
pub fn local_of(flat: &Flat, function: u32, signal: u32) -> &Signal
    requires lawful { IsLawful flat.now }
    requires function { function < length flat.now.functions }
    requires there { signal < length (locals_in (declared_at flat.now function)) }
    ensures is { local_of flat.now function signal ≡ signal_of signal result.now }
    ensures room { result.now.first_bit + signal_length result.now ≤ 67108864 }
{
    trees_law();
    lawful_law();
    let declared = flat.function(function);
    declared.function.signals.get(signal as usize)
}

/// Statement s of a lawful design: it names expressions and earlier statements, and its tree is made of theirs.
pub fn statement_of(flat: &Flat, s: u32) -> &Statement
    requires lawful { IsLawful flat.now }
    requires there { s < length flat.now.statements }
    ensures is { statement_at flat.now s ≡ Some result.now }
    ensures names { HasBodyNames (length flat.now.nodes) s result.now }
    ensures target { HasTarget flat.now result.now }
    ensures tree { body_of flat.now s ≡ body_of_statement flat.now (body_place flat.now s) result.now }
{
    names_law();
    trees_law();
    lawful_law();
    flat.statement(s)
}

impl Shapes {
    /// Expression e: it names earlier ones, and its tree is made of theirs.
    pub fn node(&self, e: u32) -> &Node
        requires { e < length self.now.nodes }
        ensures is { node_at self.now e ≡ Some result.now }
        ensures names { HasNames (length self.now.signals) e result.now }
        ensures calls { HasCalls self.now result.now }
        ensures tree { tree_of self.now e ≡ At (place_of self.now e) (tree_of_node self.now result.now) }
    {
        node_of(self.flat(), e)
    }

    /// Statement s: it names expressions and earlier statements, and its tree is made of theirs.
    pub fn statement(&self, s: u32) -> &Statement
        requires { s < length self.now.statements }
        ensures is { statement_at self.now s ≡ Some result.now }
        ensures names { HasBodyNames (length self.now.nodes) s result.now }
        ensures target { HasTarget self.now result.now }
        ensures tree { body_of self.now s ≡ body_of_statement self.now (body_place self.now s) result.now }
    {
        statement_of(self.flat(), s)
    }
}

/// The parts of a concatenation; of a replication those of its first copy, which ends where its first part comes again (IEEE 1364-2005, 5.1.14).
pub fn first_copy(parts: &[u32]) -> &[u32]
    ensures copy { result.now ≡ first_copy parts.now }
    ensures prefix { result.now ≡ take (length result.now) parts.now }
    ensures short { length result.now ≤ length parts.now }
{
    let Some((first, rest)) = parts.split_first() else {
        return parts;
    };
    &parts[..length_before(rest, *first) + 1]
}

/// How many numbers stand before the first that is this one, and all of them where it is not among them.
fn length_before(numbers: &[u32], number: u32) -> usize
    ensures { result ≡ length (take_while (λ n. not (n == number)) numbers.now) }
{
    numbers.iter().take_while(|n| **n != number).count()
}

/// How many copies a replication has.
pub fn copy_count(parts: &[u32]) -> u64
    ensures { result ≡ copy_count parts.now }
{
    match parts.split_first() {
        None => 1,
        Some((first, rest)) => rest.iter().filter(|part| *part == first).count() as u64 + 1,
    }
}
