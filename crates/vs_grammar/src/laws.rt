//! Laws of grammars that one token of look-ahead decides, and of the texts that are spelled by the grammar of designs.

ghost use Rattle.vs_grammar.specs.Depths.{TreeIsAsDeep};
ghost use Rattle.vs_grammar.specs.Examples.{DepthsAre, FaultsAre, OperatorsAre, TreesAre};
ghost use Rattle.vs_grammar.specs.Kinds.{end_of_text};
ghost use Rattle.vs_grammar.specs.Laws.{NoFault, OneFault, OneTree, ReadIsDerived, SinksTooDeep, StopsAtFault};
ghost use Rattle.vs_grammar.specs.Precedence.{PrecedenceIs};
ghost use Rattle.vs_grammar.specs.Predictive.{IsPredictive};
ghost use Rattle.vs_grammar.specs.Shapes.{SpelledIsShaped};
ghost use Rattle.vs_grammar.specs.SpelledLaws.{OneFaultOfTokens, OneSource, OneSourceOfTokens, SpelledHasNoFault, SpelledIsShallow};
ghost use Rattle.vs_grammar.specs.Verilog.{Rule as rule, r, verilog};

use vs_lexer::longest_law;

/// A list of tokens has one derivation at most, in every grammar that one token of look-ahead decides.
pub fn one_tree_law()
    ensures { OneTree }
{}

/// What the predictive reading reads to the end is exactly what the grammar derives, with the same derivation.
pub fn reading_law()
    ensures { ReadIsDerived }
{}

/// Where the predictive reading stops is the first token with which no derived list goes on, whatever its length.
pub fn stops_law()
    ensures { StopsAtFault }
{}

/// Where the predictive reading takes a token more levels deep than are allowed, a derived list goes on with that token, and each that does is
/// too deep.
pub fn depth_law()
    ensures { SinksTooDeep }
{}

/// In any grammar a list of tokens has one such first token at most, and none where it is derived.
pub fn fault_law()
    ensures one { OneFault }
    ensures none { NoFault }
{}

/// One token of look-ahead decides in the grammar of designs (IEEE 1364-2005, annex A), so the laws above hold of it.
pub fn verilog_law()
    ensures { IsPredictive verilog (r rule.Source) end_of_text }
{}

/// A text spells one tree at most, within the limit on depth, and so do its tokens; where it spells one no token of it is at fault, and otherwise the first fault is
/// determined.
pub fn spelled_law()
    ensures one { OneSource }
    ensures same { OneSourceOfTokens }
    ensures none { SpelledHasNoFault }
    ensures fault { OneFaultOfTokens }
    ensures shallow { SpelledIsShallow }
{}

/// Every tree that tokens of a text spell has identifiers as names, numbers of 1 to 64 bits, no empty list where the grammar has none, and in each place
/// only the declarations that the grammar has there.
pub fn shaped_law()
    ensures { SpelledIsShaped }
{
    longest_law();
}

/// A syntax tree is as deep as each derivation that stands for it.
pub fn tree_depth_law()
    ensures { TreeIsAsDeep }
{}

/// Worked texts and the trees that they spell: the simplest design, the `else` of nested `if`s, a name after `begin`, empty brackets, a default.
pub fn tree_examples()
    ensures { TreesAre }
{}

/// Any two operators of two operands are grouped by their precedence, and to the left where it is the same (IEEE 1364-2005, table 5-4).
pub fn precedence_law()
    ensures { PrecedenceIs }
{}

/// Worked expressions and how their operators are grouped, over all levels of table 5-4 (IEEE 1364-2005, 5.1.2).
pub fn operator_examples()
    ensures { OperatorsAre }
{}

/// Worked texts and their depth.
pub fn depth_examples()
    ensures { DepthsAre }
{}

/// Worked texts that spell nothing, and the first token with which none goes on.
pub fn fault_examples()
    ensures { FaultsAre }
{}
