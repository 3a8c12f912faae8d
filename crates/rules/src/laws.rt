// The laws of the rules. Each function's contract states one, and its body does nothing.
ghost use Rattle.rules.specs.Laws.{ChainKeepsMeaning, MethodKeepsMeaning, PropertyKeepsMeaning, ChainRewritesExactlyWhen, MethodRewritesExactlyWhen, PropertyRewritesExactlyWhen, ARewriteMakesItSmaller, ASmallerPartMakesTheWholeSmaller};
ghost use Rattle.rules.specs.Pairs.{InterleavingIsPairwise, ArraysApartIsPairwise};
ghost use Rattle.rules.specs.Numbering.{NewNodesAreNumberedInTurn};
ghost use Rattle.rules.specs.OwnParts.{OldPartsStay, OnlyPartsAreAskedOf};
ghost use Rattle.rules.specs.Lawful.{ALawfulExpressionIsAPayoff, ARewriteKeepsItLawful};
ghost use Rattle.rules.specs.Examples.{RuleExamples};
ghost use Rattle.rules.specs.WorkedExamples.{WorkedExamples};

use meaning::Engine;

// What the rule chain makes of an expression has the same runs, in every world with the premises, if the answers that
// it asked for are true there.
pub fn chain_keeps_meaning<W: Engine>()
    ensures { ChainKeepsMeaning W.Engine.world }
{}

// What the rule method makes of an expression has the same runs, in every world with the premises, if the answers
// that it asked for are true there.
pub fn method_keeps_meaning<W: Engine>()
    ensures { MethodKeepsMeaning W.Engine.world }
{}

// What the rule property makes of an expression has the same runs, in every world with the premises, if the answers
// that it asked for are true there.
pub fn property_keeps_meaning<W: Engine>()
    ensures { PropertyKeepsMeaning W.Engine.world }
{}

// By any host's answers the rule chain rewrites exactly the chains that its relation names, to exactly that expression.
pub fn chain_rewrites_exactly_when()
    ensures { ChainRewritesExactlyWhen }
{}

// By any host's answers the rule method rewrites exactly the calls that its relation names, to exactly that expression.
pub fn method_rewrites_exactly_when()
    ensures { MethodRewritesExactlyWhen }
{}

// By any host's answers the rule property rewrites exactly the strings and array literals at an index that its relation
// names, to exactly that expression.
pub fn property_rewrites_exactly_when()
    ensures { PropertyRewritesExactlyWhen }
{}

// Arguments interleave exactly if none is a spread, and none behind one of type Object or Undetermined has effects.
pub fn interleaving_is_pairwise()
    ensures { InterleavingIsPairwise }
{}

// A chain's calls on an array are apart exactly if no argument with effects follows, in a later call, one that `concat`
// reads only when it is called.
pub fn arrays_apart_is_pairwise()
    ensures { ArraysApartIsPairwise }
{}

// Each rewrite takes calls, members or arguments away, counted together.
pub fn a_rewrite_makes_it_smaller()
    ensures { ARewriteMakesItSmaller }
{}

// Where a smaller expression replaces another at one place, the whole is smaller.
pub fn a_smaller_part_makes_the_whole_smaller()
    ensures { ASmallerPartMakesTheWholeSmaller }
{}

// What an expression becomes has nodes of its own, and new ones, numbered from the first free number on without a gap.
pub fn new_nodes_are_numbered_in_turn()
    ensures { NewNodesAreNumberedInTurn }
{}

// What an expression becomes is made of its own parts, each with all that is below it, and of new nodes.
pub fn old_parts_stay()
    ensures { OldPartsStay }
{}

// A rule asks only of parts of its expression.
pub fn only_parts_are_asked_of()
    ensures { OnlyPartsAreAskedOf }
{}

// The tree of a lawful expression is that of a payoff.
pub fn a_lawful_expression_is_a_payoff()
    ensures { ALawfulExpressionIsAPayoff }
{}

// What a lawful expression becomes is lawful: texts are texts, and each quasi's raw text cooks to its text.
pub fn a_rewrite_keeps_it_lawful()
    ensures { ARewriteKeepsItLawful }
{}

// What the rules make of some expressions, and what they ask.
pub fn rule_examples()
    ensures { RuleExamples }
{}

// What the rules make of twelve examples.
pub fn worked_examples()
    ensures { WorkedExamples }
{}
