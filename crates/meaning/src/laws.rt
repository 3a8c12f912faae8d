// The laws of runs. Each function's contract states one, and its body does nothing.
ghost use Rattle.meaning.specs.Laws.{ARunIsDetermined, ACalmRunIsARun, AlikeExpressionsReplaceEachOther, ThePremisesCanBeMet, WholeExamples};
ghost use Rattle.meaning.specs.EngineLaws.{TheEngineAgrees};
ghost use Rattle.meaning.specs.Numbering.{NoRunDependsOnNumbers};
ghost use Rattle.meaning.specs.Payoffs.{APayoffIsOneExpression};

use crate::Engine;

// From one state an expression's run has at most one result and state.
pub fn a_run_is_determined<W: Engine>()
    ensures { ARunIsDetermined W.Engine.world }
{}

// A calm run is a run.
pub fn a_calm_run_is_a_run<W: Engine>()
    ensures { ACalmRunIsARun W.Engine.world }
{}

// Where two expressions have the same runs, and what was calm stays calm, so it is with an expression in which one
// replaces the other at one place.
pub fn alike_expressions_replace_each_other<W: Engine>()
    ensures { AlikeExpressionsReplaceEachOther W.Engine.world }
{}

// There is a world that meets the premises, and in it every kind of expression has a run.
pub fn the_premises_can_be_met()
    ensures { ThePremisesCanBeMet }
{}

// Which numbers are whole numbers from 0, on examples.
pub fn whole_examples()
    ensures { WholeExamples }
{}

// With whatever numbers its nodes have, an expression has the same runs.
pub fn no_run_depends_on_numbers<W: Engine>()
    ensures { NoRunDependsOnNumbers W.Engine.world }
{}

// A payoff's tree is how one expression is stored, and how no other is.
pub fn a_payoff_is_one_expression()
    ensures { APayoffIsOneExpression }
{}

// The definitions that compute give, in any world, what an engine gave.
pub fn the_engine_agrees<W: Engine>()
    ensures { TheEngineAgrees W.Engine.world }
{}
