// Each function's contract states what is shown, and its body does nothing.
ghost use Rattle.witnesses.specs.LooseWorld.{ThePremisesAskNoMore};
ghost use Rattle.witnesses.specs.CalmKinds.{EachKindCanBeCalm};
ghost use Rattle.witnesses.specs.Told.{RunsTell};
ghost use Rattle.witnesses.specs.Truths.{EachAnswerCanBeTrue};
ghost use Rattle.witnesses.specs.Refusals.{TheFirstNoIsNamed};
ghost use Rattle.witnesses.specs.OneAnswer.{EachCallHasOneAnswer};
ghost use Rattle.witnesses.specs.OneLoad.{RefusedLoadsAreOne};
ghost use Rattle.witnesses.specs.OneTry.{EachTryDoesOneThing};
ghost use Rattle.witnesses.specs.Applied.{TheLawsApply};

// There is a world that keeps the premises and in which nothing else ever ends.
pub fn the_premises_ask_no_more()
    ensures { ThePremisesAskNoMore }
{}

// There is a calm run of each kind of expression.
pub fn each_kind_can_be_calm()
    ensures { EachKindCanBeCalm }
{}

// Runs that tell receivers, hints, operators, the order of outcomes, and the state that a throw leaves.
pub fn runs_tell()
    ensures { RunsTell }
{}

// Each type, and the absence of effects of each kind of part, is true somewhere.
pub fn each_answer_can_be_true()
    ensures { EachAnswerCanBeTrue }
{}

// A refusal names the first question that is answered no.
pub fn the_first_no_is_named()
    ensures { TheFirstNoIsNamed }
{}

// What a call on texts answers is one thing, and so is what it leaves in its output.
pub fn each_call_has_one_answer()
    ensures { EachCallHasOneAnswer }
{}

// A session is opened in one way, and a move and a try of a rule do one thing.
pub fn each_try_does_one_thing()
    ensures { EachTryDoesOneThing }
{}

// The laws of rules and of sessions, applied to payoffs.
pub fn the_laws_apply()
    ensures { TheLawsApply }
{}

// A refused load names one fault, and leaves one thing in the stores.
pub fn refused_loads_are_one()
    ensures { RefusedLoadsAreOne }
{}
