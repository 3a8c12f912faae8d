// The laws of sessions. Each function's contract states one, and its body does nothing.
ghost use Rattle.model.specs.Laws.{NobodyCanTell, EachRewriteIsCounted, APayoffIsLeft};
ghost use Rattle.model.specs.Swept.{ASweepLeavesNothing, ASweepSaysWhatItLeft, ASweepEndsAtTheRoot, ASecondSweepChangesNothing};
ghost use Rattle.model.specs.Example.{AWholeSession};
ghost use Rattle.model.specs.Silence.{ASilentHostNeedsNoWord, NobodyCanTellSilentCalls, WhatHostsAllow};
ghost use Rattle.model.specs.Hosts.{HostsStayTrue, NobodyCanTellWithTrueHosts};
ghost use Rattle.model.specs.HostExamples.{TrueHostsCanBeHad};

use meaning::Engine;

// Nobody who runs a payoff can tell the tree that any list of calls leaves from the one that was opened, in every world
// with the premises, if the answers that were asked for are true there.
pub fn nobody_can_tell<W: Engine>()
    ensures { NobodyCanTell W.Engine.world }
{}

// The count of rewrites is that of the changes at the cursor's place, and it is bounded by the opened payoff.
pub fn each_rewrite_is_counted()
    ensures { EachRewriteIsCounted }
{}

// What any list of calls leaves is a payoff's tree.
pub fn a_payoff_is_left()
    ensures { APayoffIsLeft }
{}

// After a sweep that is not refused no rule would rewrite anything, wherever the cursor can go.
pub fn a_sweep_leaves_nothing()
    ensures { ASweepLeavesNothing }
{}

// And it says that it left something unvisited exactly where a node stands one step further down.
pub fn a_sweep_says_what_it_left()
    ensures { ASweepSaysWhatItLeft }
{}

// Refused or not, the cursor is at the root after it.
pub fn a_sweep_ends_at_the_root()
    ensures { ASweepEndsAtTheRoot }
{}

// A second sweep with the same host changes nothing.
pub fn a_second_sweep_changes_nothing()
    ensures { ASecondSweepChangesNothing }
{}

// What a rule makes by the answers of the host that knows nothing keeps its meaning, in every world with the premises.
pub fn a_silent_host_needs_no_word<W: Engine>()
    ensures { ASilentHostNeedsNoWord W.Engine.world }
{}

// And nobody can tell what any list of calls leaves, if each takes that host.
pub fn nobody_can_tell_silent_calls<W: Engine>()
    ensures { NobodyCanTellSilentCalls W.Engine.world }
{}

// What that host keeps others rewrite.
pub fn what_hosts_allow()
    ensures { WhatHostsAllow }
{}

// A session that is opened and swept, in a world in which the hypotheses of the laws are met.
pub fn a_whole_session()
    ensures { AWholeSession }
{}

// A host that says what is true of the opened payoff, silent, structural or by a table of its loaded nodes, says what
// is true all through the session, whatever is rewritten meanwhile and by whichever of such hosts.
pub fn hosts_stay_true<W: Engine>()
    ensures { HostsStayTrue W.Engine.world }
{}

// And so, with such hosts, nobody who runs a payoff can tell the tree that is left from the one that was opened.
pub fn nobody_can_tell_with_true_hosts<W: Engine>()
    ensures { NobodyCanTellWithTrueHosts W.Engine.world }
{}

// There is a session with such hosts, and by a table's answers it rewrites what it keeps by the silent host's.
pub fn true_hosts_can_be_had()
    ensures { TrueHostsCanBeHad }
{}
