// The laws of hosts. Each function's contract states one, and its body does nothing.
ghost use Rattle.host.specs.Laws.{TheSilentHostIsTrue, TheStructuralHostIsTrue, ATableIsTrueWhereItsEntriesAre, WhatIsTrueStaysTrue, TheHypothesesCanBeMet};

use meaning::Engine;

// The silent host says only what is true.
pub fn the_silent_host_is_true<W: Engine>()
    ensures { TheSilentHostIsTrue W.Engine.world }
{}

// The structural host says only what is true, where its list of bound names is complete.
pub fn the_structural_host_is_true<W: Engine>()
    ensures { TheStructuralHostIsTrue W.Engine.world }
{}

// A table says only what is true of a part whose entry is true, and of what was not loaded.
pub fn a_table_is_true_where_its_entries_are<W: Engine>()
    ensures { ATableIsTrueWhereItsEntriesAre W.Engine.world }
{}

// What is true of an expression's effects and type stays true where it becomes another that does the same.
pub fn what_is_true_stays_true<W: Engine>()
    ensures { WhatIsTrueStaysTrue W.Engine.world }
{}

// There are worlds in which lists are complete and entries true, and what is said then is more than nothing.
pub fn the_hypotheses_can_be_met()
    ensures { TheHypothesesCanBeMet }
{}
