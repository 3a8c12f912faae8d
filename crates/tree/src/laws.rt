// The laws of stored trees. Each function's contract states one, and its body does nothing.
ghost use Rattle.tree.specs.Laws.{OneTree, LowerLinksMakeOneTree, LawfulNumbersMakeALawfulTree, OneLinkOnePlace};

// A number denotes one tree at most.
pub fn a_number_denotes_one_tree()
    ensures { OneTree }
{}

// Where each link goes to a lower number, and each number but the last is linked once, the last denotes a tree of them
// all.
pub fn lower_links_make_one_tree()
    ensures { LowerLinksMakeOneTree }
{}

// A tree is lawful where each of its numbers is stored lawfully.
pub fn lawful_numbers_make_a_lawful_tree()
    ensures { LawfulNumbersMakeALawfulTree }
{}

// One changed link changes one place of the denoted tree, and all numbers stay distinct.
pub fn one_changed_link_changes_one_place()
    ensures { OneLinkOnePlace }
{}
