// The laws of files. Each function's contract states one, and its body does nothing.
ghost use Rattle.file.specs.Laws.{LawfulExactlyWhereGranted, SameContentsSameFile};

// A file is lawful and fits exactly where every question of load is answered yes.
pub fn lawful_exactly_where_granted()
    ensures { LawfulExactlyWhereGranted }
{}

// A lawful file is determined by what it holds.
pub fn same_contents_same_file()
    ensures { SameContentsSameFile }
{}
