use tree::{ListRun, TextRun};

// What a rule makes of a node.
#[derive(Clone, Copy)]
pub enum Decision {
    Kept,
    Rewritten(Plan),
}

// What takes the place of a node, by what is in the stores already.
#[derive(Clone, Copy)]
pub enum Plan {
    // A node that there is.
    Existing(u32),
    // A string of one unit.
    Unit(u16),
    // `void 0`.
    VoidZero,
    // `base ** exponent`.
    Power {
        base: u32,
        exponent: Exponent,
    },
    // An array whose elements are a list of arguments.
    ArrayOf(ListRun),
    // An array with the elements of another, and behind them what leading arguments give.
    Merged {
        elements: ListRun,
        taken: ListRun,
    },
    // A call of `concat` on such an array, of so many leading arguments, with the arguments that are left. The callee's
    // name or key stays.
    ConcatLeft {
        callee: u32,
        elements: ListRun,
        arguments: ListRun,
        taken: usize,
    },
    // One call with the arguments of all calls of a chain, on the callee of the innermost one.
    OneCall {
        callee: u32,
        chain: u32,
    },
    // A template, or a string, of a base text and arguments.
    Joined(Calls),
}

#[derive(Clone, Copy)]
pub enum Exponent {
    Number(u32),
    // Behind a unary plus.
    Coerced(u32),
}

// Where the base text and the arguments of a template stand.
#[derive(Clone, Copy)]
pub enum Calls {
    One { base: TextRun, arguments: ListRun },
    // In the chain that ends with this call.
    Chain(u32),
}
