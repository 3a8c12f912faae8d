// A chain of calls of `concat`: one as the object of the next, inwards to a string or an array literal.
ghost use Rattle.std.specs.Prelude.{◌≡◌, ◌≤◌, length};
ghost use Rattle.deciding.specs.declared.concat_chain.TheConstants.{MAX_CALLS};

use tree::ListRun;

// Where the stores hold no more nodes than this, and a payoff's file has no more, each chain has room: going inwards no
// number comes twice, since each stands for a smaller expression.
pub const MAX_NODES: usize = 4_096;

// Each call of a chain has two nodes of its own.
pub const MAX_CALLS: usize = MAX_NODES / 2;

// What the innermost call is a call on.
#[derive(Clone, Copy)]
pub enum Root {
    String,
    Array,
}

// The calls of a chain. Their arguments stand at the end of a table, since the outermost call is found first.
#[derive(Drop)]
pub struct ConcatChain {
    pub root: Root,
    // The callee of the innermost call.
    pub new_root_callee: u32,
    pub table: [ListRun; MAX_CALLS],
    pub start: usize,
    ghost within: { start ≤ MAX_CALLS },
}

impl ConcatChain {
    ghost use Rattle.deciding.specs.ConcatCalls.{calls_of};

    // The arguments of each call, the innermost first.
    pub fn collected_arguments(&self) -> &[ListRun]
        ensures calls { result.now ≡ calls_of self.now }
        ensures within { length result.now ≤ MAX_CALLS }
    {
        &self.table[self.start..]
    }
}
