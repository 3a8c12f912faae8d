// How many steps the cursor can be below the root. The path is all that a session needs besides the stores.
pub const MAX_STEPS: usize = 256;

// One step down: the node that was left, and which of its children was entered.
#[derive(Clone, Copy)]
pub(crate) struct Step {
    pub node: u32,
    pub child: u32,
}
