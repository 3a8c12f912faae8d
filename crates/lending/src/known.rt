// What the caller knows of a payoff's nodes.

// A host is made of it once the payoff is loaded.
#[derive(Clone, Copy)]
pub enum Known<'a> {
    // What nodes say of themselves, where these names are bound, each in its stored form.
    Bound(&'a [&'a [u8]]),
    // A row for each loaded node.
    Rows(&'a [u8]),
}
