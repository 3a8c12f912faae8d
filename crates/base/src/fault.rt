ghost use Rattle.std.specs.Prelude.{◌≡◌};
ghost use Rattle.base.specs.Faults.{number, layer, node};

use thiserror::Error;

// Why a call was refused.
#[derive(Clone, Copy, PartialEq, Eq, Debug, Error)]
pub enum Fault {
    #[error("the file is shorter than a header, or of another version")]
    BadHeader,
    #[error("its counts are out of range, or its sections do not fill it")]
    BadSizes,
    #[error("the stores are too small for the file")]
    StoresTooSmall,
    #[error("the record of node {0} is unlawful on its own")]
    BadRecord(u32),
    #[error("the root is wrong, or node {0} has a wrong link or a wrong number of parents")]
    BadLink(u32),
    #[error("node {0} has no such child")]
    NoChild(u32),
    #[error("the path to node {0} is too long to go further")]
    PathFull(u32),
    #[error("node {0} is the root")]
    AtRoot(u32),
    #[error("there is no space for the nodes that are to replace node {0}")]
    NodesFull(u32),
    #[error("there is no space for the lists of what is to replace node {0}")]
    EntriesFull(u32),
    #[error("there is no space for the texts of what is to replace node {0}")]
    TextFull(u32),
    #[error("the text is unlawful, or the raw template text malformed")]
    Malformed,
    #[error("the output is too small")]
    Overfull,
}

impl Fault {
    // The number by which clients know the fault, as the protocol has it.
    pub fn number(self) -> u32
        ensures { result ≡ number self }
    {
        match self {
            Fault::BadHeader => 1,
            Fault::BadSizes => 2,
            Fault::StoresTooSmall => 3,
            Fault::BadRecord(_) => 4,
            Fault::BadLink(_) => 5,
            Fault::NoChild(_) => 6,
            Fault::PathFull(_) => 7,
            Fault::AtRoot(_) => 8,
            Fault::NodesFull(_) => 9,
            Fault::EntriesFull(_) => 10,
            Fault::TextFull(_) => 11,
            Fault::Malformed => 12,
            Fault::Overfull => 13,
        }
    }

    // The layer that refused, as the protocol has it.
    pub fn layer(self) -> u32
        ensures { result ≡ layer self }
    {
        match self {
            Fault::Malformed | Fault::Overfull => 1,
            Fault::BadHeader
            | Fault::BadSizes
            | Fault::StoresTooSmall
            | Fault::BadRecord(_)
            | Fault::BadLink(_)
            | Fault::NodesFull(_)
            | Fault::EntriesFull(_)
            | Fault::TextFull(_) => 2,
            Fault::NoChild(_) | Fault::PathFull(_) | Fault::AtRoot(_) => 3,
        }
    }

    // The node that the fault names, or 0.
    pub fn node(self) -> u32
        ensures { result ≡ node self }
    {
        match self {
            Fault::BadRecord(node) | Fault::BadLink(node) => node,
            Fault::NoChild(node) | Fault::PathFull(node) | Fault::AtRoot(node) => node,
            Fault::NodesFull(node) | Fault::EntriesFull(node) | Fault::TextFull(node) => node,
            Fault::BadHeader | Fault::BadSizes | Fault::StoresTooSmall => 0,
            Fault::Malformed | Fault::Overfull => 0,
        }
    }
}
