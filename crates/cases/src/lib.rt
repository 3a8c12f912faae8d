// The line protocol for files, and with it the whole protocol.
//
//     case HEX NODES,ENTRIES,BYTES TEMPLATES POWER CALL..
//                           what comes of loading a file into stores of these sizes, and of a session's calls on it
//
// A case whose file is refused is answered by the refusal, and any other `loaded; ANSWER..; end ROOT REWRITES NODES
// ENTRIES BYTES`. Every other line is answered as the protocol for texts has it.

#![tactic(auto)]

mod any_host;
mod call;
mod case;
mod host_word;
mod memory;
mod printing;
mod serving;
mod told;

pub use any_host::AnyHost;
pub use host_word::HostWord;
pub use memory::Memory;
pub use printing::Shown;
pub use serving::{answer_line, serve};
pub use told::{End, Told};
