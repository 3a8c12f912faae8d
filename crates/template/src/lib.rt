// Template text: escaping, the raw reader, cooking, and comparing with cooked text.

#![tactic(auto)]

mod comparing;
mod cooking;
mod escaping;
mod extent;
mod laws;
mod output;
mod raw;
mod sink;
mod walk;

pub use comparing::cooks_to;
pub use cooking::cook;
pub use escaping::escape;
pub use extent::Extent;
pub use laws::{
    cooked_text_is_at_most_twice_as_long, cooking_is_one, escape_examples, escaped_text_cooks_back,
    whole_cooks_as_its_parts,
};
pub use raw::{RawPart, RawReader};
