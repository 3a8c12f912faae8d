// Texts in stored form: lists of 16-bit units, kept as UTF-8 with a lone surrogate in three bytes.

#![tactic(auto)]

mod character;
mod decode;
mod edges;
mod encoded;
mod joining;
mod laws;
mod reader;
mod surrogates;
mod survey;
mod units;

pub use character::Character;
pub use decode::{character_len, first_character};
pub use edges::{first_trailing, last_leading};
pub use encoded::Encoded;
pub use joining::join;
pub use laws::{joining_stored_texts_joins_units, stored_form_and_units_determine_each_other};
pub use reader::Characters;
pub use surrogates::{leading_of, pair};
pub use units::{count_units, is_lawful, unit_at};
