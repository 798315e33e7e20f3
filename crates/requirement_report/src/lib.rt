//! What a report about a document of requirements says, and its text. A report has three faces: the text
//! here, the page of `requirement_page` and the JSON of `requirement_json`. Each is a function of the
//! document and the report, and all three take their words, and what matters of a conflict, from here.
#![tactic(auto)]

mod answers;
mod blocks;
mod checks;
mod conflicts;
mod ending;
mod flat;
mod known;
pub mod laws;
mod letters;
mod lines;
mod marking;
mod members;
mod near;
mod parts;
mod pictures;
mod remarks;
mod slips;
mod subjects;
mod walks;
mod whole;

pub use answers::{question_words, word_of};
pub use blocks::{is_hidden, item_asked};
pub use checks::{bare, keeps_word};
pub use conflicts::nevers;
pub use ending::verdict_text;
pub use flat::{plain, put_flat};
pub use letters::{Use, letters_text, uses_of};
pub use lines::{first_lines, lines_in, put_of_all, put_worded};
pub use parts::{core_at, elided, part_of};
pub use slips::{Slip, slips_among, slips_of};
pub use subjects::{behaviour_name, behaviour_sentence, name_of, sentence_of, written_of};
pub use whole::{set_aside, text};
