//! The explanation of a calls file: its listing, and under each row, indented, why it is as it is.
//!
//! First the facts of a call are read from the machine: `before` reads the state that the call
//! finds, `after` the state that it leaves, and `call` makes the call between the two. Their
//! contracts say what each fact is in the state of the rules. Then `words` puts these facts, and
//! nothing else, into words, and `note` adds the words to the text, indented. No contract speaks of
//! the words: the stored outputs of the programs `tour` and `conformance` hold them.
#![tactic(auto)]

pub mod after;
pub mod answer_words;
pub mod before;
pub mod call;
pub mod call_words;
mod end;
mod explanation;
pub mod note;
pub mod row;
mod waiting;
pub mod words;

pub use explanation::{annotate, annotate_script};
