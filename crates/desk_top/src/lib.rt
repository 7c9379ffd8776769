//! The program without its outside: the words, the tables text, the journal, and the answers to the
//! input's lines.
#![tactic(auto)]

mod answering;
mod counts;
mod desk;
mod ended;
mod fault;
mod journal;
mod last_line;
mod opening;
mod program;
mod sample;
mod task;
mod words;

pub use program::run;
pub use sample::SAMPLE_TABLES;
pub use words::{WordFiles, files_of, has_word};
