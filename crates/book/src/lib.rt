//! The book: the entries of one desk, and the state that they make. What it answers is written down
//! first, so nothing that was answered is lost.
#![tactic(auto)]

mod answer;
mod answered;
mod book;
mod draft;
mod drafts;
mod faults;
pub mod laws;
mod mark;
mod opening;
mod pages;
mod replay;

pub use answered::{Answered, Marked};
pub use book::Book;
pub use faults::{BookFault, Mended};
