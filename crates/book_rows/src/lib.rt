//! Worked rows of books: lives that stop after each call of their disk, and what openings read.
#![tactic(auto)]

#[cfg(test)]
mod lives;
#[cfg(test)]
mod noting_keeper;
#[cfg(test)]
mod openings;
