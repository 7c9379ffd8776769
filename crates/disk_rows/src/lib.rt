//! Worked rows of the objects in memory, of the lines of an input, of the journal and of keepers.
#![tactic(auto)]

#[cfg(test)]
mod hollow;
#[cfg(test)]
mod journals;
#[cfg(test)]
mod keepers_kept;
#[cfg(test)]
mod lines;
#[cfg(test)]
mod memory;
