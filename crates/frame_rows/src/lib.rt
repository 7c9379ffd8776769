//! Outside vectors of the crates of frames and keys, and worked rows.
#![tactic(auto)]

#[cfg(test)]
mod ciphers;
#[cfg(test)]
mod data_forms;
#[cfg(test)]
mod identifiers;
#[cfg(test)]
mod joins;
#[cfg(test)]
mod vaults;
#[cfg(test)]
mod wraps;
