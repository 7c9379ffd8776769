//! Worked rows of what the desk keeps.
#![tactic(auto)]

#[cfg(test)]
mod histories;
#[cfg(test)]
mod slots;
#[cfg(test)]
mod spellings;
