//! Worked rows of roles and messages, and of joins over entries that are applied.
#![tactic(auto)]

#[cfg(test)]
mod joins;
#[cfg(test)]
mod messages;
#[cfg(test)]
mod roles;
