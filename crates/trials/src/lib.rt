// Whole operations and histories, tried step by step on a controller with a memory and devices; and callers that lend
// both, proved. There is nothing else here but tests.
#![tactic(auto)]

#[cfg(test)]
mod histories;
pub mod lent;
#[cfg(test)]
mod tests;
