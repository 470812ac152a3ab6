//! Pages by example, and each change of one against a plain check.
#![tactic(auto)]

#[cfg(test)]
mod tests;
