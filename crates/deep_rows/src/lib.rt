//! Worked examples on source terms that nest deeper than any text may: their types, their values, and what becomes of
//! them in the passes. It holds tests alone.
#![tactic(auto)]

#[cfg(test)]
mod tests;
