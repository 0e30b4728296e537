//! Worked examples of the assembly side: a run in parts, memory that is reserved, programs that are kept within some
//! registers. It holds tests alone.
#![tactic(auto)]

#[cfg(test)]
mod tests;
