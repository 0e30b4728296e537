//! What files of the disk and a stream of the system do, of which no clause tells the content. It holds tests alone.
#![tactic(auto)]

#[cfg(test)]
mod tests;
