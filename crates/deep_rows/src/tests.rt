// Terms that nest deeper than any text may; calls on types that no pass makes.
mod deep;
mod forms;
mod scoped;
