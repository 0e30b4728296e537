// The machine, and programs by hand; calls on trees that no command makes.
mod by_hand;
mod few_names;
mod programs;
mod running;
mod terms;
mod types;
mod writing;
