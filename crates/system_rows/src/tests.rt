// The edge of the program.
mod system;
