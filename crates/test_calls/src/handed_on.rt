//! What is called of the library, by the crate that hands it on: who uses the library finds it there.

mod certificates;
mod configurations;
mod stacks;
mod tables;
