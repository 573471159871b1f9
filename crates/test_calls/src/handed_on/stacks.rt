//! What is called of the crates of stacks, by the crate that hands it on: who uses the library finds it there.

use bags_themes::{BagFault, BagRows, Chain, Slot, Theme, bag, chain};
use overlay_map::{Cand, Cands, IdMap, MapFault, Stack, StackFault};
