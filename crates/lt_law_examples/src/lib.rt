//! The worked examples: runs of the rules, move by move, and whole worlds in the middle of runs, that the proof computes.
#![tactic(auto)]

mod worked;
mod worlds;

pub use worked::{
    law_examples_long, law_examples_nodes, law_examples_one_node, law_examples_orders,
    law_examples_sixth_mode,
};
pub use worlds::{law_worlds_midway, law_worlds_runs};
