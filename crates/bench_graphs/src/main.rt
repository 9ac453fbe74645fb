//! Builds the graph and the tree of large functions, and solves their counts.
//!
//! Standard output has the numbers of nodes, edges and counters of each function, which follow from its shape. Given a
//! number of edges, the program also measures: standard error has the milliseconds that each part took.
#![tactic(auto)]

mod graphable;
mod measure;
mod parts;
mod shapes;

use anyhow::{Context, Result};
use shapes::Shape;
use std::env;

// About as many edges has each function where no number is given.
const EDGES: u32 = 1_000;

const SHAPES: [(&str, Shape); 6] = [
    ("diamonds", Shape::Diamonds),
    ("ladder", Shape::Ladder),
    ("switch", Shape::Switch),
    ("loops", Shape::Loops),
    ("parallel", Shape::Parallel),
    ("random", Shape::Random),
];

fn main(rt: HostRuntime) -> Result<()> {
    let given = env::args(&rt)?.nth(1);
    let edges = match &given {
        Some(text) => text.as_str().parse::<u32>().context("a number of edges")?,
        None => EDGES,
    };
    for (name, shape) in SHAPES {
        parts::run(&rt, name, shape, edges, given.is_some())?;
    }
    Ok(())
}
