//! Tests of graphs, trees and solved counts together, in a crate of their own.
#![tactic(auto)]

#[cfg(test)]
mod tests;
