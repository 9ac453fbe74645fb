//! Tests of `ir_print` on whole texts, read by `ir_read`, in a crate of their own. The expected texts are written by hand.
#![tactic(auto)]

#[cfg(test)]
mod language;
#[cfg(test)]
mod notes;
#[cfg(test)]
mod past;
#[cfg(test)]
mod printed;
#[cfg(test)]
mod text;
