//! Definitions over lists, and the lemmas on them that several crates use: no code.
#![tactic(auto)]
