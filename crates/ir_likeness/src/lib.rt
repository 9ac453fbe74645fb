//! When a changed module behaves as the original at a cost in steps, and the lemmas on which every transformation stands:
//! definitions and lemmas, no code.
#![tactic(auto)]
