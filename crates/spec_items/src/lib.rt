//! Lemmas on the items of lists by their places: where lists are joined, made item by item, filtered or counted. No code.
#![tactic(auto)]
