//! The one canonical text of a module, by pieces of text: definitions, and the texts of parts that are put together. No
//! code.
#![tactic(auto)]
