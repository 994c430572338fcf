//! The frame on which a proof about a parser stands: parsers as functions on lists of tokens, and what holds of each one that
//! is built from a few steps. Nothing here knows a grammar.
#![tactic(auto)]

pub mod laws;
