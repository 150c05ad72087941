//! Windows of a game: small games that charge a part of the loads and stores, and whose bounds add up. Laws alone, no code.
#![tactic(auto)]

pub mod laws;
