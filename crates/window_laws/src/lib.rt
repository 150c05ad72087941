//! Laws of windows of a game: floors, automorphisms, tables, and the bound that windows with tables prove. Laws alone, no code.
#![tactic(auto)]

pub mod laws;
