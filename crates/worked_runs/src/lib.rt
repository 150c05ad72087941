//! Runs of the whole program: what the commands print, the statuses, the file that is left, and desks that fail. All of this crate is tests.
#![tactic(auto)]

#[cfg(test)]
mod beside_plans;
#[cfg(test)]
mod calls;
#[cfg(test)]
mod checks;
#[cfg(test)]
mod codes;
#[cfg(test)]
mod commands;
#[cfg(test)]
mod covers;
#[cfg(test)]
mod failing_desks;
#[cfg(test)]
mod leaving;
#[cfg(test)]
mod outputs;
#[cfg(test)]
mod plans;
#[cfg(test)]
mod plays;
#[cfg(test)]
mod searches;
#[cfg(test)]
mod trials;
#[cfg(test)]
mod weights;
