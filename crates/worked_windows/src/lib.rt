//! Floors, images, steps and certificates of windows of a small kernel, worked out by hand. All of this crate is tests.
#![tactic(auto)]

#[cfg(test)]
mod builders;
#[cfg(test)]
mod certificates;
#[cfg(test)]
mod floors;
#[cfg(test)]
mod images;
#[cfg(test)]
mod steps;
#[cfg(test)]
mod windows;
