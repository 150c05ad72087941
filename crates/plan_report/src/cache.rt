//! The text of a cache beside a plan.
ghost use Rattle.std.specs.Prelude.{◌≡◌, IfOk};
ghost use Rattle.plan_report.specs.CacheText as spec;

use crate::fact_line::{add_cost, add_fact};
use comp_graph::NoMemory;
use std::alloc::Global;

/// What is printed of a cache, and of a plan of the same game.
#[derive(Clone, Copy)]
pub struct CacheFacts {
    /// How often the cache loads a vertex.
    pub loads: u32,
    /// How often it stores one.
    pub stores: u32,
    /// How often it finds a vertex that is touched.
    pub hits: u32,
    /// What its loads and stores cost together.
    pub cost: u32,
    /// The cost of the best plan that was found.
    pub plan_cost: u32,
    /// The bound that was shown: no complete pebbling costs less, and so no cache does.
    pub bound: u32,
}

/// The text of a cache beside a plan: the five lines `cache loads N`, `cache stores N`, `cache hits N`, `cache cost C` and
/// `plan cost U bound L`, each ended by a line feed. [`NoMemory`] comes where memory was wanted and not found.
pub fn cache_text(alloc: Global, facts: &CacheFacts) -> Result<Vec<u8>, NoMemory>
    ensures { IfOk result (λ text. text.items ≡ spec.cache_text facts.now) }
{
    let mut text = Vec::new(alloc);
    add_fact(alloc, &mut text, "cache loads", facts.loads)?;
    add_fact(alloc, &mut text, "cache stores", facts.stores)?;
    add_fact(alloc, &mut text, "cache hits", facts.hits)?;
    add_fact(alloc, &mut text, "cache cost", facts.cost)?;
    add_cost(alloc, &mut text, "plan cost", facts.plan_cost, facts.bound)?;
    Ok(text)
}
