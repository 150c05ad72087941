//! Games: graphs with more slots than their degree, and with what a load and a store cost.
ghost use Rattle.std.specs.Prelude.{◌≡◌, ◌+◌, ◌-◌, ◌<◌, ◌≤◌, IfOk, IfErr};
ghost use Rattle.comp_graph.specs.Dags.{degree};
ghost use Rattle.comp_graph.specs.Graphs.{dag_of};
ghost use Rattle.comp_graph.specs.Games.{IsGame, AreWeights};

use crate::costs::Weights;
use crate::graph::Graph;
use std::marker::Model;

/// A graph, a number of slots (red pebbles, words of fast memory), from 1 to 64, that is greater than its degree, and what a load and a
/// store cost, each from 1 to 16.
#[derive(Drop)]
pub struct Game {
    graph: Graph,
    slots: u16,
    weights: Weights,
}

impl Model for Game {
    ghost use Rattle.comp_graph.specs.Games.{GameParts, IsGame};

    ghost Value = { GameParts };

    ghost view = { λ a. record { graph = a.graph; slots = a.slots; weights = a.weights } };

    ghost invariant = { λ a. IsGame (record { graph = a.graph; slots = a.slots; weights = a.weights }) };
}

/// There are no more slots than the degree. `needs` is the degree plus 1, and the graph is handed back.
#[derive(Drop)]
pub struct TooSmall {
    pub needs: u16,
    pub graph: Graph,
}

impl Game {
    /// The game on a graph with this many slots, from 1 to 64, where loads and stores have these costs, from 1 to 16. `TooSmall` comes exactly
    /// where `slots` is at most the graph's degree. It takes no memory.
    pub fn new(graph: Graph, slots: u16, weights: Weights) -> Result<Game, TooSmall>
        requires some { 0 < slots }
        requires most { slots ≤ 64 }
        requires weights { AreWeights weights }
        ensures ok { IfOk result (λ game. game ≡ record { graph = graph; slots = slots; weights = weights }) }
        ensures room { IfOk result (λ _. degree (dag_of graph) < slots) }
        ensures small { IfErr result (λ small. slots ≤ degree (dag_of graph)) }
        ensures needs { IfErr result (λ small. small.needs ≡ degree (dag_of graph) + 1) }
        ensures kept { IfErr result (λ small. small.graph ≡ graph) }
    {
        let degree = graph.degree();
        if slots <= degree {
            return Err(TooSmall {
                needs: degree + 1,
                graph,
            });
        }
        Ok(Game {
            graph,
            slots,
            weights,
        })
    }

    /// The graph that the game is played on.
    pub fn graph(&self) -> &Graph
        ensures value { result.now ≡ self.now.graph }
        ensures valid { IsGame self.now }
    {
        &self.graph
    }

    /// The number of slots.
    pub fn slots(&self) -> u16
        ensures value { result ≡ self.now.slots }
        ensures valid { IsGame self.now }
    {
        self.slots
    }

    /// What a load and a store cost.
    pub fn weights(&self) -> Weights
        ensures value { result ≡ self.now.weights }
        ensures valid { IsGame self.now }
    {
        self.weights
    }
}
