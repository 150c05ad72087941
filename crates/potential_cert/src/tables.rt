//! Tables of positions with costs.
use comp_graph::Weights;
use pebble_rules::Position;
use std::marker::Model;

/// A position and a cost: in a table of a search what a play paid to reach it, and in another any number.
#[derive(Clone, Copy, PartialEq, Eq)]
pub struct Row {
    pub position: Position,
    pub cost: u32,
}

/// A table for the game on a graph of this many vertices with this many slots and these weights: rows, and the bound that they are to
/// prove. Contracts see the weights as two numbers and the rows as a list.
#[derive(Drop)]
pub struct Table {
    pub slots: u16,
    pub vertices: u16,
    pub weights: Weights,
    pub bound: u32,
    pub rows: Vec<Row>,
}

impl Model for Table {
    ghost use Rattle.std.specs.Coded.{codes};
    ghost use Rattle.comp_graph.specs.contracts.vertex_set.VertexSet as vertex_set;
    ghost use Rattle.potential_cert.specs.Table.{TableParts};

    ghost Value = { TableParts };

    ghost coded = { Prim.hlevel (codes, vertex_set.the_row.coded) };

    ghost view = { λ a. record { slots = a.slots; vertices = a.vertices; load = a.weights.load; store = a.weights.store; bound = a.bound; rows = a.rows.items } };
}
