//! Tables of positions with costs, whose steps may name a row that covers where they lead.
ghost use Rattle.std.specs.Prelude.{◌≡◌};
ghost use Rattle.cover_cert.specs.CoverTable.{plain};

use comp_graph::Weights;
use pebble_rules::Position;
use potential_cert::Row;
use std::marker::Model;

/// A name: the step at this place of the legal steps of a row, counted from 0, leads to a position that the row with this number covers, at
/// no greater cost. A Drop has none.
#[derive(Clone, Copy, Debug, PartialEq, Eq)]
pub struct Cover {
    pub step: u16,
    pub row: u32,
}

/// A position, a cost, and the names of some of its steps. Contracts see the names as a list.
#[derive(Drop)]
pub struct CoverRow {
    pub position: Position,
    pub cost: u32,
    pub names: Vec<Cover>,
}

impl Model for CoverRow {
    ghost use Rattle.std.specs.Coded.{codes};
    ghost use Rattle.comp_graph.specs.contracts.vertex_set.VertexSet as vertex_set;
    ghost use Rattle.cover_cert.specs.CoverTable.{CoverRowParts};

    ghost Value = { CoverRowParts };

    ghost coded = { Prim.hlevel (codes, vertex_set.the_row.coded) };

    ghost view = { λ a. record { position = a.position; cost = a.cost; names = a.names.items } };
}

impl CoverRow {
    /// The row without its names.
    pub fn plain(&self) -> Row
        ensures { result ≡ plain self.now }
    {
        Row {
            position: self.position,
            cost: self.cost,
        }
    }
}

/// A table for the game on a graph of this many vertices with this many slots and these weights: rows, and the bound that they are to
/// support. Contracts see the weights as two numbers and the rows as a list.
#[derive(Drop)]
pub struct CoverTable {
    pub slots: u16,
    pub vertices: u16,
    pub weights: Weights,
    pub bound: u32,
    pub rows: Vec<CoverRow>,
}

impl Model for CoverTable {
    ghost use Rattle.std.specs.Coded.{codes};
    ghost use Rattle.comp_graph.specs.contracts.vertex_set.VertexSet as vertex_set;
    ghost use Rattle.cover_cert.specs.CoverTable.{CoverTableParts};

    ghost Value = { CoverTableParts };

    ghost coded = { Prim.hlevel (codes, vertex_set.the_row.coded) };

    ghost view = { λ a. record { slots = a.slots; vertices = a.vertices; load = a.weights.load; store = a.weights.store; bound = a.bound; rows = a.rows.items } };
}
