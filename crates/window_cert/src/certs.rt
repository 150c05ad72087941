//! Certificates by windows.
use crate::charged::ChargedLoads;
use comp_graph::{VertexSet, Weights};
use potential_cert::Row;
use std::marker::Model;

/// A renaming of the vertices: at place v is the vertex that v becomes. Contracts see the list.
#[derive(Drop)]
pub struct Renaming {
    pub images: Vec<u8>,
}

impl Model for Renaming {
    ghost use Rattle.std.specs.Prelude.{List, ℕ};

    ghost Value = { List ℕ };

    ghost view = { λ a. a.images.items };
}

/// A window with its renamings, a table of its positions, and the bound that they are to prove. `stores` are the vertices whose store is
/// charged, `tracked` those whose pebbles the window follows, and `required` those that each play has to work on. Contracts see a record
/// of sets, numbers and lists.
#[derive(Drop)]
pub struct CertWindow {
    pub charged: ChargedLoads,
    pub stores: VertexSet,
    pub tracked: VertexSet,
    pub required: VertexSet,
    pub renamings: Vec<Renaming>,
    pub bound: u32,
    pub rows: Vec<Row>,
}

impl Model for CertWindow {
    ghost use Rattle.std.specs.Coded.{codes};
    ghost use Rattle.comp_graph.specs.contracts.vertex_set.VertexSet as vertex_set;
    ghost use Rattle.window_cert.specs.Certs.{WindowParts, charged_of};

    ghost Value = { WindowParts };

    ghost coded = { Prim.hlevel (codes, vertex_set.the_row.coded) };

    ghost view = { λ a. record {
      charged = charged_of a.charged;
      stores = a.stores;
      tracked = a.tracked;
      required = a.required;
      renamings = a.renamings.items;
      bound = a.bound;
      rows = a.rows.items;
    } };
}

/// A certificate by windows for the game on a graph of this many vertices with this many slots and these weights. `bound` is to be the sum
/// of the bounds of the windows. Contracts see the weights as two numbers and the windows as a list.
#[derive(Drop)]
pub struct WindowCert {
    pub vertices: u16,
    pub slots: u16,
    pub weights: Weights,
    pub bound: u32,
    pub windows: Vec<CertWindow>,
}

impl Model for WindowCert {
    ghost use Rattle.std.specs.Coded.{codes};
    ghost use Rattle.comp_graph.specs.contracts.vertex_set.VertexSet as vertex_set;
    ghost use Rattle.window_cert.specs.Certs.{CertParts};

    ghost Value = { CertParts };

    ghost coded = { Prim.hlevel (codes, vertex_set.the_row.coded) };

    ghost view = { λ a. record {
      vertices = a.vertices;
      slots = a.slots;
      load = a.weights.load;
      store = a.weights.store;
      bound = a.bound;
      windows = a.windows.items;
    } };
}
