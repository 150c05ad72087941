//! The rows of a table: those that were made, in the order of their positions, with their names as numbers.
ghost use Rattle.std.specs.Prelude.{◌≡◌, ◌≤◌, length, map, IfOk, IsPermutation, IsSortedBy};
ghost use Rattle.comp_graph.specs.Lists.{IsIn};
ghost use Rattle.potential_cert.specs.Order.{precedes};
ghost use Rattle.potential_cert.specs.Table.{HasRow, IsRising};
ghost use Rattle.cover_cert.specs.declared.making.Name.{Name};
ghost use Rattle.cover_cert.specs.CoverMaking.{full_row, made_row, made_rows, numbered_name};
ghost use Rattle.cover_cert.specs.CoverSearch.{number_of};
ghost use Rattle.cover_cert.specs.CoverNumbers.{AreKnown, AreNumbered, CanBeOrdered};

use crate::making::{Made, Name, made_row};
use crate::tables::{Cover, CoverRow};
use comp_graph::NoMemory;
use pebble_rules::Position;
use potential_cert::{Row, row_place};
use std::alloc::Global;

/// The rows of a table.
pub(crate) fn table_rows(alloc: Global, made: Vec<Made>) -> Result<Vec<CoverRow>, NoMemory>
    requires { CanBeOrdered made.items }
    ensures { IfOk result (λ rows. AreNumbered made.items rows.items) }
{
    let sorted = sorted_rows(made)?;
    let rows = plain_rows(alloc, &sorted)?;
    let full = full_rows(alloc, &rows, &sorted)?;
    Ok(full)
}

// The rows that were made, by position.
fn sorted_rows(made: Vec<Made>) -> Result<Vec<Made>, NoMemory>
    ensures members { IfOk result (λ rows. IsPermutation made.items rows.items) }
    ensures sorted { IfOk result (λ rows. IsSortedBy (λ r q. precedes r.position q.position) rows.items) }
{
    let mut rows = made;
    rows.sort_by(|a, b| a.position.order(&b.position))?;
    Ok(rows)
}

// The rows without their names.
fn plain_rows(alloc: Global, made: &[Made]) -> Result<Vec<Row>, NoMemory>
    ensures { IfOk result (λ rows. rows.items ≡ made_rows made.now) }
{
    let mut rows = Vec::new(alloc);
    for k in 0..made.len() {
        rows.push(made_row(&made[k]))?;
    }
    Ok(rows)
}

// The rows with their names as numbers of rows.
fn full_rows(alloc: Global, rows: &[Row], made: &[Made]) -> Result<Vec<CoverRow>, NoMemory>
    requires rise { IsRising precedes rows.now }
    requires few { length rows.now ≤ 4294967295 }
    requires known { AreKnown rows.now made.now }
    ensures { IfOk result (λ full. full.items ≡ map (full_row rows.now) made.now) }
{
    let mut full = Vec::new(alloc);
    for k in 0..made.len() {
        let row = &made[k];
        let names = numbered(alloc, rows, &row.names)?;
        full.push(CoverRow {
            position: row.position,
            cost: row.cost,
            names,
        })?;
    }
    Ok(full)
}

// Names as numbers of rows.
fn numbered(alloc: Global, rows: &[Row], names: &[Name]) -> Result<Vec<Cover>, NoMemory>
    requires rise { IsRising precedes rows.now }
    requires few { length rows.now ≤ 4294967295 }
    requires known { (n : Name) → IsIn n names.now → HasRow rows.now n.by }
    ensures { IfOk result (λ numbers. numbers.items ≡ map (numbered_name rows.now) names.now) }
{
    let mut numbers = Vec::new(alloc);
    for name in names {
        let row = number(rows, &name.by);
        numbers.push(Cover {
            step: name.step,
            row,
        })?;
    }
    Ok(numbers)
}

// The number of the row at a position.
fn number(rows: &[Row], position: &Position) -> u32
    requires rise { IsRising precedes rows.now }
    requires few { length rows.now ≤ 4294967295 }
    requires known { HasRow rows.now position.now }
    ensures { result ≡ number_of rows.now position.now }
{
    match row_place(rows, position) {
        Some(k) => k as u32,
        None => unreachable!(),
    }
}
