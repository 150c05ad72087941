//! Resolves statements.
ghost use Rattle.std.specs.Prelude.{◌≡◌, ◌≤◌, ◌++◌, ◌∷◌, true, length, [], OnOk, IfOk, IfErr};
ghost use Rattle.kernel_syntax.specs.declared.raw.RawStmt.TheVariants as raw_stmt;
ghost use Rattle.kernel_parser.specs.Names as spec;
ghost use Rattle.kernel_parser.specs.RawFits.{stmt_fits, body_fits};
ghost use Rattle.kernel_parser.specs.Resolved as tree;
ghost use Rattle.kernel_parser.specs.Scopes.{known, known_under, entries, EndsAt};

use crate::names::fault::NameRule;
use crate::names::lookup::name_of;
use crate::names::scope::{NameMeaning, Scope, Table};
use crate::parse_end::ParseEnd;
use kernel_ast::{Index, Name, Stmt};
use kernel_syntax::raw::{RawBranch, RawExpr, RawIndex, RawLoop, RawPlace, RawStmt, Span};
use sqlite_items::Items;
use std::alloc::AllocError;

/// The bounds and the step of a loop.
#[derive(Drop)]
struct Header {
    from: Index,
    to: Index,
    by: Option<Index>,
}

impl<'a> Scope<'a> {
    /// Resolves a step, if one is written.
    fn step(&self, raw: &Option<RawIndex>) -> Result<Option<Index>, ParseEnd>
        ensures faultless { OnOk result (spec.step_faults (known self.now) raw.now ≡ []) }
        ensures tree { IfOk result (λ s. s ≡ tree.step_of (known self.now) raw.now) }
        ensures fault { IfErr result (EndsAt (spec.step_faults (known self.now) raw.now)) }
    {
        match raw {
            Some(by) => Ok(Some(self.index(by)?)),
            None => Ok(None),
        }
    }
}

impl<'a> Table<'a> {
    fn header(&self, loops: &[Name], header: &RawLoop) -> Result<Header, ParseEnd>
        requires { length loops.now ≤ 32 }
        ensures faultless { OnOk result (spec.header_faults (known_under self.now loops.now) header.now ≡ []) }
        ensures from { IfOk result (λ h. h.from ≡ tree.index_of (known_under self.now loops.now) header.now.from) }
        ensures to { IfOk result (λ h. h.to ≡ tree.index_of (known_under self.now loops.now) header.now.to) }
        ensures by { IfOk result (λ h. h.by ≡ tree.step_of (known_under self.now loops.now) header.now.by) }
        ensures fault { IfErr result (EndsAt (spec.header_faults (known_under self.now loops.now) header.now)) }
    {
        let scope = Scope { table: self, loops };
        match scope.name_meaning(header.name)? {
            NameMeaning::Unknown => {
                let from = scope.index(&header.from)?;
                let to = scope.index(&header.to)?;
                let by = scope.step(&header.by)?;
                Ok(Header { from, to, by })
            }
            _ => Err(NameRule::Twice.at(header.name.from)),
        }
    }

    /// The sides of a branch.
    fn sides(&self, loops: &[Name], condition: &RawBranch) -> Result<(Index, Index), ParseEnd>
        requires { length loops.now ≤ 32 }
        ensures faultless { OnOk result (spec.condition_faults (known_under self.now loops.now) condition.now ≡ []) }
        ensures left { IfOk result (λ s. s.0 ≡ tree.index_of (known_under self.now loops.now) condition.now.left) }
        ensures right { IfOk result (λ s. s.1 ≡ tree.index_of (known_under self.now loops.now) condition.now.right) }
        ensures fault { IfErr result (EndsAt (spec.condition_faults (known_under self.now loops.now) condition.now)) }
    {
        let scope = Scope { table: self, loops };
        Ok((
            scope.index(&condition.left)?,
            scope.index(&condition.right)?,
        ))
    }

    /// Opens a loop of this name inside the others.
    fn enter(&self, loops: &mut Vec<Name>, name: Span) -> Result<(), AllocError>
        ensures { OnOk result (loops.new.items ≡ loops.old.items ++ spec.word self.now.text.now name ∷ []) }
    {
        let name = name_of(self.alloc, self.text, name)?;
        loops.push(name)?;
        Ok(())
    }

    fn assignment(
        &self,
        loops: &[Name],
        target: &RawPlace,
        value: &RawExpr,
    ) -> Result<Stmt, ParseEnd>
        requires { length loops.now ≤ 32 }
        ensures faultless { OnOk result (spec.assign_faults (known_under self.now loops.now) target.now value.now ≡ []) }
        ensures tree { IfOk result (λ t. t ≡ tree.assign_of (known_under self.now loops.now) target.now value.now) }
        ensures fault { IfErr result (EndsAt (spec.assign_faults (known_under self.now loops.now) target.now value.now)) }
    {
        let scope = Scope { table: self, loops };
        let at = target.name.from;
        Ok(Stmt::Assign {
            target: scope.target(target)?,
            value: scope.expr(value)?,
            at,
        })
    }

    #[cycle(statement)]
    fn stmt(&self, loops: &mut Vec<Name>, raw: &RawStmt) -> Result<Stmt, ParseEnd>
        requires depth { length loops.old.items ≤ 32 }
        requires fits { stmt_fits raw.now (length loops.old.items) ≡ true }
        ensures faultless { OnOk result (spec.stmt_faults self.now.text.now (entries self.now) raw.now loops.old.items ≡ []) }
        ensures tree { IfOk result (λ t. t ≡ tree.stmt_of self.now.text.now (entries self.now) raw.now loops.old.items) }
        ensures fault { IfErr result (EndsAt (spec.stmt_faults self.now.text.now (entries self.now) raw.now loops.old.items)) }
        ensures same { OnOk result (loops.new.items ≡ loops.old.items) }
    {
        match raw {
            RawStmt::Assign(target, value) => self.assignment(loops.as_slice(), target, value),
            RawStmt::Loop(header, body) => self.looped(loops, header, body.as_slice()),
            RawStmt::Branch(condition, taken, other) => {
                let (left, right) = self.sides(loops.as_slice(), condition)?;
                let taken = self.body(loops, taken.as_slice())?;
                let other = self.body(loops, other.as_slice())?;
                Ok(Stmt::Branch {
                    left,
                    rel: condition.rel,
                    right,
                    taken,
                    other,
                    at: condition.at,
                })
            }
        }
    }

    /// Resolves a loop, whose name is known in its body.
    #[cycle(statement)]
    fn looped(
        &self,
        loops: &mut Vec<Name>,
        header: &RawLoop,
        body: &[RawStmt],
    ) -> Result<Stmt, ParseEnd>
        requires depth { length loops.old.items ≤ 32 }
        requires fits { stmt_fits (raw_stmt.Loop header.now body.now) (length loops.old.items) ≡ true }
        ensures faultless { OnOk result (spec.stmt_faults self.now.text.now (entries self.now) (raw_stmt.Loop header.now body.now) loops.old.items ≡ []) }
        ensures tree { IfOk result (λ t. t ≡ tree.stmt_of self.now.text.now (entries self.now) (raw_stmt.Loop header.now body.now) loops.old.items) }
        ensures fault { IfErr result (EndsAt (spec.stmt_faults self.now.text.now (entries self.now) (raw_stmt.Loop header.now body.now) loops.old.items)) }
        ensures same { OnOk result (loops.new.items ≡ loops.old.items) }
    {
        let resolved = self.header(loops.as_slice(), header)?;
        self.enter(loops, header.name)?;
        let body = self.body(loops, body)?;
        loops.pop();
        let Header { from, to, by } = resolved;
        Ok(Stmt::Loop {
            from,
            to,
            by,
            body,
            at: header.at,
        })
    }

    /// Resolves the statements of a body, which stands in these loops.
    #[cycle(statement)]
    pub fn body(&self, loops: &mut Vec<Name>, raw: &[RawStmt]) -> Result<Items<Stmt>, ParseEnd>
        requires depth { length loops.old.items ≤ 32 }
        requires fits { body_fits (length loops.old.items) raw.now ≡ true }
        ensures faultless { OnOk result (spec.body_faults self.now.text.now (entries self.now) raw.now loops.old.items ≡ []) }
        ensures tree { IfOk result (λ t. t ≡ tree.body_of self.now.text.now (entries self.now) raw.now loops.old.items) }
        ensures fault { IfErr result (EndsAt (spec.body_faults self.now.text.now (entries self.now) raw.now loops.old.items)) }
        ensures same { OnOk result (loops.new.items ≡ loops.old.items) }
    {
        let mut body = Items::new(self.alloc);
        for stmt in raw {
            body.push(self.stmt(loops, stmt)?)?;
        }
        Ok(body)
    }
}
