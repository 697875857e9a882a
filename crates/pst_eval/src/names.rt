//! Which names expressions use.
ghost use Rattle.std.specs.Prelude.{◌≡◌};
ghost use Rattle.std.specs.List.{list_any};
ghost use Rattle.pst_eval.specs.Names as spec;
ghost use Rattle.pst_eval.specs.Names.{UnnamedResultsChangeNothing, UnnamedResultsLeaveStates};

use pst_model::{Clause, Expr, Source, operation_of};

/// Whether the expression uses the name. A name that a form binds is not used there. Allocates nothing.
#[cycle(names)]
#[tactic(auto, using(crate::proofs::Naming::naming))]
pub fn does_name_stand_in(name: &[u8], expr: &Expr) -> bool
    ensures { result ≡ spec.names name.now expr.now }
{
    match expr {
        Expr::Int(_) | Expr::Bool(_) | Expr::Text(_) | Expr::Map(_, _) => false,
        Expr::Name(found) => name == found.as_bytes(),
        Expr::Let(_, a, b) | Expr::And(a, b) | Expr::Or(a, b) | Expr::Binary(_, a, b) => {
            does_name_stand_in(name, a.get()) || does_name_stand_in(name, b.get())
        }
        Expr::If(a, b, c) | Expr::Put(a, b, c) | Expr::Fold(_, a, _, b, c) => {
            does_name_stand_in(name, a.get())
                || (does_name_stand_in(name, b.get()) || does_name_stand_in(name, c.get()))
        }
        Expr::Unary(_, part) | Expr::At(part, _) => does_name_stand_in(name, part.get()),
        Expr::Tuple(parts) => does_name_stand_in_any(name, parts.as_slice()),
        Expr::List(_, parts) => does_name_stand_in_any(name, parts.as_slice()),
        Expr::Call(_, parts) => does_name_stand_in_any(name, parts.as_slice()),
        Expr::Apply(_, parts) => does_name_stand_in_any(name, parts.as_slice()),
        Expr::For(clauses, body) => {
            does_name_stand_in_clauses(name, clauses.as_slice())
                || does_name_stand_in(name, body.get())
        }
    }
}

#[cycle(names)]
fn does_name_stand_in_any(name: &[u8], parts: &[Expr]) -> bool
    ensures { result ≡ list_any (spec.names name.now) parts.now }
{
    for part in parts {
        if does_name_stand_in(name, part) {
            return true;
        }
    }
    false
}

#[cycle(names)]
fn does_name_stand_in_clauses(name: &[u8], clauses: &[Clause]) -> bool
    ensures { result ≡ list_any (spec.clause_names name.now) clauses.now }
{
    for clause in clauses {
        if does_name_stand_in_clause(name, clause) {
            return true;
        }
    }
    false
}

#[cycle(names)]
#[tactic(auto, using(crate::proofs::Naming::naming))]
fn does_name_stand_in_clause(name: &[u8], clause: &Clause) -> bool
    ensures { result ≡ spec.clause_names name.now clause.now }
{
    match clause {
        Clause::In(_, list) => does_name_stand_in(name, list),
        Clause::When(condition) => does_name_stand_in(name, condition),
    }
}

/// Whether the next state after a call of an operation depends on its result, by the form of the model: whether the
/// expression of the state uses `r`. Operations are numbered from 0. Allocates nothing.
pub fn does_next_name_result(model: &Source, op: u32) -> bool
    ensures { result ≡ spec.next_names_result model.now op }
{
    match operation_of(model.items.as_slice(), op as usize) {
        Some(operation) => does_name_stand_in(b"r", &operation.next),
        None => false,
    }
}

/// If the next state does not depend on the result, it is the same whatever the result is.
pub fn unnamed_results_change_nothing()
    ensures { UnnamedResultsChangeNothing }
{}

/// If the next state does not depend on the result, no variable is free in it unless one is in the state before it or in
/// the arguments.
pub fn unnamed_results_leave_states()
    ensures { UnnamedResultsLeaveStates }
{}
