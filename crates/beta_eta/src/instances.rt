//! Raised terms, and terms put for loose indices as they are.

ghost use Rattle.std.specs.Prelude.{◌≡◌, ◌<◌, ◌≤◌, IfOk, OnOk};
ghost use Rattle.hol_terms.specs.Indices.{instance_of, put, put_index, raise};
ghost use Rattle.terms_db.specs.Loose.{loose_bound};
ghost use Rattle.terms_db.specs.Stores.{Grows, IsLive, term_at};
ghost use Rattle.beta_eta.specs.Tables.{ArePut, AreRaised};

use crate::shapes::shape_of;
use crate::tables::Table;
use hol_terms::indices::raised_index;
use std::alloc::{AllocError, Global};
use terms_db::ids::TermId;
use terms_db::nodes::{Node, Shape};
use terms_db::stores::Db;

/// The term with `by` added to each loose index that is at least `from`: at once where it has no such index, and from the table where
/// it was done already.
#[cycle(raised)]
fn raised_in(
    db: &mut Db,
    table: &mut Table,
    by: u64,
    from: u64,
    t: TermId,
) -> Result<TermId, AllocError>
    requires live { IsLive db.old t.place }
    requires table { AreRaised by db.old table.old }
    ensures kept { Grows db.old db.new }
    ensures table { OnOk result (AreRaised by db.new table.new) }
    ensures live { IfOk result (λ r. IsLive db.new r.place) }
    ensures term { IfOk result (λ r. term_at db.new r.place ≡ raise by from (term_at db.old t.place)) }
{
    if db.loose_bound(t) <= from {
        return Ok(t);
    }
    if let Some(found) = table.find(t, from) {
        return Ok(found);
    }
    let raised = raised_parts(db, table, by, from, t)?;
    table.keep(t, from, raised)?;
    Ok(raised)
}

/// The same of a term that has such an index, by its parts.
#[cycle(raised)]
fn raised_parts(
    db: &mut Db,
    table: &mut Table,
    by: u64,
    from: u64,
    t: TermId,
) -> Result<TermId, AllocError>
    requires live { IsLive db.old t.place }
    requires loose { from < loose_bound (term_at db.old t.place) }
    requires table { AreRaised by db.old table.old }
    ensures kept { Grows db.old db.new }
    ensures table { OnOk result (AreRaised by db.new table.new) }
    ensures live { IfOk result (λ r. IsLive db.new r.place) }
    ensures term { IfOk result (λ r. term_at db.new r.place ≡ raise by from (term_at db.old t.place)) }
{
    match shape_of(db, t) {
        Shape::Free | Shape::Con => Ok(t),
        Shape::Bound(index) => db.put(Node::Bound(raised_index(index, by)?)),
        Shape::App(function, argument) => {
            let function = raised_in(db, table, by, from, function)?;
            let argument = raised_in(db, table, by, from, argument)?;
            db.application(function, argument)
        }
        Shape::Lam(body) => {
            let inner = raised_index(from, 1)?;
            let body = raised_in(db, table, by, inner, body)?;
            db.abstraction_like(t, body)
        }
    }
}

/// The term with a number added to each loose index.
pub fn raised(alloc: Global, db: &mut Db, by: u64, t: TermId) -> Result<TermId, AllocError>
    requires live { IsLive db.old t.place }
    ensures kept { Grows db.old db.new }
    ensures live { IfOk result (λ r. IsLive db.new r.place) }
    ensures term { IfOk result (λ r. term_at db.new r.place ≡ raise by 0 (term_at db.old t.place)) }
{
    let mut table = Table::new(alloc);
    raised_in(db, &mut table, by, 0, t)
}

/// The term with `by` put for index `at`: at once where it has no such index, and from the table where it was done already.
#[cycle(put_plain)]
fn put_in(
    alloc: Global,
    db: &mut Db,
    table: &mut Table,
    at: u64,
    by: TermId,
    t: TermId,
) -> Result<TermId, AllocError>
    requires by { IsLive db.old by.place }
    requires live { IsLive db.old t.place }
    requires table { ArePut (term_at db.old by.place) db.old table.old }
    ensures kept { Grows db.old db.new }
    ensures table { OnOk result (ArePut (term_at db.old by.place) db.new table.new) }
    ensures live { IfOk result (λ r. IsLive db.new r.place) }
    ensures term { IfOk result (λ r. term_at db.new r.place ≡ put at (term_at db.old by.place) (term_at db.old t.place)) }
{
    if db.loose_bound(t) <= at {
        return Ok(t);
    }
    if let Some(found) = table.find(t, at) {
        return Ok(found);
    }
    let instance = put_parts(alloc, db, table, at, by, t)?;
    table.keep(t, at, instance)?;
    Ok(instance)
}

/// The same of a term that has such an index or one above, by its parts.
#[cycle(put_plain)]
fn put_parts(
    alloc: Global,
    db: &mut Db,
    table: &mut Table,
    at: u64,
    by: TermId,
    t: TermId,
) -> Result<TermId, AllocError>
    requires by { IsLive db.old by.place }
    requires live { IsLive db.old t.place }
    requires loose { at < loose_bound (term_at db.old t.place) }
    requires table { ArePut (term_at db.old by.place) db.old table.old }
    ensures kept { Grows db.old db.new }
    ensures table { OnOk result (ArePut (term_at db.old by.place) db.new table.new) }
    ensures live { IfOk result (λ r. IsLive db.new r.place) }
    ensures term { IfOk result (λ r. term_at db.new r.place ≡ put at (term_at db.old by.place) (term_at db.old t.place)) }
{
    match shape_of(db, t) {
        Shape::Free | Shape::Con => Ok(t),
        Shape::Bound(index) => put_for_index(alloc, db, at, by, index),
        Shape::App(function, argument) => {
            let function = put_in(alloc, db, table, at, by, function)?;
            let argument = put_in(alloc, db, table, at, by, argument)?;
            db.application(function, argument)
        }
        Shape::Lam(body) => {
            let inner = raised_index(at, 1)?;
            let body = put_in(alloc, db, table, inner, by, body)?;
            db.abstraction_like(t, body)
        }
    }
}

/// What stands for an index that is at least `at`, where `by` is put for index `at`.
fn put_for_index(
    alloc: Global,
    db: &mut Db,
    at: u64,
    by: TermId,
    index: u64,
) -> Result<TermId, AllocError>
    requires by { IsLive db.old by.place }
    requires index { at ≤ index }
    ensures kept { Grows db.old db.new }
    ensures live { IfOk result (λ r. IsLive db.new r.place) }
    ensures term { IfOk result (λ r. term_at db.new r.place ≡ put_index at (term_at db.old by.place) index) }
{
    if index == at {
        raised(alloc, db, at, by)
    } else {
        db.put(Node::Bound(index - 1))
    }
}

/// The body of an abstraction with the term `t` for its variable. The old nodes stay, also after memory ran out.
pub fn instantiate_id(
    alloc: Global,
    db: &mut Db,
    body: TermId,
    t: TermId,
) -> Result<TermId, AllocError>
    requires body { IsLive db.old body.place }
    requires term { IsLive db.old t.place }
    ensures kept { Grows db.old db.new }
    ensures live { IfOk result (λ r. IsLive db.new r.place) }
    ensures instance { IfOk result (λ r. term_at db.new r.place ≡ instance_of (term_at db.old body.place) (term_at db.old t.place)) }
{
    let mut table = Table::new(alloc);
    put_in(alloc, db, &mut table, 0, t, body)
}
