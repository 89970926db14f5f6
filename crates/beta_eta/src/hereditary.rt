//! Long terms put for indices of long shared terms.

ghost use Rattle.std.specs.Prelude.{◌≡◌, ◌<◌, IfOk, OnOk};
ghost use Rattle.hol_conv.specs.NormalForms.{apply_long, hereditary, put_long, put_long_index};
ghost use Rattle.hol_terms.specs.Terms.{plain_type};
ghost use Rattle.terms_db.specs.Stores.{Grows, IsLive, term_at};
ghost use Rattle.beta_eta.specs.Listed.{AreLive, terms_at};
ghost use Rattle.beta_eta.specs.Tables.{ArePutInLong};

use crate::arguments::{Arguments, applied};
use crate::instances::raised;
use crate::shapes::shape_of;
use crate::tables::Table;
use hol_terms::indices::raised_index;
use hol_terms::types::Ty;
use std::alloc::{AllocError, Global};
use terms_db::ids::TermId;
use terms_db::nodes::{Node, Shape};
use terms_db::stores::Db;

/// The long term `by`, which has the type, put for index `at` in a long term: at once where the term has no such index, from the table
/// where it was done already.
#[cycle(put)]
fn put_in_long(
    alloc: Global,
    db: &mut Db,
    table: &mut Table,
    ty: &Ty,
    at: u64,
    by: TermId,
    t: TermId,
) -> Result<TermId, AllocError>
    requires by { IsLive db.old by.place }
    requires live { IsLive db.old t.place }
    requires table { ArePutInLong (plain_type ty.now) (term_at db.old by.place) db.old table.old }
    ensures kept { Grows db.old db.new }
    ensures table { OnOk result (ArePutInLong (plain_type ty.now) (term_at db.old by.place) db.new table.new) }
    ensures live { IfOk result (λ r. IsLive db.new r.place) }
    ensures term { IfOk result (λ r. term_at db.new r.place ≡ hereditary (plain_type ty.now) at (term_at db.old by.place) (term_at db.old t.place)) }
{
    if db.loose_bound(t) <= at {
        return Ok(t);
    }
    if let Some(found) = table.find(t, at) {
        return Ok(found);
    }
    let result = put_applied(alloc, db, table, ty, at, by, t, Arguments::none(alloc))?;
    table.keep(t, at, result)?;
    Ok(result)
}

/// The same of a term that is applied to arguments, in which it was done already.
#[cycle(put)]
fn put_applied(
    alloc: Global,
    db: &mut Db,
    table: &mut Table,
    ty: &Ty,
    at: u64,
    by: TermId,
    t: TermId,
    mut arguments: Arguments,
) -> Result<TermId, AllocError>
    requires by { IsLive db.old by.place }
    requires live { IsLive db.old t.place }
    requires arguments { AreLive db.old arguments }
    requires table { ArePutInLong (plain_type ty.now) (term_at db.old by.place) db.old table.old }
    ensures kept { Grows db.old db.new }
    ensures table { OnOk result (ArePutInLong (plain_type ty.now) (term_at db.old by.place) db.new table.new) }
    ensures live { IfOk result (λ r. IsLive db.new r.place) }
    ensures term { IfOk result (λ r. term_at db.new r.place ≡ put_long (apply_long (plain_type ty.now)) at (term_at db.old by.place) (term_at db.old t.place) (terms_at db.old arguments)) }
{
    match shape_of(db, t) {
        Shape::Free | Shape::Con => applied(db, t, arguments),
        Shape::Bound(index) => put_for_index(alloc, db, ty, at, by, index, arguments),
        Shape::App(function, argument) => {
            let argument = put_in_long(alloc, db, table, ty, at, by, argument)?;
            arguments.put_first(argument)?;
            put_applied(alloc, db, table, ty, at, by, function, arguments)
        }
        Shape::Lam(body) => {
            let inner = raised_index(at, 1)?;
            let body = put_in_long(alloc, db, table, ty, inner, by, body)?;
            let head = db.abstraction_like(t, body)?;
            applied(db, head, arguments)
        }
    }
}

/// What stands for an index, which is applied to the arguments, where the long term `by`, which has the type, is put for index `at`.
#[cycle(put)]
fn put_for_index(
    alloc: Global,
    db: &mut Db,
    ty: &Ty,
    at: u64,
    by: TermId,
    index: u64,
    arguments: Arguments,
) -> Result<TermId, AllocError>
    requires by { IsLive db.old by.place }
    requires arguments { AreLive db.old arguments }
    ensures kept { Grows db.old db.new }
    ensures live { IfOk result (λ r. IsLive db.new r.place) }
    ensures term { IfOk result (λ r. term_at db.new r.place ≡ put_long_index (apply_long (plain_type ty.now)) at (term_at db.old by.place) index (terms_at db.old arguments)) }
{
    if index == at {
        let head = raised(alloc, db, at, by)?;
        long_applied(alloc, db, ty, head, arguments)
    } else if index < at {
        let head = db.put(Node::Bound(index))?;
        applied(db, head, arguments)
    } else {
        let head = db.put(Node::Bound(index - 1))?;
        applied(db, head, arguments)
    }
}

/// A long term of the type, applied to long arguments.
#[cycle(put)]
fn long_applied(
    alloc: Global,
    db: &mut Db,
    ty: &Ty,
    function: TermId,
    mut arguments: Arguments,
) -> Result<TermId, AllocError>
    requires function { IsLive db.old function.place }
    requires arguments { AreLive db.old arguments }
    ensures kept { Grows db.old db.new }
    ensures live { IfOk result (λ r. IsLive db.new r.place) }
    ensures term { IfOk result (λ r. term_at db.new r.place ≡ apply_long (plain_type ty.now) (term_at db.old function.place) (terms_at db.old arguments)) }
{
    match (ty, shape_of(db, function)) {
        (Ty::Fun(result_type, argument_type), Shape::Lam(body)) => match arguments.take_first() {
            None => Ok(function),
            Some(argument) => {
                let instance = instance_of_long(alloc, db, argument_type, argument, body)?;
                long_applied(alloc, db, result_type, instance, arguments)
            }
        },
        _ => applied(db, function, arguments),
    }
}

/// The body of a long abstraction with a long argument, which has the type, put for its variable. A table lasts as long as this.
#[cycle(put)]
pub fn instance_of_long(
    alloc: Global,
    db: &mut Db,
    ty: &Ty,
    argument: TermId,
    body: TermId,
) -> Result<TermId, AllocError>
    requires argument { IsLive db.old argument.place }
    requires body { IsLive db.old body.place }
    ensures kept { Grows db.old db.new }
    ensures live { IfOk result (λ r. IsLive db.new r.place) }
    ensures term { IfOk result (λ r. term_at db.new r.place ≡ hereditary (plain_type ty.now) 0 (term_at db.old argument.place) (term_at db.old body.place)) }
{
    let mut table = Table::new(alloc);
    put_in_long(alloc, db, &mut table, ty, 0, argument, body)
}
