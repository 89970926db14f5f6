//! What a shared term is made of.

ghost use Rattle.terms_db.specs.Stores.{IsLive};
ghost use Rattle.beta_eta.specs.Shapes.{IsMadeOf};

use terms_db::ids::TermId;
use terms_db::nodes::Shape;
use terms_db::stores::Db;

/// What the term is made of.
pub fn shape_of(db: &Db, t: TermId) -> Shape
    requires { IsLive db.now t.place }
    ensures { IsMadeOf db.now t.place result }
{
    db.node(t).shape()
}
