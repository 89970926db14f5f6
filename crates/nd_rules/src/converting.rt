//! Lines that are inferred by conversion.

ghost use Rattle.std.specs.Prelude.{◌≡◌, ◌≢◌, [], IfOk, MatchOption};
ghost use Rattle.hol_conv.specs.Conversion.{Conv, IsNormalOf};
ghost use Rattle.hol_terms.specs.Terms.{plain_term, truth_type};
ghost use Rattle.hol_terms.specs.Typing.{IsFormula};
ghost use Rattle.nd_rules.specs.Converting.{AreNormals};

use hol_conv::normal::normal;
use hol_terms::terms::{Tm, same};
use std::alloc::{AllocError, Global};

/// The long normal forms of two formulas, where these aren't convertible.
#[derive(Drop)]
pub struct Normals {
    pub first: Tm,
    pub second: Tm,
}

/// The long normal forms of two formulas where they differ; `None` exactly where the formulas are convertible.
pub fn different_normals(alloc: Global, s: &Tm, t: &Tm) -> Result<Option<Normals>, AllocError>
    requires first { IsFormula (plain_term s.now) }
    requires second { IsFormula (plain_term t.now) }
    ensures { IfOk result (λ normals. MatchOption normals (Conv [] truth_type (plain_term s.now) (plain_term t.now)) (λ n. AreNormals (plain_term s.now) (plain_term t.now) (plain_term n.first) (plain_term n.second))) }
{
    let first = normal(alloc, s)?;
    let second = normal(alloc, t)?;
    if same(&first, &second) {
        Ok(None)
    } else {
        Ok(Some(Normals { first, second }))
    }
}
