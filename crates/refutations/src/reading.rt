//! What a refutation reads of an expansion proof.

ghost use Rattle.std.specs.Prelude.{◌≡◌, ◌+◌, IfOk, length};
ghost use Rattle.vertical_paths.specs.Partners.{ArePartnerRows};
ghost use Rattle.refutations.specs.Reading.{IsRead};

use exp_check::accepted::Accepted;
use hol_terms::indices::raised_index;
use std::alloc::{AllocError, Global};
use vertical_paths::partners::partner_rows;

/// An expansion proof, and at the number of each leaf those with which pairs join it.
#[derive(Drop)]
pub struct Reading<'a> {
    pub accepted: &'a Accepted,
    pub partners: Vec<Vec<u64>>,
}

/// Reads an expansion proof.
pub fn read<'a>(alloc: Global, accepted: &'a Accepted) -> Result<Reading<'a>, AllocError>
    ensures accepted { IfOk result (λ r. r.accepted.now ≡ accepted.now) }
    ensures partners { IfOk result (λ r. IsRead r.accepted.now r.partners.items) }
{
    let bound = raised_index(accepted.fitted().leaf_count(), 1)? as usize;
    let partners = partner_rows(alloc, bound, accepted.mating().pairs())?;
    Ok(Reading { accepted, partners })
}
