//! Expansion proofs that were checked.

ghost use Rattle.std.specs.Prelude.{◌≡◌};
ghost use Rattle.exp_check.specs.Accepted.{IsAccepted, proof_of};
ghost use Rattle.proof_text.specs.Texts.{plain_proof};

use dependency::orders::Order;
use expansion_tree::fitted::Fitted;
use expansion_tree::matings::Mating;
use proof_text::texts::ProofText;
use std::marker::Model;

/// An expansion proof (Miller 1987): a formula with an expansion tree of it that is fitted, a mating that spans, and an order of the
/// occurrences that keeps their dependencies. Only what was checked is one.
#[derive(Drop)]
pub struct Accepted {
    fitted: Fitted,
    mating: Mating,
    order: Order,
}

impl Model for Accepted {
    ghost use Rattle.exp_check.specs.Accepted.{AcceptedProof, IsAccepted, accepted_code};

    ghost Value = { AcceptedProof };

    ghost coded = { accepted_code };

    ghost view = { λ a. record { fitted = a.fitted; mating = a.mating; order = a.order } };

    ghost invariant = { λ a. IsAccepted (record { fitted = a.fitted; mating = a.mating; order = a.order }) };
}

impl Accepted {
    /// Keeps what was found to be an expansion proof.
    pub fn new(fitted: Fitted, mating: Mating, order: Order) -> Accepted
        requires { IsAccepted (record { fitted = fitted; mating = mating; order = order }) }
        ensures { result ≡ record { fitted = fitted; mating = mating; order = order } }
    {
        Accepted {
            fitted,
            mating,
            order,
        }
    }

    /// The formula with its tree, fitted.
    pub fn fitted(&self) -> &Fitted
        ensures fitted { result.now ≡ self.now.fitted }
        ensures accepted { IsAccepted self.now }
    {
        &self.fitted
    }

    /// The mating.
    pub fn mating(&self) -> &Mating
        ensures { result.now ≡ self.now.mating }
    {
        &self.mating
    }

    /// An order of the occurrences: each stands before those that it is directly before, and before those below it.
    pub fn order(&self) -> &Order
        ensures { result.now ≡ self.now.order }
    {
        &self.order
    }

    /// The formula, the tree and the mating.
    pub fn into_text(self) -> ProofText
        ensures { plain_proof result ≡ proof_of self }
    {
        let Accepted {
            fitted,
            mating,
            order: _,
        } = self;
        let (formula, tree) = fitted.into_parts();
        ProofText {
            formula,
            tree,
            mating,
        }
    }
}
