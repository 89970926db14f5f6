//! Kinds of formulas.

ghost use Rattle.std.specs.Prelude.{[], IfNone, IfSome};
ghost use Rattle.hol_conv.specs.Conversion.{Long};
ghost use Rattle.hol_terms.specs.Terms.{Constant, plain_constant, plain_term, truth_type};
ghost use Rattle.tree_growth.specs.Kinds.{HasConstantHead, IsKind, IsKindOfHead};

use expansion_tree::trees::Op;
use hol_terms::terms::{Con, Tm};

/// The node that an expansion tree has at a long formula, where a leaf stands only where the formula's head is a variable.
#[derive(Clone, Copy, Debug, PartialEq, Eq)]
pub enum Kind {
    /// A formula whose head is a variable.
    Leaf,
    /// TRUTH or FALSEHOOD.
    Const,
    /// A negation.
    Not,
    /// A compound of this connective.
    Bin(Op),
    /// ALL where positive, SOME where negative, on an abstraction.
    Sel,
    /// SOME where positive, ALL where negative, on an abstraction.
    Exp,
}

/// The kind of a formula with this constant as its head.
fn kind_of_head(positive: bool, con: &Con) -> Kind
    ensures { IsKindOfHead positive (plain_constant con.now) result }
{
    match (positive, con) {
        (_, Con::Not) => Kind::Not,
        (_, Con::And) => Kind::Bin(Op::And),
        (_, Con::Or) => Kind::Bin(Op::Or),
        (_, Con::Implies) => Kind::Bin(Op::Imp),
        (_, Con::Truth | Con::Falsehood) => Kind::Const,
        (true, Con::All(_)) => Kind::Sel,
        (false, Con::Ex(_)) => Kind::Sel,
        (false, Con::All(_)) => Kind::Exp,
        (true, Con::Ex(_)) => Kind::Exp,
    }
}

/// The constant at the head of a term, if it has one.
fn head_constant(t: &Tm) -> Option<&Con>
    ensures some { IfSome result (λ con. HasConstantHead (plain_term t.now) (plain_constant con.now)) }
    ensures none { IfNone result ((c : Constant) → HasConstantHead (plain_term t.now) c → ⊥) }
{
    match t {
        Tm::Con(con) => Some(con),
        Tm::App(function, _) => head_constant(function),
        _ => None,
    }
}

/// The kind of a long formula of a polarity.
#[tactic(auto, using(crate::proofs::Heads::kind_by_head, crate::proofs::Heads::variable_at_head))]
pub fn kind_of(positive: bool, formula: &Tm) -> Kind
    requires { Long [] (plain_term formula.now) truth_type }
    ensures { IsKind positive (plain_term formula.now) result }
{
    match head_constant(formula) {
        Some(con) => kind_of_head(positive, con),
        None => Kind::Leaf,
    }
}
