//! What was printed so far.

ghost use Rattle.std.specs.Prelude.{◌≡◌, ◌++◌, ◌∷◌, [], OnOk, codes};
ghost use Rattle.hol_terms.specs.Terms.{plain_type};
ghost use Rattle.tps_print.specs.Outputs.{after};
ghost use Rattle.tps_print.specs.Pieces.{binder_text, fixed, in_parentheses, occurrence};

use crate::types::append_in_parentheses;
use core_text::writers::append_name;
use hol_terms::lists::Text;
use hol_terms::names::Name;
use hol_terms::types::Ty;
use hol_terms::variable_sets::VariableSet;
use std::alloc::{AllocError, Global};
use std::marker::Model;

/// A text that is being printed, with the free variables that stand in it.
#[derive(Drop)]
pub(crate) struct Output {
    alloc: Global,
    text: Text,
    seen: VariableSet,
}

impl Model for Output {
    ghost use Rattle.std.specs.Prelude.{List, ℕ};
    ghost use Rattle.std.specs.Coded.{coded_list, coded×, coded_ℕ};
    ghost use Rattle.hol_terms.specs.Codes.{type_code};
    ghost use Rattle.tps_print.specs.Outputs.{State};

    ghost Value = { State };

    ghost coded = { coded× (coded_list coded_ℕ) (coded_list (coded× (coded_list coded_ℕ) type_code)) };

    ghost view = { λ output. (output.text, output.seen) };
}

impl Output {
    /// Nothing.
    pub(crate) fn new(alloc: Global) -> Output
        ensures { result ≡ ([], []) }
    {
        Output {
            alloc,
            text: Text::new(alloc),
            seen: VariableSet::new(alloc),
        }
    }

    /// The text.
    pub(crate) fn into_text(self) -> Text
        ensures { result ≡ self.0 }
    {
        self.text
    }

    /// Adds bytes.
    pub(crate) fn fixed(&mut self, bytes: &[u8]) -> Result<(), AllocError>
        ensures { OnOk result (self.new ≡ after self.old (fixed bytes.now ∷ [])) }
    {
        self.text.append(bytes)
    }

    /// Adds an occurrence of a free variable: its name, and its type in parentheses where it is the first one.
    pub(crate) fn variable(&mut self, name: &Name, ty: &Ty) -> Result<(), AllocError>
        ensures { OnOk result (self.new ≡ after self.old (occurrence (name.now, plain_type ty.now) ∷ [])) }
    {
        append_name(self.alloc, &mut self.text, name)?;
        if self.seen.insert(name, ty)? {
            append_in_parentheses(&mut self.text, ty)?;
        }
        Ok(())
    }

    /// Adds a quantifier alone: the bracket and the word, the type in parentheses, and the closing bracket.
    pub(crate) fn quantifier(&mut self, word: &[u8], ty: &Ty) -> Result<(), AllocError>
        ensures { OnOk result (self.new ≡ after self.old (fixed (word.now ++ (in_parentheses (plain_type ty.now) ++ codes "]")) ∷ [])) }
    {
        self.text.append(word)?;
        append_in_parentheses(&mut self.text, ty)?;
        self.text.append(b"]")
    }

    /// Adds a binder: its word, its variable with the type, and a dot.
    pub(crate) fn binder(&mut self, word: &[u8], name: &[u8], ty: &Ty) -> Result<(), AllocError>
        ensures { OnOk result (self.new ≡ after self.old (fixed (binder_text word.now name.now (plain_type ty.now)) ∷ [])) }
    {
        self.text.append(word)?;
        self.text.append(b" ")?;
        self.text.append(name)?;
        append_in_parentheses(&mut self.text, ty)?;
        self.text.append(b". ")
    }
}
