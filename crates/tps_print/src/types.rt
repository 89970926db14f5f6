//! Printed types.

ghost use Rattle.std.specs.Prelude.{◌≡◌, ◌++◌, OnOk};
ghost use Rattle.hol_terms.specs.Terms.{plain_type};
ghost use Rattle.tps_print.specs.Pieces.{in_parentheses, printed_type};

use hol_terms::lists::Text;
use hol_terms::types::Ty;
use std::alloc::AllocError;

/// Adds a type: the letter of a base type; the result of a function type and then its argument, in parentheses where it is a function
/// type.
pub(crate) fn append_type(text: &mut Text, ty: &Ty) -> Result<(), AllocError>
    ensures { OnOk result (text.new ≡ text.old ++ printed_type (plain_type ty.now)) }
{
    match ty {
        Ty::Base(letter) => text.push(letter.byte()),
        Ty::Fun(result_type, argument) => {
            append_type(text, result_type)?;
            match &**argument {
                Ty::Base(letter) => text.push(letter.byte()),
                Ty::Fun(_, _) => {
                    text.push(b'(')?;
                    append_type(text, argument)?;
                    text.push(b')')
                }
            }
        }
    }
}

/// Adds a type in parentheses.
pub(crate) fn append_in_parentheses(text: &mut Text, ty: &Ty) -> Result<(), AllocError>
    ensures { OnOk result (text.new ≡ text.old ++ in_parentheses (plain_type ty.now)) }
{
    text.push(b'(')?;
    append_type(text, ty)?;
    text.push(b')')
}
