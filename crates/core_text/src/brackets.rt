//! Reads bracketed forms.

ghost use Rattle.std.specs.Prelude.{◌≡◌, ◌≢◌, ◌+◌, ◌<◌, ◌≤◌, ◌++◌, ◌∷◌, [], All, IfErr, IfNone, IfOk, IfSome, None, Some, drop, false, length, map, nat_lt, true};
ghost use Rattle.core_text.specs.Faults.{IsFaultUnlessMemory, cause, depth_after, first_fault, form_fault};
ghost use Rattle.core_text.specs.Forms.{AreWellSpelled, Form, IsTextOf, IsWellSpelled};
ghost use Rattle.core_text.specs.Lexed.{plain_piece};
ghost use Rattle.core_text.specs.Open.{HasGoodItems, layout_of_items, open_layout};
ghost use Rattle.core_text.specs.Placed.{form_of, forms, kept, layout, layout_of_all, placed, placed_all};
ghost use Rattle.core_text.specs.Tokens.{closing, opening, piece, pieces, word};
ghost use Rattle.core_text.specs.Words.{is_good};

use crate::faults::TextFault;
use crate::pieces::{Piece, next_piece};
use crate::sexps::{Sexp, Sexps};
use crate::words::{is_word, numeral};
use hol_terms::lists::Text;
use std::alloc::{AllocError, Global};

/// The number of brackets that may be open at once.
pub const DEEPEST: usize = 5000;

/// A bracket that is open, and the forms after it so far.
#[derive(Drop)]
struct Frame {
    place: u64,
    items: Vec<Sexp>,
}

/// The forms as the members of a list.
fn members(alloc: Global, items: Vec<Sexp>) -> Result<Sexps, AllocError>
    ensures spelled { IfOk result (λ all. layout_of_all (placed_all all) ≡ layout_of_items items.items) }
    ensures good { All (λ s. IsWellSpelled (form_of s)) items.items → IfOk result (λ all. AreWellSpelled (forms (placed_all all))) }
{
    let mut items = items;
    let mut all = Sexps::End;
    while let Some(last) = items.pop() {
        let last = Box::new(alloc, last)?;
        all = Sexps::More(last, Box::new(alloc, all)?);
    }
    Ok(all)
}

/// The form of a word.
fn leaf(alloc: Global, bytes: &[u8], place: u64) -> Result<Sexp, TextFault>
    ensures spelled { IfOk result (λ s. layout (placed s) ≡ piece (word bytes.now) place ∷ []) }
    ensures good { IfOk result (λ s. IsWellSpelled (form_of s)) }
    ensures token { IfOk result (λ _. is_good bytes.now ≡ true) }
    ensures fault { IfErr result (λ e. e ≢ TextFault.Memory → (is_good bytes.now ≡ false) × (e ≡ TextFault.BadToken place)) }
{
    if let Some(number) = numeral(bytes) {
        return Ok(Sexp::Number(number, place));
    }
    if !is_word(bytes) {
        return Err(TextFault::BadToken(place));
    }
    let mut text = Text::new(alloc);
    text.append(bytes)?;
    Ok(Sexp::Word(text, place))
}

/// Puts a whole form after the innermost open bracket, or hands it out where none is open.
fn deliver(frames: &mut Vec<Frame>, item: Sexp) -> Result<Option<Sexp>, TextFault>
    ensures whole { IfOk result (λ r. IfSome r (λ s. (frames.old.items ≡ []) × (placed s ≡ placed item))) }
    ensures more { IfOk result (λ r. IfNone r (open_layout frames.new.items ≡ open_layout frames.old.items ++ layout (placed item))) }
    ensures good { IsWellSpelled (form_of item) → All HasGoodItems frames.old.items → IfOk result (λ r. IfNone r (All HasGoodItems frames.new.items)) }
    ensures depth { IfOk result (λ r. IfNone r ((0 < length frames.old.items) × (length frames.new.items ≡ length frames.old.items))) }
    ensures fault { IfErr result (λ e. e ≡ TextFault.Memory) }
{
    match frames.pop() {
        None => Ok(Some(item)),
        Some(frame) => {
            let Frame { place, mut items } = frame;
            items.push(item)?;
            frames.push(Frame { place, items })?;
            Ok(None)
        }
    }
}

/// Opens a bracket.
fn open(alloc: Global, frames: &mut Vec<Frame>, place: u64) -> Result<(), TextFault>
    requires { length frames.old.items ≤ 5000 }
    ensures layout { IfOk result (λ _. open_layout frames.new.items ≡ open_layout frames.old.items ++ piece opening place ∷ []) }
    ensures good { All HasGoodItems frames.old.items → IfOk result (λ _. All HasGoodItems frames.new.items) }
    ensures depth { IfOk result (λ _. (length frames.new.items ≡ length frames.old.items + 1) × (length frames.old.items < 5000)) }
    ensures clean { IfOk result (λ _. cause (length frames.old.items) (nat_lt 0 (length frames.old.items)) (piece opening place) ≡ None) }
    ensures fault { IfErr result (λ e. IsFaultUnlessMemory e (cause (length frames.old.items) (nat_lt 0 (length frames.old.items)) (piece opening place))) }
{
    if frames.len() == DEEPEST {
        return Err(TextFault::TooDeep(place));
    }
    let items = Vec::new(alloc);
    frames.push(Frame { place, items })?;
    Ok(())
}

/// Takes away the innermost open bracket: its list, which is whole.
fn close(alloc: Global, frames: &mut Vec<Frame>, here: u64) -> Result<Sexp, TextFault>
    ensures layout { IfOk result (λ s. open_layout frames.old.items ++ piece closing 0 ∷ [] ≡ open_layout frames.new.items ++ layout (placed s)) }
    ensures good { All HasGoodItems frames.old.items → IfOk result (λ s. IsWellSpelled (form_of s) × All HasGoodItems frames.new.items) }
    ensures depth { IfOk result (λ _. length frames.new.items + 1 ≡ length frames.old.items) }
    ensures fault { IfErr result (λ e. IsFaultUnlessMemory e (cause (length frames.old.items) (nat_lt 0 (length frames.old.items)) (piece closing here))) }
{
    let Some(frame) = frames.pop() else {
        return Err(TextFault::Unbalanced(here));
    };
    let Frame { place, items } = frame;
    let all = members(alloc, items)?;
    Ok(Sexp::List(all, place))
}

/// Takes one piece more: a whole form, or nothing yet.
fn take_piece(
    alloc: Global,
    frames: &mut Vec<Frame>,
    piece: Piece<'_>,
) -> Result<Option<Sexp>, TextFault>
    requires { length frames.old.items ≤ 5000 }
    ensures whole { IfOk result (λ r. IfSome r (λ s. layout (placed s) ≡ open_layout frames.old.items ++ kept (plain_piece piece.entry) ∷ [])) }
    ensures good { All HasGoodItems frames.old.items → IfOk result (λ r. IfSome r (λ s. IsWellSpelled (form_of s))) }
    ensures last { IfOk result (λ r. IfSome r (λ _. depth_after (length frames.old.items) (plain_piece piece.entry) ≡ 0)) }
    ensures more { IfOk result (λ r. IfNone r (open_layout frames.new.items ≡ open_layout frames.old.items ++ kept (plain_piece piece.entry) ∷ [])) }
    ensures still_good { All HasGoodItems frames.old.items → IfOk result (λ r. IfNone r (All HasGoodItems frames.new.items)) }
    ensures depth { IfOk result (λ r. IfNone r ((length frames.new.items ≡ depth_after (length frames.old.items) (plain_piece piece.entry)) × (0 < length frames.new.items) × (length frames.new.items ≤ 5000))) }
    ensures clean { IfOk result (λ _. cause (length frames.old.items) (nat_lt 0 (length frames.old.items)) (plain_piece piece.entry) ≡ None) }
    ensures fault { IfErr result (λ e. IsFaultUnlessMemory e (cause (length frames.old.items) (nat_lt 0 (length frames.old.items)) (plain_piece piece.entry))) }
{
    match piece {
        Piece::Opening(place) => {
            open(alloc, frames, place)?;
            Ok(None)
        }
        Piece::Word(bytes, place) => {
            let item = leaf(alloc, bytes, place)?;
            deliver(frames, item)
        }
        Piece::Closing(place) => {
            let item = close(alloc, frames, place)?;
            deliver(frames, item)
        }
    }
}

/// The fault of a piece after a whole form.
fn trailing(piece: Piece<'_>) -> TextFault
    ensures fault { IsFaultUnlessMemory result (cause 0 true (plain_piece piece.entry)) }
    ensures found { result ≢ TextFault.Memory }
{
    match piece {
        Piece::Opening(place) => TextFault::Trailing(place),
        Piece::Closing(place) => TextFault::Unbalanced(place),
        Piece::Word(bytes, place) => {
            if numeral(bytes).is_some() || is_word(bytes) {
                TextFault::Trailing(place)
            } else {
                TextFault::BadToken(place)
            }
        }
    }
}

/// The form, where nothing but white space follows it.
fn whole(bytes: &[u8], at: usize, form: Sexp) -> Result<Sexp, TextFault>
    requires { at ≤ length bytes.now }
    ensures same { IfOk result (λ s. placed s ≡ placed form) }
    ensures last { IfOk result (λ _. pieces at (drop at bytes.now) ≡ []) }
    ensures fault { IfErr result (λ e. IsFaultUnlessMemory e (first_fault 0 true (pieces at (drop at bytes.now)) (length bytes.now))) }
{
    match next_piece(bytes, at) {
        None => Ok(form),
        Some((piece, _)) => Err(trailing(piece)),
    }
}

/// Reads one form, all of the bytes but for white space.
fn read_pieces(alloc: Global, bytes: &[u8]) -> Result<Sexp, TextFault>
    ensures spelled { IfOk result (λ s. layout (placed s) ≡ map kept (pieces 0 bytes.now)) }
    ensures good { IfOk result (λ s. IsWellSpelled (form_of s)) }
    ensures clean { IfOk result (λ _. first_fault 0 false (pieces 0 bytes.now) (length bytes.now) ≡ None) }
    ensures fault { IfErr result (λ e. IsFaultUnlessMemory e (first_fault 0 false (pieces 0 bytes.now) (length bytes.now))) }
{
    let mut frames = Vec::new(alloc);
    let mut at = 0;
    while let Some((piece, end)) = next_piece(bytes, at) {
        at = end;
        if let Some(form) = take_piece(alloc, &mut frames, piece)? {
            return whole(bytes, at, form);
        }
    }
    Err(TextFault::Unbalanced(bytes.len() as u64))
}

/// Reads a text of one form. Of the faults it answers `NotUtf8` first, and of the others the one at the least place, where two
/// have one place the one that `TextFault` lists first.
pub fn read_sexp(alloc: Global, bytes: &[u8]) -> Result<Sexp, TextFault>
    ensures text { IfOk result (λ s. IsTextOf bytes.now (form_of s)) }
    ensures places { IfOk result (λ s. layout (placed s) ≡ map kept (pieces 0 bytes.now)) }
    ensures fault { IfErr result (λ e. IsFaultUnlessMemory e (form_fault bytes.now)) }
    ensures no_text { IfErr result (λ e. e ≢ TextFault.Memory → (f : Form) → IsTextOf bytes.now f → ⊥) }
{
    match std::str::from_utf8(bytes) {
        Ok(_) => read_pieces(alloc, bytes),
        Err(_) => Err(TextFault::NotUtf8),
    }
}
