//! What a command answers to its input.

ghost use Rattle.std.specs.Prelude.{◌≡◌, IfOk};

use hol_terms::lists::Text;
use std::alloc::{AllocError, Global};

/// What a command answers to its input, with the whole output.
#[derive(Drop)]
pub enum Answer {
    /// The bytes aren't a text of the command's form.
    Unreadable,
    /// The work was done, or the answer is yes.
    Yes(Text),
    /// The answer is no.
    No(Text),
}

/// A text of these bytes.
pub fn said(alloc: Global, bytes: &[u8]) -> Result<Text, AllocError>
    ensures { IfOk result (λ text. text ≡ bytes.now) }
{
    let mut text = Text::new(alloc);
    text.append(bytes)?;
    Ok(text)
}
