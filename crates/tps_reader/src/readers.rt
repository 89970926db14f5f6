//! Raw formulas read from text.

ghost use Rattle.std.specs.Prelude.{◌≡◌, ◌≢◌, IfErr, IfOk};
ghost use Rattle.tps_reader.specs.Faults.{IsFormulaText, IsRawFault};
ghost use Rattle.tps_reader.specs.Raws.{RawFormula, plain_raw};

use crate::faults::RawFault;
use crate::phrases::read_phrase;
use crate::raws::Raw;
use crate::tokens::read_tokens;
use std::alloc::Global;

/// The greatest depth of a formula text.
pub const DEEPEST: u64 = 1000;

/// Reads a formula text. Of the faults the first of these is answered: `NotUtf8`; `BadCharacter`, with the first place at which no
/// token begins; `TooDeep`, with the depth, where it is above 1,000; and `Unexpected`, with the place of the first token such that no
/// formula text begins with the tokens up to it, or the length of the text where the tokens only begin one.
pub fn read_raw(alloc: Global, text: &[u8]) -> Result<Raw, RawFault>
    ensures formula { IfOk result (λ raw. IsFormulaText text.now (plain_raw raw)) }
    ensures only { IfOk result (λ raw. (other : RawFormula) → IsFormulaText text.now other → other ≡ plain_raw raw) }
    ensures fault { IfErr result (λ fault. IsRawFault text.now fault) }
    ensures none { IfErr result (λ fault. fault ≢ RawFault.Memory → (other : RawFormula) → IsFormulaText text.now other → ⊥) }
{
    let tokens = match read_tokens(alloc, text) {
        Ok(tokens) => tokens,
        Err(fault) => return Err(fault),
    };
    let depth = tokens.depth();
    if depth > DEEPEST {
        return Err(RawFault::TooDeep(depth));
    }
    read_phrase(alloc, tokens.as_slice(), 0, text.len() as u64)
}
