//! Calls of `tps_reader`.

ghost use Rattle.std.specs.Prelude.{◌≡◌, IfOk, List, decimal, string_bytes};
ghost use Rattle.tps_reader.specs.Depth.{depth_of};
ghost use Rattle.tps_reader.specs.Tokens.{AreTokensOf, Token as PlainToken};

use crate::answers::{Answer, NoAnswer};
use crate::forms::{form_and_text, read_bytes, read_repeated};
use crate::raws::raw_text;
use call_lines::answers::verdict;
use core_text::sexps::Sexp;
use core_text::terms::read_number;
use std::alloc::Global;
use tps_reader::phrases::read_phrase;
use tps_reader::readers::read_raw;
use tps_reader::tokens::{Tokens, read_tokens};

/// `TEXT`: the place and the length of each token.
pub fn token_places(alloc: Global, arguments: &str) -> Answer {
    let tokens = read_tokens(alloc, arguments.as_bytes())?;
    let mut answer = String::new(alloc);
    for i in 0..tokens.len() {
        let token = tokens.at(i);
        let place = token.place;
        let length = token.length;
        answer.push_str(format!(in alloc; "({place} {length})")?.as_str())?;
    }
    Ok(answer)
}

/// `TEXT`: its depth.
pub fn depth(alloc: Global, arguments: &str) -> Answer
    ensures { IfOk result (λ answer. (tokens : List PlainToken) × AreTokensOf arguments.now tokens × string_bytes answer ≡ decimal (depth_of tokens)) }
{
    let tokens = read_tokens(alloc, arguments.as_bytes())?;
    let depth = tokens.depth();
    Ok(format!(in alloc; "{depth}")?)
}

/// `TEXT`: its raw formula.
pub fn raw(alloc: Global, arguments: &str) -> Answer {
    raw_text(alloc, &read_raw(alloc, arguments.as_bytes())?)
}

/// `(BYTE ..)`: the raw formula of the text of these bytes.
pub fn raw_of_bytes(alloc: Global, arguments: &str) -> Answer {
    let text = read_bytes(alloc, arguments)?;
    raw_text(alloc, &read_raw(alloc, text.as_slice())?)
}

/// `COUNT | FIRST|TEXT|LAST`: whether the text, so many times between the others, is a formula text.
pub fn raw_of_repeated(alloc: Global, arguments: &str) -> Answer {
    let text = read_repeated(alloc, arguments)?;
    read_raw(alloc, text.as_bytes())?;
    Ok(verdict(alloc, true)?)
}

/// The phrase of the tokens of the range.
fn phrase_between(alloc: Global, tokens: &Tokens, range: &Sexp, origin: u64, end: u64) -> Answer {
    let from = read_number(range.first())? as usize;
    let behind = read_number(range.second())? as usize;
    let lexemes = tokens.as_slice();
    if from > behind || behind > lexemes.len() {
        return Err(NoAnswer::Arguments);
    }
    raw_text(
        alloc,
        &read_phrase(alloc, &lexemes[from..behind], origin, end)?,
    )
}

/// `((FIRST BEHIND) ORIGIN END) | TEXT`: the phrase of the tokens from the first one to the one before that after them, with places
/// from the origin on.
pub fn phrase(alloc: Global, arguments: &str) -> Answer {
    let (form, text) = form_and_text(alloc, arguments)?;
    let tokens = read_tokens(alloc, text.as_bytes())?;
    let origin = read_number(form.second())?;
    let end = read_number(form.third())?;
    phrase_between(alloc, &tokens, form.first(), origin, end)
}
