//! The lists in a word, joined by `;`.

ghost use Rattle.std.specs.Prelude.{◌≡◌, ◌∷◌, [], ◌++◌, not, false, IfOk};
ghost use Rattle.market_texts.specs.Reading.{items_read, lines_read};
ghost use Rattle.market_events.specs.WellFormed.{key_below};
ghost use Rattle.market_texts.specs.Cutting.{lines_break, last_below};

use crate::forms::{item, line};
use market_amounts::{List, ProductKey};
use market_events::{Item, PricedLine};
use market_words::{Pieces, WordFault};
use std::alloc::{AllocError, Global};

// The greatest number of lines.
const MOST_LINES: usize = 32;

// The greatest number of items.
const MOST_ITEMS: usize = 320;

// Reads lines. Of the faults of a list the first kind is answered: spelling, then ranges, then the number of
// lines and their order.
pub(crate) fn lines(
    alloc: Global,
    text: &[u8],
) -> Result<Result<List<PricedLine>, WordFault>, AllocError>
    ensures { IfOk result (λ said. said ≡ lines_read text.now) }
{
    let mut pieces = Pieces::new(text, b';');
    let mut lines = Vec::new(alloc);
    let mut fault = None;
    while let Some(piece) = pieces.next() {
        match line(piece) {
            Ok(line) => {
                if fault.is_none() {
                    if may_follow(&lines, &line) {
                        lines.push(line)?;
                    } else {
                        fault = Some(WordFault::Field);
                    }
                }
            }
            Err(WordFault::Range) => fault = Some(WordFault::Range),
            Err(WordFault::Field) => return Ok(Err(WordFault::Field)),
        }
    }
    Ok(match fault {
        None => Ok(List::from_vec(lines)),
        Some(fault) => Err(fault),
    })
}

// Whether a line may stand behind these.
#[tactic(auto, using(crate::proofs::Ruled::may_follow))]
fn may_follow(lines: &[PricedLine], line: &PricedLine) -> bool
    requires { lines_break lines.now ≡ false }
    ensures { result ≡ not (lines_break (lines.now ++ line.now ∷ [])) }
{
    lines.len() < MOST_LINES && is_above(line, lines)
}

// Whether a line has a higher key than the last of these.
#[tactic(auto, using(crate::proofs::Ruled::last_is_below))]
fn is_above(line: &PricedLine, lines: &[PricedLine]) -> bool
    ensures { result ≡ last_below lines.now line.now }
{
    match lines {
        [] => true,
        [.., last] => is_below(last.key, line.key),
    }
}

// Keys stand by seller, and then by product.
fn is_below(a: ProductKey, b: ProductKey) -> bool
    ensures { result ≡ key_below a b }
{
    a < b
}

// Reads items. Of the faults of a list the first kind is answered: spelling, then ranges, then the number of
// items.
pub(crate) fn items(alloc: Global, text: &[u8]) -> Result<Result<List<Item>, WordFault>, AllocError>
    ensures { IfOk result (λ said. said ≡ items_read text.now) }
{
    let mut pieces = Pieces::new(text, b';');
    let mut items = Vec::new(alloc);
    let mut fault = None;
    while let Some(piece) = pieces.next() {
        match item(piece) {
            Ok(item) => {
                if fault.is_none() {
                    if items.len() < MOST_ITEMS {
                        items.push(item)?;
                    } else {
                        fault = Some(WordFault::Field);
                    }
                }
            }
            Err(WordFault::Range) => fault = Some(WordFault::Range),
            Err(WordFault::Field) => return Ok(Err(WordFault::Field)),
        }
    }
    Ok(match fault {
        None => Ok(List::from_vec(items)),
        Some(fault) => Err(fault),
    })
}
