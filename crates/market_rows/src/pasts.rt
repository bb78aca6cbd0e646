//! The texts of pasts.

ghost use Rattle.std.specs.Prelude.{◌≡◌, ◌++◌, [], ◌==◌, if◌then◌else◌, length, codes, OnOk};
ghost use Rattle.std.specs.String.{string_bytes};
ghost use Rattle.market_rows.specs.Reading.{past_read};
ghost use Rattle.market_rows.specs.Rows.{past_text};

use market_events::{Counts, SERVICE_LINKS};
use market_words::{Pieces, id_number};
use std::alloc::AllocError;

// Appends the counts of a past.
pub(crate) fn write_past(past: &Counts, out: &mut String) -> Result<(), AllocError>
    requires { length past.now ≡ SERVICE_LINKS }
    ensures { OnOk result (string_bytes out.new ≡ string_bytes out.old ++ past_text past.now) }
{
    for link in 0..SERVICE_LINKS {
        let separator = separator_at(link);
        write!(out, "{separator}{}", past.get(link as u8))?;
    }
    Ok(())
}

// What stands before a count.
fn separator_at(link: usize) -> &'static str
    ensures { result.now ≡ (if link == 0 then [] else codes " ") }
{
    if link == 0 { "" } else { " " }
}

// The past of a text.
pub(crate) fn past(text: &[u8]) -> Option<Counts>
    ensures { result ≡ past_read text.now }
{
    let mut pieces = Pieces::new(text, b' ');
    let mut past = Counts::zero();
    for link in 0..SERVICE_LINKS {
        let piece = pieces.next()?;
        let count = id_number(piece).ok()?;
        past.raise(link as u8, count);
    }
    match pieces.next() {
        None => Some(past),
        Some(_) => None,
    }
}
