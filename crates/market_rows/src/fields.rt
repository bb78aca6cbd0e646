//! The fields of a row.

ghost use Rattle.std.specs.Prelude.{◌≡◌, option_map};
ghost use Rattle.market_rows.specs.Reading.{cut_at, fields_read, has_no_event, says};

use market_words::{cut, id_number};
use std::marker::Model;

/// The nine fields of a row, as they are spelled.
#[derive(Drop)]
pub(crate) struct Fields<'a> {
    pub(crate) node: &'a [u8],
    pub(crate) place: &'a [u8],
    pub(crate) clock: &'a [u8],
    pub(crate) kind: &'a [u8],
    pub(crate) link: &'a [u8],
    pub(crate) number: &'a [u8],
    pub(crate) sent: &'a [u8],
    pub(crate) past: &'a [u8],
    pub(crate) body: &'a [u8],
}

impl<'a> Model for Fields<'a> {
    ghost use Rattle.market_rows.specs.Reading.{RowFields};

    ghost Value = { RowFields };

    ghost view = { λ f. record {
      node = f.node.now;
      place = f.place.now;
      clock = f.clock.now;
      kind = f.kind.now;
      link = f.link.now;
      number = f.number.now;
      sent = f.sent.now;
      past = f.past.now;
      body = f.body.now;
    } };
}

impl Fields<'_> {
    // Whether the four fields of an event are empty.
    pub(crate) fn has_no_event(&self) -> bool
        ensures { result ≡ has_no_event self.now }
    {
        self.link.is_empty()
            && self.number.is_empty()
            && self.sent.is_empty()
            && self.past.is_empty()
    }
}

// The fields of a row: eight with a comma behind each, and the last one.
pub(crate) fn cut_fields(text: &[u8]) -> Option<Fields>
    ensures { result ≡ fields_read text.now }
{
    let (node, rest) = part(text, b',')?;
    let (place, rest) = part(rest, b',')?;
    let (clock, rest) = part(rest, b',')?;
    let (kind, rest) = part(rest, b',')?;
    let (link, rest) = part(rest, b',')?;
    let (number, rest) = part(rest, b',')?;
    let (sent, rest) = part(rest, b',')?;
    let (past, body) = part(rest, b',')?;
    Some(Fields {
        node,
        place,
        clock,
        kind,
        link,
        number,
        sent,
        past,
        body,
    })
}

// What stands in front of the first byte c of a text, and what stands behind it.
#[tactic(auto, using(crate::proofs::Cuts::cut_some))]
pub(crate) fn part(text: &[u8], c: u8) -> Option<(&[u8], &[u8])>
    ensures { option_map (λ p. (p.0.now, p.1.now)) result ≡ cut_at c text.now }
{
    let (front, behind) = cut(text, c);
    Some((front, behind?))
}

// Whether a text is that of the number.
pub(crate) fn says(text: &[u8], number: u32) -> bool
    ensures { result ≡ says number text.now }
{
    match id_number(text) {
        Ok(said) => said == number,
        Err(_) => false,
    }
}
