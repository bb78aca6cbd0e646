//! The texts of links.

ghost use Rattle.std.specs.Prelude.{◌≡◌, ◌≤◌};
ghost use Rattle.market_rows.specs.Reading.{link_read, service_link_read, asked_link_read, told_link_read};
ghost use Rattle.market_rows.specs.Reading.{two_numbers_read};

use market_events::{LANES, Link, SERVICE_LINKS, SERVICES};
use market_words::{Pieces, number_within};
use std::fmt;

// The greatest lane, service and number of a service link.
const MOST_LANE: u64 = LANES as u64 - 1;

const MOST_SERVICE: u64 = SERVICES as u64 - 1;

const MOST_SERVICE_LINK: u64 = SERVICE_LINKS as u64 - 1;

/// A link, written `LNUMBER`, `ALANE.SERVICE` or `TSERVICE.LANE`.
#[derive(Clone, Copy)]
pub(crate) struct LinkText(pub Link);

impl fmt::Display for LinkText {
    ghost use Rattle.std.specs.Prelude.{Some};
    ghost use Rattle.market_rows.specs.Rows.{link_text};

    ghost output = { λ text. Some (link_text text.0) };

    fn fmt<W: fmt::Write>(&self, f: &mut fmt::Formatter<W>) -> fmt::Result {
        match self.0 {
            Link::Service(number) => write!(f, "L{number}"),
            Link::Asked(lane, service) => write!(f, "A{lane}.{service}"),
            Link::Told(service, lane) => write!(f, "T{service}.{lane}"),
        }
    }
}

// The link of a text.
pub(crate) fn link(text: &[u8]) -> Option<Link>
    ensures { result ≡ link_read text.now }
{
    let (letter, numbers) = text.split_first()?;
    match *letter {
        b'L' => service_link(numbers),
        b'A' => asked_link(numbers),
        b'T' => told_link(numbers),
        _ => None,
    }
}

// A link between services.
fn service_link(text: &[u8]) -> Option<Link>
    ensures { result ≡ service_link_read text.now }
{
    let number = number_within(text, MOST_SERVICE_LINK).ok()?;
    Some(Link::Service(number as u8))
}

// A link from a lane to a service.
fn asked_link(text: &[u8]) -> Option<Link>
    ensures { result ≡ asked_link_read text.now }
{
    let (lane, service) = two_numbers(text, MOST_LANE, MOST_SERVICE)?;
    Some(Link::Asked(lane, service))
}

// A link from a service to a lane.
fn told_link(text: &[u8]) -> Option<Link>
    ensures { result ≡ told_link_read text.now }
{
    let (service, lane) = two_numbers(text, MOST_SERVICE, MOST_LANE)?;
    Some(Link::Told(service, lane))
}

// Two numbers with a dot between them, each of which has a limit.
fn two_numbers(text: &[u8], first_limit: u64, second_limit: u64) -> Option<(u8, u8)>
    requires first { first_limit ≤ u8.MAX }
    requires second { second_limit ≤ u8.MAX }
    ensures { result ≡ two_numbers_read first_limit second_limit text.now }
{
    let mut pieces = Pieces::new(text, b'.');
    let first = pieces.next()?;
    let second = pieces.next()?;
    if pieces.next().is_some() {
        return None;
    }
    let first = number_within(first, first_limit).ok()?;
    let second = number_within(second, second_limit).ok()?;
    Some((first as u8, second as u8))
}
