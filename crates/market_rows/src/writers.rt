//! Rows of entries.

ghost use Rattle.std.specs.Prelude.{◌≡◌, [], ◌∷◌, ◌++◌, length, IfOk};
ghost use Rattle.std.specs.Fmt.{decimal};
ghost use Rattle.std.specs.List.{join_with_byte};
ghost use Rattle.std.specs.String.{string_bytes};
ghost use Rattle.market_events.specs.declared.links.TheConstants.{SERVICE_LINKS};
ghost use Rattle.market_events.specs.Texts.{text_of_request};
ghost use Rattle.market_events.specs.WellFormed.{IsBody, IsReply, IsRequest};
ghost use Rattle.market_history.specs.Journals.{IsEntry};
ghost use Rattle.market_rows.specs.Rows.{text_of_row, event_fields, answer_text};

use crate::links::LinkText;
use crate::pasts::write_past;
use market_amounts::{List, RequestId};
use market_edges::Row;
use market_events::{Entry, Event, Node, Reply, Request, What};
use market_texts::{body_text, reply_text, request_text};
use market_words::IdText;
use std::alloc::{AllocError, Global};

// What stands in front of the body of a row fits into this room, where its counts are small.
const HEAD_ROOM: usize = 128;

/// The row of an entry at this place of the node's journal. It requires an entry that may stand there.
pub fn entry_row(alloc: Global, node: Node, place: u32, entry: &Entry) -> Result<Row, AllocError>
    requires { IsEntry node place entry.now }
    ensures { IfOk result (λ row. row ≡ record { place = place; text = text_of_row node place entry.now }) }
{
    let text = List::from_vec(entry_text(alloc, node, place, entry)?);
    Ok(Row { place, text })
}

// The text of the row.
fn entry_text(alloc: Global, node: Node, place: u32, entry: &Entry) -> Result<Vec<u8>, AllocError>
    requires { IsEntry node place entry.now }
    ensures { IfOk result (λ text. text.items ≡ text_of_row node place entry.now) }
{
    match &entry.what {
        What::Given(request) => {
            given_row(head(alloc, node, place, entry.clock, "given,,,,")?, request)
        }
        What::Taken(event) => event_row(head(alloc, node, place, entry.clock, "taken")?, event),
        What::Made(event) => event_row(head(alloc, node, place, entry.clock, "made")?, event),
        What::Answered(id, reply) => {
            answered_row(
                head(alloc, node, place, entry.clock, "answered,,,,")?,
                *id,
                reply,
            )
        }
    }
}

// NODE,PLACE,CLOCK,KIND,
fn head(alloc: Global, node: Node, place: u32, clock: u64, kind: &str) -> Result<String, AllocError>
    ensures { IfOk result (λ head. string_bytes head
        ≡ join_with_byte 44 (decimal node ∷ decimal place ∷ decimal clock ∷ kind.now ∷ [] ∷ [])) }
{
    let mut head = String::with_capacity(alloc, HEAD_ROOM)?;
    write!(head, "{},{place},{clock},{kind},", node.get())?;
    Ok(head)
}

// The request behind this head.
fn given_row(head: String, request: &Request) -> Result<Vec<u8>, AllocError>
    requires { IsRequest request.now }
    ensures { IfOk result (λ text. text.items ≡ string_bytes head ++ text_of_request request.now) }
{
    let mut text = head.into_bytes();
    request_text(request, &mut text)?;
    Ok(text)
}

// The id and the reply behind this head.
fn answered_row(mut head: String, id: RequestId, reply: &Reply) -> Result<Vec<u8>, AllocError>
    requires { IsReply reply.now }
    ensures { IfOk result (λ text. text.items ≡ string_bytes head ++ answer_text id reply.now) }
{
    write!(head, "{} ", IdText(id))?;
    let mut text = head.into_bytes();
    reply_text(reply, &mut text)?;
    Ok(text)
}

// The event behind this head.
fn event_row(mut head: String, event: &Event) -> Result<Vec<u8>, AllocError>
    requires past { length event.now.past ≡ SERVICE_LINKS }
    requires body { IsBody event.now.body }
    ensures { IfOk result (λ text. text.items
        ≡ string_bytes head ++ join_with_byte 44 (event_fields event.now)) }
{
    write!(
        head,
        "{},{},{},",
        LinkText(event.link),
        event.number,
        event.clock
    )?;
    write_past(&event.past, &mut head)?;
    head.push(',')?;
    let mut text = head.into_bytes();
    body_text(&event.body, &mut text)?;
    Ok(text)
}
