//! Entries of rows.

ghost use Rattle.std.specs.Prelude.{◌≡◌, ◌≢◌, ◌<◌, ◌⊎◌, Ok, Err, IfOk};
ghost use Rattle.market_events.specs.declared.events.Entry.{Entry};
ghost use Rattle.market_history.specs.Journals.{IsEntry};
ghost use Rattle.market_rows.specs.Reading.{Tells, entry_read, names_place, stamped_read, what_read};
ghost use Rattle.market_rows.specs.Reading.{given_read, answered_read, event_read, answer_read, clock_read};
ghost use Rattle.market_rows.specs.Reading.{number_read};
ghost use Rattle.market_rows.specs.Rows.{text_of_row};

use crate::faults::RowFault;
use crate::fields::{Fields, cut_fields, part, says};
use crate::happening::happens;
use crate::links::link;
use crate::pasts::past;
use market_amounts::RequestId;
use market_edges::Row;
use market_events::{Entry, Event, Node, Reply, What};
use market_texts::{read_body, read_reply, read_request};
use market_words::{id, number_within};
use std::alloc::Global;

// The greatest clock.
const MOST_CLOCK: u64 = 1 << 62;

/// Reads the entry of a row, by the row's text. It is `Bad` exactly where the text is the row of no entry
/// that may stand at this place of the node's journal. Bytes of any kind are read or refused.
pub fn read_row(alloc: Global, row: &Row, node: Node, place: u32) -> Result<Entry, RowFault>
    // An entry that is read may stand there, and the text is its row.
    ensures stands { IfOk result (IsEntry node place) }
    ensures spelled { IfOk result (λ entry. row.now.text ≡ text_of_row node place entry) }

    // The row of such an entry is read as that entry, unless memory is wanting.
    ensures reads { (entry : Entry) → IsEntry node place entry → row.now.text ≡ text_of_row node place entry
        → (result ≡ Ok entry) ⊎ (result ≡ Err RowFault.OutOfMemory) }

    // A text that is bad is the row of none.
    ensures bad { result ≡ Err RowFault.Bad
        → (entry : Entry) → IsEntry node place entry → row.now.text ≢ text_of_row node place entry }
{
    let _number = node.get();
    let text = row.text.as_slice();
    entry(alloc, text, node, place)
}

// The entry of a text.
fn entry(alloc: Global, text: &[u8], node: Node, place: u32) -> Result<Entry, RowFault>
    ensures { Tells result (entry_read node place text.now) }
{
    let Some(fields) = cut_fields(text) else {
        return Err(RowFault::Bad);
    };
    if !names_place(&fields, node, place) {
        return Err(RowFault::Bad);
    }
    stamped(alloc, &fields, node)
}

// Whether the fields name this node and this place.
fn names_place(fields: &Fields, node: Node, place: u32) -> bool
    ensures { result ≡ names_place node place fields.now }
{
    says(fields.node, node.get()) && says(fields.place, place) && place < u32::MAX
}

// The entry of the fields that may stand in the node's journal.
fn stamped(alloc: Global, fields: &Fields, node: Node) -> Result<Entry, RowFault>
    ensures { Tells result (stamped_read node fields.now) }
{
    let clock = clock(fields.clock).ok_or(RowFault::Bad)?;
    let what = what(alloc, fields)?;
    if !happens(node, clock, &what) {
        return Err(RowFault::Bad);
    }
    Ok(Entry { clock, what })
}

// A clock.
fn clock(text: &[u8]) -> Option<u64>
    ensures { result ≡ clock_read text.now }
{
    number_within(text, MOST_CLOCK).ok()
}

// The number of an event, from 1 on.
fn event_number(text: &[u8]) -> Option<u32>
    ensures { result ≡ number_read text.now }
{
    match number_within(text, u64::from(u32::MAX)).ok()? {
        0 => None,
        number => Some(number as u32),
    }
}

// What happened, by the kind.
fn what(alloc: Global, fields: &Fields) -> Result<What, RowFault>
    ensures { Tells result (what_read fields.now) }
{
    if fields.kind == b"given".as_slice() {
        given(fields)
    } else if fields.kind == b"taken".as_slice() {
        Ok(What::Taken(event(alloc, fields)?))
    } else if fields.kind == b"made".as_slice() {
        Ok(What::Made(event(alloc, fields)?))
    } else if fields.kind == b"answered".as_slice() {
        answered(alloc, fields)
    } else {
        Err(RowFault::Bad)
    }
}

// That a request was given.
fn given(fields: &Fields) -> Result<What, RowFault>
    ensures { Tells result (given_read fields.now) }
{
    if !fields.has_no_event() {
        return Err(RowFault::Bad);
    }
    Ok(What::Given(read_request(fields.body)?))
}

// That a request was answered.
fn answered(alloc: Global, fields: &Fields) -> Result<What, RowFault>
    ensures { Tells result (answered_read fields.now) }
{
    if !fields.has_no_event() {
        return Err(RowFault::Bad);
    }
    let (id, reply) = answer(alloc, fields.body)?;
    Ok(What::Answered(id, reply))
}

// The id of a request, and its reply.
fn answer(alloc: Global, text: &[u8]) -> Result<(RequestId, Reply), RowFault>
    ensures { Tells result (answer_read text.now) }
{
    let (front, behind) = part(text, b' ').ok_or(RowFault::Bad)?;
    let id = id(front).map_err(|_| RowFault::Bad)?;
    let reply = read_reply(alloc, behind)?;
    Ok((id, reply))
}

// The event of its fields.
fn event(alloc: Global, fields: &Fields) -> Result<Event, RowFault>
    ensures { Tells result (event_read fields.now) }
{
    let link = link(fields.link).ok_or(RowFault::Bad)?;
    let number = event_number(fields.number).ok_or(RowFault::Bad)?;
    let clock = clock(fields.sent).ok_or(RowFault::Bad)?;
    let past = past(fields.past).ok_or(RowFault::Bad)?;
    let body = read_body(alloc, fields.body)?;
    Ok(Event {
        link,
        number,
        clock,
        past,
        body,
    })
}
