//! The texts of requests, replies and bodies.

ghost use Rattle.std.specs.Prelude.{◌≡◌, [], ◌++◌, ◌∷◌, ◌==◌, if◌then◌else◌, IfSome, OnErr, OnOk, codes};
ghost use Rattle.std.specs.Prelude.{length, map, take};
ghost use Rattle.std.specs.List.{flat_map};
ghost use Rattle.market_events.specs.Texts.{ask_words, change_words, ending_words, id_text, items_text};
ghost use Rattle.market_events.specs.Texts.{key_text, lines_text, pay_rule_text, reply_words, request_words};
ghost use Rattle.market_events.specs.Texts.{row_text, spaced, stock_rule_text, text_of_body, text_of_reply};
ghost use Rattle.market_events.specs.Texts.{text_of_request, undone_words};
ghost use Rattle.std.specs.Fmt.{decimal};
ghost use Rattle.market_events.specs.WellFormed.{IsBody, IsReply, IsRequest};

use crate::parts::{
    ItemText, KeyWords, LineText, RowText, pay_word, rule_word, status_word, stock_word,
};
use market_amounts::{CheckoutId, List, ProductKey, RequestId};
use market_events::{
    Ask, Body, Change, Ending, EntryRow, Item, PayRule, PricedLine, Reply, Request, StockRule,
    UndoneRule,
};
use market_words::{IdText, KeyText};
use std::alloc::AllocError;
use std::fmt::Display;

// Most pieces of a text fit into this room.
const PIECE_ROOM: usize = 64;

/// Appends the text of a request. On want of memory `out` is as before.
pub fn request_text(request: &Request, out: &mut Vec<u8>) -> Result<(), AllocError>
    requires { IsRequest request.now }
    ensures ok { OnOk result (out.new.items ≡ out.old.items ++ text_of_request request.now) }
    ensures err { OnErr result (out.new.items ≡ out.old.items) }
{
    let length = out.len();
    let written = write_request(request, out);
    undo_if_err(written, length, out)
}

/// Appends the text of a reply. On want of memory `out` is as before.
pub fn reply_text(reply: &Reply, out: &mut Vec<u8>) -> Result<(), AllocError>
    requires { IsReply reply.now }
    ensures ok { OnOk result (out.new.items ≡ out.old.items ++ text_of_reply reply.now) }
    ensures err { OnErr result (out.new.items ≡ out.old.items) }
{
    let length = out.len();
    let written = write_reply(reply, out);
    undo_if_err(written, length, out)
}

/// Appends the text of a body. On want of memory `out` is as before.
pub fn body_text(body: &Body, out: &mut Vec<u8>) -> Result<(), AllocError>
    requires { IsBody body.now }
    ensures ok { OnOk result (out.new.items ≡ out.old.items ++ text_of_body body.now) }
    ensures err { OnErr result (out.new.items ≡ out.old.items) }
{
    let length = out.len();
    let written = write_body(body, out);
    undo_if_err(written, length, out)
}

// Where the writing failed, takes back all from `length` on.
fn undo_if_err(
    written: Result<(), AllocError>,
    length: usize,
    out: &mut Vec<u8>,
) -> Result<(), AllocError>
    ensures same { result ≡ written }
    ensures ok { OnOk written (out.new.items ≡ out.old.items) }
    ensures err { OnErr written (out.new.items ≡ take length out.old.items) }
{
    if written.is_err() {
        out.truncate(length);
    }
    written
}

// The writers below append a text. What was in `out` before them stays in front, even on want of memory.

// ID KIND ARGUMENT ..
fn write_request(request: &Request, out: &mut Vec<u8>) -> Result<(), AllocError>
    ensures ok { OnOk result (out.new.items ≡ out.old.items ++ text_of_request request.now) }
    ensures kept { take (length out.old.items) out.new.items ≡ out.old.items }
{
    append(format_args!("{} ", IdText(request.id)), out)?;
    write_ask(request.ask, out)
}

// KIND ARGUMENT ..
fn write_ask(ask: Ask, out: &mut Vec<u8>) -> Result<(), AllocError>
    ensures ok { OnOk result (out.new.items ≡ out.old.items ++ spaced (ask_words ask)) }
    ensures err { OnErr result (out.new.items ≡ out.old.items) }
{
    match ask {
        Ask::Create(key, price, freight) => append(
            format_args!("create {} {} {}", KeyWords(key), price.get(), freight.get()),
            out,
        ),
        Ask::Price(key, price) => append(
            format_args!("price {} {}", KeyWords(key), price.get()),
            out,
        ),
        Ask::Delete(key) => append(format_args!("delete {}", KeyWords(key)), out),
        Ask::View(key) => append(format_args!("view {}", KeyWords(key)), out),
        Ask::Line(customer, key, quantity, voucher) => {
            let key = KeyWords(key);
            let quantity = quantity.get();
            append(
                format_args!("line {customer} {key} {quantity} {}", voucher.get()),
                out,
            )
        }
        Ask::Remove(customer, key) => {
            append(format_args!("remove {customer} {}", KeyWords(key)), out)
        }
        Ask::Checkout(customer) => append(format_args!("checkout {customer}"), out),
        Ask::Stock(key, pieces) => append(format_args!("stock {} {pieces}", KeyWords(key)), out),
        Ask::Level(key) => append(format_args!("level {}", KeyWords(key)), out),
        Ask::Order(checkout) => {
            let CheckoutId { caller, number } = checkout;
            append(format_args!("order {caller} {number}"), out)
        }
        Ask::Card(customer, limit) => append(format_args!("card {customer} {limit}"), out),
        Ask::Deliver => append("deliver", out),
        Ask::Customer(customer) => append(format_args!("customer {customer}"), out),
        Ask::Dashboard(seller) => append(format_args!("dashboard {seller}"), out),
    }
}

// KIND WORD ..
fn write_reply(reply: &Reply, out: &mut Vec<u8>) -> Result<(), AllocError>
    ensures ok { OnOk result (out.new.items ≡ out.old.items ++ text_of_reply reply.now) }
    ensures kept { take (length out.old.items) out.new.items ≡ out.old.items }
{
    match reply {
        Reply::Created(version) => append(format_args!("created {version}"), out),
        Reply::Priced(version) => append(format_args!("priced {version}"), out),
        Reply::Deleted(version) => append(format_args!("deleted {version}"), out),
        Reply::View(version, price, freight) => append(
            format_args!("view {version} {} {}", price.get(), freight.get()),
            out,
        ),
        Reply::Line(quantity) => append(format_args!("line {}", quantity.get()), out),
        Reply::Removed => append("removed", out),
        Reply::Whole(total) => append(format_args!("whole {total}"), out),
        Reply::Undone(rule) => write_undone(*rule, out),
        Reply::Stocked(on_hand) => append(format_args!("stocked {on_hand}"), out),
        Reply::Level(on_hand, reserved) => append(format_args!("level {on_hand} {reserved}"), out),
        Reply::OrderState(status, total) => {
            append(format_args!("order {} {total}", status_word(*status)), out)
        }
        Reply::Card(limit) => append(format_args!("card {limit}"), out),
        Reply::Delivered(sellers, packages) => {
            append(format_args!("delivered {sellers} {packages}"), out)
        }
        Reply::Customer(confirmed, failed, delivered) => append(
            format_args!("customer {confirmed} {failed} {delivered}"),
            out,
        ),
        Reply::Dashboard(point, entries, amount, rows) => {
            write_dashboard(*point, *entries, *amount, rows.as_slice(), out)
        }
        Reply::Refused(rule) => append(format_args!("refused {}", rule_word(*rule)), out),
    }
}

// `undone` and why
fn write_undone(rule: UndoneRule, out: &mut Vec<u8>) -> Result<(), AllocError>
    ensures ok { OnOk result (out.new.items ≡ out.old.items ++ spaced (codes "undone" ∷ undone_words rule)) }
    ensures err { OnErr result (out.new.items ≡ out.old.items) }
{
    match rule {
        UndoneRule::CartEmpty => append("undone cart_empty", out),
        UndoneRule::Gone(key) => append(format_args!("undone gone {}", KeyWords(key)), out),
        UndoneRule::Short(key) => append(format_args!("undone short {}", KeyWords(key)), out),
        UndoneRule::NoCard => append("undone no_card", out),
        UndoneRule::OverLimit => append("undone over_limit", out),
    }
}

// `dashboard` POINT ENTRIES AMOUNT ROW ..
#[tactic(auto, using(crate::proofs::Writing::writing))]
fn write_dashboard(
    point: u32,
    entries: u32,
    amount: u128,
    rows: &[EntryRow],
    out: &mut Vec<u8>,
) -> Result<(), AllocError>
    ensures ok { OnOk result (out.new.items
        ≡ out.old.items
        ++ spaced (codes "dashboard" ∷ decimal point ∷ decimal entries ∷ decimal amount
        ∷ map row_text rows.now)) }
    ensures kept { take (length out.old.items) out.new.items ≡ out.old.items }
{
    append(format_args!("dashboard {point} {entries} {amount}"), out)?;
    write_rows(rows, out)
}

// Appends a space and the row, for each row.
fn write_rows(rows: &[EntryRow], out: &mut Vec<u8>) -> Result<(), AllocError>
    ensures ok { OnOk result (out.new.items ≡ out.old.items ++ flat_map (λ row. 32 ∷ row_text row) rows.now) }
    ensures kept { take (length out.old.items) out.new.items ≡ out.old.items }
{
    for row in rows {
        append(format_args!(" {}", RowText(*row)), out)?;
    }
    Ok(())
}

// KIND WORD ..
fn write_body(body: &Body, out: &mut Vec<u8>) -> Result<(), AllocError>
    ensures ok { OnOk result (out.new.items ≡ out.old.items ++ text_of_body body.now) }
    ensures kept { take (length out.old.items) out.new.items ≡ out.old.items }
{
    match body {
        Body::Changed(key, version, change) => write_changed(*key, *version, *change, out),
        Body::Reserve(checkout, customer, lines) => {
            write_checkout("reserve", *checkout, *customer, lines, out)
        }
        Body::ReserveFailed(checkout, key, rule) => {
            write_reserve_failed(*checkout, *key, *rule, out)
        }
        Body::StockConfirmed(checkout, customer, lines) => {
            write_checkout("stock_confirmed", *checkout, *customer, lines, out)
        }
        Body::Invoice(checkout, customer, lines, total) => {
            write_priced("invoice", *checkout, *customer, lines, *total, out)
        }
        Body::Confirmed(checkout, customer, lines, total) => {
            write_priced("confirmed", *checkout, *customer, lines, *total, out)
        }
        Body::Ended(checkout, ending) => write_ended(*checkout, *ending, out),
        Body::Failed(checkout, customer, rule) => write_failed(*checkout, *customer, *rule, out),
        Body::Shipped(checkout) => append(format_args!("shipped {}", IdText(*checkout)), out),
        Body::Delivered(items) => write_delivered(items.as_slice(), out),
        Body::Asked(request) => write_asked(request, out),
        Body::Told(id, reply) => write_told(*id, reply, out),
    }
}

// `changed` KEY VERSION and what changed
fn write_changed(
    key: ProductKey,
    version: u32,
    change: Change,
    out: &mut Vec<u8>,
) -> Result<(), AllocError>
    ensures ok { OnOk result (out.new.items
        ≡ out.old.items ++ spaced (codes "changed" ∷ key_text key ∷ decimal version ∷ change_words change)) }
    ensures err { OnErr result (out.new.items ≡ out.old.items) }
{
    let key = KeyText(key);
    match change {
        Change::Created(price, freight) => {
            let price = price.get();
            append(
                format_args!("changed {key} {version} created {price} {}", freight.get()),
                out,
            )
        }
        Change::Priced(price) => append(
            format_args!("changed {key} {version} priced {}", price.get()),
            out,
        ),
        Change::Deleted => append(format_args!("changed {key} {version} deleted"), out),
    }
}

// WORD ID CUSTOMER LINES
fn write_checkout(
    word: &str,
    checkout: CheckoutId,
    customer: u32,
    lines: &List<PricedLine>,
    out: &mut Vec<u8>,
) -> Result<(), AllocError>
    ensures ok { OnOk result (out.new.items
        ≡ out.old.items
        ++ spaced (word.now ∷ id_text checkout ∷ decimal customer ∷ lines_text lines.now ∷ [])) }
    ensures kept { take (length out.old.items) out.new.items ≡ out.old.items }
{
    append(format_args!("{word} {} {customer} ", IdText(checkout)), out)?;
    write_lines(lines.as_slice(), out)
}

// WORD ID CUSTOMER LINES TOTAL
#[tactic(auto, using(crate::proofs::Writing::writing))]
fn write_priced(
    word: &str,
    checkout: CheckoutId,
    customer: u32,
    lines: &List<PricedLine>,
    total: u64,
    out: &mut Vec<u8>,
) -> Result<(), AllocError>
    ensures ok { OnOk result (out.new.items
        ≡ out.old.items
        ++ spaced (word.now ∷ id_text checkout ∷ decimal customer ∷ lines_text lines.now ∷ decimal total
        ∷ [])) }
    ensures kept { take (length out.old.items) out.new.items ≡ out.old.items }
{
    write_checkout(word, checkout, customer, lines, out)?;
    append(format_args!(" {total}"), out)
}

// `reserve_failed` ID KEY and why
fn write_reserve_failed(
    checkout: CheckoutId,
    key: ProductKey,
    rule: StockRule,
    out: &mut Vec<u8>,
) -> Result<(), AllocError>
    ensures ok { OnOk result (out.new.items
        ≡ out.old.items
        ++ spaced (codes "reserve_failed" ∷ id_text checkout ∷ key_text key ∷ stock_rule_text rule ∷ [])) }
    ensures err { OnErr result (out.new.items ≡ out.old.items) }
{
    let word = stock_word(rule);
    let key = KeyText(key);
    append(
        format_args!("reserve_failed {} {key} {word}", IdText(checkout)),
        out,
    )
}

// `ended` ID and how
fn write_ended(checkout: CheckoutId, ending: Ending, out: &mut Vec<u8>) -> Result<(), AllocError>
    ensures ok { OnOk result (out.new.items
        ≡ out.old.items ++ spaced (codes "ended" ∷ id_text checkout ∷ ending_words ending)) }
    ensures err { OnErr result (out.new.items ≡ out.old.items) }
{
    let id = IdText(checkout);
    match ending {
        Ending::Whole(total) => append(format_args!("ended {id} whole {total}"), out),
        Ending::Undone(rule) => append(format_args!("ended {id} undone {}", pay_word(rule)), out),
    }
}

// `failed` ID CUSTOMER and why
fn write_failed(
    checkout: CheckoutId,
    customer: u32,
    rule: PayRule,
    out: &mut Vec<u8>,
) -> Result<(), AllocError>
    ensures ok { OnOk result (out.new.items
        ≡ out.old.items
        ++ spaced (codes "failed" ∷ id_text checkout ∷ decimal customer ∷ pay_rule_text rule ∷ [])) }
    ensures err { OnErr result (out.new.items ≡ out.old.items) }
{
    append(
        format_args!("failed {} {customer} {}", IdText(checkout), pay_word(rule)),
        out,
    )
}

// `delivered` ITEMS
#[tactic(auto, using(crate::proofs::Writing::writing))]
fn write_delivered(items: &[Item], out: &mut Vec<u8>) -> Result<(), AllocError>
    ensures ok { OnOk result (out.new.items
        ≡ out.old.items ++ spaced (codes "delivered" ∷ items_text items.now ∷ [])) }
    ensures kept { take (length out.old.items) out.new.items ≡ out.old.items }
{
    append("delivered ", out)?;
    write_items(items, out)
}

// `asked` REQUEST
#[tactic(auto, using(crate::proofs::Writing::writing))]
fn write_asked(request: &Request, out: &mut Vec<u8>) -> Result<(), AllocError>
    ensures ok { OnOk result (out.new.items
        ≡ out.old.items ++ spaced (codes "asked" ∷ request_words request.now)) }
    ensures kept { take (length out.old.items) out.new.items ≡ out.old.items }
{
    append("asked ", out)?;
    write_request(request, out)
}

// `told` ID REPLY
#[tactic(auto, using(crate::proofs::Writing::writing))]
fn write_told(id: RequestId, reply: &Reply, out: &mut Vec<u8>) -> Result<(), AllocError>
    ensures ok { OnOk result (out.new.items
        ≡ out.old.items ++ spaced (codes "told" ∷ id_text id ∷ reply_words reply.now)) }
    ensures kept { take (length out.old.items) out.new.items ≡ out.old.items }
{
    append(format_args!("told {} ", IdText(id)), out)?;
    write_reply(reply, out)
}

// Lines, with `;` between them.
fn write_lines(lines: &[PricedLine], out: &mut Vec<u8>) -> Result<(), AllocError>
    ensures ok { OnOk result (out.new.items ≡ out.old.items ++ lines_text lines.now) }
    ensures kept { take (length out.old.items) out.new.items ≡ out.old.items }
{
    for (index, line) in lines.iter().enumerate() {
        let separator = separator_at(index);
        append(format_args!("{separator}{}", LineText(*line)), out)?;
    }
    Ok(())
}

// Items, with `;` between them.
fn write_items(items: &[Item], out: &mut Vec<u8>) -> Result<(), AllocError>
    ensures ok { OnOk result (out.new.items ≡ out.old.items ++ items_text items.now) }
    ensures kept { take (length out.old.items) out.new.items ≡ out.old.items }
{
    for (index, item) in items.iter().enumerate() {
        let separator = separator_at(index);
        append(format_args!("{separator}{}", ItemText(*item)), out)?;
    }
    Ok(())
}

// What stands before a line or an item of a list.
fn separator_at(index: usize) -> &'static str
    ensures { result.now ≡ (if index == 0 then [] else codes ";") }
{
    if index == 0 { "" } else { ";" }
}

// Appends what is displayed. On want of memory `out` is as before.
fn append<D: Display + Drop>(text: D, out: &mut Vec<u8>) -> Result<(), AllocError>
    ensures ok { OnOk result (IfSome (D.output text) (λ bytes. out.new.items ≡ out.old.items ++ bytes)) }
    ensures err { OnErr result (out.new.items ≡ out.old.items) }
{
    let mut piece = String::with_capacity(*out.allocator(), PIECE_ROOM)?;
    write!(piece, "{text}")?;
    out.extend_from_slice(piece.as_bytes())
}
