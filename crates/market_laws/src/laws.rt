//! Laws over the definitions: each is the contract of a function that does nothing.

ghost use Rattle.std.specs.Prelude.{ℕ, ◌^◌, ◌<◌, ◌≤◌, ◌↔◌, List, slice_index, Contains, ◌≡◌, ◌+◌, true, []};
ghost use Rattle.std.specs.Prelude.{◌∷◌, ◌++◌, filter, filter_map, count_by, ◌⊎◌, Some, false, is_some};
ghost use Rattle.std.specs.List.{AllByRecursion, sum_by};
ghost use Rattle.market_events.specs.declared.events.Entry.{Entry};
ghost use Rattle.market_events.specs.declared.events.Event.{Event};
ghost use Rattle.market_events.specs.declared.lanes.TheConstants.{LANES};
ghost use Rattle.market_events.specs.declared.links.Link.TheVariants.{Service};
ghost use Rattle.market_events.specs.declared.links.TheConstants.{PRODUCT_TO_CART, PRODUCT_TO_STOCK};
ghost use Rattle.market_events.specs.declared.links.TheConstants.{CART_TO_STOCK, STOCK_TO_CART};
ghost use Rattle.market_events.specs.declared.links.TheConstants.{STOCK_TO_ORDER, ORDER_TO_PAYMENT};
ghost use Rattle.market_events.specs.declared.links.TheConstants.{ORDER_TO_SELLER, ORDER_TO_CART};
ghost use Rattle.market_events.specs.declared.links.TheConstants.{PAYMENT_TO_STOCK, PAYMENT_TO_ORDER};
ghost use Rattle.market_events.specs.declared.links.TheConstants.{PAYMENT_TO_SHIPMENT, PAYMENT_TO_CUSTOMER};
ghost use Rattle.market_events.specs.declared.links.TheConstants.{PAYMENT_TO_SELLER, SHIPMENT_TO_ORDER};
ghost use Rattle.market_events.specs.declared.links.TheConstants.{SHIPMENT_TO_SELLER, SHIPMENT_TO_CUSTOMER};
ghost use Rattle.market_events.specs.declared.nodes.TheConstants.{NODES};
ghost use Rattle.market_events.specs.declared.requests.Request.{Request};
ghost use Rattle.market_events.specs.Links.{receiver_of, IsLink, lane_node};
ghost use Rattle.market_history.specs.Once.{is_waiting, kept_by, reply_at};
ghost use Rattle.market_history.specs.declared.schedule.Step.{Step as Move};
ghost use Rattle.market_history.specs.Blocks.{services, service_steps};
ghost use Rattle.market_history.specs.Book.{IsBook, tables_at_end};
ghost use Rattle.market_history.specs.Causality.{IsBefore, events_taken};
ghost use Rattle.market_history.specs.Histories.{Histories, journal_at, no_histories, IsHistories};
ghost use Rattle.market_history.specs.Lawful.{IsLawful, IsLawfulAt};
ghost use Rattle.market_history.specs.Schedule.{play, IsStep, event_at, offered, outcome_of, outcomes};
ghost use Rattle.market_history.specs.Schedule.{merged};
ghost use Rattle.market_history.specs.Sent.{IsPrefixOf};
ghost use Rattle.market_laws.specs.Copies.{ShowsFirst};
ghost use Rattle.market_laws.specs.Entries.{total_entries};
ghost use Rattle.market_laws.specs.Fitting.{EachFits, EachInTime};
ghost use Rattle.market_laws.specs.Grown.{Grown};
ghost use Rattle.market_laws.specs.Pasts.{IsMadeOn, IsTakenAfter};
ghost use Rattle.market_amounts.specs.declared.keys.ProductKey.{ProductKey};
ghost use Rattle.market_amounts.specs.declared.keys.RequestId.{RequestId};
ghost use Rattle.market_events.specs.declared.bodies.Body.{Body};
ghost use Rattle.market_events.specs.declared.bodies.Body.TheVariants as bodies;
ghost use Rattle.market_events.specs.declared.bodies.Ending.TheVariants as endings;
ghost use Rattle.market_events.specs.declared.bodies.Item.{Item};
ghost use Rattle.market_events.specs.declared.bodies.PayRule.{PayRule};
ghost use Rattle.market_events.specs.declared.bodies.PricedLine.{PricedLine};
ghost use Rattle.market_events.specs.declared.bodies.StockRule.{StockRule};
ghost use Rattle.market_events.specs.declared.changes.Change.{Change};
ghost use Rattle.market_events.specs.declared.requests.Ask.TheVariants as asked;
ghost use Rattle.market_events.specs.Carts.{changes_taken};
ghost use Rattle.market_events.specs.Copies.{copy_of};
ghost use Rattle.market_events.specs.Orders.{is_of, order_total, ships};
ghost use Rattle.market_events.specs.Products.{change_in, changes_made};
ghost use Rattle.market_events.specs.declared.roles.Role.{Role};
ghost use Rattle.market_events.specs.Services.{IsRunOf, asks, change_fits, ends, invoices, reserves};
ghost use Rattle.market_events.specs.Shipments.{items_made};
ghost use Rattle.market_events.specs.Steps.{Step, taken_bodies, made_on};
ghost use Rattle.market_events.specs.Stocks.{Reservation, confirms, fails, on_hand, pieces_of, reserved};
ghost use Rattle.market_events.specs.Stocks.{settles, sold, stocked};
ghost use Rattle.market_events.specs.WellFormed.{total_of};
ghost use Rattle.market_laws.specs.Runs.{Member, IsPaidFor, bodies_made, tells, holds_pieces, is_payment};
ghost use Rattle.market_laws.specs.Runs.{is_delivery, lines_apart};
ghost use Rattle.market_events.specs.declared.events.Offer.TheVariants as offers;
ghost use Rattle.market_events.specs.declared.links.Link.{Link};
ghost use Rattle.market_history.specs.declared.schedule.Outcome.TheVariants as outcomes;
ghost use Rattle.market_history.specs.declared.schedule.Step.TheVariants as moves;
ghost use Rattle.market_history.specs.Outstanding.{IsSettled, IsOldest};
ghost use Rattle.market_laws.specs.Merged.{IsDone};
ghost use Rattle.market_history.specs.Checkouts.{is_kept_checkout, listed_reservations, IsDecided};
ghost use Rattle.market_laws.specs.Settling.{on_its_way};
ghost use Rattle.market_laws.specs.Causes.{ReservesHaveCauses, StockAnswersHaveCauses, InvoicesHaveCauses};
ghost use Rattle.market_laws.specs.Causes.{PaymentsHaveCauses, ShipmentsHaveCauses, EndingsHaveCauses};
ghost use Rattle.market_laws.specs.Causes.{TellingsHaveCauses, DeliveriesHaveCauses, all_made_for};

/// The journal of a node is lawful exactly where it grew from nothing, block by block, each of them begun
/// when it could.
pub fn lawful_journals_are_grown()
    ensures { (n : ℕ) (entries : List Entry) → IsLawfulAt n entries ↔ Grown n entries }
{}

/// Histories in which nothing happened are lawful, and a schedule of any steps, each request of them well
/// formed, leaves lawful histories lawful: an event that is offered ahead of its time, again, or before what
/// it rests on changes nothing.
pub fn play_keeps_lawful()
    ensures starts { IsLawful no_histories }
    ensures keeps { (h : Histories) (steps : List Move) → IsLawful h → AllByRecursion IsStep steps
        → IsLawful (play h steps) }
{}

/// Lawful histories have fewer than 2^24 entries, in all journals together.
pub fn entries_are_few()
    ensures { (h : Histories) → IsLawful h → total_entries h < 2 ^ 24 }
{}

/// In lawful histories each clock is at most the number of the entries of all journals.
pub fn clocks_are_at_most_the_entries()
    ensures { (h : Histories) (n : ℕ) → IsLawful h → n < NODES
        → AllByRecursion (λ (x : Entry). x.clock ≤ total_entries h) (journal_at h n) }
{}

/// Lawful histories are histories: each entry may stand at its place, with all its numbers in their ranges.
pub fn lawful_histories_are_histories()
    ensures { (h : Histories) → IsLawful h → IsHistories h }
{}

/// In lawful histories each event that a service takes fits the steps that it took before. And each reply
/// that a lane is told comes in time: a request with its id was given to the lane before, and has no reply
/// yet.
pub fn events_fit()
    ensures at_services { (h : Histories) (n : ℕ) → IsLawful h → n < services → EachFits n (journal_at h n) }
    ensures at_lanes { (h : Histories) (n : ℕ) → IsLawful h → n < NODES → EachInTime (journal_at h n) }
{}

/// After a run of any service, each id was asked at most once, and told no more than it was asked: so a reply
/// is told at most once, and only for a request that was taken. Each service but the cart told each that it
/// was asked.
pub fn runs_tell_once()
    ensures asked { (role : Role) (steps : List Step) → IsRunOf role steps → (id : RequestId)
        → count_by (asks id) (taken_bodies steps) ≤ 1 }
    ensures told { (role : Role) (steps : List Step) → IsRunOf role steps → (id : RequestId)
        → count_by (tells id) (bodies_made steps) ≤ count_by (asks id) (taken_bodies steps) }
    ensures told_each { (role : Role) → (role ≡ Role.Cart → ⊥) → (steps : List Step) → IsRunOf role steps
        → (id : RequestId)
        → count_by (tells id) (bodies_made steps) ≡ count_by (asks id) (taken_bodies steps) }
{}

/// After a run of the cart, each checkout was sent on to stock at most once, for a request of its customer,
/// and ended at most once and only where it was sent on; and as much was told and sent on as was asked and as
/// ended.
pub fn cart_runs()
    ensures told { (steps : List Step) → IsRunOf Role.Cart steps → (id : RequestId)
        → count_by (tells id) (bodies_made steps) + count_by (reserves id) (made_on CART_TO_STOCK steps)
        ≡ count_by (asks id) (taken_bodies steps) + count_by (ends id) (taken_bodies steps) }
    ensures ended { (steps : List Step) → IsRunOf Role.Cart steps → (id : RequestId)
        → count_by (ends id) (taken_bodies steps) ≤ count_by (reserves id) (made_on CART_TO_STOCK steps) }
    ensures sent { (steps : List Step) → IsRunOf Role.Cart steps → (id : RequestId)
        → count_by (reserves id) (made_on CART_TO_STOCK steps) ≤ count_by (asks id) (taken_bodies steps) }
    ensures sent_for { (steps : List Step) → IsRunOf Role.Cart steps
        → (checkout : RequestId) (customer : ℕ) (lines : List PricedLine)
        → Member (bodies.Reserve checkout customer lines) (made_on CART_TO_STOCK steps)
        → Member (bodies.Asked (record { id = checkout; ask = asked.Checkout customer }))
        (taken_bodies steps) }
{}

/// After a run of products, the cart and stock were told the same changes in the same order, and each fits
/// those before it.
pub fn product_runs()
    ensures carts_told { (steps : List Step) → IsRunOf Role.Product steps
        → made_on PRODUCT_TO_CART steps ≡ made_on PRODUCT_TO_STOCK steps }
    ensures changes_fit { (steps : List Step) → IsRunOf Role.Product steps
        → (before after : List Body) (key : ProductKey) (version : ℕ) (change : Change)
        → made_on PRODUCT_TO_STOCK steps ≡ before ++ bodies.Changed key version change ∷ after
        → change_fits (copy_of (filter_map change_in before) key) version change ≡ true }
{}

/// After a run of stock, each checkout was taken at most once, and each that was taken was answered once: its
/// pieces are held, for the customer and the lines that it came with, or it failed.
pub fn stock_runs()
    ensures answered { (steps : List Step) → IsRunOf Role.Stock steps → (id : RequestId)
        → count_by (holds_pieces id) (made_on STOCK_TO_ORDER steps)
        + count_by (ends id) (made_on STOCK_TO_CART steps) ≡ count_by (reserves id) (taken_bodies steps) }
    ensures taken_once { (steps : List Step) → IsRunOf Role.Stock steps → (id : RequestId)
        → count_by (reserves id) (taken_bodies steps) ≤ 1 }
    ensures held { (steps : List Step) → IsRunOf Role.Stock steps
        → (checkout : RequestId) (customer : ℕ) (lines : List PricedLine)
        → Member (bodies.StockConfirmed checkout customer lines) (made_on STOCK_TO_ORDER steps)
        → Member (bodies.Reserve checkout customer lines) (taken_bodies steps) }
    ensures failed { (steps : List Step) → IsRunOf Role.Stock steps
        → (checkout : RequestId) (key : ProductKey) (rule : StockRule)
        → Member (bodies.ReserveFailed checkout key rule) (made_on STOCK_TO_CART steps)
        → (customer : ℕ) × (lines : List PricedLine)
        × Member (bodies.Reserve checkout customer lines) (taken_bodies steps) }
{}

/// After a run of orders, payments and sellers were told the same invoices in the same order. Each checkout
/// was invoiced at most once and as often as stock holds its pieces, for the customer and the lines that
/// stock holds and with their total. It ended at most once, and as often as it failed or was shipped: undone
/// by the rule that its payment failed by, or whole with its order's total, where it was shipped.
pub fn order_runs()
    ensures sellers_told { (steps : List Step) → IsRunOf Role.Order steps
        → made_on ORDER_TO_PAYMENT steps ≡ made_on ORDER_TO_SELLER steps }
    ensures held_once { (steps : List Step) → IsRunOf Role.Order steps → (id : RequestId)
        → count_by (holds_pieces id) (taken_bodies steps) ≤ 1 }
    ensures invoiced_each { (steps : List Step) → IsRunOf Role.Order steps → (id : RequestId)
        → count_by (invoices id) (made_on ORDER_TO_PAYMENT steps)
        ≡ count_by (holds_pieces id) (taken_bodies steps) }
    ensures invoiced_once { (steps : List Step) → IsRunOf Role.Order steps → (id : RequestId)
        → count_by (invoices id) (made_on ORDER_TO_PAYMENT steps) ≤ 1 }
    ensures invoiced { (steps : List Step) → IsRunOf Role.Order steps
        → (checkout : RequestId) (customer : ℕ) (lines : List PricedLine) (total : ℕ)
        → Member (bodies.Invoice checkout customer lines total) (made_on ORDER_TO_PAYMENT steps)
        → Member (bodies.StockConfirmed checkout customer lines) (taken_bodies steps)
        × (total ≡ total_of lines) }
    ensures total { (steps : List Step) → IsRunOf Role.Order steps
        → (checkout : RequestId) (customer : ℕ) (lines : List PricedLine)
        → Member (bodies.StockConfirmed checkout customer lines) (taken_bodies steps)
        → order_total steps checkout ≡ total_of lines }
    ensures ended_each { (steps : List Step) → IsRunOf Role.Order steps → (id : RequestId)
        → count_by (ends id) (made_on ORDER_TO_CART steps)
        ≡ count_by (fails id) (taken_bodies steps) + count_by (ships id) (taken_bodies steps) }
    ensures ended_once { (steps : List Step) → IsRunOf Role.Order steps → (id : RequestId)
        → count_by (ends id) (made_on ORDER_TO_CART steps) ≤ 1 }
    ensures undone { (steps : List Step) → IsRunOf Role.Order steps → (checkout : RequestId) (rule : PayRule)
        → Member (bodies.Ended checkout (endings.Undone rule)) (made_on ORDER_TO_CART steps)
        → (customer : ℕ) × Member (bodies.Failed checkout customer rule) (taken_bodies steps) }
    ensures whole { (steps : List Step) → IsRunOf Role.Order steps → (checkout : RequestId) (total : ℕ)
        → Member (bodies.Ended checkout (endings.Whole total)) (made_on ORDER_TO_CART steps)
        → Member (bodies.Shipped checkout) (taken_bodies steps) × (total ≡ order_total steps checkout) }
{}

/// After a run of payments, orders, stock, customers and sellers were told the same, in the same order, and
/// shipments the payments of it. Each checkout was invoiced at most once and settled as often, by a payment
/// of just what its invoice says or by none.
pub fn payment_runs()
    ensures orders_told { (steps : List Step) → IsRunOf Role.Payment steps
        → made_on PAYMENT_TO_STOCK steps ≡ made_on PAYMENT_TO_ORDER steps }
    ensures customers_told { (steps : List Step) → IsRunOf Role.Payment steps
        → made_on PAYMENT_TO_STOCK steps ≡ made_on PAYMENT_TO_CUSTOMER steps }
    ensures sellers_told { (steps : List Step) → IsRunOf Role.Payment steps
        → made_on PAYMENT_TO_STOCK steps ≡ made_on PAYMENT_TO_SELLER steps }
    ensures shipments_told { (steps : List Step) → IsRunOf Role.Payment steps
        → made_on PAYMENT_TO_SHIPMENT steps ≡ filter is_payment (made_on PAYMENT_TO_STOCK steps) }
    ensures settled { (steps : List Step) → IsRunOf Role.Payment steps → (id : RequestId)
        → count_by (settles id) (made_on PAYMENT_TO_STOCK steps)
        ≡ count_by (invoices id) (taken_bodies steps) }
    ensures invoiced_once { (steps : List Step) → IsRunOf Role.Payment steps → (id : RequestId)
        → count_by (invoices id) (taken_bodies steps) ≤ 1 }
    ensures paid { (steps : List Step) → IsRunOf Role.Payment steps
        → (checkout : RequestId) (customer : ℕ) (lines : List PricedLine) (total : ℕ)
        → Member (bodies.Confirmed checkout customer lines total) (made_on PAYMENT_TO_STOCK steps)
        → Member (bodies.Invoice checkout customer lines total) (taken_bodies steps) }
    ensures unpaid { (steps : List Step) → IsRunOf Role.Payment steps
        → (checkout : RequestId) (customer : ℕ) (rule : PayRule)
        → Member (bodies.Failed checkout customer rule) (made_on PAYMENT_TO_STOCK steps)
        → (lines : List PricedLine) × (total : ℕ)
        × Member (bodies.Invoice checkout customer lines total) (taken_bodies steps) }
{}

/// After a run of shipments, orders and sellers were told the same, in the same order, and customers the
/// deliveries of it. Each checkout was paid at most once and shipped as often; no line was delivered twice,
/// whoever the customer, and each item was shipped before and paid for.
pub fn shipment_runs()
    ensures sellers_told { (steps : List Step) → IsRunOf Role.Shipment steps
        → made_on SHIPMENT_TO_ORDER steps ≡ made_on SHIPMENT_TO_SELLER steps }
    ensures customers_told { (steps : List Step) → IsRunOf Role.Shipment steps
        → made_on SHIPMENT_TO_CUSTOMER steps ≡ filter is_delivery (made_on SHIPMENT_TO_ORDER steps) }
    ensures shipped { (steps : List Step) → IsRunOf Role.Shipment steps → (id : RequestId)
        → count_by (ships id) (made_on SHIPMENT_TO_ORDER steps)
        ≡ count_by (confirms id) (taken_bodies steps) }
    ensures paid_once { (steps : List Step) → IsRunOf Role.Shipment steps → (id : RequestId)
        → count_by (confirms id) (taken_bodies steps) ≤ 1 }
    ensures shipped_for { (steps : List Step) → IsRunOf Role.Shipment steps → (checkout : RequestId)
        → Member (bodies.Shipped checkout) (made_on SHIPMENT_TO_ORDER steps)
        → (customer : ℕ) × (lines : List PricedLine) × (total : ℕ)
        × Member (bodies.Confirmed checkout customer lines total) (taken_bodies steps) }
    ensures delivered_once { (steps : List Step) → IsRunOf Role.Shipment steps
        → lines_apart [] (items_made steps) ≡ true }
    ensures shipped_before { (steps : List Step) → IsRunOf Role.Shipment steps
        → (before after : List Body) (items : List Item)
        → made_on SHIPMENT_TO_ORDER steps ≡ before ++ bodies.Delivered items ∷ after → (item : Item)
        → Member item items → Member (bodies.Shipped item.checkout) before }
    ensures paid_for { (steps : List Step) → IsRunOf Role.Shipment steps → (items : List Item)
        → Member (bodies.Delivered items) (made_on SHIPMENT_TO_ORDER steps)
        → (item : Item) → Member item items → IsPaidFor steps item }
{}

/// In lawful histories an event of a service link is before an event that was made exactly where its number
/// is at most what the past of the latter counts of that link: so the counts tell just what comes before
/// what, which is defined with no counts. And so no node takes an event before one that is before it and
/// comes to this node on a service link: that one it took already.
pub fn pasts_are_causal_order()
    ensures counted { (h : Histories) (k : ℕ) (f e : Event) → IsLawful h → IsMadeOn h (Service k) f
        → IsMadeOn h e.link e
        → (IsBefore (journal_at h) f e ↔ f.number ≤ slice_index e.past k) }
    ensures taken_first { (h : Histories) (n k : ℕ) (f e : Event) (taken : List Entry) → IsLawful h
        → f.link ≡ Service k → receiver_of (Service k) ≡ n
        → IsBefore (journal_at h) f e → IsTakenAfter (journal_at h n) taken e
        → Contains (events_taken taken) f }
{}

/// Lawful histories are settled, or one of their outstanding events is the oldest, by its clock and then by
/// its sending node, and no other one is. The oldest is found by its link and its number, and where it is
/// offered it is taken.
pub fn the_oldest_event_is_taken()
    ensures there_is { (h : Histories) → IsLawful h
        → IsSettled h ⊎ ((link : Link) × (number : ℕ) × IsLink link × IsOldest h link number) }
    ensures only { (h : Histories) (link other : Link) (number count : ℕ) → IsLawful h → IsLink link
        → IsLink other
        → IsOldest h link number → IsOldest h other count → (link ≡ other) × (number ≡ count) }
    ensures found { (h : Histories) (link : Link) (number : ℕ) → IsLawful h → IsLink link
        → (o : IsOldest h link number) → event_at h link number ≡ Some o.event }
    ensures taken { (h : Histories) (link : Link) (number : ℕ) → IsLawful h → IsLink link
        → (o : IsOldest h link number) → offered h o.event ≡ offers.Take }
    ensures comes { (h : Histories) (link : Link) (number : ℕ) → IsLawful h → IsLink link
        → IsOldest h link number
        → outcome_of h (moves.Offer link number) ≡ outcomes.Offered offers.Take }
{}

/// Lawful histories came by their merged schedule: the requests that were given and the events that were
/// taken, in the order of clock and node, leave just these histories once they are played from nothing. And
/// each of its steps acts: its request is asked, or its event is taken.
pub fn merged_schedules_leave_the_histories()
    ensures left { (h : Histories) → IsLawful h → play no_histories (merged h) ≡ h }
    ensures done { (h : Histories) → IsLawful h → AllByRecursion IsDone (outcomes no_histories (merged h)) }
{}

/// In lawful histories the events of a checkout have causes. Each kind of them is made only in blocks of the
/// events that it follows from, for the same customer and of the same lines; each such block makes it whole,
/// on each of its links in their order; and each is made once at most on each link. What its receiver rests
/// on it took before: of a Reserve the changes of its products, of a payment the invoice, of a shipment the
/// payment, of a delivery the shipment. A checkout is told its reply by the cart alone, for its request, for
/// the refusal of stock or for its end. In all, a checkout makes at most 14 events with its request,
/// deliveries apart.
pub fn events_have_causes()
    ensures reserves { (h : Histories) (c : RequestId) → IsLawful h → ReservesHaveCauses h c }
    ensures stock_answers { (h : Histories) (c : RequestId) → IsLawful h → StockAnswersHaveCauses h c }
    ensures invoices { (h : Histories) (c : RequestId) → IsLawful h → InvoicesHaveCauses h c }
    ensures payments { (h : Histories) (c : RequestId) → IsLawful h → PaymentsHaveCauses h c }
    ensures shipments { (h : Histories) (c : RequestId) → IsLawful h → ShipmentsHaveCauses h c }
    ensures endings { (h : Histories) (c : RequestId) → IsLawful h → EndingsHaveCauses h c }
    ensures tellings { (h : Histories) (c : RequestId) → IsLawful h → is_kept_checkout h c ≡ true
        → TellingsHaveCauses h c }
    ensures deliveries { (h : Histories) (c : RequestId) → IsLawful h → DeliveriesHaveCauses h c }
    ensures few { (h : Histories) (c : RequestId) → IsLawful h → is_kept_checkout h c ≡ true
        → all_made_for h c ≤ 14 }
{}

/// In lawful histories the pieces of a product that stock has reserved are those of the listed reservations:
/// those that stock sent to orders, and for whose checkout it took neither payment nor failure (`sum`). Each
/// of these waits for just one event: of its checkout one is outstanding, from stock to orders, from orders
/// to payments, or from payments to stock (`waits`); and as many are of any checkout as its listed
/// reservations (`listed`). After a run of stock no more pieces are reserved than are on hand (`covered`),
/// and with these no more were sold than were stocked (`within`).
pub fn reserved_is_listed()
    ensures sum { (h : Histories) (key : ProductKey) → IsLawful h
        → reserved (service_steps h Role.Stock) key
        ≡ sum_by (λ (r : Reservation). pieces_of key r.lines) (listed_reservations h) }
    ensures waits { (h : Histories) → IsLawful h
        → AllByRecursion (λ (r : Reservation). on_its_way h r.checkout ≡ 1) (listed_reservations h) }
    ensures listed { (h : Histories) (c : RequestId) → IsLawful h
        → on_its_way h c ≡ count_by (is_of c) (listed_reservations h) }
    ensures covered { (steps : List Step) → IsRunOf Role.Stock steps → (key : ProductKey)
        → reserved steps key ≤ on_hand steps key }
    ensures within { (steps : List Step) → IsRunOf Role.Stock steps → (key : ProductKey)
        → sold steps key + reserved steps key ≤ stocked steps key }
{}

/// In lawful histories the copies of the products are at every moment those of some first changes: the
/// changes that the cart took, and those that stock took, are a front of those that the product service made,
/// in the same order (`cart_took`, `stock_took`). So what their tables show of every product is what some
/// first of its changes leave (`cart_shows`, `stock_shows`).
pub fn copies_are_of_a_front()
    ensures cart_took { (h : Histories) → IsLawful h
        → IsPrefixOf (changes_taken (service_steps h Role.Cart))
        (changes_made (service_steps h Role.Product)) }
    ensures stock_took { (h : Histories) → IsLawful h
        → IsPrefixOf (changes_taken (service_steps h Role.Stock))
        (changes_made (service_steps h Role.Product)) }
    ensures cart_shows { (h : Histories) → IsLawful h
        → ShowsFirst (tables_at_end h).cart_copy (changes_made (service_steps h Role.Product)) }
    ensures stock_shows { (h : Histories) → IsLawful h
        → ShowsFirst (tables_at_end h).stock_copy (changes_made (service_steps h Role.Product)) }
{}

/// In lawful histories that are settled no lane waits, and each request that a lane keeps has its reply.
pub fn settled_lanes_answer()
    ensures idle { (h : Histories) (lane : ℕ) → IsLawful h → IsSettled h → lane < LANES
        → is_waiting (journal_at h (lane_node lane)) ≡ false }
    ensures answered { (h : Histories) (lane : ℕ) (r : Request) → IsLawful h → IsSettled h → lane < LANES
        → Member r (kept_by h lane) → is_some (reply_at h r.id) ≡ true }
{}

/// In lawful histories that are settled each checkout that is kept is whole in stock, order, payment and
/// shipment, with a total that its reply says and with its sellers' entries; or it is undone in all four, by
/// a rule that its reply says.
pub fn settled_checkouts_are_decided()
    ensures { (h : Histories) (c : RequestId) → IsLawful h → IsSettled h → is_kept_checkout h c ≡ true
        → IsDecided h c }
{}

/// In lawful histories that are settled every table of every service is the sum of what was accepted: what is
/// sold, spent, packed and counted are just the checkouts whose reply says that they are whole, and what is
/// cancelled just those that were undone for want of payment; nothing is reserved.
pub fn settled_histories_are_the_book()
    ensures { (h : Histories) → IsLawful h → IsSettled h → IsBook h }
{}
