//! What the schedule says of turns.

ghost use Rattle.std.specs.Prelude.{◌≡◌, ℕ, ◌<◌, ◌≤◌, List, Some};
ghost use Rattle.std.specs.List.{AllByRecursion};
ghost use Rattle.market_events.specs.declared.events.Event.{Event};
ghost use Rattle.market_events.specs.declared.nodes.TheConstants.{NODES};
ghost use Rattle.market_events.specs.declared.requests.Request.{Request};
ghost use Rattle.market_events.specs.declared.roles.Role.{Role};
ghost use Rattle.market_events.specs.declared.links.Link.{Link};
ghost use Rattle.market_events.specs.Links.{IsLink, node_of, sender_of, receiver_of};
ghost use Rattle.market_history.specs.Sent.{sent};
ghost use Rattle.market_rings.specs.Fates.{FatesLeft};
ghost use Rattle.market_rounds.specs.Between.{IsOfLink, AreBetween};
ghost use Rattle.market_rings.specs.declared.link_ends.LinkIn.{LinkIn};
ghost use Rattle.market_rings.specs.NodeEnds.{NodeEnds, in_at};
ghost use Rattle.market_rings.specs.Wiring.{IsWired, HasLinkIn, ends_of};
ghost use Rattle.market_rounds.specs.Rounds.{IsRound, fresh_node};
ghost use Rattle.market_turns.specs.Turns.{NodeState, CanTurn, arrivals, with_node_committed};
ghost use Rattle.market_history.specs.Histories.{Histories, journal_at, with_journal, no_histories};
ghost use Rattle.market_history.specs.Lawful.{IsLawful};
ghost use Rattle.market_history.specs.Schedule.{play};
ghost use Rattle.market_node.specs.Offered.{with_all_offered, CanTakeAll, FitsService, FitsLane};
ghost use Rattle.market_rounds.specs.Turning.{WasMade, offer_steps, after_turns, turns_steps};
ghost use Rattle.market_turns.specs.Queues.{IsOwnRequest, CanTurnLane};

/// Events that were made may be offered to their receiver one after the other, and what this leaves is what
/// the schedule's steps leave.
pub fn events_that_wait_may_be_offered()
    ensures services { (h : Histories) (role : Role) (events : List Event) → IsLawful h
        → AllByRecursion (WasMade h) events
        → AllByRecursion (λ (e : Event). receiver_of e.link ≡ node_of role) events
        → CanTakeAll (FitsService role) (node_of role) (journal_at h (node_of role)) events }
    ensures lanes { (h : Histories) (n : ℕ) (events : List Event) → n < NODES → IsLawful h
        → AllByRecursion (WasMade h) events → AllByRecursion (λ (e : Event). receiver_of e.link ≡ n) events
        → CanTakeAll FitsLane n (journal_at h n) events }
    ensures plays { (h : Histories) (n : ℕ) (events : List Event) → n < NODES → IsLawful h
        → AllByRecursion (WasMade h) events → AllByRecursion (λ (e : Event). receiver_of e.link ≡ n) events
        → play h (offer_steps events) ≡ with_journal h n (with_all_offered n (journal_at h n) events) }
{}

/// The turns of the first nodes, in which events that were made are taken and requests asked, leave what one
/// list of the schedule's steps leaves: those of node 0, then those of node 1, and so on.
pub fn turns_are_one_schedule()
    ensures { (events : ℕ → List Event) (queues : ℕ → List Request) (h : Histories) (n : ℕ) → IsLawful h
        → ((m : ℕ) → m < NODES → AllByRecursion (WasMade h) (events m))
        → ((m : ℕ) → m < NODES
        → AllByRecursion (λ (e : Event). receiver_of e.link ≡ m) (events m))
        → ((m : ℕ) → m < NODES → AllByRecursion (IsOwnRequest m) (queues m)) → n ≤ NODES
        → play h (turns_steps events queues h n) ≡ after_turns events queues h n }
{}

/// The events that lawful histories made on a link are found by the link and their numbers.
pub fn made_events_are_found()
    ensures { (h : Histories) (link : Link) → IsLawful h → IsLink link
        → AllByRecursion (IsOfLink h link) (sent link (journal_at h (sender_of link))) }
{}

/// What holds between rounds holds after one more: where each node has turned, the ends of each link were
/// brought together, and all entries were committed, the histories are those that the schedule leaves, with
/// the steps of node 0, then those of node 1, and so on.
pub fn rounds_keep_what_holds_between_them()
    ensures { (h : Histories) (nodes turned met : ℕ → NodeState) (queues : ℕ → List Request)
        (fates left : ℕ → FatesLeft) → AreBetween h nodes → IsRound nodes turned met queues fates left
        → AreBetween (play h (turns_steps (λ n. arrivals (nodes n).ends) queues h NODES))
        (λ n. with_node_committed (met n)) }
{}

/// Between rounds every node may turn: its rings have room, and what waits at it may be offered. A lane may
/// besides be given well-formed requests of its own.
pub fn nodes_may_turn_between_rounds()
    ensures services { (h : Histories) (nodes : ℕ → NodeState) (role : Role) → AreBetween h nodes
        → CanTurn (FitsService role) (nodes (node_of role)) }
    ensures lanes { (h : Histories) (nodes : ℕ → NodeState) (n : ℕ) (queue : List Request)
        → AreBetween h nodes → n < NODES → AllByRecursion (IsOwnRequest n) queue
        → CanTurnLane (record { node = nodes n; queue = queue }) }
{}

/// New nodes with the ends of new rings stand between two rounds.
pub fn fresh_nodes_are_between_rounds()
    ensures { (all : List NodeEnds) → ((link : Link) → IsLink link → IsWired all link)
        → ((node slot : ℕ) (into : LinkIn) → in_at (ends_of all node) slot ≡ Some into → HasLinkIn node slot)
        → AreBetween no_histories (fresh_node all) }
{}
