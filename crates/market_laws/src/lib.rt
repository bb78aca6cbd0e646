//! Laws: theorems over the definitions, and no code that runs. Of histories: what a schedule leaves is
//! lawful, how many entries it has, that each event fits where it is taken and has its causes, that pasts are
//! causal order, that the oldest event is taken, that reserved pieces are those of listed reservations, and
//! that copies show some first changes. Of settled ones: every request has its reply, every checkout is whole
//! or undone, and every table is the sum of what was accepted. And of one service alone: what it makes has a
//! cause in what it took, and is made once.
#![tactic(auto)]

pub mod counterexamples;
pub mod laws;
