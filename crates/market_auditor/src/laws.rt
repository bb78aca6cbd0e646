//! Laws over the criteria: each is the contract of a function that does nothing.

ghost use Rattle.std.specs.Prelude.{ℕ, ◌↔◌};
ghost use Rattle.market_auditor.specs.Criteria.{AllHold, IsFirst};
ghost use Rattle.market_auditor.specs.declared.verdicts.Criterion.{Criterion};
ghost use Rattle.market_history.specs.Histories.{Histories, IsHistories};
ghost use Rattle.market_history.specs.Lawful.{IsLawful};

/// All criteria hold exactly where the histories are lawful.
pub fn criteria_are_lawfulness()
    ensures { (h : Histories) → IsHistories h → (AllHold h ↔ IsLawful h) }
{}

/// Where some criterion does not hold there is a first difference, and where there is one, not all criteria
/// hold.
pub fn first_difference_exists()
    ensures exists { (h : Histories) → (AllHold h → ⊥)
        → (criterion : Criterion) × (n : ℕ) × (place : ℕ) × IsFirst h criterion n place }
    ensures differs { (h : Histories) (criterion : Criterion) (n : ℕ) (place : ℕ)
        → IsFirst h criterion n place → AllHold h → ⊥ }
{}
