//! What the moves of the accounts come to, and laws of one answer.
//!
//! The premises of a law of one answer are the clauses of a call that decide, said of two answers `one` and `other`,
//! which leave the accounts `left` and `right`, where there were the accounts `before`.

ghost use Rattle.std.specs.Prelude.{◌≡◌, ◌≢◌, ◌+◌, ◌<◌, ◌≤◌, ℕ, length, min, slice_index};
ghost use Rattle.plan_rules.specs.Accounts.{Accounts, AreSoundAccounts, owned_of, accounts_after_admit, accounts_after_write};
ghost use Rattle.plan_rules.specs.Accounts.{accounts_after_copy, accounts_after_collection, accounts_after_waiver};

/// With each collection that is settled or waived, what its task owns (balance and hold) grows
/// to the task's cap, or by exactly `alpha` pages. It computes nothing; its contract is the law.
pub fn grows_to_cap()
    ensures settled { (accounts : Accounts) (task copied : ℕ) →
        AreSoundAccounts accounts → task < length accounts.plan.caps →
        owned_of (accounts_after_collection accounts task copied) task
        ≡ min (slice_index accounts.plan.caps task) (owned_of accounts task + accounts.plan.alpha) }
    ensures waived { (accounts : Accounts) (task : ℕ) →
        AreSoundAccounts accounts → task < length accounts.plan.caps →
        owned_of (accounts_after_waiver accounts task) task
        ≡ min (slice_index accounts.plan.caps task) (owned_of accounts task + accounts.plan.alpha) }
{}

/// What a task owns is lowered by its writes alone, each of which takes one page of it. A job that is accepted moves
/// pages from its task's balance to its hold, a copy takes the reserve, and a collection that is settled or waived
/// leaves what other tasks own. It computes nothing; its contract is the law.
pub fn writes_alone_lower_owned()
    ensures hold_spent { (accounts : Accounts) (task : ℕ) →
        AreSoundAccounts accounts → task < length accounts.plan.caps
        → 0 < slice_index accounts.holds task →
        owned_of (accounts_after_write accounts task) task + 1 ≡ owned_of accounts task }
    ensures hold_spent_others { (accounts : Accounts) (task other : ℕ) → other ≢ task →
        owned_of (accounts_after_write accounts task) other ≡ owned_of accounts other }
    ensures admitted { (accounts : Accounts) (task writes other : ℕ) →
        AreSoundAccounts accounts → task < length accounts.plan.caps
        → writes ≤ slice_index accounts.balances task →
        owned_of (accounts_after_admit accounts task writes) other ≡ owned_of accounts other }
    ensures reserve_spent { (accounts : Accounts) (task other : ℕ) →
        owned_of (accounts_after_copy accounts task) other ≡ owned_of accounts other }
    ensures settled_others { (accounts : Accounts) (task copied other : ℕ) → other ≢ task →
        owned_of (accounts_after_collection accounts task copied) other ≡ owned_of accounts other }
    ensures waived_others { (accounts : Accounts) (task other : ℕ) → other ≢ task →
        owned_of (accounts_after_waiver accounts task) other ≡ owned_of accounts other }
{}
