//! What follows from the bound. These functions compute nothing: their contracts are the laws.

ghost use Rattle.std.specs.Prelude.{◌≡◌, ◌+◌, ◌-◌, ◌*◌, ◌<◌, ◌≤◌, ℕ, List, length, slice_index, Option, Any};
ghost use Rattle.slot_types.specs.declared.plans.DiePlan.{DiePlan};
ghost use Rattle.slot_types.specs.declared.pages.Place.{Place};
ghost use Rattle.plan_rules.specs.Bound.{MeetsBound, fmax_of};
ghost use Rattle.plan_rules.specs.Accounts.{Accounts, AreSoundAccounts, total_of, opening_accounts, accounts_after_admit};
ghost use Rattle.plan_rules.specs.Accounts.{accounts_after_write, accounts_after_copy, accounts_after_collection};
ghost use Rattle.plan_rules.specs.Accounts.{accounts_after_waiver};
ghost use Rattle.plan_rules.specs.Blocks.{BlockUse, MayBegin, IsVictim, BeginsShort, IsChoice};

/// Where a plan meets its bound, a collection that begins while few pages are free finds a closed
/// block, collected by nobody, with so few valid pages that they can be copied into the collector's
/// reserve.
pub fn finds_victim()
    ensures { (plan : DiePlan) (blocks : List BlockUse) →
        MeetsBound plan → MayBegin plan blocks → Any (IsVictim plan) blocks }
{}

/// The same by what the layers of a die keep: where each logical page lies, which blocks are
/// being collected, and how many pages of each block are free.
pub fn finds_choice()
    ensures { (plan : DiePlan) (free : ℕ → ℕ) (places : List (Option Place))
        (victims : List (Option ℕ)) (writing : Option ℕ) →
        MeetsBound plan → BeginsShort plan free places victims writing →
        (block : ℕ) × IsChoice plan free places victims block }
{}

/// Sound accounts have few pages while fewer than `alpha` are spare, which is what such a collection
/// needs. Accounts are sound at the start, and each move that may be made keeps them so.
pub fn stays_sound()
    ensures few { (accounts : Accounts) → AreSoundAccounts accounts →
        accounts.spare < accounts.plan.alpha → total_of accounts ≤ fmax_of accounts.plan }
    ensures opening { (plan : DiePlan) → MeetsBound plan
        → AreSoundAccounts (opening_accounts plan) }
    ensures admitted { (accounts : Accounts) (task writes : ℕ) → AreSoundAccounts accounts →
        task < length accounts.plan.caps → writes ≤ slice_index accounts.balances task →
        AreSoundAccounts (accounts_after_admit accounts task writes) }
    ensures hold_spent { (accounts : Accounts) (task : ℕ) → AreSoundAccounts accounts →
        task < length accounts.plan.caps → AreSoundAccounts (accounts_after_write accounts task) }
    ensures reserve_spent { (accounts : Accounts) (task : ℕ) → AreSoundAccounts accounts →
        task < length accounts.plan.caps → AreSoundAccounts (accounts_after_copy accounts task) }
    ensures settled { (accounts : Accounts) (task copied : ℕ) → AreSoundAccounts accounts →
        task < length accounts.plan.caps →
        slice_index accounts.reserves task + copied
        ≡ accounts.plan.shape.pages - accounts.plan.alpha →
        total_of accounts + accounts.plan.shape.pages
        ≤ accounts.plan.shape.blocks * accounts.plan.shape.pages →
        AreSoundAccounts (accounts_after_collection accounts task copied) }
    ensures waived { (accounts : Accounts) (task : ℕ) → AreSoundAccounts accounts →
        task < length accounts.plan.caps → accounts.plan.alpha ≤ accounts.spare →
        AreSoundAccounts (accounts_after_waiver accounts task) }
{}
