//! The ledger of a die.

ghost use Rattle.std.specs.Prelude.{◌≡◌, ◌+◌, ◌-◌, ◌*◌, ◌≤◌, ◌<◌, ◌↔◌, ◌^◌, length, sum, slice_index, IsOk, IsNone, IfOk, IfErr, IfSome};
ghost use Rattle.std.specs.Prelude.{IfNone, OnOk, OnErr, OnSome};
ghost use Rattle.slot_types.specs.Refusal.{FailsForMemory};
ghost use Rattle.plan_rules.specs.Bound.{MeetsBound, fmax_of};
ghost use Rattle.plan_rules.specs.Accounts.{AreSoundAccounts, total_of, given_of, opening_accounts, accounts_after_admit};
ghost use Rattle.plan_rules.specs.Accounts.{accounts_after_write, accounts_after_copy, accounts_after_collection};
ghost use Rattle.plan_rules.specs.Accounts.{accounts_after_waiver};

use slot_types::{DiePlan, Refusal, TaskNo};
use std::alloc::Global;
use std::marker::Model;

/// The accounts of a die's free pages. Each free page is spare, or in a task's balance (what its
/// next jobs may write), or in a task's hold (what its accepted jobs are still to write), or in
/// the reserve of a task's collector (what its copies may take).
///
/// Contracts see it as the record of these numbers, and of the plan. Tasks are counted from 0,
/// one for each cap of the plan. Only `new` takes memory.
#[derive(Drop)]
pub struct Ledger {
    pub(crate) plan: DiePlan,
    pub(crate) spare: u32,
    pub(crate) balances: Vec<u32>,
    pub(crate) holds: Vec<u32>,
    pub(crate) reserves: Vec<u32>,
}

impl Model for Ledger {
    ghost use Rattle.plan_rules.specs.Accounts.{Accounts};

    ghost Value = { Accounts };

    ghost use Rattle.page_ledger.specs.Ledger.{accounts_of, IsSoundLedger};

    ghost view = { accounts_of };

    ghost invariant = { IsSoundLedger };
}

impl Ledger {
    /// The accounts of a die on which nothing was written: each balance is its task's cap, each
    /// hold 0, each reserve `pages - alpha`, and all other pages are spare. Together they are all pages of the die.
    ///
    /// The plan meets its bound (`plan_rules::bound`). `NoMemory` where memory for the accounts
    /// is refused; the plan is given up then.
    pub fn new(alloc: Global, plan: DiePlan) -> Result<Self, Refusal>
        requires { MeetsBound plan }
        ensures ok { IfOk result (λ ledger. ledger ≡ opening_accounts plan) }
        ensures total { IfOk result (λ ledger.
            total_of ledger ≡ plan.shape.blocks * plan.shape.pages) }
        ensures err { FailsForMemory result }
    {
        let tasks = plan.caps.len();
        let reserve = plan.shape.pages - plan.alpha;
        let balances = Vec::from_slice(alloc, plan.caps.as_slice())?;
        let holds = vec![in alloc; 0; tasks]?;
        let reserves = vec![in alloc; reserve; tasks]?;
        let owned = pages_in(plan.caps.as_slice());
        let spare = plan.shape.blocks * plan.shape.pages - owned - tasks as u32 * reserve;
        Ok(Ledger {
            plan,
            spare,
            balances,
            holds,
            reserves,
        })
    }

    /// Moves the pages that a job of the task is to write from its balance to its hold.
    ///
    /// `NoTokens`, with the balance and `writes`, exactly where the balance is below `writes`;
    /// nothing is changed then.
    pub fn admit(&mut self, task: TaskNo, writes: u32) -> Result<(), Refusal>
        requires { task < length self.old.plan.caps }
        ensures accepted { IsOk result ↔ writes ≤ slice_index self.old.balances task }
        ensures refused { IfErr result (λ refusal.
            refusal ≡ Refusal.NoTokens (slice_index self.old.balances task) writes) }
        ensures ok { OnOk result (self.new ≡ accounts_after_admit self.old task writes) }
        ensures err { OnErr result (self.new ≡ self.old) }
        ensures total { total_of self.new ≡ total_of self.old }
        ensures plan { self.new.plan ≡ self.old.plan }
        ensures reserves { self.new.reserves ≡ self.old.reserves }
    {
        let task = task.0 as usize;
        let have = self.balances[task];
        if have < writes {
            return Err(Refusal::NoTokens { have, need: writes });
        }
        self.balances[task] = have - writes;
        self.holds[task] += writes;
        Ok(())
    }

    /// Takes the page that a write programs out of the task's hold, which isn't 0.
    pub fn spend_hold(&mut self, task: TaskNo)
        requires task { task < length self.old.plan.caps }
        requires held { 0 < slice_index self.old.holds task }
        ensures moved { self.new ≡ accounts_after_write self.old task }
        ensures total { total_of self.new + 1 ≡ total_of self.old }
    {
        self.holds[task.0 as usize] -= 1;
    }

    /// Takes the page that a copy programs out of the reserve of the task's collector, which
    /// isn't 0.
    pub fn spend_reserve(&mut self, task: TaskNo)
        requires task { task < length self.old.plan.caps }
        requires reserved { 0 < slice_index self.old.reserves task }
        ensures moved { self.new ≡ accounts_after_copy self.old task }
        ensures total { total_of self.new + 1 ≡ total_of self.old }
    {
        self.reserves[task.0 as usize] -= 1;
    }

    /// Puts the pages of a block that the task's collection has erased into the accounts, and
    /// answers how many the task was given.
    ///
    /// The reserve gets back the `copied` pages that it lacks, the balance gets `alpha` or what
    /// the task lacks to its cap, and the rest is spare. The accounts don't have the block's pages
    /// yet, so with them they have no more pages than the die.
    pub fn settle(&mut self, task: TaskNo, copied: u32) -> u32
        requires task { task < length self.old.plan.caps }
        requires lacks { slice_index self.old.reserves task + copied
            ≡ self.old.plan.shape.pages - self.old.plan.alpha }
        requires room { total_of self.old + self.old.plan.shape.pages
            ≤ self.old.plan.shape.blocks * self.old.plan.shape.pages }
        ensures given { result ≡ given_of self.old task }
        ensures moved { self.new ≡ accounts_after_collection self.old task copied }
        ensures total { total_of self.new ≡ total_of self.old + self.old.plan.shape.pages }
    {
        let given = self.given(task);
        let task = task.0 as usize;
        self.reserves[task] += copied;
        self.balances[task] += given;
        self.spare += self.plan.shape.pages - copied - given;
        given
    }

    /// Gives the task out of the spare pages what a collection would give it, and answers how
    /// many those are. None, and no change, exactly where fewer than `alpha` pages are spare: few
    /// pages are in all accounts then, and a collection that begins finds a block to collect.
    pub fn waive(&mut self, task: TaskNo) -> Option<u32>
        requires { task < length self.old.plan.caps }
        ensures short { IsNone result ↔ self.old.spare < self.old.plan.alpha }
        ensures given { IfSome result (λ given. given ≡ given_of self.old task) }
        ensures some { OnSome result (self.new ≡ accounts_after_waiver self.old task) }
        ensures none { IfNone result (self.new ≡ self.old) }
        ensures few { IfNone result (total_of self.old ≤ fmax_of self.old.plan) }
        ensures total { total_of self.new ≡ total_of self.old }
    {
        if self.spare < self.plan.alpha {
            return None;
        }
        let given = self.given(task);
        self.balances[task.0 as usize] += given;
        self.spare -= given;
        Some(given)
    }

    /// The plan of the die.
    pub fn plan(&self) -> &DiePlan
        ensures { result.now ≡ self.now.plan }
    {
        &self.plan
    }

    /// How many pages the task's next jobs may write.
    pub fn balance(&self, task: TaskNo) -> u32
        requires { task < length self.now.plan.caps }
        ensures { result ≡ slice_index self.now.balances task }
    {
        self.balances[task.0 as usize]
    }

    /// How many pages the task's accepted jobs are still to write.
    pub fn hold(&self, task: TaskNo) -> u32
        requires { task < length self.now.plan.caps }
        ensures { result ≡ slice_index self.now.holds task }
    {
        self.holds[task.0 as usize]
    }

    /// How many pages the task's collector may still program. It is at most `pages - alpha`,
    /// as `sound` says.
    pub fn reserve(&self, task: TaskNo) -> u32
        requires { task < length self.now.plan.caps }
        ensures sound { AreSoundAccounts self.now }
        ensures reserve { result ≡ slice_index self.now.reserves task }
    {
        self.reserves[task.0 as usize]
    }

    /// How many pages nobody has a claim on.
    pub fn spare(&self) -> u32
        ensures { result ≡ self.now.spare }
    {
        self.spare
    }

    /// How many pages are in all accounts. While fewer than `alpha` are spare, these are few:
    /// a collection that begins then finds a block to collect.
    pub fn total(&self) -> u32
        ensures sound { AreSoundAccounts self.now }
        ensures total { result ≡ total_of self.now }
        ensures few { self.now.spare < self.now.plan.alpha → result ≤ fmax_of self.now.plan }
    {
        self.spare + pages_in(&self.balances) + pages_in(&self.holds) + pages_in(&self.reserves)
    }

    /// How many pages a collection that ends now would give the task: `alpha`, or what the task lacks to its cap.
    pub fn given(&self, task: TaskNo) -> u32
        requires { task < length self.now.plan.caps }
        ensures { result ≡ given_of self.now task }
    {
        let task = task.0 as usize;
        let cap = self.plan.caps.as_slice()[task];
        let missing = cap - self.balances[task] - self.holds[task];
        self.plan.alpha.min(missing)
    }
}

fn pages_in(accounts: &[u32]) -> u32
    requires { sum accounts.now < 2 ^ 32 }
    ensures { result ≡ sum accounts.now }
{
    accounts.iter().sum()
}
