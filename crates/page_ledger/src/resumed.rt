//! The accounts of a die that goes on from a quiet moment.

ghost use Rattle.std.specs.Prelude.{◌≡◌, ◌+◌, ◌-◌, ◌*◌, ◌≤◌, ℕ, length, sum, slice_index};
ghost use Rattle.plan_rules.specs.Accounts.{opening_accounts};
ghost use Rattle.page_ledger.specs.Quiet.{quiet_accounts};

use crate::accounts::Ledger;

impl Ledger {
    /// The accounts at a quiet moment take the place of those of a die on which nothing was written: the spare pages
    /// and the balances are these, each hold is 0, each reserve `pages - alpha`. They have no more pages than the die,
    /// and no balance is above its cap. It takes no memory.
    pub fn resume(&mut self, spare: u32, balances: &[u32])
        requires opening { self.old ≡ opening_accounts self.old.plan }
        requires tasks { length balances.now ≡ length self.old.plan.caps }
        requires capped { (task : ℕ) → slice_index balances.now task
            ≤ slice_index self.old.plan.caps task }
        requires room { spare + sum balances.now + length self.old.plan.caps
            * (self.old.plan.shape.pages - self.old.plan.alpha)
            ≤ self.old.plan.shape.blocks * self.old.plan.shape.pages }
        ensures { self.new ≡ quiet_accounts self.old.plan spare balances.now }
    {
        self.spare = spare;
        self.balances.copy_from_slice(balances);
    }

    /// The balances, by task.
    pub fn balances(&self) -> &[u32]
        ensures { result.now ≡ self.now.balances }
    {
        &self.balances
    }
}
