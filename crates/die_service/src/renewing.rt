//! Renewing the dies of a closed store.

ghost use Rattle.std.specs.Prelude.{◌≡◌, ◌<◌, All, IfOk, IfErr, OnOk, length};
ghost use Rattle.std.specs.List.{AllByRecursion};
ghost use Rattle.slot_core.specs.Renewals.{MayBeRenewed};
ghost use Rattle.die_service.specs.Stores.{AreRenewed, IsFirstNotRenewable, IsAtStart};

use flash_die::Nand;
use slot_core::renewal_laws::a_renewal_has_one_answer;
use slot_core::{DieCore, RenewalRefusal};

/// What a refused [`renew_each`] hands back: the dies as they were.
#[derive(Drop)]
pub struct NotRenewed<N: Nand> {
    pub dies: Vec<DieCore<N>>,
    /// The place of the first die that may not be renewed, from 0.
    pub place: usize,
    /// Why it may not.
    pub refusal: RenewalRefusal,
}

/// Renews all dies, as [`DieCore::renew`] does, and gives them back. A store can be made of them then, by
/// [`Store::reopen`](crate::Store::reopen). It takes no memory.
///
/// Refused where a die may not be renewed, with the place of the first such and why it may not. No die is renewed then:
/// all are handed back as they were.
pub fn renew_each<N: Nand>(dies: Vec<DieCore<N>>) -> Result<Vec<DieCore<N>>, NotRenewed<N>>
    ensures renewed { IfOk result (λ after. AreRenewed dies.items after.items) }
    ensures start { IfOk result (λ after. All IsAtStart after.items) }
    ensures refused { IfErr result (λ no. IsFirstNotRenewable dies.items no.place no.refusal) }
    ensures back { IfErr result (λ no. no.dies.items ≡ dies.items) }
{
    let mut dies = dies;
    if let Err((place, refusal)) = may_all(dies.as_mut_slice()) {
        return Err(NotRenewed {
            dies,
            place,
            refusal,
        });
    }
    renew_all(dies.as_mut_slice());
    Ok(dies)
}

/// Whether all of these may be renewed; else the place of the first that may not, and why.
fn may_all<N: Nand>(dies: &mut [DieCore<N>]) -> Result<(), (usize, RenewalRefusal)>
    ensures may { OnOk result (AllByRecursion MayBeRenewed dies.old) }
    ensures refused { IfErr result (λ no. IsFirstNotRenewable dies.old no.0 no.1) }
    ensures within { IfErr result (λ no. no.0 < length dies.old) }
    ensures same { dies.new ≡ dies.old }
{
    let Some((die, dies)) = dies.split_first_mut() else {
        return Ok(());
    };
    if let Err(refusal) = die.may_renew() {
        return Err((0, refusal));
    }
    match may_all(dies) {
        Ok(()) => Ok(()),
        Err((place, refusal)) => Err((place + 1, refusal)),
    }
}

/// Renews these.
#[tactic(auto, using(crate::proofs::Making::renewed_at_start))]
fn renew_all<N: Nand>(dies: &mut [DieCore<N>])
    requires may { AllByRecursion MayBeRenewed dies.old }
    ensures renewed { AreRenewed dies.old dies.new }
    ensures start { All IsAtStart dies.new }
{
    let Some((die, dies)) = dies.split_first_mut() else {
        return;
    };
    a_renewal_has_one_answer::<N>();
    let Ok(()) = die.renew() else { unreachable!() };
    renew_all(dies)
}
