//! The seats of a booth: what each device was told, and what the executor did.

ghost use Rattle.std.specs.Prelude.{◌≡◌, ◌+◌, ◌<◌, ◌≤◌, [], IfNone, IfSome, sum_by, vec_capacity, vec_len};
ghost use Rattle.booth.specs.Views.{Place, Turns, fresh_places, fresh_turns};

use crate::names::Names;
use std::marker::{Model, PhantomData};
use std::sync::ledger::{Ledger, Share};

/// A device, and its shares of what was answered. A contract sees how many answers of each kind it
/// was told.
#[derive(Drop)]
pub struct Seat<A: Ledger, F: Ledger, L: Ledger, S: Ledger, E: Ledger, N: Names> {
    device: u8,
    pub(crate) accepted: Share<A>,
    pub(crate) full: Share<F>,
    pub(crate) lost: Share<L>,
    steps: PhantomData<S>,
    ends: PhantomData<E>,
    names: PhantomData<N>,
}

impl<A: Ledger, F: Ledger, L: Ledger, S: Ledger, E: Ledger, N: Names> Model
    for Seat<A, F, L, S, E, N> {
    ghost use Rattle.std.specs.Prelude.{◌≡◌, ◌<◌};
    ghost use Rattle.booth.specs.Views.{Place};

    ghost Value = { Place };

    ghost view = { λ s. record {
      device = s.device;
      accepted = s.accepted.amount;
      full = s.full.amount;
      lost = s.lost.amount;
    } };

    ghost invariant = { λ s. (s.device < 8) × (s.accepted.parts ≡ 1) × (s.full.parts ≡ 1)
        × (s.lost.parts ≡ 1) };
}

/// The executor's shares: all of the steps, and of the end.
#[derive(Drop)]
pub struct TurnSeat<A: Ledger, F: Ledger, L: Ledger, S: Ledger, E: Ledger, N: Names> {
    pub(crate) steps: Share<S>,
    pub(crate) ends: Share<E>,
    accepted: PhantomData<A>,
    full: PhantomData<F>,
    lost: PhantomData<L>,
    names: PhantomData<N>,
}

impl<A: Ledger, F: Ledger, L: Ledger, S: Ledger, E: Ledger, N: Names> Model
    for TurnSeat<A, F, L, S, E, N> {
    ghost use Rattle.std.specs.Prelude.{◌≡◌};
    ghost use Rattle.booth.specs.Views.{Turns};

    ghost Value = { Turns };

    ghost view = { λ s. record { steps = s.steps.amount; ends = s.ends.amount } };

    ghost invariant = { λ s. (s.steps.parts ≡ 1) × (s.ends.parts ≡ 1) };
}

impl<A: Ledger, F: Ledger, L: Ledger, S: Ledger, E: Ledger, N: Names> Seat<A, F, L, S, E, N> {
    /// The device's number.
    pub fn device(&self) -> u8
        ensures device { result ≡ self.now.device }
        ensures below { result < 8 }
    {
        self.device
    }
}

impl<A: Ledger, F: Ledger, L: Ledger, S: Ledger, E: Ledger, N: Names> TurnSeat<A, F, L, S, E, N> {
    // The seat of an executor that has made no turn.
    pub(crate) fn fresh(steps: Share<S>, ends: Share<E>) -> TurnSeat<A, F, L, S, E, N>
        requires steps { (steps.parts ≡ 1) × (steps.amount ≡ 0) }
        requires ends { (ends.parts ≡ 1) × (ends.amount ≡ 0) }
        ensures { result ≡ fresh_turns }
    {
        TurnSeat {
            steps,
            ends,
            accepted: PhantomData,
            full: PhantomData,
            lost: PhantomData,
            names: PhantomData,
        }
    }

    pub(crate) fn shares(self) -> (Share<S>, Share<E>)
        ensures steps { (result.0.parts ≡ 1) × (result.0.amount ≡ self.steps) }
        ensures ends { (result.1.parts ≡ 1) × (result.1.amount ≡ self.ends) }
    {
        let TurnSeat {
            steps,
            ends,
            accepted: _,
            full: _,
            lost: _,
            names: _,
        } = self;
        (steps, ends)
    }
}

/// The seats of eight devices that were told nothing, each with a part of the shares.
#[tactic(auto, using(crate::proofs::Places::one_place_more))]
pub(crate) fn seated<A: Ledger, F: Ledger, L: Ledger, S: Ledger, E: Ledger, N: Names>(
    mut accepted: Share<A>,
    mut full: Share<F>,
    mut lost: Share<L>,
    mut devices: Vec<Seat<A, F, L, S, E, N>>,
) -> Vec<Seat<A, F, L, S, E, N>>
    requires accepted { (accepted.parts ≡ 8) × (accepted.amount ≡ 0) }
    requires full { (full.parts ≡ 8) × (full.amount ≡ 0) }
    requires lost { (lost.parts ≡ 8) × (lost.amount ≡ 0) }
    requires devices { (devices.items ≡ []) × (8 ≤ vec_capacity devices) }
    ensures { result.items ≡ fresh_places 8 }
{
    for device in 0..8u8 {
        devices.push_reserved(Seat {
            device,
            accepted: accepted.split_off(1, 0),
            full: full.split_off(1, 0),
            lost: lost.split_off(1, 0),
            steps: PhantomData,
            ends: PhantomData,
            names: PhantomData,
        });
    }
    devices
}

/// What all seats were told together; none where there is no seat.
pub(crate) fn gathered<A: Ledger, F: Ledger, L: Ledger, S: Ledger, E: Ledger, N: Names>(
    mut devices: Vec<Seat<A, F, L, S, E, N>>,
) -> Option<(Share<A>, Share<F>, Share<L>)>
    ensures none { IfNone result (vec_len devices ≡ 0) }
    ensures accepted { IfSome result (λ r. (r.0.parts ≡ vec_len devices)
        × (r.0.amount ≡ sum_by (λ (p : Place). p.accepted) devices.items)) }
    ensures full { IfSome result (λ r. (r.1.parts ≡ vec_len devices)
        × (r.1.amount ≡ sum_by (λ (p : Place). p.full) devices.items)) }
    ensures lost { IfSome result (λ r. (r.2.parts ≡ vec_len devices)
        × (r.2.amount ≡ sum_by (λ (p : Place). p.lost) devices.items)) }
{
    let (mut accepted, mut full, mut lost) = shares(devices.pop()?);
    while let Some(seat) = devices.pop() {
        let (more_accepted, more_full, more_lost) = shares(seat);
        accepted.merge(more_accepted);
        full.merge(more_full);
        lost.merge(more_lost);
    }
    Some((accepted, full, lost))
}

// The shares of one seat.
fn shares<A: Ledger, F: Ledger, L: Ledger, S: Ledger, E: Ledger, N: Names>(
    seat: Seat<A, F, L, S, E, N>,
) -> (Share<A>, Share<F>, Share<L>)
    ensures accepted { (result.0.parts ≡ 1) × (result.0.amount ≡ seat.accepted) }
    ensures full { (result.1.parts ≡ 1) × (result.1.amount ≡ seat.full) }
    ensures lost { (result.2.parts ≡ 1) × (result.2.amount ≡ seat.lost) }
{
    let Seat {
        device: _,
        accepted,
        full,
        lost,
        steps: _,
        ends: _,
        names: _,
    } = seat;
    (accepted, full, lost)
}
