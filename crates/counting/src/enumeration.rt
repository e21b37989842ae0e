// The pairs that are gone through.
ghost use Rattle.std.specs.Prelude.{◌≡◌, ◌≤◌};
ghost use Rattle.counting.specs.Internal.Pairs.{count_varied, Divides};
ghost use Rattle.counting.specs.Internal.Linear.{varied_in};

use super::plan::Plan;
use super::{linear, numbers};

// Of a plan's free bits only some vary: those that are factors, or others beside them. How many batches there are of the pairs in
// which they do, and how many pairs each has.
#[derive(Clone, Copy)]
pub struct Enumeration {
    pub plan: Plan,
    pub factors: u64,
    pub batches: usize,
    pub lanes: usize,
    ghost few: { plan.free ≤ 16 },
    ghost divides: { Divides (count_varied (varied_in factors plan.free)) batches lanes },
}

// 128 pairs a batch, or one batch of fewer.
pub(crate) fn enumerate(plan: Plan, factors: u64) -> Enumeration
    requires { plan.free ≤ 16 }
    ensures { (result.plan ≡ plan) × (result.factors ≡ factors) }
{
    let varied = linear::count_free(factors, plan.free);
    if varied < 7 {
        return Enumeration {
            plan,
            factors,
            batches: 1,
            lanes: numbers::power(varied),
        };
    }
    Enumeration {
        plan,
        factors,
        batches: numbers::power(varied - 7),
        lanes: 128,
    }
}
