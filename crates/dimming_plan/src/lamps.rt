//! The lamps of a group.
ghost use Rattle.std.specs.Prelude.{◌≡◌, ◌≤◌, All, IfOk, length};
ghost use Rattle.dimming_plan.specs.Members.{group_watts, members};
ghost use Rattle.dimming_plan.specs.PlanFile.{IsPlanLamp};

use crate::entry::PlanLamp;
use fx_base::Memory;
use std::alloc::Global;

/// Which lamps are in a group, in the order of the plan.
pub fn members(alloc: Global, plan: &[PlanLamp], group: u8) -> Result<Vec<bool>, Memory>
    ensures { IfOk result (λ v. v.items ≡ members group plan.now) }
{
    let mut inside = Vec::new(alloc);
    for lamp in plan {
        inside.push(lamp.group == group)?;
    }
    Ok(inside)
}

/// What the lamps of a group take in full, in watts.
pub fn group_watts(plan: &[PlanLamp], group: u8) -> u32
    requires few { length plan.now ≤ 256 }
    requires within { All IsPlanLamp plan.now }
    ensures watts { result ≡ group_watts group plan.now }
    ensures most { result ≤ 2560000 }
{
    let mut watts = 0;
    for lamp in plan {
        if lamp.group == group {
            watts += lamp.watts;
        }
    }
    watts
}
