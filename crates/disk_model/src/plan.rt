ghost use Rattle.std.specs.Prelude.{◌≡◌, ◌↔◌, IsErr, OnOk};
ghost use Rattle.wire_ids.specs.Causes.{HasCause};

use crate::Failed;
use crate::faults::one_more;

// Which calls of an object in memory fail, and how often it has failed. Some calls pass, the next
// ones fail, and those after them pass.
#[derive(Drop)]
pub struct Plan {
    pub passes: u64,
    pub fails: u64,
    pub faults: u64,
}

impl Plan {
    ghost use Rattle.disk_model.specs.Plan.{FollowsPlan, HasPlan, IsFailing};

    pub fn new(passes: u64, fails: u64) -> Plan
        ensures plan { HasPlan result passes fails }
        ensures faults { result.faults ≡ 0 }
    {
        Plan {
            passes,
            fails,
            faults: 0,
        }
    }

    // Counts a call, and fails where it is to fail.
    pub fn call(&mut self) -> Result<(), Failed>
        ensures fails { IsErr result ↔ IsFailing self.old }
        ensures plan { FollowsPlan self.old self.new }
        ensures stays { OnOk result (self.new.faults ≡ self.old.faults) }
        ensures cause { HasCause self.old.faults self.new.faults result }
    {
        if self.passes > 0 {
            self.passes -= 1;
            return Ok(());
        }
        if self.fails == 0 {
            return Ok(());
        }
        self.fails -= 1;
        self.faults = one_more(self.faults);
        Err(Failed)
    }
}
