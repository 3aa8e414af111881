//! Evictions in a world.
ghost use Rattle.std.specs.Prelude.{◌≡◌, OnOk};
ghost use Rattle.dg_play.specs.Work.{after_evict};
ghost use Rattle.dg_alone.specs.Works.{IsWhole, IsWorked, view_of, work_in};

use crate::outcome::evicted_of;
use crate::types::AloneWorld;
use std::alloc::AllocError;

/// So many entries leave the cache, those that were used longest ago first, or all where there are fewer.
pub(crate) fn evict(world: &mut AloneWorld, most: u32) -> Result<(), AllocError>
    requires { IsWhole world.old }
    ensures whole { OnOk result (IsWhole world.new) }
    ensures view { OnOk result (view_of world.new ≡ view_of world.old) }
    ensures work { OnOk result (IsWorked world.old world.new (after_evict most (work_in world.old))) }
    ensures made { OnOk result (world.new.made ≡ world.old.made) }
{
    world.is_world();
    evicted_of(world.evict(most))
}
