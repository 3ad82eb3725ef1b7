//! A way of making legs whose text goes to a sink.

ghost use Rattle.std.specs.Prelude.{◌≡◌};

use crate::fault::StreamFault;
use crate::leg::stream_leg;
use code_world::{LegAnswer, World};
use leg_run::CodeSetting;
use rev_io::Sink;
use std::alloc::{AllocError, Global};
use version_map::MergeBy;
use world_runs::Legs;

/// A way of making legs whose text goes to a sink.
#[derive(Drop)]
pub(crate) struct Streamer<'o, O: Sink> {
    out: &'o mut O,
}

impl<'o, O: Sink> Streamer<'o, O> {
    /// With this sink.
    pub(crate) fn new(out: &'o mut O) -> Streamer<'o, O>
        ensures same_reference { result.out.ghost_name ≡ out.entry.ghost_name }
        ensures now { result.out.now ≡ out.old }
    {
        Streamer { out }
    }
}

impl<'o, O: Sink> Legs for Streamer<'o, O> {
    ghost use Rattle.world_streams.specs.Runs.{Begun, PutsSince, StopsSince};

    type Fault = StreamFault;

    // How the run began.
    ghost Told = { Begun O };

    ghost keeps = { λ l b g w v. PutsSince O.stream b g w v l.out };

    ghost stops = { λ l b g f. StopsSince O.stream b g l.out f };

    fn leg<M: MergeBy>(
        &mut self,
        alloc: Global,
        setting: &CodeSetting,
        merges: &mut M,
        world: World,
        revision: u32,
    ) -> Result<(World, LegAnswer), StreamFault> {
        let made = stream_leg(alloc, setting, merges, world, revision, self.out)?;
        Ok(made)
    }

    fn out_of_memory(&self, _error: AllocError) -> StreamFault {
        StreamFault::OutOfMemory
    }
}
