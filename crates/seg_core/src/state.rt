//! A state of segments and holders.
ghost use Rattle.std.specs.Prelude.{◌≡◌, ℕ, ◌<◌, ◌^◌, suc, length, vec_len, map, replicate, IfOk};
ghost use Rattle.std.specs.Prelude.{[]};
ghost use mathlib.Core.Option.{some};
ghost use lib.ListN.{get_elem?};
ghost use Rattle.version_map.specs.Deltas as deltas;
ghost use Rattle.seg_core.specs.declared.segment.Segment.{Segment};
ghost use Rattle.seg_core.specs.Core.{free, Core};
ghost use Rattle.seg_core.specs.Core as pure;
ghost use Rattle.seg_core.specs.Steps.{Steps, empty};
ghost use Rattle.seg_core.specs.Shape.{seg_of, list_of, step_of};
ghost use Rattle.seg_core.specs.Cells.{core_of, IsCounted};
ghost use Rattle.seg_core.specs.declared.step.Applied.TheVariants.{Done, Refused};

use crate::cells::{Cells, HOLDERS};
use crate::segment::{References, Segment, Stage};
use crate::step::{Applied, SegStep};
use std::alloc::{AllocError, Global};
use version_map::Delta;

/// Segments, numbered from 0, and what each of 65,536 holders refers to.
#[derive(Drop)]
pub struct SegState {
    cells: Cells,
    ghost counted: { IsCounted (core_of cells) },
}

impl SegState {
    ghost use Rattle.seg_core.specs.States.{state_core};

    /// All segments free, with one location for each of the initial words, which are fewer than
    /// 2^32, and no references. The error is want of memory.
    pub fn empty(alloc: Global, segments: u32, initial: &[u64]) -> Result<SegState, AllocError>
        requires { length initial.now < 2 ^ 32 }
        ensures core { IfOk result (λ s. state_core s ≡ empty (suc segments) 65536
            (length initial.now)) }
        ensures size { IfOk result (λ s. vec_len s.cells.segments ≡ segments) }
    {
        let locations = initial.len() as u32;
        let cells = Cells {
            segments: free_segments(alloc, segments, locations)?,
            holders: no_references(alloc)?,
            locations,
        };
        Ok(SegState { cells })
    }
}

/// Makes the step. It is refused exactly where it cannot be made, and then nothing changes.
pub fn apply(state: &mut SegState, step: &SegStep) -> Applied
    ensures done { result ≡ Done
        → Steps (core_of state.old.cells) (step_of step.now) (core_of state.new.cells) }
    ensures same { result ≡ Refused → state.new.cells ≡ state.old.cells }
    ensures size { vec_len state.new.cells.segments ≡ vec_len state.old.cells.segments }
    ensures refused { result ≡ Refused → (k : Core)
        → ¬ (Steps (core_of state.old.cells) (step_of step.now) k) }
{
    state.cells.apply(step)
}

/// How many references there are to the segment: in the lists of all holders, and of live segments
/// whose parent it is. The segment is one of the state's.
pub fn refs(state: &SegState, segment: u32) -> u64
    requires { segment < vec_len state.now.cells.segments }
    ensures { result ≡ pure.refs (core_of state.now.cells) (suc segment) }
{
    match state.cells.stage(segment) {
        Some(Stage::Live(_, count)) => count,
        Some(Stage::Free) => 0,
        Some(Stage::Building(_)) => 0,
        None => 0,
    }
}

fn free_segments(alloc: Global, count: u32, locations: u32) -> Result<Vec<Segment>, AllocError>
    ensures free { IfOk result (λ v. map seg_of v.items ≡ replicate count free) }
    ensures long { IfOk result (λ v. vec_len v ≡ count) }
    ensures sized { IfOk result (λ v. (i : ℕ) (g : Segment) → get_elem? v.items i ≡ some g
        → deltas.locations g.delta ≡ locations) }
{
    let mut segments = Vec::new(alloc);
    for made in 0..count {
        let delta = Delta::new(alloc, locations)?;
        segments.push(Segment {
            stage: Stage::Free,
            delta,
        })?;
    }
    Ok(segments)
}

fn no_references(alloc: Global) -> Result<Vec<References>, AllocError>
    ensures none { IfOk result (λ v. map list_of v.items ≡ replicate 65536 []) }
    ensures long { IfOk result (λ v. vec_len v ≡ 65536) }
{
    let mut holders = Vec::new(alloc);
    for made in 0..HOLDERS {
        holders.push(References::Empty)?;
    }
    Ok(holders)
}
