//! One segment of the plain store, step by step from its claim to the end of its last hold.
ghost use Rattle.std.specs.Prelude.{◌≡◌, vec_len};

use seg_core::{Applied, SegState, SegStep, apply, refs};
use std::test::Fail;

fn is_done(state: &mut SegState, step: SegStep) -> bool
    ensures { vec_len state.new.cells.segments ≡ vec_len state.old.cells.segments }
{
    apply(state, &step) == Applied::Done
}

#[test]
fn one_segment_from_claim_to_free(rt: HostRuntime) -> Result<(), Fail> {
    let mut state = SegState::empty(rt.alloc(), 1, &[7])?;
    let release = SegStep::Release {
        holder: 0,
        segment: 0,
    };
    assert!(rt;
        is_done(
            &mut state,
            SegStep::Claim {
                holder: 0,
                segment: 0
            }
        )
    );
    assert!(rt;
        is_done(
            &mut state,
            SegStep::Put {
                holder: 0,
                segment: 0,
                location: 0,
                word: 5
            }
        )
    );
    assert!(rt;
        is_done(
            &mut state,
            SegStep::Publish {
                holder: 0,
                segment: 0
            }
        )
    );
    assert!(rt; refs(&state, 0) == 2);
    assert!(rt;
        !is_done(
            &mut state,
            SegStep::Collapse {
                holder: 0,
                segment: 0
            }
        )
    );
    assert!(rt; is_done(&mut state, release));
    assert!(rt; refs(&state, 0) == 1);
    assert!(rt; is_done(&mut state, release));
    assert!(rt; refs(&state, 0) == 0);
    assert!(rt; !is_done(&mut state, release));
    assert!(rt;
        is_done(
            &mut state,
            SegStep::Claim {
                holder: 1,
                segment: 0
            }
        )
    );
    assert!(rt;
        !is_done(
            &mut state,
            SegStep::Put {
                holder: 1,
                segment: 0,
                location: 1,
                word: 5
            }
        )
    );
    Ok(())
}
