//! The first engines of the list.

use crate::{EngineKind, program_engines};
use std::test::Fail;
use vc_work::Engine;

#[test]
fn the_first_of_four_engines_is_a_lane_engine_and_so_is_the_last(
    rt: HostRuntime,
) -> Result<(), Fail> {
    let engines = program_engines(rt.alloc(), 4)?;
    assert_eq!(rt; engines.len(), 4);
    assert_eq!(rt; engines[0].kind(), EngineKind::Lane);
    assert_eq!(rt; engines[1].kind(), EngineKind::Plain);
    assert_eq!(rt; engines[2].kind(), EngineKind::Fast);
    assert_eq!(rt; engines[3].kind(), EngineKind::Lane);
    assert_eq!(rt; (engines[0].runs(), engines[0].faults()), (0, 0));
    Ok(())
}
