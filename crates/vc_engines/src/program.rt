//! The list of engines that the program runs its jobs on.

ghost use Rattle.std.specs.Prelude.{◌≡◌, IfOk, All, map, vec_len};
ghost use Rattle.std.specs.List.{range_with_len};
ghost use Rattle.vc_engines.specs.Kinds.{kind_in_turn, kind_of};

use crate::any::{AnyEngine, EngineKind};
use std::alloc::Global;
use vc_base::NoMemory;
use vc_engine::{FastEngine, PlainEngine};
use vc_lanes::LaneEngine;
use vc_work::Engine;

/// An engine of the program.
pub type ProgramEngine = AnyEngine<LaneEngine, PlainEngine, FastEngine>;

/// The kind of the engine at a place of the list, counted from 0: the kinds in turn, the lane engine first.
pub fn kind_at(place: u32) -> EngineKind
    ensures { result ≡ kind_in_turn place }
{
    match place % 3 {
        0 => EngineKind::Lane,
        1 => EngineKind::Plain,
        _ => EngineKind::Fast,
    }
}

/// An engine of a kind, which has run nothing.
fn engine_of(kind: EngineKind) -> ProgramEngine
    ensures kind { kind_of result ≡ kind }
    ensures no_runs { ⟦<ProgramEngine as Engine>⟧.run_count result ≡ 0 }
    ensures no_faults { ⟦<ProgramEngine as Engine>⟧.fault_count result ≡ 0 }
{
    match kind {
        EngineKind::Lane => AnyEngine::Lane(LaneEngine::new()),
        EngineKind::Plain => AnyEngine::Plain(PlainEngine::new()),
        EngineKind::Fast => AnyEngine::Fast(FastEngine::new()),
    }
}

/// So many engines, of the kinds in turn. None of them has run or failed.
///
/// # Errors
/// `NoMemory` where a growth of memory was refused.
pub fn program_engines(alloc: Global, count: u32) -> Result<Vec<ProgramEngine>, NoMemory>
    ensures count { IfOk result (λ engines. vec_len engines ≡ count) }
    ensures kinds { IfOk result (λ engines. map (λ e. kind_of e) engines.items ≡ map kind_in_turn (range_with_len 0 count)) }
    ensures no_runs { IfOk result (λ engines. All (λ e. ⟦<ProgramEngine as Engine>⟧.run_count e ≡ 0) engines.items) }
    ensures no_faults { IfOk result (λ engines. All (λ e. ⟦<ProgramEngine as Engine>⟧.fault_count e ≡ 0) engines.items) }
{
    let mut engines = Vec::new(alloc);
    for place in 0..count {
        if engines.push(engine_of(kind_at(place))).is_err() {
            return Err(NoMemory);
        }
    }
    Ok(engines)
}

/// So many engines, all of one kind. None of them has run or failed.
///
/// # Errors
/// `NoMemory` where a growth of memory was refused.
pub fn engines_of_kind(
    alloc: Global,
    kind: EngineKind,
    count: u32,
) -> Result<Vec<ProgramEngine>, NoMemory>
    ensures count { IfOk result (λ engines. vec_len engines ≡ count) }
    ensures kinds { IfOk result (λ engines. All (λ e. kind_of e ≡ kind) engines.items) }
    ensures no_runs { IfOk result (λ engines. All (λ e. ⟦<ProgramEngine as Engine>⟧.run_count e ≡ 0) engines.items) }
    ensures no_faults { IfOk result (λ engines. All (λ e. ⟦<ProgramEngine as Engine>⟧.fault_count e ≡ 0) engines.items) }
{
    let mut engines = Vec::new(alloc);
    for _place in 0..count {
        if engines.push(engine_of(kind)).is_err() {
            return Err(NoMemory);
        }
    }
    Ok(engines)
}
