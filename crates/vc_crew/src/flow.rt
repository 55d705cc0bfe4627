//! What a caller does.

ghost use Rattle.std.specs.Prelude.{◌≡◌, None, List};
ghost use Rattle.vc_model.specs.Solo.{SoloEvent};
ghost use Rattle.vc_port.specs.Payloads.{slot_after};

use std::alloc::Global;
use std::marker::Send;
use std::sync::Wait;
use vc_port::PayloadPort;

/// What a caller does on one slot of the device, over any port of it. The slot is closed before and after.
pub trait Flow: Drop {
    /// How it ends.
    type End: Drop + Send;

    /// What holds of a flow that may be run.
    ghost may: { Self → Type 0 };
    /// What a run does, where the slot had the first events before and has the second ones afterwards.
    ghost does: { Self → List SoloEvent → List SoloEvent → Self.End → Self → Type 0 };

    /// Makes the calls. It may wait.
    fn run<R: Wait, P: PayloadPort>(&mut self, rt: &R, alloc: Global, port: &mut P) -> Self::End
        requires may { may self.old }
        requires ready { P.ready port.old }
        requires closed { slot_after (P.events port.old) ≡ None }
        ensures ready { P.ready port.new }
        ensures follows { P.follows port.old port.new }
        ensures closed { slot_after (P.events port.new) ≡ None }
        ensures does { does self.old (P.events port.old) (P.events port.new) result self.new };
}
