//! Controls: VIDIOC_G_CTRL and VIDIOC_S_CTRL.

ghost use Rattle.vc_model.specs.Answer.{value_answer, control_of, control_answer, with_control};
ghost use Rattle.vc_context.specs.Contexts.{Gives, IsKept};
ghost use Rattle.vc_context.specs.Serving.{Serves};

use crate::Encoder;
use vc_base::{Kind, Reply};
use vc_context::replies::{told, valued};

impl Encoder {
    /// The value of a control.
    pub(crate) fn control(&self, id: u32) -> Reply
        ensures { Gives (value_answer self.now (control_of self.now.kind self.now.rates id)) result self.now }
    {
        valued(self.controls.get(Kind::Enc, id))
    }

    /// Sets a control, which counts from the next claim on.
    pub(crate) fn set_control(&mut self, id: u32, value: u32) -> Reply
        requires kept { IsKept self.old }
        ensures { Serves (control_answer self.old (with_control self.old.kind self.old.rates id value)) result self.old self.new }
    {
        told(self.controls.set(Kind::Enc, id, value))
    }
}
