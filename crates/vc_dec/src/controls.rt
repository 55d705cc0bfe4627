//! Controls: VIDIOC_G_CTRL.

ghost use Rattle.vc_model.specs.Answer.{value_answer, control_of};
ghost use Rattle.vc_context.specs.Contexts.{Gives};

use crate::Decoder;
use vc_base::{Kind, Reply};
use vc_context::replies::valued;
use vc_ctrl::Controls;

impl Decoder {
    /// The value of a control: a decoder tells the fewest CAPTURE buffers alone.
    pub(crate) fn control(&self, id: u32) -> Reply
        ensures { Gives (value_answer self.now (control_of self.now.kind self.now.rates id)) result self.now }
    {
        // The answer is that of a decoder, which is known of its parts alone, so the proof looks at them.
        let _ = &self.m2m;
        valued(Controls::new().get(Kind::Dec, id))
    }
}
