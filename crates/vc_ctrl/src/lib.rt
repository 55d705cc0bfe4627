//! The controls of a context, by their numbers.
//!
//! 1 is the number of frames from one I frame to the next (V4L2_CID_MPEG_VIDEO_GOP_SIZE), 1 to 16, and 10 at
//! first. 2 and 3 are the quantisers of I frames and of P frames, 1 to 31, and 20 at first. 4 and 5 are the
//! fewest CAPTURE and OUTPUT buffers that a client needs (V4L2_CID_MIN_BUFFERS_FOR_CAPTURE and
//! V4L2_CID_MIN_BUFFERS_FOR_OUTPUT), always 1. An encoder has 1, 2, 3 and 5, a decoder has 4, and a copying
//! context has none.
#![tactic(auto)]

ghost use Rattle.std.specs.Prelude.{◌≡◌, ◌≤◌, ◌&&◌, nat_le, ok_or, unwrap_or};
ghost use Rattle.vc_base.specs.declared.Errno.TheVariants.{Inval};
ghost use Rattle.vc_base.specs.Limits.{most_gop, most_quantiser};
ghost use Rattle.vc_defs.specs.Laws.{AreRates};
ghost use Rattle.vc_defs.specs.Outputs.{default_rates};
ghost use Rattle.vc_model.specs.Answer.{control_of, with_control};
ghost use Rattle.vc_ctrl.specs.Answers.{set_answer};

use std::marker::Model;
use vc_base::limits::{
    GOP_CONTROL, IQP_CONTROL, LEAST_CAPTURE_CONTROL, LEAST_OUTPUT_CONTROL, MOST_GOP,
    MOST_QUANTISER, PQP_CONTROL,
};
use vc_base::{Errno, Kind};

/// The values of the controls that can be set.
#[derive(Drop)]
pub struct Controls {
    gop: u32,
    iqp: u32,
    pqp: u32,
}

impl Model for Controls {
    ghost use Rattle.vc_defs.specs.Encoder.{RunRates};
    ghost use Rattle.vc_defs.specs.Laws.{AreRates};

    ghost Value = { RunRates };

    ghost view = { λ c. record { gop = c.gop; iqp = c.iqp; pqp = c.pqp } };

    ghost invariant = { λ c. AreRates (record { gop = c.gop; iqp = c.iqp; pqp = c.pqp }) };
}

/// Whether the value is 1 to `most`.
fn is_within(value: u32, most: u32) -> bool
    ensures { result ≡ (nat_le 1 value && nat_le value most) }
{
    1 <= value && value <= most
}

impl Controls {
    /// The values of a fresh context: an I frame at each tenth frame, and the quantiser 20 for both types of
    /// frames.
    pub fn new() -> Controls
        ensures first { result ≡ default_rates }
        ensures range { AreRates result }
    {
        Controls {
            gop: 10,
            iqp: 20,
            pqp: 20,
        }
    }

    /// The frames from one I frame to the next, 1 to 16.
    pub fn gop(&self) -> u32
        ensures value { result ≡ self.now.gop }
        ensures least { 1 ≤ result }
        ensures most { result ≤ most_gop }
    {
        self.gop
    }

    /// The quantiser of I frames, 1 to 31.
    pub fn iqp(&self) -> u32
        ensures value { result ≡ self.now.iqp }
        ensures least { 1 ≤ result }
        ensures most { result ≤ most_quantiser }
    {
        self.iqp
    }

    /// The quantiser of P frames, 1 to 31.
    pub fn pqp(&self) -> u32
        ensures value { result ≡ self.now.pqp }
        ensures least { 1 ≤ result }
        ensures most { result ≤ most_quantiser }
    {
        self.pqp
    }

    /// The value of a control that a context of the kind has (VIDIOC_G_CTRL).
    ///
    /// # Errors
    /// EINVAL where the kind lacks the control.
    pub fn get(&self, kind: Kind, id: u32) -> Result<u32, Errno>
        ensures { result ≡ ok_or (control_of kind self.now id) Inval }
    {
        match (kind, id) {
            (Kind::Enc, GOP_CONTROL) => Ok(self.gop),
            (Kind::Enc, IQP_CONTROL) => Ok(self.iqp),
            (Kind::Enc, PQP_CONTROL) => Ok(self.pqp),
            (Kind::Enc, LEAST_OUTPUT_CONTROL) | (Kind::Dec, LEAST_CAPTURE_CONTROL) => Ok(1),
            _ => Err(Errno::Inval),
        }
    }

    /// Sets a control that a context of the kind has (VIDIOC_S_CTRL). The value counts from the next claim on.
    ///
    /// # Errors
    /// EINVAL where the kind lacks the control, where it is 4 or 5, which only tell, or where the value is out
    /// of range. The values are then as before.
    pub fn set(&mut self, kind: Kind, id: u32, value: u32) -> Result<(), Errno>
        ensures answer { result ≡ set_answer (with_control kind self.old id value) }
        ensures after { self.new ≡ unwrap_or (with_control kind self.old id value) self.old }
        ensures range { AreRates self.new }
    {
        match (kind, id) {
            (Kind::Enc, GOP_CONTROL) if is_within(value, MOST_GOP) => self.gop = value,
            (Kind::Enc, IQP_CONTROL) if is_within(value, MOST_QUANTISER) => self.iqp = value,
            (Kind::Enc, PQP_CONTROL) if is_within(value, MOST_QUANTISER) => self.pqp = value,
            _ => return Err(Errno::Inval),
        }
        Ok(())
    }
}

#[cfg(test)]
mod tests {
    use super::*;
    use std::test::Fail;

    #[test]
    fn an_encoder_has_four_controls(rt: HostRuntime) -> Result<(), Fail> {
        let mut controls = Controls::new();
        assert_eq!(rt; controls.set(Kind::Enc, 1, 17), Err(Errno::Inval));
        assert_eq!(rt; controls.set(Kind::Enc, 5, 1), Err(Errno::Inval));
        assert_eq!(rt; controls.set(Kind::Enc, 2, 31), Ok(()));
        let rows = [
            (Kind::Enc, 1, Ok(10)),
            (Kind::Enc, 2, Ok(31)),
            (Kind::Enc, 3, Ok(20)),
            (Kind::Enc, 4, Err(Errno::Inval)),
            (Kind::Enc, 5, Ok(1)),
            (Kind::Dec, 4, Ok(1)),
            (Kind::Dec, 1, Err(Errno::Inval)),
            (Kind::Copy, 1, Err(Errno::Inval)),
        ];
        for (kind, id, value) in rows {
            assert_eq!(rt; controls.get(kind, id), value);
        }
        assert_eq!(rt;
            (controls.gop(), controls.iqp(), controls.pqp()),
            (10, 31, 20)
        );
        Ok(())
    }
}
