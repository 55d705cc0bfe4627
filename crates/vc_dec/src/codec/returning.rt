//! What comes back to the codec at the end of a job.

ghost use Rattle.std.specs.Prelude.{◌≡◌};
ghost use Rattle.vc_dec.specs.Parts.{FindsItsPlace, taken_back};

use super::Codec;
use vc_resync::Assembly;
use vc_work::Reference;

impl Codec {
    /// Takes back what went along with a job: the assembly, and in a run the reference with its picture, which is
    /// the present one then.
    pub(crate) fn take_back(&mut self, assembly: Option<Assembly>, reference: Option<Reference>)
        requires { FindsItsPlace reference self.old.present }
        ensures { self.new ≡ taken_back assembly reference self.old }
    {
        self.assembly = assembly;
        if reference.is_some() {
            self.present = reference;
        }
    }
}
