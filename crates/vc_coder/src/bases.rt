//! What a sample is coded as a difference from.

ghost use Rattle.std.specs.Prelude.{◌≡◌, ◌<◌, ◌≤ℤ◌, pos};
ghost use Rattle.vc_defs.specs.Planes.{base_of};

/// What a sample is coded as a difference from.
pub(crate) fn base(inter: bool, old: &[u8; 64], k: usize) -> i32
    requires { k < 64 }
    ensures value { result ≡ base_of inter old.now k }
    ensures least { pos 0 ≤ℤ result }
    ensures most { result ≤ℤ pos 255 }
{
    if inter { old[k] as i32 } else { 128 }
}
