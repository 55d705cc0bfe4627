//! What runs give of the streams of docs/FORMAT.md, "Frame places": a piece with the front of each, and then a frame.

ghost use Rattle.std.specs.Prelude.{◌≡◌, IfOk, Some, None};
ghost use Rattle.vc_base.specs.declared.Format.{Format};
ghost use Rattle.vc_defs.specs.declared.Geometry.{Geometry};
ghost use Rattle.vc_defs.specs.declared.Layout.TheVariants.{Grey};
ghost use Rattle.vc_defs.specs.Raw.{grey};
ghost use Rattle.vc_stream_run.specs.Running.{IsInStep};

use super::*;
use std::test::Fail;
use vc_base::{Format, Fourcc, Stamp};
use vc_coder::TransformCoder;
use vc_defs::{Geometry, Layout};
use vc_fwht::PlainTransform;
use vc_resync::Assembly;
use vc_work::Reference;
use vc_work::laws::begins_in_step;

/// A grey I frame of 16 times 16 samples 128.
const FRAME: [u8; 48] = [
    0x4f, 0x4f, 0x4f, 0x4f, 0xff, 0xff, 0xff, 0xff, 0, 0, 0, 3, 0, 0, 0, 16, 0, 0, 0, 16, 0, 8, 4,
    0, //
    0, 0, 0, 0, 0, 0, 0, 0, 0, 0, 0, 0, 0, 0, 0, 0, 0, 0, 0, 4, 0, 6, 0, 15,
];

/// The picture of the frame.
const SHOWN: Decoded = Decoded::Picture {
    used: 256,
    key: true,
    stamp: Stamp(2),
};

/// A frame of the first piece that gives no picture.
const BROKEN: Decoded = Decoded::Damaged { stamp: Stamp(1) };

/// The geometry of the frame.
fn small() -> Geometry
    ensures { result ≡ record { width = 16; height = 16; layout = Grey } }
{
    Geometry {
        width: 16,
        height: 16,
        layout: Layout::Grey,
    }
}

/// A run of a decoder of that geometry, whose pictures have samples 128.
fn run(
    assembly: &mut Assembly,
    reference: &mut Reference,
    bytes: &[u8],
    stamp: u64,
) -> Result<(usize, Decoded), Fail>
    requires in_step { IsInStep assembly.old.limit (Some (record { width = 16; height = 16; layout = Grey })) reference.old.state.reference assembly.old.kept }
    requires area { reference.old.size ≡ 256 }
    ensures in_step { IfOk result (λ _. IsInStep assembly.new.limit (Some (record { width = 16; height = 16; layout = Grey })) reference.new.state.reference assembly.new.kept) }
    ensures area { reference.new.size ≡ 256 }
{
    let format = Format {
        fourcc: Fourcc(*b"GREY"),
        width: 16,
        height: 16,
        size: 256,
    };
    let mut dest = [7; 256];
    let (count, decoded) = decode_run(
        &TransformCoder(PlainTransform),
        assembly,
        reference,
        &small(),
        bytes,
        Stamp(stamp),
        &format,
        &mut dest,
    );
    match decoded {
        Decoded::Changed { .. } => Err(Fail::new("changed")),
        Decoded::Picture { .. } if dest != [128; 256] => Err(Fail::new("another picture")),
        _ => Ok((count, decoded)),
    }
}

/// A line of the table: how many bytes of the frame are in front, the last byte of their size field, the limit, and
/// what the two runs over the frame behind them give.
type Line = (usize, u8, u32, Decoded, Decoded);

#[test]
fn runs_give_what_the_table_says(rt: HostRuntime) -> Result<(), Fail> {
    let table: [Line; 5] = [
        (8, 4, 556, SHOWN, Decoded::Spent),
        (41, 4, 17694720, BROKEN, SHOWN),
        (41, 4, 556, SHOWN, Decoded::Spent),
        (48, 5, 556, BROKEN, SHOWN),
        (48, 32, 556, BROKEN, SHOWN),
    ];
    for (count, last, limit, first, second) in table {
        let mut front = FRAME;
        front[43] = last;
        begins_in_step();
        let mut assembly = Assembly::make(rt.alloc(), limit)?;
        let mut reference = Reference::make(rt.alloc(), 256)?;
        let front = &front[..count.min(48)];
        let (taken, told) = run(&mut assembly, &mut reference, front, 1)?;
        assert_eq!(rt; (taken, told), (count, Decoded::Spent));
        let (taken, told) = run(&mut assembly, &mut reference, &FRAME, 2)?;
        assert_eq!(rt; told, first);
        let rest = &FRAME[taken.min(48)..];
        let (_taken, told) = run(&mut assembly, &mut reference, rest, 2)?;
        assert_eq!(rt; told, second);
    }
    Ok(())
}

#[test]
fn a_probe_tells_the_geometry(rt: HostRuntime) -> Result<(), Fail> {
    begins_in_step();
    let mut assembly = Assembly::make(rt.alloc(), 556)?;
    let (taken, told) = probe_run(&mut assembly, &FRAME, Stamp(1));
    assert_eq!(rt; (taken, told), (44, Decoded::Changed { geometry: small() }));
    Ok(())
}
