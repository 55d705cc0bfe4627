//! Pictures of the generator through `make`, `encode` and `decode`.

use crate::alone::{FRAME_BYTES, code_all};
use crate::commands::{Engines, run};
use crate::stream::next_frame;
use std::test::Fail;
use vc_top::Status;

/// How many pictures there are.
const PICTURES: u32 = 300;

/// Room for all frames, and so for all pictures.
const ROOM: usize = PICTURES as usize * FRAME_BYTES;

const MAKE: &[&str] = &["make", "--pictures", "300"];

const MAKE_FEW: &[&str] = &["make", "--pictures", "30"];

const ENCODE: &[&str] = &["encode", "--workers", "4"];

const BY_THREE: &[&str] = &["encode", "--workers", "3"];

const DECODE: &[&str] = &["decode", "--workers", "4"];

/// Each tenth frame from the first on is an I frame. What comes back is exactly what the encoder had as its
/// references, and not only like the pictures.
#[test]
fn pictures_come_back_as_the_encoder_had_them(rt: HostRuntime) -> Result<(), Fail> {
    let alloc = rt.alloc();
    let wanted = code_all(alloc, PICTURES, 0)?;

    let (status, pictures) = run(&rt, alloc, MAKE, Engines::InTurn, Vec::new(alloc), ROOM)?;
    assert_eq!(rt; status, Status::Fine);
    assert_eq!(rt; pictures.len(), 45_619_200);
    assert!(rt; pictures == wanted.pictures);

    let (status, stream) = run(&rt, alloc, ENCODE, Engines::InTurn, pictures, ROOM)?;
    assert_eq!(rt; status, Status::Fine);
    assert!(rt; stream == wanted.frames);
    let mut rest = stream.as_slice();
    for number in 0..PICTURES {
        let Some((is_key, behind)) = next_frame(rest) else {
            return Err(Fail::new("the stream has too few frames"));
        };
        assert_eq!(rt; is_key, number % 10 == 0, "frame {number}");
        rest = behind;
    }
    assert!(rt; rest.is_empty());

    let (status, shown) = run(&rt, alloc, DECODE, Engines::InTurn, stream, ROOM)?;
    assert_eq!(rt; status, Status::Fine);
    assert_eq!(rt; shown.len(), 45_619_200);
    assert!(rt; shown == wanted.reconstructions);
    Ok(())
}

/// Whatever engines the workers have, the frames are the same.
#[test]
fn engines_of_every_sort_write_the_same_frames(rt: HostRuntime) -> Result<(), Fail> {
    let alloc = rt.alloc();
    let (_, pictures) = run(&rt, alloc, MAKE_FEW, Engines::InTurn, Vec::new(alloc), ROOM)?;
    let again = pictures.clone()?;
    let (status, plain) = run(&rt, alloc, BY_THREE, Engines::Plain, pictures, ROOM)?;
    assert_eq!(rt; status, Status::Fine);
    let (status, mixed) = run(&rt, alloc, BY_THREE, Engines::InTurn, again, ROOM)?;
    assert_eq!(rt; status, Status::Fine);
    assert!(rt; !plain.is_empty());
    assert!(rt; plain == mixed);
    Ok(())
}
