//! References, which encoders and decoders keep from frame to frame.

ghost use Rattle.std.specs.Prelude.{◌≡◌, ◌++◌, IfOk, length, min, take, drop};
ghost use Rattle.vc_defs.specs.Encoder.{fresh_encoder};
ghost use Rattle.vc_work.specs.References.{HasRoomFor, IsReference};

use std::alloc::Global;
use std::marker::Model;
use vc_base::NoMemory;
use vc_defs::Geometry;

/// A picture that later frames refer to, or none, with what an encoder counts beside it: the state of an
/// encoder (docs/FORMAT.md, "The sequential encoder"), or of a decoder, which counts nothing.
///
/// It has an area for the samples of a picture and a second one of the same size, for planes that a raw
/// format doesn't have one behind the other. Both are taken when it is made, so coding takes no memory.
#[derive(Drop)]
pub struct Reference {
    /// The samples of the picture, plane behind plane. Without a picture they mean nothing.
    pub area: Vec<u8>,
    /// As many bytes that mean nothing between two runs.
    pub spare: Vec<u8>,
    /// The size and layout of the picture, where there is one.
    pub geometry: Option<Geometry>,
    /// The number of the picture's frame, where that has one.
    pub number: Option<u32>,
    /// The number of frames since the last I frame, that one included, 0 to 16.
    pub since_key: u32,
    /// The number of an encoder's next frame, 0 to 2,047.
    pub since_reset: u32,
}

impl Model for Reference {
    ghost use Rattle.vc_work.specs.References.{CodecReference, reference_of, IsSound};

    ghost Value = { CodecReference };

    ghost view = { λ r. reference_of r.area.items r.geometry r.number r.since_key r.since_reset };

    ghost invariant = { λ r. IsSound r.area.items r.spare.items r.geometry r.number r.since_key r.since_reset };
}

/// Copies as many bytes as both have from the front of one to the front of the other.
fn copy_front(dest: &mut [u8], source: &[u8])
    ensures { let both = min (length dest.old) (length source.now) in dest.new ≡ take both source.now ++ drop both dest.old }
{
    let both = dest.len().min(source.len());
    dest[..both].copy_from_slice(&source[..both]);
}

impl Reference {
    /// A reference without a picture, with room for raw pictures of up to so many bytes.
    ///
    /// # Errors
    /// `NoMemory` where no memory is found.
    pub fn make(alloc: Global, size: u32) -> Result<Reference, NoMemory>
        ensures { IfOk result (λ r. r ≡ record { size = size; state = fresh_encoder }) }
    {
        let area = match vec![in alloc; 0; size as usize] {
            Ok(area) => area,
            Err(_) => return Err(NoMemory),
        };
        let spare = match vec![in alloc; 0; size as usize] {
            Ok(spare) => spare,
            Err(_) => return Err(NoMemory),
        };
        Ok(Reference {
            area,
            spare,
            geometry: None,
            number: None,
            since_key: 0,
            since_reset: 0,
        })
    }

    /// Drops the picture and begins to count anew.
    pub fn reset(&mut self)
        ensures { self.new ≡ record { size = self.old.size; state = fresh_encoder } }
    {
        self.geometry = None;
        self.number = None;
        self.since_key = 0;
        self.since_reset = 0;
    }

    /// Takes the picture and the counts of another reference, whose picture, where it has one, fits into the
    /// area. The area keeps its size.
    pub fn take_over(&mut self, other: &Reference)
        requires { HasRoomFor other.now.state.reference self.old.size }
        ensures { self.new ≡ record { size = self.old.size; state = other.now.state } }
    {
        copy_front(&mut self.area, &other.area);
        self.geometry = other.geometry;
        self.number = other.number;
        self.since_key = other.since_key;
        self.since_reset = other.since_reset;
    }

    /// For how many bytes of a raw picture it has room.
    pub fn room(&self) -> usize
        ensures size { result ≡ self.now.size }
        ensures sound { IsReference self.now }
    {
        let area = self.area.as_slice();
        area.len()
    }
}
