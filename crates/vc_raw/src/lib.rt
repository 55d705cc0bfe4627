//! Raw pictures in a list of bytes, and the generator of pictures for trials, after docs/FORMAT.md, "Raw pictures".
//!
//! The generator's sample at column x and row y of plane c of picture n for number s is
//! `(x + 2y + 3n + 64c + s + (x·y·(n + 1)) div 64) mod 256`.
#![tactic(auto)]

ghost use Rattle.std.specs.Prelude.{◌≡◌, ◌≤◌, ◌<◌, ◌+◌, ◌*◌, ◌/◌, ◌%◌, ◌^◌, ℕ, length, get_or};
ghost use Rattle.vc_defs.specs.declared.Layout.TheVariants.{Grey, C420, C422};
ghost use Rattle.vc_defs.specs.Raw.{grey, yu12, nv12, yuyv, layout_of, raw_of, generated_sample, generated};
ghost use Rattle.vc_defs.specs.Laws.{IsRawFormat};
ghost use Rattle.vc_raw.specs.declared.Row.TheVariants.{Packed};
ghost use Rattle.vc_raw.specs.Rows.{row_byte, IsSize};

use vc_base::{Format, Fourcc};

const GREY: Fourcc = Fourcc(*b"GREY");

const YU12: Fourcc = Fourcc(*b"YU12");

const NV12: Fourcc = Fourcc(*b"NV12");

/// What a row of bytes has: samples of one plane, samples of U and V in turns, or Y, U, Y and V in turns.
#[derive(Clone, Copy)]
enum Row {
    Luma,
    First,
    Second,
    Turns,
    Packed,
}

/// How many whole pictures of `size` bytes there are in `read` bytes, and how many bytes are left.
///
/// The size is not 0.
pub fn split(read: u64, size: u32) -> (u64, u32)
    requires { 0 < size }
    ensures pictures { result.0 ≡ read / size }
    ensures left { result.1 ≡ read % size }
{
    let size = u64::from(size);
    (read / size, (read % size) as u32)
}

/// How far a sample is bent from the plane's slope.
fn bend(x: u32, y: u32, picture: u32) -> u64
    requires place { (x < 8192) × (y < 4096) }
    requires picture { picture < 1000000 }
    ensures value { result ≡ x * y * (picture + 1) / 64 }
    ensures most { result < 2 ^ 40 }
{
    u64::from(x * y) * (u64::from(picture) + 1) / 64
}

/// The generator's sample at a column and a row, where the column may be that of a byte.
fn sample_at(plane: u32, x: u32, y: u32, picture: u32, number: u32) -> u8
    requires plane { plane < 3 }
    requires place { (x < 8192) × (y < 4096) }
    requires picture { picture < 1000000 }
    requires number { number ≤ 1000063 }
    ensures { result ≡ generated_sample plane x y picture number }
{
    let slope = x + 2 * y + 3 * picture + 64 * plane + number;
    ((u64::from(slope) + bend(x, y, picture)) % 256) as u8
}

/// The generator's sample at column `x` and row `y` of a plane, 0 for Y, 1 for U and 2 for V.
///
/// Column and row are below 4,096, the picture is below 1,000,000, and the number is at most 1,000,063.
pub fn sample(plane: u32, x: u32, y: u32, picture: u32, number: u32) -> u8
    requires plane { plane < 3 }
    requires place { (x < 4096) × (y < 4096) }
    requires picture { picture < 1000000 }
    requires number { number ≤ 1000063 }
    ensures { result ≡ generated_sample plane x y picture number }
{
    sample_at(plane, x, y, picture, number)
}

/// Byte `k` of row `y`.
fn byte(row: Row, k: u32, y: u32, picture: u32, number: u32) -> u8
    requires place { (k < 8192) × (y < 4096) }
    requires picture { picture < 1000000 }
    requires number { number ≤ 1000063 }
    ensures { result ≡ row_byte row k y picture number }
{
    match row {
        Row::Luma => sample_at(0, k, y, picture, number),
        Row::First => sample_at(1, k, y, picture, number),
        Row::Second => sample_at(2, k, y, picture, number),
        Row::Turns => sample_at(1 + k % 2, k / 2, y, picture, number),
        Row::Packed => packed_byte(k, y, picture, number),
    }
}

/// Byte `k` of row `y` where Y, U, Y and V come in turns.
fn packed_byte(k: u32, y: u32, picture: u32, number: u32) -> u8
    requires place { (k < 8192) × (y < 4096) }
    requires picture { picture < 1000000 }
    requires number { number ≤ 1000063 }
    ensures { result ≡ row_byte Packed k y picture number }
{
    if k % 2 == 0 {
        sample_at(0, k / 2, y, picture, number)
    } else if k % 4 == 1 {
        sample_at(1, k / 4, y, picture, number)
    } else {
        sample_at(2, k / 4, y, picture, number)
    }
}

/// Writes row `y`, `across` bytes, from `at` on.
fn fill_row(out: &mut [u8], at: usize, across: u32, row: Row, y: u32, picture: u32, number: u32)
    requires inside { at + across ≤ length out.old }
    requires place { (across ≤ 8192) × (y < 4096) }
    requires picture { picture < 1000000 }
    requires number { number ≤ 1000063 }
    ensures written { (k : ℕ) → k < across → get_or out.new (at + k) 0 ≡ row_byte row k y picture number }
    ensures kept { (j : ℕ) → j < at → get_or out.new j 0 ≡ get_or out.old j 0 }
{
    for k in 0..across {
        out[at + k as usize] = byte(row, k, y, picture, number);
    }
}

/// Writes `rows` rows of `across` bytes from `at` on.
fn fill_rows(out: &mut [u8], at: usize, across: u32, rows: u32, row: Row, picture: u32, number: u32)
    requires inside { at + across * rows ≤ length out.old }
    requires size { (0 < across) × (across ≤ 8192) × (rows ≤ 4096) }
    requires picture { picture < 1000000 }
    requires number { number ≤ 1000063 }
    ensures written { (k : ℕ) → k < across * rows → get_or out.new (at + k) 0 ≡ row_byte row (k % across) (k / across) picture number }
    ensures kept { (j : ℕ) → j < at → get_or out.new j 0 ≡ get_or out.old j 0 }
{
    for y in 0..rows {
        let from = at + (across * y) as usize;
        fill_row(out, from, across, row, y, picture, number);
    }
}

/// Writes a picture of one plane.
fn fill_grey(out: &mut [u8], width: u32, height: u32, picture: u32, number: u32)
    requires size { IsSize width height }
    requires long { length out.old ≡ width * height }
    requires picture { picture < 1000000 }
    requires number { number ≤ 1000063 }
    ensures { out.new ≡ raw_of grey (generated (record { width = width; height = height; layout = Grey }) picture number) }
{
    fill_rows(out, 0, width, height, Row::Luma, picture, number);
}

/// Writes a picture of three planes, one behind the other.
fn fill_planes(out: &mut [u8], width: u32, height: u32, picture: u32, number: u32)
    requires size { IsSize width height }
    requires even { (width ≡ 2 * (width / 2)) × (height ≡ 2 * (height / 2)) }
    requires long { length out.old ≡ width * height * 3 / 2 }
    requires picture { picture < 1000000 }
    requires number { number ≤ 1000063 }
    ensures { out.new ≡ raw_of yu12 (generated (record { width = width; height = height; layout = C420 }) picture number) }
{
    let luma = (width * height) as usize;
    let chroma = (width / 2 * (height / 2)) as usize;
    fill_rows(out, 0, width, height, Row::Luma, picture, number);
    fill_rows(
        out,
        luma,
        width / 2,
        height / 2,
        Row::First,
        picture,
        number,
    );
    fill_rows(
        out,
        luma + chroma,
        width / 2,
        height / 2,
        Row::Second,
        picture,
        number,
    );
}

/// Writes a picture of a plane Y, and then U and V in turns.
fn fill_turns(out: &mut [u8], width: u32, height: u32, picture: u32, number: u32)
    requires size { IsSize width height }
    requires even { (width ≡ 2 * (width / 2)) × (height ≡ 2 * (height / 2)) }
    requires long { length out.old ≡ width * height * 3 / 2 }
    requires picture { picture < 1000000 }
    requires number { number ≤ 1000063 }
    ensures { out.new ≡ raw_of nv12 (generated (record { width = width; height = height; layout = C420 }) picture number) }
{
    let luma = (width * height) as usize;
    fill_rows(out, 0, width, height, Row::Luma, picture, number);
    fill_rows(out, luma, width, height / 2, Row::Turns, picture, number);
}

/// Writes a picture in which Y, U, Y and V come in turns.
fn fill_packed(out: &mut [u8], width: u32, height: u32, picture: u32, number: u32)
    requires size { IsSize width height }
    requires even { width ≡ 2 * (width / 2) }
    requires long { length out.old ≡ 2 * (width * height) }
    requires picture { picture < 1000000 }
    requires number { number ≤ 1000063 }
    ensures { out.new ≡ raw_of yuyv (generated (record { width = width; height = height; layout = C422 }) picture number) }
{
    fill_rows(out, 0, 2 * width, height, Row::Packed, picture, number);
}

/// Writes the generator's picture in a raw format.
///
/// The format is a raw one with a size that its pictures can have, `out` has its number of bytes, the picture is below
/// 1,000,000, and the number is at most 1,000,063.
pub fn fill(out: &mut [u8], format: &Format, picture: u32, number: u32)
    requires raw { IsRawFormat format.now }
    requires long { length out.old ≡ format.now.size }
    requires picture { picture < 1000000 }
    requires number { number ≤ 1000063 }
    ensures { out.new ≡ raw_of format.now.fourcc (generated (record { width = format.now.width; height = format.now.height; layout = layout_of format.now.fourcc }) picture number) }
{
    let Format {
        fourcc,
        width,
        height,
        ..
    } = *format;
    if fourcc == GREY {
        fill_grey(out, width, height, picture, number);
    } else if fourcc == YU12 {
        fill_planes(out, width, height, picture, number);
    } else if fourcc == NV12 {
        fill_turns(out, width, height, picture, number);
    } else {
        fill_packed(out, width, height, picture, number);
    }
}

#[cfg(test)]
mod tests {
    use super::*;
    use std::test::Fail;

    #[test]
    fn a_grey_picture_begins_by_counting(rt: HostRuntime) -> Result<(), Fail> {
        let mut out = [0; 256];
        let format = Format {
            fourcc: GREY,
            width: 16,
            height: 16,
            size: 256,
        };
        fill(&mut out, &format, 0, 0);
        for k in 0..16 {
            assert_eq!(rt; out[k], k as u8);
        }
        assert_eq!(rt; out[255], 0x30);
        assert_eq!(rt; sample(0, 15, 15, 0, 0), 0x30);
        assert_eq!(rt; split(300, 256), (1, 44));
        Ok(())
    }
}
