use super::*;
use std::test::Fail;

/// A format by its four values.
fn format(name: &[u8; 4], width: u32, height: u32, size: u32) -> Format {
    Format {
        fourcc: Fourcc(*name),
        width,
        height,
        size,
    }
}

#[test]
fn formats_are_nearest_to_what_was_asked(rt: HostRuntime) -> Result<(), Fail> {
    let data = format(b"DATA", 0, 0, 17_694_720);
    let grey = format(b"GREY", 4096, 2160, 8_847_360);
    let rows = [
        (Kind::Copy, format(b"FWHT", 9, 9, 99_999_999), data, data),
        (
            Kind::Enc,
            format(b"YUYV", 17, 17, 0),
            format(b"YUYV", 18, 17, 612),
            format(b"FWHT", 18, 17, 1388),
        ),
        (
            Kind::Enc,
            format(b"ZZZZ", 1, 1, 0),
            format(b"YU12", 16, 16, 384),
            format(b"FWHT", 16, 16, 428),
        ),
        (
            Kind::Enc,
            format(b"GREY", 5000, 5000, 0),
            grey,
            format(b"FWHT", 4096, 2160, 8_847_404),
        ),
        (
            Kind::Dec,
            format(b"FWHT", 16, 16, 0),
            format(b"FWHT", 16, 16, 556),
            format(b"YU12", 16, 16, 384),
        ),
    ];
    for (kind, want, out, cap) in rows {
        let formats = try_format(kind, Side::Out, &open_formats(kind), &want);
        assert_eq!(rt; formats, Formats { out, cap });
    }
    Ok(())
}

#[test]
fn a_decoder_takes_over_the_geometry(rt: HostRuntime) -> Result<(), Fail> {
    let geometry = Geometry {
        width: 32,
        height: 16,
        layout: Layout::Grey,
    };
    let found = formats_found(&open_formats(Kind::Dec), &geometry);
    assert_eq!(rt; found.out, format(b"FWHT", 32, 16, 202_796));
    assert_eq!(rt; found.cap, format(b"GREY", 32, 16, 512));
    assert_eq!(rt; padded_sum(&geometry), 512);
    assert_eq!(rt; raw_size(YU12, 352, 288), Some(152_064));
    assert_eq!(rt; raw_size(FWHT, 352, 288), None);
    assert_eq!(rt;
        enum_format(Kind::Enc, Side::Out, Layout::C420, 3),
        Some(YUYV)
    );
    assert_eq!(rt; enum_format(Kind::Copy, Side::Out, Layout::C420, 1), None);
    assert_eq!(rt;
        enum_format(Kind::Dec, Side::Cap, Layout::C420, 1),
        Some(NV12)
    );
    Ok(())
}
