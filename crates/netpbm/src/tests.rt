// What the reader and the writer do on examples.
use crate::fault::Fault;
use crate::raster::Raster;
use crate::reader::read;
use crate::window::{Window, put_window, window_at, windows_across};
use crate::writer::write;
use std::alloc::Global;
use std::process::Abort;
use std::test::Fail;

fn fault_of(heap: Global, bytes: &[u8]) -> Option<Fault> {
    read(heap, bytes).err()
}

fn check_picture(
    rt: &impl Abort,
    r: &Raster,
    width: usize,
    height: usize,
    maxval: u16,
    samples: &[u16],
) {
    assert_eq!(rt; r.width(), width);
    assert_eq!(rt; r.height(), height);
    assert_eq!(rt; r.maxval(), maxval);
    assert_eq!(rt; r.samples(), samples);
}

#[test]
fn reads(rt: HostRuntime) -> Result<(), Fail> {
    let heap = rt.alloc();
    let eight = read(heap, b"P5\n3 2\n255\n\x00\x01\x02\n #")?;
    check_picture(&rt, &eight, 3, 2, 255, &[0, 1, 2, 10, 32, 35]);
    let sixteen = read(heap, b"P5 2 1 65535 \x01\x02\xff\xfe")?;
    check_picture(&rt, &sixteen, 2, 1, 65535, &[258, 65534]);
    let odd = read(
        heap,
        b"P5# one\r\x0b\x0c#two\n\t0002 # 9\n\n01#\n00000000000000000000000007\r\x07\x00",
    )?;
    check_picture(&rt, &odd, 2, 1, 7, &[7, 0]);
    Ok(())
}

#[test]
fn refuses(rt: HostRuntime) {
    let heap = rt.alloc();
    assert_eq!(rt; fault_of(heap, b"P6 1 1 255 \x00"), Some(Fault::NotPgm));
    assert_eq!(rt; fault_of(heap, b"P5 1 1 255"), Some(Fault::CutShort));
    assert_eq!(rt; fault_of(heap, b"P5 1 2 255 \x00"), Some(Fault::CutShort));
    assert_eq!(rt;
        fault_of(
            heap,
            b"P5 1234567890123456789012345678901234567890 1 255 \x00",
        ),
        Some(Fault::CutShort)
    );
    assert_eq!(rt; fault_of(heap, b"P5 1 x 255 \x00"), Some(Fault::NoNumber));
    assert_eq!(rt; fault_of(heap, b"P5 1 0 255 \x00"), Some(Fault::ZeroSize));
    assert_eq!(rt;
        fault_of(heap, b"P5 1 1 65536 \x00"),
        Some(Fault::BadMaxval)
    );
    assert_eq!(rt; fault_of(heap, b"P5 1 1 9 \x0a"), Some(Fault::AboveMaxval));
    assert_eq!(rt; fault_of(heap, b"P5 1 1 9 \x09\n"), Some(Fault::LeftOver));
}

#[test]
fn comes_back(rt: HostRuntime) -> Result<(), Fail> {
    let heap = rt.alloc();
    let wide = Raster::new(3, 1, 300, vec![in heap; 300, 0, 256]?)?;
    let bytes = write(heap, &wide)?;
    assert_eq!(rt;
        bytes.as_slice(),
        &b"P5\n3 1\n300\n\x01\x2c\x00\x00\x01\x00"[..]
    );
    let again = read(heap, bytes.as_slice())?;
    check_picture(&rt, &again, 3, 1, 300, &[300, 0, 256]);
    let narrow = Raster::new(1, 2, 9, vec![in heap; 9, 0]?)?;
    let bytes = write(heap, &narrow)?;
    assert_eq!(rt; bytes.as_slice(), &b"P5\n1 2\n9\n\x09\x00"[..]);
    Ok(())
}

#[test]
fn windows(rt: HostRuntime) -> Result<(), Fail> {
    let heap = rt.alloc();
    let raster = Raster::new(3, 2, 9, vec![in heap; 0, 1, 2, 3, 4, 5]?)?;
    assert_eq!(rt; windows_across(3, 2), 2);
    let last = Window {
        x: 2,
        y: 0,
        width: 1,
        height: 2,
    };
    assert_eq!(rt; window_at(3, 2, 2, 1, 0), Some(last));
    assert_eq!(rt; window_at(3, 2, 2, 2, 0), None);
    let part = raster.window(heap, last)?;
    assert_eq!(rt; part.as_slice(), &[2u16, 5][..]);
    let mut samples = [0u16, 1, 2, 3, 4, 5];
    put_window(&mut samples, 3, last, &[7, 8])?;
    assert_eq!(rt; &samples[..], &[0u16, 1, 7, 3, 4, 8][..]);
    Ok(())
}
