// The work on a tile, on examples.
use crate::range::Range;
use crate::work::{count_lost, frame_at, numbers, range_of, there_and_back};
use breaks::labels::LabelMap;
use geometry::frame::Frame;
use geometry::point::Point;
use netpbm::{Window, window_at};
use std::test::Fail;

#[test]
fn two_tiles(rt: HostRuntime) -> Result<(), Fail> {
    let last = Window {
        x: 512,
        y: 0,
        width: 1,
        height: 1,
    };
    assert_eq!(rt; window_at(513, 1, 512, 1, 0), Some(last));
    assert_eq!(rt; window_at(513, 1, 512, 2, 0), None);
    let c = frame_at(Point { x: 3, y: 5 }, 2, last)?.corners();
    assert_eq!(rt; c.x0, 515);
    assert_eq!(rt; c.x1, 516);
    assert_eq!(rt; c.y1, 6);
    Ok(())
}

#[test]
fn ranges(rt: HostRuntime) -> Result<(), Fail> {
    assert_eq!(rt;
        range_of(&[-3, 7, -40, 0]),
        Range {
            least: -40,
            greatest: 7
        }
    );
    assert_eq!(rt;
        range_of(&[5]),
        Range {
            least: 5,
            greatest: 5
        }
    );
    assert_eq!(rt;
        range_of(&[]),
        Range {
            least: 0,
            greatest: 0
        }
    );
    Ok(())
}

#[test]
fn comes_back(rt: HostRuntime) -> Result<(), Fail> {
    let samples = [9u16, 9, 9, 700, 710, 9, 8, 650, 720, 65535];
    let labels = [1u16, 1, 1, 2, 2, 1, 1, 2, 2, 2];
    let frame = Frame::new(1, 1, 6, 3, 3)?;
    let source = LabelMap::new(frame, &labels)?;
    let mut plane = numbers(rt.alloc(), &samples)?;
    let trip = there_and_back(rt.alloc(), &frame, &source, plane.as_mut_slice())?;
    assert_eq!(rt; trip.stage, 3);
    assert_eq!(rt; trip.ranges.len(), 4);
    assert_eq!(rt; trip.ranges[0].greatest, 65535);
    assert!(rt; trip.ranges[3].least < 0 && trip.ranges[3].greatest > 700);
    assert_eq!(rt; count_lost(plane.as_slice(), &samples), 0);
    Ok(())
}
