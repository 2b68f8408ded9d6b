// What both test programs test is the same text in both: tests stand in the crate that they are run in.
use crate::fault::{Fault, compare};
use crate::stages::Stages;
use crate::vector::run_vector;
use crate::worked::Worked;
use breaks::labels::LabelMap;
use geometry::frame::Frame;
use geometry::point::Point;
use geometry::refusal::Refusal;
use samples::{CarryStep, Flow, FlowMeanStep, MeanStep};
use std::test::Fail;

// The frame with the numbers x0, y0, x1, y1 and levels.
fn framed(numbers: [u32; 5]) -> Result<Frame, Refusal> {
    let [x0, y0, x1, y1, levels] = numbers;
    Frame::new(x0, y0, x1, y1, levels)
}

// The number of a refusal, if it is one.
fn number_of<T: Drop>(answer: Result<T, Refusal>) -> Option<u32> {
    answer.err().map(|why| why.number())
}

#[test]
fn numbers_by_the_mean_step(rt: HostRuntime) -> Result<(), Fail> {
    let plates = [
        Worked {
            frame: framed([0, 0, 5, 1, 1])?,
            labels: &[1, 1, 2, 2, 2],
            picture: &[10, 12, 40, 46, 44],
            bands: &[11, 2, 42, 4, 46],
        },
        Worked {
            frame: framed([0, 0, 5, 1, 1])?,
            labels: &[1, 1, 1, 1, 1],
            picture: &[10, 12, 40, 46, 44],
            bands: &[4, -13, 38, 4, 46],
        },
        Worked {
            frame: framed([0, 0, 2, 2, 1])?,
            labels: &[1, 1, 1, 1],
            picture: &[0, 1, 0, 0],
            bands: &[1, 1, 0, -1],
        },
        Worked {
            frame: framed([1, 0, 2, 1, 1])?,
            labels: &[1],
            picture: &[9],
            bands: &[9],
        },
        Worked {
            frame: framed([0, 0, 2, 1, 1])?,
            labels: &[1, 1],
            picture: &[i32::MIN, i32::MAX],
            bands: &[i32::MIN, -1],
        },
    ];
    for plate in plates {
        plate.by_mean(rt.alloc())?;
    }
    Ok(())
}

#[test]
fn identifiers_by_the_carry_step(rt: HostRuntime) -> Result<(), Fail> {
    let frame = framed([0, 0, 5, 1, 1])?;
    let labels = [1u16; 5];
    let source = LabelMap::new(frame, &labels)?;
    let stages = Stages {
        frame: &frame,
        step: &CarryStep::<u32>::new(),
        source: &source,
    };
    let mut plane = [7u32, 7, 9, 9, 9];
    stages.down(&mut plane)?;
    assert_eq!(rt; plane, [7, 0, 9, 0, 9]);
    stages.up(&mut plane)?;
    assert_eq!(rt; plane, [7, 7, 9, 9, 9]);
    Ok(())
}

// Flows whose parts are the given numbers.
fn flows_of(dx: &[i32; 12], dy: &[i32; 12]) -> [Flow; 12] {
    std::array::from_fn(|k| Flow {
        dx: dx[k],
        dy: dy[k],
    })
}

#[test]
fn flows_part_by_part(rt: HostRuntime) -> Result<(), Fail> {
    let frame = framed([3, 5, 7, 8, 2])?;
    let labels = [1u16, 1, 1, 2, 1, 1, 2, 2, 1, 1, 1, 1];
    let source = LabelMap::new(frame, &labels)?;
    let mut dx = [i32::MIN, 4, -9, 12, 77, -3, 0, 1, 5, i32::MAX, -100, 31];
    let mut dy = [6, -7, 120, 55, -8, -8, 19, 2, -64, 1, 90, -13];
    let picture = flows_of(&dx, &dy);
    let by_flow = Stages {
        frame: &frame,
        step: &FlowMeanStep,
        source: &source,
    };
    let by_part = Stages {
        frame: &frame,
        step: &MeanStep,
        source: &source,
    };
    let mut plane = picture;
    by_flow.down(&mut plane)?;
    by_part.down(&mut dx)?;
    by_part.down(&mut dy)?;
    assert_eq!(rt; plane, flows_of(&dx, &dy));
    by_flow.up(&mut plane)?;
    assert_eq!(rt; plane, picture);
    Ok(())
}

#[test]
fn frames_are_refused_in_order(rt: HostRuntime) {
    assert_eq!(rt; number_of(framed([0, 0, 513, 1, 0])), Some(2));
    assert_eq!(rt; number_of(framed([5, 0, 5, 600, 9])), Some(1));
    assert_eq!(rt; number_of(framed([0, 0, 600, 0, 9])), Some(1));
    assert_eq!(rt; number_of(framed([0, 0, 513, 1, 7])), Some(2));
    assert_eq!(rt; number_of(framed([0, 0, 1, 1, 7])), Some(3));
    assert_eq!(rt;
        number_of(framed([1073741824, 0, 1073741825, 1, 0])),
        Some(2)
    );
    assert_eq!(rt;
        number_of(framed([1073741823, 1073741823, 1073741824, 1073741824, 6])),
        None
    );
    assert_eq!(rt; number_of(framed([1, 1, 513, 513, 6])), None);
}

#[test]
fn places_and_maps_are_refused(rt: HostRuntime) -> Result<(), Fail> {
    let frame = framed([7, 9, 14, 14, 1])?;
    assert_eq!(rt; number_of(frame.place(Point { x: 14, y: 9 })), Some(9));
    assert_eq!(rt; number_of(frame.place(Point { x: 6, y: 9 })), Some(9));
    assert_eq!(rt; number_of(frame.place(Point { x: 7, y: 14 })), Some(9));
    assert_eq!(rt; number_of(frame.place(Point { x: 7, y: 8 })), Some(9));
    assert_eq!(rt; frame.place(Point { x: 9, y: 10 })?, 9);
    assert_eq!(rt; number_of(LabelMap::new(frame, &[1u16; 34])), Some(4));
    assert_eq!(rt; number_of(LabelMap::new(frame, &[1u16; 36])), Some(4));
    assert_eq!(rt; number_of(LabelMap::new(frame, &[1u16; 35])), None);
    Ok(())
}

#[test]
fn resolutions_of_odd_frames(rt: HostRuntime) -> Result<(), Fail> {
    let frame = framed([7, 9, 14, 14, 1])?;
    assert_eq!(rt; frame.resolution(1), ((7, 14), (9, 14)));
    assert_eq!(rt; frame.resolution(0), ((4, 7), (5, 7)));
    assert_eq!(rt; frame.resolution(2), ((0, 0), (0, 0)));
    assert_eq!(rt; framed([1, 0, 2, 1, 1])?.resolution(0), ((1, 1), (0, 1)));
    assert_eq!(rt; framed([4, 7, 13, 12, 2])?.resolution(1), ((2, 7), (4, 6)));
    assert_eq!(rt; framed([4, 7, 13, 12, 2])?.resolution(0), ((1, 4), (2, 3)));
    Ok(())
}

// Stages down and up over planes must be refused with a number, and leave the plane as it was.
#[test]
fn stages_are_refused_in_order(rt: HostRuntime) -> Result<(), Fail> {
    let frame = framed([0, 0, 3, 1, 2])?;
    let labels = [1u16; 3];
    let own = LabelMap::new(frame, &labels)?;
    let other = LabelMap::new(framed([1, 0, 4, 1, 2])?, &labels)?;
    let shallower = LabelMap::new(framed([0, 0, 3, 1, 1])?, &labels)?;
    let rows: [(u32, &LabelMap<'_>, &[i32], u32); 6] = [
        (0, &other, &[5, 8, 2, 9], 4),
        (2, &own, &[5, 8], 4),
        (0, &other, &[5, 8, 2], 10),
        (3, &own, &[5, 8, 2], 10),
        (2, &other, &[5, 8, 2], 11),
        (1, &shallower, &[5, 8, 2], 11),
    ];
    for (stage, source, plane, number) in rows {
        let mut left = plane.to_vec(rt.alloc())?;
        assert_eq!(rt;
            number_of(lifting::down(&frame, stage, &MeanStep, source, left.as_mut_slice())),
            Some(number)
        );
        assert_eq!(rt;
            number_of(lifting::up(&frame, stage, &MeanStep, source, left.as_mut_slice())),
            Some(number)
        );
        compare(left.as_slice(), plane)?;
    }
    Ok(())
}

#[test]
fn a_vector_is_five_numbers_and_two_planes(rt: HostRuntime) -> Result<(), Fail> {
    let heap = rt.alloc();
    run_vector(heap, "7 9 8 10 0 : 5 -> 5")?;
    let unreadable = [
        "7 9 8 10 : 5 -> 5",
        "7 9 8 10 0 0 : 5 -> 5",
        "7 9 8 ten 0 : 5 -> 5",
        "7 9 8 10 0 : five -> 5",
        "7 9 8 10 0 : 5",
    ];
    for line in unreadable {
        assert!(rt; matches!(run_vector(heap, line), Err(Fault::Unreadable)));
    }
    Ok(())
}
