// What both test programs test is the same text in both: tests stand in the crate that they are run in.
use crate::fault::{Fault, compare, compare_told};
use crate::stages::Stages;
use crate::tile::Tile;
use crate::told::Answer;
use crate::vector::run_vector;
use crate::worked::Worked;
use breaks::labels::LabelMap;
use geometry::frame::Frame;
use geometry::point::Point;
use geometry::refusal::Refusal;
use samples::{CarryStep, Flow, FlowMeanStep, MeanStep};
use std::alloc::Global;
use std::process::Abort;
use std::test::Fail;
use tiles::{Bands, Call, State, Unplayed};

// The frame with the numbers x0, y0, x1, y1 and levels.
fn framed(numbers: [u32; 5]) -> Result<Frame, Refusal> {
    let [x0, y0, x1, y1, levels] = numbers;
    Frame::new(x0, y0, x1, y1, levels)
}

// The number of a refusal, if it is one.
fn number_of<T: Drop>(answer: Result<T, Refusal>) -> Option<u32> {
    answer.err().map(|why| why.number())
}

#[test]
fn numbers_by_the_mean_step(rt: HostRuntime) -> Result<(), Fail> {
    let plates = [
        Worked {
            frame: framed([0, 0, 5, 1, 1])?,
            labels: &[1, 1, 2, 2, 2],
            picture: &[10, 12, 40, 46, 44],
            bands: &[11, 2, 42, 4, 46],
        },
        Worked {
            frame: framed([0, 0, 5, 1, 1])?,
            labels: &[1, 1, 1, 1, 1],
            picture: &[10, 12, 40, 46, 44],
            bands: &[4, -13, 38, 4, 46],
        },
        Worked {
            frame: framed([0, 0, 2, 2, 1])?,
            labels: &[1, 1, 1, 1],
            picture: &[0, 1, 0, 0],
            bands: &[1, 1, 0, -1],
        },
        Worked {
            frame: framed([1, 0, 2, 1, 1])?,
            labels: &[1],
            picture: &[9],
            bands: &[9],
        },
        Worked {
            frame: framed([0, 0, 2, 1, 1])?,
            labels: &[1, 1],
            picture: &[i32::MIN, i32::MAX],
            bands: &[i32::MIN, -1],
        },
    ];
    for plate in plates {
        plate.by_mean(rt.alloc())?;
    }
    Ok(())
}

#[test]
fn identifiers_by_the_carry_step(rt: HostRuntime) -> Result<(), Fail> {
    let frame = framed([0, 0, 5, 1, 1])?;
    let labels = [1u16; 5];
    let source = LabelMap::new(frame, &labels)?;
    let stages = Stages {
        frame: &frame,
        step: &CarryStep::<u32>::new(),
        source: &source,
    };
    let mut plane = [7u32, 7, 9, 9, 9];
    stages.down(&mut plane)?;
    assert_eq!(rt; plane, [7, 0, 9, 0, 9]);
    stages.up(&mut plane)?;
    assert_eq!(rt; plane, [7, 7, 9, 9, 9]);
    Ok(())
}

// Flows whose parts are the given numbers.
fn flows_of(dx: &[i32; 12], dy: &[i32; 12]) -> [Flow; 12] {
    std::array::from_fn(|k| Flow {
        dx: dx[k],
        dy: dy[k],
    })
}

#[test]
fn flows_part_by_part(rt: HostRuntime) -> Result<(), Fail> {
    let frame = framed([3, 5, 7, 8, 2])?;
    let labels = [1u16, 1, 1, 2, 1, 1, 2, 2, 1, 1, 1, 1];
    let source = LabelMap::new(frame, &labels)?;
    let mut dx = [i32::MIN, 4, -9, 12, 77, -3, 0, 1, 5, i32::MAX, -100, 31];
    let mut dy = [6, -7, 120, 55, -8, -8, 19, 2, -64, 1, 90, -13];
    let picture = flows_of(&dx, &dy);
    let by_flow = Stages {
        frame: &frame,
        step: &FlowMeanStep,
        source: &source,
    };
    let by_part = Stages {
        frame: &frame,
        step: &MeanStep,
        source: &source,
    };
    let mut plane = picture;
    by_flow.down(&mut plane)?;
    by_part.down(&mut dx)?;
    by_part.down(&mut dy)?;
    assert_eq!(rt; plane, flows_of(&dx, &dy));
    by_flow.up(&mut plane)?;
    assert_eq!(rt; plane, picture);
    Ok(())
}

#[test]
fn frames_and_maps_are_refused(rt: HostRuntime) -> Result<(), Fail> {
    assert_eq!(rt; number_of(framed([0, 0, 513, 1, 0])), Some(2));
    assert_eq!(rt; number_of(framed([5, 0, 5, 600, 9])), Some(1));
    assert_eq!(rt; number_of(framed([0, 0, 600, 0, 9])), Some(1));
    assert_eq!(rt; number_of(framed([0, 0, 513, 1, 7])), Some(2));
    assert_eq!(rt; number_of(framed([0, 0, 1, 1, 7])), Some(3));
    assert_eq!(rt;
        number_of(framed([1073741824, 0, 1073741825, 1, 0])),
        Some(2)
    );
    assert_eq!(rt;
        number_of(framed([1073741823, 1073741823, 1073741824, 1073741824, 6])),
        None
    );
    assert_eq!(rt; number_of(framed([1, 1, 513, 513, 6])), None);
    let frame = framed([7, 9, 14, 14, 1])?;
    assert_eq!(rt; number_of(LabelMap::new(frame, &[1u16; 34])), Some(4));
    assert_eq!(rt; number_of(LabelMap::new(frame, &[1u16; 36])), Some(4));
    assert_eq!(rt; number_of(LabelMap::new(frame, &[1u16; 35])), None);
    Ok(())
}

#[test]
fn resolutions_and_places_of_odd_frames(rt: HostRuntime) -> Result<(), Fail> {
    let frame = framed([7, 9, 14, 14, 1])?;
    assert_eq!(rt; frame.place(Point { x: 9, y: 10 })?, 9);
    assert_eq!(rt; frame.resolution(1), ((7, 14), (9, 14)));
    assert_eq!(rt; frame.resolution(0), ((4, 7), (5, 7)));
    assert_eq!(rt; frame.resolution(2), ((0, 0), (0, 0)));
    assert_eq!(rt; framed([1, 0, 2, 1, 1])?.resolution(0), ((1, 1), (0, 1)));
    assert_eq!(rt; framed([4, 7, 13, 12, 2])?.resolution(1), ((2, 7), (4, 6)));
    assert_eq!(rt; framed([4, 7, 13, 12, 2])?.resolution(0), ((1, 4), (2, 3)));
    Ok(())
}

// The frame of the tiles below: 3 x 2 points, 2 levels.
const TILE: [u32; 5] = [2, 4, 5, 6, 2];

// Other frames with as many points.
const ASIDE: [u32; 5] = [3, 4, 6, 6, 2];

const DEEPER: [u32; 5] = [2, 4, 5, 6, 3];

// A plane of that frame, and planes with a sample less and a sample more.
const RIGHT: [i32; 6] = [5, 8, 2, 9, -4, 7];

const SHORT: [i32; 5] = [5, 8, 2, 9, -4];

const LONG: [i32; 7] = [5, 8, 2, 9, -4, 7, 1];

// Bands of the frame TILE at a stage.
fn bands_at(rt: &impl Abort, stage: u32) -> Result<Tile, Fail> {
    let frame = framed(TILE)?;
    let source = LabelMap::new(frame, &[1u16; 6])?;
    let mut plane = RIGHT;
    let mut bands = Bands::open(frame, &plane)?;
    for _ in 0..stage {
        bands.up(&mut plane, &MeanStep, &source)?;
    }
    assert_eq!(rt; bands.stage(), stage);
    Ok(Tile::Bands(bands))
}

// A call over a plane, with a source that has the frame `home`, and the number with which it must be refused.
#[derive(Clone, Copy)]
struct Refused<'a> {
    call: Call<i32>,
    home: [u32; 5],
    plane: &'a [i32],
    number: u32,
}

impl Refused<'_> {
    // The tile must refuse the call. The plane, stage and state stay as they were.
    fn by(&self, heap: Global, tile: Tile) -> Result<(), Fail> {
        let source = LabelMap::new(framed(self.home)?, &[1u16; 6])?;
        let wanted = tile.told(Answer::Refused(self.number));
        let mut left = self.plane.to_vec(heap)?;
        let (tile, answer) = tile.make(left.as_mut_slice(), &source, self.call)?;
        compare_told(0, tile.told(answer), wanted)?;
        compare(left.as_slice(), self.plane)?;
        Ok(())
    }
}

// Put to a picture and read of a picture and of bands must be refused with the number.
fn point_refused(
    rt: &(impl Abort + AllocGlobal),
    at: Point,
    plane: &[i32],
    number: u32,
) -> Result<(), Fail> {
    let refused = |call| Refused {
        call,
        home: TILE,
        plane,
        number,
    };
    for call in [Call::Put(at, 1), Call::Read(at)] {
        let picture = Tile::open(framed(TILE)?, State::Picture, &RIGHT)?;
        refused(call).by(rt.alloc(), picture)?;
    }
    refused(Call::Read(at)).by(rt.alloc(), bands_at(rt, 1)?)
}

#[test]
fn points_are_refused_on_each_side(rt: HostRuntime) -> Result<(), Fail> {
    for (x, y) in [(1, 4), (5, 4), (2, 3), (2, 6)] {
        point_refused(&rt, Point { x, y }, &RIGHT, 9)?;
        point_refused(&rt, Point { x, y }, &SHORT, 4)?;
        point_refused(&rt, Point { x, y }, &LONG, 4)?;
    }
    Ok(())
}

// A list of calls must be refused with 4, and none of them made.
fn list_refused(
    rt: &(impl Abort + AllocGlobal),
    state: State,
    call: Call<i32>,
    plane: &[i32],
) -> Result<(), Fail> {
    let frame = framed(TILE)?;
    let source = LabelMap::new(frame, &[1u16; 6])?;
    let mut left = plane.to_vec(rt.alloc())?;
    let answer = tiles::play(
        rt.alloc(),
        frame,
        state,
        left.as_mut_slice(),
        &MeanStep,
        &source,
        &[call],
    );
    let Err(Unplayed::Refused(why)) = answer else {
        return Err(Fail::new("not refused"));
    };
    assert_eq!(rt; why.number(), 4);
    compare(left.as_slice(), plane)?;
    Ok(())
}

// Opening, and down and up at every stage with another frame's source, must be refused with 4.
fn length_refused(rt: &(impl Abort + AllocGlobal), plane: &[i32]) -> Result<(), Fail> {
    let frame = framed(TILE)?;
    assert_eq!(rt;
        number_of(Tile::open(frame, State::Picture, plane)),
        Some(4)
    );
    assert_eq!(rt; number_of(Tile::open(frame, State::Bands, plane)), Some(4));
    let put = Call::Put(Point { x: 2, y: 4 }, 1);
    list_refused(rt, State::Picture, put, plane)?;
    list_refused(rt, State::Bands, Call::Up, plane)?;
    for stage in 0..=2 {
        for call in [Call::Down, Call::Up] {
            let refused = Refused {
                call,
                home: ASIDE,
                plane,
                number: 4,
            };
            refused.by(rt.alloc(), bands_at(rt, stage)?)?;
        }
    }
    Ok(())
}

#[test]
fn stages_are_refused_in_order(rt: HostRuntime) -> Result<(), Fail> {
    length_refused(&rt, &SHORT)?;
    length_refused(&rt, &LONG)?;
    let rows = [
        (0, Call::Down, TILE, 10),
        (0, Call::Down, ASIDE, 10),
        (2, Call::Up, TILE, 10),
        (2, Call::Up, DEEPER, 10),
        (0, Call::Finish, TILE, 10),
        (1, Call::Finish, TILE, 10),
        (2, Call::Down, ASIDE, 11),
        (1, Call::Down, DEEPER, 11),
        (1, Call::Up, ASIDE, 11),
        (0, Call::Up, DEEPER, 11),
    ];
    for (stage, call, home, number) in rows {
        let refused = Refused {
            call,
            home,
            plane: &RIGHT,
            number,
        };
        refused.by(rt.alloc(), bands_at(&rt, stage)?)?;
    }
    Ok(())
}

// A stage that no tile comes to: above the highest one down, and 0 up.
#[test]
fn no_such_stage(rt: HostRuntime) -> Result<(), Fail> {
    let frame = framed(TILE)?;
    let source = LabelMap::new(frame, &[1u16; 6])?;
    let mut plane = RIGHT;
    assert_eq!(rt;
        number_of(lifting::down(&frame, 3, &MeanStep, &source, &mut plane)),
        Some(10)
    );
    assert_eq!(rt;
        number_of(lifting::up(&frame, 0, &MeanStep, &source, &mut plane)),
        Some(10)
    );
    assert_eq!(rt; plane, RIGHT);
    Ok(())
}

#[test]
fn a_vector_is_five_numbers_and_two_planes(rt: HostRuntime) -> Result<(), Fail> {
    let heap = rt.alloc();
    run_vector(heap, "7 9 8 10 0 : 5 -> 5")?;
    let unreadable = [
        "7 9 8 10 : 5 -> 5",
        "7 9 8 10 0 0 : 5 -> 5",
        "7 9 8 ten 0 : 5 -> 5",
        "7 9 8 10 0 : five -> 5",
        "7 9 8 10 0 : 5",
    ];
    for line in unreadable {
        assert!(rt; matches!(run_vector(heap, line), Err(Fault::Unreadable)));
    }
    Ok(())
}
