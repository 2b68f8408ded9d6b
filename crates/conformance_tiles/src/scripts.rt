// Random scripts: lists of calls on random tiles, held against the reference tile. Each is played as a whole, where every answer,
// stage and state and the last plane are compared, and made call by call, where the plane is compared after each call. The
// reference goes up by going down from the picture by one stage less, so the way up is compared after each stage too, and not
// only by the picture coming back.
use crate::fault::{Fault, compare, compare_told};
use crate::generator::Generator;
use crate::reference::{Moment, Reference};
use crate::tally::Tally;
use crate::tile::Tile;
use crate::told::Told;
use breaks::labels::LabelMap;
use breaks::source::BreakSource;
use geometry::corners::Corners;
use geometry::frame::Frame;
use geometry::point::Point;
use samples::MeanStep;
use std::alloc::{AllocError, Global};
use std::ops::Range;
use tiles::{Call, State};

#[derive(Drop)]
struct Script {
    heap: Global,
    frame: Frame,
    // the label map's frame
    home: Frame,
    // the reference tile as it is opened; the tile under test is lent its plane
    opened: Reference,
    calls: Vec<Call<i32>>,
    // what the calls come to on the reference tile, up to the first that its state does not allow
    history: Vec<Moment>,
}

impl Generator {
    // The label map's frame: the tile's own or, in one of five, another of the same size.
    fn home(&mut self, frame: Frame) -> Result<Frame, Fault> {
        let c = frame.corners();
        let (right, down, deeper) = match self.below(15) {
            0 => (1, 0, 0),
            1 => (0, 1, 0),
            2 => (0, 0, 1),
            _ => (0, 0, 0),
        };
        Ok(Frame::new(
            c.x0.wrapping_add(right),
            c.y0.wrapping_add(down),
            c.x1.wrapping_add(right),
            c.y1.wrapping_add(down),
            c.levels.wrapping_add(deeper),
        )?)
    }

    // A coordinate in a range, or at most `margin` outside. Below 0 it wraps, which is outside too.
    fn coordinate(&mut self, inside: Range<u32>, margin: u32) -> u32 {
        let first = inside.start.wrapping_sub(margin);
        let end = inside.end.wrapping_add(margin);
        first.wrapping_add(self.below(end.wrapping_sub(first)))
    }

    // A finest point; one of four may stand just outside the frame.
    fn point(&mut self, c: Corners) -> Point {
        let margin = u32::from(self.below(4) == 0);
        Point {
            x: self.coordinate(c.x0..c.x1, margin),
            y: self.coordinate(c.y0..c.y1, margin),
        }
    }

    // A call that a tile's state allows.
    fn allowed(&mut self, tile: &Reference) -> Call<i32> {
        let p = self.point(tile.frame());
        let v = self.number();
        match (tile.state(), self.below(20)) {
            (State::Picture, 0..=8) => Call::Put(p, v),
            (State::Picture, 9..=13) => Call::Read(p),
            (State::Picture, _) => Call::Begin,
            (State::Bands, 0..=6) => Call::Down,
            (State::Bands, 7..=12) => Call::Up,
            (State::Bands, 13..=17) => Call::Read(p),
            (State::Bands, _) => Call::Finish,
        }
    }

    // A call that the tile's state allows. Two of three that it would refuse are drawn once more, so that scripts get far.
    fn call(&mut self, tile: &Reference) -> Call<i32> {
        let call = self.allowed(tile);
        if tile.refusal(call).is_some() && self.below(3) > 0 {
            return self.allowed(tile);
        }
        call
    }

    // A call that a tile's state does not allow.
    fn stop(&mut self, tile: &Reference) -> Call<i32> {
        let p = self.point(tile.frame());
        let v = self.number();
        match (tile.state(), self.below(6)) {
            (State::Picture, 0..=1) => Call::Down,
            (State::Picture, 2..=3) => Call::Up,
            (State::Picture, _) => Call::Finish,
            (State::Bands, 0..=2) => Call::Put(p, v),
            (State::Bands, _) => Call::Begin,
        }
    }

    // From 12 to 40 calls that the state of a tile then allows; in one list of ten one more stands in the middle that it does not.
    fn calls(&mut self, heap: Global, mut tile: Reference) -> Result<Vec<Call<i32>>, AllocError> {
        let count = self.below(29).wrapping_add(12);
        let stops = self.below(10) == 0;
        let mut calls = Vec::new(heap);
        // n is the number of the call; the tile that each call is drawn for is as the calls before left it
        for n in 0..count {
            if stops && n == count / 2 {
                calls.push(self.stop(&tile))?;
            }
            let call = self.call(&tile);
            tile.make(call)?;
            calls.push(call)?;
        }
        Ok(calls)
    }
}

// What calls come to on a reference tile, up to the first that its state does not allow.
fn history(
    heap: Global,
    mut tile: Reference,
    calls: &[Call<i32>],
) -> Result<Vec<Moment>, AllocError> {
    calls
        .iter()
        .map_while(|call| tile.make(*call).transpose())
        .try_collect(heap)
}

impl Script {
    fn draw(generator: &mut Generator, heap: Global) -> Result<Script, Fault> {
        let frame = generator.frame()?;
        let home = generator.home(frame)?;
        let labels = generator.labels(heap, frame.plane_length())?;
        let picture = generator.picture(heap, frame.plane_length())?;
        let state = if generator.below(3) == 0 {
            State::Bands
        } else {
            State::Picture
        };
        let opened = Reference::open(frame.corners(), home.corners(), labels, picture, state);
        let calls = generator.calls(heap, opened.clone()?)?;
        let history = history(heap, opened.clone()?, calls.as_slice())?;
        Ok(Script {
            heap,
            frame,
            home,
            opened,
            calls,
            history,
        })
    }

    fn source(&self) -> Result<LabelMap<'_>, Fault> {
        Ok(LabelMap::new(self.home, self.opened.labels())?)
    }

    // Plays the calls as a list: the events are those of the history, and so is the last plane.
    fn play(&self) -> Result<(), Fault> {
        let mut plane = self.opened.plane()?;
        let events = tiles::play(
            self.heap,
            self.frame,
            self.opened.state(),
            plane.as_mut_slice(),
            &MeanStep,
            &self.source()?,
            self.calls.as_slice(),
        )?;
        if events.len() != self.history.len() {
            return Err(Fault::Events(events.len(), self.history.len()));
        }
        for (n, (event, moment)) in events.iter().zip(&self.history).enumerate() {
            compare_told(n, Told::from(*event), moment.told)?;
        }
        match self.history.last() {
            Some(moment) => compare(plane.as_slice(), moment.plane.as_slice()),
            None => Ok(()),
        }
    }

    // Makes the calls one by one: each answer, stage, state and plane are those of the history.
    fn make_each(&self) -> Result<(), Fault> {
        let source = self.source()?;
        let mut plane = self.opened.plane()?;
        let mut tile = Tile::open(self.frame, self.opened.state(), plane.as_slice())?;
        for (n, (call, moment)) in self.calls.iter().zip(&self.history).enumerate() {
            let (next, answer) = tile.make(plane.as_mut_slice(), &source, *call)?;
            tile = next;
            compare_told(n, tile.told(answer), moment.told)?;
            compare(plane.as_slice(), moment.plane.as_slice())?;
        }
        Ok(())
    }

    // Counts the calls that were answered, and the script.
    fn count(&self, tally: &mut Tally) {
        for (call, moment) in self.calls.iter().zip(&self.history) {
            tally.count_call(*call, moment.told.answer);
        }
        tally.count_script(self.history.len() < self.calls.len());
    }
}

// So many random scripts.
pub fn run(heap: Global, scripts: u32, tally: &mut Tally) -> Result<(), Fault> {
    let mut generator = Generator::new(71);
    for _ in 0..scripts {
        let script = Script::draw(&mut generator, heap)?;
        script.play()?;
        script.make_each()?;
        script.count(tally);
    }
    Ok(())
}
