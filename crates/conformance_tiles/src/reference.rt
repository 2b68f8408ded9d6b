// A tile as its definition has it: a picture, a stage and a state. It has no plane: its plane is the picture's transform to its
// stage, computed anew from the picture by the plain implementation of a stage down. Going up is therefore one stage less down.
use crate::plain::Plain;
use crate::told::{Answer, Told};
use geometry::corners::Corners;
use geometry::point::Point;
use std::alloc::AllocError;
use tiles::{Call, State};

#[derive(Clone, Drop)]
pub struct Reference {
    frame: Corners,
    // the frame of the source and its labels. The stages are worked only where the two frames are the same
    home: Corners,
    labels: Vec<u16>,
    picture: Vec<i32>,
    stage: u32,
    state: State,
}

// What a call comes to: what is told of it, and the plane after it.
#[derive(Drop)]
pub struct Moment {
    pub told: Told,
    pub plane: Vec<i32>,
}

impl Reference {
    // Opened in a state: as a picture at the highest stage, as bands at stage 0.
    pub fn open(
        frame: Corners,
        home: Corners,
        labels: Vec<u16>,
        picture: Vec<i32>,
        state: State,
    ) -> Reference {
        let stage = match state {
            State::Picture => frame.levels,
            State::Bands => 0,
        };
        Reference {
            frame,
            home,
            labels,
            picture,
            stage,
            state,
        }
    }

    pub fn frame(&self) -> Corners {
        self.frame
    }

    pub fn state(&self) -> State {
        self.state
    }

    pub fn labels(&self) -> &[u16] {
        self.labels.as_slice()
    }

    fn plain(&self) -> Plain<'_> {
        Plain::new(*self.labels.allocator(), self.frame, self.labels.as_slice())
    }

    // The stages from the highest to the one above its own, down.
    pub fn plane(&self) -> Result<Vec<i32>, AllocError> {
        let plain = self.plain();
        let mut plane = self.picture.clone()?;
        let stages = (1..=self.frame.levels).rev();
        for stage in stages.take_while(|stage| *stage > self.stage) {
            plain.stage_down(stage, plane.as_mut_slice())?;
        }
        Ok(plane)
    }

    // Whether its state allows a call.
    pub fn allows(&self, call: Call<i32>) -> bool {
        match call {
            Call::Read(_) => true,
            Call::Put(_, _) | Call::Begin => self.state == State::Picture,
            Call::Down | Call::Up | Call::Finish => self.state == State::Bands,
        }
    }

    fn is_outside(&self, p: Point) -> bool {
        let Corners { x0, y0, x1, y1, .. } = self.frame;
        !(x0..x1).contains(&p.x) || !(y0..y1).contains(&p.y)
    }

    // Whether the source has another frame. By the numbers, and not by the equality of corners, which the crates use.
    fn is_elsewhere(&self) -> bool {
        let (a, b) = (self.frame, self.home);
        (a.x0, a.y0, a.x1, a.y1, a.levels) != (b.x0, b.y0, b.x1, b.y1, b.levels)
    }

    // The number of a call's refusal, if it has one: the first of 9, 10 and 11 that applies. They are the rules' own numbers, and not
    // the crates' refusals, so that the numbers are compared too.
    pub fn refusal(&self, call: Call<i32>) -> Option<u32> {
        let at_top = self.stage == self.frame.levels;
        let elsewhere = self.is_elsewhere().then_some(11);
        match call {
            Call::Put(p, _) | Call::Read(p) => self.is_outside(p).then_some(9),
            Call::Begin => None,
            Call::Down => (self.stage == 0).then_some(10).or(elsewhere),
            Call::Up => at_top.then_some(10).or(elsewhere),
            Call::Finish => (!at_top).then_some(10),
        }
    }

    fn put(&mut self, p: Point, v: i32) {
        let place = self.plain().place(p.x, p.y);
        if let Some(sample) = self.picture.get_mut(place) {
            *sample = v;
        }
    }

    // The sample of a point of the frame.
    fn read(&self, p: Point) -> Result<i32, AllocError> {
        let place = self.plain().place(p.x, p.y);
        Ok(self.plane()?.get(place).copied().unwrap_or(0))
    }

    // What it answers to a call that its state allows. Refused, it stays as it was.
    fn answer(&mut self, call: Call<i32>) -> Result<Answer, AllocError> {
        if let Some(number) = self.refusal(call) {
            return Ok(Answer::Refused(number));
        }
        match call {
            Call::Put(p, v) => self.put(p, v),
            Call::Read(p) => return Ok(Answer::Sample(self.read(p)?)),
            Call::Begin => self.state = State::Bands,
            Call::Down => self.stage = self.stage.wrapping_sub(1),
            Call::Up => self.stage = self.stage.wrapping_add(1),
            Call::Finish => self.state = State::Picture,
        }
        Ok(Answer::Accepted)
    }

    // Makes a call; nothing, if its state does not allow it.
    pub fn make(&mut self, call: Call<i32>) -> Result<Option<Moment>, AllocError> {
        if !self.allows(call) {
            return Ok(None);
        }
        let told = Told {
            answer: self.answer(call)?,
            stage: self.stage,
            state: self.state,
        };
        Ok(Some(Moment {
            told,
            plane: self.plane()?,
        }))
    }
}
