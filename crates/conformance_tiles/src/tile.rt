// A tile of the crate under test in whichever state, its calls made directly.
use crate::fault::Fault;
use crate::told::{Answer, Told};
use breaks::labels::LabelMap;
use geometry::frame::Frame;
use geometry::refusal::Refusal;
use samples::MeanStep;
use tiles::{Bands, Call, Picture, Reply, State};

#[derive(Drop)]
pub enum Tile {
    Picture(Picture),
    Bands(Bands),
}

fn on_picture(
    picture: Picture,
    plane: &mut [i32],
    call: Call<i32>,
) -> Result<(Tile, Answer), Fault> {
    let answer: Result<Option<i32>, Refusal> = match call {
        Call::Put(at, v) => picture.put(plane, at, v).map(|()| None),
        Call::Read(at) => picture.read(plane, at).map(Some),
        Call::Begin => return Ok((Tile::Bands(picture.begin()), Answer::Accepted)),
        _ => return Err(Fault::NotAllowed),
    };
    Ok((Tile::Picture(picture), Answer::from(Reply::from(answer))))
}

fn finished(bands: Bands) -> (Tile, Answer) {
    match bands.finish() {
        Ok(picture) => (Tile::Picture(picture), Answer::Accepted),
        Err(e) => (Tile::Bands(e.given), Answer::Refused(e.why.number())),
    }
}

fn on_bands(
    mut bands: Bands,
    plane: &mut [i32],
    source: &LabelMap<'_>,
    call: Call<i32>,
) -> Result<(Tile, Answer), Fault> {
    let answer: Result<Option<i32>, Refusal> = match call {
        Call::Read(at) => bands.read(plane, at).map(Some),
        Call::Down => bands.down(plane, &MeanStep, source).map(|()| None),
        Call::Up => bands.up(plane, &MeanStep, source).map(|()| None),
        Call::Finish => return Ok(finished(bands)),
        _ => return Err(Fault::NotAllowed),
    };
    Ok((Tile::Bands(bands), Answer::from(Reply::from(answer))))
}

impl Tile {
    pub fn open(frame: Frame, state: State, plane: &[i32]) -> Result<Tile, Refusal> {
        match state {
            State::Picture => Picture::open(frame, plane).map(Tile::Picture),
            State::Bands => Bands::open(frame, plane).map(Tile::Bands),
        }
    }

    // What is told where the tile has given this answer.
    pub fn told(&self, answer: Answer) -> Told {
        let (stage, state) = match self {
            Tile::Picture(picture) => (picture.stage(), State::Picture),
            Tile::Bands(bands) => (bands.stage(), State::Bands),
        };
        Told {
            answer,
            stage,
            state,
        }
    }

    // Makes a call. It must be one that the tile's state has.
    pub fn make(
        self,
        plane: &mut [i32],
        source: &LabelMap<'_>,
        call: Call<i32>,
    ) -> Result<(Tile, Answer), Fault> {
        match self {
            Tile::Picture(picture) => on_picture(picture, plane, call),
            Tile::Bands(bands) => on_bands(bands, plane, source, call),
        }
    }
}
