// A list of calls played on a newly opened tile.
ghost use Rattle.std.specs.Prelude.{◌≡◌};
ghost use Rattle.geometry.specs.Frames.{corners_of};
ghost use Rattle.geometry.specs.Refusals.{seen};
ghost use Rattle.lifting.specs.Meanings.{meant};
ghost use Rattle.tiles.specs.Law.{ServesLikeTheReference};
ghost use Rattle.tiles.specs.Plays.{PlayOf};
ghost use Rattle.tiles.specs.Tiles.{open_answer};
ghost use Rattle.tiles.specs.Views.{with_plane, event_told, told_of};
ghost use Rattle.tiles.specs.AnyTiles.{any_tile, Makes};

use crate::call::Call;
use crate::event::{Event, Reply};
use crate::state::State;
use crate::tile::{Bands, Picture};
use crate::unplayed::Unplayed;
use breaks::source::BreakSource;
use geometry::frame::Frame;
use geometry::refusal::Refusal;
use lifting::all_known;
use samples::sample::Sample;
use samples::step::Step;
use std::alloc::Global;

// A tile in whichever state.
#[derive(Drop)]
enum AnyTile {
    Picture(Picture),
    Bands(Bands),
}

impl AnyTile {
    fn open<K: Sample>(frame: Frame, state: State, plane: &[K]) -> Result<AnyTile, Refusal>
        ensures { seen (λ t. with_plane (any_tile t) plane.now) result ≡ open_answer (corners_of frame) state plane.now }
    {
        match state {
            State::Picture => Picture::open(frame, plane).map(AnyTile::Picture),
            State::Bands => Bands::open(frame, plane).map(AnyTile::Bands),
        }
    }

    // The tile after a call, and what the call answers. None where the tile's state does not allow the call; the plane is then as it was.
    fn make<S: Step, B: BreakSource>(
        self,
        plane: &mut [S::Sample],
        step: &S,
        source: &B,
        call: Call<S::Sample>,
    ) -> Option<(AnyTile, Result<Option<S::Sample>, Refusal>)>
        ensures { Makes (meant S.Sample.Sample.kind (S.Step.rule step.now)) (B.BreakSource.framed source.now) (B.BreakSource.broken source.now) (with_plane (any_tile self) plane.old) call plane.new result }
    {
        match (self, call) {
            (AnyTile::Picture(p), Call::Put(at, v)) => {
                let answer = p.put(plane, at, v.known()).map(|()| None);
                Some((AnyTile::Picture(p), answer))
            }
            (AnyTile::Picture(p), Call::Read(at)) => {
                let answer = p.read(plane, at).map(Some);
                Some((AnyTile::Picture(p), answer))
            }
            (AnyTile::Picture(p), Call::Begin) => Some((AnyTile::Bands(p.begin()), Ok(None))),
            (AnyTile::Bands(b), Call::Read(at)) => {
                let answer = b.read(plane, at).map(Some);
                Some((AnyTile::Bands(b), answer))
            }
            (AnyTile::Bands(mut b), Call::Down) => {
                let answer = b.down(plane, step, source).map(|()| None);
                Some((AnyTile::Bands(b), answer))
            }
            (AnyTile::Bands(mut b), Call::Up) => {
                let answer = b.up(plane, step, source).map(|()| None);
                Some((AnyTile::Bands(b), answer))
            }
            (AnyTile::Bands(b), Call::Finish) => match b.finish() {
                Ok(p) => Some((AnyTile::Picture(p), Ok(None))),
                Err(e) => Some((AnyTile::Bands(e.given), Err(e.why))),
            },
            _ => None,
        }
    }

    // What is told of a call that left the tile so: its reply, and the tile's stage and state.
    fn event<K>(&self, answer: Result<Option<K>, Refusal>) -> Event<K>
        ensures { event_told result ≡ told_of (any_tile self.now) (seen (λ o. o) answer) }
    {
        let reply = Reply::from(answer);
        match self {
            AnyTile::Picture(p) => Event {
                reply,
                stage: p.stage(),
                state: State::Picture,
            },
            AnyTile::Bands(b) => Event {
                reply,
                stage: b.stage(),
                state: State::Bands,
            },
        }
    }
}

// Opens a tile in a state over a plane and makes the calls in turn, up to the first that the tile's state does not allow.
// The answer has an event for each call that was made. Refused with 4 for a plane of the wrong length; no call is made then,
// nor where there is no memory for the events.
pub fn play<S: Step, B: BreakSource>(
    heap: Global,
    frame: Frame,
    state: State,
    plane: &mut [S::Sample],
    step: &S,
    source: &B,
    calls: &[Call<S::Sample>],
) -> Result<Vec<Event<S::Sample>>, Unplayed>
    ensures played { PlayOf (meant S.Sample.Sample.kind (S.Step.rule step.now)) (corners_of frame) (B.BreakSource.framed source.now) (B.BreakSource.broken source.now) state plane.old calls.now result plane.new }
    ensures law { ServesLikeTheReference (meant S.Sample.Sample.kind (S.Step.rule step.now)) (corners_of frame) (B.BreakSource.framed source.now) (B.BreakSource.broken source.now) }
{
    all_known(plane);
    let mut tile = AnyTile::open(frame, state, plane)?;
    let mut events = Vec::with_capacity(heap, calls.len())?;
    for call in calls {
        let Some((next, answer)) = tile.make(plane, step, source, *call) else {
            return Ok(events);
        };
        tile = next;
        // There is room: it was reserved.
        events.push(tile.event(answer)).unwrap();
    }
    Ok(events)
}
