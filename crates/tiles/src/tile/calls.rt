// The calls of a tile. A refused call changes no buffer, and the tile is as it was.
ghost use Rattle.std.specs.Prelude.{◌≡◌, ◌<◌, length, IfOk};
ghost use Rattle.geometry.specs.Frames.{corners_of};
ghost use Rattle.geometry.specs.Places.{place as the_place};
ghost use Rattle.geometry.specs.Refusals.{seen, accepted};
ghost use Rattle.lifting.specs.Meanings.{meant};
ghost use Rattle.tiles.specs.Tiles.{open_answer, length_answer, point_answer, sample_answer, Puts, Reads, Begins, Descends, Ascends, Finishes};
ghost use Rattle.tiles.specs.Views.{picture_tile, bands_tile, with_plane, finish_answer, finish_tile};
ghost use Rattle.tiles.specs.declared.state.State.TheVariants.{Picture as as_picture, Bands as as_bands};

use super::{Bands, Picture};
use crate::returned::Returned;
use breaks::source::BreakSource;
use geometry::frame::Frame;
use geometry::point::Point;
use geometry::refusal::Refusal;
use samples::sample::Sample;
use samples::step::Step;

// Whether a plane of this length is one of the frame: 4 where it is not.
fn admit(frame: &Frame, length: usize) -> Result<(), Refusal>
    ensures { seen (λ u. u) result ≡ length_answer (corners_of frame.now) length tt }
{
    if length != frame.plane_length() {
        return Err(Refusal::WrongLength);
    }
    Ok(())
}

// Where the sample of a finest point is kept in a plane of this length: 4 for the wrong length, 9 outside the frame.
fn index_in(frame: &Frame, length: usize, p: Point) -> Result<usize, Refusal>
    ensures answer { seen (λ k. k) result ≡ point_answer (corners_of frame.now) length p (the_place (corners_of frame.now) p) }
    ensures within { IfOk result (λ k. k < length) }
{
    admit(frame, length)?;
    frame.place(p)
}

// The sample of a finest point in a plane, with the same refusals.
fn sample_at<K: Sample>(frame: &Frame, plane: &[K], p: Point) -> Result<K, Refusal>
    ensures { seen (λ v. v) result ≡ sample_answer K.Sample.kind.nothing (corners_of frame.now) plane.now p }
{
    let k = index_in(frame, plane.len(), p)?;
    Ok(plane[k])
}

// A picture and bands are two types, so `open`, `stage` and `read` stand at both; what they share is `admit` and `sample_at`.
impl Picture {
    // Opens a tile as a picture over a plane, which holds its samples. 4 for a plane of the wrong length.
    pub fn open<K: Sample>(frame: Frame, plane: &[K]) -> Result<Picture, Refusal>
        ensures { seen (λ p. with_plane (picture_tile p) plane.now) result ≡ open_answer (corners_of frame) as_picture plane.now }
    {
        admit(&frame, plane.len())?;
        Ok(Picture { frame })
    }

    // The stage of a picture: the highest of its frame.
    pub fn stage(&self) -> u32
        ensures { result ≡ (picture_tile self.now).stage }
    {
        self.frame.levels()
    }

    // Sets the sample of a finest point. 4 for a plane of the wrong length, 9 outside the frame.
    pub fn put<K: Sample>(&self, plane: &mut [K], p: Point, v: K) -> Result<(), Refusal>
        ensures { Puts (with_plane (picture_tile self.now) plane.old) p v (seen (λ u. u) result) (with_plane (picture_tile self.now) plane.new) }
    {
        let k = index_in(&self.frame, plane.len(), p)?;
        plane[k] = v;
        Ok(())
    }

    // The sample of a finest point, with the same refusals.
    pub fn read<K: Sample>(&self, plane: &[K], p: Point) -> Result<K, Refusal>
        ensures { Reads K.Sample.kind.nothing (with_plane (picture_tile self.now) plane.now) p (seen (λ v. v) result) (with_plane (picture_tile self.now) plane.now) }
    {
        sample_at(&self.frame, plane, p)
    }

    // The tile as bands at the highest stage, whose plane is the picture itself.
    pub fn begin(self) -> Bands
        ensures { Begins (picture_tile self) (accepted tt) (bands_tile result) }
    {
        Bands {
            frame: self.frame,
            stage: self.stage(),
        }
    }
}

impl Bands {
    // Opens a tile as bands at stage 0 over a plane, which holds the whole transform of their picture. 4 for a plane of the wrong length.
    pub fn open<K: Sample>(frame: Frame, plane: &[K]) -> Result<Bands, Refusal>
        ensures { seen (λ b. with_plane (bands_tile b) plane.now) result ≡ open_answer (corners_of frame) as_bands plane.now }
    {
        admit(&frame, plane.len())?;
        Ok(Bands { frame, stage: 0 })
    }

    // The stage that the bands are at, from the frame's levels down to 0.
    pub fn stage(&self) -> u32
        ensures { result ≡ (bands_tile self.now).stage }
    {
        self.stage
    }

    // The sample that the plane has for a finest point. 4 for a plane of the wrong length, 9 outside the frame.
    pub fn read<K: Sample>(&self, plane: &[K], p: Point) -> Result<K, Refusal>
        ensures { Reads K.Sample.kind.nothing (with_plane (bands_tile self.now) plane.now) p (seen (λ v. v) result) (with_plane (bands_tile self.now) plane.now) }
    {
        sample_at(&self.frame, plane, p)
    }

    // Works the present stage down. 4 for a plane of the wrong length, 10 at stage 0, 11 for a source with another frame.
    pub fn down<S: Step, B: BreakSource>(
        &mut self,
        plane: &mut [S::Sample],
        step: &S,
        source: &B,
    ) -> Result<(), Refusal>
        ensures { Descends (meant S.Sample.Sample.kind (S.Step.rule step.now)) (B.BreakSource.framed source.now) (B.BreakSource.broken source.now) (with_plane (bands_tile self.old) plane.old) (seen (λ u. u) result) (with_plane (bands_tile self.new) plane.new) }
    {
        lifting::down(&self.frame, self.stage, step, source, plane)?;
        self.stage -= 1;
        Ok(())
    }

    // Works the stage above up. 4 for a plane of the wrong length, 10 at the highest stage, 11 for a source with another frame.
    pub fn up<S: Step, B: BreakSource>(
        &mut self,
        plane: &mut [S::Sample],
        step: &S,
        source: &B,
    ) -> Result<(), Refusal>
        ensures { Ascends (meant S.Sample.Sample.kind (S.Step.rule step.now)) (B.BreakSource.framed source.now) (B.BreakSource.broken source.now) (with_plane (bands_tile self.old) plane.old) (seen (λ u. u) result) (with_plane (bands_tile self.new) plane.new) }
    {
        lifting::up(&self.frame, self.stage + 1, step, source, plane)?;
        self.stage += 1;
        Ok(())
    }

    // The tile as a picture again. Below the highest stage 10, and the bands are given back.
    pub fn finish(self) -> Result<Picture, Returned<Bands>>
        ensures { Finishes (bands_tile self) (finish_answer result) (finish_tile result) }
    {
        if self.stage != self.frame.levels() {
            return Err(Returned {
                why: Refusal::WrongStage,
                given: self,
            });
        }
        Ok(Picture { frame: self.frame })
    }
}
