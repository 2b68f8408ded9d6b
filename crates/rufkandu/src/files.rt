// The files of a run.
// The same text stands in both programs.
use crate::failure::Failure;
use commands::arguments::Job;
use geometry::frame::Frame;
use geometry::refusal::Refusal;
use netpbm::{Raster, Window, read};
use plates::work::frame_at;
use std::alloc::Global;
use std::fs;

// A picture, with the name of its file.
#[derive(Drop)]
pub struct Picture<'a> {
    name: &'a str,
    pub raster: Raster,
}

impl<'a> Picture<'a> {
    fn load(rt: &HostRuntime, name: &'a str) -> Result<Picture<'a>, Failure<'a>> {
        let bytes = fs::read(rt, name).map_err(|e| Failure::Unreadable(name, e))?;
        read(rt.alloc(), bytes.as_slice())
            .map(|raster| Picture { name, raster })
            .map_err(|fault| Failure::Picture(name, fault))
    }

    // The samples at a window.
    pub fn window(&self, heap: Global, w: Window) -> Result<Vec<u16>, Failure<'a>> {
        self.raster
            .window(heap, w)
            .map_err(|fault| Failure::Picture(self.name, fault))
    }

    fn is_as_large_as(&self, other: &Picture) -> bool {
        self.raster.width() == other.raster.width() && self.raster.height() == other.raster.height()
    }
}

// The plate of a job, and its label map where one is given.
#[derive(Drop)]
pub struct Plate<'a> {
    job: Job<'a>,
    pub picture: Picture<'a>,
    labels: Option<Picture<'a>>,
}

impl<'a> Plate<'a> {
    pub fn load(rt: &HostRuntime, job: Job<'a>) -> Result<Plate<'a>, Failure<'a>> {
        let picture = Picture::load(rt, job.plate)?;
        let labels = job.labels.map(|name| Picture::load(rt, name)).transpose()?;
        if let Some(map) = &labels
            && !map.is_as_large_as(&picture)
        {
            return Err(Failure::OtherSize(map.name));
        }
        Ok(Plate {
            job,
            picture,
            labels,
        })
    }

    // The frame of the tile at a window.
    pub fn frame(&self, w: Window) -> Result<Frame, Refusal> {
        frame_at(self.job.at, self.job.levels, w)
    }

    // The labels of a tile; without a label map all 0.
    pub fn labels(&self, heap: Global, w: Window) -> Result<Vec<u16>, Failure<'a>> {
        match &self.labels {
            None => Ok(vec![in heap; 0u16; w.width.saturating_mul(w.height)]?),
            Some(map) => map.window(heap, w),
        }
    }
}
