// Why a tile was not worked on. Its plane is as it was.
ghost use Rattle.std.specs.Prelude.{◌≡◌};
ghost use Rattle.tiles.specs.declared.unplayed.Unplayed.TheVariants.{Refused as not_opened, NoMemory as no_memory};

use geometry::refusal::Refusal;
use std::alloc::AllocError;

#[derive(Clone, Copy, PartialEq, Eq, Debug)]
pub enum Unplayed {
    // the tile, or its source, is refused
    Refused(Refusal),
    // there is no memory for what would be told
    NoMemory,
}

impl From<Refusal> for Unplayed {
    ghost from_gives = { λ why r. r ≡ not_opened why };

    fn from(why: Refusal) -> Unplayed {
        Unplayed::Refused(why)
    }
}

impl From<AllocError> for Unplayed {
    ghost from_gives = { λ _ r. r ≡ no_memory };

    fn from(_e: AllocError) -> Unplayed {
        Unplayed::NoMemory
    }
}
