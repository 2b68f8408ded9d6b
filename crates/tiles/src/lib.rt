// A tile's service: a tile is opened over a lent plane as a picture or as bands, and serves put, read, begin, down, up and finish.
#![tactic(auto)]

pub mod call;
pub mod event;
pub mod player;
pub mod returned;
pub mod state;
pub mod tile;
pub mod unplayed;

pub use call::Call;
pub use event::{Event, Reply};
pub use player::play;
pub use returned::Returned;
pub use state::State;
pub use tile::{Bands, Picture};
pub use unplayed::Unplayed;
