// Netpbm's PGM format (P5): grey pictures of 8 or 16 bits, read from bytes and written to bytes.
#![tactic(auto)]

pub mod fault;
mod header;
mod items;
pub mod raster;
pub mod reader;
pub mod window;
pub mod writer;

pub use fault::Fault;
pub use raster::Raster;
pub use reader::read;
pub use window::{Window, put_window, window_at, windows_across};
pub use writer::write;

#[cfg(test)]
mod tests;
