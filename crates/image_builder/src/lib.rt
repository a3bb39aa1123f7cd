//! Images of ballot sets: the bytes of a bank, written from a store and read back, at once or piece after piece.
#![tactic(auto)]

mod cells;
pub mod laws;
mod read;
mod reader;
mod scratch;
mod write;
mod zeros;

pub use cells::CellsRead;
pub use read::ImageFault;
pub use reader::{ImageReader, read_image};
pub use scratch::{PAGE_BYTES, Scratch};
pub use write::{image, image_part};
