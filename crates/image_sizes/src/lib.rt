// The lengths of images, by their shapes, and of the memory that an image of a length holds.
#![tactic(auto)]

mod sizes;

pub use sizes::{IMAGE_ROOM, LONGEST_IMAGE, image_size, memory_of};
