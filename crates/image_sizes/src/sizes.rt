// The length of an image, by its form and memory, and back.
ghost use Rattle.std.specs.Prelude.{◌≡◌};
ghost use Rattle.image_layout.specs.Layout.{kinds, start_of};
ghost use Rattle.image_sizes.specs.Sizes.{memory_of};

use answer::{BLOCK_BYTES, BLOCK_RECORD, FIXED_PART, MEMORY_BYTES};
use image_layout::{Shape, fixed_part, form_of};

pub const LONGEST_IMAGE: usize = FIXED_PART as usize + BLOCK_RECORD * (MEMORY_BYTES / BLOCK_BYTES);

// Room for an image's bytes: one more than the longest has, so that a longer one is seen.
pub const IMAGE_ROOM: usize = LONGEST_IMAGE + 1;

// The length of an image of a shape.
#[tactic(auto, using(image_layout::proofs::Rows::whole_length))]
pub fn image_size(shape: Shape) -> usize
    ensures { result ≡ start_of shape kinds }
{
    fixed_part(shape.form) as usize + BLOCK_RECORD * shape.blocks as usize
}

// The length of the memory that an image of so many bytes holds, in the form that the length says; 0 where it has room for none. Whether
// the length is that of an image at all, its reading says.
pub fn memory_of(size: usize) -> usize
    ensures { result ≡ memory_of size }
{
    let fixed = fixed_part(form_of(size)) as usize;
    BLOCK_BYTES * (size.saturating_sub(fixed) / BLOCK_RECORD)
}
