// The C library's calls on a machine, as include/korvammel.h declares them: started, run, saved and restored. Each takes numbers and
// lent arrays, and answers 0 or a number of the table.
#![tactic(auto)]

mod images;
mod numbers;
mod runs;

pub use images::{korvammel_image_read, korvammel_image_write, korvammel_image_write_old};
pub use numbers::ending;
pub use runs::{korvammel_run, korvammel_start};
