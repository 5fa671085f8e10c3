// The table of an image's records: kinds, rows, fixed places, and what a record opens with (document 01, "Saved image").
#![tactic(auto)]

mod heads;
mod layout;

pub use heads::head_stands;
pub use layout::{
    Form, KINDS, Kind, Places, RECORD_KINDS, RecordRow, Shape, count_at, extent_of, first_body,
    fixed_part, form_of, kind_at, record_size, row_of, thread_row,
};
