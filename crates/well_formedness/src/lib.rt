// Whether a machine record is well formed (document 01, "What a machine holds").
#![tactic(auto)]

mod range;
mod record;

pub use record::well_formed;
