// The lines of the programs are written into a buffer that the caller lends, since nothing is allocated. What does not fit is left out, and the
// length that comes back is the text's.

#![tactic(auto, using(crate::proofs::Extended::parts))]

pub mod event;
pub mod figures;
pub mod panel;
mod text;
