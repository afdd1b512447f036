// Blending in light.
#![tactic(auto)]

pub mod even; // even.rt: blending codes, for lights at even steps
pub mod uneven; // uneven.rt: the code nearest in light, for other lights
