// Planes of bits over the stretches of a sweep report.
#![tactic(auto)]

pub mod plane; // plane.rt: a plane of bits over the stretches, and over the starts of an image
