// A pair's bytes in the images of its area: those of a work line, and those of a pair without fragments; and the known bits of the area then.
#![tactic(auto)]

mod count;
mod image;
mod plain;

pub use image::write_image;
pub use plain::write_plain;
