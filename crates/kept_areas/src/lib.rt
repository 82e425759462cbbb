// The kept areas: an area's id among them, and its image.
#![tactic(auto)]

mod image;
mod kept;
mod rank;

pub use image::area_image;
pub use rank::area_id;
