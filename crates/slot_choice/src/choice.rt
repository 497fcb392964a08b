use crate::Member;
use image_def::Started;
use pico_board::Window;

/// The image that a boot starts, and its place in its unit.
#[derive(Clone, PartialEq, Eq, Debug, Drop)]
pub struct Choice {
    /// The image.
    pub image: Started,
    /// The member of its unit in which the image stands, A where the unit is no pair.
    pub member: Member,
    /// The window of the other member, where the unit is a pair.
    pub other: Option<Window>,
    /// Whether the image stands in the member that a flash-update boot named.
    pub updated: bool,
}
