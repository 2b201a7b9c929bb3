// The blocks of a diagram.
use sci_base::Place;
use sci_forms::Spec;

/// A block that is neither a superblock nor a pass-through object, with its place and its spec.
#[derive(Drop)]
pub struct PlacedBlock {
    pub place: Place,
    pub spec: Spec,
}
