// What a reading is.

// A number in the air, a number under the ground, or not usable: NaN or infinite.
#[derive(Clone, Copy, Debug, PartialEq)]
pub enum Reading {
    Air(f32),
    Ground(f32),
    Unusable,
}
