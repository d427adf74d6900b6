ghost use Rattle.scale.specs.Odd.{Odd};

pub mod ops;

/// How far a comparison holds, or by how much it fails: an odd number from −8,000,001 to 8,000,001.
#[derive(Clone, Copy, Debug, PartialEq, Eq)]
pub struct Distance {
    value: i32,
    ghost fits: { Odd value },
}
