ghost use Rattle.scale.specs.SideBySide.{side_by_side, side_by_side_laws};

use crate::scales::Scale;

/// A value of one scale beside a value of another.
#[derive(Clone, Copy, Debug, PartialEq, Eq)]
pub struct Beside<A, B> {
    pub first: A,
    pub second: B,
}

impl<A: Scale, B: Scale> Scale for Beside<A, B> {
    ghost ops = { side_by_side A.Scale.ops B.Scale.ops };

    ghost laws = { side_by_side_laws A.Scale.laws B.Scale.laws };

    fn top() -> Self {
        Beside {
            first: A::top(),
            second: B::top(),
        }
    }

    fn bottom() -> Self {
        Beside {
            first: A::bottom(),
            second: B::bottom(),
        }
    }

    fn both(self, other: Self) -> Self {
        Beside {
            first: self.first.both(other.first),
            second: self.second.both(other.second),
        }
    }

    fn either(self, other: Self) -> Self {
        Beside {
            first: self.first.either(other.first),
            second: self.second.either(other.second),
        }
    }

    fn turn(self) -> Self {
        Beside {
            first: self.first.turn(),
            second: self.second.turn(),
        }
    }

    fn grade(difference: i32) -> Self {
        Beside {
            first: A::grade(difference),
            second: B::grade(difference),
        }
    }
}
