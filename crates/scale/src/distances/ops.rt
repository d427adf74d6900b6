ghost use Rattle.std.specs.Prelude.{◌≡◌};
ghost use Rattle.scale.specs.Distances.{distance, distance_laws, distance_of};

use super::Distance;
use crate::scales::Scale;

impl Distance {
    /// The distance of a number; one that no distance may be gives the bottom.
    pub fn new(number: i32) -> Distance
        ensures { result ≡ distance_of number }
    {
        if (-8_000_001..=8_000_001).contains(&number) && number % 2 != 0 {
            Distance { value: number }
        } else {
            Distance::bottom()
        }
    }

    pub fn value(self) -> i32
        ensures { result ≡ self.value }
    {
        self.value
    }
}

/// Both is the lesser, either the greater, turn the minus; a difference d is graded 2·d + 1.
impl Scale for Distance {
    ghost ops = { distance };

    ghost laws = { distance_laws };

    fn top() -> Distance {
        Distance { value: 8_000_001 }
    }

    fn bottom() -> Distance {
        Distance { value: -8_000_001 }
    }

    fn both(self, other: Distance) -> Distance {
        Distance {
            value: self.value.min(other.value),
        }
    }

    fn either(self, other: Distance) -> Distance {
        Distance {
            value: self.value.max(other.value),
        }
    }

    fn turn(self) -> Distance {
        Distance { value: -self.value }
    }

    fn grade(difference: i32) -> Distance {
        Distance {
            value: 2 * difference + 1,
        }
    }
}
