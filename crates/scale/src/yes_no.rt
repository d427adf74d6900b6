ghost use Rattle.scale.specs.YesNo.{yes_no, yes_no_laws};

use crate::scales::Scale;

/// Yes and no: both is and, either is or, a difference is graded yes from 0 on.
impl Scale for bool {
    ghost ops = { yes_no };

    ghost laws = { yes_no_laws };

    fn top() -> bool {
        true
    }

    fn bottom() -> bool {
        false
    }

    fn both(self, other: bool) -> bool {
        self & other
    }

    fn either(self, other: bool) -> bool {
        self | other
    }

    fn turn(self) -> bool {
        !self
    }

    fn grade(difference: i32) -> bool {
        difference >= 0
    }
}
