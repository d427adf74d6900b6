ghost use Rattle.std.specs.Prelude.{◌≡◌, ℤ, pos, negsuc, ◌≤ℤ◌};
ghost use Rattle.scale.specs.Laws.{Ops, Laws};

/// A scale of values: a bounded distributive lattice with an involution, and a grade of whole numbers.
pub trait Scale: Copy {
    /// what the six operations are
    ghost ops: { Ops Self };

    /// what holds of them
    ghost laws: { Laws ops };

    fn top() -> Self
        ensures { result ≡ ops.top };

    fn bottom() -> Self
        ensures { result ≡ ops.bottom };

    fn both(self, other: Self) -> Self
        ensures { result ≡ ops.both self other };

    fn either(self, other: Self) -> Self
        ensures { result ≡ ops.either self other };

    fn turn(self) -> Self
        ensures { result ≡ ops.turn self };

    /// the value of a difference of −2,000,000 to 2,000,000
    fn grade(difference: i32) -> Self
        requires { (negsuc 1999999 ≤ℤ difference) × (difference ≤ℤ pos 2000000) }
        ensures { result ≡ ops.grade difference };
}
