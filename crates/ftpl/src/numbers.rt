// Things that are numbered from 1.
ghost use Rattle.std.specs.Prelude.{◌≡◌};
ghost use Rattle.std.specs.Option.{option_copied};
ghost use Rattle.ftpl.specs.Numbers.{numbered};

/// The thing with this number, counted from 1, where there is one.
pub fn numbered<T>(things: &[T], number: u8) -> Option<&T>
    ensures { option_copied result ≡ numbered things.now number }
{
    things.get(usize::from(number.checked_sub(1)?))
}
