ghost use Rattle.std.specs.Prelude.{◌≡◌};
ghost use Rattle.std.specs.Option.{option_copied};
ghost use Rattle.evo_first_form.specs.FirstForm as spec;

/// The only item of a list, where it has just one.
pub(crate) fn only<T>(items: &[T]) -> Option<&T>
    ensures { option_copied result ≡ spec.only_of items.now }
{
    match items {
        [item] => Some(item),
        _ => None,
    }
}
