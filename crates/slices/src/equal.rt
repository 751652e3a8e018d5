//! The search for the first equal element, once for every kind of element.
ghost use Rattle.slices.specs.First.{Found};

/// The index of the first element of `items` that equals `sought`.
pub fn first<T: Eq>(items: &[T], sought: &T) -> Option<usize>
    ensures { Found T.eq items.now sought.now result }
{
    items.iter().position(|x| x == sought)
}
