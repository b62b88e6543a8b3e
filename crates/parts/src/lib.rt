// The first part of something lent.
#![tactic(auto)]

ghost use Rattle.std.specs.Prelude.{◌≡◌, take};

// The first n items, or all where there are fewer.
pub fn first<T>(items: &[T], n: usize) -> &[T]
    ensures { result.now ≡ take n items.now }
{
    &items[..n.min(items.len())]
}

// The same, to be written.
pub fn first_mut<T>(items: &mut [T], n: usize) -> &mut [T]
    ensures { result.now ≡ take n items.old }
{
    let n = n.min(items.len());
    &mut items[..n]
}
