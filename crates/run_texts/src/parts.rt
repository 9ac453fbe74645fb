// Parts of slices.
ghost use Rattle.std.specs.Prelude.{◌≡◌, ◌≤◌, length};
ghost use Rattle.run_texts.specs.SiteLines as spec;

/// So many items, from a place on, or as many as there are.
pub fn part<T>(items: &[T], first: u32, count: u32) -> &[T]
    ensures value { result.now ≡ spec.part first count items.now }
    ensures few { length result.now ≤ count }
{
    let from = (first as usize).min(items.len());
    let rest = &items[from..];
    let most = (count as usize).min(rest.len());
    &rest[..most]
}
