// Whether the profiles have one mode.
ghost use Rattle.std.specs.Prelude.{◌≡◌, ◌<◌, ℕ, Some, not, length, slice_get, IfNone, IfSome};
ghost use Rattle.prof_merge.specs.Inputs.{modes_of, AllHaveMode};

use prof_view::ProfileView;

/// The number of the first profile that has not this mode.
pub fn first_other(views: &[ProfileView<'_>], mode: bool) -> Option<usize>
    ensures within { IfSome result (λ i. i < length views.now) }
    ensures other { IfSome result (λ i. slice_get (modes_of views.now) i ≡ Some (not mode)) }
    ensures earlier { IfSome result (λ i. (k : ℕ) → k < i → slice_get (modes_of views.now) k ≡ Some mode) }
    ensures none { IfNone result (AllHaveMode mode views.now) }
{
    for (i, view) in views.iter().enumerate() {
        if view.entry_first() != mode {
            return Some(i);
        }
    }
    None
}
