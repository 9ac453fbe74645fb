// The profiles that are merged.
ghost use Rattle.std.specs.Prelude.{◌≡◌, ◌++◌, ◌∷◌, ◌==◌, [], length, OnOk, OnErr};

use pgo_base::NoMemory;
use prof_view::ProfileView;
use std::alloc::Global;
use std::marker::Model;

/// The profiles that are merged, in order, as views of their texts.
#[derive(Drop)]
pub struct MergeInputs<'a> {
    views: Vec<ProfileView<'a>>,
}

impl<'a> Model for MergeInputs<'a> {
    ghost use Rattle.std.specs.Prelude.{List};
    ghost use Rattle.prof_view.specs.Profile.{ProfileInput};

    ghost Value = { List ProfileInput };

    ghost view = { λ m. m.views.items };
}

impl<'a> MergeInputs<'a> {
    /// No profiles. Takes no memory.
    pub fn new(alloc: Global) -> MergeInputs<'a>
        ensures { result ≡ [] }
    {
        MergeInputs {
            views: Vec::new(alloc),
        }
    }

    /// Puts a profile behind the others. After a refusal the profiles are as before.
    pub fn add(&mut self, view: ProfileView<'a>) -> Result<(), NoMemory>
        ensures ok { OnOk result (self.new ≡ self.old ++ view.entry ∷ []) }
        ensures err { OnErr result (self.new ≡ self.old) }
    {
        self.views.push(view)?;
        Ok(())
    }

    /// How many profiles there are.
    pub fn len(&self) -> usize
        ensures { result ≡ length self.now }
    {
        self.views.len()
    }

    /// Whether there is no profile.
    pub fn is_empty(&self) -> bool
        ensures { result ≡ (length self.now == 0) }
    {
        self.views.is_empty()
    }

    // The profiles in order.
    pub(crate) fn views(&self) -> &[ProfileView<'a>]
        ensures { result.now ≡ self.now }
    {
        self.views.as_slice()
    }
}
