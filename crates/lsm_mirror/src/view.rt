//! What a mirror shows, as data.

ghost use Rattle.std.specs.Prelude.{◌≡◌, Some, MatchOption};
ghost use Rattle.lsm_mirror.specs.Shown.{IsBeside, made_of};

/// A table that lies nowhere.
#[derive(Drop)]
pub struct MadeTable {
    /// The number under which it is shown.
    pub number: u64,
    /// Its file. One of more than 1 GiB is refused when it is loaded.
    pub image: Vec<u8>,
}

/// What a mirror shows instead of what lies on the shelf below.
#[derive(Drop)]
pub struct View {
    /// The bytes of the manifest.
    pub manifest: Vec<u8>,
    /// A table that lies nowhere; one of its number below is not shown.
    pub made: Option<MadeTable>,
    /// Whether the tables below are shown as the plain tables that `lsm_inflate` makes of them.
    pub inflates: bool,
}

impl View {
    /// The table that lies nowhere, where it has this number.
    pub(crate) fn made_at(&self, number: u64) -> Option<&MadeTable>
        ensures { MatchOption result (IsBeside (made_of self.now.made) number)
            (λ m. (m.now.number ≡ number)
            × (made_of self.now.made ≡ Some (m.now.number, m.now.image.items))) }
    {
        match &self.made {
            Some(made) if made.number == number => Some(made),
            _ => None,
        }
    }
}
