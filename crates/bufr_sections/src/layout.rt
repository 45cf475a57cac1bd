ghost use Rattle.std.specs.Prelude.{◌≡◌};
ghost use Rattle.bufr_sections.specs.Sections.{shortest1};

/// A layout of section 1, all that differs between the editions.
#[derive(Clone, Copy, Debug, PartialEq, Eq)]
pub enum Layout {
    /// Edition 4.
    Edition4,
    /// Edition 3.
    Edition3,
}

impl Layout {
    /// Returns the least length of section 1.
    pub(crate) fn shortest(self) -> usize
        ensures { result ≡ shortest1 self }
    {
        match self {
            Layout::Edition4 => 22,
            Layout::Edition3 => 17,
        }
    }
}
