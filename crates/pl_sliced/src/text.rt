//! The blocks of a text for slicing.
ghost use Rattle.std.specs.Prelude.{◌≡◌, is_some};
ghost use Rattle.pl_sliced.specs.Text.{kind_of, nothing, part_of, with_part};

use pl_edit::Block;
use pl_units::Shared;

/// What a block is.
#[derive(Clone, Copy, Debug, PartialEq, Eq)]
pub(crate) enum Kind {
    /// A settings text.
    Settings,
    /// The text of a mesh.
    Mesh,
}

/// A block of a text.
#[derive(Drop)]
pub(crate) struct Part {
    /// The number of its data line, counted from 1.
    pub line: u32,
    /// Its name and its bytes.
    pub block: Shared<Block>,
}

/// The blocks of a text, each at most once.
#[derive(Drop)]
pub(crate) struct Found {
    /// The settings, if there are any.
    pub settings: Option<Part>,
    /// The mesh, if there is one.
    pub mesh: Option<Part>,
}

/// A text with a mesh.
#[derive(Drop)]
pub(crate) struct SliceText {
    /// The settings, if there are any.
    pub settings: Option<Part>,
    /// The mesh.
    pub mesh: Part,
}

impl Kind {
    /// What a block of this name is: a mesh by `mesh`, settings by `settings`, and nothing by another name.
    pub(crate) fn of(name: &[u8]) -> Option<Kind>
        ensures { result ≡ kind_of name.now }
    {
        if name == b"mesh".as_slice() {
            Some(Kind::Mesh)
        } else if name == b"settings".as_slice() {
            Some(Kind::Settings)
        } else {
            None
        }
    }
}

impl Found {
    /// No block.
    pub(crate) fn nothing() -> Found
        ensures { result ≡ nothing }
    {
        Found {
            settings: None,
            mesh: None,
        }
    }

    /// Whether there is a block of a kind.
    pub(crate) fn has(&self, kind: Kind) -> bool
        ensures { result ≡ is_some (part_of self.now kind) }
    {
        match kind {
            Kind::Settings => self.settings.is_some(),
            Kind::Mesh => self.mesh.is_some(),
        }
    }

    /// Puts the block of a kind.
    pub(crate) fn put(&mut self, kind: Kind, part: Part)
        ensures { self.new ≡ with_part self.old kind part }
    {
        match kind {
            Kind::Settings => self.settings = Some(part),
            Kind::Mesh => self.mesh = Some(part),
        }
    }
}
