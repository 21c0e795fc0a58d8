//! The keys of the line's objects.
ghost use Rattle.std.specs.Prelude.{◌≡◌};
ghost use Rattle.catalog_page.specs.Keys.{key_word};

/// A key of an object of the line.
#[derive(Clone, Copy, Debug, PartialEq, Eq)]
pub enum Key {
    Bytes,
    Columns,
    Cuts,
    Entries,
    Extents,
    Id,
    Key,
    Last,
    Machine,
    Made,
    Name,
    Plan,
    Programs,
    Rows,
    Streams,
    Tick,
    Uses,
}

impl Key {
    /// As the line spells it.
    pub fn word(&self) -> &'static str
        ensures { result.now ≡ key_word self.now }
    {
        match self {
            Key::Bytes => "bytes",
            Key::Columns => "columns",
            Key::Cuts => "cuts",
            Key::Entries => "entries",
            Key::Extents => "extents",
            Key::Id => "id",
            Key::Key => "key",
            Key::Last => "last",
            Key::Machine => "machine",
            Key::Made => "made",
            Key::Name => "name",
            Key::Plan => "plan",
            Key::Programs => "programs",
            Key::Rows => "rows",
            Key::Streams => "streams",
            Key::Tick => "tick",
            Key::Uses => "uses",
        }
    }
}
