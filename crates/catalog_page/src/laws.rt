//! Laws of pages.
ghost use Rattle.std.specs.Prelude.{◌≡◌, ℕ, List, []};
ghost use Rattle.std.specs.List.{filter, flat_map, AllByRecursion};
ghost use Rattle.catalog_page.specs.Escape.{is_markup, own_markup, IsReadAs, IsShort};
ghost use Rattle.catalog_page.specs.Markup.{Piece, escaped, written};

/// A text can't add markup: what stands for it in a page has no `<`, `>`, `"` or `'`, and HTML reads it as the
/// text. So the bytes of a page that begin and end tags and values of attributes are those of its own markup, in
/// order.
pub fn texts_add_no_markup()
    ensures plain { (text : List ℕ) → filter is_markup (escaped text) ≡ [] }
    ensures is_read { (text : List ℕ) → IsReadAs (escaped text) text }
    ensures page { (pieces : List Piece) → AllByRecursion IsShort pieces
        → filter is_markup (written pieces) ≡ flat_map own_markup pieces }
{}
