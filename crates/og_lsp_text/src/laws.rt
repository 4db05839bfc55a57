//! Laws of positions. Each is a contract alone: the functions do nothing.

ghost use Rattle.std.specs.Prelude.{◌≡◌, ℕ, ◌≤◌, true, List, length};
ghost use Rattle.og_lsp_text.specs.declared.encoding.Encoding.{Encoding};
ghost use Rattle.og_lsp_text.specs.declared.position.Position.{Position};
ghost use Rattle.og_lsp_text.specs.Positions.{line_of, is_boundary, position_of, IsPlaceOf};

/// The position of a boundary names that boundary and no other place: what `Lines::position` gives
/// of it `Lines::place` takes back to it, in both encodings.
pub fn positions_come_back()
    ensures { (encoding : Encoding) (text : List ℕ) (at place : ℕ) → at ≤ length text →
        is_boundary text at ≡ true →
        IsPlaceOf encoding text (position_of encoding text at) place → place ≡ at }
{}

/// A position of a place of a text is in one of the text's lines.
pub fn positions_within()
    ensures { (encoding : Encoding) (text : List ℕ) (at : ℕ) → at ≤ length text →
        (position_of encoding text at).line ≤ line_of text (length text) }
{}
