// A piece of a text as a grapheme, and the clusters that give the pieces.
ghost use Rattle.std.specs.Prelude.{◌≡◌, ◌-◌, true, false, chars, MatchOption};
ghost use Rattle.std.specs.Char.{is_control};
ghost use Rattle.std.specs.List.{list_any, list_all};
ghost use Rattle.term_text.specs.Graph.{grapheme_of, width_of, is_visible, is_blank};
ghost use Rattle.term_text.specs.Iter.{grapheme, cluster_pieces};

use crate::grapheme::Graph;
use crate::style::Style;
use unicode_width::UnicodeWidthStr;

/// Whether the piece has a control character.
fn has_control(piece: &str) -> bool
    ensures { result ≡ list_any is_control (chars piece.now) }
{
    piece.chars().any(|c| c.is_control())
}

/// Whether all characters of the piece are whitespace.
fn is_blank(piece: &str) -> bool
    ensures { result ≡ is_blank piece.now }
{
    piece.chars().all(|c| c.is_whitespace())
}

/// The piece as a grapheme, if it is visible.
pub(crate) fn graph_of<'a>(piece: &'a str, style: Style) -> Option<Graph<'a>>
    ensures { MatchOption result (is_visible piece.now ≡ false)
        (λ g. (is_visible piece.now ≡ true) × (grapheme g ≡ grapheme_of style piece.now)) }
{
    let width = piece.width();
    if has_control(piece) || width < 1 {
        return None;
    }
    Some(Graph {
        symbol: piece,
        style,
        width,
        blank: is_blank(piece),
    })
}

/// The same clusters again.
pub(crate) fn copied<'a>(
    pieces: &Option<unicode_segmentation::Graphemes<'a>>,
) -> Option<unicode_segmentation::Graphemes<'a>>
    ensures { cluster_pieces result ≡ cluster_pieces pieces.now }
{
    match pieces {
        Some(clusters) => {
            let Ok(copy) = clusters.clone() else {
                unreachable!();
            };
            Some(copy)
        }
        None => None,
    }
}
