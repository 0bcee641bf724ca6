// Where a piece is cut.
ghost use Rattle.std.specs.Prelude.{◌≡◌, ◌≤◌, length, take, drop};
ghost use Rattle.ansi_feed.specs.Ended.{added, ended, unfinished};
ghost use Rattle.ansi_feed.specs.Feed.{cr_behind};

use memchr::memrchr2;

/// What a piece adds: directly after a CR, an LF in front belongs to the end that is there.
pub(crate) fn added<'a>(after_cr: bool, piece: &'a [u8]) -> &'a [u8]
    ensures { result.now ≡ added after_cr piece.now }
{
    if after_cr && !piece.is_empty() && piece[0] == b'\n' {
        &piece[1..]
    } else {
        piece
    }
}

/// How many bytes there are up to and with the last line end.
pub(crate) fn ended_length(bytes: &[u8]) -> usize
    ensures within { result ≤ length bytes.now }
    ensures ended { take result bytes.now ≡ ended bytes.now }
    ensures unfinished { drop result bytes.now ≡ unfinished bytes.now }
{
    match memrchr2(b'\n', b'\r', bytes) {
        Some(place) => place + 1,
        None => 0,
    }
}

/// Whether a CR stands at the end, behind a piece.
pub(crate) fn cr_behind(after_cr: bool, piece: &[u8]) -> bool
    ensures { result ≡ cr_behind after_cr piece.now }
{
    if piece.is_empty() {
        after_cr
    } else {
        piece[piece.len() - 1] == b'\r'
    }
}
