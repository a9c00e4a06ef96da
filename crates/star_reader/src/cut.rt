// The position of the lines in a piece of a text.

ghost use Rattle.std.specs.{Prelude.{◌≡◌, ◌<◌, ◌≤◌, ◌-◌, MatchOption, true, drop, get_or, length, take}, List.list_all};
ghost use Rattle.star_schema.specs.Records.{ends_line};
ghost use Rattle.star_reader.specs.{Carried.is_inner, Private.Cut.AreLinesOf};

/// The lines of a piece: they lie from its first line end to after its last.
#[derive(Clone, Copy)]
pub(crate) struct Cut {
    first: usize,
    behind: usize,
}

impl Cut {
    /// The part before the lines: the end of the line that is open.
    pub(crate) fn head(self, piece: &[u8]) -> &[u8]
        requires { AreLinesOf piece.now self.first self.behind }
        ensures { result.now ≡ take self.first piece.now }
    {
        &piece[..self.first]
    }

    /// The lines, from a line end up to one, and with it.
    pub(crate) fn lines(self, piece: &[u8]) -> &[u8]
        requires { AreLinesOf piece.now self.first self.behind }
        ensures { result.now ≡ take (self.behind - self.first) (drop self.first piece.now) }
    {
        &piece[self.first..self.behind]
    }

    /// The part after the lines, which is open.
    pub(crate) fn tail(self, piece: &[u8]) -> &[u8]
        requires { AreLinesOf piece.now self.first self.behind }
        ensures { result.now ≡ drop self.behind piece.now }
    {
        &piece[self.behind..]
    }
}

fn is_end(byte: u8) -> bool
    ensures { result ≡ ends_line byte }
{
    byte == b'\r' || byte == b'\n'
}

// The position of the first line end, if there is one.
fn first_end(piece: &[u8]) -> Option<usize>
    ensures { MatchOption result (list_all is_inner piece.now ≡ true)
        (λ first. (first < length piece.now) × (list_all is_inner (take first piece.now) ≡ true)
        × (ends_line (get_or piece.now first 0) ≡ true)) }
{
    for index in 0..piece.len() {
        if is_end(piece[index]) {
            return Some(index);
        }
    }
    None
}

// The position after the last line end, and 0 if there is none.
fn behind_last_end(piece: &[u8]) -> usize
    ensures within { result ≤ length piece.now }
    ensures tail { list_all is_inner (drop result piece.now) ≡ true }
    ensures end { 0 < result → ends_line (get_or piece.now (result - 1) 0) ≡ true }
{
    let mut behind = piece.len();
    while behind > 0 {
        if is_end(piece[behind - 1]) {
            return behind;
        }
        behind -= 1;
    }
    0
}

/// The lines of a piece, if a line ends in it.
pub(crate) fn lines_of(piece: &[u8]) -> Option<Cut>
    ensures { MatchOption result (list_all is_inner piece.now ≡ true)
        (λ cut. AreLinesOf piece.now cut.first cut.behind) }
{
    let first = first_end(piece)?;
    let behind = behind_last_end(piece);
    Some(Cut { first, behind })
}
