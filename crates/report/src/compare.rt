//! Whether two listings are the same, or which row of them differs first.
ghost use Rattle.std.specs.Prelude.{◌≡◌, ◌<◌, ◌≤◌, [], ◌∷◌, ◌==◌, length, position, IfSome};
ghost use Rattle.std.specs.Prelude.{MatchOption};
ghost use Rattle.report.specs.Rows.{rows_of, row_size};
ghost use Rattle.report.specs.Compared.{IsRightComparison, MatchIsExact};

/// The outcome of a comparison. A row ends with its line feed; the last row may lack one.
#[derive(Clone, Copy)]
pub enum Comparison<'a> {
    /// The listings are the same, byte for byte.
    Match {
        rows: usize,
    },
    /// The first row that differs, counted from 1, in both listings; none where a listing has
    /// ended.
    Differs {
        row: usize,
        ours: Option<&'a [u8]>,
        theirs: Option<&'a [u8]>,
    },
}

/// Compares their listing with ours.
pub fn find_difference<'a>(ours: &'a [u8], theirs: &'a [u8]) -> Comparison<'a>
    ensures rows { IsRightComparison ours.now theirs.now result }
    ensures exact { MatchIsExact }
{
    let mut row = 0;
    let mut our_rest = ours;
    let mut their_rest = theirs;
    while let Some((our_row, our_next)) = split_row(our_rest) {
        match split_row(their_rest) {
            Some((their_row, their_next)) if our_row == their_row => {
                row += 1;
                our_rest = our_next;
                their_rest = their_next;
            }
            their_row => {
                return Comparison::Differs {
                    row: row + 1,
                    ours: Some(our_row),
                    theirs: their_row.map(|split| split.0),
                };
            }
        }
    }
    match split_row(their_rest) {
        None => Comparison::Match { rows: row },
        Some((their_row, _)) => Comparison::Differs {
            row: row + 1,
            ours: None,
            theirs: Some(their_row),
        },
    }
}

// The first row of a text, if it has one, and the rest of the text.
fn split_row(text: &[u8]) -> Option<(&[u8], &[u8])>
    ensures rows { MatchOption result (text.now ≡ [])
        (λ split. rows_of text.now ≡ split.0.now ∷ rows_of split.1.now) }
    ensures shorter { MatchOption result (text.now ≡ [])
        (λ split. length split.1.now < length text.now) }
{
    if text.is_empty() {
        return None;
    }
    Some(text.split_at(row_size(text)))
}

// The size of the first row of a text, with its line feed if it has one.
fn row_size(text: &[u8]) -> usize
    ensures size { result ≡ row_size text.now }
    ensures within { result ≤ length text.now }
{
    match find_feed(text) {
        Some(place) => place + 1,
        None => text.len(),
    }
}

// The place of the first line feed.
fn find_feed(text: &[u8]) -> Option<usize>
    ensures first { result ≡ position (λ byte. byte == 10) text.now }
    ensures within { IfSome result (λ place. place < length text.now) }
{
    text.iter().position(|byte| *byte == b'\n')
}
