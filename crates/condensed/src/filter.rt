//! Stamps of many lines in few entries.
ghost use Rattle.std.specs.Prelude.{◌≡◌, ◌<◌, true, [], ◌∷◌, replicate};
ghost use Rattle.book.specs.Entries.{no_stamps};
ghost use Rattle.condensed.specs.Condensed.{filter_after_eviction};
ghost use Rattle.condensed.specs.Filter.{index_by, indices_of, all_below_64, AreInside};
ghost use Rattle.condensed.specs.Filter.{filter_stamps, filter_raised_to, raised_at};

use crate::slot::Slot;
use book::Stamps;
use std::marker::Model;

/// Four ways of 64 entries. Each line has an entry in each way, and shares it with other lines.
#[derive(Drop)]
pub struct Filter {
    ways: [[Stamps; 64]; 4],
}

impl Model for Filter {
    ghost use Rattle.std.specs.Prelude.{List};
    ghost use Rattle.book.specs.declared.entry.Stamps.{Stamps};
    ghost use Rattle.condensed.specs.Filter.{FourWays};

    ghost Value = { List (List Stamps) };

    ghost view = { λ filter. filter.ways };

    ghost invariant = { λ filter. FourWays filter.ways };
}

/// The four entries of a line, as an index in each way.
// Keep this form: docs/DECISIONS.md.
pub fn indices(line: u32) -> [usize; 4]
    ensures value { result ≡ indices_of line }
    ensures inside { AreInside result }
    ensures example { indices_of 5 ≡ 5 ∷ 51 ∷ 16 ∷ 16 ∷ [] }
{
    [
        index(&[1, 2, 4, 8, 16, 32, 3, 6, 12, 24, 48, 33], line),
        index(&[37, 11, 22, 44, 25, 50, 7, 14, 28, 56, 49, 35], line),
        index(&[21, 42, 5, 10, 20, 40, 17, 34, 13, 26, 52, 41], line),
        index(&[63, 31, 47, 55, 59, 61, 62, 1, 9, 18, 36, 27], line),
    ]
}

/// The exclusive or of a way's numbers for the bits set in the line's number, lowest first.
fn index(numbers: &[usize; 12], line: u32) -> usize
    ensures value { result ≡ index_by numbers.now line }
    ensures inside { all_below_64 numbers.now ≡ true → result < 64 }
{
    let mut index = 0;
    for (bit, number) in numbers.iter().enumerate() {
        if (line >> bit) % 2 == 1 {
            index ^= *number;
        }
    }
    index
}

impl Filter {
    /// A filter without stamps.
    pub fn new() -> Filter
        ensures { result ≡ replicate 4 (replicate 64 no_stamps) }
    {
        let ways = [[Stamps::NONE; 64]; 4];
        Filter { ways }
    }

    /// The smallest write stamp and the earliest read mark of four entries.
    #[tactic(auto, unfolding(crate::specs::Filter::filter_stamps))]
    pub(crate) fn stamps(&self, four: [usize; 4]) -> Stamps
        requires { AreInside four }
        ensures { result ≡ filter_stamps self.now four }
    {
        let [a, b, c, d] = four;
        let low = self.ways[0][a].least(self.ways[1][b]);
        let high = self.ways[2][c].least(self.ways[3][d]);
        low.least(high)
    }

    /// Raises each of the four entries to `stamps`, where it is earlier.
    #[tactic(auto, unfolding(crate::specs::Filter::filter_raised_to))]
    pub(crate) fn raise(&mut self, four: [usize; 4], stamps: Stamps)
        requires { AreInside four }
        ensures { self.new ≡ filter_raised_to self.old four stamps }
    {
        let [a, b, c, d] = four;
        self.raise_at(0, a, stamps);
        self.raise_at(1, b, stamps);
        self.raise_at(2, c, stamps);
        self.raise_at(3, d, stamps);
    }

    /// When `line` takes a slot, raises the filter to the stamps of the line evicted from it. An
    /// empty slot, or one that `line` is in already, changes nothing.
    pub(crate) fn evict(&mut self, slot: Slot, line: u32)
        ensures { self.new ≡ filter_after_eviction self.old slot line }
    {
        if let Some(evicted) = slot.occupant
            && evicted.line != line
        {
            self.raise(indices(evicted.line), evicted.entry.stamps);
        }
    }

    /// Raises one entry of a way to `stamps` if it is earlier.
    fn raise_at(&mut self, way: usize, index: usize, stamps: Stamps)
        requires way { way < 4 }
        requires index { index < 64 }
        ensures { self.new ≡ raised_at self.old way index stamps }
    {
        self.ways[way][index] = self.ways[way][index].raised(stamps);
    }
}
