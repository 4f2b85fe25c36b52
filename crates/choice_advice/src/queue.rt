use disp_model::Memory;
use std::alloc::Global;

/// How many places one word has a bit for.
const PLACES: usize = 64;

/// Operations that wait, the one at the least place first. Each place has room for one, and what is
/// put stands behind what was taken last.
#[derive(Drop)]
pub(crate) struct Queue {
    /// At each place the number of the operation that waits there, if one does.
    numbers: Vec<u32>,
    /// A bit for each place, set where an operation waits.
    words: Vec<u64>,
    /// The first word that may have a bit set, and the first one behind those that may.
    from: usize,
    until: usize,
}

impl Queue {
    /// An empty queue over so many places.
    pub(crate) fn new(alloc: Global, count: usize) -> Result<Queue, Memory> {
        let mut numbers = Vec::with_capacity(alloc, count)?;
        for _ in 0..count {
            numbers.push(0)?;
        }
        let size = (count / PLACES).saturating_add(1);
        let mut words = Vec::with_capacity(alloc, size)?;
        for _ in 0..size {
            words.push(0)?;
        }
        Ok(Queue {
            numbers,
            words,
            from: 0,
            until: 0,
        })
    }

    /// Has none wait.
    pub(crate) fn clear(&mut self) {
        for at in self.from..self.until {
            if let Some(word) = self.words.get_mut(at) {
                *word = 0;
            }
        }
        self.from = self.words.len();
        self.until = 0;
    }

    /// Has an operation wait at a place.
    pub(crate) fn put(&mut self, place: usize, number: u32) {
        let at = place / PLACES;
        let (Some(word), Some(there)) = (self.words.get_mut(at), self.numbers.get_mut(place)) else {
            return;
        };
        *word |= 1 << (place % PLACES);
        *there = number;
        self.from = self.from.min(at);
        self.until = self.until.max(at.saturating_add(1));
    }

    /// Takes the bit of the first place out of a word, where one is set.
    fn take_bit(&mut self, at: usize) -> Option<usize> {
        let word = self.words.get_mut(at)?;
        if *word == 0 {
            return None;
        }
        let bit = word.trailing_zeros() as usize;
        *word &= word.saturating_sub(1);
        Some(at.saturating_mul(PLACES).saturating_add(bit))
    }

    /// Takes the operation at the least place.
    pub(crate) fn take(&mut self) -> Option<u32> {
        for at in self.from..self.until {
            if let Some(place) = self.take_bit(at) {
                self.from = at;
                return self.numbers.get(place).copied();
            }
        }
        self.from = self.until;
        None
    }
}
