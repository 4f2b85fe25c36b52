use std::alloc::{AllocError, Global};

// A node, and the place that was known of it before.
#[derive(Clone, Copy, Debug)]
struct Noted {
    node: u32,
    before: u32,
}

/// Of each node the place of the arc that gave it its length last, and 0 where none is known. The
/// place of the arc at an index is one more than the index. What is noted while an arc is added
/// goes back when that arc is withdrawn.
///
/// Nothing rests on it: who asks tests it. So lengths that change otherwise need not be noted, and
/// where memory runs out a node keeps what was known of it.
#[derive(Debug, Drop)]
pub struct Givers {
    places: Vec<u32>,
    noted: Vec<Noted>,
    starts: Vec<usize>,
    is_noting: bool,
}

impl Givers {
    /// None is known, of this many nodes.
    pub fn new(alloc: Global, nodes: usize) -> Result<Self, AllocError> {
        Ok(Givers {
            places: vec![in alloc; 0u32; nodes]?,
            noted: Vec::new(alloc),
            starts: Vec::new(alloc),
            is_noting: false,
        })
    }

    /// Begins to note, for an arc that is added behind the others.
    pub fn begin(&mut self) {
        let start = self.noted.len();
        self.is_noting = self.starts.push(start).is_ok();
    }

    /// Notes no more.
    pub fn end(&mut self) {
        self.is_noting = false;
    }

    /// Notes that the arc at this place has given the node its length, if an arc is added.
    pub fn note(&mut self, node: u32, place: usize) {
        if !self.is_noting {
            return;
        }
        let Ok(place) = u32::try_from(place) else {
            return;
        };
        let Some(known) = self.places.get_mut(node as usize) else {
            return;
        };
        let before = *known;
        if self.noted.push(Noted { node, before }).is_ok() {
            *known = place;
        }
    }

    /// Goes back to what was known when there were this many arcs.
    pub fn go_back(&mut self, left: usize) {
        let Some(start) = self.starts.get(left).copied() else {
            return;
        };
        for _ in start..self.noted.len() {
            self.take_back();
        }
        self.starts.truncate(left);
    }

    // Takes the last note back.
    fn take_back(&mut self) {
        let Some(last) = self.noted.pop() else {
            return;
        };
        if let Some(known) = self.places.get_mut(last.node as usize) {
            *known = last.before;
        }
    }

    /// The index of the arc that is known to have given the node its length.
    pub fn of(&self, node: u32) -> Option<usize> {
        let place = *self.places.get(node as usize)?;
        (place as usize).checked_sub(1)
    }
}
