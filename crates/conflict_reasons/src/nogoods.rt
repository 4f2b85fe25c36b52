use crate::past::Past;
use crate::reasons::Reasons;
use disp_model::{Choice, Decision, Memory, Op};
use std::alloc::Global;
use std::collections::BTreeMap;
use std::mem;

/// A nogood of more decisions than these is not kept: it is hardly ever met again.
const MOST_DECISIONS: usize = 64;

/// So many nogoods, at most, are kept in mind of which one decision is not taken,
const MOST_OPEN: usize = 200;

/// and so many of them, at most, say which choice to take.
const MOST_PROMPTS: usize = 20;

/// A decision that some nogood has.
#[derive(Drop)]
struct Literal {
    decision: Decision,
    /// At which place it was taken, where it was.
    taken: Option<usize>,
    /// The nogoods that are looked at when it is taken.
    watching: Vec<usize>,
}

/// Decisions behind which a node is closed.
#[derive(Drop)]
struct Nogood {
    literals: Vec<usize>,
    /// The two of them that it watches: where two are not taken, these are not.
    watched: (usize, usize),
    /// Where the branch stands that shows it.
    branch: usize,
}

/// What becomes of a nogood where one of the two decisions that it watches is taken.
#[derive(Clone, Copy)]
enum Turn {
    /// It watches another decision, which is not taken.
    Moves(usize),
    /// The other one that it watches is the only one that is not taken.
    Opens,
    /// All are taken.
    Closes,
}

/// A nogood of which all decisions are taken.
#[derive(Drop)]
pub struct Met {
    /// On these decisions it rests that the node is closed,
    pub reasons: Reasons,
    /// and this branch shows it.
    pub branch: usize,
}

/// Sets of decisions behind which a node was closed. Each set watches two of its decisions that are
/// not taken, so that a step looks at few sets, and a step back at none (Moskewicz and others
/// 2001).
#[derive(Drop)]
pub struct Nogoods {
    numbers: BTreeMap<(Op, Op), usize>,
    literals: Vec<Literal>,
    each: Vec<Nogood>,
    /// Those of which all decisions but one were taken at a time.
    open: Vec<usize>,
    /// Room for those that go on watching a decision.
    staying: Vec<usize>,
}

/// A train that no problem has.
const NO_TRAIN: u32 = u32::MAX;

/// A pair of operations that no other decision has.
fn key_of(decision: Decision) -> (Op, Op) {
    match decision {
        Decision::First { a, b } => (a, b),
        Decision::Go { op, next } => (
            op,
            Op {
                train: op.train,
                op: next,
            },
        ),
        Decision::Run(op) => (op, op),
        Decision::Skip(op) => (
            op,
            Op {
                train: NO_TRAIN,
                op: op.op,
            },
        ),
    }
}

/// The choice between a decision and others.
fn choice_of(decision: Decision) -> Choice {
    match decision {
        Decision::First { a, b } => Choice::Order(a, b),
        Decision::Go { op, .. } => Choice::Route(op),
        Decision::Run(op) | Decision::Skip(op) => Choice::Run(op),
    }
}

impl Nogood {
    /// The other one that it watches beside a decision.
    fn watched_beside(&self, number: usize) -> usize {
        let (one, other) = self.watched;
        if one == number { other } else { one }
    }

    /// Has it watch a decision in the place of another.
    fn watch_instead(&mut self, number: usize, instead: usize) {
        let (one, other) = self.watched;
        self.watched = if one == number {
            (instead, other)
        } else {
            (one, instead)
        };
    }
}

impl Nogoods {
    /// None yet.
    pub fn new(alloc: Global) -> Nogoods {
        Nogoods {
            numbers: BTreeMap::new(alloc),
            literals: Vec::new(alloc),
            each: Vec::new(alloc),
            open: Vec::new(alloc),
            staying: Vec::new(alloc),
        }
    }

    /// The number of a decision that is taken at a place.
    fn number_of(
        &mut self,
        alloc: Global,
        decision: Decision,
        place: usize,
    ) -> Result<usize, Memory> {
        let key = key_of(decision);
        if let Some(number) = self.numbers.get(&key) {
            return Ok(*number);
        }
        let number = self.literals.len();
        self.literals.push(Literal {
            decision,
            taken: Some(place),
            watching: Vec::new(alloc),
        })?;
        self.numbers.insert(key, number)?;
        Ok(number)
    }

    /// Has a nogood be looked at when the decision of a number is taken.
    fn watch(&mut self, number: usize, nogood: usize) -> Result<(), Memory> {
        if let Some(literal) = self.literals.get_mut(number) {
            literal.watching.push(nogood)?;
        }
        Ok(())
    }

    /// The numbers of the decisions at some places, all of which are taken.
    fn numbers_at(
        &mut self,
        alloc: Global,
        past: &Past,
        places: &[usize],
    ) -> Result<Vec<usize>, Memory> {
        let mut numbers = Vec::with_capacity(alloc, places.len())?;
        for place in places {
            if let Some(decision) = past.decision(*place) {
                numbers.push(self.number_of(alloc, decision, *place)?)?;
            }
        }
        Ok(numbers)
    }

    /// Keeps the decisions, all of which are taken, on which it rests that a node is closed, as a
    /// branch shows, unless they are many. The last of them is taken back before another is taken.
    pub fn add(
        &mut self,
        alloc: Global,
        past: &Past,
        reasons: &Reasons,
        branch: usize,
    ) -> Result<(), Memory> {
        let places = reasons.places();
        if places.len() > MOST_DECISIONS {
            return Ok(());
        }
        let literals = self.numbers_at(alloc, past, places)?;
        let mut last = literals.iter().rev();
        let Some(one) = last.next().copied() else {
            return Ok(());
        };
        let other = last.next().copied().unwrap_or(one);
        let nogood = self.each.len();
        self.watch(one, nogood)?;
        if other != one {
            self.watch(other, nogood)?;
        }
        self.each.push(Nogood {
            literals,
            watched: (one, other),
            branch,
        })?;
        Ok(())
    }

    /// Whether the decision of a number is taken.
    fn is_taken(&self, number: usize) -> bool {
        match self.literals.get(number) {
            Some(literal) => literal.taken.is_some(),
            None => false,
        }
    }

    /// What becomes of a nogood where the decision of a number that it watches is taken.
    fn turn(&self, nogood: usize, number: usize) -> Option<Turn> {
        let nogood = self.each.get(nogood)?;
        let other = nogood.watched_beside(number);
        for literal in nogood.literals.iter() {
            if *literal != other && !self.is_taken(*literal) {
                return Some(Turn::Moves(*literal));
            }
        }
        if self.is_taken(other) {
            Some(Turn::Closes)
        } else {
            Some(Turn::Opens)
        }
    }

    /// Has a nogood watch a decision in the place of another.
    fn watch_instead(
        &mut self,
        nogood: usize,
        number: usize,
        instead: usize,
    ) -> Result<(), Memory> {
        if let Some(nogood) = self.each.get_mut(nogood) {
            nogood.watch_instead(number, instead);
        }
        self.watch(instead, nogood)
    }

    /// A nogood that watches the decision of a number, which gives it up.
    fn next_watching(&mut self, number: usize) -> Option<usize> {
        self.literals.get_mut(number)?.watching.pop()
    }

    /// Looks at the nogoods that watch the decision of a number, which is taken. Gives one of which
    /// all decisions are.
    fn look_at(&mut self, number: usize) -> Result<Option<usize>, Memory> {
        let mut met = None;
        for _ in 0..self.each.len() {
            let Some(nogood) = self.next_watching(number) else {
                return Ok(met);
            };
            match self.turn(nogood, number) {
                Some(Turn::Moves(instead)) => self.watch_instead(nogood, number, instead)?,
                Some(Turn::Opens) => {
                    self.staying.push(nogood)?;
                    self.open.push(nogood)?;
                }
                Some(Turn::Closes) => {
                    self.staying.push(nogood)?;
                    met = Some(nogood);
                }
                None => {}
            }
        }
        Ok(met)
    }

    /// Has those that stay watch the decision of a number again.
    fn stay_with(&mut self, number: usize) -> Result<(), Memory> {
        for _ in 0..self.staying.len() {
            let Some(nogood) = self.staying.pop() else {
                return Ok(());
            };
            self.watch(number, nogood)?;
        }
        Ok(())
    }

    /// The nogood as one that is met behind so many decisions.
    fn met(&self, alloc: Global, nogood: usize, depth: usize) -> Result<Option<Met>, Memory> {
        let Some(nogood) = self.each.get(nogood) else {
            return Ok(None);
        };
        let mut marks = vec![in alloc; false; depth]?;
        for number in nogood.literals.iter() {
            let literal = self.literals.get(*number);
            if let Some(place) = literal.and_then(|literal| literal.taken) {
                if let Some(mark) = marks.get_mut(place) {
                    *mark = true;
                }
            }
        }
        Ok(Some(Met {
            reasons: Reasons::marked(alloc, &marks)?,
            branch: nogood.branch,
        }))
    }

    /// Notes that a decision is taken at a place, as the last one. Gives a nogood of which all
    /// decisions are taken then, if there is one.
    pub fn take(
        &mut self,
        alloc: Global,
        decision: Decision,
        place: usize,
    ) -> Result<Option<Met>, Memory> {
        let Some(number) = self.numbers.get(&key_of(decision)).copied() else {
            return Ok(None);
        };
        if let Some(literal) = self.literals.get_mut(number) {
            literal.taken = Some(place);
        }
        let met = self.look_at(number)?;
        self.stay_with(number)?;
        match met {
            Some(nogood) => self.met(alloc, nogood, place.saturating_add(1)),
            None => Ok(None),
        }
    }

    /// Notes that a decision is taken back.
    pub fn give_back(&mut self, decision: Decision) {
        let Some(number) = self.numbers.get(&key_of(decision)).copied() else {
            return;
        };
        if let Some(literal) = self.literals.get_mut(number) {
            literal.taken = None;
        }
    }

    /// Notes that all decisions are taken back.
    pub fn give_all_back(&mut self) {
        for literal in self.literals.iter_mut() {
            literal.taken = None;
        }
        self.open.clear();
    }

    /// The decision of a nogood that is not taken, where all others are.
    fn missing(&self, nogood: usize) -> Option<Decision> {
        let mut missing = None;
        for number in self.each.get(nogood)?.literals.iter() {
            let literal = self.literals.get(*number)?;
            if literal.taken.is_none() {
                if missing.is_some() {
                    return None;
                }
                missing = Some(literal.decision);
            }
        }
        missing
    }

    /// Keeps those in mind of which one decision is not taken, as far as there are not too many.
    fn forget_others(&mut self, alloc: Global) -> Result<(), Memory> {
        let open = mem::replace(&mut self.open, Vec::new(alloc));
        for nogood in open.iter().skip(open.len().saturating_sub(MOST_OPEN)) {
            if self.missing(*nogood).is_some() {
                self.open.push(*nogood)?;
            }
        }
        Ok(())
    }

    /// The choices of which one decision would close a node with what is taken, those first that
    /// became so last: behind the other decision it goes on as if nothing had been chosen.
    pub fn prompts(&mut self, alloc: Global) -> Result<Vec<Choice>, Memory> {
        self.forget_others(alloc)?;
        let mut choices = Vec::new(alloc);
        for nogood in self.open.iter().rev().take(MOST_PROMPTS) {
            if let Some(decision) = self.missing(*nogood) {
                choices.push(choice_of(decision))?;
            }
        }
        Ok(choices)
    }
}
