use crate::facts::Facts;
use crate::spots::{NEVER, Spots};

/// How much more a train costs whose forced operation starts only at a time, where its later
/// operations are pushed along its routes; never where one of them may not start so late.
pub(crate) fn toll(facts: &Facts, spots: &Spots, number: u32, time: u64) -> u64 {
    let spot = spots.at(number);
    let pushed = time.saturating_sub(spot.sum);
    let mut rise = 0u64;
    for stop in spots.stops_from(&spot) {
        let time = pushed.saturating_add(stop.sum);
        if time <= stop.start {
            return rise;
        }
        let Some(more) = facts.rise(stop.number, stop.start, time) else {
            return NEVER;
        };
        rise = rise.saturating_add(more);
    }
    rise
}

/// What that toll is at most: no operation behind is later than this one.
pub(crate) fn most_toll(spots: &Spots, number: u32, time: u64) -> u64 {
    let spot = spots.at(number);
    match spots.stops_from(&spot).first() {
        Some(stop) => stop.most.of(time.saturating_sub(spot.start)),
        None => 0,
    }
}
