// What two callers of one lock see, and the least cost of the newest edition.
mod cells;
mod turns;
