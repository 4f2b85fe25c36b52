// Windows of operations, earliest plans, nodes with a latest time, and least bounds.
mod bounds;
mod plans;
mod timed;
mod windows;
