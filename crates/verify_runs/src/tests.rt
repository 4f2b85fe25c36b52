mod failing;
mod files;
mod fixed;
mod judged;
mod plans;
mod reported;
mod runs;
mod trees;
