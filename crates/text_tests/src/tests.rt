mod entries;
mod problems;
mod requests;
mod solutions;
mod train_faults;
mod trees;
