// The tests by their subject.
mod base;
mod bytes;
mod faults;
mod full;
mod listings;
mod orders;
mod reader;
mod sizes;
