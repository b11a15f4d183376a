// The tests by their subject.
mod base;
mod bytes;
mod drafts;
mod faults;
mod largest;
mod looped;
mod reader;
