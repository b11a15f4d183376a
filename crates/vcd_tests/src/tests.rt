// The tests by their subject.
mod base;
mod drawings;
mod dumps;
mod examples;
mod names;
mod reader;
