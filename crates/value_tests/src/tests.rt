// The tests by their subject.
mod bit;
mod evaluation;
mod lanes;
mod ternary;
