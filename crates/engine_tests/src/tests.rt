// The tests by their subject.
mod base;
mod comparing;
mod kinds;
mod largest;
mod loops;
mod making;
mod refusals;
mod room;
mod running;
