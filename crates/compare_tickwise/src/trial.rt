// What all steps of a comparison need: memory, numbers at random, and what is counted.
use crate::counts::Counts;
use crate::random::Random;
use std::alloc::Global;

#[derive(Drop)]
pub struct Trial {
    pub alloc: Global,
    pub random: Random,
    pub counts: Counts,
}
