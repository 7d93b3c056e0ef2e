// A run that is under way.
use crate::activation::Activation;
use crate::frame::Frame;
use eval::stacks::Stacks;
use std::alloc::Global;

// choices: those that are left.
#[derive(Drop)]
pub struct Machine<'p> {
    pub heap: Global,
    pub running: Activation<'p>,
    pub frames: Vec<Frame<'p>>,
    pub stacks: Stacks,
    pub choices: &'p [u64],
}
