// Sets of numbers below 128: the colours in use at a body.
#![tactic(auto)]

pub mod mask;
