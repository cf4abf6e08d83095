// Left recursion: whether some rule of a grammar leads back to itself before anything is consumed.
#![tactic(auto)]

pub mod check;
pub mod closure;
pub mod nothing;
pub mod sets;
