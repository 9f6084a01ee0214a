// Tries every choice, and knows nothing of grounds: what other searches are held against.
#![tactic(auto)]

mod found;
mod trial;
mod trials;

pub use found::Found;
pub use trials::cheapest;

#[cfg(test)]
mod tests;
