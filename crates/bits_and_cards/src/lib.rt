// Bits and cards of an image, over its words.
#![tactic(auto)]

pub mod bits; // bits.rt: start and mark bits, by shift and mask
pub mod cards; // cards.rt: dirty cards, an object marked and counted on one
#[cfg(test)]
mod own_word; // own_word.rt: bits of another word than a store's
