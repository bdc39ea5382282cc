// The leaves of an image: its words by section, and the word that they are.
#![tactic(auto)]

pub mod result; // result.rt: the result of a call
pub mod section; // section.rt: the sections by name, and where each begins
pub mod sections; // sections.rt: the words of each section, read and written
pub mod word; // word.rt: the word of a store
