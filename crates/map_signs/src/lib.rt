// The granules of a card, as the service map shows them.
#![tactic(auto)]

pub mod signs; // signs.rt: the signs of a card's granules
