// The sections of an image, and where each begins among the words.
ghost use Rattle.std.specs.Prelude.{◌≡◌, ◌≤◌};
ghost use Rattle.model.specs.Image.{lengths, place, most_cards};
ghost use Rattle.image.specs.Section.{number_of, section_length};

use crate::word::Word;

#[derive(Clone, Copy, Debug, PartialEq, Eq)]
pub enum Section {
    Heap,
    Starts,
    Marks,
    Cards,
    Counts,
    Regs,
    Packets,
    Tracers,
    Players,
    General,
}

impl Section {
    // The place of its first word in an image of k cards.
    pub fn place<W: Word>(self, k: usize) -> usize
        requires { k ≤ most_cards W.BITS }
        ensures { result ≡ place (lengths W.BITS k) (number_of self) }
    {
        let behind_cards = (258 + 2 * W::CARD_BITS) * k;
        match self {
            Section::Heap => 0,
            Section::Starts => 256 * k,
            Section::Marks => (256 + W::CARD_BITS) * k,
            Section::Cards => (256 + 2 * W::CARD_BITS) * k,
            Section::Counts => (257 + 2 * W::CARD_BITS) * k,
            Section::Regs => behind_cards,
            Section::Packets => behind_cards + 256,
            Section::Tracers => behind_cards + 1280,
            Section::Players => behind_cards + 1344,
            Section::General => behind_cards + 1376,
        }
    }

    // How many words it has there.
    pub fn length<W: Word>(self, k: usize) -> usize
        requires { k ≤ most_cards W.BITS }
        ensures { result ≡ section_length W.BITS k self }
    {
        match self {
            Section::Heap => 256 * k,
            Section::Starts => W::CARD_BITS * k,
            Section::Marks => W::CARD_BITS * k,
            Section::Cards => k,
            Section::Counts => k,
            Section::Regs => 256,
            Section::Packets => 1024,
            Section::Tracers => 64,
            Section::Players => 32,
            Section::General => 8,
        }
    }
}
