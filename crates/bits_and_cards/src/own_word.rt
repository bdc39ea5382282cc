// A word of 16 bits that is none of a store's, and says only what number it is: its bits are told, set and cleared all the same.
ghost use Rattle.std.specs.Prelude.{map, refl};
ghost use Rattle.std.proofs.Common.{inl};

use crate::bits::{has_bit, with_bit, without_bit};
use image::word::Word;

#[derive(Clone, Copy)]
struct OwnWord(u16);

impl Word for OwnWord {
    ghost BITS = { 16 };

    ghost VALUES = { 65536 };

    ghost CARD_BITS = { 4 };

    ghost MOST_CARDS = { 512 };

    const BITS: usize = 16;

    const VALUES: usize = 65536;

    const CARD_BITS: usize = 4;

    const MOST_CARDS: usize = 512;

    ghost value = { λ w. w.0 };

    ghost words = { map (λ w. w.0) };

    fn value(self) -> usize {
        self.0 as usize
    }

    fn of(n: usize) -> OwnWord {
        OwnWord(n as u16)
    }

    ghost laws = { record { one_of_two = inl refl; values = refl; bits_of_card = refl; cards = refl; by_value = λ l. refl } };
}

// "Bit j (worth 2 to the j)": of 5, which has the bits 0 and 2.
#[test]
fn bits_of_an_own_word(rt: HostRuntime) {
    for (j, there, with, without) in [
        (0, true, 5, 4),
        (1, false, 7, 5),
        (2, true, 5, 1),
        (3, false, 13, 5),
        (15, false, 32773, 5),
    ] {
        assert_eq!(rt; has_bit(OwnWord(5), j), there, "bit {j}");
        assert_eq!(rt; with_bit(OwnWord(5), j).value(), with, "bit {j} set");
        assert_eq!(rt;
            without_bit(OwnWord(5), j).value(),
            without,
            "bit {j} cleared"
        );
    }
}
