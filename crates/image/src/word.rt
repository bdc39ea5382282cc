// The word of a store: of 16 bits, or of 32 in a wide store.
ghost use Rattle.std.specs.Prelude.{◌≡◌, ℕ, List, ◌*◌, ◌^◌, ◌<◌};
ghost use Rattle.model.specs.Base.{test_bit, with_bit};
ghost use Rattle.image_laws.specs.Bits.{without_bit};
ghost use Rattle.image.specs.Word.{IsWord, here, same_words, narrow_is_word, wide_is_word};

pub trait Word: Copy {
    // The bits of a word, how many values it has, the bit words to a card's start bits or mark bits, and the most cards of a store.
    ghost BITS: { ℕ };

    ghost VALUES: { ℕ };

    ghost CARD_BITS: { ℕ };

    ghost MOST_CARDS: { ℕ };

    const BITS: usize;

    const VALUES: usize;

    const CARD_BITS: usize;

    const MOST_CARDS: usize;

    // The number that a word is, and those that a slice of them is.
    ghost value: { Self → ℕ };

    ghost words: { List Self → List ℕ };

    fn value(self) -> usize
        ensures value { result ≡ value self }
        ensures fits { result < 2 ^ BITS };

    fn of(n: usize) -> Self
        requires { n < 2 ^ BITS }
        ensures { value result ≡ n };

    // "Bit j (worth 2 to the j) of word w": told, set and cleared by shift and mask. The words of a store do it in themselves; another word, which
    // says only what number it is, in that number.
    fn has_bit(self, j: usize) -> bool
        requires { j < BITS }
        ensures { result ≡ test_bit (value self) j }
    {
        (self.value() >> j) & 1 == 1
    }

    fn with_bit(self, j: usize) -> Self
        requires { j < BITS }
        ensures { value result ≡ with_bit (value self) j }
    {
        Self::of(self.value() | (1 << j))
    }

    fn without_bit(self, j: usize) -> Self
        requires { j < BITS }
        ensures { value result ≡ without_bit (value self) j }
    {
        Self::of(self.value() & !(1 << j))
    }

    ghost laws: { IsWord BITS VALUES CARD_BITS MOST_CARDS value words };
}

impl Word for u16 {
    ghost BITS = { 16 };

    ghost VALUES = { 65536 };

    ghost CARD_BITS = { 4 };

    ghost MOST_CARDS = { 512 };

    const BITS: usize = 16;

    const VALUES: usize = 65536;

    const CARD_BITS: usize = 4;

    const MOST_CARDS: usize = 512;

    ghost value = { here };

    ghost words = { same_words };

    fn value(self) -> usize {
        self as usize
    }

    fn of(n: usize) -> u16 {
        n as u16
    }

    fn has_bit(self, j: usize) -> bool {
        (self >> j) & 1 == 1
    }

    fn with_bit(self, j: usize) -> u16 {
        self | (1u16 << j)
    }

    fn without_bit(self, j: usize) -> u16 {
        self & !(1u16 << j)
    }

    ghost laws = { narrow_is_word };
}

impl Word for u32 {
    ghost BITS = { 32 };

    ghost VALUES = { 4294967296 };

    ghost CARD_BITS = { 2 };

    ghost MOST_CARDS = { 65536 };

    const BITS: usize = 32;

    const VALUES: usize = 4294967296;

    const CARD_BITS: usize = 2;

    const MOST_CARDS: usize = 65536;

    ghost value = { here };

    ghost words = { same_words };

    fn value(self) -> usize {
        self as usize
    }

    fn of(n: usize) -> u32 {
        n as u32
    }

    fn has_bit(self, j: usize) -> bool {
        (self >> j) & 1 == 1
    }

    fn with_bit(self, j: usize) -> u32 {
        self | (1u32 << j)
    }

    fn without_bit(self, j: usize) -> u32 {
        self & !(1u32 << j)
    }

    ghost laws = { wide_is_word };
}
