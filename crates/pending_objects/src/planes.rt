// Bits of a lent scratch, by shift and mask in the words.
ghost use Rattle.std.specs.Prelude.{◌≡◌, ℕ, true, ◌/◌, ◌^◌, ◌<◌, ◌≤◌, length};
ghost use Rattle.model.specs.Base.{test_bit, set_bit};
ghost use Rattle.image_laws.specs.Bits.{clear_bit};

use image::word::Word;

// The lowest set bit.
pub fn lowest(x: usize) -> usize
    requires { x ≡ 0 → ⊥ }
    ensures within { (n : ℕ) → n ≤ 64 → x < 2 ^ n → result < n }
    ensures below { result < 64 }
    ensures set { test_bit x result ≡ true }
{
    x.trailing_zeros() as usize
}

pub fn add<W: Word>(s: &mut [W], i: usize)
    requires { i / W.BITS < length s.old }
    ensures { W.words s.new ≡ set_bit W.BITS (W.words s.old) i }
{
    let x = s[i / W::BITS];
    s[i / W::BITS] = bits_and_cards::bits::with_bit(x, i % W::BITS);
}

pub fn take_out<W: Word>(s: &mut [W], i: usize)
    requires { i / W.BITS < length s.old }
    ensures { W.words s.new ≡ clear_bit W.BITS (W.words s.old) i }
{
    let x = s[i / W::BITS];
    s[i / W::BITS] = bits_and_cards::bits::without_bit(x, i % W::BITS);
}
