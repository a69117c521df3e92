// An imprint line: the text that is printed below a calendar's sheet, of 0 to 200 printable bytes.
ghost use Rattle.std.specs.Prelude.{◌≡◌, ◌-◌, true, length, take, drop, replicate, nat_le};
ghost use Rattle.item.specs.Ranges.{printable};

pub mod methods;

// The unused places of `text` hold 0, so that equal lines are equal values.
#[derive(Clone, Copy, Debug)]
pub struct ImprintLine {
    text: [u8; 200],
    len: usize,
    ghost long: { length text ≡ 200 },
    ghost within: { nat_le len 200 ≡ true },
    ghost printable_text: { printable (take len text) ≡ true },
    ghost blank: { drop len text ≡ replicate (200 - len) 0 },
}
