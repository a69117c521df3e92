// Bytes as programs print them.
ghost use Rattle.std.specs.Prelude.{Some};
ghost use Rattle.std.specs.Fmt.{WritesOnOk};
ghost use Rattle.std.specs.List.{flat_map};
ghost use Rattle.program.specs.Digits.{digits_text, pair_text};

use std::fmt;

// In pairs of digits, `-` for none.
#[derive(Clone, Copy)]
pub struct Digits<'a>(pub &'a [u8]);

fn write_pairs<W: fmt::Write>(bytes: &[u8], f: &mut fmt::Formatter<W>) -> fmt::Result
    ensures { WritesOnOk W.write_str_gives f.old result (flat_map pair_text bytes.now) f.new }
{
    for byte in bytes {
        write!(f, "{byte:02x}")?;
    }
    Ok(())
}

impl<'a> fmt::Display for Digits<'a> {
    ghost output = { λ x. Some (digits_text x.0.now) };

    fn fmt<W: fmt::Write>(&self, f: &mut fmt::Formatter<W>) -> fmt::Result {
        if self.0.is_empty() {
            f.write_str("-")
        } else {
            write_pairs(self.0, f)
        }
    }
}
