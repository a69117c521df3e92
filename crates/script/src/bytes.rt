// Which bytes words, lines and texts are made of, and the longest run of them at the front.
ghost use Rattle.std.specs.Prelude.{◌≡◌, ◌≤◌, ℕ, Bool, length};
ghost use Rattle.std.specs.List.{list_all, prefix_len};
ghost use Rattle.script.specs.Bytes.{Agrees, is_blank, is_digit, is_printable, of_line, of_quote, of_word};

// Any byte but the one that ends a line.
pub(crate) fn of_line(b: u8) -> bool
    ensures { result ≡ of_line b }
{
    b != b'\n'
}

// What separates words.
pub(crate) fn is_blank(b: u8) -> bool
    ensures { result ≡ is_blank b }
{
    matches!(b, b' ' | b'\t')
}

// Any byte but a blank and the one that starts a comment.
pub(crate) fn of_word(b: u8) -> bool
    ensures { result ≡ of_word b }
{
    !is_blank(b) && b != b'#'
}

pub(crate) fn is_digit(b: u8) -> bool
    ensures { result ≡ is_digit b }
{
    b.is_ascii_digit()
}

// Any byte but the one that closes a quoted text.
pub(crate) fn of_quote(b: u8) -> bool
    ensures { result ≡ of_quote b }
{
    b != b'"'
}

// What a quoted text may hold.
pub(crate) fn is_printable(b: u8) -> bool
    ensures { result ≡ is_printable b }
{
    matches!(b, b' '..=b'~')
}

// How many bytes at the front are of the kind that `kind` tells.
pub(crate) fn run<F: Fn(u8) -> bool>(bytes: &[u8], kind: F) -> usize
    requires { F.IsAlwaysCallable kind }
    ensures count { (p : ℕ → Bool) → Agrees (F.post kind) p → result ≡ prefix_len p bytes.now }
    ensures within { result ≤ length bytes.now }
{
    bytes.iter().take_while(|b| kind(**b)).count()
}

// Whether all bytes are of that kind.
pub(crate) fn all<F: Fn(u8) -> bool>(bytes: &[u8], kind: F) -> bool
    requires { F.IsAlwaysCallable kind }
    ensures { (p : ℕ → Bool) → Agrees (F.post kind) p → result ≡ list_all p bytes.now }
{
    bytes.iter().all(|b| kind(*b))
}
