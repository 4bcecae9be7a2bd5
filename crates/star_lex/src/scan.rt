// A byte at a place of a file.
ghost use Rattle.std.specs.Prelude.{◌≡◌, drop};
ghost use Rattle.star_lex.specs.Split.{starts};

// Whether this byte stands at a place.
pub fn byte_at(file: &[u8], at: usize, b: u8) -> bool
    ensures { result ≡ starts b (drop at file.now) }
{
    file.get(at).copied() == Some(b)
}
