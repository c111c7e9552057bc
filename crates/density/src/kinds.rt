// The kinds of rings: numbers, since an operation is asked with any (refusal 5) and a record may hold any (22), and the definitions take
// them; of an enum each use would begin with a conversion that fails for the rest.
ghost use Rattle.std.specs.Prelude.{◌≡◌};
ghost use Rattle.density.specs.Necklaces.{is_kind};

// Whether there is such a kind.
pub fn is_kind(kind: u8) -> bool
    ensures { result ≡ is_kind kind }
{
    1 <= kind && kind <= 3
}
