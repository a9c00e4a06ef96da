// The names of tables and columns, and the keywords of programs and queries.

ghost use Rattle.std.specs.Prelude.{◌≡◌, ℕ, List};
ghost use Rattle.star_schema.specs.Words.{named as named_in};

/// A table, a column or a keyword: anything with a name.
pub trait Named: Copy {
    ghost name: { Self → List ℕ };

    /// Returns its name in lower case.
    fn name(self) -> &'static str
        ensures { result.now ≡ name self };
}

/// Returns the name of a table, a column or a keyword, in lower case, as queries and programs write
/// it.
pub fn name_of<N: Named>(named: N) -> &'static str
    ensures { result.now ≡ N.name named }
{
    named.name()
}

/// Returns the first of these with a name.
pub fn first_named<N: Named + Drop>(all: &[N], name: &[u8]) -> Option<N>
    ensures { result ≡ named_in N.name all.now name.now }
{
    all.iter()
        .copied()
        .find(|named| named.name().as_bytes() == name)
}
