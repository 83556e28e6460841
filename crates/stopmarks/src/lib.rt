// The marks of a stop, which are those of its signs that a sale asks for: one more sign comes, or a `$` of the line's stop.
#![tactic(auto)]

ghost use Rattle.std.specs.Prelude.{◌≡◌, eqb};
ghost use Rattle.laws.specs.Tests.{one_of};

// Which signs a stop has, of those that a sale asks for.
#[derive(Clone, Copy)]
pub struct Marks {
    // `$`
    pub dollar: bool,
    // `(`
    pub opening: bool,
    // `)`
    pub closing: bool,
    // `§`
    pub section: bool,
}

// inner: the marks when one more sign comes; 0 is none
pub fn marked(m: Marks, sign: u8) -> Marks
    ensures { (result.dollar ≡ one_of m.dollar (eqb sign 36)) × (result.opening ≡ one_of m.opening (eqb sign 40)) × (result.closing ≡ one_of m.closing (eqb sign 41)) × (result.section ≡ one_of m.section (eqb sign 0xA7)) }
{
    Marks {
        dollar: m.dollar || sign == b'$',
        opening: m.opening || sign == b'(',
        closing: m.closing || sign == b')',
        section: m.section || sign == 0xA7,
    }
}

// inner: a stop's own marks, and a `$` of the line's stop
pub fn with_dollar(own: Marks, theirs: Marks) -> Marks
    ensures { (result.dollar ≡ one_of own.dollar theirs.dollar) × (result.opening ≡ own.opening) × (result.closing ≡ own.closing) × (result.section ≡ own.section) }
{
    Marks {
        dollar: own.dollar || theirs.dollar,
        ..own
    }
}
