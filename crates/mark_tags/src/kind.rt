// The kinds of marks.
ghost use Rattle.std.specs.Prelude.{◌≡◌, ◌%◌};
ghost use Rattle.mark_tags.specs.Marks.{delimiter};
ghost use Rattle.mark_tags.specs.Flat.{kind_number, kind_numbered, bit_of};
ghost use Rattle.mark_tags.specs.Kinds.{as_kind};

#[derive(Clone, Copy)]
pub enum Kind {
    Bold,
    Italic,
    Underline,
    Strike,
}

impl Kind {
    // The kind of a mark by the code of its item, of which it is the lowest two bits.
    pub fn of_code(code: u32) -> Kind
        ensures { as_kind result ≡ kind_numbered (code % 4) }
    {
        match code % 4 {
            0 => Kind::Bold,
            1 => Kind::Italic,
            2 => Kind::Underline,
            _ => Kind::Strike,
        }
    }

    pub fn delimiter(self) -> u8
        ensures { result ≡ delimiter (as_kind self) }
    {
        match self {
            Kind::Bold => b'*',
            Kind::Italic => b'/',
            Kind::Underline => b'_',
            Kind::Strike => b'~',
        }
    }

    // The kind's bit in a mask of the kinds that are open.
    #[tactic(auto, unfolding(crate::specs::Flat::bit_of))]
    pub fn bit(self) -> u32
        ensures { result ≡ bit_of (kind_number (as_kind self)) }
    {
        match self {
            Kind::Bold => 1,
            Kind::Italic => 2,
            Kind::Underline => 4,
            Kind::Strike => 8,
        }
    }
}
