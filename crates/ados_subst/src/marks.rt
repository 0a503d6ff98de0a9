// The characters of directives and of references.
ghost use Rattle.std.specs.Prelude.{◌≡◌};
ghost use Rattle.ados_subst.specs.Marks.{first_marks, with_mark};

/// The characters of directives and of references.
#[derive(Clone, Copy)]
pub struct Marks {
    /// It begins a reference.
    pub bra: u8,
    /// It ends a reference.
    pub ket: u8,
    /// In a reference it comes before the text for an option that was not given.
    pub dollar: u8,
    /// It begins a directive.
    pub dot: u8,
}

/// One of these characters.
#[derive(Clone, Copy)]
pub enum Mark {
    /// The one that begins a reference.
    Bra,
    /// The one that ends a reference.
    Ket,
    /// The one before the text for an option that was not given.
    Dollar,
    /// The one that begins a directive.
    Dot,
}

impl Marks {
    /// `<`, `>`, `$` and `.`.
    pub fn first() -> Marks
        ensures { result ≡ first_marks }
    {
        Marks {
            bra: b'<',
            ket: b'>',
            dollar: b'$',
            dot: b'.',
        }
    }

    /// The marks with another character for one of them.
    pub fn with(self, mark: Mark, byte: u8) -> Marks
        ensures { result ≡ with_mark mark byte self }
    {
        match mark {
            Mark::Bra => Marks { bra: byte, ..self },
            Mark::Ket => Marks { ket: byte, ..self },
            Mark::Dollar => Marks {
                dollar: byte,
                ..self
            },
            Mark::Dot => Marks { dot: byte, ..self },
        }
    }
}
