//! Bracketed forms.

ghost use Rattle.std.specs.Prelude.{◌≡◌};
ghost use Rattle.core_text.specs.Placed.{first_of, place_of, placed, second_of, third_of};

use hol_terms::lists::Text;

/// A form of a text: a word, a numeral or a bracketed list. The last field is the place of its first byte.
#[cycle(sexp)]
#[derive(Drop)]
pub enum Sexp {
    Word(Text, u64),
    Number(u64, u64),
    List(Sexps, u64),
}

/// The members of a list.
#[cycle(sexp)]
pub enum Sexps {
    End,
    More(Box<Sexp>, Box<Sexps>),
}

impl Drop for Sexps {
    #[cycle(sexp)]
    fn drop(mut self) {
        loop {
            match self {
                Sexps::End => return,
                Sexps::More(_, rest) => self = Box::into_inner(rest),
            }
        }
    }
}

impl Sexp {
    /// The place of the first byte, counted in bytes from 0.
    pub fn place(&self) -> u64
        ensures { result ≡ place_of (placed self.now) }
    {
        match self {
            Sexp::Word(_, place) => *place,
            Sexp::Number(_, place) => *place,
            Sexp::List(_, place) => *place,
        }
    }

    /// The first member of a list; any other form stands for itself.
    pub fn first(&self) -> &Sexp
        ensures { placed result.now ≡ first_of (placed self.now) }
    {
        let Sexp::List(all, _) = self else {
            return self;
        };
        let Sexps::More(member, _) = all else {
            return self;
        };
        &**member
    }

    /// The second member of a list; any other form stands for itself.
    pub fn second(&self) -> &Sexp
        ensures { placed result.now ≡ second_of (placed self.now) }
    {
        let Sexp::List(all, _) = self else {
            return self;
        };
        let Sexps::More(_, rest) = all else {
            return self;
        };
        let Sexps::More(member, _) = &**rest else {
            return self;
        };
        &**member
    }

    /// The third member of a list; any other form stands for itself.
    pub fn third(&self) -> &Sexp
        ensures { placed result.now ≡ third_of (placed self.now) }
    {
        let Sexp::List(all, _) = self else {
            return self;
        };
        let Sexps::More(_, rest) = all else {
            return self;
        };
        let Sexps::More(_, rest) = &**rest else {
            return self;
        };
        let Sexps::More(member, _) = &**rest else {
            return self;
        };
        &**member
    }
}
