// The support of a fit: which terms are in it, as a value of 64 bits. Every method is total: a term of 64 or more is in no support.
#![tactic(auto)]

ghost use Rattle.std.specs.Prelude.{◌≡◌};
ghost use Rattle.std.specs.Int.Count.{ones};
ghost use Rattle.support.specs.Word.{has, place as place_of, alone as alone_of, full as full_of, with_term, without_term, term_at};

// A term number: it counts columns of theta.
#[derive(Clone, Copy, Debug, PartialEq, Eq)]
pub struct Term(pub usize);

// A reduced place: it counts columns of the refit.
#[derive(Clone, Copy, Debug, PartialEq, Eq)]
pub struct Col(pub usize);

// Bit j of the word is one exactly if the term j is in the support.
#[derive(Clone, Copy, Debug, PartialEq, Eq)]
pub struct Support(pub u64);

// The word of the term alone: no bit where the term is 64 or more.
fn alone(t: Term) -> u64
    ensures { result ≡ alone_of t.0 }
{
    if t.0 >= 64 {
        return 0;
    }
    1u64 << t.0
}

impl Support {
    // The support with no term.
    pub fn empty() -> Support
        ensures { result.0 ≡ 0 }
    {
        Support(0)
    }

    // The support of every term below n_cols: of all 64 where n_cols is more than 64.
    pub fn full(n_cols: usize) -> Support
        ensures { result.0 ≡ full_of n_cols }
    {
        if n_cols >= 64 {
            return Support(u64::MAX);
        }
        Support((1u64 << n_cols) - 1)
    }

    // The support with the term put in: itself where the term is 64 or more.
    pub fn with(self, t: Term) -> Support
        ensures { result.0 ≡ with_term self.0 t.0 }
    {
        Support(self.0 | alone(t))
    }

    // The support with the term taken out: itself where the term is 64 or more.
    pub fn without(self, t: Term) -> Support
        ensures { result.0 ≡ without_term self.0 t.0 }
    {
        let m = alone(t);
        Support((self.0 | m) ^ m)
    }

    // Whether the term is in the support: never where it is 64 or more.
    pub fn contains(self, t: Term) -> bool
        ensures { result ≡ has self.0 t.0 }
    {
        if t.0 >= 64 {
            return false;
        }
        (self.0 >> t.0) % 2 == 1
    }

    // How many terms are in the support.
    pub fn count(self) -> usize
        ensures { result ≡ ones self.0 }
    {
        self.0.count_ones() as usize
    }

    // How many terms below this one are in the support, its reduced place if it is in: the count of all where the term is 64 or more.
    pub fn place(self, t: Term) -> Col
        ensures { result.0 ≡ place_of self.0 t.0 }
    {
        if t.0 >= 64 {
            return Col(self.count());
        }
        let below = (1u64 << t.0) - 1;
        Col((self.0 & below).count_ones() as usize)
    }

    // The term at a reduced place, the other way round from `place`: the term 64, which no support has, where the place is at or beyond the count.
    pub fn term_at(self, c: Col) -> Term
        ensures { result.0 ≡ term_at self.0 c.0 }
    {
        let mut seen: usize = 0;
        for j in 0..64 {
            if self.contains(Term(j)) {
                if seen == c.0 {
                    return Term(j);
                }
                seen += 1;
            }
        }
        Term(64)
    }
}
