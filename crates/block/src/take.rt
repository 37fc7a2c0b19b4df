// A support's block of the kept sums, and its right-hand side. A table lists the term number of each reduced place: sums are read at terms, and put at places.
ghost use Rattle.std.specs.Prelude.{◌≡◌, ◌+◌, ◌*◌, ◌<◌, length, set};
ghost use Rattle.steps.specs.Table.{table};
ghost use Rattle.steps.specs.Wrote.{Wrote};
ghost use Rattle.places.specs.Columns.{Names};
ghost use Rattle.sums.specs.Products.{jtj_matrix, jtr_column};
ghost use Rattle.sums.specs.Inner.{damps};
ghost use Rattle.sums.specs.Kept.{kept_size};
ghost use Rattle.block.specs.Listed.{listed_pair, listed_product};

use places::inner::{at_term, term_of};
use slices::inner::put;
use sums::inner::{Damping, damp};
use support::Col;

// A number goes to two reduced places of the block, which has k columns.
fn put_pair(block: &mut [f64], k: usize, p: Col, q: Col, x: f64)
    requires { p.0 * k + q.0 < length block.old }
    ensures { block.new ≡ set block.old (p.0 * k + q.0) x }
{
    put(block, k, p.0, q.0, x);
}

// The kept sums of so many columns at the terms that a table lists.
#[derive(Clone, Copy)]
pub struct Listed<'a> {
    pub cols: usize,
    pub kept: &'a [f64],
    pub terms: &'a [usize],
    pub ghost whole: { length kept.now ≡ kept_size cols },
    pub ghost names: { Names cols (length terms.now) terms.now },
}

impl<'a> Listed<'a> {
    // The pair sum of the terms at two reduced places.
    fn pair_at(self, p: Col, q: Col) -> f64
        requires { (p.0 < length self.terms.now) × (q.0 < length self.terms.now) }
        ensures { result ≡ listed_pair self.entry.cols self.entry.terms.now self.entry.kept.now p.0 q.0 }
    {
        let row = term_of(self.terms, p);
        let term_idx = term_of(self.terms, q);
        at_term(self.kept, self.cols, row.0, term_idx)
    }

    // The target product of the term at a reduced place: the products are one row more behind the pair sums.
    fn product_at(self, p: Col) -> f64
        requires { p.0 < length self.terms.now }
        ensures { result ≡ listed_product self.entry.cols self.entry.terms.now self.entry.kept.now p.0 }
    {
        let term_idx = term_of(self.terms, p);
        at_term(self.kept, self.cols, self.cols, term_idx)
    }

    // Row p of the block.
    fn take_row(self, block: &mut [f64], p: Col)
        requires { (length block.old ≡ length self.terms.now * length self.terms.now) × (p.0 < length self.terms.now) }
        ensures { Wrote (λ q. p.0 * length self.entry.terms.now + q) 0 (length self.entry.terms.now)
            (listed_pair self.entry.cols self.entry.terms.now self.entry.kept.now p.0) block.old block.new }
    {
        let k = self.terms.len();
        for q in 0..k {
            let x = self.pair_at(p, Col(q));
            put_pair(block, k, p, Col(q), x);
        }
    }

    // Every row of the block.
    fn take_rows(self, block: &mut [f64])
        requires { length block.old ≡ length self.terms.now * length self.terms.now }
        ensures { block.new ≡ table (length self.entry.terms.now) (length self.entry.terms.now) (listed_pair self.entry.cols self.entry.terms.now self.entry.kept.now) }
    {
        for p in 0..self.terms.len() {
            self.take_row(block, Col(p));
        }
    }

    // The block, damped.
    pub fn take_block(self, damping: Damping, block: &mut [f64])
        requires { length block.old ≡ length self.terms.now * length self.terms.now }
        ensures { block.new ≡ jtj_matrix (damps damping) (length self.entry.terms.now) (listed_pair self.entry.cols self.entry.terms.now self.entry.kept.now) }
    {
        self.take_rows(block);
        damp(block, self.terms.len(), damping);
    }

    // The right-hand side: at each reduced place the target product of its term.
    pub fn take_side(self, b: &mut [f64])
        requires { length b.old ≡ length self.terms.now }
        ensures { b.new ≡ jtr_column (length self.entry.terms.now) (listed_product self.entry.cols self.entry.terms.now self.entry.kept.now) }
    {
        for (p, x) in b.iter_mut().enumerate() {
            *x = self.product_at(Col(p));
        }
    }
}
