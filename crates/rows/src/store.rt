// How rows are written. What holds of rows is owed after each write to them, so what belongs together is written through one loan.
ghost use Rattle.std.specs.Prelude.{◌≡◌, ◌*◌, ◌<◌, ◌≤◌, if◌then◌else◌, length};
ghost use Rattle.std.specs.List.{SwappedAt};
ghost use Rattle.gmap.specs.Acts.{tied, untied};
ghost use Rattle.gmap.specs.Map.{Free, Same};
ghost use Rattle.rows.specs.Changes.{FreeOrPartners};
ghost use Rattle.rows.specs.Meaning.{map_of};
ghost use Rattle.rows.specs.Numbers.{Filled};

use crate::rows::{Rows, VACANT};
use gmap::store::Store;

impl<'a> Store for Rows<'a> {
    fn mark(&mut self, t: u16, live: bool) {
        let v = number(t, live);
        fill(&mut *self.numbers, self.top + 1, self.size, t, v);
    }

    fn link(&mut self, i: u16, t: u16, u: u16) {
        self.exchange(i, t, u);
    }

    fn unlink(&mut self, i: u16, t: u16, u: u16) {
        self.exchange(i, t, u);
    }
}

impl Rows<'_> {
    // Exchanges the partners of t and u in switch i: free tuples become partners, and partners become free.
    fn exchange(&mut self, i: u16, t: u16, u: u16)
        requires { FreeOrPartners (map_of self.old) i t u }
        ensures free { (Free (map_of self.old) i t) × (Free (map_of self.old) i u) → Same (map_of self.new) (tied (map_of self.old) i t u) }
        ensures partners { (map_of self.old).partner i t ≡ u → Same (map_of self.new) (untied (map_of self.old) i t) }
    {
        let p = self.place(i, t);
        let q = self.place(i, u);
        swap(&mut *self.numbers, p, q);
    }
}

// Exchanges two numbers. The library's swap tests first which of the two places comes before the other, and tuples that are tied come in no order.
fn swap(numbers: &mut [u16], p: usize, q: usize)
    requires { (p < length numbers.old) × (q < length numbers.old) }
    ensures len { length numbers.new ≡ length numbers.old }
    ensures by_index { SwappedAt numbers.old numbers.new p q }
{
    let number = numbers[p];
    numbers[p] = numbers[q];
    numbers[q] = number;
}

// The number of a slot that is free in every switch: its own if it is live.
fn number(t: u16, live: bool) -> u16
    ensures { result ≡ if live then t else 65535 }
{
    if live { t } else { VACANT }
}

// Writes v for slot t in each of the first rows.
fn fill(numbers: &mut [u16], rows: u16, size: u16, t: u16, v: u16)
    requires { (rows * size ≤ length numbers.old) × (t < size) }
    ensures { Filled rows size t v numbers.old numbers.new }
{
    // By index: in a loop over chunks_exact_mut a proof's invariant has no numbers to speak of.
    for i in 0..rows {
        numbers[i as usize * size as usize + t as usize] = v;
    }
}
