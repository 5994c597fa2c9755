// The items of a batch in their order, at work: a chain from row to row, where beside each row stands the next of its batch. An item that
// lacks a contribution takes no part: the chain passes over it. The places of the next are lent: there is no heap.
ghost use Rattle.std.specs.Prelude.{◌≡◌, eqb, length};
ghost use Rattle.std.specs.Iterator.{YieldsFirst, item_count};
ghost use Rattle.lines.specs.Chains.{Rising, chained};

use crate::Measured;
use kinds::Item;
use std::marker::Model;

// A clause sees the items that are left.
#[derive(Drop)]
pub struct Chain<'a> {
    items: &'a [[u32; 7]],
    nexts: &'a [usize],
    next: usize,
}

impl<'a> Model for Chain<'a> {
    ghost use Rattle.std.specs.Prelude.{◌≡◌, List, length};
    ghost use Rattle.lines.specs.declared.measured.Measured.{Measured};
    ghost use Rattle.lines.specs.Chains.{Rising, chained};

    ghost Value = { List Measured };

    ghost view = { λ c. chained c.items.now c.nexts.now c.next };

    ghost invariant = { λ c. (length c.nexts.now ≡ length c.items.now) × Rising c.nexts.now };
}

impl<'a> Chain<'a> {
    pub fn new(items: &'a [[u32; 7]], nexts: &'a [usize], first: usize) -> Chain<'a>
        requires long { length nexts.now ≡ length items.now }
        requires rising { Rising nexts.now }
        ensures { result ≡ chained items.now nexts.now first }
    {
        Chain {
            items,
            nexts,
            next: first,
        }
    }

    // Whether no item takes part.
    pub fn is_empty(&self) -> bool
        ensures { result ≡ eqb (length self.now) 0 }
    {
        self.walk().next().is_none()
    }

    // The same items once more.
    pub fn walk(&self) -> Chain<'a>
        ensures { result ≡ self.now }
    {
        Chain {
            items: self.items,
            nexts: self.nexts,
            next: self.next,
        }
    }
}

impl<'a> Iterator for Chain<'a> {
    type Item = Measured;

    ghost next_gives = { YieldsFirst (λ rest. rest) };

    ghost remaining = { item_count (λ rest. rest) };

    fn next(&mut self) -> Option<Measured> {
        // An item leads to any later row, so that no `for` goes along.
        while self.next < self.items.len() {
            let item = Item::of_row(self.items[self.next]);
            self.next = self.nexts[self.next];
            if let Some(measured) = Measured::complete(item) {
                return Some(measured);
            }
        }
        None
    }
}
