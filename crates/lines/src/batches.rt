// The items gathered into batches, by number: each a chain from its head on. Heads and nexts are lent beside the items: there is no heap (`chains`).
ghost use Rattle.std.specs.Prelude.{◌≡◌, [], ◌<◌, length, get_or};
ghost use Rattle.lines.specs.Chains.{Rising, batches_of};

use crate::Chain;
use std::marker::Model;

// A clause sees the items of each.
#[derive(Drop)]
pub struct Batches<'a> {
    items: &'a [[u32; 7]],
    heads: &'a [usize],
    nexts: &'a [usize],
}

impl<'a> Model for Batches<'a> {
    ghost use Rattle.std.specs.Prelude.{◌≡◌, List, length};
    ghost use Rattle.lines.specs.declared.measured.Measured.{Measured};
    ghost use Rattle.lines.specs.Chains.{Rising, batches_of};

    ghost Value = { List (List Measured) };

    ghost view = { λ b. batches_of b.items.now b.heads.now b.nexts.now };

    ghost invariant = { λ b. (length b.nexts.now ≡ length b.items.now) × Rising b.nexts.now };
}

impl<'a> Batches<'a> {
    pub fn new(items: &'a [[u32; 7]], heads: &'a [usize], nexts: &'a [usize]) -> Batches<'a>
        requires long { length nexts.now ≡ length items.now }
        requires rising { Rising nexts.now }
        ensures { result ≡ batches_of items.now heads.now nexts.now }
    {
        Batches {
            items,
            heads,
            nexts,
        }
    }

    // The items of batch k.
    pub fn batch(&self, k: usize) -> Chain<'a>
        requires { k < length self.now }
        ensures { result ≡ get_or self.now k [] }
    {
        Chain::new(self.items, self.nexts, self.heads[k])
    }
}
