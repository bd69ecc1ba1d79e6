//! The order of tiles.
ghost use Rattle.std.specs.Prelude.{◌≡◌, ◌<◌, ◌^◌, length, map, IfOk, IfSome};
ghost use Rattle.std.specs.List.{AllByRecursion};
ghost use Rattle.tile_place.specs.declared.order_key.OrderKey as key;
ghost use Rattle.tile_place.specs.Keys.{key_of};
ghost use Rattle.window_cover.specs.Covered.{tile_of};
ghost use Rattle.window_cover.specs.Keys.{HasKey, keys_from, AreOrdered};
ghost use Rattle.window_cover.specs.Runs.{AreRuns, seen};
ghost use Rattle.window_cover.specs.Words.{HoldAll, words_from, tile_number};

use crate::fields::Fields;
use crate::passes::sort_words;
use crate::runs::Runs;
use std::alloc::Global;
use tile_place::order_key::OrderKey;
use tile_shape::no_memory::NoMemory;

impl Runs {
    /// Returns a word for each tile, with its number in the low bits, ordered by shift, then turn, then kind.
    /// Tiles with the same place and kind are in the order of their numbers.
    pub(crate) fn ordered(&self, alloc: Global) -> Result<Vec<u64>, NoMemory>
        requires runs { AreRuns self.now }
        ensures keyed { AllByRecursion HasKey (seen self.now) }
        ensures ordered { IfOk result (λ words. AreOrdered (seen self.now) (map tile_number words.items)) }
    {
        match self.fields() {
            Some(fields) => self.ordered_by_words(alloc, &fields),
            None => self.ordered_by_keys(alloc),
        }
    }

    /// Like [`ordered`](Self::ordered), by words that are ordered like the tiles.
    fn ordered_by_words(&self, alloc: Global, fields: &Fields) -> Result<Vec<u64>, NoMemory>
        requires runs { AreRuns self.now }
        requires hold { HoldAll fields.now (seen self.now) }
        ensures keyed { AllByRecursion HasKey (seen self.now) }
        ensures ordered { IfOk result (λ words. AreOrdered (seen self.now) (map tile_number words.items)) }
    {
        let mut words = self.words(alloc, fields)?;
        sort_words(alloc, words.as_mut_slice());
        Ok(words)
    }

    /// Like [`ordered`](Self::ordered), by keys, for tiles whose words would be longer than 64 bits.
    fn ordered_by_keys(&self, alloc: Global) -> Result<Vec<u64>, NoMemory>
        requires runs { AreRuns self.now }
        ensures keyed { AllByRecursion HasKey (seen self.now) }
        ensures ordered { IfOk result (λ words. AreOrdered (seen self.now) (map tile_number words.items)) }
    {
        let mut keys = self.keys(alloc)?;
        keys.sort_unstable();
        numbers_in_keys(alloc, keys.as_slice())
    }

    /// Returns the fields of the tiles' words, or None if there are no tiles, if a tile may be too far, or if a
    /// word needs more than 64 bits.
    fn fields(&self) -> Option<Fields>
        requires runs { AreRuns self.now }
        ensures { IfSome result (λ fields. HoldAll fields (seen self.now)) }
    {
        let fields = self.leaves.fields()?.moved(&self.shifts()?)?;
        if fields.fit() { Some(fields) } else { None }
    }

    /// Returns the words of the tiles, in the order of their numbers.
    fn words(&self, alloc: Global, fields: &Fields) -> Result<Vec<u64>, NoMemory>
        requires runs { AreRuns self.now }
        requires hold { HoldAll fields.now (seen self.now) }
        ensures keyed { AllByRecursion HasKey (seen self.now) }
        ensures few { length (seen self.now) < 2 ^ 18 }
        ensures words { IfOk result (λ words. words.items ≡ words_from fields.now 0 (seen self.now)) }
    {
        let count = self.len();
        let mut words = Vec::with_capacity(alloc, count)?;
        for number in 0..count {
            let (motion, kind) = self.place(number);
            words.push(fields.word(&motion, kind, number as u32))?;
        }
        Ok(words)
    }

    /// Returns the keys of the tiles, in the order of their numbers.
    fn keys(&self, alloc: Global) -> Result<Vec<OrderKey>, NoMemory>
        requires runs { AreRuns self.now }
        ensures keyed { AllByRecursion HasKey (seen self.now) }
        ensures few { length (seen self.now) < 2 ^ 18 }
        ensures keys { IfOk result (λ keys. keys.items ≡ keys_from 0 (seen self.now)) }
    {
        let count = self.len();
        let mut keys = Vec::with_capacity(alloc, count)?;
        for number in 0..count {
            let (motion, kind) = self.place(number);
            keys.push(OrderKey::of(&motion, kind, number as u32))?;
        }
        Ok(keys)
    }
}

/// Returns the numbers of the tiles, in the order of the keys.
fn numbers_in_keys(alloc: Global, keys: &[OrderKey]) -> Result<Vec<u64>, NoMemory>
    ensures { IfOk result (λ numbers. numbers.items ≡ map (λ (k : key.OrderKey). k.number) keys.now) }
{
    let mut numbers = Vec::with_capacity(alloc, keys.len())?;
    for key in keys {
        numbers.push(u64::from(key.number))?;
    }
    Ok(numbers)
}
