ghost use Rattle.std.specs.Prelude.{◌≡◌, ◌↔◌, [], IsTrue, IfOk};

use marc_types::{NoMemory, Sequence};
use std::alloc::Global;
use std::marker::Model;

/// The numbers of the keys that a field names. Most fields name none, so a list has memory of its own and none takes little.
#[derive(Debug, Drop)]
pub struct KeyNumbers {
    numbers: Option<Box<Sequence<u32>>>,
}

impl Model for KeyNumbers {
    ghost use Rattle.std.specs.Prelude.{List, ℕ};
    ghost use Rattle.wait_table.specs.KeyNumbers.{numbers_in};

    ghost Value = { List ℕ };

    ghost view = { λ k. numbers_in k.numbers };
}

impl KeyNumbers {
    /// No numbers.
    pub fn none() -> KeyNumbers
        ensures { result ≡ [] }
    {
        KeyNumbers { numbers: None }
    }

    /// These numbers.
    pub fn new(alloc: Global, numbers: Sequence<u32>) -> Result<KeyNumbers, NoMemory>
        ensures { IfOk result (λ keys. keys ≡ numbers) }
    {
        if numbers.is_empty() {
            return Ok(KeyNumbers::none());
        }
        let numbers = Box::new(alloc, numbers)?;
        Ok(KeyNumbers {
            numbers: Some(numbers),
        })
    }

    /// Whether there is no number.
    pub fn is_empty(&self) -> bool
        ensures { IsTrue result ↔ (self.now ≡ []) }
    {
        match &self.numbers {
            None => true,
            Some(numbers) => numbers.is_empty(),
        }
    }

    /// The numbers in their order.
    pub fn as_slice(&self) -> &[u32]
        ensures { result.now ≡ self.now }
    {
        match &self.numbers {
            None => &[],
            Some(numbers) => numbers.as_slice(),
        }
    }
}
