//! Tables from names, in the order in which the names came.

ghost use Rattle.std.specs.Prelude.{◌≡◌, ◌+◌, ◌*◌, ◌-◌, ◌<◌, ◌≤◌, ◌^◌, ◌++◌, ◌∷◌, [], None};
ghost use Rattle.std.specs.Prelude.{length, take, IfSome, IfNone, OnOk, OnErr};
ghost use Rattle.name_tables.specs.Table.{AreBytes, IsIndexed, IsLongIndex, IsShortIndex};
ghost use Rattle.name_tables.specs.Table.{added, find, most_short, number, rows};

use std::alloc::{AllocError, Global};
use std::collections::BTreeMap;
use std::marker::Model;

/// The most bytes of a name that is found by its number.
const MOST_SHORT: usize = 7;

/// A table from names to values. Contracts see the list of its entries, in the order in which they
/// came.
///
/// A look-up goes through one of two ordered maps, so that no choice of names makes it slow; no
/// contract speaks of its time. In one of them names of at most seven bytes are numbers, which are
/// compared at once.
#[derive(Drop)]
pub struct NameTable<V> {
    entries: Vec<(Vec<u8>, V)>,
    short: BTreeMap<u64, V>,
    long: BTreeMap<Vec<u8>, V>,
}

impl<V> Model for NameTable<V> {
    ghost use Rattle.name_tables.specs.Table.{Table, IsIndexed, rows};

    ghost Value = { Table V };

    ghost view = { λ t. rows t.entries.items };

    ghost invariant = { λ t. IsIndexed t.short t.long (rows t.entries.items) };
}

/// A number with one more digit of 8 bits, the lowest.
fn with_byte(high: u64, byte: u8) -> u64
    requires { high < 2 ^ 56 }
    ensures { result ≡ byte + 256 * high }
{
    byte as u64 + 256 * high
}

/// The number of a short name, which no other short name has.
fn number_of(name: &[u8]) -> Option<u64>
    ensures short { IfSome result (λ n. (length name.now ≤ most_short) × (n ≡ number name.now)) }
    ensures long { IfNone result (most_short < length name.now) }
    ensures bytes { AreBytes name.now }
{
    if name.len() > MOST_SHORT {
        return None;
    }
    let mut found = 1;
    let mut left = name.len();
    while left > 0 {
        left -= 1;
        found = with_byte(found, name[left]);
    }
    Some(found)
}

impl<V: Copy + Drop> NameTable<V> {
    /// A table with no entries.
    pub fn new(alloc: Global) -> NameTable<V>
        ensures { result ≡ [] }
    {
        NameTable {
            entries: Vec::new(alloc),
            short: BTreeMap::new(alloc),
            long: BTreeMap::new(alloc),
        }
    }

    /// How many entries there are.
    pub fn len(&self) -> usize
        ensures { result ≡ length self.now }
    {
        self.entries.len()
    }

    /// The value of the name.
    pub fn find(&self, name: &[u8]) -> Option<V>
        ensures { result ≡ find name.now self.now }
    {
        match number_of(name) {
            Some(number) => self.short.get(&number).copied(),
            None => self.long.get(name).copied(),
        }
    }

    /// Enters the name with the value, unless the name is there already: then its first value
    /// stays.
    pub fn add(&mut self, alloc: Global, name: &[u8], value: V) -> Result<(), AllocError>
        ensures ok { OnOk result (self.new ≡ added self.old name.now value) }
        ensures err { OnErr result (self.new ≡ self.old) }
    {
        if self.find(name).is_some() {
            return Ok(());
        }
        let key = Vec::from_slice(alloc, name)?;
        match number_of(name) {
            Some(number) => {
                short_entered(&mut self.entries, &mut self.short, number, key, value)
            }
            None => {
                let again = Vec::from_slice(alloc, name)?;
                long_entered(&mut self.entries, &mut self.long, key, again, value)
            }
        }
    }

    /// Takes out all entries but the first `len`.
    pub fn truncate(&mut self, len: usize)
        ensures { self.new ≡ take len self.old }
    {
        while self.entries.len() > len {
            last_out(&mut self.entries, &mut self.short, &mut self.long);
        }
    }
}

/// Enters a short name, which the table does not have, with its number.
fn short_entered<V: Copy + Drop>(
    entries: &mut Vec<(Vec<u8>, V)>,
    short: &mut BTreeMap<u64, V>,
    at: u64,
    key: Vec<u8>,
    value: V,
) -> Result<(), AllocError>
    requires indexed { IsShortIndex short.old (rows entries.old.items) }
    requires bytes { AreBytes key.items }
    requires number { at ≡ number key.items }
    requires absent { find key.items (rows entries.old.items) ≡ None }
    ensures indexed { IsShortIndex short.new (rows entries.new.items) }
    ensures ok { OnOk result
        (rows entries.new.items ≡ rows entries.old.items ++ (key.items, value) ∷ []) }
    ensures err { OnErr result (entries.new.items ≡ entries.old.items) }
{
    entries.reserve(1)?;
    short.insert(at, value)?;
    entries.push((key, value))?;
    Ok(())
}

/// Enters a name that is not short, of which there are two copies, and which the table does not
/// have.
fn long_entered<V: Copy + Drop>(
    entries: &mut Vec<(Vec<u8>, V)>,
    long: &mut BTreeMap<Vec<u8>, V>,
    key: Vec<u8>,
    again: Vec<u8>,
    value: V,
) -> Result<(), AllocError>
    requires indexed { IsLongIndex long.old (rows entries.old.items) }
    requires same { again.items ≡ key.items }
    requires absent { find key.items (rows entries.old.items) ≡ None }
    ensures indexed { IsLongIndex long.new (rows entries.new.items) }
    ensures ok { OnOk result
        (rows entries.new.items ≡ rows entries.old.items ++ (key.items, value) ∷ []) }
    ensures err { OnErr result (entries.new.items ≡ entries.old.items) }
{
    entries.reserve(1)?;
    long.insert(key, value)?;
    entries.push((again, value))?;
    Ok(())
}

/// Takes out the last entry.
fn last_out<V: Copy + Drop>(
    entries: &mut Vec<(Vec<u8>, V)>,
    short: &mut BTreeMap<u64, V>,
    long: &mut BTreeMap<Vec<u8>, V>,
)
    requires { IsIndexed short.old long.old (rows entries.old.items) }
    ensures indexed { IsIndexed short.new long.new (rows entries.new.items) }
    ensures rest { entries.new.items ≡ take (length entries.old.items - 1) entries.old.items }
{
    let Some((name, _)) = entries.pop() else {
        return;
    };
    match number_of(name.as_slice()) {
        Some(number) => {
            short.remove(&number);
        }
        None => {
            long.remove(name.as_slice());
        }
    }
}
