// The list of exceptions in memory.
ghost use Rattle.std.specs.Prelude.{◌≡◌, ◌≤◌, [], ◌∷◌, ◌++◌, length, take, is_ok, IfOk, if◌then◌else◌, vec_len, vec_capacity, nat_le};
ghost use Rattle.exceptions.specs.Table.{Below, olds, news, entries_at_most, push_test, lookup, has_new};

use crate::fault::TableFault;
use crate::search::{Keyed, find};
use layout::Exception;
use std::alloc::{AllocError, Global};

const LIMIT: usize = 2048;

// The two numbers that exceptions are found by.
#[derive(Drop)]
pub struct Old;

#[derive(Drop)]
pub struct New;

impl Keyed<Old> for Exception {
    ghost keyed = { λ e. e.old };

    fn key(&self) -> u64 {
        self.old
    }
}

impl Keyed<New> for Exception {
    ghost keyed = { λ e. e.new };

    fn key(&self) -> u64 {
        self.new
    }
}

// Exceptions in their order, 2,048 at most, with numbers of 32 bits. The memory for all of them is taken when the table is made.
#[derive(Drop)]
pub struct ExceptionTable {
    items: Vec<Exception>,
    ghost few: { vec_len items ≤ 2048 },
    ghost reserved: { 2048 ≤ vec_capacity items },
    ghost oldbits: { Below olds items.items },
    ghost newbits: { Below news items.items },
}

impl ExceptionTable {
    ghost use Rattle.exceptions.specs.Listed.{listed};

    pub fn new(heap: Global) -> Result<ExceptionTable, AllocError>
        ensures { IfOk result (λ t. listed t ≡ []) }
    {
        let items = Vec::with_capacity(heap, LIMIT)?;
        Ok(ExceptionTable { items })
    }

    pub fn len(&self) -> usize
        ensures { result ≡ length (listed self.now) }
    {
        self.items.len()
    }

    // Whether the table holds as many as it can.
    pub fn is_full(&self) -> bool
        ensures { result ≡ nat_le entries_at_most (length (listed self.now)) }
    {
        LIMIT <= self.items.len()
    }

    pub fn as_slice(&self) -> &[Exception]
        ensures { result.now ≡ listed self.now }
    {
        self.items.as_slice()
    }

    // Adds one at the end, unless the table is full or a number has more than 32 bits.
    pub fn push(&mut self, e: Exception) -> Result<(), TableFault>
        ensures answer { result ≡ push_test (listed self.old) e }
        ensures list { listed self.new ≡ (if is_ok result then listed self.old ++ (e ∷ []) else listed self.old) }
    {
        if self.is_full() {
            return Err(TableFault::Full);
        }
        if e.old.max(e.new) > u64::from(u32::MAX) {
            return Err(TableFault::TooWide);
        }
        self.items.push_reserved(e);
        Ok(())
    }

    // Keeps the first `n`.
    pub fn truncate(&mut self, n: usize)
        ensures { listed self.new ≡ take n (listed self.old) }
    {
        self.items.truncate(n);
    }

    pub fn clear(&mut self)
        ensures { listed self.new ≡ [] }
    {
        self.items.clear();
    }

    // The chunk that has the copy of an old chunk, or nothing where no copy exists.
    pub fn lookup(&self, old: u64) -> Option<u64>
        ensures { result ≡ lookup (listed self.now) old }
    {
        let i = find::<Old, Exception>(&self.items, old)?;
        Some(self.items[i].new)
    }

    // Whether a new chunk is taken.
    pub fn holds_new(&self, new: u64) -> bool
        ensures { result ≡ has_new (listed self.now) new }
    {
        find::<New, Exception>(&self.items, new).is_some()
    }
}
