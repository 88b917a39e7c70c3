// An argument of a request: an owned byte string.
ghost use Rattle.std.specs.Prelude.{◌≡◌, ◌<◌, ◌≤◌, length, take, slice_range, nat_eq, refl, Some, IfOk, IfSome, OnErr};
ghost use Rattle.std.specs.Ordering.{nat_cmp};
ghost use Rattle.std.specs.Fmt.{debug_list, decimal};
ghost use Rattle.std.specs.Hash as fed;
ghost use Rattle.std.specs.Cmp.Lexicographic.{pointwise, slice_cmp, nat_list_eq_equiv, nat_list_cmp_total, texts_ties};
ghost use Rattle.std.specs.Cmp.Lexicographic.{texts_po};
ghost use Rattle.std.specs.Cmp.{partial_equiv_from_equiv};
ghost use Rattle.std.specs.Cmp.Rules.{hashing};
ghost use Rattle.std.proofs.Common.{rules};

use crate::order::order;
use std::alloc::{AllocError, Global};
use std::cmp::Ordering;
use std::fmt;
use std::hash::{Hash, Hasher};
use std::marker::Model;

// The longest argument stored inline, in bytes.
const SHORT: usize = 30;

// Short arguments are stored inline, longer ones on the heap.
#[derive(Drop)]
enum Storage {
    // The argument is the first `len` bytes of the array.
    Short {
        alloc: Global,
        len: u8,
        bytes: [u8; SHORT],
    },
    Long(Vec<u8>),
}

/// An argument of a request: a byte string. Compares, orders and hashes by its bytes.
#[derive(Drop)]
pub struct Word {
    held: Storage,
}

impl Model for Word {
    ghost use Rattle.std.specs.Prelude.{List, ℕ};
    ghost use Rattle.ts_resp.specs.Words.{held_bytes, IsHeld};

    ghost Value = { List ℕ };

    ghost view = { λ w. held_bytes w.held };

    ghost invariant = { λ w. IsHeld w.held };
}

impl Word {
    /// Copies bytes into an argument. Up to 30 bytes need no allocation.
    #[inline]
    pub fn from_slice(alloc: Global, bytes: &[u8]) -> Result<Word, AllocError>
        ensures bytes { IfOk result (λ w. w ≡ bytes.now) }
        ensures long { OnErr result (30 < length bytes.now) }
    {
        if bytes.len() <= SHORT {
            return Ok(Word::short(alloc, bytes));
        }
        let bytes = Vec::from_slice(alloc, bytes)?;
        Ok(Word {
            held: Storage::Long(bytes),
        })
    }

    // Fast path for a short argument that is followed by more bytes: copies 30 bytes at once and keeps the length.
    // That is faster than copying a variable number of bytes.
    #[inline]
    pub(crate) fn short_part(alloc: Global, bytes: &[u8], start: usize, end: usize) -> Option<Word>
        requires { (start ≤ end) × (end ≤ length bytes.now) }
        ensures { IfSome result (λ w. w ≡ slice_range bytes.now start end) }
    {
        if end - start <= SHORT
            && let Some(room) = bytes[start..].first_chunk::<SHORT>()
        {
            return Some(Word::filled(alloc, (end - start) as u8, *room));
        }
        None
    }

    // The first `len` bytes of an inline array.
    #[inline]
    fn filled(alloc: Global, len: u8, bytes: [u8; SHORT]) -> Word
        requires { len ≤ 30 }
        ensures { result ≡ take len bytes }
    {
        Word {
            held: Storage::Short { alloc, len, bytes },
        }
    }

    // An inline argument.
    #[inline]
    fn short(alloc: Global, bytes: &[u8]) -> Word
        requires { length bytes.now ≤ 30 }
        ensures { result ≡ bytes.now }
    {
        let mut room = [0; SHORT];
        room[..bytes.len()].copy_from_slice(bytes);
        Word::filled(alloc, bytes.len() as u8, room)
    }

    /// A copy. Up to 30 bytes need no allocation.
    pub fn copy(&self) -> Result<Word, AllocError>
        ensures bytes { IfOk result (λ w. w ≡ self.now) }
        ensures long { OnErr result (30 < length self.now) }
    {
        Word::from_slice(self.allocator(), self.bytes())
    }

    // The allocator of this argument.
    fn allocator(&self) -> Global {
        match &self.held {
            Storage::Short { alloc, .. } => *alloc,
            Storage::Long(bytes) => *bytes.allocator(),
        }
    }

    /// The bytes.
    #[inline]
    pub fn bytes(&self) -> &[u8]
        ensures { result.now ≡ self.now }
    {
        match &self.held {
            Storage::Short { len, bytes, .. } => &bytes[..*len as usize],
            Storage::Long(bytes) => bytes.as_slice(),
        }
    }
}

impl PartialEq for Word {
    ghost eq = { pointwise nat_eq };

    ghost laws = { partial_equiv_from_equiv nat_list_eq_equiv };

    fn eq(&self, other: &Self) -> bool {
        self.bytes() == other.bytes()
    }
}

impl Eq for Word {
    ghost laws = { nat_list_eq_equiv };
}

impl PartialOrd for Word {
    ghost partial_cmp = { λ x y. Some (slice_cmp nat_cmp x y) };

    ghost laws = { texts_po };

    fn partial_cmp(&self, other: &Self) -> Option<Ordering> {
        Some(self.cmp(other))
    }
}

impl Ord for Word {
    ghost cmp = { slice_cmp nat_cmp };

    ghost total = { nat_list_cmp_total };

    ghost matches_partial_cmp = { λ x y. refl };

    ghost matches_eq = { texts_ties };

    fn cmp(&self, other: &Self) -> Ordering {
        order(self.bytes(), other.bytes())
    }
}

impl Hash for Word {
    ghost hash_input = { fed.slice fed.u8 };

    ghost respects_eq = { Prim.search (hashing, rules) };

    fn hash<H: Hasher>(&self, state: &mut H) {
        self.bytes().hash(state);
    }
}

impl fmt::Debug for Word {
    ghost debug_output = { debug_list (λ byte. Some (decimal byte)) };

    fn fmt<W: fmt::Write>(&self, f: &mut fmt::Formatter<W>) -> fmt::Result {
        self.bytes().fmt(f)
    }
}
