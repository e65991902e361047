ghost use Rattle.std.specs.Prelude.{◌≡◌, []};

use std::alloc::Global;
use std::marker::Model;
use turn_lock::{Book, Entry, NotingBook};

/// The most entries of a book.
const MOST: usize = 4_294_967_295;

/// What a book of numbers replies to a number.
#[derive(Clone, Copy, PartialEq, Eq, Debug)]
pub enum NumberReply {
    Added,
    /// The number is 0.
    Zero,
    /// The book has 4,294,967,295 entries.
    Full,
    NoMemory,
}

/// Numbers that callers gave, none of them 0. Clauses see the list of the entries.
#[derive(Drop)]
pub struct Numbers {
    entries: Vec<Entry<u64, NumberReply>>,
}

impl Model for Numbers {
    ghost use Rattle.std.specs.Prelude.{◌≤◌, ℕ, List, length};
    ghost use Rattle.turn_lock.specs.declared.entry.Entry.{Entry};
    ghost use Rattle.test_lock_book.specs.declared.numbers.NumberReply.{NumberReply};
    ghost use Rattle.test_lock_book.specs.Numbers.{HasNoZero};

    ghost Value = { List (Entry ℕ NumberReply) };

    ghost view = { λ book. book.entries.items };

    ghost invariant = { λ book. (length book.entries.items ≤ 4294967295) × HasNoZero book.entries.items };
}

impl Numbers {
    /// A book without entries.
    pub fn new(alloc: Global) -> Numbers
        ensures { result ≡ [] }
    {
        Numbers {
            entries: Vec::new(alloc),
        }
    }

    /// The entries, from the first.
    pub fn entries(&self) -> &[Entry<u64, NumberReply>]
        ensures { result.now ≡ self.now }
    {
        self.entries.as_slice()
    }
}

impl Book for Numbers {
    ghost use Rattle.std.specs.Prelude.{length};
    ghost use Rattle.test_lock_book.specs.Numbers.{is_added, Gives, number_at, HasNoZero};

    type Event = u64;

    type Reply = NumberReply;

    type Query = usize;

    type Answer = Option<u64>;

    type About = ();

    ghost log = { λ book. book };

    ghost about = { λ _. tt };

    ghost accepts = { is_added };

    ghost gives = { λ _ log _ number reply. Gives log number reply };

    ghost says = { λ _ log place answer. answer ≡ number_at log place };

    ghost fits = { λ _. HasNoZero };

    fn apply(&mut self, caller: u32, event: u64) -> NumberReply {
        if event == 0 {
            return NumberReply::Zero;
        }
        if self.entries.len() >= MOST {
            return NumberReply::Full;
        }
        if self.entries.reserve(1).is_err() {
            return NumberReply::NoMemory;
        }
        let reply = NumberReply::Added;
        self.entries.push_reserved(Entry {
            caller,
            event,
            reply,
        });
        reply
    }

    fn ask(&self, query: usize) -> Option<u64> {
        match self.entries.get(query) {
            Some(entry) => Some(entry.event),
            None => None,
        }
    }

    fn len(&self) -> u64 {
        self.entries.len() as u64
    }
}

/// A number needs no parts, and a note of a reply is the reply.
impl NotingBook<()> for Numbers {
    type Note = NumberReply;

    type Head = u64;

    ghost noted = { λ reply. reply };

    ghost whole = { λ number _. number };

    fn note(&mut self, caller: u32, head: u64, _parts: &()) -> NumberReply {
        self.apply(caller, head)
    }
}
