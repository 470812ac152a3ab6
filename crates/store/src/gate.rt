//! The gate of a store, and the drafts that it hands out.
ghost use Rattle.std.specs.Prelude.{◌≡◌, true, false};
ghost use Rattle.base.specs.Refusals.{reported};
ghost use Rattle.store.specs.Stores.{passed, passed_report};

use base::refusal::Refusal;
use std::marker::PhantomData;

/// Lets nodes into a store of the kind `S`: open from when a draft is handed out until one is taken back. Making
/// one takes a mark of the kind, so only its store can, where the mark's field is private.
#[derive(Drop)]
pub struct Gate<S> {
    is_open: bool,
    mark: S,
}

/// A draft of a store of the kind `S`, and of no other: only a gate of that kind makes one, and takes it back, and it is no
/// `Drop`.
pub struct Draft<S> {
    of: PhantomData<S>,
}

impl<S> Gate<S> {
    /// A closed gate.
    pub fn new(mark: S) -> Gate<S>
        ensures closed { result.is_open ≡ false }
    {
        Gate {
            is_open: false,
            mark,
        }
    }

    /// Opens, and hands out a draft; where it is open already, a further one.
    pub fn open(&mut self) -> Draft<S>
        ensures left { self.new.is_open ≡ true }
    {
        self.is_open = true;
        Draft { of: PhantomData }
    }

    /// Lets a draft's node in: 25 where it is closed.
    pub fn pass(&self, _draft: &Draft<S>) -> Result<(), Refusal>
        ensures answer { result ≡ passed self.now.is_open }
        ensures report { reported result ≡ passed_report self.now.is_open }
    {
        if self.is_open {
            Ok(())
        } else {
            Err(Refusal::StoreClosed)
        }
    }

    /// Takes a draft back and closes: 25 where it is closed already. The draft is gone either way.
    pub fn close(&mut self, draft: Draft<S>) -> Result<(), Refusal>
        ensures answer { result ≡ passed self.old.is_open }
        ensures report { reported result ≡ passed_report self.old.is_open }
        ensures left { self.new.is_open ≡ false }
    {
        let passed = self.pass(&draft);
        let Draft { of: _ } = draft;
        self.is_open = false;
        passed
    }

    /// Whether it is open.
    pub fn is_open(&self) -> bool
        ensures answer { result ≡ self.now.is_open }
    {
        self.is_open
    }
}
