//! A block of a text's bytes, filled from a desk.

ghost use Rattle.std.specs.Prelude.{◌≡◌, ◌≢◌, ◌+◌, ◌<◌, ◌≤◌, [], ◌∷◌, ◌++◌, drop, length, IsTrue, IfOk, OnOk, OnErr, IfNone, IfSome};
ghost use Rattle.vs_desk.specs.Desk.{IsAttached, Fails};
ghost use Rattle.vs_desk.specs.declared.desk.Way.TheVariants.{Read};
ghost use Rattle.vs_desk.specs.Taking.{OnlyTaken};

use std::alloc::{AllocError, Global};
use std::marker::Model;
use vs_desk::{Desk, Failed};

/// The bytes that were taken and not yet read. Contracts see them as a list.
#[derive(Drop)]
pub(crate) struct Block {
    bytes: Vec<u8>,
    next: usize,
    end: usize,
}

impl Model for Block {
    ghost use Rattle.std.specs.Prelude.{List, ℕ, ◌-◌, ◌<◌, ◌≤◌, drop, take, length};

    ghost Value = { List ℕ };

    ghost view = { λ b. drop b.next (take b.end b.bytes.items) };

    ghost invariant = { λ b. (0 < length b.bytes.items) × (b.next ≤ b.end) × (b.end ≤ length b.bytes.items) };
}

impl Block {
    /// How many bytes a block has room for.
    const ROOM: usize = 4096;

    /// A block without bytes.
    pub(crate) fn new(alloc: Global) -> Result<Block, AllocError>
        ensures { IfOk result (λ block. block ≡ []) }
    {
        Ok(Block {
            bytes: vec![in alloc; 0; Block::ROOM]?,
            next: 0,
            end: 0,
        })
    }

    /// The first byte, if there is one.
    pub(crate) fn first(&self) -> Option<u8>
        ensures none { IfNone result (self.now ≡ []) }
        ensures some { IfSome result (λ byte. self.now ≡ byte ∷ drop 1 self.now) }
    {
        if self.next < self.end {
            Some(self.bytes[self.next])
        } else {
            None
        }
    }

    /// The bytes, in order.
    pub(crate) fn as_slice(&self) -> &[u8]
        ensures { result.now ≡ self.now }
    {
        &self.bytes[self.next..self.end]
    }

    /// Drops so many bytes.
    pub(crate) fn skip(&mut self, count: usize)
        requires { count ≤ length self.old }
        ensures { self.new ≡ drop count self.old }
    {
        self.next += count;
    }

    /// Takes bytes from the place.
    fn fill<D: Desk>(&mut self, desk: &mut D, place: u32) -> Result<(), Failed>
        requires empty { self.old ≡ [] }
        requires attached { IsAttached (D.told desk.old).register place Read }
        ensures same { OnOk result ((D.told desk.new).register ≡ (D.told desk.old).register) }
        ensures failed { OnErr result (Fails (D.told desk.old).register (D.told desk.new).register place (D.told desk.old).register.asked) }
        ensures none { OnErr result (self.new ≡ []) }
        ensures ahead { IsTrue D.tells → self.new ++ (D.told desk.new).contents.left place ≡ (D.told desk.old).contents.left place }
        ensures end { IsTrue D.tells → OnOk result (self.new ≡ [] → (D.told desk.old).contents.left place ≡ []) }
        ensures others { IsTrue D.tells → OnlyTaken place (D.told desk.old).contents (D.told desk.new).contents }
    {
        self.next = 0;
        self.end = 0;
        self.end = desk.take(place, &mut self.bytes)?;
        Ok(())
    }

    /// The first byte that is left, in the block or on the desk. Bytes are taken only where the
    /// block has none.
    pub(crate) fn peek<D: Desk>(&mut self, desk: &mut D, place: u32) -> Result<Option<u8>, Failed>
        requires { IsAttached (D.told desk.old).register place Read }
        ensures same { OnOk result ((D.told desk.new).register ≡ (D.told desk.old).register) }
        ensures failed { OnErr result (Fails (D.told desk.old).register (D.told desk.new).register place (D.told desk.old).register.asked) }
        ensures ahead { IsTrue D.tells → self.new ++ (D.told desk.new).contents.left place ≡ self.old ++ (D.told desk.old).contents.left place }
        ensures empty { OnErr result ((self.old ≡ []) × (self.new ≡ [])) }
        ensures none { IfOk result (λ byte. IfNone byte (self.new ≡ [])) }
        ensures none_before { IfOk result (λ byte. IfNone byte (self.old ≡ [])) }
        ensures end { IsTrue D.tells → IfOk result (λ byte. IfNone byte ((D.told desk.new).contents.left place ≡ [])) }
        ensures some { IfOk result (λ byte. IfSome byte (λ b. self.new ≡ b ∷ drop 1 self.new)) }
        ensures others { IsTrue D.tells → OnlyTaken place (D.told desk.old).contents (D.told desk.new).contents }
        ensures frugal { self.old ≢ [] → (desk.new ≡ desk.old) × (self.new ≡ self.old) }
    {
        if let Some(byte) = self.first() {
            return Ok(Some(byte));
        }
        self.fill(desk, place)?;
        Ok(self.first())
    }
}
