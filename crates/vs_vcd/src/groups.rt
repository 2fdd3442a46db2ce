//! Numbers in groups.

ghost use Rattle.std.specs.Prelude.{◌≡◌, ◌≤◌, ◌<◌, ◌^◌, ◌+◌, length, IfOk, None, slice_index_or};
ghost use Rattle.vs_vcd.specs.Groups.{AreLinked, AreLinkedFrom};

use std::alloc::{AllocError, Global};

/// The numbers 0, 1, .. in groups: the first number of each group, and after each number the next one of its group.
#[derive(Drop)]
pub(crate) struct Groups {
    first: Vec<Option<u32>>,
    next: Vec<Option<u32>>,
}

impl Groups {
    /// So many groups. The key of a number is its group, if it has one.
    pub(crate) fn of(
        alloc: Global,
        groups: usize,
        keys: &[Option<u32>],
    ) -> Result<Groups, AllocError>
        requires { length keys.now ≤ 2 ^ 32 }
        ensures { IfOk result (λ g. AreLinked groups keys.now g.first.items g.next.items) }
    {
        let mut linked = Groups {
            first: vec![in alloc; None; groups]?,
            next: vec![in alloc; None; keys.len()]?,
        };
        let mut place = keys.len();
        while place > 0 {
            place -= 1;
            linked.link(keys, place);
        }
        Ok(linked)
    }

    /// Puts a number in front of its group.
    fn link(&mut self, keys: &[Option<u32>], number: usize)
        requires within { number < length keys.now }
        requires few { length keys.now ≤ 2 ^ 32 }
        requires later { AreLinkedFrom (number + 1) (length self.old.first.items) keys.now self.old.first.items self.old.next.items }
        ensures linked { AreLinkedFrom number (length self.old.first.items) keys.now self.new.first.items self.new.next.items }
    {
        if let Some(group) = keys[number] {
            if (group as usize) < self.first.len() {
                self.next[number] = self.first[group as usize];
                self.first[group as usize] = Some(number as u32);
            }
        }
    }

    /// The first number of a group.
    pub(crate) fn first(&self, group: usize) -> Option<u32>
        requires { group < length self.now.first.items }
        ensures { result ≡ slice_index_or self.now.first.items group None }
    {
        self.first[group]
    }

    /// The next number of its group.
    pub(crate) fn next(&self, number: u32) -> Option<u32>
        requires { number < length self.now.next.items }
        ensures { result ≡ slice_index_or self.now.next.items number None }
    {
        self.next[number as usize]
    }
}
