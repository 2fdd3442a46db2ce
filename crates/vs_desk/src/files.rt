// Files in memory, by path.
ghost use Rattle.std.specs.Prelude.{◌≡◌, ℕ, List, [], ◌++◌, IsTrue, IfSome, OnSome, IfNone, OnOk, OnErr, ◌||◌, vec_len, vec_capacity, ◌+◌, ◌≤◌, if◌then◌else◌, length, string_bytes};
ghost use Rattle.std.specs.Str.{bytes_eq};
ghost use Rattle.vs_desk.specs.Files.{bytes_at, holds_file};

use std::alloc::{AllocError, Global};
use std::collections::BTreeMap;

pub(crate) type Files = BTreeMap<String, Vec<u8>>;

/// A copy of the bytes at a path. None where there is no file or memory runs out.
pub(crate) fn copy_file(alloc: Global, files: &Files, path: &str) -> Option<Vec<u8>>
    ensures held { OnSome result (IsTrue (holds_file files.now path.now)) }
    ensures copied { IfSome result (λ bytes. bytes.items ≡ bytes_at files.now path.now) }
{
    files.get(path)?.to_vec(alloc).ok()
}

/// Makes or replaces a file, unless memory runs out.
pub(crate) fn set_file(files: &mut Files, path: String, bytes: Vec<u8>) -> Result<(), AllocError>
    ensures ok { OnOk result ((q : List ℕ) → bytes_at files.new q
        ≡ (if bytes_eq (string_bytes path) q then bytes.items else bytes_at files.old q)) }
    ensures ok_held { OnOk result ((q : List ℕ) →
        holds_file files.new q ≡ (bytes_eq (string_bytes path) q || holds_file files.old q)) }
    ensures kept { (q : List ℕ) → IsTrue (holds_file files.old q) →
        IsTrue (holds_file files.new q) }
    ensures err { OnErr result (files.new.entries ≡ files.old.entries) }
{
    files.insert(path, bytes)?;
    Ok(())
}
