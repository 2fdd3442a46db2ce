// The attached places of a desk in memory.
ghost use Rattle.std.specs.Prelude.{◌≡◌, ℕ, List, [], ◌++◌, None, Some, Bool, true, IsTrue, IfErr, IfOk, IfSome, OnSome, IfNone, OnOk, OnErr, IsSomeAnd, is_ok, if◌then◌else◌, ◌==◌, ◌||◌, ◌&&◌, not, ◌≢◌, min, length, take, drop, string_bytes};
ghost use Rattle.std.specs.Option.{option_map_or};
ghost use Rattle.std.specs.Ordering.{nat_cmp};
ghost use Rattle.std.specs.Str.{bytes_eq};
ghost use Rattle.std.specs.BTreeMap.{get};
ghost use Rattle.vs_desk.specs.declared.desk.Way.TheVariants.{Read, Write};
ghost use Rattle.vs_desk.specs.Desk.{path_in};
ghost use Rattle.vs_desk.specs.Files.{bytes_at, holds_file};
ghost use Rattle.vs_desk.specs.Place.{attached_in};
ghost use Rattle.vs_desk.specs.Tape.{left_on, put_on, put_in, left_first, is_emptied};

use crate::Way;
use crate::files::{Files, copy_file, set_file};
use crate::place::Place;
use crate::tape::Tape;
use std::alloc::{AllocError, Global};
use std::collections::BTreeMap;
use std::collections::btree_map::Entry;

pub(crate) type Tapes = BTreeMap<u32, Place<Tape>>;

/// The bytes that a place starts with: with `Read` a copy of the file's; with `Write` none, and the
/// file is made or emptied. None where there is no file to read or memory runs out.
fn open_file(alloc: Global, files: &mut Files, path: &str, way: Way) -> Option<Vec<u8>>
    ensures found { OnSome result (way ≡ Read → IsTrue (holds_file files.old path.now)) }
    ensures left { IfSome result
        (λ bytes. bytes.items ≡ left_first way (bytes_at files.old path.now)) }
    ensures bytes { OnSome result ((q : List ℕ) →
        bytes_at files.new q ≡ (if is_emptied way path.now q then [] else bytes_at files.old q)) }
    ensures held { OnSome result ((q : List ℕ) →
        holds_file files.new q ≡ (is_emptied way path.now q || holds_file files.old q)) }
    ensures none { IfNone result (files.new.entries ≡ files.old.entries) }
{
    match way {
        Way::Read => copy_file(alloc, files, path),
        Way::Write => {
            let key = String::from_str(alloc, path).ok()?;
            set_file(files, key, Vec::new(alloc)).ok()?;
            Some(Vec::new(alloc))
        }
    }
}

/// Attaches a place to a path, or gives the path back where there is no file to read or memory runs
/// out.
pub(crate) fn attach_tape(
    alloc: Global,
    files: &mut Files,
    tapes: &mut Tapes,
    place: u32,
    path: String,
    way: Way,
) -> Result<(), String>
    requires { get nat_cmp tapes.old place ≡ None }
    ensures attached { OnOk result
        ((p : ℕ) → attached_in tapes.new p
        ≡ (if p == place then Some (record { way = way; path = string_bytes path })
        else attached_in tapes.old p)) }
    ensures left { OnOk result
        ((p : ℕ) → left_on (get nat_cmp tapes.new p)
        ≡ (if p == place then left_first way (bytes_at files.old (string_bytes path))
        else left_on (get nat_cmp tapes.old p))) }
    ensures put { OnOk result
        ((p : ℕ) → put_on (get nat_cmp tapes.new p) ≡ put_on (get nat_cmp tapes.old p)) }
    ensures found { OnOk result (way ≡ Read → IsTrue (holds_file files.old (string_bytes path))) }
    ensures bytes { OnOk result ((q : List ℕ) → bytes_at files.new q
        ≡ (if is_emptied way (string_bytes path) q then [] else bytes_at files.old q)) }
    ensures held { OnOk result ((q : List ℕ) → holds_file files.new q
        ≡ (is_emptied way (string_bytes path) q || holds_file files.old q)) }

    ensures err { OnErr result (tapes.new.entries ≡ tapes.old.entries) }
    ensures err_files { OnErr result (files.new.entries ≡ files.old.entries) }
    ensures path { IfErr result (λ p. string_bytes p ≡ string_bytes path) }
{
    match tapes.entry(place) {
        Ok(Entry::Vacant(vacant)) => match open_file(alloc, files, path.as_str(), way) {
            Some(bytes) => {
                let stream = Tape::new(bytes);
                vacant.insert(Place { way, path, stream });
                Ok(())
            }
            None => Err(path),
        },
        Ok(Entry::Occupied(_)) => unreachable!(),
        Err(_) => Err(path),
    }
}

/// Takes the first bytes left at a place, at most a piece.
pub(crate) fn take_from(tapes: &mut Tapes, place: u32, piece: usize, buf: &mut [u8]) -> usize
    requires { IsSomeAnd (attached_in tapes.old place) (λ a. a.way ≡ Read) }
    ensures count { result
        ≡ min (min piece (length buf.old)) (length (left_on (get nat_cmp tapes.old place))) }
    ensures moved { buf.new
        ≡ take result (left_on (get nat_cmp tapes.old place)) ++ drop result buf.old }
    ensures attached { (p : ℕ) → attached_in tapes.new p ≡ attached_in tapes.old p }
    ensures left { (p : ℕ) → left_on (get nat_cmp tapes.new p) ≡ (if p == place then drop result
        (left_on (get nat_cmp tapes.old p)) else left_on (get nat_cmp tapes.old p)) }
    ensures put { (p : ℕ) → put_on (get nat_cmp tapes.new p) ≡ put_on (get nat_cmp tapes.old p) }
{
    tapes.get_mut(&place).unwrap().stream.take(piece, buf)
}

/// Adds bytes to a file and to a tape, or to neither where memory runs out.
fn put_both(file: &mut Vec<u8>, tape: &mut Tape, bytes: &[u8]) -> Result<(), AllocError>
    ensures file { file.new.items
        ≡ (if is_ok result then file.old.items ++ bytes.now else file.old.items) }
    ensures tape { tape.new.bytes.items
        ≡ (if is_ok result then tape.old.bytes.items ++ bytes.now else tape.old.bytes.items) }
{
    file.reserve(bytes.len())?;
    tape.put(bytes)?;
    file.extend_from_slice(bytes).unwrap();
    Ok(())
}

/// Puts bytes at an attached place and at the end of its file, unless memory runs out.
fn put_on_tape(
    files: &mut Files,
    tapes: &mut Tapes,
    place: u32,
    bytes: &[u8],
) -> Result<(), AllocError>
    requires attached { IsSomeAnd (attached_in tapes.old place) (λ a. a.way ≡ Write) }
    requires held { IsSomeAnd (attached_in tapes.old place)
        (λ a. IsTrue (holds_file files.old a.path)) }
    ensures attached { (p : ℕ) → attached_in tapes.new p ≡ attached_in tapes.old p }
    ensures left { (p : ℕ) → left_on (get nat_cmp tapes.new p) ≡ left_on (get nat_cmp tapes.old p) }
    ensures put { (p : ℕ) → put_on (get nat_cmp tapes.new p) ≡ (if is_ok result && (p == place)
        then put_on (get nat_cmp tapes.old p) ++ bytes.now else put_on (get nat_cmp tapes.old p)) }
    ensures held { (q : List ℕ) → holds_file files.new q ≡ holds_file files.old q }
    ensures bytes { (q : List ℕ) →
        bytes_at files.new q ≡
        (if is_ok result && bytes_eq (path_in (attached_in tapes.old place)) q
        then bytes_at files.old q ++ bytes.now else bytes_at files.old q) }
{
    let attached = tapes.get_mut(&place).unwrap();
    let file = files.get_mut(attached.path.as_str()).unwrap();
    put_both(file, &mut attached.stream, bytes)
}

/// Puts bytes at place 0, the report, or at an attached place and at the end of its file, unless
/// memory runs out.
pub(crate) fn put_to(
    report: &mut Vec<u8>,
    files: &mut Files,
    tapes: &mut Tapes,
    place: u32,
    bytes: &[u8],
) -> Result<(), AllocError>
    requires attached { place ≢ 0 → IsSomeAnd (attached_in tapes.old place) (λ a. a.way ≡ Write) }
    requires held { place ≢ 0 →
        IsSomeAnd (attached_in tapes.old place) (λ a. IsTrue (holds_file files.old a.path)) }
    ensures attached { (p : ℕ) → attached_in tapes.new p ≡ attached_in tapes.old p }
    ensures left { (p : ℕ) → left_on (get nat_cmp tapes.new p) ≡ left_on (get nat_cmp tapes.old p) }
    ensures put { (p : ℕ) →
        put_in report.new.items tapes.new p
        ≡ (if is_ok result && (p == place) then put_in report.old.items tapes.old p
        ++ bytes.now else put_in report.old.items tapes.old p) }
    ensures held { (q : List ℕ) → holds_file files.new q ≡ holds_file files.old q }
    ensures bytes { (q : List ℕ) →
        bytes_at files.new q ≡
        (if is_ok result && (not (place == 0) && bytes_eq (path_in (attached_in tapes.old place)) q)
        then bytes_at files.old q ++ bytes.now else bytes_at files.old q) }
{
    if place == 0 {
        return report.extend_from_slice(bytes);
    }
    put_on_tape(files, tapes, place, bytes)
}
