//! Laws on a bench, as functions that do nothing: each clause is over the definitions alone.

ghost use Rattle.std.specs.Prelude.{◌≡◌, ◌+◌, ◌*◌, ℕ, length};
ghost use Rattle.vs_bench.specs.Texts.{stimulus};
ghost use Rattle.vs_bench.specs.Example.{FilesComputed, LengthsComputed, PathsComputed, StatesComputed, TextsComputed};

/// How many bytes a stimulus has.
pub fn length_law()
    ensures { (lane vectors : ℕ) → length (stimulus lane vectors) ≡ 13 + 35 * vectors }
{}

/// Worked texts and paths of a bench.
pub fn bench_law()
    ensures states { StatesComputed }
    ensures texts { TextsComputed }
    ensures lengths { LengthsComputed }
    ensures paths { PathsComputed }
    ensures files { FilesComputed }
{}
