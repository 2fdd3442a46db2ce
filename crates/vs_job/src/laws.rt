//! Laws on jobs and benches, as functions that do nothing: each clause is over the definitions alone.

ghost use Rattle.std.specs.Prelude.{◌≡◌, ◌+◌, ◌*◌, ℕ, List, None, Some, map, length, slice_get};
ghost use Rattle.vs_desk.specs.Places.{design_place, stimulus_place, waveform_place, other_place};
ghost use Rattle.vs_job.specs.declared.bench.Bench.{Bench};
ghost use Rattle.vs_job.specs.declared.job.Job.{Job};
ghost use Rattle.vs_job.specs.declared.job.Mode.TheVariants.{Run, Check, Queue};
ghost use Rattle.vs_job.specs.Bench.{bench, IsBench};
ghost use Rattle.vs_job.specs.Job.{job, IsJob};
ghost use Rattle.vs_job.specs.Rows.{words, rows};
ghost use Rattle.vs_job.specs.Places.{places, waveforms, same_paths, vcd_path, queue_path, place, PathsDiffer};

/// Every job that words call for keeps its ranges.
pub fn job_law()
    ensures { (words : List (List ℕ)) (j : Job) → job words ≡ Some j → IsJob j }
{}

/// Every bench that words call for keeps its ranges.
pub fn bench_law()
    ensures { (words : List (List ℕ)) (b : Bench) → bench words ≡ Some b → IsBench b }
{}

/// Words that call for a job call for no bench.
pub fn apart_law()
    ensures { (words : List (List ℕ)) (j : Job) → job words ≡ Some j → bench words ≡ None }
{}

/// Which job and which bench each of the worked lines calls for.
pub fn rows_law()
    ensures jobs { map (λ r. job (words r.line)) rows ≡ map (λ r. r.job) rows }
    ensures benches { map (λ r. bench (words r.line)) rows ≡ map (λ r. r.bench) rows }
{}

/// Where no two places have one path, the paths of all places differ pairwise.
pub fn same_paths_law()
    ensures { (j : Job) → same_paths j ≡ None → PathsDiffer (places j) }
{}

/// Which places there are: the design, a stimulus for each lane, a waveform for each in a run and where the event queue
/// runs it, and the further files of the design.
pub fn places_law()
    ensures design { (j : Job) → slice_get (places j) 0 ≡ Some (place design_place j.design) }
    ensures stimulus { (j : Job) (i : ℕ) (path : List ℕ) → slice_get j.stimuli i ≡ Some path
        → slice_get (places j) (1 + i) ≡ Some (place (stimulus_place i) path) }
    ensures vcd { (j : Job) (i : ℕ) (path : List ℕ) → j.mode ≡ Run → slice_get j.stimuli i ≡ Some path
        → slice_get (places j) (1 + length j.stimuli + i) ≡ Some (place (waveform_place i) (vcd_path path)) }
    ensures queue_vcd { (j : Job) (order i : ℕ) (path : List ℕ) → j.mode ≡ Queue order → slice_get j.stimuli i ≡ Some path
        → slice_get (places j) (1 + length j.stimuli + i) ≡ Some (place (waveform_place i) (queue_path path)) }
    ensures other { (j : Job) (i : ℕ) (path : List ℕ) → slice_get j.others i ≡ Some path
        → slice_get (places j) (1 + length j.stimuli + length (waveforms j.mode j.stimuli) + i) ≡ Some (place (other_place i) path) }
    ensures run { (j : Job) → j.mode ≡ Run → length (places j) ≡ 1 + 2 * length j.stimuli + length j.others }
    ensures check { (j : Job) → j.mode ≡ Check → length (places j) ≡ 1 + length j.stimuli + length j.others }
    ensures queue { (j : Job) (order : ℕ) → j.mode ≡ Queue order → length (places j) ≡ 1 + 2 * length j.stimuli + length j.others }
{}
