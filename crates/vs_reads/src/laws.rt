//! What the footprints of a design are.

ghost use Rattle.vs_reads.specs.Laws.{OneForEachProcess, EachIsOfItsProcess, EachHasItsBits};

/// There is one footprint for each process, whose lists are those of the process in ascending order; in a design that elaboration gives they are bits of the design, each once, and none is left out.
pub fn footprint_law()
    ensures counts { OneForEachProcess }
    ensures lists { EachIsOfItsProcess }
    ensures bits { EachHasItsBits }
{
    vs_design::footprint_law();
}
